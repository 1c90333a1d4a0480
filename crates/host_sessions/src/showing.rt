//! What the sessions show: to dynamic requests, and to those that forward frames.

ghost use Rattle.std.specs.Prelude.{◌≡◌, None, Some, map, slice_get};
ghost use Rattle.std.specs.Option.{option_map};
ghost use Rattle.session_table.specs.Slots.{held_at};
ghost use Rattle.dynauth_server.specs.Roll as roll;
ghost use Rattle.host_session.specs.Sits.{right_in};
ghost use Rattle.switch_defs.specs.Switch as switch;
ghost use Rattle.switch_defs.specs.Switch.{State};
ghost use Rattle.switch_defs.specs.Decide.{right_by};
ghost use Rattle.switch_defs.specs.Dynamic.{row_of};
ghost use Rattle.switch_defs.specs.Laws.{IsBetween};
ghost use Rattle.host_sessions.specs.Holds.{Holds};
ghost use Rattle.host_sessions.specs.Finds.{IsAt};

use crate::sessions::Sessions;
use dynauth_server::RollRow;
use wire_core::Mac;

impl Sessions {
    /// The number of the session at a place, and the VLAN that its host is forwarded into, where the
    /// restricted VLAN of its port is this, or 0 for none (IEEE Std 802.1X-2004, 8.2.2.2). None
    /// exactly where it is not forwarded, or no session is there.
    pub fn right(&self, at: usize, restricted: u16) -> Option<(u32, u16)>
        ensures right { (y : switch.Session) (s : State) → IsAt at y self.now s →
            right_in result ≡ right_by restricted y }
        ensures none { held_at at self.now.slots ≡ None → result ≡ None }
    {
        match self.slots.get(at) {
            Some(session) => session.right(restricted),
            None => None,
        }
    }

    /// The port and the address of the host of the session at a place; none exactly where there is none.
    pub fn key(&self, at: usize) -> Option<(u8, Mac)>
        ensures key { (y : switch.Session) (s : State) → IsAt at y self.now s →
            result ≡ Some (y.host.port, record { 0 = y.host.address }) }
        ensures none { held_at at self.now.slots ≡ None → result ≡ None }
    {
        self.slots.key(at)
    }

    /// What a dynamic request can know the n-th session by, counted from 0 in rising order of numbers;
    /// none exactly where there are no more (RFC 5176, 3).
    pub fn row(&self, n: usize) -> Option<RollRow<'_>>
        ensures { (s : State) → Holds self.now s → IsBetween s →
            option_map roll.row_of result ≡ slice_get (map row_of s.sessions) n }
    {
        let at = self.place_at(n)?;
        let (port, mac) = self.slots.key(at)?;
        let session = self.slots.get(at)?;
        Some(RollRow {
            number: session.number,
            port,
            mac,
            identity: session.identity(),
            authorised: session.authorised(),
        })
    }
}
