//! What the hosts of sessions are authorised for, and what is told where that changes.

ghost use Rattle.std.specs.Prelude.{◌≡◌, ◌≤◌, ◌+◌, length, true};
ghost use Rattle.host_session.specs.Sits.{right_in};
ghost use Rattle.switch_defs.specs.Switch.{Host, Session, State, hosts, port_address as address_of, port_of};
ghost use Rattle.switch_defs.specs.Decide.{authorised, restricted_of};
ghost use Rattle.switch_defs.specs.Session.{no_guests};
ghost use Rattle.switch_defs.specs.Sound.{AreApart, confs};
ghost use Rattle.table_defs.specs.Told.{HasConf};
ghost use Rattle.turn_defs.specs.Parts.{Near};
ghost use Rattle.turn_defs.specs.Walks.{Next};
ghost use Rattle.control_core.specs.Stands.{Holds, Lags};
ghost use Rattle.control_core.specs.Does.{IsOfHost, TellsOn};
ghost use Rattle.control_core.specs.Notes.{Notes};

use crate::state::Core;
use arrayvec::ArrayVec;
use host_sessions::port_address;
use switch_event::Config;
use table_defs::Item;
use wire_core::Mac;

impl Core {
    // The VLAN of hosts that the server rejected on a port; 0 where there is none.
    pub(crate) fn restricted(&self, port: u8) -> u16
        ensures { (s : State) → Holds self.now s → result ≡ restricted_of (port_of port s) }
    {
        match self.ports.port(port) {
            Some(port) => port.conf().restricted,
            None => 0,
        }
    }

    // The session's number and the VLAN of a host of a port, where it is authorised.
    pub(crate) fn right(&self, port: u8, mac: Mac) -> Option<(u32, u16)>
        ensures { (s : State) → Holds self.now s → right_in result ≡ authorised s port mac.0 }
    {
        match self.sessions.find(port, mac) {
            Some(at) => self.sessions.right(at, self.restricted(port)),
            None => None,
        }
    }

    // The same of the n-th session, which is on this port: its places are not looked at.
    pub(crate) fn right_at(&self, n: usize, port: u8) -> Option<(u32, u16)>
        ensures { (s : State) (y : Session) → Holds self.now s → AreApart (hosts s) →
            Next y n s → y.host.port ≡ port →
            right_in result ≡ authorised s y.host.port y.host.address }
    {
        match self.sessions.place_at(n) {
            Some(at) => self.sessions.right(at, self.restricted(port)),
            None => None,
        }
    }

    // The address of a port.
    pub(crate) fn own(&self, port: u8) -> Mac
        ensures { result.0 ≡ address_of self.now.config.bridge port }
    {
        port_address(bridge(&self.config), port)
    }

    // A port of which a session was closed waits anew before guests are let in, where it has none left.
    pub(crate) fn arm_if(&mut self, closed: bool, port: u8)
        ensures holds { (t : State) → Lags closed port self.old t → Holds self.new t }
        ensures made { self.new.made ≡ self.old.made }
        ensures sessions { self.new.sessions ≡ self.old.sessions }
    {
        if closed {
            self.arm(port);
        }
    }

    // A port without a session waits anew before guests are let in.
    pub(crate) fn arm(&mut self, port: u8)
        ensures holds { (t : State) → Lags true port self.old t → Holds self.new t }
        ensures made { self.new.made ≡ self.old.made }
        ensures sessions { self.new.sessions ≡ self.old.sessions }
    {
        let occupied = self.sessions.count(port) != 0;
        let wait = guest_wait(&self.config);
        self.ports.arm(port, occupied, wait);
    }

    // A port lets no guests in, and does not wait to, which is told where it did.
    pub(crate) fn shut_out_guests(&mut self, port: u8, items: &mut ArrayVec<Item, 1024>)
        requires { length items.old.items + 1 ≤ 1024 }
        ensures holds { (s : State) → Holds self.old s → Holds self.new (no_guests port s) }
        ensures told { (s : State) → Holds self.old s → HasConf (confs s.ports) port →
            TellsOn s (no_guests port s) items.old.items items.new.items }
        ensures few { length items.new.items ≤ length items.old.items + 1 }
        ensures made { self.new.made ≡ self.old.made }
    {
        if self.ports.no_guests(port) {
            items.push(Item::Guest { port, on: false });
        }
    }

    // After something was done to the session of a host of a port, which was closed or not: a closed
    // one's port is armed, and what has changed of its right is told.
    pub(crate) fn follow(
        &mut self,
        port: u8,
        mac: Mac,
        closed: bool,
        before: Option<(u32, u16)>,
        items: &mut ArrayVec<Item, 1024>,
    )
        requires { length items.old.items + 1 ≤ 1024 }
        ensures holds { (t : State) → Lags closed port self.old t → Holds self.new t }
        ensures told { (s t : State) (h : Host) → Lags closed port self.old t →
            IsOfHost h port mac.0 → right_in before ≡ authorised s port mac.0 → Near h s t →
            TellsOn s t items.old.items items.new.items }
        ensures few { length items.new.items ≤ length items.old.items + 1 }
        ensures made { self.new.made ≡ self.old.made }
    {
        self.arm_if(closed, port);
        let after = self.right(port, mac);
        note(port, mac, before, after, items);
    }
}

// The address of the bridge.
fn bridge(c: &Config) -> Mac
    ensures { result.0 ≡ c.now.bridge }
{
    c.bridge
}

// How long nobody may answer before guests are let in.
fn guest_wait(c: &Config) -> u32
    ensures { result ≡ c.now.guest_wait }
{
    c.guest_wait
}

// Tells of a host of a port where what it is authorised for has changed.
pub(crate) fn note(
    port: u8,
    mac: Mac,
    before: Option<(u32, u16)>,
    after: Option<(u32, u16)>,
    items: &mut ArrayVec<Item, 1024>,
)
    requires { length items.old.items + 1 ≤ 1024 }
    ensures notes { (h : Host) → IsOfHost h port mac.0 →
        Notes h (right_in before) (right_in after) items.old.items items.new.items }
    ensures few { length items.new.items ≤ length items.old.items + 1 }
{
    if before == after {
        return;
    }
    items.push(match after {
        Some((session, vlan)) => Item::Let {
            port,
            mac,
            session,
            vlan,
        },
        None => Item::Bar { port, mac },
    });
}
