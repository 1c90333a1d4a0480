ghost use Rattle.std.specs.Prelude.{◌≡◌, ◌≤◌, ◌+◌, [], ◌∷◌, length};
ghost use Rattle.machine_defs.specs.EapTable.{next_id};
ghost use Rattle.machine_defs.specs.Live.{as_octets};
ghost use Rattle.out_tray.specs.Tray.{frame_room, spare};
ghost use Rattle.typed_session.specs.Moves.{dropped};
ghost use Rattle.typed_session.specs.Follows.{frames_from, with_sent};

use crate::host::Common;
use arrayvec::ArrayVec;
use out_tray::Tray;
use wire_core::Mac;

impl Common {
    pub(crate) fn copy(&self) -> Common
        ensures { result ≡ self.now }
    {
        let mut identity = ArrayVec::new();
        let _fits = identity.try_extend_from_slice(self.identity.as_slice());
        Common {
            port: self.port,
            own: self.own,
            peer: self.peer,
            times: self.times,
            id: self.id,
            reauth: self.reauth,
            period: self.period,
            left: self.left,
            ask: self.ask,
            abort: self.abort,
            identity,
        }
    }

    // What was asked of the server is no longer wanted.
    pub(crate) fn drop_request(&mut self)
        ensures { self.new ≡ dropped self.old }
    {
        self.ask = false;
        self.abort = true;
    }

    // Sends an EAP packet to the host.
    pub(crate) fn send(&self, eap: &[u8], tray: &mut Tray)
        requires short { length eap.now ≤ 1500 }
        requires spare { frame_room ≤ spare tray.old }
        ensures sent { tray.new ≡ with_sent (frames_from self.now (eap.now ∷ [])) tray.old }
        ensures room { spare tray.old ≤ spare tray.new + frame_room }
    {
        eap_frames::put(self.port, Mac(self.own), Mac(self.peer), eap, tray);
    }
}

// The identifier after this one (RFC 3748, 4.1).
pub(crate) fn next_id(id: u8) -> u8
    ensures { result ≡ next_id id }
{
    id.wrapping_add(1)
}

pub(crate) fn octets(eap: &[u8]) -> ArrayVec<u8, 1500>
    requires { length eap.now ≤ 1500 }
    ensures { result ≡ as_octets eap.now }
{
    let mut octets = ArrayVec::new();
    let _fits = octets.try_extend_from_slice(eap);
    octets
}

// From now on it has these octets.
pub(crate) fn fill(octets: &mut ArrayVec<u8, 1500>, eap: &[u8])
    requires { length eap.now ≤ 1500 }
    ensures { octets.new ≡ as_octets eap.now }
{
    octets.clear();
    let _fits = octets.try_extend_from_slice(eap);
}
