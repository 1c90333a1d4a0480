ghost use Rattle.std.specs.Prelude.{◌≡◌, ◌≤◌, ◌+◌};
ghost use Rattle.machine_defs.specs.Live.{InRange};
ghost use Rattle.out_tray.specs.Tray.{frame_room, spare};
ghost use Rattle.switch_defs.specs.Session.{Another};
ghost use Rattle.host_session.specs.Settles.{Settles, beginning};

use crate::session::Session;
use machine_vars::{Times, Wants};
use out_tray::Tray;
use wire_core::Mac;

/// A session with this number opens for the host `peer`, on `port` with the address `own` and this
/// native VLAN, and asks the host for its identity. The times are in their ranges, and 1,534 octets of
/// the tray spare, which the frame may take. What is wanted of the server's side is the caller's to do.
pub fn open(
    number: u32,
    port: u8,
    own: Mac,
    peer: Mac,
    native: u16,
    times: &Times,
    tray: &mut Tray,
) -> (Session, Wants)
    requires times { InRange times.now }
    requires room { frame_room ≤ spare tray.old }
    ensures settles { Settles Another (beginning port own.0 peer.0 native times.now) result.0 result.1
        tray.old tray.new }
    ensures number { result.0.number ≡ number }
    ensures room { spare tray.old ≤ spare tray.new + frame_room }
{
    let host = typed_session::open(port, own, peer, times, tray);
    let mut session = Session {
        number,
        host,
        vlan: native,
        state: None,
        end_while: 0,
        restricted: false,
    };
    let wants = session.rest();
    (session, wants)
}
