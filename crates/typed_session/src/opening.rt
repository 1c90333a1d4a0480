ghost use Rattle.std.specs.Prelude.{◌≡◌, ◌≤◌, ◌+◌, false};
ghost use Rattle.machine_vars.specs.declared.control.Control.TheVariants.{Auto};
ghost use Rattle.machine_defs.specs.Live.{InRange, fresh};
ghost use Rattle.settle_defs.specs.Settle.{settled};
ghost use Rattle.out_tray.specs.Tray.{frame_room, spare};
ghost use Rattle.typed_session.specs.Stands.{opening};
ghost use Rattle.typed_session.specs.Moves.{first_round};
ghost use Rattle.typed_session.specs.Cares.{Begins};
ghost use Rattle.typed_session.specs.Follows.{EndsIn, OpensFrom};

use crate::host::{Common, Host};
use crate::round::{blank, new_round};
use arrayvec::ArrayVec;
use machine_vars::Times;
use out_tray::Tray;
use wire_core::Mac;

/// A session is opened on `port`, whose address is `own` and where authentication decides, for the
/// host `peer`, which is asked for its identity. The times are in their ranges, and 1,534 octets of
/// the tray spare, which the frame may take. No memory.
pub fn open(port: u8, own: Mac, peer: Mac, t: &Times, tray: &mut Tray) -> Host
    requires times { InRange t.now }
    requires room { frame_room ≤ spare tray.old }
    ensures opens { EndsIn (settled (fresh port own.0 peer.0 Auto t.now)) result tray.old tray.new }
    ensures begins { Begins result }
    ensures room { spare tray.old ≤ spare tray.new + frame_room }
{
    begin(port, own, peer, t, tray)
}

fn begin(port: u8, own: Mac, peer: Mac, t: &Times, tray: &mut Tray) -> Host
    requires { frame_room ≤ spare tray.old }
    ensures host { result ≡ (first_round (opening port own.0 peer.0 t.now)).host }
    ensures sent { OpensFrom (opening port own.0 peer.0 t.now) tray.old tray.new }
    ensures room { spare tray.old ≤ spare tray.new + frame_room }
{
    let mut host = Host::Request(blank(opening(port, own, peer, t)));
    new_round(&mut host, false, false, false, 0, tray);
    host
}

fn opening(port: u8, own: Mac, peer: Mac, t: &Times) -> Common
    ensures { result ≡ opening port own.0 peer.0 t.now }
{
    let own = own.0;
    let peer = peer.0;
    Common {
        port,
        own,
        peer,
        times: *t,
        id: 0,
        reauth: t.reauth,
        period: t.reauth_period,
        left: 0,
        ask: false,
        abort: false,
        identity: ArrayVec::new(),
    }
}
