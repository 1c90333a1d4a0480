ghost use Rattle.std.specs.Prelude.{◌≡◌, ◌≤◌, ◌+◌};
ghost use Rattle.out_tray.specs.Tray.{frame_room, spare};
ghost use Rattle.typed_session.specs.Moves.{after_logoff};
ghost use Rattle.typed_session.specs.Follows.{Says};

use crate::host::Host;
use crate::round::new_round;
use out_tray::Tray;

// The host logs off.
pub(crate) fn log_off(host: &mut Host, tray: &mut Tray)
    requires { frame_room ≤ spare tray.old }
    ensures host { host.new ≡ (after_logoff host.old).host }
    ensures sent { Says host.old (after_logoff host.old) tray.old tray.new }
    ensures room { spare tray.old ≤ spare tray.new + frame_room }
{
    match host {
        Host::Request(a) => {
            a.common.drop_request();
            new_round(host, false, false, false, 0, tray);
        }
        Host::Ignore(a) => {
            a.common.drop_request();
            new_round(host, false, false, false, 0, tray);
        }
        Host::Server(a) => {
            a.common.drop_request();
            new_round(host, false, false, false, 0, tray);
        }
        Host::GaveUp(a) => {
            a.common.drop_request();
            new_round(host, false, false, false, 0, tray);
        }
        Host::Authenticated(_) => new_round(host, false, false, false, 0, tray),
        Host::Held(a) => a.logs_off = true,
        Host::Ended(_) => {}
    }
}
