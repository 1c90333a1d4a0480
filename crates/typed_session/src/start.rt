ghost use Rattle.std.specs.Prelude.{◌≡◌, ◌≤◌, ◌+◌};
ghost use Rattle.out_tray.specs.Tray.{frame_room, spare};
ghost use Rattle.typed_session.specs.Moves.{after_start};
ghost use Rattle.typed_session.specs.Follows.{Says};

use crate::host::Host;
use crate::round::new_round;
use out_tray::Tray;

// The host begins, or begins anew.
pub(crate) fn start(host: &mut Host, tray: &mut Tray)
    requires { frame_room ≤ spare tray.old }
    ensures host { host.new ≡ (after_start host.old).host }
    ensures sent { Says host.old (after_start host.old) tray.old tray.new }
    ensures room { spare tray.old ≤ spare tray.new + frame_room }
{
    match host {
        Host::Request(a) => {
            a.common.drop_request();
            let (status, tries) = (a.status, a.tries);
            new_round(host, status, true, false, tries, tray);
        }
        Host::Ignore(a) => {
            a.common.drop_request();
            let (status, tries) = (a.status, a.tries);
            new_round(host, status, true, false, tries, tray);
        }
        Host::Server(a) => {
            a.common.drop_request();
            let (status, tries) = (a.status, a.tries);
            new_round(host, status, true, false, tries, tray);
        }
        Host::GaveUp(a) => {
            a.common.drop_request();
            let (status, tries) = (a.status, a.tries);
            new_round(host, status, true, false, tries, tray);
        }
        Host::Authenticated(a) => {
            let tries = a.tries;
            new_round(host, true, true, false, tries, tray);
        }
        Host::Held(a) => a.starts = true,
        Host::Ended(_) => {}
    }
}
