ghost use Rattle.std.specs.Prelude.{◌≡◌, ◌≤◌, ◌<◌, ◌+◌, nat_lt, [], ◌∷◌, false};
ghost use Rattle.out_tray.specs.Tray.{frame_room, spare};
ghost use Rattle.typed_session.specs.Seconds.{after_second, again_by, heeded, lapsed_by, once_more};
ghost use Rattle.typed_session.specs.Follows.{Says, frames_from, with_sent};

use crate::host::{Asked, Host, Lapsed};
use crate::round::new_round;
use crate::second::wind;
use crate::waiting::idle_time;
use out_tray::Tray;

impl Asked {
    // Whether the request was sent too often to be sent again.
    fn is_spent(&self) -> bool
        ensures value { result ≡ nat_lt 3 (self.now.sent + 1) }
        ensures room { result ≡ false → self.now.sent < 3 }
    {
        self.sent >= 3
    }

    // The request is sent again.
    fn send_again(&mut self, tray: &mut Tray)
        requires few { self.old.sent < 3 }
        requires spare { frame_room ≤ spare tray.old }
        ensures asked { self.new ≡ once_more self.old }
        ensures sent { tray.new
            ≡ with_sent (frames_from self.old.common (self.old.request.items ∷ [])) tray.old }
        ensures room { spare tray.old ≤ spare tray.new + frame_room }
    {
        self.common.send(self.request.as_slice(), tray);
        self.sent += 1;
        self.wait = idle_time(self.method);
    }
}

// What a host sends that was ignored is heeded again.
fn heed(host: &mut Host)
    ensures { host.new ≡ heeded host.old }
{
    if let Host::Ignore(a) = host {
        let asked = a.copy();
        *host = Host::Request(asked);
    }
}

// The request is sent again, the fourth time no more.
fn ask_again(host: &mut Host, tray: &mut Tray)
    requires { frame_room ≤ spare tray.old }
    ensures host { host.new ≡ (again_by host.old).host }
    ensures sent { Says host.old (again_by host.old) tray.old tray.new }
    ensures room { spare tray.old ≤ spare tray.new + frame_room }
{
    match host {
        Host::Request(a) => {
            if a.is_spent() {
                a.common.drop_request();
                let (status, tries) = (a.status, a.tries);
                new_round(host, status, false, false, tries, tray);
            } else {
                a.send_again(tray);
            }
        }
        Host::Ignore(a) => {
            if a.is_spent() {
                a.common.drop_request();
                let (status, tries) = (a.status, a.tries);
                new_round(host, status, false, false, tries, tray);
            } else {
                a.send_again(tray);
                heed(host);
            }
        }
        _ => {}
    }
}

// The server was given up.
fn lapse(host: &mut Host)
    ensures { host.new ≡ lapsed_by host.old }
{
    if let Host::Server(a) = host {
        let lapsed = Lapsed {
            common: a.common.copy(),
            status: a.status,
            tries: a.tries,
            wait: a.wait,
        };
        *host = Host::GaveUp(lapsed);
    }
}

// A second after which the host may be in another state, or is sent something; `gave_up`: in it the
// server is given up.
pub(crate) fn expire(host: &mut Host, gave_up: bool, tray: &mut Tray)
    requires { frame_room ≤ spare tray.old }
    ensures host { host.new ≡ (after_second gave_up host.old).host }
    ensures sent { Says host.old (after_second gave_up host.old) tray.old tray.new }
    ensures room { spare tray.old ≤ spare tray.new + frame_room }
{
    match host {
        Host::Request(a) => {
            a.due = wind(&mut a.common, a.status) || a.due;
            a.wait = a.wait.saturating_sub(1);
            if a.wait == 0 {
                ask_again(host, tray);
            }
        }
        Host::Ignore(a) => {
            a.due = wind(&mut a.common, a.status) || a.due;
            a.wait = a.wait.saturating_sub(1);
            if a.wait == 0 {
                ask_again(host, tray);
            }
        }
        Host::Server(a) => {
            a.due = wind(&mut a.common, a.status) || a.due;
            a.wait = a.wait.saturating_sub(1);
            if a.wait == 0 {
                a.common.drop_request();
                let (status, tries) = (a.status, a.tries);
                new_round(host, status, false, false, tries, tray);
            } else if gave_up {
                lapse(host);
            }
        }
        Host::GaveUp(a) => {
            let _due = wind(&mut a.common, a.status);
            a.wait = a.wait.saturating_sub(1);
            if a.wait == 0 {
                a.common.drop_request();
                let (status, tries) = (a.status, a.tries);
                new_round(host, status, false, false, tries, tray);
            }
        }
        Host::Authenticated(a) => {
            if wind(&mut a.common, true) {
                let tries = a.tries;
                new_round(host, true, false, false, tries, tray);
            }
        }
        Host::Held(a) => {
            a.wait = a.wait.saturating_sub(1);
            if a.wait == 0 {
                let (starts, logs_off, tries) = (a.starts, a.logs_off, a.tries);
                new_round(host, false, starts, logs_off, tries, tray);
            }
        }
        Host::Ended(_) => {}
    }
}
