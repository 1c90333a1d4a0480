ghost use Rattle.std.specs.Prelude.{◌≡◌, ◌≤◌, ◌+◌, not, true, false};
ghost use Rattle.out_tray.specs.Tray.{frame_room, spare};
ghost use Rattle.typed_session.specs.Seconds.{Ticks, after_second, fallen, is_due, is_idle, is_still, time_left, wound};
ghost use Rattle.typed_session.specs.Follows.{Says};

use crate::expiry::expire;
use crate::host::{Admitted, Common, Host};
use out_tray::Tray;

// Whether the timer of reauthentication stands: while the host is not Authorized, or not to be
// authenticated again (IEEE Std 802.1X-2004, 8.2.8).
fn is_still(common: &Common, status: bool) -> bool
    ensures { result ≡ is_still status common.now }
{
    !status || !common.reauth
}

// What it has left after a second.
fn time_left(common: &Common, status: bool) -> u32
    ensures { result ≡ time_left status common.now }
{
    if is_still(common, status) {
        common.left
    } else {
        common.left.saturating_sub(1)
    }
}

// Whether it has run out with that left.
fn is_due(common: &Common, status: bool, left: u32) -> bool
    ensures { result ≡ is_due status common.now left }
{
    !is_still(common, status) && left == 0
}

// It falls by a second. Whether it has run out; then it begins anew.
pub(crate) fn wind(common: &mut Common, status: bool) -> bool
    ensures timer { common.new ≡ wound status common.old (time_left status common.old) }
    ensures due { result ≡ is_due status common.old (time_left status common.old) }
{
    let left = time_left(common, status);
    let due = is_due(common, status, left);
    common.left = if due { common.period } else { left };
    due
}

impl Admitted {
    // The timer falls by a second in which it does not run out. Whether it was one; else nothing is
    // done.
    fn fall(&mut self) -> bool
        ensures due { result ≡ not (is_due true self.old.common (time_left true self.old.common)) }
        ensures falls { result ≡ true → self.new ≡ fallen self.old }
        ensures stays { result ≡ false → self.new ≡ self.old }
    {
        let left = time_left(&self.common, true);
        if is_due(&self.common, true, left) {
            return false;
        }
        self.common.left = left;
        true
    }
}

// A second of a host that is let in, in which nothing falls due and nothing is left to be done for
// the server's side. Whether it was one; else nothing is done.
pub(crate) fn idle(host: &mut Host) -> bool
    ensures idle { result ≡ is_idle host.old }
    ensures ticks { Ticks false result host.old host.new }
{
    match host {
        Host::Authenticated(a) => !(a.common.ask || a.common.abort) && a.fall(),
        _ => false,
    }
}

// A second in which the host stays in its state and nothing is sent. Whether it was one; else
// nothing is done. Most seconds are, so the host is changed in place, without a value of its size.
fn tick(host: &mut Host, gave_up: bool) -> bool
    ensures { Ticks gave_up result host.old host.new }
{
    match host {
        Host::Request(a) => {
            let wait = a.wait.saturating_sub(1);
            if wait == 0 {
                return false;
            }
            a.wait = wait;
            a.due = wind(&mut a.common, a.status) || a.due;
        }
        Host::Ignore(a) => {
            let wait = a.wait.saturating_sub(1);
            if wait == 0 {
                return false;
            }
            a.wait = wait;
            a.due = wind(&mut a.common, a.status) || a.due;
        }
        Host::Server(a) => {
            let wait = a.wait.saturating_sub(1);
            if wait == 0 || gave_up {
                return false;
            }
            a.wait = wait;
            a.due = wind(&mut a.common, a.status) || a.due;
        }
        Host::GaveUp(a) => {
            let wait = a.wait.saturating_sub(1);
            if wait == 0 {
                return false;
            }
            let _due = wind(&mut a.common, a.status);
            a.wait = wait;
        }
        Host::Authenticated(a) => return a.fall(),
        Host::Held(a) => {
            let wait = a.wait.saturating_sub(1);
            if wait == 0 {
                return false;
            }
            a.wait = wait;
        }
        Host::Ended(_) => {}
    }
    true
}

// A second goes by; `gave_up`: in it the server is given up.
pub(crate) fn second(host: &mut Host, gave_up: bool, tray: &mut Tray)
    requires { frame_room ≤ spare tray.old }
    ensures host { host.new ≡ (after_second gave_up host.old).host }
    ensures sent { Says host.old (after_second gave_up host.old) tray.old tray.new }
    ensures room { spare tray.old ≤ spare tray.new + frame_room }
{
    if !tick(host, gave_up) {
        expire(host, gave_up, tray);
    }
}
