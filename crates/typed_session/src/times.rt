ghost use Rattle.std.specs.Prelude.{◌≡◌};
ghost use Rattle.machine_defs.specs.Words.{wanted, period};
ghost use Rattle.typed_session.specs.Moves.{timed, after_change};
ghost use Rattle.typed_session.specs.Reads.{retimed};

use crate::host::{Common, Host};
use crate::read::known;
use machine_vars::Times;

// Whether the host is authenticated again: after `again` seconds, or as the settings say where that
// is 0.
pub(crate) fn wanted(again: u32, times: &Times) -> bool
    ensures { result ≡ wanted again times.now }
{
    if again == 0 { times.reauth } else { true }
}

// And after how many seconds.
pub(crate) fn period(again: u32, times: &Times) -> u32
    ensures { result ≡ period again times.now }
{
    if again == 0 {
        times.reauth_period
    } else {
        again
    }
}

// The times of reauthentication are set, and its timer begins anew.
pub(crate) fn set_timer(common: &mut Common, again: bool, period: u32)
    ensures { common.new ≡ timed again period common.old }
{
    common.reauth = again;
    common.period = period;
    common.left = period;
}

pub(crate) fn change(host: &mut Host, again: bool, period: u32)
    ensures { host.new ≡ (after_change again period host.old).host }
{
    match host {
        Host::Request(a) => {
            set_timer(&mut a.common, again, period);
        }
        Host::Ignore(a) => {
            set_timer(&mut a.common, again, period);
        }
        Host::Server(a) => {
            set_timer(&mut a.common, again, period);
        }
        Host::GaveUp(a) => {
            set_timer(&mut a.common, again, period);
        }
        Host::Authenticated(a) => {
            set_timer(&mut a.common, again, period);
        }
        Host::Held(a) => {
            set_timer(&mut a.common, again, period);
        }
        Host::Ended(_) => {}
    }
}

// They are set to a number of seconds, or where it is 0 to those of the settings.
pub(crate) fn retime(host: &mut Host, again: u32)
    ensures { host.new ≡ retimed again host.old }
{
    if let Some(known) = known(host) {
        let on = wanted(again, &known.times);
        let period = period(again, &known.times);
        change(host, on, period);
    }
}
