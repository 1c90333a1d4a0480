ghost use Rattle.std.specs.Prelude.{◌≡◌, ◌≤◌, ◌<◌, ◌+◌, length};
ghost use Rattle.out_tray.specs.Tray.{answer_room, frame_room, spare};
ghost use Rattle.typed_session.specs.Moves.{admitted_by, after_accept, after_challenge, after_notice, after_reject, asked_on_by, from_server, kept_by, shut_out_by, waiting_again, waiting_by};
ghost use Rattle.typed_session.specs.Follows.{Says};

use crate::common::octets;
use crate::host::{Admitted, Asked, Host, Refused, Served};
use crate::read::common;
use crate::receive::receive;
use crate::round::new_round;
use crate::times::{change, set_timer};
use crate::waiting::idle_time;
use out_tray::Tray;

// The server's request goes to the host.
fn from_server(eap: &[u8], wait: u32, a: &Served) -> Asked
    requires long { 2 ≤ length eap.now }
    requires short { length eap.now ≤ 1500 }
    ensures { result ≡ from_server eap.now wait a.now }
{
    let mut common = a.common.copy();
    common.id = eap[1];
    Asked {
        common,
        status: a.status,
        tries: a.tries,
        sent: 0,
        wait: idle_time(wait),
        method: wait,
        local: false,
        due: a.due,
        request: octets(eap),
    }
}

fn ask_on(host: &mut Host, eap: &[u8], wait: u32)
    requires long { 2 ≤ length eap.now }
    requires short { length eap.now ≤ 1500 }
    ensures { host.new ≡ asked_on_by eap.now wait host.old }
{
    if let Host::Server(a) = host {
        let asked = from_server(eap, wait, a);
        *host = Host::Request(asked);
    }
}

// The server asks on. Where it was not asked only the time for a response is taken over.
pub(crate) fn challenge(host: &mut Host, eap: &[u8], wait: u32, tray: &mut Tray)
    requires long { 2 ≤ length eap.now }
    requires short { length eap.now ≤ 1500 }
    requires spare { frame_room ≤ spare tray.old }
    ensures host { host.new ≡ (after_challenge eap.now wait host.old).host }
    ensures sent { Says host.old (after_challenge eap.now wait host.old) tray.old tray.new }
    ensures room { spare tray.old ≤ spare tray.new + frame_room }
{
    match host {
        Host::Request(a) => a.method = wait,
        Host::Ignore(a) => a.method = wait,
        Host::Server(a) => {
            a.common.send(eap, tray);
            ask_on(host, eap, wait);
        }
        _ => {}
    }
}

// The host is waited for as before its response.
fn waiting_again(a: &Served) -> Asked
    ensures { result ≡ waiting_again a.now }
{
    Asked {
        common: a.common.copy(),
        status: a.status,
        tries: a.tries,
        sent: a.sent,
        wait: idle_time(a.method),
        method: a.method,
        local: a.local,
        due: a.due,
        request: octets(a.request.as_slice()),
    }
}

fn wait_again(host: &mut Host)
    ensures { host.new ≡ waiting_by host.old }
{
    if let Host::Server(a) = host {
        let asked = waiting_again(a);
        *host = Host::Ignore(asked);
    }
}

// The server asks on without a packet: a packet of the host that came since is looked at.
pub(crate) fn notice(host: &mut Host)
    ensures { host.new ≡ (after_notice host.old).host }
{
    if let Host::Server(a) = host {
        if a.heard {
            let latest = octets(a.latest.as_slice());
            wait_again(host);
            receive(host, latest.as_slice());
        } else {
            wait_again(host);
        }
    }
}

// The host is let in.
fn let_in(host: &mut Host)
    ensures { host.new ≡ admitted_by (kept_by host.old) host.old }
{
    if let Some(common) = common(host) {
        let admitted = Admitted {
            common: common.copy(),
            tries: 0,
        };
        *host = Host::Authenticated(admitted);
    }
}

// The server accepts: the host is let in, and asked anew at once where that is due. Where the server
// was not asked only the times are taken over.
pub(crate) fn accept(host: &mut Host, eap: &[u8], again: bool, period: u32, tray: &mut Tray)
    requires short { length eap.now ≤ 1500 }
    requires spare { answer_room ≤ spare tray.old }
    ensures host { host.new ≡ (after_accept eap.now again period host.old).host }
    ensures sent { Says host.old (after_accept eap.now again period host.old) tray.old tray.new }
    ensures room { spare tray.old ≤ spare tray.new + answer_room }
{
    if let Host::Server(a) = host {
        a.common.send(eap, tray);
        set_timer(&mut a.common, again, period);
        if a.due {
            new_round(host, true, false, false, 0, tray);
        } else {
            let_in(host);
        }
    } else {
        change(host, again, period);
    }
}

// The host is shut out for the quiet period.
fn shut_out(host: &mut Host)
    ensures { host.new ≡ shut_out_by host.old }
{
    if let Host::Server(a) = host {
        let refused = Refused {
            common: a.common.copy(),
            tries: a.tries,
            wait: a.common.times.quiet,
            starts: false,
            logs_off: false,
        };
        *host = Host::Held(refused);
    }
}

// The server refuses.
pub(crate) fn refuse(host: &mut Host, eap: &[u8], tray: &mut Tray)
    requires short { length eap.now ≤ 1500 }
    requires spare { frame_room ≤ spare tray.old }
    ensures host { host.new ≡ (after_reject eap.now host.old).host }
    ensures sent { Says host.old (after_reject eap.now host.old) tray.old tray.new }
    ensures room { spare tray.old ≤ spare tray.new + frame_room }
{
    if let Host::Server(a) = host {
        a.common.send(eap, tray);
        shut_out(host);
    }
}
