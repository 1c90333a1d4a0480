ghost use Rattle.std.specs.Prelude.{◌≡◌, ◌≤◌, length, None, false};
ghost use Rattle.machine_defs.specs.BackendTable.{is_auto};
ghost use Rattle.machine_defs.specs.Settling.{next};
ghost use Rattle.machine_defs.specs.Settled.{Settled};
ghost use Rattle.machine_defs.specs.Live.{Live, Ready, set, cleared, to_all, as_octets, Start, Logoff, Greeting, Packet, Challenge, Notice, Accept, Reject, Second, Change};

use machine_vars::{Control, Vars};
use wire_core::Mac;
use wire_defs::PAE_GROUP;

/// The host begins, or begins anew. To be settled.
pub fn start(v: &mut Vars)
    requires { Live v.old }
    ensures value { v.new ≡ set Start v.old }
    ensures ready { Ready v.new }
{
    v.eapol_start = true;
}

/// The host logs off. To be settled.
pub fn log_off(v: &mut Vars)
    requires { Live v.old }
    ensures value { v.new ≡ set Logoff v.old }
    ensures ready { Ready v.new }
{
    v.eapol_logoff = true;
}

/// The host `source` begins on a forced port, which answers it alone. To be settled, and then given
/// to [`to_all`].
pub fn greet(v: &mut Vars, source: Mac)
    requires live { Live v.old }
    requires forced { is_auto v.old.port_control ≡ false }
    ensures value { v.new ≡ set (Greeting source.0) v.old }
    ensures ready { Ready v.new }
{
    let peer = source.0;
    v.eapol_start = true;
    v.peer = peer;
}

/// A forced port speaks to the group of all port access entities again (IEEE Std 802.1X-2004, 7.8). A
/// settled value stays settled.
pub fn to_all(v: &mut Vars)
    requires live { Live v.old }
    requires forced { is_auto v.old.port_control ≡ false }
    ensures value { v.new ≡ to_all v.old }
    ensures live { Live v.new }
    ensures idle { next v.old ≡ None → next v.new ≡ None }
    ensures settled { Settled v.old → Settled v.new }
{
    v.peer = PAE_GROUP;
}

/// An EAP packet of the host, of at most 1,500 octets. To be settled.
pub fn receive(v: &mut Vars, eap: &[u8])
    requires live { Live v.old }
    requires short { length eap.now ≤ 1500 }
    ensures value { v.new ≡ set (Packet eap.now) v.old }
    ensures ready { Ready v.new }
{
    v.rx_eap.clear();
    let _fits = v.rx_eap.try_extend_from_slice(eap);
    v.eapol_eap = true;
}

/// The server asks on, with an EAP packet of 2 to 1,500 octets, whose response is to be waited for
/// `wait` seconds; 0 where the server has not said. To be settled.
pub fn challenge(v: &mut Vars, eap: &[u8], wait: u32)
    requires live { Live v.old }
    requires long { 2 ≤ length eap.now }
    requires short { length eap.now ≤ 1500 }
    ensures value { v.new ≡ set (Challenge eap.now wait) v.old }
    ensures ready { Ready v.new }
{
    from_server(v, eap);
    v.aaa_eap_req = true;
    v.method_timeout = wait;
}

/// The server asks on without an EAP packet. To be settled.
pub fn notice(v: &mut Vars)
    requires { Live v.old }
    ensures value { v.new ≡ set Notice v.old }
    ensures ready { Ready v.new }
{
    v.aaa_eap_no_req = true;
}

/// The server accepts, with an EAP packet of 2 to 1,500 octets; `again`: the host is to be
/// authenticated again, after `period` seconds, at least 1. To be settled.
pub fn accept(v: &mut Vars, eap: &[u8], again: bool, period: u32)
    requires live { Live v.old }
    requires long { 2 ≤ length eap.now }
    requires short { length eap.now ≤ 1500 }
    requires period { 1 ≤ period }
    ensures value { v.new ≡ set (Accept eap.now again period) v.old }
    ensures ready { Ready v.new }
{
    from_server(v, eap);
    v.aaa_success = true;
    set_times(v, again, period);
}

/// The server refuses, or what it grants does not fit, with an EAP packet of 2 to 1,500 octets. To
/// be settled.
pub fn reject(v: &mut Vars, eap: &[u8])
    requires live { Live v.old }
    requires long { 2 ≤ length eap.now }
    requires short { length eap.now ≤ 1500 }
    ensures value { v.new ≡ set (Reject eap.now) v.old }
    ensures ready { Ready v.new }
{
    from_server(v, eap);
    v.aaa_fail = true;
}

/// A second goes by; `gave_up`: in it the server is given up. To be settled.
pub fn second(v: &mut Vars, gave_up: bool)
    requires { Live v.old }
    ensures value { v.new ≡ set (Second gave_up) v.old }
    ensures ready { Ready v.new }
{
    tick(v, gave_up);
}

/// The server changes whether the host is authenticated again, and after how many seconds, at least
/// 1 (RFC 5176, 3.6). A settled value stays settled.
pub fn change(v: &mut Vars, again: bool, period: u32)
    requires live { Live v.old }
    requires settled { next v.old ≡ None }
    requires period { 1 ≤ period }
    ensures value { v.new ≡ set (Change again period) v.old }
    ensures live { Live v.new }
    ensures idle { next v.new ≡ None }
    ensures settled { Settled v.new }
{
    set_times(v, again, period);
}

/// What a settling asked for was done: the request to the server was sent, or the one that is open
/// was dropped. What [`machine_vars::Wants`] names is taken back, but for the end of the session. A settled
/// value stays settled.
pub fn acknowledge(v: &mut Vars)
    requires { Live v.old }
    ensures value { v.new ≡ cleared v.old }
    ensures live { Live v.new }
    ensures idle { next v.old ≡ None → next v.new ≡ None }
    ensures settled { Settled v.old → Settled v.new }
{
    v.aaa_abort = false;
    v.aaa_eap_resp = false;
}

fn from_server(v: &mut Vars, eap: &[u8])
    requires { length eap.now ≤ 1500 }
    ensures { v.new ≡ record v.old { aaa_eap_req_data = as_octets eap.now } }
{
    v.aaa_eap_req_data.clear();
    let _fits = v.aaa_eap_req_data.try_extend_from_slice(eap);
}

fn set_times(v: &mut Vars, again: bool, period: u32)
    ensures { v.new ≡ set (Change again period) v.old }
{
    v.re_auth_enabled = again;
    v.re_auth_period = period;
    v.re_auth_when = period;
}

// The timers fall.
fn tick(v: &mut Vars, gave_up: bool)
    ensures { v.new ≡ set (Second gave_up) v.old }
{
    let stops = v.port_control != Control::Auto
        || v.initialize
        || !v.auth_port_status
        || !v.re_auth_enabled;
    v.quiet_while = v.quiet_while.saturating_sub(1);
    v.a_while = v.a_while.saturating_sub(1);
    v.retrans_while = v.retrans_while.saturating_sub(1);
    if !stops {
        v.re_auth_when = v.re_auth_when.saturating_sub(1);
    }
    v.aaa_timeout = v.aaa_timeout || gave_up;
}
