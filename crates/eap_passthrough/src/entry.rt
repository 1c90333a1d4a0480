// What each state does as it is entered (RFC 4137, 7).

ghost use Rattle.std.specs.Prelude.{◌≡◌, ◌<◌, true, length};
ghost use Rattle.machine_defs.specs.EapTable.{fits, next_id, start, idle2, retransmit2, discard2, aaa_request, aaa_idle, aaa_response, send_request2};

use crate::response::is_identity;
use machine_vars::{EapState, Vars};

fn next_id(id: u8) -> u8
    ensures { result ≡ next_id id }
{
    id.wrapping_add(1)
}

pub(crate) fn enter_start(v: &mut Vars)
    ensures { v.new ≡ start v.old }
{
    let id = next_id(v.current_id);
    v.eap = EapState::Start;
    v.eap_restart = false;
    v.eap_success = false;
    v.eap_fail = false;
    v.eap_timeout = false;
    v.eap_no_req = false;
    v.eap_resp = false;
    v.current_id = id;
    v.last_req_data.clear();
    let _fits = v.last_req_data.try_extend_from_slice(&[1, id, 0, 5, 1]);
    v.local = true;
    v.method_timeout = 0;
    v.retrans_count = 0;
    v.eap_req = true;
}

pub(crate) fn enter_idle2(v: &mut Vars)
    ensures { v.new ≡ idle2 v.old }
{
    v.eap = EapState::Idle2;
    v.retrans_while = if v.method_timeout == 0 {
        10
    } else {
        v.method_timeout
    };
}

pub(crate) fn enter_retransmit2(v: &mut Vars)
    requires { v.old.retrans_count < 4294967295 }
    ensures { v.new ≡ retransmit2 v.old }
{
    v.eap = EapState::Retransmit2;
    v.retrans_count += 1;
    if v.retrans_count <= 3 {
        v.eap_req = true;
    }
}

pub(crate) fn enter_discard2(v: &mut Vars)
    ensures { v.new ≡ discard2 v.old }
{
    v.eap = EapState::Discard2;
    v.eap_resp = false;
    v.eap_no_req = true;
}

pub(crate) fn enter_aaa_request(v: &mut Vars)
    requires { fits v.old ≡ true }
    ensures { v.new ≡ aaa_request v.old }
{
    v.eap = EapState::AaaRequest;
    if is_identity(v.eap_resp_data.as_slice()) {
        v.identity.clear();
        let _fits = v
            .identity
            .try_extend_from_slice(&v.eap_resp_data.as_slice()[5..]);
    }
}

pub(crate) fn enter_aaa_idle(v: &mut Vars)
    ensures { v.new ≡ aaa_idle v.old }
{
    v.eap = EapState::AaaIdle;
    v.aaa_eap_req = false;
    v.aaa_eap_no_req = false;
    v.aaa_timeout = false;
    v.aaa_fail = false;
    v.aaa_success = false;
    v.aaa_eap_resp = true;
}

pub(crate) fn enter_aaa_response(v: &mut Vars)
    requires { 1 < length v.old.aaa_eap_req_data.items }
    ensures { v.new ≡ aaa_response v.old }
{
    v.eap = EapState::AaaResponse;
    v.last_req_data.clear();
    let _fits = v
        .last_req_data
        .try_extend_from_slice(v.aaa_eap_req_data.as_slice());
    v.current_id = v.aaa_eap_req_data.as_slice()[1];
    v.local = false;
}

pub(crate) fn enter_send_request2(v: &mut Vars)
    ensures { v.new ≡ send_request2 v.old }
{
    v.eap = EapState::SendRequest2;
    v.retrans_count = 0;
    v.eap_resp = false;
    v.eap_req = true;
}
