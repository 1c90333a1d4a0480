ghost use Rattle.std.specs.Prelude.{◌≡◌, ◌<◌, Some, None, true, false, length};
ghost use Rattle.machine_defs.specs.Table.{TakesFirst};
ghost use Rattle.machine_defs.specs.EapTable.{eap_table};
ghost use Rattle.machine_vars.specs.declared.states.EapState.TheVariants.{AaaIdle, Idle2, Received2};

use crate::entry::{
    enter_aaa_idle, enter_aaa_request, enter_aaa_response, enter_discard2, enter_idle2,
    enter_retransmit2, enter_send_request2, enter_start,
};
use crate::response::response_fits;
use machine_vars::{EapState, Row, Vars};

/// Takes the enabled row of least number of the EAP machine's table, E1 to E17, and names it (RFC
/// 4137, 7). `None` comes exactly where none of its rows is enabled, as once the session is gone;
/// nothing is changed then.
pub fn step(v: &mut Vars) -> Option<Row>
    requires count { v.old.retrans_count < 4294967295 }
    requires held { v.old.aaa_eap_req ≡ true → 1 < length v.old.aaa_eap_req_data.items }
    ensures { TakesFirst eap_table v.old result v.new }
{
    if v.gone {
        return None;
    }
    if v.eap_restart {
        enter_start(v);
        return Some(Row::E(1));
    }
    match v.eap {
        EapState::Start => {
            enter_idle2(v);
            Some(Row::E(2))
        }
        EapState::Idle2 => from_idle2(v),
        EapState::Retransmit2 if v.retrans_count > 3 => {
            v.eap = EapState::TimeoutFailure2;
            v.eap_timeout = true;
            Some(Row::E(5))
        }
        EapState::Retransmit2 => {
            enter_idle2(v);
            Some(Row::E(6))
        }
        EapState::Received2 => from_received2(v),
        EapState::Discard2 => {
            enter_idle2(v);
            Some(Row::E(9))
        }
        EapState::AaaRequest => {
            enter_aaa_idle(v);
            Some(Row::E(10))
        }
        EapState::AaaIdle => from_aaa_idle(v),
        EapState::AaaResponse => {
            enter_send_request2(v);
            Some(Row::E(16))
        }
        EapState::SendRequest2 => {
            enter_idle2(v);
            Some(Row::E(17))
        }
        EapState::Disabled | EapState::TimeoutFailure2 | EapState::Failure2 | EapState::Success2 =>
            None,
    }
}

fn from_idle2(v: &mut Vars) -> Option<Row>
    requires going { v.old.gone ≡ false }
    requires calm { v.old.eap_restart ≡ false }
    requires state { v.old.eap ≡ Idle2 }
    requires count { v.old.retrans_count < 4294967295 }
    ensures { TakesFirst eap_table v.old result v.new }
{
    if v.eap_resp {
        v.eap = EapState::Received2;
        return Some(Row::E(3));
    }
    if v.retrans_while == 0 {
        enter_retransmit2(v);
        return Some(Row::E(4));
    }
    None
}

fn from_received2(v: &mut Vars) -> Option<Row>
    requires going { v.old.gone ≡ false }
    requires calm { v.old.eap_restart ≡ false }
    requires state { v.old.eap ≡ Received2 }
    ensures { TakesFirst eap_table v.old result v.new }
{
    if response_fits(v.eap_resp_data.as_slice(), v.current_id, v.local) {
        enter_aaa_request(v);
        return Some(Row::E(7));
    }
    enter_discard2(v);
    Some(Row::E(8))
}

fn from_aaa_idle(v: &mut Vars) -> Option<Row>
    requires going { v.old.gone ≡ false }
    requires calm { v.old.eap_restart ≡ false }
    requires state { v.old.eap ≡ AaaIdle }
    requires held { v.old.aaa_eap_req ≡ true → 1 < length v.old.aaa_eap_req_data.items }
    ensures { TakesFirst eap_table v.old result v.new }
{
    if v.aaa_eap_no_req {
        enter_discard2(v);
        return Some(Row::E(11));
    }
    if v.aaa_eap_req {
        enter_aaa_response(v);
        return Some(Row::E(12));
    }
    if v.aaa_timeout {
        v.eap = EapState::TimeoutFailure2;
        v.eap_timeout = true;
        return Some(Row::E(13));
    }
    if v.aaa_fail {
        v.eap = EapState::Failure2;
        v.eap_fail = true;
        return Some(Row::E(14));
    }
    if v.aaa_success {
        v.eap = EapState::Success2;
        v.eap_success = true;
        return Some(Row::E(15));
    }
    None
}
