ghost use Rattle.std.specs.Prelude.{◌≡◌, ◌⊎◌, Some, None, false};
ghost use Rattle.machine_defs.specs.Table.{TakesFirst};
ghost use Rattle.machine_defs.specs.BackendTable.{backend_table, resets, waits};
ghost use Rattle.machine_vars.specs.declared.states.Backend.TheVariants.{Idle, Response, Request, Ignore};

use crate::entry::{
    enter_fail, enter_idle, enter_ignore, enter_initialize, enter_request, enter_response,
    enter_success, enter_timeout,
};
use machine_vars::{Backend, Control, Row, Vars};

/// Takes the enabled row of least number of the backend's table, B1 to B14, and names it (IEEE Std
/// 802.1X-2004, 8.2). `None` comes exactly where none of its rows is enabled, as once the session is
/// gone; nothing is changed then. A packet that the row sends is for the caller to send.
pub fn step(v: &mut Vars) -> Option<Row>
    ensures { TakesFirst backend_table v.old result v.new }
{
    if v.gone {
        return None;
    }
    if v.port_control != Control::Auto || v.initialize || v.auth_abort {
        if v.backend != Backend::Initialize || v.auth_abort {
            enter_initialize(v);
            return Some(Row::B(1));
        }
        return None;
    }
    match v.backend {
        Backend::Initialize => {
            enter_idle(v);
            Some(Row::B(2))
        }
        Backend::Idle => from_idle(v),
        Backend::Request | Backend::Ignore => from_waiting(v),
        Backend::Response => from_response(v),
        Backend::Timeout | Backend::Success | Backend::Fail => {
            enter_idle(v);
            Some(Row::B(14))
        }
    }
}

fn from_idle(v: &mut Vars) -> Option<Row>
    requires going { v.old.gone ≡ false }
    requires calm { resets v.old ≡ false }
    requires state { v.old.backend ≡ Idle }
    ensures { TakesFirst backend_table v.old result v.new }
{
    if !v.auth_start {
        return None;
    }
    if v.eap_fail {
        enter_fail(v);
        return Some(Row::B(3));
    }
    if v.eap_req {
        enter_request(v);
        return Some(Row::B(4));
    }
    if v.eap_success {
        enter_success(v);
        return Some(Row::B(5));
    }
    None
}

// A request was sent, or a response was not taken.
fn from_waiting(v: &mut Vars) -> Option<Row>
    requires going { v.old.gone ≡ false }
    requires calm { resets v.old ≡ false }
    requires state { (v.old.backend ≡ Request) ⊎ (v.old.backend ≡ Ignore) }
    ensures { TakesFirst backend_table v.old result v.new }
{
    if v.eapol_eap {
        enter_response(v);
        return Some(Row::B(6));
    }
    if v.eap_req {
        enter_request(v);
        return Some(Row::B(7));
    }
    if v.eap_timeout {
        enter_timeout(v);
        return Some(Row::B(8));
    }
    None
}

fn from_response(v: &mut Vars) -> Option<Row>
    requires going { v.old.gone ≡ false }
    requires calm { resets v.old ≡ false }
    requires state { v.old.backend ≡ Response }
    ensures { TakesFirst backend_table v.old result v.new }
{
    if v.eap_no_req {
        enter_ignore(v);
        return Some(Row::B(9));
    }
    if v.eap_req {
        enter_request(v);
        return Some(Row::B(10));
    }
    if v.a_while == 0 {
        enter_timeout(v);
        return Some(Row::B(11));
    }
    if v.eap_fail {
        enter_fail(v);
        return Some(Row::B(12));
    }
    if v.eap_success {
        enter_success(v);
        return Some(Row::B(13));
    }
    None
}
