// What each state does as it is entered (IEEE Std 802.1X-2004, 8.2).

ghost use Rattle.std.specs.Prelude.{◌≡◌};
ghost use Rattle.machine_defs.specs.BackendTable.{initialize, idle, request, response, ignore, timeout, success, fail};

use machine_vars::{Backend, Vars};

pub(crate) fn enter_initialize(v: &mut Vars)
    ensures { v.new ≡ initialize v.old }
{
    v.backend = Backend::Initialize;
    v.aaa_abort = true;
    v.aaa_eap_resp = false;
    v.eap_no_req = false;
    v.auth_abort = false;
}

pub(crate) fn enter_idle(v: &mut Vars)
    ensures { v.new ≡ idle v.old }
{
    v.backend = Backend::Idle;
    v.auth_start = false;
}

pub(crate) fn enter_request(v: &mut Vars)
    ensures { v.new ≡ request v.old }
{
    v.backend = Backend::Request;
    v.eap_req = false;
    v.eapol_eap = false;
}

pub(crate) fn enter_response(v: &mut Vars)
    ensures { v.new ≡ response v.old }
{
    v.backend = Backend::Response;
    v.auth_timeout = false;
    v.eapol_eap = false;
    v.eap_no_req = false;
    v.a_while = v.times.server;
    v.eap_resp_data.clear();
    let _fits = v.eap_resp_data.try_extend_from_slice(v.rx_eap.as_slice());
    v.eap_resp = true;
}

pub(crate) fn enter_ignore(v: &mut Vars)
    ensures { v.new ≡ ignore v.old }
{
    v.backend = Backend::Ignore;
    v.eap_no_req = false;
}

pub(crate) fn enter_timeout(v: &mut Vars)
    ensures { v.new ≡ timeout v.old }
{
    v.backend = Backend::Timeout;
    v.auth_timeout = true;
}

pub(crate) fn enter_success(v: &mut Vars)
    ensures { v.new ≡ success v.old }
{
    v.backend = Backend::Success;
    v.auth_success = true;
    v.key_run = true;
}

pub(crate) fn enter_fail(v: &mut Vars)
    ensures { v.new ≡ fail v.old }
{
    v.backend = Backend::Fail;
    v.auth_fail = true;
}
