//! Variables of the machines as others are.

ghost use Rattle.std.specs.Prelude.{◌≡◌};

use arrayvec::ArrayVec;
use machine_vars::Vars;
use wire_core::fill;

/// From now on they are as the others.
pub(crate) fn copy_vars(to: &mut Vars, from: &Vars)
    ensures { to.new ≡ from.now }
{
    to.pae = from.pae;
    to.backend = from.backend;
    to.reauth = from.reauth;
    to.eap = from.eap;
    to.port = from.port;
    to.own = from.own;
    to.peer = from.peer;
    to.times = from.times;
    to.port_control = from.port_control;
    to.port_enabled = from.port_enabled;
    to.port_mode = from.port_mode;
    to.port_valid = from.port_valid;
    to.initialize = from.initialize;
    to.auth_port_status = from.auth_port_status;
    to.re_auth_count = from.re_auth_count;
    to.retrans_count = from.retrans_count;
    to.current_id = from.current_id;
    to.quiet_while = from.quiet_while;
    to.a_while = from.a_while;
    to.re_auth_when = from.re_auth_when;
    to.retrans_while = from.retrans_while;
    to.re_auth_enabled = from.re_auth_enabled;
    to.re_auth_period = from.re_auth_period;
    to.method_timeout = from.method_timeout;
    to.eapol_start = from.eapol_start;
    to.eapol_logoff = from.eapol_logoff;
    to.eapol_eap = from.eapol_eap;
    to.auth_start = from.auth_start;
    to.auth_abort = from.auth_abort;
    to.auth_success = from.auth_success;
    to.auth_fail = from.auth_fail;
    to.auth_timeout = from.auth_timeout;
    to.key_run = from.key_run;
    to.key_done = from.key_done;
    to.re_authenticate = from.re_authenticate;
    to.eap_restart = from.eap_restart;
    to.eap_req = from.eap_req;
    to.eap_no_req = from.eap_no_req;
    to.eap_resp = from.eap_resp;
    to.eap_success = from.eap_success;
    to.eap_fail = from.eap_fail;
    to.eap_timeout = from.eap_timeout;
    to.aaa_eap_resp = from.aaa_eap_resp;
    to.aaa_eap_req = from.aaa_eap_req;
    to.aaa_eap_no_req = from.aaa_eap_no_req;
    to.aaa_timeout = from.aaa_timeout;
    to.aaa_fail = from.aaa_fail;
    to.aaa_success = from.aaa_success;
    to.aaa_abort = from.aaa_abort;
    to.local = from.local;
    to.gone = from.gone;
    fill(&mut to.rx_eap, &from.rx_eap);
    fill(&mut to.eap_resp_data, &from.eap_resp_data);
    fill(&mut to.last_req_data, &from.last_req_data);
    fill(&mut to.aaa_eap_req_data, &from.aaa_eap_req_data);
    fill(&mut to.identity, &from.identity);
}
