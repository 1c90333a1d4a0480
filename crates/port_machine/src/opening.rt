ghost use Rattle.std.specs.Prelude.{◌≡◌};
ghost use Rattle.machine_defs.specs.Live.{Ready, Live, InRange, fresh};

use arrayvec::ArrayVec;
use machine_vars::{Backend, Control, EapState, Pae, Reauth, Times, Vars};
use wire_core::Mac;

/// The opening value of the variables of a session, or of a forced port: on `port`, whose address is
/// `own`, for the host `peer`. With times in their ranges it may be settled.
pub fn fresh(port: u8, own: Mac, peer: Mac, control: Control, t: &Times) -> Vars
    ensures value { result ≡ fresh port own.0 peer.0 control t.now }
    ensures live { InRange t.now → Live result }
    ensures ready { InRange t.now → Ready result }
{
    opening(port, own, peer, control, t)
}

fn opening(port: u8, own: Mac, peer: Mac, control: Control, t: &Times) -> Vars
    ensures { result ≡ fresh port own.0 peer.0 control t.now }
{
    let own = own.0;
    let peer = peer.0;
    Vars {
        pae: Pae::Initialize,
        backend: Backend::Initialize,
        reauth: Reauth::Initialize,
        eap: EapState::Disabled,
        port,
        own,
        peer,
        times: *t,
        port_control: control,
        port_enabled: true,
        port_mode: Control::Auto,
        port_valid: true,
        initialize: false,
        auth_port_status: false,
        re_auth_count: 0,
        retrans_count: 0,
        current_id: 0,
        quiet_while: 0,
        a_while: 0,
        re_auth_when: 0,
        retrans_while: 0,
        re_auth_enabled: t.reauth,
        re_auth_period: t.reauth_period,
        method_timeout: 0,
        eapol_start: false,
        eapol_logoff: false,
        eapol_eap: false,
        auth_start: false,
        auth_abort: false,
        auth_success: false,
        auth_fail: false,
        auth_timeout: false,
        key_run: false,
        key_done: false,
        re_authenticate: false,
        eap_restart: false,
        eap_req: false,
        eap_no_req: false,
        eap_resp: false,
        eap_success: false,
        eap_fail: false,
        eap_timeout: false,
        aaa_eap_resp: false,
        aaa_eap_req: false,
        aaa_eap_no_req: false,
        aaa_timeout: false,
        aaa_fail: false,
        aaa_success: false,
        aaa_abort: false,
        local: false,
        gone: false,
        rx_eap: ArrayVec::new(),
        eap_resp_data: ArrayVec::new(),
        last_req_data: ArrayVec::new(),
        aaa_eap_req_data: ArrayVec::new(),
        identity: ArrayVec::new(),
    }
}
