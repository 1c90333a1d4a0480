use crate::{Backend, Control, EapState, Pae, Reauth, Times};
use arrayvec::ArrayVec;

/// The variables of the four machines of one host, or of one forced port (IEEE Std 802.1X-2004,
/// 8.2.2; RFC 4137, 5 and 6). Octets that are absent are empty; timers are in seconds, and stand at 0
/// once they have run out.
#[derive(Drop)]
pub struct Vars {
    /// The state of the authenticator PAE machine.
    pub pae: Pae,
    /// The state of the backend authentication machine.
    pub backend: Backend,
    /// The state of the reauthentication timer machine.
    pub reauth: Reauth,
    /// The state of the EAP machine.
    pub eap: EapState,
    /// The number of the port.
    pub port: u8,
    /// The address of the port, which frames to the host have as source.
    pub own: [u8; 6],
    /// The address that frames go to.
    pub peer: [u8; 6],
    /// quietPeriod, serverTimeout and reAuthMax, and the settings of reauthentication.
    pub times: Times,
    /// portControl: AuthControlledPortControl, as it is set.
    pub port_control: Control,
    /// portEnabled: the port's MAC is operable; always so while there are variables.
    pub port_enabled: bool,
    /// portMode: the control that the machine has taken over.
    pub port_mode: Control,
    /// portValid: what is sent over the port is kept from others; always so.
    pub port_valid: bool,
    /// initialize: the machines are held in their first states; never so.
    pub initialize: bool,
    /// authPortStatus: whether the host is Authorized.
    pub auth_port_status: bool,
    /// reAuthCount: how often CONNECTING was entered since the host was last Authorized or
    /// disconnected.
    pub re_auth_count: u32,
    /// retransCount: how often the last request was sent again.
    pub retrans_count: u32,
    /// currentId: the identifier of the last request.
    pub current_id: u8,
    /// quietWhile: how long HELD still lasts.
    pub quiet_while: u32,
    /// aWhile: how long the server is still waited for.
    pub a_while: u32,
    /// reAuthWhen: how long until an Authorized host is authenticated again.
    pub re_auth_when: u32,
    /// retransWhile: how long until the last request is sent again.
    pub retrans_while: u32,
    /// reAuthEnabled: whether an Authorized host is authenticated again.
    pub re_auth_enabled: bool,
    /// reAuthPeriod: after how long, at least 1.
    pub re_auth_period: u32,
    /// methodTimeout: how long the server wants a response to be waited for; 0 where it did not say.
    pub method_timeout: u32,
    /// eapolStart: the host has begun, or begun anew.
    pub eapol_start: bool,
    /// eapolLogoff: the host has logged off.
    pub eapol_logoff: bool,
    /// eapolEap: an EAP packet of the host has come and was not looked at.
    pub eapol_eap: bool,
    /// authStart: the backend machine is to authenticate the host.
    pub auth_start: bool,
    /// authAbort: it is to give that up.
    pub auth_abort: bool,
    /// authSuccess: the host has passed.
    pub auth_success: bool,
    /// authFail: the host has failed.
    pub auth_fail: bool,
    /// authTimeout: the host or the server has not answered.
    pub auth_timeout: bool,
    /// keyRun: keys may be exchanged; nothing reads it, since there are none.
    pub key_run: bool,
    /// keyDone: keys were exchanged; never so.
    pub key_done: bool,
    /// reAuthenticate: the host is to be authenticated again.
    pub re_authenticate: bool,
    /// eapRestart: EAP is to begin anew.
    pub eap_restart: bool,
    /// eapReq: EAP has a request for the host.
    pub eap_req: bool,
    /// eapNoReq: EAP did not take the last response, and has no request.
    pub eap_no_req: bool,
    /// eapResp: EAP is given a response of the host.
    pub eap_resp: bool,
    /// eapSuccess: EAP has ended with success.
    pub eap_success: bool,
    /// eapFail: EAP has ended with failure.
    pub eap_fail: bool,
    /// eapTimeout: EAP has given the host or the server up.
    pub eap_timeout: bool,
    /// aaaEapResp: a response is for the server, to be sent once the variables are settled.
    pub aaa_eap_resp: bool,
    /// aaaEapReq: the server has sent a request.
    pub aaa_eap_req: bool,
    /// aaaEapNoReq: the server asks on without a request.
    pub aaa_eap_no_req: bool,
    /// aaaTimeout: the server has not answered in time.
    pub aaa_timeout: bool,
    /// aaaFail: the server has refused.
    pub aaa_fail: bool,
    /// aaaSuccess: the server has accepted.
    pub aaa_success: bool,
    /// aaaAbort, which no standard has: what was asked of the server is no longer wanted.
    pub aaa_abort: bool,
    /// local, which no standard has: the last request is the port's own, for the identity.
    pub local: bool,
    /// gone, which no standard has: the host was given up, and its session ends.
    pub gone: bool,
    /// rxEap: the last EAP packet of the host.
    pub rx_eap: ArrayVec<u8, 1500>,
    /// eapRespData: the response that the EAP machine is given.
    pub eap_resp_data: ArrayVec<u8, 1500>,
    /// lastReqData: the last request to the host.
    pub last_req_data: ArrayVec<u8, 1500>,
    /// aaaEapReqData: the last EAP packet of the server.
    pub aaa_eap_req_data: ArrayVec<u8, 1500>,
    /// The identity that the host gave (RFC 3748, 5.1).
    pub identity: ArrayVec<u8, 253>,
}
