use arrayvec::ArrayVec;
use machine_vars::Times;

/// What each state holds until the session ends: whose it is, the settings, the identifier of the
/// last request, the timer of reauthentication, and what is left to be done for the server's side.
#[derive(Drop)]
pub struct Common {
    /// The number of the port.
    pub port: u8,
    /// The address of the port, which frames to the host have as source.
    pub own: [u8; 6],
    /// The address of the host.
    pub peer: [u8; 6],
    /// quietPeriod, serverTimeout and reAuthMax, and the settings of reauthentication.
    pub times: Times,
    /// currentId: the identifier of the last request.
    pub id: u8,
    /// reAuthEnabled: whether the host is authenticated again once it is Authorized.
    pub reauth: bool,
    /// reAuthPeriod: after how many seconds, at least 1.
    pub period: u32,
    /// reAuthWhen: how many seconds are left of them.
    pub left: u32,
    /// aaaEapResp: a request to the server is to be made.
    pub ask: bool,
    /// aaaAbort: the request to the server that is open is no longer wanted.
    pub abort: bool,
    /// The identity that the host gave; empty before.
    pub identity: ArrayVec<u8, 253>,
}

/// The host is asked, and its response waited for.
#[derive(Drop)]
pub struct Asked {
    /// What each state holds.
    pub common: Common,
    /// authPortStatus: whether the host is Authorized.
    pub status: bool,
    /// reAuthCount: how many rounds were begun since it was last let in or shut out.
    pub tries: u32,
    /// retransCount: how often the request was sent again.
    pub sent: u32,
    /// retransWhile: how many seconds until it is sent again.
    pub wait: u32,
    /// methodTimeout: how many seconds the server wants a response to be waited for; 0 where it has
    /// not said.
    pub method: u32,
    /// The request is the port's own, which asks for the identity.
    pub local: bool,
    /// reAuthenticate: the host is to be authenticated again.
    pub due: bool,
    /// lastReqData: the request.
    pub request: ArrayVec<u8, 1500>,
}

/// The server is asked, and its answer waited for.
#[derive(Drop)]
pub struct Served {
    /// What each state holds.
    pub common: Common,
    /// authPortStatus: whether the host is Authorized.
    pub status: bool,
    /// reAuthCount: how many rounds were begun since it was last let in or shut out.
    pub tries: u32,
    /// retransCount: how often the request to the host was sent again.
    pub sent: u32,
    /// aWhile: how many seconds the server is waited for.
    pub wait: u32,
    /// methodTimeout: how many seconds the server wants a response to be waited for; 0 where it has
    /// not said.
    pub method: u32,
    /// The request to the host was the port's own, which asks for the identity.
    pub local: bool,
    /// reAuthenticate: the host is to be authenticated again.
    pub due: bool,
    /// eapolEap: a packet has come from the host since.
    pub heard: bool,
    /// lastReqData: the request to the host.
    pub request: ArrayVec<u8, 1500>,
    /// rxEap: the last packet of the host.
    pub latest: ArrayVec<u8, 1500>,
    /// eapRespData: the response that the server is asked about.
    pub response: ArrayVec<u8, 1500>,
}

/// The server was given up, which shows once its time has run out.
#[derive(Drop)]
pub struct Lapsed {
    /// What each state holds.
    pub common: Common,
    /// authPortStatus: whether the host is Authorized.
    pub status: bool,
    /// reAuthCount: how many rounds were begun since it was last let in or shut out.
    pub tries: u32,
    /// aWhile: how many seconds are left of the server's time.
    pub wait: u32,
}

/// The host is Authorized.
#[derive(Drop)]
pub struct Admitted {
    /// What each state holds.
    pub common: Common,
    /// reAuthCount: how many rounds were begun since it was let in.
    pub tries: u32,
}

/// The host was refused, and is not asked for a while.
#[derive(Drop)]
pub struct Refused {
    /// What each state holds.
    pub common: Common,
    /// reAuthCount: how many rounds were begun since it was last let in or shut out.
    pub tries: u32,
    /// quietWhile: how many seconds it is not asked.
    pub wait: u32,
    /// eapolStart: it has begun anew since.
    pub starts: bool,
    /// eapolLogoff: it has logged off since.
    pub logs_off: bool,
}

/// The host was given up, and the session ends. It is Unauthorized.
#[derive(Drop)]
pub struct Closed {
    /// currentId: the identifier of the last request.
    pub id: u8,
    /// aaaEapResp.
    pub ask: bool,
    /// aaaAbort: the request to the server that is open is no longer wanted.
    pub abort: bool,
}

// What an answer of the server is told by: currentId and the settings.
#[derive(Clone, Copy)]
pub(crate) struct Known {
    pub(crate) id: u8,
    pub(crate) times: Times,
}

/// A session, by the states of its authenticator PAE, backend and EAP machines. That of
/// reauthentication is in INITIALIZE in all of them.
#[derive(Drop)]
pub enum Host {
    /// AUTHENTICATING, REQUEST, IDLE2: the host was sent a request.
    Request(Asked),
    /// AUTHENTICATING, IGNORE, IDLE2: what it sent then was no response to it.
    Ignore(Asked),
    /// AUTHENTICATING, RESPONSE, AAA_IDLE.
    Server(Served),
    /// AUTHENTICATING, RESPONSE, TIMEOUT_FAILURE2.
    GaveUp(Lapsed),
    /// AUTHENTICATED, IDLE, SUCCESS2.
    Authenticated(Admitted),
    /// HELD, IDLE, FAILURE2.
    Held(Refused),
    /// DISCONNECTED, IDLE, START, and given up.
    Ended(Closed),
}
