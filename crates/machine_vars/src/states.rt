/// The states of the authenticator's port access entity machine (IEEE Std 802.1X-2004, 8.2.4).
#[derive(Clone, Copy, Debug, PartialEq, Eq)]
pub enum Pae {
    /// Nothing has been done yet.
    Initialize,
    /// The host is not authorised, and a new round begins.
    Disconnected,
    /// The EAP machine is told to begin anew.
    Restart,
    /// A host is waited for.
    Connecting,
    /// The host and the server are talking.
    Authenticating,
    /// The host is authorised.
    Authenticated,
    /// What was begun is broken off.
    Aborting,
    /// The host has failed and is not asked for a while.
    Held,
    /// Every host is authorised.
    ForceAuth,
    /// No host is authorised.
    ForceUnauth,
}

/// The states of the backend machine (IEEE Std 802.1X-2004, 8.2).
#[derive(Clone, Copy, Debug, PartialEq, Eq)]
pub enum Backend {
    /// Nothing has been done yet.
    Initialize,
    /// Nothing is asked.
    Idle,
    /// A request has gone to the host.
    Request,
    /// A response has come from the host.
    Response,
    /// A response was not taken.
    Ignore,
    /// The host or the server has not answered.
    Timeout,
    /// The server has accepted.
    Success,
    /// The server has refused.
    Fail,
}

/// The states of the reauthentication timer (IEEE Std 802.1X-2004, 8.2).
#[derive(Clone, Copy, Debug, PartialEq, Eq)]
pub enum Reauth {
    /// The time runs, or stands where it is not wanted.
    Initialize,
    /// The time has run out.
    Reauthenticate,
}

/// The states of the EAP machine that passes packets through to a server (RFC 4137, 7).
#[derive(Clone, Copy, Debug, PartialEq, Eq)]
pub enum EapState {
    /// EAP has not begun.
    Disabled,
    /// The identity is asked for anew.
    Start,
    /// A response is waited for.
    Idle2,
    /// A request is sent once more, or given up.
    Retransmit2,
    /// A response has come.
    Received2,
    /// A response was not one to what was asked.
    Discard2,
    /// A response goes to the server.
    AaaRequest,
    /// The server is waited for.
    AaaIdle,
    /// The server has sent a request.
    AaaResponse,
    /// The server's request goes to the host.
    SendRequest2,
    /// The host or the server was given up.
    TimeoutFailure2,
    /// The server has refused.
    Failure2,
    /// The server has accepted.
    Success2,
}

/// A row of one of the four machines by its number: of the port access entity (P, 1 to 18), of the
/// backend (B, 1 to 14), of the reauthentication timer (A, 1 to 3), of EAP (E, 1 to 17).
#[derive(Clone, Copy, Debug, PartialEq, Eq)]
pub enum Row {
    P(u8),
    B(u8),
    A(u8),
    E(u8),
}
