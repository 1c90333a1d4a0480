/// What a settling leaves to be done on the server's side, in this order.
#[derive(Clone, Copy, Debug, PartialEq, Eq)]
pub struct Wants {
    /// aaaEapResp (RFC 4137, 6.1.2): after the one that is open was dropped, a request goes to the
    /// server.
    pub ask: bool,
    /// What was asked of the server is no longer wanted: the request that is open is dropped.
    pub abort: bool,
    /// The session ends.
    pub gone: bool,
}
