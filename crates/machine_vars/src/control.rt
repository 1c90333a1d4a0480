/// The administrative control of a port: AuthControlledPortControl (IEEE Std 802.1X-2004, 8.2.2.2).
#[derive(Clone, Copy, Debug, PartialEq, Eq)]
pub enum Control {
    /// The outcome of authentication decides.
    Auto,
    /// Every host is authorised.
    ForceAuth,
    /// No host is authorised.
    ForceUnauth,
}

/// The times and limits of the machines, in seconds and attempts (IEEE Std 802.1X-2004, 8.2).
#[derive(Clone, Copy, Debug, PartialEq, Eq)]
pub struct Times {
    /// quietPeriod: how long a host is not asked again after it failed, 1 to 65,535.
    pub quiet: u32,
    /// serverTimeout: how long an answer of the server is waited for, 1 to 65,535.
    pub server: u32,
    /// reAuthMax: how often a host is asked before the port is Unauthorized, 1 to 10.
    pub reauth_max: u32,
    /// reAuthPeriod: how long until a host is authenticated again, at least 1.
    pub reauth_period: u32,
    /// reAuthEnabled: whether it is authenticated again.
    pub reauth: bool,
}
