//! The definitions of dynamic requests (RFC 5176) that contracts cite: how a Disconnect-Request or
//! a CoA-Request is judged, and the octets of its reply. They stand in specs/; here are the number
//! and the plain enum that they speak of.
#![tactic(auto)]

use radius_defs::Timeout;

/// The most octets of a dynamic request. With every Proxy-State of it, a Message-Authenticator and an
/// Error-Cause a reply is still a packet (RFC 2865, section 3).
pub const MOST_REQUEST: usize = 4000;

/// What a request that is acknowledged does to the session that it names.
#[derive(Clone, Copy, Debug, PartialEq, Eq)]
pub enum Action {
    /// The session ends (RFC 5176, section 2.1).
    Disconnect {
        /// The number of the session.
        number: u32,
    },
    /// The session's authorisation changes (RFC 5176, section 2.2).
    Change {
        /// The number of the session.
        number: u32,
        /// The VLAN, 1 to 4094, where the request names one.
        vlan: Option<u16>,
        /// The session's time, `Unset` exactly where the request has none.
        timeout: Timeout,
    },
}
