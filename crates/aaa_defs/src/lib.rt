//! The definitions of a RADIUS client that contracts cite: the request that it sends, the requests
//! that wait for an answer, the checks of an answer, and when a request is sent again or given up.
//! They stand in specs/; here are the numbers and the plain enum that they speak of.
#![tactic(auto)]

/// The most octets of an EAP packet that a frame to a host has room for (RFC 3580, section 3.10).
pub const MOST_EAP: usize = 1496;

/// The most octets of an EAP packet in a frame of a host (IEEE Std 802.3, 3.2.7).
pub const MOST_HOST_EAP: usize = 1500;

/// The most seconds that the server can have a host's response waited for.
pub const MOST_WAIT: usize = 3600;

/// How many identifiers a socket has, each from 0 on (RFC 2865, section 3).
pub const IDENTIFIERS: usize = 256;

/// How many names there are: the identifiers of four sockets.
pub const NAMES: usize = 1024;

/// How many requests may wait at once.
pub const MOST_WAITING: usize = 960;

/// What a second does to a session's pending request.
#[derive(Clone, Copy, Debug, PartialEq, Eq)]
pub enum Aged {
    /// Nothing.
    Quiet,
    /// The request is sent again.
    Resend,
    /// The request is given up: nothing is pending any more.
    GaveUp,
}
