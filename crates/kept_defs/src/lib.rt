//! The definitions of the replies that are kept for a client of dynamic requests (RFC 5176, section
//! 2.3), which contracts cite. They stand in specs/; here are the numbers that they speak of.
#![tactic(auto)]

/// How many replies are kept for a client.
pub const MOST_KEPT: usize = 64;

/// For how many seconds a reply answers a request that comes again.
pub const KEPT_SECONDS: u64 = 30;
