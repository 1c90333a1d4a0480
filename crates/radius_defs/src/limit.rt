//! Limits of packets and attributes.

/// The octets before the attributes: code, identifier, length and authenticator (RFC 2865, section 3).
pub const HEADER_OCTETS: usize = 20;

/// The most octets of a packet (RFC 2865, section 3).
pub const MOST_OCTETS: usize = 4096;

/// The most octets of an attribute's value (RFC 2865, section 5).
pub const MOST_VALUE: usize = 253;
