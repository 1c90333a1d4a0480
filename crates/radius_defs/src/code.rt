//! Codes of packets.

/// Access-Request (RFC 2865, section 4.1).
pub const ACCESS_REQUEST: u8 = 1;

/// Access-Accept (RFC 2865, section 4.2).
pub const ACCESS_ACCEPT: u8 = 2;

/// Access-Reject (RFC 2865, section 4.3).
pub const ACCESS_REJECT: u8 = 3;

/// Access-Challenge (RFC 2865, section 4.4).
pub const ACCESS_CHALLENGE: u8 = 11;

/// Disconnect-Request (RFC 5176, section 2.1).
pub const DISCONNECT_REQUEST: u8 = 40;

/// Disconnect-ACK (RFC 5176, section 2.1).
pub const DISCONNECT_ACK: u8 = 41;

/// Disconnect-NAK (RFC 5176, section 2.1).
pub const DISCONNECT_NAK: u8 = 42;

/// CoA-Request (RFC 5176, section 2.2).
pub const COA_REQUEST: u8 = 43;

/// CoA-ACK (RFC 5176, section 2.2).
pub const COA_ACK: u8 = 44;

/// CoA-NAK (RFC 5176, section 2.2).
pub const COA_NAK: u8 = 45;
