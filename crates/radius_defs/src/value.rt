//! Numbers that attributes have as values.

/// Service-Type: the host is given access to a network (RFC 2865, section 5.6).
pub const FRAMED: u32 = 2;

/// NAS-Port-Type of a wired port (RFC 2865, section 5.41).
pub const ETHERNET: u32 = 15;

/// Termination-Action: the server is asked again (RFC 2865, section 5.29).
pub const RADIUS_REQUEST: u32 = 1;

/// Tunnel-Type: a VLAN (RFC 3580, section 3.31).
pub const VLAN: u32 = 13;

/// Tunnel-Medium-Type: a network of IEEE 802 (RFC 3580, section 3.31).
pub const IEEE_802: u32 = 6;

/// The last VLAN that a frame can name; the first is 1 (IEEE Std 802.1Q, 9.6).
pub const MOST_VLAN: u16 = 4094;
