//! The definitions of RADIUS packets, digests, attributes and grants that contracts cite. They
//! stand in specs/; here are the plain enums, structs and named numbers that they speak of.
#![tactic(auto)]

pub mod attribute;
pub mod cause;
pub mod code;
pub mod limit;
pub mod value;

/// Why octets are no RADIUS packet (RFC 2865, section 3).
#[derive(Clone, Copy, Debug, PartialEq, Eq)]
pub enum RadDrop {
    /// There are fewer than 20 octets.
    Short,
    /// The length field is below 20, above 4,096 or above the number of octets there.
    BadLength,
    /// The first attribute that is not whole: it has no length octet, a length below 2 or one that
    /// passes the packet's end.
    BadAttribute {
        /// The place of its type octet, counted from the packet's first octet.
        at: usize,
    },
}

/// The VLAN that a packet names in its first attributes 64, 65 and 81 (RFC 3580, section 3.31).
#[derive(Clone, Copy, Debug, PartialEq, Eq)]
pub enum Tunnel {
    /// None of the three is there.
    Absent,
    /// One or two of them are there.
    Partial,
    /// All three are there, and they name no VLAN.
    Bad,
    /// The VLAN that they name, 1 to 4094.
    Vlan(u16),
}

/// What Session-Timeout and Termination-Action say (RFC 3580, sections 3.17 and 3.19).
#[derive(Clone, Copy, Debug, PartialEq, Eq)]
pub enum Timeout {
    /// The session has no end.
    Unset,
    /// The session ends after this many seconds, at least 1.
    End(u32),
    /// The host is authenticated again after this many seconds, at least 1.
    Reauth(u32),
}

/// What a packet's Message-Authenticator is (RFC 3579, section 3.2).
#[derive(Clone, Copy, Debug, PartialEq, Eq)]
pub enum Ma {
    /// There is none.
    Absent,
    /// There is one, and it is the one that the secret gives.
    Right,
    /// There are several, or the one that is there is another.
    Wrong,
}

/// What an Access-Accept grants: a VLAN and the session's time.
#[derive(Clone, Copy, Debug, PartialEq, Eq)]
pub struct Grant {
    /// The VLAN, 1 to 4094.
    pub vlan: u16,
    /// When the session ends or is authenticated again.
    pub timeout: Timeout,
}

/// An Access-Accept whose tunnel attributes cannot be followed.
#[derive(Clone, Copy, Debug, PartialEq, Eq)]
pub struct Unfit;
