//! What frames, packets, texts and the outside are, as definitions that the contracts of the crates
//! above cite. The definitions stand in specs/; here are the plain enums that they speak of.
#![tactic(auto)]

/// The group address to which port access entities listen (IEEE Std 802.1X-2004, 7.8).
pub const PAE_GROUP: [u8; 6] = [0x01, 0x80, 0xc2, 0x00, 0x00, 0x03];

/// The types of Ethernet frames.
pub mod ethertype {
    /// EAPOL (IEEE Std 802.1X-2004, 7.2).
    pub const EAPOL: u16 = 0x888e;
    /// The tag of a VLAN (IEEE Std 802.1Q, 9.6).
    pub const VLAN_TAG: u16 = 0x8100;
}

/// Why octets are no Ethernet frame.
#[derive(Clone, Copy, Debug, PartialEq, Eq)]
pub enum EthDrop {
    /// There are fewer than 14 octets.
    Runt,
    /// There are more than 1,518 octets.
    Giant,
}

/// Why octets are no EAPOL packet.
#[derive(Clone, Copy, Debug, PartialEq, Eq)]
pub enum EapolDrop {
    /// There are fewer than four octets.
    Short,
    /// The type is 3, EAPOL-Key.
    Key,
    /// The type is above 3.
    UnknownType,
    /// The body of an EAP-Packet is longer than the octets that follow the header.
    BodyShort,
}

/// The type of an EAPOL packet (IEEE Std 802.1X-2004, 7.5.4).
#[derive(Clone, Copy, Debug, PartialEq, Eq)]
pub enum Kind {
    /// EAP-Packet (0): the body is an EAP packet.
    EapPacket,
    /// EAPOL-Start (1): a host asks to be authenticated.
    Start,
    /// EAPOL-Logoff (2): a host ends its session.
    Logoff,
}

/// Why octets are no EAP packet.
#[derive(Clone, Copy, Debug, PartialEq, Eq)]
pub enum EapDrop {
    /// There are fewer than four octets.
    Short,
    /// The code is not 1 to 4.
    BadCode,
    /// The length is above the octets there, below 5 for a Request or a Response, or not 4 for a Success or a Failure.
    BadLength,
}
