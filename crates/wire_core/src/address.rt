/// The address of a station (IEEE Std 802, 9.2), its octets in the order in which they are sent.
#[derive(Clone, Copy, Debug, PartialEq, Eq)]
pub struct Mac(pub [u8; 6]);

/// An address and port of UDP over IPv4, the octets in the order in which they are sent.
#[derive(Clone, Copy, Debug, PartialEq, Eq)]
pub struct Addr {
    pub ip: [u8; 4],
    pub port: u16,
}

/// There is no room for what was to be put.
#[derive(Clone, Copy, Debug, PartialEq, Eq)]
pub struct Room;
