/// Why a data frame is not forwarded, in the order in which it is looked for.
#[derive(Clone, Copy, Debug, PartialEq, Eq)]
pub enum Drop9 {
    /// It has fewer than 14 octets.
    Runt,
    /// It has more than 1,518 octets.
    Giant,
    /// Its type is that of EAPOL.
    Control,
    /// Its destination is one of the addresses that no bridge forwards.
    Reserved,
    /// It is tagged already.
    Tagged,
    /// Its source is a group address.
    GroupSource,
    /// Its port is down, or none of the configured ones.
    Down,
    /// Its port is controlled so that no host is authorised.
    Closed,
    /// Its source is not authorised.
    Unauthorised,
}

/// What is decided on a data frame.
#[derive(Clone, Copy, Debug, PartialEq, Eq)]
pub enum Decision {
    /// It is forwarded, tagged with this VLAN, under the number of its source's session. The number is 0 on a port
    /// where every host is authorised, and for a guest.
    Forward { session: u32, vlan: u16 },
    /// It is dropped.
    Drop(Drop9),
}

/// A decision, and how many control events it was made after.
#[derive(Clone, Copy, Debug, PartialEq, Eq)]
pub struct Decided {
    /// The number of control events before it.
    pub front: u64,
    /// What was decided.
    pub decision: Decision,
}
