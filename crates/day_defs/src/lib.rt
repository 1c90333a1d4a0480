//! A day of an office: its hosts log in and send frames through the switch, hour after hour, and log in
//! again each hour. The definitions stand in specs/; here are the numbers that they speak of.
#![tactic(auto)]

/// How many ports the switch of the office has.
pub const PORTS: u8 = 60;

/// How many hosts there may be at most.
pub const MOST_HOSTS: u8 = 240;

/// How many hours the day has.
pub const HOURS: u8 = 24;

/// How often in an hour each host sends a frame.
pub const FRAMES_AN_HOUR: u16 = 10;

/// How many seconds go by before each of these frames.
pub const SECONDS_A_FRAME: u16 = 360;

/// How many sockets the switch asks the server by, numbered from 0.
pub const SOCKETS: u8 = 4;

/// What the RADIUS server needs to know of an Access-Request to answer it.
#[derive(Clone, Copy, Debug, PartialEq, Eq)]
pub struct Question {
    /// The socket that the request left by, 0 to 3.
    pub socket: u8,
    /// The identifier of the request (RFC 2865, section 3).
    pub identifier: u8,
    /// The authenticator of the request (RFC 2865, section 3).
    pub authenticator: [u8; 16],
    /// The identifier of the EAP Response that the request carries (RFC 3748, 4.1).
    pub response: u8,
}

/// A phase of the day: what is done before everybody waits for all of it.
#[derive(Clone, Copy, Debug, PartialEq, Eq)]
pub enum Phase {
    /// The links of all ports come up, and the hosts log in, one after another.
    Arrival,
    /// An hour goes by, in which each host sends ten frames.
    Hour,
    /// The hosts, which are asked again, log in again, one after another, and each sends a frame.
    Renewal,
}
