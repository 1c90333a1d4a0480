//! How many of each thing there may be.

/// The ports of a switch, numbered from 1.
pub const PORTS: u8 = 60;

/// The hosts of a port that may have a session.
pub const HOSTS_A_PORT: usize = 16;

/// The sessions of a switch.
pub const SESSIONS: usize = 960;
