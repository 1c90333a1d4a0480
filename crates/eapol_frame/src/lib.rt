//! Packets of EAP over LAN: version, type, length of the body, body, and padding
//! (IEEE Std 802.1X-2004, 7.5). No call takes memory, and a body is borrowed from the octets.
#![tactic(auto)]

mod read;
mod written;

pub use read::{Eapol, parse};
pub use wire_defs::{EapolDrop, Kind};
pub use written::write;
