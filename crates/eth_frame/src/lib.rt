//! Ethernet frames: destination, source, type and body, without a frame check sequence
//! (IEEE Std 802.3, 3.1.1), and the tag of a VLAN (IEEE Std 802.1Q, 9.3). No call takes memory.
#![tactic(auto)]

mod read;
mod write;

pub use read::{Frame, is_control, parse};
pub use wire_defs::EthDrop;
pub use write::{write_plain, write_tagged};
