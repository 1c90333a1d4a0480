//! The configured ports of a switch, as a turn sees and changes them: links, controls, guests, and the
//! machines by which a forced port speaks (IEEE Std 802.1X-2004, 8.2.2.2). Only opening takes memory.
#![tactic(auto)]

mod copy;
mod port;
mod ports;

pub use port::PortState;
pub use ports::Ports;

#[cfg(test)]
mod tests;
