//! The outside of a server as traits, in memory and over the host: datagrams by channels, and
//! moments.
#![tactic(auto)]

mod clock;
mod host_clock;
mod link;
mod list_clock;
mod mem_link;
mod outbox;
mod udp_link;

pub use clock::Clock;
pub use host_clock::HostClock;
pub use link::{CHANNELS, Link};
pub use list_clock::ListClock;
pub use mem_link::MemLink;
pub use outside_core::Failed;
pub use udp_link::UdpLink;
pub use wire_core::Addr;

#[cfg(test)]
mod tests;
