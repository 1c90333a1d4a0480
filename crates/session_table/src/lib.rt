//! Places for sessions: sixteen hosts on each of sixty ports, in the order in which they came. No
//! call but `open` takes memory.
#![tactic(auto)]

mod port;
mod slots;

pub use slots::{CopyFrom, PortFull, Slots};

#[cfg(test)]
mod tests;
