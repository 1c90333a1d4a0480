//! The outside of the switch as traits, in memory and over the streams of the host.
#![tactic(auto)]

mod ahead;
mod gate;
mod host;
mod memory;
mod outside;
mod sure;

pub use gate::{Gate, NoGate, Point, Who};
pub use host::{StdSink, StdSource};
pub use memory::{MemSink, MemSource};
pub use outside::{Failed, Sink, Source};
pub use sure::{SureSink, SureSource};

#[cfg(test)]
mod tests;
