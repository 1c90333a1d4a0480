//! What a frame of a host says to the port that it comes in on, or why it is dropped before the
//! port's control is looked at. No call takes memory.
#![tactic(auto)]

mod heard;

pub use heard::{Heard, Said, read};

#[cfg(test)]
mod tests;
