//! Workers, which forward data frames by the published table. None takes a lock.
#![tactic(auto)]

mod worker;

pub use switch_event::Decided;
pub use worker::Worker;

#[cfg(test)]
mod tests;
