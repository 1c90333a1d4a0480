//! A book that several lanes use in turn, under a ticket lock.
#![tactic(auto)]

pub mod booked;
pub mod law;
pub mod lock;
mod steps;

pub use booked::Booked;
pub use law::{Base, Made, Turns};
pub use lock::{BookLock, LaneSeat};

#[cfg(test)]
mod tests;
