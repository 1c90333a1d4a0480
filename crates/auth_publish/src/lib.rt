//! The table that decides on frames, as one publisher shows it, change by change. Viewers read it
//! without a lock.
#![tactic(auto)]

mod change;
mod publisher;
mod receipt;
mod rule;
mod viewer;

pub use publisher::{Publisher, open};
pub use receipt::{PublisherName, Receipt};
pub use viewer::{View, Viewer};
