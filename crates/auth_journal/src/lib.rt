//! The history of the control events that were accepted, each with the lane that it came on.
#![tactic(auto)]

mod journal;

pub use event_record::{Entry, MOST_EVENTS};
pub use journal::{Journal, JournalErr};

#[cfg(test)]
mod tests;
