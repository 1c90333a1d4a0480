//! The table by which data frames are decided, and the changes that keep it in step with the
//! authenticator (IEEE Std 802.1X-2004, 6.4). No call takes memory.
#![tactic(auto)]

mod leave;
mod row;
mod table;

pub use leave::write_out;
pub use switch_event::{Decision, Drop9};
pub use table::{Table, absorb, can_absorb, decide, opening};

#[cfg(test)]
mod tests;
