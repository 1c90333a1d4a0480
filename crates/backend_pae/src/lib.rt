//! The backend authentication machine: what goes between the host and the server (IEEE Std
//! 802.1X-2004, 8.2).
#![tactic(auto)]

mod entry;
mod row;

pub use row::step;
