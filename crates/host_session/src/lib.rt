//! One session of a port where authentication decides: its machines, and what the switch keeps beside
//! them (IEEE Std 802.1X-2004, 8.2; RFC 2865, 5.24 and 5.27; RFC 3580). Each call does to every
//! standing that the session is kept of what settling does. No call takes memory.
#![tactic(auto)]

mod change;
mod copy;
mod events;
mod opening;
mod reading;
mod session;

pub use machine_vars::{Times, Wants};
pub use opening::open;
pub use session::Session;
