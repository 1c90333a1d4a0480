//! The sequential authenticator: one control event after another (IEEE Std 802.1X-2004, 8.2; RFC 3579;
//! RFC 3580; RFC 5176). No call but `open` takes memory.
#![tactic(auto)]

mod answers;
mod copies;
mod frames;
mod links;
mod requests;
mod rights;
mod roll;
mod seconds;
mod state;

pub use crate::state::Core;
