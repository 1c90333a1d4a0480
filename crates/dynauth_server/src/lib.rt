//! Dynamic requests (RFC 5176): judging a Disconnect-Request or a CoA-Request, and writing its
//! reply. No call takes memory.
#![tactic(auto)]

mod attributes;
mod change;
mod client;
mod judged;
mod judging;
mod naming;
mod replying;
mod roll;
mod session;
mod trust;

pub use client::{client_of, client_place};
pub use dynauth_defs::{Action, MOST_REQUEST};
pub use judged::Judged;
pub use judging::judge;
pub use replying::reply;
pub use roll::{Roll, RollRow};
pub use switch_event::DynDrop;
