//! All sessions of a switch, their requests to the server, and the numbers that are given out (IEEE Std
//! 802.1X-2004, 8.2; RFC 3580). Each call does to every state of the switch that the sessions are those
//! of what the switch does. No call but `Sessions::open` takes memory.
#![tactic(auto)]

mod closing;
mod events;
mod finding;
mod following;
mod idling;
mod opening;
mod seconds;
mod sessions;
mod showing;

pub use following::port_address;
pub use sessions::Sessions;
