//! Typed values of RADIUS attributes: numbers, a session's number as text, the VLAN, the session's
//! time, the Message-Authenticator, checked and put into a packet, and which attributes a dynamic
//! request may have. No call takes memory.
#![tactic(auto)]

mod message;
mod signing;
mod values;

pub use message::message_state;
pub use radius_defs::{Ma, Timeout, Tunnel};
pub use signing::{begin, restart, sign};
pub use values::{allowed, first_number, number, session_text, timeout, tunnel};
