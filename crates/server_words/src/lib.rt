//! What an answer of the RADIUS server says to the session that asked (RFC 2865, section 4; RFC
//! 3579, section 2; RFC 3580, section 3). No call takes memory.
#![tactic(auto)]

mod words;

pub use words::{Told, said};
