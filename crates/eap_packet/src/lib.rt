//! EAP packets: code, identifier, length, data, and padding (RFC 3748, 4). No call takes memory, and
//! fields are borrowed from the octets.
#![tactic(auto)]

mod made;
mod read;

pub use made::{canned, identity_request};
pub use read::{Eap, parse};
pub use wire_defs::EapDrop;
