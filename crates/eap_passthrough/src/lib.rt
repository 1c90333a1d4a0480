//! The EAP machine that passes packets through between a host and a server (RFC 4137, 7).
#![tactic(auto)]

mod entry;
mod response;
mod row;

pub use row::step;
