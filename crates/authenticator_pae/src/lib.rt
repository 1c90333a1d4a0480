//! The authenticator's port access entity machine: whether a host is authorized (IEEE Std 802.1X-2004,
//! 8.2.4).
#![tactic(auto)]

mod entry;
mod row;

pub use row::step;
