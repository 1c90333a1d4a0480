//! The authenticator on one thread: the records of a trace are run in order, and their blocks
//! printed.
#![tactic(auto)]

mod records;
mod sequential;

pub use sequential::Sequential;
