//! Makes the records of a day of an office, one phase after another. Each answer of a host or of the server
//! is made to what the authenticator has sent by then, so the records are run as they are made.
#![tactic(auto)]

mod accept;
mod frames;
mod hearing;
mod maker;
mod notes;
mod office;
mod phases;

pub use maker::DayMaker;
pub use office::settings;
