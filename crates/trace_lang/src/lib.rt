//! The trace language: what a line means, and the lines of a text that comes in pieces.
#![tactic(auto)]

mod head;
mod keyword;
mod line;
mod lines;
#[cfg(test)]
mod lines_tests;
mod records;
mod settings;
#[cfg(test)]
mod tests;
mod values;
mod words;

pub use line::{LineErr, read_line};
pub use lines::{Lines, lines_of};
pub use switch_event::{Config, Control, Decided, Decision, Drop9, Event, Outcome, PortConf};
pub use trace_defs::{Line, Octets, Record};
