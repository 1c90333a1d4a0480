//! The settings of the switch, what happens to it, what it sends and decides, and what became of that. They are plain data.
#![tactic(auto)]

mod config;
mod decision;
mod drop;
mod event;
pub mod limit;
mod sent;

pub use config::{Client, Config, Nas, PortConf};
pub use decision::{Decided, Decision, Drop9};
pub use drop::{AaaDrop, DynDrop, FrameDrop};
pub use event::{Event, Outcome};
pub use machine_vars::{Control, Times};
pub use sent::Sent;
