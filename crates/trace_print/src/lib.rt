//! What is printed: the settings, the lines of records, and the blocks of what became of them.
#![tactic(auto)]

mod blocks;
mod names;
mod piece;
mod records;
mod settings;
#[cfg(test)]
mod tests;
mod trace;

pub use blocks::{print_control, print_data};
pub use out_tray::Tray;
pub use records::print_line;
pub use settings::print_config;
pub use switch_event::{Config, Decided, Decision, Drop9, Outcome};
pub use trace::print_trace;
pub use trace_defs::Line;
