//! A run over a trace: the octets that it takes from a source, the phases, the blocks that it gives
//! to a sink, how it ends, and what is said of its end.
#![tactic(auto)]

mod check;
mod counter;
mod ending;
mod one_thread;
mod phase;
mod refusal;
mod replay;
mod run;
mod runs;

pub use check::check_within;
pub use counter::Counter;
pub use ending::{Ending, status};
pub use event_record::TraceRecord;
pub use one_thread::OneThread;
pub use outside_text::say;
pub use refusal::{refusal_words, say_ending, status_words};
pub use replay::replay_within;
pub use run::run_within;
pub use runs::RunsPhases;

#[cfg(test)]
mod tests;
