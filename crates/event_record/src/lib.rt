//! Control events and records of a trace that own their octets: plain data.
#![tactic(auto)]

mod entry;
mod octets;
mod record;
mod trace_record;

pub use entry::Entry;
pub use octets::Octets;
pub use record::Record;
pub use trace_record::TraceRecord;

/// The most control events of a history, and so the most control records of a trace.
pub const MOST_EVENTS: usize = 1_048_576;

#[cfg(test)]
mod tests;
