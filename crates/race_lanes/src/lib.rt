//! A parallel run of phases over one book of the authenticator: in each phase its control records
//! run on lanes that take turns under a lock, beside its data records on workers that read the
//! published table with no lock, and the blocks that they print are put in the order of the
//! records.
#![tactic(auto)]

mod closing;
mod lanes;
mod order;
mod phase;
mod race;
mod records;
mod workers;

pub use event_record::TraceRecord;
pub use race::Race;
