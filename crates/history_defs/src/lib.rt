//! What a trace gives: the output of a run on one thread, and what is said of a status. The
//! definitions stand in specs/; here is the limit that they speak of.
#![tactic(auto)]

/// How many octets a trace may have.
pub const MOST_OCTETS: usize = 67_108_864;
