//! Worked examples of the sequential authenticator, computed: each is a trace with what is decided, sent and
//! answered at each of its records, the digests of RADIUS among it. They stand in proofs/.
#![tactic(auto)]
