//! The parts of a turn of the sequential authenticator, as definitions: what is done to one session, what
//! is left beside the sessions by it, and the items that tell of it. They stand in specs/, with their laws
//! in proofs/.
#![tactic(auto)]
