//! The dynamic replies that are kept for one client, so that a request that comes again is answered
//! by the reply that it was given, and is not done twice (RFC 5176, section 2.3, and RFC 5080,
//! section 2.2.2). All memory is taken when a list is opened.
#![tactic(auto)]

mod kept;
mod slot;
#[cfg(test)]
mod tests;

pub use kept::Kept;
