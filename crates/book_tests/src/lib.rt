//! A test of a book and one of its workers, with memory refused in between.
#![tactic(auto)]

#[cfg(test)]
mod login;
