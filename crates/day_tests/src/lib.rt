//! Tests of a day that is run over the authenticator.
#![tactic(auto)]

#[cfg(test)]
mod tests;
