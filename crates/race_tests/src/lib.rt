//! Tests of runs on lanes and workers: what is printed, who calls the gate, and that threads
//! overlap.
#![tactic(auto)]

#[cfg(test)]
mod gates;
#[cfg(test)]
mod tests;
