//! Tests alone: sessions as they are opened, and a typed session beside the variables of the machines.
//! The same events come to both, and they send the same frames, want the same of the server and show
//! the same status.
#![tactic(auto)]

#[cfg(test)]
mod histories;
#[cfg(test)]
mod hosts;
#[cfg(test)]
mod pair;
#[cfg(test)]
mod random;
