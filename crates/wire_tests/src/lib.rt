//! Tests of octets and plain data, of what no clause says: numbers, frames and packets as they are known
//! outside, and each call once.
#![tactic(auto)]

#[cfg(test)]
mod eap;
#[cfg(test)]
mod eapol;
#[cfg(test)]
mod frames;
#[cfg(test)]
mod numbers;
#[cfg(test)]
mod settings;
#[cfg(test)]
mod tray;
