//! Tests of the RADIUS crates, of what no clause says: octets as they are known outside, and each call
//! once.
#![tactic(auto)]

#[cfg(test)]
mod attributes;
#[cfg(test)]
mod digests;
#[cfg(test)]
mod grants;
#[cfg(test)]
mod packets;
#[cfg(test)]
mod requests;
#[cfg(test)]
mod vectors;
