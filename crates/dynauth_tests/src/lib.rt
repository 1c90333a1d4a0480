//! Tests of dynamic requests, of what no clause says: octets as they are known outside, and each line
//! of the list by a request.
#![tactic(auto)]

#[cfg(test)]
mod lines;
#[cfg(test)]
mod pairs;
#[cfg(test)]
mod replies;
#[cfg(test)]
mod requests;
#[cfg(test)]
mod roll;
#[cfg(test)]
mod rows;
#[cfg(test)]
mod vectors;
