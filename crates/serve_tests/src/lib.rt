//! Tests of a server over a source, a sink, a link and a clock in memory, with the whole
//! authenticator: logs as they are known outside, and each call of the link or the sink failing.
#![tactic(auto)]

#[cfg(test)]
mod datagrams;
#[cfg(test)]
mod faults;
#[cfg(test)]
mod logs;
#[cfg(test)]
mod served;
