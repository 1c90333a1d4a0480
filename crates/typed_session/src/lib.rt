//! A session on a port where authentication decides, in one of the seven states in which its
//! machines can be settled (IEEE Std 802.1X-2004, 8.2; RFC 4137, 7), with the variables that can
//! still matter there and no others. Each call does to every value of the machines' variables that
//! the session stands for what settling does. No call takes memory.
#![tactic(auto)]

mod calls;
mod common;
mod copy;
mod expiry;
mod host;
mod log_off;
mod opening;
mod read;
mod receive;
mod round;
mod second;
mod server;
mod start;
mod times;
mod verdict;
mod waiting;

pub use host::{Admitted, Asked, Closed, Common, Host, Lapsed, Refused, Served};
pub use machine_vars::{Times, Verdict, Wants};
pub use opening::open;
