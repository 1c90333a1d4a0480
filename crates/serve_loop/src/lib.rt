//! A server over a source of settings, a sink for its log, a link and a clock: it serves what the
//! clock and the link bring, and each record and what became of it stand in the log before anything
//! is sent.
#![tactic(auto)]

mod arrived;
mod comment;
mod ending;
mod homes;
mod post;
mod run;
mod server;
mod top;

pub use ending::{Ending, status};
pub use outside_link::{Addr, Clock, Link};
pub use top::serve_within;
