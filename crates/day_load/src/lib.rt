//! Runs a day of an office on one lane and four workers, and tells what it came to.
#![tactic(auto)]

mod count;
mod day_run;
mod load;
mod summary;

pub use load::load_within;
pub use summary::Summary;

/// A day runs on so many lanes.
pub const LANES: u8 = 1;

/// And on so many workers.
pub const WORKERS: usize = 4;
