//! The four machines together: the variables of a session or of a forced port, what an event sets in
//! them, and settling.
#![tactic(auto)]

mod event;
mod laws;
mod opening;
mod settling;

pub use event::{
    accept, acknowledge, challenge, change, greet, log_off, notice, receive, reject, second, start,
    to_all,
};
pub use laws::steps_take_the_row_of_least_number;
pub use machine_vars::Times;
pub use opening::fresh;
pub use settling::settle;
