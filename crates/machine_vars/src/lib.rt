//! The plain types of the machines that decide over a host (IEEE Std 802.1X-2004, 8.2; RFC 4137):
//! their variables, states and rows, what the server answers, and what settling leaves to be done.
//! The machines themselves stand in machine_defs, as tables of rows.
#![tactic(auto)]

mod control;
mod states;
mod vars;
mod verdict;
mod wants;

pub use control::{Control, Times};
pub use states::{Backend, EapState, Pae, Reauth, Row};
pub use vars::Vars;
pub use verdict::Verdict;
pub use wants::Wants;
