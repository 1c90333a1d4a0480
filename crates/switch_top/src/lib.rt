//! The call that does all that the program does, for any authenticator.
#![tactic(auto)]

mod form;
mod top;

pub use form::{Form, form_of};
pub use top::switch_top;
