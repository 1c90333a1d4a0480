//! The RADIUS client: it asks the server about hosts, keeps what it asked, and takes an answer only
//! where every check holds (RFC 2865, sections 3, 4 and 5; RFC 3579, sections 2 and 3). Only
//! `Waits::open` takes memory.
#![tactic(auto)]

mod answer;
mod key_stream;
mod order;
mod pending;
mod request;
mod waits;

pub use aaa_defs::Aged;
pub use answer::Taken;
pub use key_stream::request_authenticator;
pub use pending::Pending;
pub use request::Ask;
pub use switch_event::AaaDrop;
pub use waits::Waits;
