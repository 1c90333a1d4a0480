//! Addresses and numbers, as octets and as text, and octets in a room of their own. No call takes memory.
#![tactic(auto)]

mod address;
mod number;
mod room;
mod text;

pub use address::{Addr, Mac, Room};
pub use number::{be16, be32, decimal, four_octets, two_octets};
pub use room::{append, array_of, copied, fill, replace};
pub use text::{station, station_of, upper_digit};
