//! Octets from a source, one or up to the end of a line, and a whole text into a sink.
#![tactic(auto)]

mod streams;

pub use streams::{read_octet, read_piece, say, write_whole};
