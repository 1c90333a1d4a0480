// The limits of a trace.

/// How many octets a line may have, without its line feed and one carriage return at its end.
pub const MOST_LINE_OCTETS: usize = 10_240;

/// How many octets a frame may have.
pub const MOST_FRAME_OCTETS: usize = 2000;

/// How many octets a datagram may have.
pub const MOST_DATAGRAM_OCTETS: usize = 5000;

/// How many clients may send dynamic requests.
pub const MOST_CLIENTS: usize = 4;
