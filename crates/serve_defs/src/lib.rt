//! What a server over sockets serves, what it logs, and what it sends. The definitions stand in
//! specs/; here are the limits that they speak of.
#![tactic(auto)]

ghost use Rattle.serve_defs.specs.Laws.{LogsAreTraces};

/// How many octets a datagram may have that is taken.
pub const MOST_TAKEN: usize = 5000;

/// How many octets the frame may have that comes in a datagram.
pub const MOST_FRAME: usize = 2000;

/// The octet that, alone on the channel of the frames, ends a run.
pub const END_OF_RUN: u8 = 0xff;

/// The last moment that a clock of the settings can have, in seconds since 1970.
pub const LAST_MOMENT: u64 = 4_294_967_295;

/// The log of a server is a trace of its settings and of its records. So each reply that a server
/// sent can be computed again from its log.
pub fn logs_are_traces()
    ensures traces { LogsAreTraces }
{}
