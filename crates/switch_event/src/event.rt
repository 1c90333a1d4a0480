ghost use Rattle.std.specs.Prelude.{◌≡◌};

use crate::drop::{AaaDrop, DynDrop, FrameDrop};
use machine_vars::Control;
use wire_core::Addr;

/// A control event.
#[derive(Clone, Copy, Debug, PartialEq, Eq)]
pub enum Event<'a> {
    /// A frame came in on a port.
    Frame { port: u8, octets: &'a [u8] },
    /// A datagram came from the RADIUS server to a socket, 0 to 4.
    Radius { socket: u8, octets: &'a [u8] },
    /// A dynamic request came from an address and port of UDP.
    Dynamic { from: Addr, octets: &'a [u8] },
    /// A second has gone by.
    Second,
    /// The link of a port comes up or goes down.
    Link { port: u8, up: bool },
    /// The control of a port is set.
    SetControl { port: u8, control: Control },
}

/// What became of a control event.
#[derive(Clone, Copy, Debug, PartialEq, Eq)]
pub enum Outcome {
    /// It was done.
    Done,
    /// The frame was dropped.
    FrameDropped(FrameDrop),
    /// The datagram of the RADIUS server was dropped.
    AnswerDropped(AaaDrop),
    /// The dynamic request was done.
    Acked,
    /// The dynamic request was refused with this Error-Cause (RFC 5176, 3.5).
    Naked(u32),
    /// The dynamic request was a repeat, and got the reply that was kept.
    Again,
    /// The dynamic request was dropped.
    RequestDropped(DynDrop),
}
