use dynauth_defs::Action;
use switch_event::DynDrop;

/// How a dynamic request is judged.
#[derive(Clone, Copy, Debug, PartialEq, Eq)]
pub enum Judged<'a> {
    /// It is dropped, and gets no reply.
    Drop(DynDrop),
    /// It came again, and gets the reply that was kept.
    Again(&'a [u8]),
    /// It is refused with this Error-Cause (RFC 5176, section 3.5), and nothing is done.
    Nak(u32),
    /// It is acknowledged, and this is done.
    Ack(Action),
}
