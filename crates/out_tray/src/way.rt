use wire_core::Addr;

// Where the octets of a thing go.
#[derive(Clone, Copy)]
pub(crate) enum Way {
    Frame { port: u8 },
    Radius { socket: u8 },
    Reply { to: Addr },
}
