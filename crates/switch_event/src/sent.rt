use wire_core::Addr;

/// A thing that the switch sends.
#[derive(Clone, Copy)]
pub enum Sent<'a> {
    /// A whole Ethernet frame, on a port.
    Frame { port: u8, octets: &'a [u8] },
    /// A RADIUS packet to the server, from a socket, 0 to 3.
    Radius { socket: u8, octets: &'a [u8] },
    /// A reply to a client that asked for a change of a session.
    Reply { to: Addr, octets: &'a [u8] },
}
