ghost use Rattle.std.specs.Prelude.{◌≡◌, IfOk};
ghost use Rattle.switch_event.specs.Event.{happening};
ghost use Rattle.event_record.specs.Record.{event_of};

use crate::octets::Octets;
use machine_vars::Control;
use std::alloc::{AllocError, Global};
use switch_event::Event;
use wire_core::Addr;

/// A control event that owns its octets.
#[derive(Drop)]
pub enum Record {
    /// A frame came in on a port.
    Frame { port: u8, octets: Octets },
    /// A datagram came from the RADIUS server to a socket, 0 to 4.
    Radius { socket: u8, octets: Octets },
    /// A dynamic request came from an address and port of UDP.
    Dynamic { from: Addr, octets: Octets },
    /// A second has gone by.
    Second,
    /// The link of a port comes up or goes down.
    Link { port: u8, up: bool },
    /// The control of a port is set.
    SetControl { port: u8, control: Control },
}

impl Record {
    /// A record of the event, with a copy of its octets.
    pub fn of(alloc: Global, event: &Event<'_>) -> Result<Record, AllocError>
        ensures { IfOk result (λ r. event_of r ≡ happening event.now) }
    {
        Ok(match *event {
            Event::Frame { port, octets } => Record::Frame {
                port,
                octets: Octets::of(alloc, octets)?,
            },
            Event::Radius { socket, octets } => Record::Radius {
                socket,
                octets: Octets::of(alloc, octets)?,
            },
            Event::Dynamic { from, octets } => Record::Dynamic {
                from,
                octets: Octets::of(alloc, octets)?,
            },
            Event::Second => Record::Second,
            Event::Link { port, up } => Record::Link { port, up },
            Event::SetControl { port, control } => Record::SetControl { port, control },
        })
    }

    /// The event, with the octets that the record owns.
    pub fn event(&self) -> Event<'_>
        ensures { happening result ≡ event_of self.now }
    {
        match self {
            Record::Frame { port, octets } => Event::Frame {
                port: *port,
                octets: octets.as_slice(),
            },
            Record::Radius { socket, octets } => Event::Radius {
                socket: *socket,
                octets: octets.as_slice(),
            },
            Record::Dynamic { from, octets } => Event::Dynamic {
                from: *from,
                octets: octets.as_slice(),
            },
            Record::Second => Event::Second,
            Record::Link { port, up } => Event::Link {
                port: *port,
                up: *up,
            },
            Record::SetControl { port, control } => Event::SetControl {
                port: *port,
                control: *control,
            },
        }
    }
}
