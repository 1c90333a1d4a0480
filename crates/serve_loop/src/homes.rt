// Where the hosts of the ports are.
ghost use Rattle.std.specs.Prelude.{◌≡◌, [], ◌∷◌, List};
ghost use Rattle.serve_defs.specs.Posted.{Home, frame_port as frame_port_lem, home_of, homes_after};
ghost use Rattle.serve_loop.specs.Arrived.{arrival_of, entry_of};
ghost use Rattle.serve_loop.specs.Homes.{AreHomes};

use crate::arrived::{Arrived, Entry};
use outside_link::Addr;
use switch_event::Event;

/// For each port the sender of the last datagram that came for it, where one came.
#[derive(Drop)]
pub struct Homes {
    table: [Option<Addr>; 256],
}

impl Homes {
    /// None is known.
    pub fn new() -> Homes
        ensures { AreHomes result.table [] }
    {
        Homes { table: [None; 256] }
    }

    /// From now on the home of the port of a frame that came is where its datagram came from.
    pub fn note_arrival(&mut self, arrived: Arrived<'_>)
        ensures { (homes : List Home) → AreHomes self.old.table homes
            → AreHomes self.new.table (homes_after homes (arrival_of arrived.entry)) }
    {
        match frame_port(arrived.entry) {
            None => {}
            Some(port) => match arrived.from {
                None => {}
                Some(at) => self.note(port, at),
            },
        }
    }

    fn note(&mut self, port: u8, at: Addr)
        ensures { (homes : List Home) → AreHomes self.old.table homes
            → AreHomes self.new.table (record { port = port; at = at } ∷ homes) }
    {
        self.table[usize::from(port)] = Some(at);
    }

    /// The home of a port; None exactly where no datagram came for it.
    pub fn of(&self, port: u8) -> Option<Addr>
        ensures { (homes : List Home) → AreHomes self.now.table homes
            → result ≡ home_of port homes }
    {
        self.table[usize::from(port)]
    }
}

// The port on which a frame came.
fn frame_port(entry: Entry<'_>) -> Option<u8>
    ensures { result ≡ frame_port_lem (entry_of entry.entry) }
{
    match entry {
        Entry::Event(Event::Frame { port, .. }) => Some(port),
        Entry::Event(_) => None,
        Entry::Data { port, .. } => Some(port),
    }
}
