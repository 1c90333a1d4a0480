ghost use Rattle.std.specs.Prelude.{◌≡◌};

use crate::session::Session;
use arrayvec::ArrayVec;
use session_table::CopyFrom;
use typed_session::{Closed, Host};
use wire_core::{copied, fill};

impl CopyFrom for Session {
    fn copied(&self) -> Session {
        let mut copy = Session {
            number: 0,
            host: Host::Ended(Closed {
                id: 0,
                ask: false,
                abort: false,
            }),
            vlan: 0,
            state: None,
            end_while: 0,
            restricted: false,
        };
        copy.copy_from(self);
        copy
    }

    fn copy_from(&mut self, other: &Session) {
        self.number = other.number;
        self.host.copy_from(&other.host);
        self.vlan = other.vlan;
        copy_state(&mut self.state, &other.state);
        self.end_while = other.end_while;
        self.restricted = other.restricted;
    }
}

// From now on it is as the other. Where both are there, no more is copied than the octets.
fn copy_state(to: &mut Option<ArrayVec<u8, 253>>, from: &Option<ArrayVec<u8, 253>>)
    ensures { to.new ≡ from.now }
{
    match from {
        Some(octets) => match to {
            Some(kept) => fill(kept, octets),
            None => *to = Some(copied(octets)),
        },
        None => *to = None,
    }
}
