//! A request that was sent.
ghost use Rattle.std.specs.Prelude.{◌≡◌, ◌+◌, ◌<◌, ◌≤◌, length};
ghost use Rattle.radius_defs.specs.declared.limit.TheConstants.{MOST_OCTETS};
ghost use Rattle.aaa_defs.specs.declared.TheConstants.{NAMES};
ghost use Rattle.aaa_defs.specs.Age.{older};
ghost use Rattle.aaa_defs.specs.Asking.{new_request};
ghost use Rattle.aaa_defs.specs.Request.{IsAsk};
ghost use Rattle.aaa_defs.specs.Waits.{socket_of, identifier_of};

use crate::request::{Ask, write_request};
use aaa_defs::IDENTIFIERS;
use radius_packet::Builder;
use std::marker::Model;
use switch_event::Config;

/// A request that waits for an answer. Contracts see its socket and identifier as its name.
#[derive(Drop)]
pub struct Pending {
    /// The number of the session that asked.
    pub session: u32,
    /// The socket that it left by, 0 to 3.
    pub socket: u8,
    /// The identifier, which the answer repeats.
    pub id: u8,
    /// The authenticator of the request.
    pub auth: [u8; 16],
    /// For how many seconds it has waited, below 15.
    pub age: u8,
    packet: Builder,
}

impl Model for Pending {
    ghost use Rattle.std.specs.Prelude.{◌<◌};
    ghost use Rattle.radius_defs.specs.Packet.{packet_text};
    ghost use Rattle.aaa_defs.specs.Waits as waits;

    ghost Value = { waits.Pending };

    ghost view = { λ p. record {
      session = p.session;
      name = waits.name_of p.socket p.id;
      auth = p.auth;
      age = p.age;
      octets = packet_text p.packet;
    } };

    ghost invariant = { λ p. p.age < 15 };
}

impl Pending {
    // A place that is not in use.
    pub(crate) fn empty() -> Pending {
        Pending {
            session: 0,
            socket: 0,
            id: 0,
            auth: [0; 16],
            age: 0,
            packet: Builder::new(0, 0, [0; 16]),
        }
    }

    /// The octets of the request, which are sent again as they are.
    pub fn octets(&self) -> &[u8]
        ensures value { result.now ≡ self.now.octets }
        ensures few { length result.now ≤ MOST_OCTETS }
    {
        self.packet.octets()
    }

    // Builds the request of a session in this place.
    pub(crate) fn build(&mut self, a: &Ask<'_>, c: &Config, session: u32, name: u16, auth: [u8; 16])
        requires ask { IsAsk a.now }
        requires name { name < NAMES }
        ensures { self.new ≡ new_request c.now a.now session name auth }
    {
        let (socket, id) = socket_and_id(name);
        self.session = session;
        self.socket = socket;
        self.id = id;
        self.auth = auth;
        self.age = 0;
        write_request(&mut self.packet, a, c, session, id, auth);
    }

    // Puts the same request into this place.
    pub(crate) fn copy_from(&mut self, other: &Pending)
        ensures { self.new ≡ other.now }
    {
        self.session = other.session;
        self.socket = other.socket;
        self.id = other.id;
        self.auth = other.auth;
        self.age = other.age;
        self.packet.copy_from(&other.packet);
    }

    // A second passes.
    pub(crate) fn grow(&mut self)
        requires { self.old.age + 1 < 15 }
        ensures { self.new ≡ older self.old }
    {
        self.age += 1;
    }

    pub(crate) fn age(&self) -> u8
        ensures value { result ≡ self.now.age }
        ensures below { result < 15 }
    {
        self.age
    }

    pub(crate) fn session(&self) -> u32
        ensures { result ≡ self.now.session }
    {
        self.session
    }
}

// The socket and the identifier of a name.
pub(crate) fn socket_and_id(name: u16) -> (u8, u8)
    requires { name < NAMES }
    ensures socket { result.0 ≡ socket_of name }
    ensures identifier { result.1 ≡ identifier_of name }
{
    let identifiers = IDENTIFIERS as u16;
    ((name / identifiers) as u8, (name % identifiers) as u8)
}
