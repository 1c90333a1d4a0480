//! Packets that are built, one attribute after another.
ghost use Rattle.std.specs.Prelude.{◌≡◌, ◌+◌, ◌≤◌, ◌<◌, ◌↔◌, ◌++◌, ◌∷◌, [], List, length, IsOk, OnOk, OnErr, Ok};
ghost use Rattle.arrayvec.specs.ArrayVec.{array_vec_len};
ghost use Rattle.radius_defs.specs.Packet.{Packet as Parts, Attribute, attributes_text, packet_text, size_of, Fits, HasValueAt, PacketOf, written_over};
ghost use Rattle.radius_defs.specs.declared.limit.TheConstants.{HEADER_OCTETS, MOST_OCTETS, MOST_VALUE};

use arrayvec::ArrayVec;
use radius_defs::limit::{MOST_OCTETS, MOST_VALUE};
use std::marker::Model;
use wire_core::{Room, append, two_octets};

/// A packet that is being built. Its octets are a whole packet at each moment. Contracts see its
/// code, identifier, authenticator and list of attributes.
#[derive(Drop)]
pub struct Builder {
    octets: ArrayVec<u8, MOST_OCTETS>,
}

impl Model for Builder {
    ghost use Rattle.radius_defs.specs.Packet.{Packet as Fields};

    ghost Value = { Fields };

    ghost use Rattle.radius_defs.specs.Packet.{packet_text, Fits};
    ghost use Rattle.radius_defs.specs.Reading.{packet_in, IsText};

    ghost view = { λ b. packet_in b.octets.items };

    ghost invariant = { λ b. IsText b.octets.items };
}

impl Builder {
    /// A packet with no attribute.
    pub fn new(code: u8, id: u8, auth: [u8; 16]) -> Builder
        ensures packet { result ≡ record { code = code; identifier = id; authenticator = auth; attributes = [] } }
        ensures size { size_of result ≡ HEADER_OCTETS }
    {
        let mut octets = ArrayVec::new();
        write_header(&mut octets, code, id, auth);
        Builder { octets }
    }

    /// Begins a packet with no attribute in place of this one.
    pub fn restart(&mut self, code: u8, id: u8, auth: [u8; 16])
        ensures packet { self.new ≡ record { code = code; identifier = id; authenticator = auth; attributes = [] } }
        ensures size { size_of self.new ≡ HEADER_OCTETS }
    {
        write_header(&mut self.octets, code, id, auth);
    }

    /// Makes this the same packet as the other.
    pub fn copy_from(&mut self, other: &Builder)
        ensures { self.new ≡ other.now }
    {
        self.octets.clear();
        append(other.octets.as_slice(), &mut self.octets);
    }

    /// Puts an attribute at the end. Room where its value has more than 253 octets or the packet
    /// would pass 4,096; the packet is as before then.
    #[tactic(auto, unfolding(radius_defs::specs::Packet::size_of))]
    pub fn put(&mut self, ty: u8, value: &[u8]) -> Result<(), Room>
        ensures variant { IsOk result ↔ (length value.now ≤ MOST_VALUE) × (size_of self.old + 2 + length value.now ≤ MOST_OCTETS) }
        ensures ok { OnOk result (self.new
            ≡ record self.old { attributes = self.old.attributes ++ record { kind = ty; value = value.now } ∷ [] }) }
        ensures err { OnErr result (self.new ≡ self.old) }
    {
        let length = self.octets.len() + 2 + value.len();
        if value.len() > MOST_VALUE || length > MOST_OCTETS {
            return Err(Room);
        }
        append(&[ty, value.len() as u8 + 2], &mut self.octets);
        append(value, &mut self.octets);
        overwrite(&mut self.octets, 2, &two_octets(length as u16));
        Ok(())
    }

    /// Puts an attribute at the end, where its value has at most 253 octets and there is room for it.
    #[tactic(auto, unfolding(radius_defs::specs::Packet::size_of))]
    pub fn add(&mut self, ty: u8, value: &[u8])
        requires value { length value.now ≤ MOST_VALUE }
        requires room { size_of self.old + 2 + length value.now ≤ MOST_OCTETS }
        ensures added { self.new
            ≡ record self.old { attributes = self.old.attributes ++ record { kind = ty; value = value.now } ∷ [] } }
        ensures size { size_of self.new ≡ size_of self.old + 2 + length value.now }
    {
        let _fits = self.put(ty, value);
    }

    /// Writes another authenticator.
    pub fn set_auth(&mut self, auth: [u8; 16])
        ensures { self.new ≡ record self.old { authenticator = auth } }
    {
        overwrite(&mut self.octets, 4, &auth);
    }

    /// Writes another value of 16 octets, where the value of an attribute of 16 octets stands: `at`
    /// is the place of that value, counted from the packet's first octet.
    pub fn set_value16(&mut self, at: usize, value: [u8; 16])
        requires { HasValueAt self.old.attributes at }
        ensures { (front rest : List Attribute) (a : Attribute) → self.old.attributes ≡ front ++ a ∷ rest
            → at ≡ 22 + length (attributes_text front) → length a.value ≡ 16
            → self.new ≡ record self.old { attributes = front ++ record { kind = a.kind; value = value } ∷ rest } }
    {
        overwrite(&mut self.octets, at, &value);
    }

    /// The octets of the packet.
    pub fn octets(&self) -> &[u8]
        ensures text { result.now ≡ packet_text self.now }
        ensures fits { Fits self.now }
        ensures read { PacketOf result.now (Ok self.now) }
    {
        self.octets.as_slice()
    }
}

// Replaces what is there by a header that says that no attribute follows.
fn write_header(out: &mut ArrayVec<u8, MOST_OCTETS>, code: u8, id: u8, auth: [u8; 16])
    ensures { out.new.items ≡ code ∷ id ∷ 0 ∷ 20 ∷ auth }
{
    out.clear();
    append(&[code, id, 0, 20], out);
    append(&auth, out);
}

// Writes octets over those that stand from `at` on.
fn overwrite(out: &mut ArrayVec<u8, MOST_OCTETS>, at: usize, piece: &[u8])
    requires { at + length piece.now ≤ array_vec_len out.old }
    ensures { out.new.items ≡ written_over out.old.items at piece.now }
{
    let octets = out.as_mut_slice();
    octets[at..at + piece.len()].copy_from_slice(piece);
}
