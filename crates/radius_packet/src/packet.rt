//! A packet that was read, and its parts.
ghost use Rattle.std.specs.Prelude.{◌≡◌, ◌≤◌, ◌==◌, ℕ, length, count_by, find, if◌then◌else◌, is_some, slice_get, IfSome, Result, Some, None};
ghost use Rattle.std.specs.List.{All};
ghost use Rattle.std.specs.Option.{option_map, option_or};
ghost use Rattle.radius_defs.specs.Packet.{Packet as Parts, PacketOf, Fits, packet_text, first_value, eap_of};
ghost use Rattle.radius_defs.specs.declared.RadDrop.{RadDrop};
ghost use Rattle.radius_defs.specs.declared.attribute.TheConstants.{EAP_MESSAGE};
ghost use Rattle.radius_defs.specs.declared.limit.TheConstants.{MOST_VALUE};
ghost use Rattle.radius_packet.specs.Views.{attribute, value_in};

use crate::attributes::{Attributes, broken_at};
use arrayvec::ArrayVec;
use radius_defs::RadDrop;
use radius_defs::attribute::EAP_MESSAGE;
use radius_defs::limit::{HEADER_OCTETS, MOST_OCTETS};
use std::marker::Model;
use wire_core::append;

/// A packet that was read, where it lies. Contracts see its code, identifier, authenticator and
/// list of attributes.
#[derive(Drop)]
pub struct Packet<'a> {
    /// What kind of packet it is (RFC 2865, section 4; RFC 5176, section 2.3).
    pub code: u8,
    /// The identifier, which an answer repeats.
    pub id: u8,
    /// The authenticator.
    pub auth: [u8; 16],
    /// The whole packet, without padding: 20 to 4,096 octets.
    pub octets: &'a [u8],
}

impl<'a> Model for Packet<'a> {
    ghost use Rattle.radius_defs.specs.Packet.{Packet as Fields};

    ghost Value = { Fields };

    ghost use Rattle.radius_packet.specs.Inside.{packet_of, IsText};

    ghost view = { packet_of };

    ghost invariant = { IsText };
}

impl<'a> Packet<'a> {
    /// The attributes, in order. Each value has at most 253 octets.
    pub fn attributes(&self) -> Attributes<'a>
        ensures same { result ≡ self.now.attributes }
        ensures fits { Fits self.now }
        ensures short { All (λ a. length a.value ≤ MOST_VALUE) result }
    {
        let (_header, body) = self.octets.split_at(HEADER_OCTETS);
        Attributes::new(body)
    }

    /// The octets of the packet, without padding.
    pub fn text(&self) -> &'a [u8]
        ensures { result.now ≡ packet_text self.now }
    {
        self.octets
    }

    /// The type and the value of attribute `n`, counted from 0. None where there are at most `n`.
    pub fn nth(&self, n: usize) -> Option<(u8, &'a [u8])>
        ensures found { option_map attribute result ≡ slice_get self.now.attributes n }
        ensures short { IfSome result (λ a. length a.1.now ≤ MOST_VALUE) }
    {
        self.attributes().nth(n)
    }

    /// How many attributes have the type.
    pub fn count(&self, ty: u8) -> usize
        ensures { result ≡ count_by (λ a. a.kind == ty) self.now.attributes }
    {
        self.attributes().filter(|a| a.0 == ty).count()
    }

    // The first attribute that has the type.
    fn first_with(&self, ty: u8) -> Option<(u8, &'a [u8])>
        ensures found { option_map attribute result ≡ find (λ a. a.kind == ty) self.now.attributes }
        ensures short { IfSome result (λ a. length a.1.now ≤ MOST_VALUE) }
    {
        self.attributes().find(|a| a.0 == ty)
    }

    /// The value of the first attribute that has the type, at most 253 octets. None where none has it.
    pub fn first(&self, ty: u8) -> Option<&'a [u8]>
        ensures found { value_in result ≡ first_value ty self.now.attributes }
        ensures short { IfSome result (λ v. length v.now ≤ MOST_VALUE) }
    {
        match self.first_with(ty) {
            Some((_kind, value)) => Some(value),
            None => None,
        }
    }

    /// What `first` gives for each of three types, in one walk over the attributes.
    pub fn first_of_three(
        &self,
        a: u8,
        b: u8,
        c: u8,
    ) -> (Option<&'a [u8]>, Option<&'a [u8]>, Option<&'a [u8]>)
        ensures first { value_in result.0 ≡ first_value a self.now.attributes }
        ensures second { value_in result.1 ≡ first_value b self.now.attributes }
        ensures third { value_in result.2 ≡ first_value c self.now.attributes }
        ensures short_first { IfSome result.0 (λ v. length v.now ≤ MOST_VALUE) }
        ensures short_second { IfSome result.1 (λ v. length v.now ≤ MOST_VALUE) }
        ensures short_third { IfSome result.2 (λ v. length v.now ≤ MOST_VALUE) }
    {
        let mut first = None;
        let mut second = None;
        let mut third = None;
        for (kind, value) in self.attributes() {
            first = earliest(first, kind == a, value);
            second = earliest(second, kind == b, value);
            third = earliest(third, kind == c, value);
        }
        (first, second, third)
    }

    /// Replaces `out` by the joined values of the EAP-Message attributes (RFC 3579, section 3.1). False
    /// where there is none, and then `out` is empty.
    pub fn eap(&self, out: &mut ArrayVec<u8, MOST_OCTETS>) -> bool
        ensures joined { out.new.items ≡ eap_of self.now.attributes }
        ensures found { result ≡ is_some (first_value EAP_MESSAGE self.now.attributes) }
    {
        out.clear();
        let mut is_there = false;
        for (kind, value) in self.attributes() {
            if kind == EAP_MESSAGE {
                append(value, out);
                is_there = true;
            }
        }
        is_there
    }
}

// The value that was found before, or else this one where it is wanted.
fn earliest<'a>(found: Option<&'a [u8]>, is_wanted: bool, value: &'a [u8]) -> Option<&'a [u8]>
    ensures { value_in result ≡ option_or (value_in found.entry) (if is_wanted then Some value.now else None) }
{
    match found {
        Some(earlier) => Some(earlier),
        None if is_wanted => Some(value),
        None => None,
    }
}

/// The packet that the octets are, with padding behind it or none.
///
/// Errors: `Short`, `BadLength` and `BadAttribute`, whichever comes first in that order.
pub fn parse(b: &[u8]) -> Result<Packet<'_>, RadDrop>
    ensures exact { PacketOf b.now result }
    ensures only { (r : Result Parts RadDrop) → PacketOf b.now r → r ≡ result }
{
    if b.len() < HEADER_OCTETS {
        return Err(RadDrop::Short);
    }
    let length = usize::from(b[2]) * 256 + usize::from(b[3]);
    if length < HEADER_OCTETS || length > MOST_OCTETS || length > b.len() {
        return Err(RadDrop::BadLength);
    }
    let (octets, _padding) = b.split_at(length);
    let (_header, body) = octets.split_at(HEADER_OCTETS);
    match broken_at(body) {
        Some(at) => Err(RadDrop::BadAttribute { at }),
        None => {
            let mut auth = [0; 16];
            auth.copy_from_slice(&b[4..HEADER_OCTETS]);
            Ok(Packet {
                code: b[0],
                id: b[1],
                auth,
                octets,
            })
        }
    }
}
