//! Message-Authenticator (RFC 3579, section 3.2).
ghost use Rattle.std.specs.Prelude.{◌≡◌, ◌==◌, [], MatchOption};
ghost use Rattle.std.specs.List.{list_any};
ghost use Rattle.radius_defs.specs.Packet.{those_of};
ghost use Rattle.radius_defs.specs.Message.{message_state_of};
ghost use Rattle.radius_attrs.specs.Places.{StandsAt};

use radius_auth::message_auth;
use radius_defs::Ma;
use radius_defs::attribute::MESSAGE_AUTHENTICATOR;
use radius_defs::limit::HEADER_OCTETS;
use radius_packet::{Attributes, Packet};

/// What the packet's Message-Authenticator is under this authenticator of the packet: Right where
/// there is exactly one, and it has the 16 octets of `message_auth`; Wrong where there are more.
pub fn message_state(p: &Packet<'_>, auth: [u8; 16], secret: &[u8]) -> Ma
    ensures { result ≡ message_state_of p.now auth secret.now }
{
    match first_with_place(p, MESSAGE_AUTHENTICATOR) {
        None => Ma::Absent,
        Some((at, value, after)) => {
            if value.len() != 16 || has(after, MESSAGE_AUTHENTICATOR) {
                return Ma::Wrong;
            }
            let right = message_auth(p.text(), auth, at, secret);
            if value == right.as_slice() {
                Ma::Right
            } else {
                Ma::Wrong
            }
        }
    }
}

// The first attribute of this type: the place of its value in the packet, the value, and the
// attributes after it.
fn first_with_place<'a>(p: &Packet<'a>, ty: u8) -> Option<(usize, &'a [u8], Attributes<'a>)>
    ensures { MatchOption result (those_of ty p.now.attributes ≡ []) (λ found. StandsAt p.now ty found.0 found.1.now found.2) }
{
    let mut attributes = p.attributes();
    let mut at = HEADER_OCTETS;
    while let Some((kind, value)) = attributes.next() {
        at += 2;
        if kind == ty {
            return Some((at, value, attributes));
        }
        at += value.len();
    }
    None
}

// Whether one of the attributes has this type.
fn has(mut attributes: Attributes<'_>, ty: u8) -> bool
    ensures { result ≡ list_any (λ a. a.kind == ty) attributes.entry }
{
    attributes.any(|a| a.0 == ty)
}
