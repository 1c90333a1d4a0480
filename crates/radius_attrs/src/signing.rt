//! Packets that are signed: a Message-Authenticator stands before all other attributes (RFC 3579,
//! section 3.2), in a client's requests and in a server's replies. No call takes memory.
ghost use Rattle.std.specs.Prelude.{◌≡◌, ◌+◌, [], None};
ghost use Rattle.radius_defs.specs.declared.Ma.TheVariants.{Right};
ghost use Rattle.radius_defs.specs.declared.limit.TheConstants.{HEADER_OCTETS};
ghost use Rattle.radius_defs.specs.Packet.{size_of};
ghost use Rattle.radius_defs.specs.Digest.{zeros};
ghost use Rattle.radius_defs.specs.Message.{behind_first, message_state_of, signed, with_message, AwaitsSigning};
ghost use Rattle.radius_attrs.specs.Size.{signed_header};

use radius_auth::message_auth;
use radius_defs::attribute::MESSAGE_AUTHENTICATOR;
use radius_defs::limit::HEADER_OCTETS;
use radius_packet::Builder;

/// A packet whose only attribute is a Message-Authenticator of zeros, 38 octets in all. The other
/// attributes are put behind it, and then it is signed.
pub fn begin(code: u8, id: u8, auth: [u8; 16]) -> Builder
    ensures packet { result
        ≡ with_message (record { code = code; identifier = id; authenticator = auth; attributes = [] }) (zeros 16) }
    ensures size { size_of result ≡ signed_header }
{
    let mut packet = Builder::new(code, id, auth);
    put_zeros(&mut packet);
    packet
}

/// The same in place of a packet that is no longer wanted.
pub fn restart(packet: &mut Builder, code: u8, id: u8, auth: [u8; 16])
    ensures packet { packet.new
        ≡ with_message (record { code = code; identifier = id; authenticator = auth; attributes = [] }) (zeros 16) }
    ensures size { size_of packet.new ≡ signed_header }
{
    packet.restart(code, id, auth);
    put_zeros(packet);
}

// Puts a Message-Authenticator of zeros into a packet that has no attribute.
fn put_zeros(packet: &mut Builder)
    requires none { packet.old.attributes ≡ [] }
    requires size { size_of packet.old ≡ HEADER_OCTETS }
    ensures packet { packet.new ≡ with_message packet.old (zeros 16) }
    ensures size { size_of packet.new ≡ signed_header }
{
    packet.add(MESSAGE_AUTHENTICATOR, &[0; 16]);
}

/// Writes the right value into the Message-Authenticator with which the packet begins, under this
/// authenticator of the packet. The packet must have begun by `begin`, and have no other.
pub fn sign(packet: &mut Builder, auth: [u8; 16], secret: &[u8])
    requires { AwaitsSigning packet.old }
    ensures packet { packet.new ≡ signed (behind_first packet.old) auth secret.now }
    ensures right { message_state_of packet.new auth secret.now ≡ Right }
{
    let at = HEADER_OCTETS + 2;
    let value = message_auth(packet.octets(), auth, at, secret);
    packet.set_value16(at, value);
}
