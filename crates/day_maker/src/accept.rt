//! The answers of the RADIUS server.
ghost use Rattle.std.specs.Prelude.{◌≡◌, ◌+◌, ◌≤◌, ◌++◌, ◌∷◌, [], length};
ghost use Rattle.std.specs.Fmt.{decimal};
ghost use Rattle.radius_defs.specs.Packet.{packet_text, size_of};
ghost use Rattle.radius_defs.specs.Message.{with_message};
ghost use Rattle.radius_defs.specs.Digest.{zeros};
ghost use Rattle.day_defs.specs.Office as office;
ghost use Rattle.day_defs.specs.Server as server;

use day_defs::Question;
use eap_packet::canned;
use radius_attrs::{begin, sign};
use radius_auth::response_auth;
use radius_defs::attribute::{
    EAP_MESSAGE, TUNNEL_MEDIUM_TYPE, TUNNEL_PRIVATE_GROUP_ID, TUNNEL_TYPE,
};
use radius_defs::code::ACCESS_ACCEPT;
use radius_defs::value::{IEEE_802, VLAN};
use radius_packet::Builder;
use wire_core::four_octets;

// The secret that the server shares with the switch.
const SECRET: &[u8] = b"load";

/// The Access-Accept that lets a host in, to this question (RFC 2865, section 4.2).
pub fn accept(host: u8, question: &Question) -> Builder
    ensures { packet_text result ≡ server.accept_octets host question.now }
{
    let mut packet = unsigned(host, question);
    sign(&mut packet, question.authenticator, SECRET);
    let auth = response_auth(packet.octets(), question.authenticator, SECRET);
    packet.set_auth(auth);
    packet
}

// The Accept before it is signed.
fn unsigned(host: u8, question: &Question) -> Builder
    ensures { result ≡ with_message (server.unsigned_accept host question.now) (zeros 16) }
{
    let mut digits = itoa::Buffer::new();
    let vlan = digits.format(10 + host % 10);
    let mut packet = begin(ACCESS_ACCEPT, question.identifier, question.authenticator);
    packet.add(TUNNEL_TYPE, &four_octets(VLAN));
    packet.add(TUNNEL_MEDIUM_TYPE, &four_octets(IEEE_802));
    packet.add(TUNNEL_PRIVATE_GROUP_ID, vlan.as_bytes());
    packet.add(EAP_MESSAGE, &canned(true, question.response));
    packet
}
