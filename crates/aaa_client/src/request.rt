//! The Access-Request: its attributes, one after another (RFC 2865, section 5; RFC 3580, section 3).
ghost use Rattle.std.specs.Prelude.{◌≡◌, ◌+◌, ◌<◌, ◌≤◌, ◌++◌, ◌∷◌, [], length, map, option_map, IfSome};
ghost use Rattle.wire_defs.specs.Station.{station_text};
ghost use Rattle.radius_defs.specs.declared.attribute.TheConstants.{EAP_MESSAGE, MESSAGE_AUTHENTICATOR};
ghost use Rattle.radius_defs.specs.declared.limit.TheConstants.{MOST_OCTETS, MOST_VALUE};
ghost use Rattle.radius_defs.specs.Digest.{zeros};
ghost use Rattle.radius_defs.specs.Message.{signed};
ghost use Rattle.radius_defs.specs.Packet.{size_of};
ghost use Rattle.aaa_defs.specs.declared.TheConstants.{MOST_HOST_EAP};
ghost use Rattle.aaa_defs.specs.Request.{IsAsk, attribute, pieces, request_attributes, state_attributes, unsigned_request};
ghost use Rattle.radius_attrs.specs.Size.{signed_header};
ghost use Rattle.aaa_client.specs.Room.{station_room, eap_room};

use aaa_defs::MOST_EAP;
use arrayvec::ArrayVec;
use radius_attrs::{restart, session_text, sign};
use radius_defs::attribute::{
    ACCT_SESSION_ID, CALLED_STATION_ID, CALLING_STATION_ID, EAP_MESSAGE, FRAMED_MTU,
    NAS_IDENTIFIER, NAS_IP_ADDRESS, NAS_PORT, NAS_PORT_TYPE, SERVICE_TYPE, STATE, USER_NAME,
};
use radius_defs::code::ACCESS_REQUEST;
use radius_defs::limit::MOST_VALUE;
use radius_defs::value::{ETHERNET, FRAMED};
use radius_packet::Builder;
use std::marker::Model;
use switch_event::Config;
use wire_core::{Mac, four_octets, station};

/// What is asked about a host.
#[derive(Drop)]
pub struct Ask<'a> {
    /// The port that the host is on.
    pub port: u8,
    /// The address of the port.
    pub own: Mac,
    /// The address of the host.
    pub peer: Mac,
    /// The identity that the host gave, 1 to 253 octets.
    pub identity: &'a [u8],
    /// The State of the server's last Challenge, at most 253 octets.
    pub state: Option<&'a [u8]>,
    /// The EAP packet that the host sent, at most 1,500 octets.
    pub eap: &'a [u8],
}

impl<'a> Model for Ask<'a> {
    ghost use Rattle.std.specs.Option.{option_map};
    ghost use Rattle.aaa_defs.specs.Request as request;

    ghost Value = { request.Ask };

    ghost view = { λ a. record {
      port = a.port;
      own = a.own.0;
      peer = a.peer.0;
      identity = a.identity.now;
      state = option_map (λ s. s.now) a.state;
      eap = a.eap.now;
    } };
}

// Builds the request of a session in place of a packet that is no longer wanted.
pub(crate) fn write_request(
    packet: &mut Builder,
    a: &Ask<'_>,
    c: &Config,
    session: u32,
    id: u8,
    auth: [u8; 16],
)
    requires { IsAsk a.now }
    ensures { packet.new ≡ signed (unsigned_request c.now a.now session id auth) auth c.now.secret }
{
    restart(packet, ACCESS_REQUEST, id, auth);
    put_attributes(packet, a, c, session);
    sign(packet, auth, c.secret.as_slice());
}

// Puts the attributes of a request behind a Message-Authenticator of zeros.
fn put_attributes(packet: &mut Builder, a: &Ask<'_>, c: &Config, session: u32)
    requires begun { packet.old.attributes
        ≡ record { kind = MESSAGE_AUTHENTICATOR; value = zeros 16 } ∷ [] }
    requires start { size_of packet.old ≡ signed_header }
    requires fits { IsAsk a.now }
    ensures attributes { packet.new
        ≡ record packet.old { attributes = packet.old.attributes ++ request_attributes c.now a.now session } }
{
    packet.add(USER_NAME, a.identity);
    packet.add(NAS_IP_ADDRESS, &c.nas.ip);
    packet.add(NAS_PORT, &four_octets(u32::from(a.port)));
    packet.add(SERVICE_TYPE, &four_octets(FRAMED));
    packet.add(FRAMED_MTU, &four_octets(MOST_EAP as u32));
    put_station(packet, CALLED_STATION_ID, a.own);
    put_station(packet, CALLING_STATION_ID, a.peer);
    packet.add(NAS_IDENTIFIER, c.nas.name.as_slice());
    packet.add(NAS_PORT_TYPE, &four_octets(ETHERNET));
    packet.add(ACCT_SESSION_ID, &session_text(session));
    put_state(packet, a.state);
    put_eap(packet, a.eap);
}

// Puts the text of an address at the end of a packet.
fn put_station(packet: &mut Builder, kind: u8, address: Mac)
    requires room { size_of packet.old + station_room ≤ MOST_OCTETS }
    ensures attributes { packet.new
        ≡ record packet.old { attributes = packet.old.attributes ++ attribute kind (station_text address.0) ∷ [] } }
    ensures size { size_of packet.new ≤ size_of packet.old + station_room }
{
    let mut text = ArrayVec::new();
    station(address, &mut text);
    packet.add(kind, text.as_slice());
}

// Puts the State at the end of a packet, where there is one.
fn put_state(packet: &mut Builder, state: Option<&[u8]>)
    requires value { IfSome state (λ s. length s.now ≤ MOST_VALUE) }
    requires room { size_of packet.old + 2 + MOST_VALUE ≤ MOST_OCTETS }
    ensures attributes { packet.new
        ≡ record packet.old { attributes = packet.old.attributes ++ state_attributes (option_map (λ s. s.now) state.entry) } }
    ensures size { size_of packet.new ≤ size_of packet.old + 2 + MOST_VALUE }
{
    if let Some(value) = state {
        packet.add(STATE, value);
    }
}

// Puts an EAP packet at the end of a packet, in pieces (RFC 3579, section 3.1).
fn put_eap(packet: &mut Builder, eap: &[u8])
    requires eap { length eap.now ≤ MOST_HOST_EAP }
    requires room { size_of packet.old + eap_room ≤ MOST_OCTETS }
    ensures attributes { packet.new
        ≡ record packet.old { attributes = packet.old.attributes ++ map (attribute EAP_MESSAGE) (pieces eap.now) } }
    ensures size { size_of packet.new ≤ size_of packet.old + eap_room }
{
    let mut rest = eap;
    while !rest.is_empty() {
        let (piece, after) = rest.split_at(rest.len().min(MOST_VALUE));
        packet.add(EAP_MESSAGE, piece);
        rest = after;
    }
}
