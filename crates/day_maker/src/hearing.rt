//! What is heard of the switch.
ghost use Rattle.std.specs.Prelude.{◌≡◌, ℕ, option_map, slice_index, Some};
ghost use Rattle.switch_event.specs.Sent.{ToHost, ToServer};
ghost use Rattle.radius_defs.specs.Packet.{eap_of as carried_eap};
ghost use Rattle.wire_defs.specs.Eapol.{eapol_of};
ghost use Rattle.wire_defs.specs.Eap.{eap_of};
ghost use Rattle.day_defs.specs.Server as server;
ghost use Rattle.day_maker.specs.Hearing.{about, station_in};

use arrayvec::ArrayVec;
use day_defs::{Question, SOCKETS};
use radius_defs::attribute::CALLING_STATION_ID;
use radius_packet::Packet;
use wire_core::{Mac, station_of};

// The octets of a frame before what it carries.
const ETHERNET_HEADER: usize = 14;

/// The host that a frame asks for its identity, and the identifier of the Request. None where the frame asks for none.
pub fn identity_asked(octets: &[u8]) -> Option<(Mac, u8)>
    ensures { (port : ℕ) → option_map about result ≡ server.identity_asked (ToHost port octets.now) }
{
    if octets.len() < ETHERNET_HEADER {
        return None;
    }
    let (header, packet) = octets.split_at(ETHERNET_HEADER);
    match identity_carried(packet) {
        Some(id) => {
            let mut to = [0; 6];
            to.copy_from_slice(&header[..6]);
            Some((Mac(to), id))
        }
        None => None,
    }
}

// The identifier of the Request for an identity that an EAPOL packet carries.
fn identity_carried(packet: &[u8]) -> Option<u8>
    ensures { result ≡ server.identity_carried (eapol_of packet.now) }
{
    match eapol_frame::parse(packet) {
        Ok(eapol) => identity_in(eapol.body),
        Err(_) => None,
    }
}

fn identity_in(packet: &[u8]) -> Option<u8>
    ensures { result ≡ server.identity_in (eap_of packet.now) }
{
    match eap_packet::parse(packet) {
        Ok(eap) if eap.code == 1 && eap.kind == 1 => Some(eap.id),
        _ => None,
    }
}

/// The host that a packet asks the server about, and what the server needs for its answer. None where the
/// packet is no request about a host, or came from a socket that the switch does not have.
pub fn server_asked(socket: u8, octets: &[u8]) -> Option<(Mac, Question)>
    ensures { option_map about result ≡ server.server_asked (ToServer socket octets.now) }
{
    if socket >= SOCKETS {
        return None;
    }
    match radius_packet::parse(octets) {
        Ok(packet) => question_in(socket, &packet),
        Err(_) => None,
    }
}

fn question_in(socket: u8, packet: &Packet<'_>) -> Option<(Mac, Question)>
    ensures { option_map about result ≡ server.question_in socket (Some packet.now) }
{
    match host_named(packet) {
        Some(address) => Some((address, question_of(socket, packet))),
        None => None,
    }
}

// The host that a request is about (RFC 3580, section 3.21).
fn host_named(packet: &Packet<'_>) -> Option<Mac>
    ensures { option_map station_in result ≡ server.host_named packet.now }
{
    match packet.first(CALLING_STATION_ID) {
        Some(text) => station_of(text),
        None => None,
    }
}

fn question_of(socket: u8, packet: &Packet<'_>) -> Question
    ensures { result ≡ server.question_of socket packet.now }
{
    Question {
        socket,
        identifier: packet.id,
        authenticator: packet.auth,
        response: response_of(packet),
    }
}

// The identifier of the EAP packet that a request carries, 0 where there is none.
fn response_of(packet: &Packet<'_>) -> u8
    ensures { result ≡ slice_index (carried_eap packet.now.attributes) 1 }
{
    let mut eap = ArrayVec::new();
    let _is_there = packet.eap(&mut eap);
    if eap.len() > 1 { eap.as_slice()[1] } else { 0 }
}
