//! The checks of an answer against the request that it answers (RFC 2865, sections 3 and 4;
//! RFC 3579, sections 2 and 3).
ghost use Rattle.std.specs.Prelude.{◌≡◌, ◌≤◌, Some, None, length, option_map, IfOk, IfErr, IfSome};
ghost use Rattle.aaa_defs.specs.Answer.{checks, first_failed, eap_carried, is_answer as is_answer_lem, is_bad_message as is_bad_message_lem, may_carry as may_carry_lem, carried_in};
ghost use Rattle.std.specs.Str.{bytes_eq};
ghost use Rattle.wire_defs.specs.Eap.{eap_of as eap_packet_of};
ghost use Rattle.radius_defs.specs.Packet.{packet_text};
ghost use Rattle.radius_defs.specs.Digest.{response_auth as auth_lem};
ghost use Rattle.aaa_defs.specs.declared.TheConstants.{MOST_EAP};
ghost use Rattle.aaa_client.specs.Meaning.{octets_in};

use aaa_defs::MOST_EAP;
use arrayvec::ArrayVec;
use eap_packet::parse as parse_eap;
use radius_attrs::{Ma, message_state};
use radius_auth::response_auth;
use radius_defs::code::{ACCESS_ACCEPT, ACCESS_CHALLENGE, ACCESS_REJECT};
use radius_packet::Packet;
use switch_event::AaaDrop;

/// An answer that was taken.
#[derive(Drop)]
pub struct Taken<'a> {
    /// The number of the session that asked.
    pub session: u32,
    /// The answer.
    pub packet: Packet<'a>,
    /// The EAP packet that it carries, 4 octets at least and without padding, or none.
    pub eap: Option<ArrayVec<u8, MOST_EAP>>,
}

// Checks a packet against the request of this authenticator, where a Message-Authenticator may be
// required of each answer: the EAP packet that it carries, or the first check that it fails.
pub(crate) fn checked(
    packet: &Packet<'_>,
    request: [u8; 16],
    secret: &[u8],
    require: bool,
) -> Result<Option<ArrayVec<u8, MOST_EAP>>, AaaDrop>
    ensures drop { IfErr result (λ d. first_failed (checks packet.now request secret.now require) ≡ Some d) }
    ensures passed { IfOk result (λ e. first_failed (checks packet.now request secret.now require) ≡ None) }
    ensures eap { IfOk result (λ e. octets_in e ≡ eap_carried packet.now) }
    ensures long { IfOk result (λ e. IfSome e (λ octets. 4 ≤ length octets.items)) }
{
    if !is_answer(packet.code) {
        return Err(AaaDrop::BadCode);
    }
    if !has_right_auth(packet, request, secret) {
        return Err(AaaDrop::BadAuthenticator);
    }
    let mut joined = ArrayVec::new();
    let has_eap = packet.eap(&mut joined);
    if is_bad_message(has_eap || require, message_state(packet, request, secret)) {
        return Err(AaaDrop::BadMessageAuth);
    }
    if joined.len() > MOST_EAP {
        return Err(AaaDrop::Oversize);
    }
    if !has_eap {
        return Ok(None);
    }
    match carried(packet.code, joined.as_slice()) {
        Some(whole) => Ok(Some(whole)),
        None => Err(AaaDrop::BadEap),
    }
}

fn is_answer(code: u8) -> bool
    ensures { result ≡ is_answer_lem code }
{
    matches!(code, ACCESS_ACCEPT | ACCESS_REJECT | ACCESS_CHALLENGE)
}

// Whether the packet has the authenticator of an answer to the request (RFC 2865, section 3).
fn has_right_auth(packet: &Packet<'_>, request: [u8; 16], secret: &[u8]) -> bool
    ensures { result ≡ bytes_eq (auth_lem (packet_text packet.now) request secret.now) packet.now.authenticator }
{
    let auth = packet.auth;
    let right = response_auth(packet.text(), request, secret);
    right.as_slice() == auth.as_slice()
}

// Whether a Message-Authenticator is wrong, or is wanted and not there (RFC 3579, section 3.2).
fn is_bad_message(is_wanted: bool, state: Ma) -> bool
    ensures { result ≡ is_bad_message_lem is_wanted state }
{
    match state {
        Ma::Wrong => true,
        Ma::Absent => is_wanted,
        Ma::Right => false,
    }
}

// The EAP packet at the front of the octets, where an answer of this code may carry it.
fn carried(code: u8, octets: &[u8]) -> Option<ArrayVec<u8, MOST_EAP>>
    requires { length octets.now ≤ MOST_EAP }
    ensures { octets_in result ≡ carried_in code (eap_packet_of octets.now) }
{
    match parse_eap(octets) {
        Ok(eap) if may_carry(code, eap.code) => Some(copied(eap.whole)),
        _ => None,
    }
}

// Whether an answer of this code may carry an EAP packet of that code (RFC 3579, section 2.1).
fn may_carry(code: u8, eap_code: u8) -> bool
    ensures { result ≡ may_carry_lem code eap_code }
{
    if code == ACCESS_CHALLENGE {
        eap_code == 1
    } else {
        matches!(eap_code, 3 | 4)
    }
}

fn copied(octets: &[u8]) -> ArrayVec<u8, MOST_EAP>
    requires { length octets.now ≤ MOST_EAP }
    ensures { result.items ≡ octets.now }
{
    let mut copy = ArrayVec::new();
    let _fits = copy.try_extend_from_slice(octets);
    copy
}
