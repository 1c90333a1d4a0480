ghost use Rattle.std.specs.Prelude.{◌≡◌, ◌==◌, ◌≤◌, true, ℕ, IfSome, length};
ghost use Rattle.radius_packet.specs.Views.{value_in};
ghost use Rattle.aaa_defs.specs.Said.{wait_of};
ghost use Rattle.radius_defs.specs.Attributes.{first_number as first_number_lem};
ghost use Rattle.radius_defs.specs.declared.attribute.TheConstants.{SESSION_TIMEOUT};
ghost use Rattle.radius_defs.specs.InRange.{HasTime};
ghost use Rattle.switch_defs.specs.Switch.{is_vlan};
ghost use Rattle.typed_session.specs.Reads.{IsCarried, IsTold};
ghost use Rattle.server_words.specs.Words.{Says, SaysChallenge, SaysAccept, SaysGrant, SaysReject};

use aaa_defs::MOST_WAIT;
use machine_vars::Verdict;
use radius_attrs::first_number;
use radius_defs::attribute::{SESSION_TIMEOUT, STATE};
use radius_defs::code::{ACCESS_ACCEPT, ACCESS_CHALLENGE};
use radius_defs::{Grant, Timeout};
use radius_packet::Packet;
use vlan_policy::grant;

/// What an answer says to a session.
#[derive(Clone, Copy)]
pub struct Told<'a> {
    /// What its machines are told.
    pub verdict: Verdict<'a>,
    /// The VLAN of its host, 1 to 4094; none: as before.
    pub vlan: Option<u16>,
    /// The State that its next request has, of at most 253 octets, or none (RFC 2865, 5.24).
    pub state: Option<&'a [u8]>,
    /// In how many seconds it ends, with 0 for never (RFC 2865, 5.27); none: as before.
    pub end_while: Option<u32>,
}

/// What an answer with this EAP packet, of 2 to 1,500 octets, or with none says to a session on a
/// port with this native VLAN: an Access-Challenge or an Access-Accept, and any other a reject. An
/// Access-Accept that grants what cannot be followed is as a reject without an EAP packet.
pub fn said<'a>(packet: &Packet<'a>, eap: Option<&'a [u8]>, native: u16) -> Told<'a>
    requires native { is_vlan native ≡ true }
    requires eap { IfSome eap (λ e. IsCarried e.now) }
    ensures says { (session : ℕ) → Says result (record {
      session = session;
      packet = packet.now;
      eap = value_in eap.entry;
    }) native }
    ensures told { IsTold result.verdict }
    ensures state { IfSome result.state (λ octets. length octets.now ≤ 253) }
{
    if has_code(packet, ACCESS_CHALLENGE) {
        challenged(packet, eap)
    } else if has_code(packet, ACCESS_ACCEPT) {
        accepted(packet, eap, native)
    } else {
        rejected(eap)
    }
}

fn has_code(packet: &Packet<'_>, code: u8) -> bool
    ensures { result ≡ (packet.now.code == code) }
{
    packet.code == code
}

fn challenged<'a>(packet: &Packet<'a>, eap: Option<&'a [u8]>) -> Told<'a>
    requires { IfSome eap (λ e. IsCarried e.now) }
    ensures says { SaysChallenge result packet.now (value_in eap.entry) }
    ensures told { IsTold result.verdict }
    ensures state { IfSome result.state (λ octets. length octets.now ≤ 253) }
{
    let verdict = match eap {
        Some(eap) => Verdict::Challenge {
            eap,
            wait: wait(packet),
        },
        None => Verdict::Notice,
    };
    Told {
        verdict,
        vlan: None,
        state: packet.first(STATE),
        end_while: None,
    }
}

fn wait(packet: &Packet<'_>) -> u32
    ensures { result ≡ wait_of (first_number_lem SESSION_TIMEOUT packet.now.attributes) }
{
    match first_number(packet, SESSION_TIMEOUT) {
        Some(n) if n as usize <= MOST_WAIT => n,
        _ => 0,
    }
}

fn accepted<'a>(packet: &Packet<'a>, eap: Option<&'a [u8]>, native: u16) -> Told<'a>
    requires native { is_vlan native ≡ true }
    requires eap { IfSome eap (λ e. IsCarried e.now) }
    ensures says { SaysAccept result packet.now (value_in eap.entry) native }
    ensures told { IsTold result.verdict }
    ensures state { IfSome result.state (λ octets. length octets.now ≤ 253) }
{
    match grant(packet, native) {
        Ok(grant) => granted(grant, eap),
        Err(_unfit) => rejected(None),
    }
}

fn granted<'a>(grant: Grant, eap: Option<&'a [u8]>) -> Told<'a>
    requires time { HasTime grant.timeout }
    requires eap { IfSome eap (λ e. IsCarried e.now) }
    ensures says { SaysGrant result grant (value_in eap.entry) }
    ensures told { IsTold result.verdict }
    ensures state { IfSome result.state (λ octets. length octets.now ≤ 253) }
{
    let (end_while, timeout_reauth) = match grant.timeout {
        Timeout::Unset => (0, 0),
        Timeout::End(n) => (n, 0),
        Timeout::Reauth(n) => (0, n),
    };
    Told {
        verdict: Verdict::Accept {
            eap,
            timeout_reauth,
        },
        vlan: Some(grant.vlan),
        state: None,
        end_while: Some(end_while),
    }
}

fn rejected<'a>(eap: Option<&'a [u8]>) -> Told<'a>
    requires { IfSome eap (λ e. IsCarried e.now) }
    ensures says { SaysReject result (value_in eap.entry) }
    ensures told { IsTold result.verdict }
    ensures state { IfSome result.state (λ octets. length octets.now ≤ 253) }
{
    Told {
        verdict: Verdict::Reject { eap },
        vlan: None,
        state: None,
        end_while: None,
    }
}
