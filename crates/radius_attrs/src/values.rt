//! Numbers, the VLAN, the session's time, and what a dynamic request may have.
ghost use Rattle.std.specs.Prelude.{◌≡◌};
ghost use Rattle.radius_defs.specs.Attributes.{number_of, first_number as first_number_lem, session_text as session_text_lem, is_tagged as is_tagged_lem, without_tag as without_tag_lem, vlan_of, tunnel_of, timeout_of, is_allowed};
ghost use Rattle.radius_defs.specs.InRange.{HasVlan, HasTime};
ghost use Rattle.radius_defs.specs.declared.value.TheConstants.{MOST_VLAN};
ghost use Rattle.wire_defs.specs.Number.{number_in};

use radius_defs::attribute::{
    ACCT_SESSION_ID, ACCT_TERMINATE_CAUSE, CALLING_STATION_ID, CLASS, EVENT_TIMESTAMP,
    MESSAGE_AUTHENTICATOR, NAS_IDENTIFIER, NAS_IP_ADDRESS, NAS_PORT, PROXY_STATE, REPLY_MESSAGE,
    SESSION_TIMEOUT, TERMINATION_ACTION, TUNNEL_MEDIUM_TYPE, TUNNEL_PRIVATE_GROUP_ID, TUNNEL_TYPE,
    USER_NAME,
};
use radius_defs::code::{COA_REQUEST, DISCONNECT_REQUEST};
use radius_defs::value::{IEEE_802, MOST_VLAN, RADIUS_REQUEST, VLAN};
use radius_defs::{Timeout, Tunnel};
use radius_packet::Packet;
use wire_core::{be32, decimal, four_octets, upper_digit};

/// The number in a value of four octets, the most significant first. None where there are not four.
pub fn number(v: &[u8]) -> Option<u32>
    ensures { result ≡ number_of v.now }
{
    if v.len() == 4 { be32(v, 0) } else { None }
}

/// The number of a session as Acct-Session-Id has it: eight hexadecimal digits in upper case
/// (RFC 2866, section 5.5).
pub fn session_text(session: u32) -> [u8; 8]
    ensures { result ≡ session_text_lem session }
{
    let [first, second, third, last] = four_octets(session);
    [
        upper_digit(first / 16),
        upper_digit(first % 16),
        upper_digit(second / 16),
        upper_digit(second % 16),
        upper_digit(third / 16),
        upper_digit(third % 16),
        upper_digit(last / 16),
        upper_digit(last % 16),
    ]
}

/// The VLAN that the first Tunnel-Type, Tunnel-Medium-Type and Tunnel-Private-Group-ID name
/// (RFC 3580, section 3.31).
#[tactic(auto, using(radius_defs::proofs::InRangeLemmas::tunnel_in_range))]
pub fn tunnel(p: &Packet<'_>) -> Tunnel
    ensures value { result ≡ tunnel_of p.now.attributes }
    ensures vlan { HasVlan result }
{
    match p.first_of_three(TUNNEL_TYPE, TUNNEL_MEDIUM_TYPE, TUNNEL_PRIVATE_GROUP_ID) {
        (None, None, None) => Tunnel::Absent,
        (Some(kind), Some(medium), Some(group)) => {
            if is_tagged(kind, VLAN) && is_tagged(medium, IEEE_802) {
                vlan(group)
            } else {
                Tunnel::Bad
            }
        }
        _ => Tunnel::Partial,
    }
}

// Whether a value has four octets, of which the last three are this number.
fn is_tagged(value: &[u8], wanted: u32) -> bool
    ensures { result ≡ is_tagged_lem wanted value.now }
{
    value.len() == 4
        && u32::from(value[1]) * 65536 + u32::from(value[2]) * 256 + u32::from(value[3]) == wanted
}

// The VLAN that a text names, behind its tag where it has one.
fn vlan(group: &[u8]) -> Tunnel
    ensures { result ≡ vlan_of (number_in 1 MOST_VLAN (without_tag_lem group.now)) }
{
    match decimal(without_tag(group), 1, u64::from(MOST_VLAN)) {
        Some(n) => Tunnel::Vlan(n as u16),
        None => Tunnel::Bad,
    }
}

// A text without its tag, a first octet of 0x00 to 0x1F (RFC 2868, section 3.6).
fn without_tag(group: &[u8]) -> &[u8]
    ensures { result.now ≡ without_tag_lem group.now }
{
    match group {
        [tag, text @ ..] if *tag <= 0x1f => text,
        _ => group,
    }
}

/// What the first Session-Timeout and Termination-Action say of the session's time (RFC 3580,
/// sections 3.17 and 3.19). A time that has not four octets, or is 0, is none.
pub fn timeout(p: &Packet<'_>) -> Timeout
    ensures value { result ≡ timeout_of p.now.attributes }
    ensures time { HasTime result }
{
    match first_number(p, SESSION_TIMEOUT) {
        None | Some(0) => Timeout::Unset,
        Some(n) => match first_number(p, TERMINATION_ACTION) {
            Some(RADIUS_REQUEST) => Timeout::Reauth(n),
            _ => Timeout::End(n),
        },
    }
}

/// The number in the first attribute of this type. None where there is none, or it has not four
/// octets.
pub fn first_number(p: &Packet<'_>, ty: u8) -> Option<u32>
    ensures { result ≡ first_number_lem ty p.now.attributes }
{
    match p.first(ty) {
        Some(value) => number(value),
        None => None,
    }
}

/// Whether a Disconnect-Request or a CoA-Request, as the code says, may have an attribute of this
/// type (RFC 5176, section 3.6). Of another code it tells what both may have.
pub fn allowed(code: u8, ty: u8) -> bool
    ensures { result ≡ is_allowed code ty }
{
    let in_both = matches!(
        ty,
        USER_NAME
            | NAS_IP_ADDRESS
            | NAS_PORT
            | REPLY_MESSAGE
            | CLASS
            | CALLING_STATION_ID
            | NAS_IDENTIFIER
            | PROXY_STATE
            | ACCT_SESSION_ID
            | EVENT_TIMESTAMP
            | MESSAGE_AUTHENTICATOR
    );
    let in_change = matches!(
        ty,
        SESSION_TIMEOUT
            | TERMINATION_ACTION
            | TUNNEL_TYPE
            | TUNNEL_MEDIUM_TYPE
            | TUNNEL_PRIVATE_GROUP_ID
    );
    in_both
        || (code == DISCONNECT_REQUEST && ty == ACCT_TERMINATE_CAUSE)
        || (code == COA_REQUEST && in_change)
}
