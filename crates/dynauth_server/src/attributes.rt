//! What the attributes of a request say of it, whatever its sessions (RFC 5176, sections 3, 3.5 and
//! 3.6).
ghost use Rattle.std.specs.Prelude.{◌≡◌, not};
ghost use Rattle.std.specs.List.{list_any};
ghost use Rattle.radius_defs.specs.Attributes.{is_allowed};
ghost use Rattle.dynauth_defs.specs.Judge.{has as has_lem, is_of_another as is_of_another_lem, is_ill_formed as is_ill_formed_lem, names_session as names_session_lem};

use radius_attrs::{allowed, number};
use radius_defs::attribute::{
    ACCT_SESSION_ID, CALLING_STATION_ID, EVENT_TIMESTAMP, NAS_IDENTIFIER, NAS_IP_ADDRESS, NAS_PORT,
    USER_NAME,
};
use radius_packet::Packet;
use switch_event::Nas;
use wire_core::station_of;

// Whether an attribute of this type is there.
pub(crate) fn has(p: &Packet<'_>, ty: u8) -> bool
    ensures { result ≡ has_lem ty p.now.attributes }
{
    p.attributes().any(|a| a.0 == ty)
}

// Whether an attribute names another access server.
pub(crate) fn is_for_another(p: &Packet<'_>, nas: &Nas) -> bool
    ensures { result ≡ list_any (is_of_another_lem nas.now) p.now.attributes }
{
    p.attributes().any(|a| is_of_another(a.0, a.1, nas))
}

// By its address, or its name.
fn is_of_another(kind: u8, value: &[u8], nas: &Nas) -> bool
    ensures { result ≡ is_of_another_lem nas.now (record { kind = kind; value = value.now }) }
{
    match kind {
        NAS_IP_ADDRESS => value != nas.ip.as_slice(),
        NAS_IDENTIFIER => value != nas.name.as_slice(),
        _ => false,
    }
}

// Whether an attribute stands in it that a request of its code may not have.
pub(crate) fn has_forbidden(p: &Packet<'_>) -> bool
    ensures { result ≡ list_any (λ a. not (is_allowed p.now.code a.kind)) p.now.attributes }
{
    let code = p.code;
    p.attributes().any(|a| !allowed(code, a.0))
}

// Whether an attribute has not the octets that its type asks for.
pub(crate) fn has_ill_formed(p: &Packet<'_>) -> bool
    ensures { result ≡ list_any is_ill_formed_lem p.now.attributes }
{
    p.attributes().any(|a| is_ill_formed(a.0, a.1))
}

fn is_ill_formed(kind: u8, value: &[u8]) -> bool
    ensures { result ≡ is_ill_formed_lem (record { kind = kind; value = value.now }) }
{
    match kind {
        NAS_PORT | EVENT_TIMESTAMP => number(value).is_none(),
        CALLING_STATION_ID => station_of(value).is_none(),
        _ => false,
    }
}

// Whether an attribute is there that names sessions.
pub(crate) fn names_session(p: &Packet<'_>) -> bool
    ensures { result ≡ names_session_lem p.now.attributes }
{
    has(p, USER_NAME) || has(p, NAS_PORT) || has(p, CALLING_STATION_ID) || has(p, ACCT_SESSION_ID)
}
