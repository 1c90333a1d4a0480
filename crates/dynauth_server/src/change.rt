//! Whether a CoA-Request can be followed, and what it changes (RFC 5176, sections 2.2 and 3.6; RFC
//! 3580, sections 3.17, 3.19 and 3.31).
ghost use Rattle.std.specs.Prelude.{◌≡◌, ◌||◌, not};
ghost use Rattle.radius_defs.specs.Attributes.{tunnel_of};
ghost use Rattle.dynauth_defs.specs.Judge.{asks_change as asks_change_lem, is_partial, has_bad_value as has_bad_value_lem, vlan_in as vlan_in_lem};

use crate::attributes::has;
use radius_attrs::{Tunnel, first_number, tunnel};
use radius_defs::attribute::{
    SESSION_TIMEOUT, TERMINATION_ACTION, TUNNEL_MEDIUM_TYPE, TUNNEL_PRIVATE_GROUP_ID, TUNNEL_TYPE,
};
use radius_packet::Packet;

// Whether no change is asked for, or half a tunnel.
pub(crate) fn asks_no_change(p: &Packet<'_>) -> bool
    ensures { result ≡ (not (asks_change_lem p.now.attributes) || is_partial (tunnel_of p.now.attributes)) }
{
    !asks_change(p) || matches!(tunnel(p), Tunnel::Partial)
}

fn asks_change(p: &Packet<'_>) -> bool
    ensures { result ≡ asks_change_lem p.now.attributes }
{
    has(p, SESSION_TIMEOUT)
        || has(p, TUNNEL_TYPE)
        || has(p, TUNNEL_MEDIUM_TYPE)
        || has(p, TUNNEL_PRIVATE_GROUP_ID)
}

// Whether the time, the action at its end or the VLAN is none that can be followed.
pub(crate) fn has_bad_value(p: &Packet<'_>) -> bool
    ensures { result ≡ has_bad_value_lem p.now.attributes }
{
    let is_no_time = matches!(first_number(p, SESSION_TIMEOUT), None | Some(0));
    let is_no_action = !matches!(first_number(p, TERMINATION_ACTION), Some(0 | 1));
    (has(p, SESSION_TIMEOUT) && is_no_time)
        || (has(p, TERMINATION_ACTION) && is_no_action)
        || matches!(tunnel(p), Tunnel::Bad)
}

// The VLAN that the request names.
pub(crate) fn vlan(p: &Packet<'_>) -> Option<u16>
    ensures { result ≡ vlan_in_lem (tunnel_of p.now.attributes) }
{
    match tunnel(p) {
        Tunnel::Vlan(vlan) => Some(vlan),
        Tunnel::Absent | Tunnel::Partial | Tunnel::Bad => None,
    }
}
