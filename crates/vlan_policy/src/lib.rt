//! What an Access-Accept grants (RFC 3580, section 3.31). No call takes memory.
#![tactic(auto)]

ghost use Rattle.std.specs.Prelude.{◌≡◌, IfOk};
ghost use Rattle.radius_defs.specs.Grant.{grant_of};
ghost use Rattle.radius_defs.specs.InRange.{IsVlan, IsInRange};

use radius_attrs::{Tunnel, timeout, tunnel};
pub use radius_defs::{Grant, Unfit};
use radius_packet::Packet;

/// The VLAN and the time that an Access-Accept grants on a port with this native VLAN, which
/// counts where the packet names none. Unfit exactly where its tunnel attributes are Partial or
/// Bad.
#[tactic(auto, using(radius_defs::proofs::InRangeLemmas::grant_in_range))]
pub fn grant(p: &Packet<'_>, native: u16) -> Result<Grant, Unfit>
    ensures value { result ≡ grant_of p.now.attributes native }
    ensures in_range { IsVlan native → IfOk result (λ g. IsInRange g) }
{
    let timeout = timeout(p);
    match tunnel(p) {
        Tunnel::Absent => Ok(Grant {
            vlan: native,
            timeout,
        }),
        Tunnel::Vlan(vlan) => Ok(Grant { vlan, timeout }),
        Tunnel::Partial | Tunnel::Bad => Err(Unfit),
    }
}
