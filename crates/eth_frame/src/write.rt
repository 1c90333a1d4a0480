ghost use Rattle.std.specs.Prelude.{◌≡◌, ℕ, ◌+◌, ◌≤◌, ◌++◌, List, length, Ok};
ghost use Rattle.arrayvec.specs.ArrayVec.{array_vec_len};
ghost use Rattle.wire_defs.specs.Number.{two_octets as two_octets_lem};
ghost use Rattle.wire_defs.specs.Ethernet.{IsFrame, EthOf, plain_text, tagged_text, tagged};
ghost use Rattle.eth_frame.specs.Frame.{fields, fields_from};

use crate::Frame;
use arrayvec::ArrayVec;
use wire_core::{Mac, append};
use wire_defs::ethertype;

/// Replaces `out` by the octets of a frame. The body has at most 1,504 octets.
pub fn write_plain(to: Mac, from: Mac, kind: u16, body: &[u8], out: &mut ArrayVec<u8, 1518>)
    requires { length body.now ≤ 1504 }
    ensures text { out.new.items ≡ plain_text (fields_from to from kind body.now) }
    ensures grammar { EthOf out.new.items (Ok (fields_from to from kind body.now)) }
{
    out.clear();
    append(&to.0, out);
    append(&from.0, out);
    append(&two_octets(kind), out);
    append(body, out);
}

/// Replaces `out` by the octets of a frame with a tag of this VLAN and of priority 0 before its type.
/// The body has at most 1,504 octets, and `vlan` is 1 to 4094.
pub fn write_tagged(f: &Frame<'_>, vlan: u16, out: &mut ArrayVec<u8, 1522>)
    requires short { length f.now.body.now ≤ 1504 }
    requires least { 1 ≤ vlan }
    requires most { vlan ≤ 4094 }
    ensures text { out.new.items ≡ tagged_text vlan (fields f.now) }
    ensures behind_tag { (octets : List ℕ) → IsFrame octets (fields f.now) → out.new.items ≡ tagged vlan octets }
{
    out.clear();
    append(&f.to.0, out);
    append(&f.from.0, out);
    append(&two_octets(ethertype::VLAN_TAG), out);
    append(&two_octets(vlan), out);
    append(&two_octets(f.kind), out);
    append(f.body, out);
}

fn two_octets(number: u16) -> [u8; 2]
    ensures { result ≡ two_octets_lem number }
{
    [(number / 256) as u8, (number % 256) as u8]
}
