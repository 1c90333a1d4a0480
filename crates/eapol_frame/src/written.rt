ghost use Rattle.std.specs.Prelude.{◌≡◌, ◌+◌, ◌≤◌, ◌++◌, length, Ok};
ghost use Rattle.arrayvec.specs.ArrayVec.{array_vec_len};
ghost use Rattle.wire_defs.specs.declared.Kind.TheVariants.{EapPacket};
ghost use Rattle.wire_defs.specs.Eapol.{EapolOf, eapol_text};

use arrayvec::ArrayVec;
use wire_core::append;

// The version that is written, and the type EAP-Packet.
const VERSION: u8 = 2;

const EAP_PACKET: u8 = 0;

/// Replaces `out` by the EAPOL packet of version 2 that carries an EAP packet, of at most 1,500 octets.
pub fn write(eap: &[u8], out: &mut ArrayVec<u8, 1504>)
    requires { length eap.now ≤ 1500 }
    ensures text { out.new.items ≡ eapol_text eap.now }
    ensures grammar { EapolOf out.new.items (Ok (record { version = 2; kind = EapPacket; body = eap.now })) }
{
    let size = eap.len();
    out.clear();
    append(
        &[VERSION, EAP_PACKET, (size / 256) as u8, (size % 256) as u8],
        out,
    );
    append(eap, out);
}
