ghost use Rattle.std.specs.Prelude.{◌≡◌, ◌≤◌, length, slice_index, Result};
ghost use Rattle.wire_defs.specs.Eapol.{Eapol as Fields, EapolOf, eapol_of};
ghost use Rattle.wire_defs.specs.declared.EapolDrop.{EapolDrop as Drop};
ghost use Rattle.eapol_frame.specs.Eapol.{meaning};

use wire_defs::{EapolDrop, Kind};

/// The fields of an EAPOL packet.
#[derive(Clone, Copy, Debug, PartialEq, Eq)]
pub struct Eapol<'a> {
    /// The protocol version; each is accepted.
    pub version: u8,
    /// The packet type.
    pub kind: Kind,
    /// The EAP packet of an EAP-Packet, without the padding behind it, and nothing for a Start or a Logoff.
    pub body: &'a [u8],
}

/// The fields of a packet. Short below four octets, Key at type 3, UnknownType at a type above 3, and
/// BodyShort where the body of an EAP-Packet would end behind the octets.
pub fn parse(b: &[u8]) -> Result<Eapol<'_>, EapolDrop>
    ensures grammar { EapolOf b.now (meaning result) }
    ensures only { (r : Result Fields Drop) → EapolOf b.now r → r ≡ meaning result }
    ensures value { meaning result ≡ eapol_of b.now }
{
    let [version, number, high, low, after @ ..] = b else {
        return Err(EapolDrop::Short);
    };
    let (kind, body): (Kind, &[u8]) = match *number {
        0 => {
            let size = usize::from(*high) * 256 + usize::from(*low);
            if after.len() < size {
                return Err(EapolDrop::BodyShort);
            }
            (Kind::EapPacket, &after[..size])
        }
        1 => (Kind::Start, &[]),
        2 => (Kind::Logoff, &[]),
        3 => return Err(EapolDrop::Key),
        _ => return Err(EapolDrop::UnknownType),
    };
    Ok(Eapol {
        version: *version,
        kind,
        body,
    })
}
