ghost use Rattle.std.specs.Prelude.{◌≡◌, Result};
ghost use Rattle.wire_defs.specs.Eap.{Eap as Fields, EapOf, eap_of, is_bad_length as is_bad_length_lem};
ghost use Rattle.wire_defs.specs.declared.EapDrop.{EapDrop as Drop};
ghost use Rattle.eap_packet.specs.Eap.{meaning};

use wire_defs::EapDrop;

/// The fields of an EAP packet.
#[derive(Clone, Copy, Debug, PartialEq, Eq)]
pub struct Eap<'a> {
    /// 1 Request, 2 Response, 3 Success, 4 Failure.
    pub code: u8,
    /// The identifier, which a Response has from its Request.
    pub id: u8,
    /// The type of a Request or a Response (RFC 3748, 5), and 0 for a Success or a Failure.
    pub kind: u8,
    /// What follows the type, and nothing for a Success or a Failure.
    pub rest: &'a [u8],
    /// The packet without the padding behind it.
    pub whole: &'a [u8],
}

/// The fields of a packet. Short below four octets, BadCode at a code other than 1 to 4, and BadLength
/// where the length is above the octets there, below 5 for a Request or a Response, or not 4 for a
/// Success or a Failure.
pub fn parse(b: &[u8]) -> Result<Eap<'_>, EapDrop>
    ensures grammar { EapOf b.now (meaning result) }
    ensures only { (r : Result Fields Drop) → EapOf b.now r → r ≡ meaning result }
    ensures value { meaning result ≡ eap_of b.now }
{
    if b.len() < 4 {
        return Err(EapDrop::Short);
    }
    let (code, id) = (b[0], b[1]);
    let size = usize::from(b[2]) * 256 + usize::from(b[3]);
    if code < 1 || code > 4 {
        return Err(EapDrop::BadCode);
    }
    if is_bad_length(code, size, b.len()) {
        return Err(EapDrop::BadLength);
    }
    let whole = &b[..size];
    if code <= 2 {
        Ok(Eap {
            code,
            id,
            kind: b[4],
            rest: &whole[5..],
            whole,
        })
    } else {
        Ok(Eap {
            code,
            id,
            kind: 0,
            rest: &[],
            whole,
        })
    }
}

// Whether no packet of this code has this length, where `there` octets are there.
fn is_bad_length(code: u8, size: usize, there: usize) -> bool
    ensures { result ≡ is_bad_length_lem code size there }
{
    there < size || if code <= 2 { size < 5 } else { size != 4 }
}
