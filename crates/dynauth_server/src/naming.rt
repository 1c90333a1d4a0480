//! What the attributes of a request ask of the sessions that it names (RFC 5176, section 3).
ghost use Rattle.std.specs.Prelude.{◌≡◌, ◌==◌, ◌&&◌};
ghost use Rattle.std.specs.Str.{bytes_eq};
ghost use Rattle.radius_defs.specs.Attributes.{session_text as session_text_lem};
ghost use Rattle.radius_packet.specs.Views.{value_in};
ghost use Rattle.dynauth_defs.specs.Session.{Row, fits as fits_lem, is_octets, matches};
ghost use Rattle.dynauth_server.specs.Roll.{row_of};
ghost use Rattle.dynauth_server.specs.Sought.{agreed, is_same_address as is_same_address_lem, names as names_lem, names_in, seeks};

use crate::roll::RollRow;
use radius_attrs::{number, session_text};
use radius_defs::attribute::{ACCT_SESSION_ID, CALLING_STATION_ID, NAS_PORT, USER_NAME};
use radius_packet::Packet;
use wire_core::{Mac, station_of};

// What a session must have to be named: of each kind of attribute that names sessions the value, where
// one stands in the request.
#[derive(Clone, Copy)]
pub(crate) struct Sought<'a> {
    // User-Name.
    identity: Option<&'a [u8]>,
    // NAS-Port.
    port: Option<u32>,
    // Calling-Station-Id.
    address: Option<Mac>,
    // Acct-Session-Id.
    session: Option<&'a [u8]>,
}

// What all attributes of a request ask for, each of which is read once. None where no session has it,
// as where two of a kind differ.
pub(crate) fn sought_by<'a>(p: &Packet<'a>) -> Option<Sought<'a>>
    ensures { (row : Row) → names_in result row ≡ matches p.now.attributes row }
{
    let mut sought = Sought {
        identity: None,
        port: None,
        address: None,
        session: None,
    };
    for (kind, value) in p.attributes() {
        sought = sought.with(kind, value)?;
    }
    Some(sought)
}

impl<'a> Sought<'a> {
    // What is sought, and what one attribute more asks for.
    fn with(self, kind: u8, value: &'a [u8]) -> Option<Sought<'a>>
        ensures { (row : Row) → names_in result row
            ≡ (names_lem self.entry row && fits_lem row (record { kind = kind; value = value.now })) }
    {
        let mut sought = self;
        match kind {
            USER_NAME => sought.identity = Some(agreed_octets(self.identity, value)?),
            NAS_PORT => sought.port = Some(agreed_number(self.port, number(value)?)?),
            CALLING_STATION_ID => {
                sought.address = Some(agreed_address(self.address, station_of(value)?)?);
            }
            ACCT_SESSION_ID => sought.session = Some(agreed_octets(self.session, value)?),
            _ => {}
        }
        Some(sought)
    }

    // Whether a session has all that is sought.
    pub(crate) fn names(&self, row: &RollRow<'_>) -> bool
        ensures { result ≡ names_lem self.now (row_of row.now) }
    {
        is_identity(self.identity, row.identity)
            && is_port(self.port, row.port)
            && is_address(self.address, row.mac)
            && is_session(self.session, row.number)
    }
}

fn agreed_octets<'a>(before: Option<&[u8]>, value: &'a [u8]) -> Option<&'a [u8]>
    ensures { value_in result ≡ agreed bytes_eq (value_in before.entry) value.now }
{
    match before {
        Some(before) if before != value => None,
        _ => Some(value),
    }
}

fn agreed_number(before: Option<u32>, value: u32) -> Option<u32>
    ensures { result ≡ agreed (λ a b. a == b) before value }
{
    match before {
        Some(n) if n != value => None,
        _ => Some(value),
    }
}

fn agreed_address(before: Option<Mac>, value: Mac) -> Option<Mac>
    ensures { result ≡ agreed is_same_address_lem before value }
{
    match before {
        Some(address) if !is_same_address(address, value) => None,
        _ => Some(value),
    }
}

fn is_same_address(a: Mac, b: Mac) -> bool
    ensures { result ≡ is_same_address_lem a b }
{
    a.0 == b.0
}

fn is_identity(sought: Option<&[u8]>, identity: Option<&[u8]>) -> bool
    ensures { result ≡ seeks (λ value. is_octets value (value_in identity.entry)) (value_in sought.entry) }
{
    match (sought, identity) {
        (None, _) => true,
        (Some(value), Some(identity)) => identity == value,
        (Some(_), None) => false,
    }
}

fn is_port(sought: Option<u32>, port: u8) -> bool
    ensures { result ≡ seeks (λ n. n == port) sought }
{
    match sought {
        Some(n) => n == u32::from(port),
        None => true,
    }
}

fn is_address(sought: Option<Mac>, mac: Mac) -> bool
    ensures { result ≡ seeks (λ address. bytes_eq address.0 mac.0) sought }
{
    match sought {
        Some(address) => address.0 == mac.0,
        None => true,
    }
}

fn is_session(sought: Option<&[u8]>, number: u32) -> bool
    ensures { result ≡ seeks (λ value. bytes_eq value (session_text_lem number)) (value_in sought.entry) }
{
    match sought {
        Some(value) => value == session_text(number).as_slice(),
        None => true,
    }
}
