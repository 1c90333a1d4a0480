//! Whether a request is true and new enough to be answered (RFC 5176, sections 2.3, 3.4 and 6.3).
ghost use Rattle.std.specs.Prelude.{◌≡◌};
ghost use Rattle.std.specs.Str.{bytes_eq};
ghost use Rattle.radius_defs.specs.Packet.{packet_text};
ghost use Rattle.radius_defs.specs.Digest.{zeros, request_auth as request_auth_lem};
ghost use Rattle.radius_defs.specs.Message.{message_state_of};
ghost use Rattle.radius_defs.specs.Attributes.{first_number as first_number_lem};
ghost use Rattle.dynauth_defs.specs.Judge.{is_dynamic as is_dynamic_lem, is_far, is_untrue as is_untrue_lem};

use radius_attrs::{Ma, first_number, message_state};
use radius_auth::request_auth;
use radius_defs::attribute::EVENT_TIMESTAMP;
use radius_defs::code::{COA_REQUEST, DISCONNECT_REQUEST};
use radius_packet::Packet;

// Whether this is the code of a request.
pub(crate) fn is_dynamic(code: u8) -> bool
    ensures { result ≡ is_dynamic_lem code }
{
    code == DISCONNECT_REQUEST || code == COA_REQUEST
}

// Whether the authenticator is the one that the secret gives.
pub(crate) fn is_authentic(p: &Packet<'_>, secret: &[u8]) -> bool
    ensures { result ≡ bytes_eq p.now.authenticator (request_auth_lem (packet_text p.now) secret.now) }
{
    p.auth == request_auth(p.text(), secret)
}

// Whether the Message-Authenticator is one for which the request is dropped, where one is required or
// not. Its value is that of a request whose authenticator is zeros (RFC 5176, section 3.4).
pub(crate) fn is_untrue(p: &Packet<'_>, secret: &[u8], require: bool) -> bool
    ensures { result ≡ is_untrue_lem require (message_state_of p.now (zeros 16) secret.now) }
{
    match message_state(p, [0; 16], secret) {
        Ma::Wrong => true,
        Ma::Absent => require,
        Ma::Right => false,
    }
}

// Whether the first Event-Timestamp differs from the clock by more than the window, in seconds.
pub(crate) fn is_stale(p: &Packet<'_>, now: u64, window: u64) -> bool
    ensures { result ≡ is_far now window (first_number_lem EVENT_TIMESTAMP p.now.attributes) }
{
    match first_number(p, EVENT_TIMESTAMP) {
        Some(moment) => now.abs_diff(u64::from(moment)) > window,
        None => false,
    }
}
