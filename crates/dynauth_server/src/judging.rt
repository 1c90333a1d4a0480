//! Judging a dynamic request.
ghost use Rattle.std.specs.Prelude.{◌≡◌, true, if◌then◌else◌, length, Ok, Err};
ghost use Rattle.dynauth_defs.specs.Session.{matching};
ghost use Rattle.dynauth_defs.specs.Judge.{judged as judged_lem, first_line, done, is_dynamic as is_dynamic_lem};
ghost use Rattle.dynauth_defs.specs.Answered.{GetsReply, IsAnswered};
ghost use Rattle.dynauth_server.specs.Lines.{refusals, answered};
ghost use Rattle.dynauth_server.specs.Judged.{FitsAck, FitsAgain, judged_in};

use crate::attributes::{has, has_forbidden, has_ill_formed, is_for_another, names_session};
use crate::change::{asks_no_change, has_bad_value, vlan};
use crate::client::client_of;
use crate::judged::Judged;
use crate::roll::Roll;
use crate::session::named;
use crate::trust::{is_authentic, is_dynamic, is_stale, is_untrue};
use dup_cache::Kept;
use dynauth_defs::{Action, MOST_REQUEST};
use radius_attrs::timeout;
use radius_defs::attribute::SERVICE_TYPE;
use radius_defs::cause::{
    INVALID_ATTRIBUTE_VALUE, MISSING_ATTRIBUTE, MULTIPLE_SESSION_SELECTION_UNSUPPORTED,
    NAS_IDENTIFICATION_MISMATCH, SESSION_CONTEXT_NOT_FOUND, UNSUPPORTED_ATTRIBUTE,
    UNSUPPORTED_SERVICE,
};
use radius_defs::code::DISCONNECT_REQUEST;
use radius_packet::{Packet, parse};
use switch_event::{Config, DynDrop};
use wire_core::Addr;

/// How a datagram is judged that came from an address and port of UDP to the port for dynamic
/// requests, at the moment `now` in seconds (RFC 5176, sections 2.3, 3 and 6). In this order:
///
/// - it is dropped for a reason of [`DynDrop`] other than `Stale`;
/// - it is a repeat, and gets the reply that was kept;
/// - it is dropped as `Stale`;
/// - it is refused: 403 for another access server, 405 with a Service-Type, 401 with an attribute that
///   a request of its code may not have, 407 with an ill-formed one, 402 where it names no session;
/// - it is refused: 503 where no session fits what it names, 508 where several do;
/// - a CoA-Request is refused: 402 where it asks for no change or has half a tunnel, 407 with a time,
///   an action or a tunnel that cannot be followed, 503 where the session is not authorised;
/// - it is acknowledged.
///
/// `kept` must have a list of kept replies for each client, in the order of the settings. The client
/// of a request is the first that has the source address. A reply that is given again lies in that
/// client's list, and has at most 4,096 octets. What is refused or acknowledged is a request to which
/// [`crate::reply`] can be written. What is acknowledged names one session, which is authorised where
/// it is to be changed. Nothing changes, and no memory is taken.
pub fn judge<'a, R: Roll>(
    b: &[u8],
    from: Addr,
    c: &Config,
    kept: &'a [Kept],
    now: u64,
    roll: &R,
) -> Judged<'a>
    requires { length kept.now ≡ length c.now.clients }
    ensures line { judged_in result ≡ judged_lem c.now kept.now now (R.rows roll.now) from b.now }
    ensures request { GetsReply (judged_in result) → IsAnswered c.now kept.now from b.now }
    ensures fits { FitsAgain result }
    ensures acked { FitsAck (R.rows roll.now) b.now result }
{
    let Some((client, replies)) = client_of(from.ip, c.clients.as_slice(), kept) else {
        return Judged::Drop(DynDrop::Stranger);
    };
    let Ok(p) = parse(b) else {
        return Judged::Drop(DynDrop::Malformed);
    };
    if p.text().len() > MOST_REQUEST {
        return Judged::Drop(DynDrop::Oversize);
    }
    if !is_dynamic(p.code) {
        return Judged::Drop(DynDrop::BadCode);
    }
    if !is_authentic(&p, client.secret.as_slice()) {
        return Judged::Drop(DynDrop::BadAuthenticator);
    }
    if is_untrue(&p, client.secret.as_slice(), c.require_ma) {
        return Judged::Drop(DynDrop::BadMessageAuth);
    }
    if let Some(reply) = replies.look(from.port, p.text(), now) {
        return Judged::Again(reply);
    }
    if is_stale(&p, now, c.window) {
        return Judged::Drop(DynDrop::Stale);
    }
    match answer(&p, c, roll) {
        Ok(action) => Judged::Ack(action),
        Err(cause) => Judged::Nak(cause),
    }
}

// What a request that is true, new and in time does, or the Error-Cause with which it is refused.
fn answer<R: Roll>(p: &Packet<'_>, c: &Config, roll: &R) -> Result<Action, u32>
    requires { is_dynamic_lem p.now.code ≡ true }
    ensures { answered result ≡ first_line (refusals c.now (R.rows roll.now) p.now) (done p.now (matching p.now.attributes (R.rows roll.now))) }
{
    refuse(is_for_another(p, &c.nas), NAS_IDENTIFICATION_MISMATCH)?;
    refuse(has(p, SERVICE_TYPE), UNSUPPORTED_SERVICE)?;
    refuse(has_forbidden(p), UNSUPPORTED_ATTRIBUTE)?;
    refuse(has_ill_formed(p), INVALID_ATTRIBUTE_VALUE)?;
    refuse(!names_session(p), MISSING_ATTRIBUTE)?;
    let (first, has_others) = named(p, roll);
    let session = first.ok_or(SESSION_CONTEXT_NOT_FOUND)?;
    refuse(has_others, MULTIPLE_SESSION_SELECTION_UNSUPPORTED)?;
    if p.code == DISCONNECT_REQUEST {
        return Ok(Action::Disconnect {
            number: session.number,
        });
    }
    refuse(asks_no_change(p), MISSING_ATTRIBUTE)?;
    refuse(has_bad_value(p), INVALID_ATTRIBUTE_VALUE)?;
    refuse(!session.authorised, SESSION_CONTEXT_NOT_FOUND)?;
    Ok(Action::Change {
        number: session.number,
        vlan: vlan(p),
        timeout: timeout(p),
    })
}

// The cause, where the line applies.
fn refuse(applies: bool, cause: u32) -> Result<(), u32>
    ensures { result ≡ (if applies then Err cause else Ok tt) }
{
    if applies { Err(cause) } else { Ok(()) }
}
