//! The reply to a dynamic request.
ghost use Rattle.std.specs.Prelude.{◌≡◌, ◌+◌, ◌≤◌, ◌<◌, length};
ghost use Rattle.radius_defs.specs.declared.attribute.TheConstants.{PROXY_STATE};
ghost use Rattle.radius_defs.specs.declared.limit.TheConstants.{MOST_OCTETS};
ghost use Rattle.radius_defs.specs.Packet.{attributes_text, size_of, those_of};
ghost use Rattle.radius_defs.specs.Digest.{zeros};
ghost use Rattle.radius_defs.specs.Message.{with_message};
ghost use Rattle.dynauth_defs.specs.Reply.{reply_octets, reply_code as reply_code_lem, error_cause, unsigned_reply};
ghost use Rattle.dynauth_defs.specs.Answered.{IsRequest};
ghost use Rattle.dynauth_server.specs.Replies.{with_all};

use arrayvec::ArrayVec;
use radius_attrs::{begin, sign};
use radius_auth::response_auth;
use radius_defs::attribute::{ERROR_CAUSE, PROXY_STATE};
use radius_packet::{Builder, Packet};
use wire_core::four_octets;

/// Replaces `out` by the octets of the reply to a Disconnect-Request or a CoA-Request: an ACK, or
/// with a cause a NAK that says it in its Error-Cause. The reply has the request's identifier, a
/// Message-Authenticator before its other attributes, and each Proxy-State of the request in order (RFC
/// 5176, sections 2.3, 3 and 3.4). The request must have one of the two codes and at most 4,000
/// octets. No memory is taken.
pub fn reply(request: &Packet<'_>, cause: Option<u32>, secret: &[u8], out: &mut ArrayVec<u8, 4096>)
    requires { IsRequest request.now }
    ensures { out.new.items ≡ reply_octets request.now cause secret.now }
{
    let mut built = awaiting(request, cause);
    sign(&mut built, request.auth, secret);
    let auth = response_auth(built.octets(), request.auth, secret);
    built.set_auth(auth);
    out.clear();
    let _fits = out.try_extend_from_slice(built.octets());
}

// The reply with zeros for its Message-Authenticator, and the request's authenticator in place of its
// own.
fn awaiting(request: &Packet<'_>, cause: Option<u32>) -> Builder
    requires { IsRequest request.now }
    ensures { result ≡ with_message (unsigned_reply request.now cause) (zeros 16) }
{
    let mut built = begin(reply_code(request.code, cause), request.id, request.auth);
    put_cause(&mut built, cause);
    put_proxy_states(&mut built, request);
    built
}

// The code of the ACK, or of the NAK where there is a cause.
fn reply_code(request: u8, cause: Option<u32>) -> u8
    requires { request < 254 }
    ensures { result ≡ reply_code_lem request cause }
{
    match cause {
        None => request + 1,
        Some(_) => request + 2,
    }
}

// Puts the Error-Cause, where there is a cause.
fn put_cause(built: &mut Builder, cause: Option<u32>)
    requires { size_of built.old + 6 ≤ MOST_OCTETS }
    ensures packet { built.new ≡ with_all built.old (error_cause cause) }
    ensures size { size_of built.new ≤ size_of built.old + 6 }
{
    if let Some(cause) = cause {
        built.add(ERROR_CAUSE, &four_octets(cause));
    }
}

// Puts each Proxy-State of the request, in order.
fn put_proxy_states(built: &mut Builder, request: &Packet<'_>)
    requires { size_of built.old + length (attributes_text request.now.attributes) ≤ MOST_OCTETS }
    ensures { built.new ≡ with_all built.old (those_of PROXY_STATE request.now.attributes) }
{
    for (kind, value) in request.attributes() {
        if kind == PROXY_STATE {
            built.add(PROXY_STATE, value);
        }
    }
}
