ghost use Rattle.std.specs.Prelude.{◌≡◌, ◌≤◌, ◌+◌, length, true};
ghost use Rattle.typed_session.specs.Moves.{kept_by, kept_in};
ghost use Rattle.typed_session.specs.Reads.{status_of, id_of, wants_of, is_held, rested, cleared, identity_of, response_of, known_of, known_by};

use crate::host::{Common, Host, Known};
use machine_vars::Wants;

// authPortStatus.
pub(crate) fn status(host: &Host) -> bool
    ensures { result ≡ status_of host.now }
{
    match host {
        Host::Request(a) | Host::Ignore(a) => a.status,
        Host::Server(a) => a.status,
        Host::GaveUp(a) => a.status,
        Host::Authenticated(_) => true,
        Host::Held(_) | Host::Ended(_) => false,
    }
}

// What each state holds, of a session that goes on.
pub(crate) fn common(host: &Host) -> Option<&Common>
    ensures { kept_in result ≡ kept_by host.now }
{
    match host {
        Host::Request(a) | Host::Ignore(a) => Some(&a.common),
        Host::Server(a) => Some(&a.common),
        Host::GaveUp(a) => Some(&a.common),
        Host::Authenticated(a) => Some(&a.common),
        Host::Held(a) => Some(&a.common),
        Host::Ended(_) => None,
    }
}

// currentId.
pub(crate) fn id(host: &Host) -> u8
    ensures { result ≡ id_of host.now }
{
    match host {
        Host::Request(a) | Host::Ignore(a) => a.common.id,
        Host::Server(a) => a.common.id,
        Host::GaveUp(a) => a.common.id,
        Host::Authenticated(a) => a.common.id,
        Host::Held(a) => a.common.id,
        Host::Ended(a) => a.id,
    }
}

fn known_by(common: &Common) -> Option<Known>
    ensures { result ≡ known_by common.now }
{
    Some(Known {
        id: common.id,
        times: common.times,
    })
}

// What an answer of the server is told by, of a session that goes on.
pub(crate) fn known(host: &Host) -> Option<Known>
    ensures { result ≡ known_of host.now }
{
    match host {
        Host::Request(a) | Host::Ignore(a) => known_by(&a.common),
        Host::Server(a) => known_by(&a.common),
        Host::GaveUp(a) => known_by(&a.common),
        Host::Authenticated(a) => known_by(&a.common),
        Host::Held(a) => known_by(&a.common),
        Host::Ended(_) => None,
    }
}

// What is left to be done for the server's side.
pub(crate) fn flags(host: &Host) -> Wants
    ensures { result ≡ wants_of host.now }
{
    let (ask, abort, gone) = match host {
        Host::Request(a) | Host::Ignore(a) => (a.common.ask, a.common.abort, false),
        Host::Server(a) => (a.common.ask, a.common.abort, false),
        Host::GaveUp(a) => (a.common.ask, a.common.abort, false),
        Host::Authenticated(a) => (a.common.ask, a.common.abort, false),
        Host::Held(a) => (a.common.ask, a.common.abort, false),
        Host::Ended(a) => (a.ask, a.abort, true),
    };
    Wants { ask, abort, gone }
}

// It counts as done.
fn rest(common: &mut Common)
    ensures { common.new ≡ rested common.old }
{
    common.ask = false;
    common.abort = false;
}

pub(crate) fn clear(host: &mut Host)
    ensures { host.new ≡ cleared host.old }
{
    match host {
        Host::Request(a) => {
            rest(&mut a.common);
        }
        Host::Ignore(a) => {
            rest(&mut a.common);
        }
        Host::Server(a) => {
            rest(&mut a.common);
        }
        Host::GaveUp(a) => {
            rest(&mut a.common);
        }
        Host::Authenticated(a) => {
            rest(&mut a.common);
        }
        Host::Held(a) => {
            rest(&mut a.common);
        }
        Host::Ended(a) => {
            a.ask = false;
            a.abort = false;
        }
    }
}

// The identity of a session that goes on.
pub(crate) fn identity(host: &Host) -> &[u8]
    ensures value { result.now ≡ identity_of host.now }
    ensures short { length result.now ≤ 253 }
{
    match host {
        Host::Request(a) | Host::Ignore(a) => a.common.identity.as_slice(),
        Host::Server(a) => a.common.identity.as_slice(),
        Host::GaveUp(a) => a.common.identity.as_slice(),
        Host::Authenticated(a) => a.common.identity.as_slice(),
        Host::Held(a) => a.common.identity.as_slice(),
        Host::Ended(_) => &[],
    }
}

// The response that the server is asked about.
pub(crate) fn response(host: &Host) -> &[u8]
    ensures value { result.now ≡ response_of host.now }
    ensures short { length result.now ≤ 1500 }
{
    match host {
        Host::Server(a) => a.response.as_slice(),
        _ => &[],
    }
}

// Whether the host was refused, and is not asked for a while.
pub(crate) fn is_held(host: &Host) -> bool
    ensures { result ≡ is_held host.now }
{
    match host {
        Host::Held(_) => true,
        _ => false,
    }
}
