//! Requests, and how each is judged: rows of plain data, and what runs them.

use crate::roll::named_bob;
use arrayvec::ArrayVec;
use dup_cache::Kept;
use dynauth_server::{Action, Judged, judge};
use radius_auth::{message_auth, request_auth};
use radius_packet::{Builder, parse};
use std::alloc::{AllocError, Global};
use switch_event::{Client, Config};
use wire_core::Addr;

/// The address of the first client, 192.0.2.30, and its port.
pub(crate) const FIRST: Addr = Addr {
    ip: [192, 0, 2, 30],
    port: 4000,
};

/// The address of the second client, 192.0.2.31.
pub(crate) const SECOND: Addr = Addr {
    ip: [192, 0, 2, 31],
    port: 4000,
};

/// How a request is made true.
#[derive(Clone, Copy, PartialEq, Eq)]
pub(crate) enum Form {
    /// With a right Message-Authenticator before its other attributes.
    Signed,
    /// With that, and the same one once more behind them.
    Twice,
    /// Without one of its own.
    Unsigned,
    /// These octets, whatever else the row says of the request.
    Octets(&'static [u8]),
}

/// A reply that is kept for a client.
#[derive(Clone, Copy)]
pub(crate) struct Reply {
    /// The place of the client, 0 or 1.
    pub(crate) client: usize,
    /// The octets of the reply.
    pub(crate) octets: &'static [u8],
}

/// A request, when and from where it comes, and how it is judged.
#[derive(Clone, Copy)]
pub(crate) struct Row {
    /// Its code. Its identifier is 7.
    pub(crate) code: u8,
    /// Its attributes.
    pub(crate) attributes: &'static [(u8, &'static [u8])],
    /// The secret that makes it true.
    pub(crate) secret: &'static [u8],
    /// How it is made true.
    pub(crate) form: Form,
    /// How many octets are missing at its end.
    pub(crate) cut: usize,
    /// Where it comes from.
    pub(crate) from: Addr,
    /// How many clients there are: 192.0.2.30, secret `dyn`, and 192.0.2.31, secret `other`.
    pub(crate) clients: usize,
    /// Whether a Message-Authenticator is required.
    pub(crate) require: bool,
    /// The moment, in seconds. The window is 300 seconds.
    pub(crate) now: u64,
    /// How many sessions there are of host `bob`, at most two.
    pub(crate) sessions: usize,
    /// Whether they are authorised.
    pub(crate) authorised: bool,
    /// How it is judged.
    pub(crate) judged: Judged<'static>,
    /// What is kept afterwards as its reply.
    pub(crate) keep: Option<Reply>,
}

/// A Disconnect-Request for no session, which is right in all else: of the first client, at the moment
/// 0, with one session, which is authorised.
pub(crate) const DISCONNECTS: Row = Row {
    code: 40,
    attributes: &[],
    secret: b"dyn",
    form: Form::Signed,
    cut: 0,
    from: FIRST,
    clients: 1,
    require: true,
    now: 0,
    sessions: 1,
    authorised: true,
    judged: Judged::Ack(Action::Disconnect { number: 1 }),
    keep: None,
};

/// The same as a CoA-Request.
pub(crate) const CHANGES: Row = Row {
    code: 43,
    ..DISCONNECTS
};

/// Acct-Session-Id of session 1.
pub(crate) const SESSION: (u8, &[u8]) = (44, b"00000001");

/// The first row whose request is judged otherwise. The rows come one after another, so that replies
/// that were kept count for those behind.
pub(crate) fn otherwise(alloc: Global, rows: &[Row]) -> Result<Option<usize>, AllocError> {
    let mut kept = [Kept::open(alloc)?, Kept::open(alloc)?];
    for (at, row) in rows.iter().enumerate() {
        if !is_judged(row, &mut kept) {
            return Ok(Some(at));
        }
    }
    Ok(None)
}

fn is_judged(row: &Row, kept: &mut [Kept; 2]) -> bool {
    let Some(octets) = octets_of(row) else {
        return false;
    };
    let is_right = judged(row, octets.as_slice(), kept.as_slice()) == Some(row.judged);
    is_right && is_kept(row, octets.as_slice(), kept)
}

fn judged<'a>(row: &Row, octets: &[u8], kept: &'a [Kept]) -> Option<Judged<'a>> {
    let config = settings(row)?;
    let kept = kept.get(..row.clients)?;
    if kept.len() != config.clients.len() {
        return None;
    }
    let roll = named_bob(row.sessions, row.authorised);
    Some(judge(octets, row.from, &config, kept, row.now, &roll))
}

fn is_kept(row: &Row, octets: &[u8], kept: &mut [Kept; 2]) -> bool {
    let Some(reply) = row.keep else {
        return true;
    };
    match kept.get_mut(reply.client) {
        Some(list) => keeps(list, octets, reply.octets, row.now),
        None => false,
    }
}

fn keeps(list: &mut Kept, octets: &[u8], reply: &[u8], now: u64) -> bool {
    if octets.len() > 4096 || reply.len() > 4096 {
        return false;
    }
    list.keep(4000, octets, reply, now);
    true
}

fn settings(row: &Row) -> Option<Config> {
    let mut config = Config::empty();
    config.require_ma = row.require;
    config.clients.try_push(client(FIRST.ip, b"dyn")?).ok()?;
    if row.clients == 2 {
        config.clients.try_push(client(SECOND.ip, b"other")?).ok()?;
    }
    Some(config)
}

fn client(ip: [u8; 4], text: &[u8]) -> Option<Client> {
    let mut secret = ArrayVec::new();
    secret.try_extend_from_slice(text).ok()?;
    Some(Client { ip, secret })
}

fn octets_of(row: &Row) -> Option<ArrayVec<u8, 4096>> {
    let mut octets = ArrayVec::new();
    if let Form::Octets(whole) = row.form {
        octets.try_extend_from_slice(whole).ok()?;
    } else {
        let built = request(row)?;
        octets.try_extend_from_slice(built.octets()).ok()?;
    }
    octets.truncate(octets.len().saturating_sub(row.cut));
    Some(octets)
}

fn request(row: &Row) -> Option<Builder> {
    let mut built = match row.form {
        Form::Signed => signed(row)?,
        Form::Twice => twice(row)?,
        _ => begun(row, None)?,
    };
    let auth = request_auth(built.octets(), row.secret);
    built.set_auth(auth);
    Some(built)
}

fn begun(row: &Row, message: Option<&[u8; 16]>) -> Option<Builder> {
    let mut built = Builder::new(row.code, 7, [0; 16]);
    if let Some(value) = message {
        built.put(80, value).ok()?;
    }
    for (kind, value) in row.attributes {
        built.put(*kind, value).ok()?;
    }
    Some(built)
}

fn message(row: &Row) -> Option<[u8; 16]> {
    let blank = begun(row, Some(&[0; 16]))?;
    if blank.octets().len() < 38 {
        return None;
    }
    Some(message_auth(blank.octets(), [0; 16], 22, row.secret))
}

fn signed(row: &Row) -> Option<Builder> {
    let value = message(row)?;
    begun(row, Some(&value))
}

fn twice(row: &Row) -> Option<Builder> {
    let value = message(row)?;
    let mut built = begun(row, Some(&value))?;
    built.put(80, &value).ok()?;
    Some(built)
}
