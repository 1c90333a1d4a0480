//! What was heard last for each host.
ghost use Rattle.std.specs.Prelude.{◌≡◌, ℕ, ◌+◌, ◌<◌, ◌≤◌, ◌++◌, ◌∷◌, [], List, length, IfOk, IfSome, IfNone, slice_get, Some, None};
ghost use Rattle.switch_event.specs.Sent.{Sent as Thing, ToHost, ToServer, sent_of};
ghost use Rattle.day_maker.specs.Hearing.{Hears, IsPlaceOf, IsNobody};

use crate::hearing::{identity_asked, server_asked};
use day_defs::Question;
use out_tray::{Sent, Tray};
use std::alloc::{AllocError, Global};
use wire_core::Mac;

/// What was heard last for a host: the identifier of the Request for its identity, and what the server was asked about it.
#[derive(Clone, Copy)]
pub struct Note {
    /// The identifier of the last Request for its identity.
    pub identity: Option<u8>,
    /// The last question about it.
    pub question: Option<Question>,
}

/// Notes for so many hosts, for which nothing was heard.
pub fn blank_notes(alloc: Global, hosts: u8) -> Result<Vec<Note>, AllocError>
    ensures count { IfOk result (λ notes. length notes.items ≡ hosts) }
    ensures blank { IfOk result (λ notes. Hears notes.items []) }
{
    let mut notes = Vec::with_capacity(alloc, usize::from(hosts))?;
    for _host in 0..hosts {
        notes.push(Note {
            identity: None,
            question: None,
        })?;
    }
    Ok(notes)
}

/// Notes what was sent in a turn.
pub fn hear_all(notes: &mut [Note], tray: &Tray)
    ensures { (sent : List Thing) → Hears notes.old sent → Hears notes.new (sent ++ tray.now.items) }
{
    for n in 0..tray.len() {
        let Some(item) = tray.item(n) else {
            unreachable!()
        };
        hear(notes, &item);
    }
}

// Notes a thing that was sent.
fn hear(notes: &mut [Note], item: &Sent<'_>)
    ensures { (sent : List Thing) → Hears notes.old sent → Hears notes.new (sent ++ sent_of item.now ∷ []) }
{
    match *item {
        Sent::Frame { port: _, octets } => hear_frame(notes, octets),
        Sent::Radius { socket, octets } => hear_request(notes, socket, octets),
        Sent::Reply { .. } => {}
    }
}

// Notes a frame that was sent.
fn hear_frame(notes: &mut [Note], octets: &[u8])
    ensures { (port : ℕ) (sent : List Thing) → Hears notes.old sent → Hears notes.new (sent ++ ToHost port octets.now ∷ []) }
{
    if let Some((address, id)) = identity_asked(octets) {
        if let Some(place) = place_of(address, notes.len()) {
            notes[place].identity = Some(id);
        }
    }
}

// Notes a packet that was sent to the server.
fn hear_request(notes: &mut [Note], socket: u8, octets: &[u8])
    ensures { (sent : List Thing) → Hears notes.old sent → Hears notes.new (sent ++ ToServer socket octets.now ∷ []) }
{
    if let Some((address, question)) = server_asked(socket, octets) {
        if let Some(place) = place_of(address, notes.len()) {
            notes[place].question = Some(question);
        }
    }
}

// The place of the host with this address among so many hosts, from 0. None where it is none of theirs.
fn place_of(address: Mac, hosts: usize) -> Option<usize>
    ensures found { IfSome result (IsPlaceOf address.0 hosts) }
    ensures nobody { IfNone result (IsNobody address.0 hosts) }
{
    let [2, 0, 0, 0, high, low] = address.0 else {
        return None;
    };
    let number = usize::from(high) * 256 + usize::from(low);
    if 1 <= number && number <= hosts {
        Some(number - 1)
    } else {
        None
    }
}
