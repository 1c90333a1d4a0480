ghost use Rattle.std.specs.Prelude.{◌≡◌, ◌+◌, ◌<◌, ◌≤◌, [], ◌∷◌, ◌++◌, length, Some, slice_get, slice_range, IfOk, MatchOption, vec_len, vec_capacity};
ghost use Rattle.switch_event.specs.Sent.{sent_of, octets_of};
ghost use Rattle.out_tray.specs.Way.{sent_by};
ghost use Rattle.out_tray.specs.Tray.{spare};
ghost use Rattle.out_tray.specs.Layout.{start_at};

use crate::way::Way;
use std::alloc::{AllocError, Global};
use std::marker::Model;
use switch_event::Sent;

// Where the octets of an item go, and where they end among the octets of all items.
#[derive(Clone, Copy)]
struct Entry {
    way: Way,
    end: usize,
}

/// The list of the things sent, in order, with room beside it that contracts see: that of the
/// number of sessions that it was opened for. The memory that [`Tray::open`] takes is exactly that
/// room, and no call changes how much of it there is.
#[derive(Drop)]
pub struct Tray {
    sessions: usize,
    room: usize,
    entries: Vec<Entry>,
    octets: Vec<u8>,
}

impl Model for Tray {
    ghost use Rattle.std.specs.Prelude.{vec_capacity};
    ghost use Rattle.out_tray.specs.Tray.{Things};
    ghost use Rattle.out_tray.specs.Layout.{items_from, Sound};

    ghost Value = { Things };

    ghost view = { λ t. record { sessions = t.sessions; items = items_from 0 t.entries.items t.octets.items } };

    ghost invariant = { λ t. Sound t.sessions t.room t.entries.items t.octets.items (vec_capacity t.entries) (vec_capacity t.octets) };
}

const EACH_SESSION: usize = 90_000;

const BESIDE: usize = 100_000;

const EACH_ITEM: usize = 16;

impl Tray {
    /// An empty tray with room for 90,000 octets for each session and 100,000 more, where each item
    /// takes 16 octets beside its own. Only this call takes memory. `AllocError`: there is none.
    pub fn open(alloc: Global, sessions: usize) -> Result<Tray, AllocError>
        ensures { IfOk result (λ tray. tray ≡ record { sessions = sessions; items = [] }) }
    {
        let room = sessions
            .checked_mul(EACH_SESSION)
            .and_then(|octets| octets.checked_add(BESIDE))
            .ok_or(AllocError)?;
        let entries = Vec::with_capacity(alloc, room / EACH_ITEM)?;
        let octets = Vec::with_capacity(alloc, room)?;
        Ok(Tray {
            sessions,
            room,
            entries,
            octets,
        })
    }

    /// How many octets there is room for: of one item, its own octets and 16.
    pub fn spare(&self) -> usize
        ensures { result ≡ spare self.now }
    {
        self.room - EACH_ITEM * self.entries.len() - self.octets.len()
    }

    /// Takes all items out, and gives all of the room back.
    pub fn clear(&mut self)
        ensures { self.new ≡ record self.old { items = [] } }
    {
        self.entries.clear();
        self.octets.clear();
    }

    /// Appends an item. Its octets and 16 must be at most [`Tray::spare`].
    pub fn put(&mut self, s: Sent<'_>)
        requires { length (octets_of (sent_of s)) + 16 ≤ spare self.old }
        ensures items { self.new ≡ record self.old { items = self.old.items ++ sent_of s.entry ∷ [] } }
        ensures room { spare self.new + length (octets_of (sent_of s.entry)) + 16 ≡ spare self.old }
    {
        match s {
            Sent::Frame { port, octets } => self.append(Way::Frame { port }, octets),
            Sent::Radius { socket, octets } => self.append(Way::Radius { socket }, octets),
            Sent::Reply { to, octets } => self.append(Way::Reply { to }, octets),
        }
    }

    fn append(&mut self, way: Way, octets: &[u8])
        requires { length octets.now + 16 ≤ spare self.old }
        ensures items { self.new ≡ record self.old { items = self.old.items ++ sent_by way octets.now ∷ [] } }
        ensures room { spare self.new + length octets.now + 16 ≡ spare self.old }
    {
        copy_behind(&mut self.octets, octets);
        let end = self.octets.len();
        self.entries.push_reserved(Entry { way, end });
    }

    /// The number of items.
    pub fn len(&self) -> usize
        ensures { result ≡ length self.now.items }
    {
        self.entries.len()
    }

    /// The item at a place, from 0. `None` comes exactly where the place is not below [`Tray::len`].
    pub fn item(&self, n: usize) -> Option<Sent<'_>>
        ensures { MatchOption result (length self.now.items ≤ n) (λ sent. slice_get self.now.items n ≡ Some (sent_of sent)) }
    {
        let Some(entry) = self.entries.get(n) else {
            return None;
        };
        let start = start_of(&self.entries, n);
        Some(sent(entry.way, part(&self.octets, start, entry.end)))
    }
}

// Appends octets for which there is room. One at a time, since a push into reserved room promises
// that no more is reserved.
fn copy_behind(room: &mut Vec<u8>, octets: &[u8])
    requires { vec_len room.old + length octets.now ≤ vec_capacity room.old }
    ensures items { room.new.items ≡ room.old.items ++ octets.now }
    ensures capacity { vec_capacity room.new ≡ vec_capacity room.old }
{
    for octet in octets {
        room.push_reserved(*octet);
    }
}

// Where the item at a place begins: where the one before it ends.
fn start_of(entries: &[Entry], n: usize) -> usize
    requires { n < length entries.now }
    ensures { result ≡ start_at 0 entries.now n }
{
    if n == 0 { 0 } else { entries[n - 1].end }
}

fn part(octets: &[u8], start: usize, end: usize) -> &[u8]
    requires rises { start ≤ end }
    requires within { end ≤ length octets.now }
    ensures { result.now ≡ slice_range octets.now start end }
{
    &octets[start..end]
}

fn sent(way: Way, octets: &[u8]) -> Sent<'_>
    ensures { sent_of result ≡ sent_by way octets.now }
{
    match way {
        Way::Frame { port } => Sent::Frame { port, octets },
        Way::Radius { socket } => Sent::Radius { socket, octets },
        Way::Reply { to } => Sent::Reply { to, octets },
    }
}
