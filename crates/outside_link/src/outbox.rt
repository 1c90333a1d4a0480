// What a link in memory has sent, in memory that was taken before.
ghost use Rattle.std.specs.Prelude.{◌≡◌, ◌+◌, ◌-◌, ◌<◌, ◌≤◌, ◌↔◌, [], ◌∷◌, ◌++◌, None, true, length, slice_index_or, vec_len, vec_capacity, IfOk, IfSome};
ghost use Rattle.outside_link.specs.Link.{Outgoing};
ghost use Rattle.outside_link.specs.Stored.{Store};

use std::alloc::{AllocError, Global};
use std::marker::Model;
use wire_core::Addr;

/// How many octets of the room a datagram takes beside its own.
const HEAD: usize = 16;

// Where a datagram went, and where its octets stand.
#[derive(Clone, Copy)]
pub struct Head {
    channel: u8,
    to: Addr,
    at: usize,
    len: usize,
}

/// What was sent, and the room that is left: each datagram takes 16 octets more than it has.
#[derive(Drop)]
pub struct Outbox {
    heads: Vec<Head>,
    octets: Vec<u8>,
    room: usize,
}

impl Model for Outbox {
    ghost use Rattle.std.specs.Prelude.{◌+◌, ◌*◌, ◌≤◌, length, vec_capacity};
    ghost use Rattle.outside_link.specs.Stored.{StandWithin, Store, sent_of};

    ghost Value = { Store };

    ghost view = { λ s. record { sent = sent_of s.octets.items s.heads.items; room = s.room } };

    ghost invariant = { λ s. StandWithin s.octets.items s.heads.items
        × (length s.octets.items + s.room ≤ vec_capacity s.octets)
        × (16 * length s.heads.items + s.room ≤ 16 * vec_capacity s.heads) };
}

impl Outbox {
    /// Nothing was sent. It takes the memory for all that fits into the room.
    pub fn new(alloc: Global, room: usize) -> Result<Outbox, AllocError>
        ensures { IfOk result (λ s. s ≡ record { sent = []; room = room }) }
    {
        Ok(Outbox {
            heads: Vec::with_capacity(alloc, room / HEAD + 1)?,
            octets: Vec::with_capacity(alloc, room)?,
            room,
        })
    }

    /// Whether a datagram of so many octets fits into the room that is left.
    pub fn has_room(&self, len: usize) -> bool
        ensures { (result ≡ true) ↔ (16 + len ≤ self.now.room) }
    {
        self.room >= HEAD && len <= self.room - HEAD
    }

    /// Keeps a datagram, for which there is room. It takes no memory.
    pub fn put(&mut self, channel: u8, to: Addr, piece: &[u8])
        requires { 16 + length piece.now ≤ self.old.room }
        ensures { self.new ≡ record {
          sent = self.old.sent ++ record { channel = channel; to = to; octets = piece.now } ∷ [];
          room = self.old.room - (16 + length piece.now);
        } }
    {
        let at = self.octets.as_slice().len();
        append(&mut self.octets, piece);
        self.heads.push_reserved(Head {
            channel,
            to,
            at,
            len: piece.len(),
        });
        self.room -= HEAD + piece.len();
    }

    /// The datagram of a number, from 0: its channel, where it went, and its octets. None exactly
    /// where there is none.
    pub fn get(&self, n: usize) -> Option<(u8, Addr, &[u8])>
        ensures none { (result ≡ None) ↔ (length self.now.sent ≤ n) }
        ensures some { IfSome result (λ r. (d : Outgoing) → slice_index_or self.now.sent n d
            ≡ record { channel = r.0; to = r.1; octets = r.2.now }) }
    {
        if n >= self.heads.len() {
            return None;
        }
        let head = self.heads[n];
        let octets = &self.octets[head.at..head.at + head.len];
        Some((head.channel, head.to, octets))
    }
}

// Appends octets where there is room for them.
fn append(octets: &mut Vec<u8>, piece: &[u8])
    requires { vec_len octets.old + length piece.now ≤ vec_capacity octets.old }
    ensures items { octets.new.items ≡ octets.old.items ++ piece.now }
    ensures capacity { vec_capacity octets.old ≤ vec_capacity octets.new }
{
    let _fits = octets.extend_from_slice(piece);
}
