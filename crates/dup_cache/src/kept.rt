ghost use Rattle.std.specs.Prelude.{◌≡◌, ◌≤◌, ◌<◌, [], length, slice_get, Some, IfOk, IfSome};
ghost use Rattle.kept_defs.specs.Kept.{newest_reply, with_newest};
ghost use Rattle.dup_cache.specs.Reply.{reply_in};

use crate::slot::Slot;
use circular_buffer::HeapCircularBuffer;
use kept_defs::MOST_KEPT;
use std::alloc::{AllocError, Global};
use std::marker::Model;

/// The list of the last 64 replies kept for one client, oldest first: of each the moment in seconds,
/// the source port of the request, the octets of the request and those of the reply. The memory of
/// 64 entries is taken by [`Kept::open`], and no call changes how much of it there is.
#[derive(Drop)]
pub struct Kept {
    // 64 entries, always: those that are in use are the last `len`, the others wait to be filled.
    slots: HeapCircularBuffer<Slot>,
    len: usize,
}

impl Model for Kept {
    ghost use Rattle.std.specs.Prelude.{◌≡◌, ◌≤◌, List, length};
    ghost use Rattle.circular_buffer.specs.Buffer.{keep_last};
    ghost use Rattle.kept_defs.specs.Kept.{Entry};

    ghost Value = { List Entry };

    ghost view = { λ k. keep_last k.len k.slots.items };

    ghost invariant = { λ k. (length k.slots.items ≡ 64) × (k.slots.capacity ≡ 64) × (k.len ≤ 64) };
}

impl Kept {
    /// An empty list. Only this call takes memory: 524,288 octets for the entries, and what stands
    /// beside them. `AllocError`: there is none.
    pub fn open(alloc: Global) -> Result<Kept, AllocError>
        ensures { IfOk result (λ kept. kept ≡ []) }
    {
        let mut slots = HeapCircularBuffer::with_capacity(alloc, MOST_KEPT)?;
        for _n in 0..MOST_KEPT {
            let slot = Slot::open(alloc)?;
            let _none = slots.push_back(slot);
        }
        Ok(Kept { slots, len: 0 })
    }

    /// Makes this list equal to the other.
    pub fn copy_from(&mut self, other: &Kept)
        ensures { self.new ≡ other.now }
    {
        self.clear();
        for n in 0..other.len {
            let slot = other.entry(n);
            self.keep(slot.sport(), slot.request(), slot.reply(), slot.moment());
        }
    }

    /// The reply to a request from a source port that was kept last of those that were kept at most 30
    /// seconds before `now`, in seconds, and not after it (RFC 5176, section 2.3). None exactly where
    /// there is none. It has at most 4,096 octets.
    pub fn look(&self, sport: u16, request: &[u8], now: u64) -> Option<&[u8]>
        ensures reply { reply_in result ≡ newest_reply sport request.now now self.now }
        ensures fits { IfSome result (λ reply. length reply.now ≤ 4096) }
    {
        for n in 0..self.len {
            let slot = self.entry(self.len - 1 - n);
            if slot.is_repeat(sport, request, now) {
                return Some(slot.reply());
            }
        }
        None
    }

    /// Appends the reply that was given to a request from a source port at the moment `now`, in seconds.
    /// Where there are 64, the oldest is dropped. The request and the reply must have at most 4,096
    /// octets each.
    pub fn keep(&mut self, sport: u16, request: &[u8], reply: &[u8], now: u64)
        requires request { length request.now ≤ 4096 }
        requires reply { length reply.now ≤ 4096 }
        ensures { self.new ≡ with_newest (record { moment = now; sport = sport; request = request.now; reply = reply.now }) self.old }
    {
        let mut slot = self.slots.pop_front().unwrap();
        slot.fill(sport, request, reply, now);
        let _none = self.slots.push_back(slot);
        self.len = (self.len + 1).min(MOST_KEPT);
    }

    fn clear(&mut self)
        ensures { self.new ≡ [] }
    {
        self.len = 0;
    }

    // The entry at a place, counted from the oldest.
    fn entry(&self, n: usize) -> &Slot
        requires { n < length self.now }
        ensures { slice_get self.now n ≡ Some result.now }
    {
        self.slots.get(MOST_KEPT - self.len + n).unwrap()
    }
}
