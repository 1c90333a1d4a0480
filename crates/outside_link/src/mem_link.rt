// A link in memory.
ghost use Rattle.std.specs.Prelude.{◌≡◌, ◌+◌, ◌-◌, ◌<◌, ◌≤◌, ◌⊎◌, ◌↔◌, [], ◌∷◌, ◌++◌, None, Some, true, false, nat_lt, length, map, replicate, slice_index_or, slice_set, Contains, IfOk, IfSome, IsErr};
ghost use Rattle.wire_defs.specs.Outside.{HasCause, risen};
ghost use Rattle.outside_link.specs.Link.{Binds, Incoming, NeedsBound, NeedsChannel, Outgoing, Receives, ReceivesAtMost, Same, Sends, first_waiting, without_first};
ghost use Rattle.outside_link.specs.Post.{after_bind, after_recv, after_send};

use crate::Link;
use crate::outbox::Outbox;
use outside_core::Failed;
use std::alloc::{AllocError, Global};
use std::collections::VecDeque;
use std::marker::Model;
use std::net::Net;
use wire_core::Addr;

// A datagram that waits.
#[derive(Drop)]
struct Letter {
    from: Addr,
    octets: Vec<u8>,
}

impl Model for Letter {
    ghost Value = { Incoming };

    ghost view = { λ s. record { from = s.from; octets = s.octets.items } };
}

impl Letter {
    fn new(alloc: Global, from: Addr, octets: &[u8]) -> Result<Letter, AllocError>
        ensures { IfOk result (λ letter. letter ≡ record { from = from; octets = octets.now }) }
    {
        Ok(Letter {
            from,
            octets: octets.to_vec(alloc)?,
        })
    }
}

/// A link in memory. Each of its calls but `new`, `give` and `sent` is counted.
#[derive(Drop)]
pub struct MemLink {
    out: Outbox,
    waits: [VecDeque<Letter>; 6],
    bound: [Option<u16>; 6],
    fails: Vec<u64>,
    calls: u64,
    faults: u64,
}

impl Model for MemLink {
    ghost use Rattle.std.specs.Prelude.{map, length, ◌≡◌};
    ghost use Rattle.outside_link.specs.Post.{Post};

    ghost Value = { Post };

    ghost view = { λ s. record {
      sent = s.out.sent;
      room = s.out.room;
      waits = map (λ q. q.items) s.waits;
      bound = s.bound;
      fails = s.fails.items;
      calls = s.calls;
      faults = s.faults;
    } };

    ghost invariant = { λ s. (length s.waits ≡ 6) × (length s.bound ≡ 6) };
}

impl MemLink {
    /// A link that can send so many octets, where each datagram counts 16 more, none of whose
    /// channels is bound. It takes the memory for them here. `fails` has the numbers, from 0, of the
    /// calls that fail.
    pub fn new(alloc: Global, room: usize, fails: &[u64]) -> Result<MemLink, AllocError>
        ensures { IfOk result (λ s. s ≡ record {
          sent = [];
          room = room;
          waits = replicate 6 [];
          bound = replicate 6 None;
          fails = fails.now;
          calls = 0;
          faults = 0;
        }) }
    {
        Ok(MemLink {
            out: Outbox::new(alloc, room)?,
            waits: [
                VecDeque::new(alloc),
                VecDeque::new(alloc),
                VecDeque::new(alloc),
                VecDeque::new(alloc),
                VecDeque::new(alloc),
                VecDeque::new(alloc),
            ],
            bound: [None; 6],
            fails: fails.to_vec(alloc)?,
            calls: 0,
            faults: 0,
        })
    }

    /// Lets a datagram wait on a channel from 0 to 5, bound or not. Without memory all is as before.
    pub fn give(
        &mut self,
        alloc: Global,
        channel: u8,
        from: Addr,
        octets: &[u8],
    ) -> Result<(), AllocError>
        requires { channel < 6 }
        ensures ok { IfOk result (λ _. self.new ≡ record self.old {
          waits = slice_set self.old.waits channel (slice_index_or self.old.waits channel []
              ++ record { from = from; octets = octets.now } ∷ []);
        }) }
        ensures err { IsErr result → self.new ≡ self.old }
    {
        let letter = Letter::new(alloc, from, octets)?;
        self.waits[usize::from(channel)].push_back(letter)?;
        Ok(())
    }

    /// The datagram of this number, from 0, among those that were sent: its channel, where it went,
    /// and its octets. None exactly where fewer were sent.
    pub fn sent(&self, n: usize) -> Option<(u8, Addr, &[u8])>
        ensures none { (result ≡ None) ↔ (length self.now.sent ≤ n) }
        ensures some { IfSome result (λ r. (d : Outgoing) → slice_index_or self.now.sent n d
            ≡ record { channel = r.0; to = r.1; octets = r.2.now }) }
    {
        self.out.get(n)
    }

    // Counts a call, and tells whether it is one of those that fail.
    fn begin_call(&mut self) -> bool
        ensures fails { (result ≡ true) ↔ Contains self.old.fails self.old.calls }
        ensures value { self.new ≡ record self.old { calls = risen self.old.calls } }
    {
        let call = self.calls;
        self.calls = call.saturating_add(1);
        self.fails.contains(&call)
    }

    fn fault(&mut self) -> Failed
        ensures value { self.new ≡ record self.old { faults = risen self.old.faults } }
        ensures later { self.old.faults ≤ self.new.faults }
    {
        self.faults = self.faults.saturating_add(1);
        Failed
    }

    fn is_bound(&self, channel: u8) -> bool
        ensures bound { (result ≡ false) ↔ (slice_index_or self.now.bound channel None ≡ None) }
        ensures there { result ≡ true → channel < 6 }
    {
        match self.bound.get(usize::from(channel)) {
            Some(port) => port.is_some(),
            None => false,
        }
    }

    fn has_channel(&self, channel: u8) -> bool
        ensures has { result ≡ nat_lt channel (length self.now.bound) }
        ensures there { result ≡ true → channel < 6 }
    {
        match self.bound.get(usize::from(channel)) {
            Some(_) => true,
            None => false,
        }
    }

    // The first datagram that waits on a channel.
    fn take(&mut self, channel: u8) -> Option<Letter>
        requires { channel < 6 }
        ensures { (result ≡ first_waiting channel self.old.waits)
            × (self.new ≡ record self.old { waits = without_first channel self.old.waits }) }
    {
        self.waits[usize::from(channel)].pop_front()
    }
}

impl Link for MemLink {
    ghost sent = { λ s. Some s.sent };

    ghost waits = { λ s. Some s.waits };

    ghost bound = { λ s. Some s.bound };

    ghost faults = { λ s. s.faults };

    fn bind<R: Net>(&mut self, _rt: &R, channel: u8, port: u16) -> Result<(), Failed>
        ensures sent { Same (Some self.old.sent) (Some self.new.sent) }
        ensures waits { Same (Some self.old.waits) (Some self.new.waits) }
        ensures bound { Binds (Some self.old.bound) (Some self.new.bound) channel port result }
        ensures absent { NeedsChannel (Some self.old.bound) channel result }
        ensures cause { HasCause self.old.faults self.new.faults result }
        ensures fails { IsErr result ↔ (Contains self.old.fails self.old.calls
            ⊎ (length self.old.bound ≤ channel)) }
        ensures value { self.new ≡ after_bind result channel port self.old }
    {
        let fails = self.begin_call();
        if fails {
            return Err(self.fault());
        }
        if !self.has_channel(channel) {
            return Err(self.fault());
        }
        self.bound[usize::from(channel)] = Some(port);
        Ok(())
    }

    fn send<R: Net>(&mut self, _rt: &R, channel: u8, to: Addr, piece: &[u8]) -> Result<(), Failed>
        ensures sent { Sends (Some self.old.sent) (Some self.new.sent) channel to piece.now result }
        ensures waits { Same (Some self.old.waits) (Some self.new.waits) }
        ensures bound { Same (Some self.old.bound) (Some self.new.bound) }
        ensures unbound { NeedsBound (Some self.old.bound) channel result }
        ensures cause { HasCause self.old.faults self.new.faults result }
        ensures fails { IsErr result ↔ (Contains self.old.fails self.old.calls
            ⊎ (slice_index_or self.old.bound channel None ≡ None)
            ⊎ (self.old.room < 16 + length piece.now)) }
        ensures value { self.new ≡ after_send result channel to piece.now self.old }
    {
        let fails = self.begin_call();
        if fails {
            return Err(self.fault());
        }
        if !self.is_bound(channel) {
            return Err(self.fault());
        }
        if !self.out.has_room(piece.len()) {
            return Err(self.fault());
        }
        self.out.put(channel, to, piece);
        Ok(())
    }

    fn recv<R: Net>(
        &mut self,
        _rt: &R,
        channel: u8,
        buf: &mut [u8],
    ) -> Result<Option<(Addr, usize)>, Failed>
        ensures most { ReceivesAtMost result buf.new }
        ensures sent { Same (Some self.old.sent) (Some self.new.sent) }
        ensures waits { Receives (Some self.old.waits) (Some self.new.waits) channel result buf.new }
        ensures bound { Same (Some self.old.bound) (Some self.new.bound) }
        ensures unbound { NeedsBound (Some self.old.bound) channel result }
        ensures cause { HasCause self.old.faults self.new.faults result }
        ensures fails { IsErr result ↔ (Contains self.old.fails self.old.calls
            ⊎ (slice_index_or self.old.bound channel None ≡ None)) }
        ensures value { self.new ≡ after_recv result channel self.old }
    {
        let fails = self.begin_call();
        if fails {
            return Err(self.fault());
        }
        if !self.is_bound(channel) {
            return Err(self.fault());
        }
        match self.take(channel) {
            None => Ok(None),
            Some(letter) => {
                let count = letter.octets.len().min(buf.len());
                buf[..count].copy_from_slice(&letter.octets[..count]);
                Ok(Some((letter.from, count)))
            }
        }
    }
}
