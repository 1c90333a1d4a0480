ghost use Rattle.std.specs.Prelude.{◌≡◌, ◌+◌, ◌-◌, ◌<◌, ◌≤◌, ◌^◌, ◌⊎◌, ◌↔◌, [], List, ℕ, Some, length, take, drop, min, Contains, IfOk, IsErr, MatchResult};
ghost use Rattle.std.specs.Io.{ReadsAtMost, WritesAtMost};
ghost use Rattle.std.specs.Io.KnownBytes.{ReadConsumes, WriteAppends};
ghost use Rattle.wire_defs.specs.Outside.{HasCause, TakesSome, Feed, Drain, after_read, after_write};
ghost use Rattle.outside_core.specs.Lines.{StopsAtFeed, line_length};

use crate::ahead::line_len;
use crate::{Failed, Sink, Source};
use std::alloc::{AllocError, Global};
use std::marker::Model;

/// A source in memory.
#[derive(Drop)]
pub struct MemSource {
    octets: Vec<u8>,
    at: usize,
    step: usize,
    fails: Vec<u64>,
    calls: u64,
    faults: u64,
}

impl Model for MemSource {
    ghost Value = { Feed };

    ghost view = { λ s. record {
      left = drop s.at s.octets.items;
      step = s.step;
      fails = s.fails.items;
      calls = s.calls;
      faults = s.faults;
    } };

    ghost invariant = { λ s. (s.at ≤ length s.octets.items) × (1 ≤ s.step) };
}

impl MemSource {
    /// A source of these octets. One read gives at most `step` of them; `fails` has the numbers,
    /// from 0, of the calls that fail.
    pub fn new(
        alloc: Global,
        octets: &[u8],
        step: usize,
        fails: &[u64],
    ) -> Result<MemSource, AllocError>
        requires { 1 ≤ step }
        ensures { IfOk result (λ s. s ≡ record {
          left = octets.now;
          step = step;
          fails = fails.now;
          calls = 0;
          faults = 0;
        }) }
    {
        Ok(MemSource {
            octets: octets.to_vec(alloc)?,
            at: 0,
            step,
            fails: fails.to_vec(alloc)?,
            calls: 0,
            faults: 0,
        })
    }
}

impl Source for MemSource {
    ghost left = { λ s. Some s.left };

    ghost faults = { λ s. s.faults };

    fn read(&mut self, buf: &mut [u8]) -> Result<usize, Failed>
        ensures bound { ReadsAtMost result buf.new }
        ensures octets { ReadConsumes (Some self.old.left) (Some self.new.left) result buf.new }
        ensures cause { HasCause self.old.faults self.new.faults result }
        ensures listed { IsErr result ↔ Contains self.old.fails self.old.calls }
        ensures most { IfOk result (λ n.
            n ≡ min (min (length self.old.left) (length buf.old)) self.old.step) }
        ensures value { self.new ≡ after_read result self.old }
    {
        let call = self.calls;
        self.calls = call.saturating_add(1);
        if self.fails.contains(&call) {
            self.faults = self.faults.saturating_add(1);
            return Err(Failed);
        }
        let rest = &self.octets[self.at..];
        let count = rest.len().min(buf.len()).min(self.step);
        buf[..count].copy_from_slice(&rest[..count]);
        self.at += count;
        Ok(count)
    }

    fn read_line(&mut self, buf: &mut [u8]) -> Result<usize, Failed>
        ensures bound { ReadsAtMost result buf.new }
        ensures octets { ReadConsumes (Some self.old.left) (Some self.new.left) result buf.new }
        ensures cause { HasCause self.old.faults self.new.faults result }
        ensures line { IfOk result (λ n. StopsAtFeed n buf.new) }
        ensures listed { IsErr result ↔ Contains self.old.fails self.old.calls }
        ensures most { IfOk result (λ n.
            n ≡ min (min (line_length self.old.left) (length buf.old)) self.old.step) }
        ensures value { self.new ≡ after_read result self.old }
    {
        let rest = &self.octets[self.at..];
        let most = rest.len().min(buf.len());
        let count = line_len(&rest[..most]);
        self.read(&mut buf[..count])
    }
}

/// A sink in memory.
#[derive(Drop)]
pub struct MemSink {
    octets: Vec<u8>,
    len: usize,
    fails: Vec<u64>,
    calls: u64,
    faults: u64,
}

impl Model for MemSink {
    ghost Value = { Drain };

    ghost view = { λ s. record {
      taken = take s.len s.octets.items;
      room = length s.octets.items;
      fails = s.fails.items;
      calls = s.calls;
      faults = s.faults;
    } };

    ghost invariant = { λ s. s.len ≤ length s.octets.items };
}

impl MemSink {
    /// A sink with room for so many octets, whose memory it takes here; `fails` has the numbers,
    /// from 0, of the calls that fail.
    pub fn new(alloc: Global, room: usize, fails: &[u64]) -> Result<MemSink, AllocError>
        ensures { IfOk result (λ s. s ≡ record {
          taken = [];
          room = room;
          fails = fails.now;
          calls = 0;
          faults = 0;
        }) }
    {
        Ok(MemSink {
            octets: vec![in alloc; 0; room]?,
            len: 0,
            fails: fails.to_vec(alloc)?,
            calls: 0,
            faults: 0,
        })
    }

    /// The octets that it has taken.
    pub fn taken(&self) -> &[u8]
        ensures { result.now ≡ self.now.taken }
    {
        &self.octets[..self.len]
    }
}

impl Sink for MemSink {
    ghost taken = { λ s. Some s.taken };

    ghost faults = { λ s. s.faults };

    fn write(&mut self, piece: &[u8]) -> Result<usize, Failed>
        ensures bound { WritesAtMost result piece.now }
        ensures octets { WriteAppends (Some self.old.taken) (Some self.new.taken) result piece.now }
        ensures some { TakesSome self.old.faults self.new.faults result piece.now }
        ensures cause { HasCause self.old.faults self.new.faults result }
        ensures fails { IsErr result ↔ (Contains self.old.fails self.old.calls
            ⊎ (self.old.room < length self.old.taken + length piece.now)) }
        ensures whole { IfOk result (λ n. n ≡ length piece.now) }
        ensures value { self.new ≡ after_write result piece.now self.old }
    {
        let call = self.calls;
        self.calls = call.saturating_add(1);
        if self.fails.contains(&call) || piece.len() > self.octets.len() - self.len {
            self.faults = self.faults.saturating_add(1);
            return Err(Failed);
        }
        let end = self.len + piece.len();
        self.octets[self.len..end].copy_from_slice(piece);
        self.len = end;
        Ok(piece.len())
    }
}
