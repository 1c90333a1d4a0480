// A source and a sink in memory that do not fail.
ghost use Rattle.std.specs.Prelude.{◌≡◌, ◌+◌, ◌<◌, ◌≤◌, ◌↔◌, [], Some, length, min, IfOk, IsErr, IsOk};
ghost use Rattle.std.specs.Io.{ReadsAtMost, WritesAtMost};
ghost use Rattle.std.specs.Io.KnownBytes.{ReadConsumes, WriteAppends};
ghost use Rattle.wire_defs.specs.Outside.{HasCause, TakesSome, Drain, Feed, after_read, after_write};
ghost use Rattle.outside_core.specs.Lines.{StopsAtFeed, line_length};

use crate::{Failed, MemSink, MemSource, Sink, Source};
use std::alloc::{AllocError, Global};
use std::marker::Model;

/// A source in memory that never fails.
#[derive(Drop)]
pub struct SureSource {
    source: MemSource,
}

impl Model for SureSource {
    ghost Value = { Feed };

    ghost view = { λ s. s.source };

    ghost invariant = { λ s. s.source.fails ≡ [] };
}

impl SureSource {
    /// A source of these octets, of which one read gives at most `step`.
    pub fn new(alloc: Global, octets: &[u8], step: usize) -> Result<SureSource, AllocError>
        requires { 1 ≤ step }
        ensures { IfOk result (λ s. s ≡ record {
          left = octets.now;
          step = step;
          fails = [];
          calls = 0;
          faults = 0;
        }) }
    {
        let source = MemSource::new(alloc, octets, step, &[])?;
        Ok(SureSource { source })
    }
}

impl Source for SureSource {
    ghost left = { λ s. Some s.left };

    ghost faults = { λ s. s.faults };

    fn read(&mut self, buf: &mut [u8]) -> Result<usize, Failed>
        ensures sure { IsOk result }
        ensures bound { ReadsAtMost result buf.new }
        ensures octets { ReadConsumes (Some self.old.left) (Some self.new.left) result buf.new }
        ensures cause { HasCause self.old.faults self.new.faults result }
        ensures most { IfOk result (λ n.
            n ≡ min (min (length self.old.left) (length buf.old)) self.old.step) }
        ensures value { self.new ≡ after_read result self.old }
    {
        self.source.read(buf)
    }

    fn read_line(&mut self, buf: &mut [u8]) -> Result<usize, Failed>
        ensures sure { IsOk result }
        ensures bound { ReadsAtMost result buf.new }
        ensures octets { ReadConsumes (Some self.old.left) (Some self.new.left) result buf.new }
        ensures cause { HasCause self.old.faults self.new.faults result }
        ensures line { IfOk result (λ n. StopsAtFeed n buf.new) }
        ensures most { IfOk result (λ n.
            n ≡ min (min (line_length self.old.left) (length buf.old)) self.old.step) }
        ensures value { self.new ≡ after_read result self.old }
    {
        self.source.read_line(buf)
    }
}

/// A sink in memory that fails only where its room ends.
#[derive(Drop)]
pub struct SureSink {
    sink: MemSink,
}

impl Model for SureSink {
    ghost Value = { Drain };

    ghost view = { λ s. s.sink };

    ghost invariant = { λ s. s.sink.fails ≡ [] };
}

impl SureSink {
    /// A sink with room for so many octets, whose memory it takes here.
    pub fn new(alloc: Global, room: usize) -> Result<SureSink, AllocError>
        ensures { IfOk result (λ s. s ≡ record {
          taken = [];
          room = room;
          fails = [];
          calls = 0;
          faults = 0;
        }) }
    {
        let sink = MemSink::new(alloc, room, &[])?;
        Ok(SureSink { sink })
    }

    /// The octets that it has taken.
    pub fn taken(&self) -> &[u8]
        ensures { result.now ≡ self.now.taken }
    {
        self.sink.taken()
    }
}

impl Sink for SureSink {
    ghost taken = { λ s. Some s.taken };

    ghost faults = { λ s. s.faults };

    fn write(&mut self, piece: &[u8]) -> Result<usize, Failed>
        ensures bound { WritesAtMost result piece.now }
        ensures octets { WriteAppends (Some self.old.taken) (Some self.new.taken) result piece.now }
        ensures some { TakesSome self.old.faults self.new.faults result piece.now }
        ensures cause { HasCause self.old.faults self.new.faults result }
        ensures fails { IsErr result ↔ (self.old.room < length self.old.taken + length piece.now) }
        ensures whole { IfOk result (λ n. n ≡ length piece.now) }
        ensures value { self.new ≡ after_write result piece.now self.old }
    {
        self.sink.write(piece)
    }
}
