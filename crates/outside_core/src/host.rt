// A source and a sink over the streams of the host.
ghost use Rattle.std.specs.Prelude.{◌≡◌, [], length, IfOk, IsErr, OnOk};
ghost use Rattle.std.specs.Io.{ReadsAtMost, WritesAtMost};
ghost use Rattle.std.specs.Io.KnownBytes.{Keeps, IsAtEnd, ReadConsumes, WriteAppends, prepend_known};
ghost use Rattle.wire_defs.specs.Outside.{HasCause, TakesSome};
ghost use Rattle.outside_core.specs.Counts.{count_after};
ghost use Rattle.outside_core.specs.Lines.{StopsAtFeed};

use crate::ahead::Ahead;
use crate::{Failed, Sink, Source};
use std::io::{ErrorKind, Read, Write};

/// A source over a reader, as standard input. It reads up to 4,096 octets ahead. What it has left
/// is what was read ahead and what the reader has remaining, where the reader tells that. A read
/// that was interrupted is made again; any other error of the reader is a fault, after which the
/// source goes on where it stood.
#[derive(Drop)]
pub struct StdSource<R> {
    reader: R,
    ahead: Ahead,
    faults: u64,
}

impl<R: Read> StdSource<R> {
    /// A source that has read nothing yet.
    pub fn new(reader: R) -> Self
        ensures reader { result.reader ≡ reader }
        ensures ahead { result.ahead ≡ [] }
        ensures faults { result.faults ≡ 0 }
    {
        StdSource {
            reader,
            ahead: Ahead::new(),
            faults: 0,
        }
    }

    // Reads ahead where nothing that was read is left. Then none is left only at the end of input.
    fn look_ahead(&mut self) -> Result<(), Failed>
        ensures octets { Keeps (prepend_known self.old.ahead (R.remaining self.old.reader))
            (prepend_known self.new.ahead (R.remaining self.new.reader)) }
        ensures end { OnOk result (self.new.ahead ≡ [] → IsAtEnd (R.remaining self.new.reader)) }
        ensures sure { IsErr result → self.old.ahead ≡ [] }
        ensures count { self.new.faults ≡ count_after result self.old.faults }
        ensures cause { HasCause self.old.faults self.new.faults result }
    {
        if self.ahead.is_empty() {
            if let Err(Failed) = self.ahead.fill(&mut self.reader) {
                self.faults = self.faults.saturating_add(1);
                return Err(Failed);
            }
        }
        Ok(())
    }
}

impl<R: Read> Source for StdSource<R> {
    ghost left = { λ s. prepend_known s.ahead (R.remaining s.reader) };

    ghost faults = { λ s. s.faults };

    fn read(&mut self, buf: &mut [u8]) -> Result<usize, Failed>
        ensures bound { ReadsAtMost result buf.new }
        ensures octets { ReadConsumes (prepend_known self.old.ahead (R.remaining self.old.reader))
            (prepend_known self.new.ahead (R.remaining self.new.reader)) result buf.new }
        ensures sure { IsErr result → self.old.ahead ≡ [] }
        ensures count { self.new.faults ≡ count_after result self.old.faults }
        ensures cause { HasCause self.old.faults self.new.faults result }
    {
        self.look_ahead()?;
        Ok(self.ahead.give(buf))
    }

    fn read_line(&mut self, buf: &mut [u8]) -> Result<usize, Failed>
        ensures bound { ReadsAtMost result buf.new }
        ensures octets { ReadConsumes (prepend_known self.old.ahead (R.remaining self.old.reader))
            (prepend_known self.new.ahead (R.remaining self.new.reader)) result buf.new }
        ensures sure { IsErr result → self.old.ahead ≡ [] }
        ensures count { self.new.faults ≡ count_after result self.old.faults }
        ensures cause { HasCause self.old.faults self.new.faults result }
        ensures line { IfOk result (λ n. StopsAtFeed n buf.new) }
    {
        self.look_ahead()?;
        Ok(self.ahead.give_line(buf))
    }
}

/// A sink over a writer, as standard output. What it has taken is what the writer contains, where
/// the writer tells that. A write that was interrupted is made again; any other error is a fault,
/// and so is a write that takes nothing of a piece that is not empty.
#[derive(Drop)]
pub struct StdSink<W> {
    writer: W,
    faults: u64,
}

impl<W: Write> StdSink<W> {
    /// A sink over a writer as it stands.
    pub fn new(writer: W) -> Self
        ensures writer { result.writer ≡ writer }
        ensures faults { result.faults ≡ 0 }
    {
        StdSink { writer, faults: 0 }
    }
}

impl<W: Write> Sink for StdSink<W> {
    ghost taken = { λ s. W.contents s.writer };

    ghost faults = { λ s. s.faults };

    fn write(&mut self, piece: &[u8]) -> Result<usize, Failed>
        ensures bound { WritesAtMost result piece.now }
        ensures octets { WriteAppends (W.contents self.old.writer) (W.contents self.new.writer)
            result piece.now }
        ensures takes { IfOk result (λ n. n ≡ 0 → length piece.now ≡ 0) }
        ensures some { TakesSome self.old.faults self.new.faults result piece.now }
        ensures count { self.new.faults ≡ count_after result self.old.faults }
        ensures cause { HasCause self.old.faults self.new.faults result }
    {
        match write_again(&mut self.writer, piece) {
            Ok(count) => Ok(count),
            Err(Failed) => {
                self.faults = self.faults.saturating_add(1);
                Err(Failed)
            }
        }
    }
}

// One write, made again where it was interrupted. It fails where it takes nothing of a piece that
// is not empty.
fn write_again<W: Write>(writer: &mut W, piece: &[u8]) -> Result<usize, Failed>
    ensures bound { WritesAtMost result piece.now }
    ensures octets { WriteAppends (W.contents writer.old) (W.contents writer.new) result piece.now }
    ensures some { IfOk result (λ n. n ≡ 0 → length piece.now ≡ 0) }
{
    for _ in 0..u64::MAX {
        match writer.write(piece) {
            Ok(count) => {
                return if count == 0 && !piece.is_empty() {
                    Err(Failed)
                } else {
                    Ok(count)
                };
            }
            Err(e) => {
                if e.kind() != ErrorKind::Interrupted {
                    return Err(Failed);
                }
            }
        }
    }
    Err(Failed)
}
