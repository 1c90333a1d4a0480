// Octets that were read ahead of their use.
ghost use Rattle.std.specs.Prelude.{◌≡◌, ◌≤◌, ◌<◌, ◌==◌, ◌↔◌, position, [], ◌∷◌, List, ℕ, ◌++◌, length, take, drop, min, slice_range, IsTrue, OnErr, OnOk, MatchResult};
ghost use Rattle.std.specs.Io.{ReadsAtMost};
ghost use Rattle.std.specs.Io.KnownBytes.{Keeps, Consumes, IsAtEnd, ReadConsumes};
ghost use Rattle.outside_core.specs.Lines.{StopsAtFeed, line_length};

use crate::Failed;
use std::io::{ErrorKind, Read};
use std::marker::Model;

const ROOM: usize = 4096;

/// The octets that were read ahead, at most 4,096.
#[derive(Drop)]
pub struct Ahead {
    octets: [u8; 4096],
    at: usize,
    end: usize,
}

impl Model for Ahead {
    ghost Value = { List ℕ };

    ghost view = { λ a. slice_range a.octets a.at a.end };

    ghost invariant = { λ a. (a.at ≤ a.end) × (a.end ≤ 4096) };
}

impl Ahead {
    /// None yet.
    pub fn new() -> Ahead
        ensures { result ≡ [] }
    {
        Ahead {
            octets: [0; ROOM],
            at: 0,
            end: 0,
        }
    }

    /// Whether none is left.
    pub fn is_empty(&self) -> bool
        ensures { IsTrue result ↔ (self.now ≡ []) }
    {
        self.at == self.end
    }

    /// Reads more, where none is left. None comes only at the end of what the reader has remaining,
    /// and after [`Failed`] as much remains as before.
    pub fn fill<R: Read>(&mut self, reader: &mut R) -> Result<(), Failed>
        requires { self.old ≡ [] }
        ensures octets { OnOk result
            (Consumes (R.remaining reader.old) (R.remaining reader.new) self.new) }
        ensures end { OnOk result (self.new ≡ [] → IsAtEnd (R.remaining reader.new)) }
        ensures failed { OnErr result
            ((self.new ≡ []) × Keeps (R.remaining reader.old) (R.remaining reader.new)) }
    {
        let count = read_again(reader, &mut self.octets)?;
        self.at = 0;
        self.end = count;
        Ok(())
    }

    /// Moves the first octets into `buf`, as many as it has room for, and answers how many.
    pub fn give(&mut self, buf: &mut [u8]) -> usize
        ensures octets { self.old ≡ take result buf.new ++ self.new }
        ensures most { result ≡ min (length self.old) (length buf.old) }
    {
        match buf {
            [octet] => self.give_one(octet),
            _ => self.give_many(buf),
        }
    }

    // A run asks for one octet at a time: it is moved without a call.
    fn give_one(&mut self, octet: &mut u8) -> usize
        ensures octets { self.old ≡ take result (octet.new ∷ []) ++ self.new }
        ensures most { result ≡ min (length self.old) 1 }
    {
        if self.at == self.end {
            return 0;
        }
        *octet = self.octets[self.at];
        self.at += 1;
        1
    }

    /// Moves the first octets into `buf`, as many as it has room for and none beyond the first line
    /// feed, and answers how many.
    pub fn give_line(&mut self, buf: &mut [u8]) -> usize
        ensures octets { self.old ≡ take result buf.new ++ self.new }
        ensures most { result ≡ min (line_length self.old) (length buf.old) }
        ensures some { result ≡ 0 → 0 < length buf.old → self.old ≡ [] }
        ensures line { StopsAtFeed result buf.new }
    {
        let rest = &self.octets[self.at..self.end];
        let count = line_len(&rest[..rest.len().min(buf.len())]);
        self.give_many(&mut buf[..count])
    }

    fn give_many(&mut self, buf: &mut [u8]) -> usize
        ensures octets { self.old ≡ take result buf.new ++ self.new }
        ensures most { result ≡ min (length self.old) (length buf.old) }
    {
        let rest = &self.octets[self.at..self.end];
        let count = rest.len().min(buf.len());
        buf[..count].copy_from_slice(&rest[..count]);
        self.at += count;
        count
    }
}

// One read, made again where it was interrupted.
fn read_again<R: Read>(reader: &mut R, buf: &mut [u8]) -> Result<usize, Failed>
    ensures bound { ReadsAtMost result buf.new }
    ensures octets { ReadConsumes (R.remaining reader.old) (R.remaining reader.new) result buf.new }
{
    for _ in 0..u64::MAX {
        match reader.read(buf) {
            Ok(count) => return Ok(count),
            Err(e) => {
                if e.kind() != ErrorKind::Interrupted {
                    return Err(Failed);
                }
            }
        }
    }
    Err(Failed)
}

/// How many octets stand up to the first line feed, with it; all where there is none.
pub fn line_len(octets: &[u8]) -> usize
    ensures value { result ≡ line_length octets.now }
    ensures most { result ≤ length octets.now }
    ensures some { result ≡ 0 → octets.now ≡ [] }
    ensures line { StopsAtFeed result octets.now }
{
    match feed_at(octets) {
        Some(at) => at + 1,
        None => octets.len(),
    }
}

fn feed_at(octets: &[u8]) -> Option<usize>
    ensures { result ≡ position (λ octet. octet == 10) octets.now }
{
    octets.iter().position(|octet| *octet == b'\n')
}
