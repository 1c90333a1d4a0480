// The lines of a trace that comes in pieces.
ghost use Rattle.std.specs.Prelude.{◌≡◌, ℕ, List, ◌<◌, ◌≤◌, ◌∷◌, ◌++◌, [], false, Bool, IfOk, OnOk, IfSome, is_some, length, position};
ghost use Rattle.std.specs.List.{before_first, flat_map};
ghost use Rattle.switch_event.specs.Config.{Config};
ghost use Rattle.trace_defs.specs.Alike.{ReadAlike, AreReadAlike, IsFed, all_lines, is_line_feed, len_to_feed, stand_in_with};
ghost use Rattle.trace_defs.specs.Line.{line_of};

use std::alloc::{AllocError, Global};
use std::marker::Model;
use trace_defs::Octets;

// A line that may be read has at most 10,240 octets and a carriage return. One octet more stands
// for the rest of a longer one.
const MOST_KEPT: usize = 10_242;

/// The beginning of one line of a trace, and whether a line feed has ended it. However long the
/// line is, what is kept of it has at most 10,242 octets and is read as the line. Contracts see the
/// octets that are kept and whether the line has ended.
#[derive(Drop)]
pub struct Lines {
    text: Vec<u8>,
    ended: bool,
}

impl Model for Lines {
    ghost use Rattle.std.specs.Prelude.{◌≤◌, length, vec_capacity};
    ghost use Rattle.trace_defs.specs.Alike.{Held};

    ghost Value = { Held };

    ghost view = { λ l. record { text = l.text.items; ended = l.ended } };

    ghost invariant = { λ l. (length l.text.items ≤ 10242) × (10242 ≤ vec_capacity l.text) };
}

impl Lines {
    /// Begins the first line. Only this call takes memory: 10,242 octets. `AllocError`: there
    /// is none.
    pub fn open(alloc: Global) -> Result<Lines, AllocError>
        ensures { IfOk result (λ lines. lines ≡ record { text = []; ended = false }) }
    {
        Ok(Lines {
            text: Vec::with_capacity(alloc, MOST_KEPT)?,
            ended: false,
        })
    }

    /// Takes the octets of a piece of text up to its first line feed, which ends the line, and
    /// answers how many they are with it. None exactly where the piece has no line feed, and then
    /// all of it was taken. The line must not have ended.
    #[inline]
    pub fn feed(&mut self, piece: &[u8]) -> Option<usize>
        requires { self.old.ended ≡ false }
        ensures text { (line : List ℕ) → ReadAlike self.old.text line
            → ReadAlike self.new.text (line ++ before_first is_line_feed piece.now) }
        ensures ended { self.new.ended ≡ is_some result }
        ensures count { result ≡ len_to_feed piece.now }
        ensures within { IfSome result (λ n. (0 < n) × (n ≤ length piece.now)) }
    {
        match feed_at(piece) {
            Some(at) => {
                self.append(&piece[..at]);
                self.ended = true;
                Some(at + 1)
            }
            None => {
                self.append(piece);
                None
            }
        }
    }

    /// What is kept of the line, without its line feed. It is read as the whole line.
    pub fn line(&self) -> &[u8]
        ensures value { result.now ≡ self.now.text }
        ensures reads { (config : Config) (given : ℕ) (begun : Bool) (line : List ℕ)
            → ReadAlike self.now.text line
            → line_of config given begun result.now ≡ line_of config given begun line }
    {
        &self.text
    }

    /// Begins the next line.
    pub fn next(&mut self)
        ensures { self.new ≡ record { text = []; ended = false } }
    {
        self.text.clear();
        self.ended = false;
    }

    // Takes a whole piece of text, and appends what is kept of each line that the piece ends. The
    // last line must not have ended.
    fn feed_all(
        &mut self,
        alloc: Global,
        piece: &[u8],
        seen: &mut Vec<Octets>,
    ) -> Result<(), AllocError>
        requires { self.old.ended ≡ false }
        ensures begun { OnOk result (self.new.ended ≡ false) }
        ensures lines { (fed : List ℕ) → IsFed fed seen.old.items self.old.text
            → OnOk result (IsFed (fed ++ piece.now) seen.new.items self.new.text) }
    {
        let mut rest = piece;
        while let Some(taken) = self.feed(rest) {
            seen.push(Octets::of(alloc, self.line())?)?;
            self.next();
            rest = &rest[taken..];
        }
        Ok(())
    }

    // All octets at once where there is room for them.
    fn append(&mut self, octets: &[u8])
        ensures text { (line : List ℕ) → ReadAlike self.old.text line
            → ReadAlike self.new.text (line ++ octets.now) }
        ensures ended { self.new.ended ≡ self.old.ended }
    {
        let fit = octets.len() <= MOST_KEPT - self.text.len();
        if fit && self.text.extend_from_slice(octets).is_ok() {
            return;
        }
        for octet in octets {
            self.push(*octet);
        }
    }

    // Where there is no room, the last octet comes to stand for one more.
    fn push(&mut self, octet: u8)
        ensures text { (line : List ℕ) → ReadAlike self.old.text line
            → ReadAlike self.new.text (line ++ octet ∷ []) }
        ensures ended { self.new.ended ≡ self.old.ended }
    {
        if self.text.len() < MOST_KEPT {
            self.text.push_reserved(octet);
        } else {
            self.text[MOST_KEPT - 1] = standing_for(self.text[MOST_KEPT - 1], octet);
        }
    }
}

/// What is kept of each line of a text that comes in pieces, however it is cut: `read_line` answers
/// for each what it answers for the line. What follows the last line feed is a line where it holds
/// an octet. `AllocError`: there is no memory.
pub fn lines_of(alloc: Global, pieces: &[&[u8]]) -> Result<Vec<Octets>, AllocError>
    ensures { IfOk result (λ lines.
        AreReadAlike lines.items (all_lines (flat_map (λ piece. piece.now) pieces.now))) }
{
    let mut lines = Lines::open(alloc)?;
    let mut seen = Vec::new(alloc);
    for piece in pieces {
        lines.feed_all(alloc, piece, &mut seen)?;
    }
    if lines.line().is_empty() {
        return Ok(seen);
    }
    seen.push(Octets::of(alloc, lines.line())?)?;
    Ok(seen)
}

fn feed_at(piece: &[u8]) -> Option<usize>
    ensures { result ≡ position is_line_feed piece.now }
{
    piece.iter().position(|octet| *octet == b'\n')
}

// The octet that stands for the rest of a line, with one more. Only spaces and then a carriage
// return at the very end leave a rest blank.
fn standing_for(last: u8, octet: u8) -> u8
    ensures { result ≡ stand_in_with last octet }
{
    match last {
        b' ' => octet,
        b'\r' => b'x',
        _ => last,
    }
}
