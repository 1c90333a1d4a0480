// A run over a source, piece by piece and line by line.
ghost use Rattle.std.specs.Prelude.{◌≡◌, ◌≤◌, ◌<◌, ◌+◌, ◌^◌, ℕ, [], length, OnOk, IfErr, IfOk, false};
ghost use Rattle.wire_defs.specs.Outside.{Rose};
ghost use Rattle.outside_core.specs.Lines.{StopsAtFeed};
ghost use Rattle.trace_defs.specs.Trace.{after_line};
ghost use Rattle.switch_event.specs.Config.{empty};
ghost use Rattle.event_record.specs.declared.TheConstants.{MOST_EVENTS};
ghost use Rattle.race_run.specs.declared.ending.Ending.TheVariants.{ReadFault, WriteFault};
ghost use Rattle.race_run.specs.Ending.{HasEndingCause, EndingCause, RunEnds};
ghost use Rattle.race_run.specs.Run.{IsStart, IsSound, OfLine, Steps, Halts, TakesPiece, StopsAtPiece, EndsAtEnd, EndsTrace, given_by};

use crate::ending::Ending;
use crate::runs::RunsPhases;
use event_record::TraceRecord;
use outside_core::{Failed, Sink, Source};
use outside_text::read_piece;
use std::alloc::{AllocError, Global};
use std::sync::Wait;
use std::thread::Threads;
use trace_defs::MISSING;
use trace_lang::{Config, Line, LineErr, Lines, read_line};

// A line is asked for in pieces of at most so many octets.
const PIECE: usize = 256;

/// How far a run is.
#[derive(Drop)]
pub struct Run {
    /// The settings so far.
    pub config: Config,
    /// Which of them were given.
    pub given: u32,
    /// Whether the settings were ended.
    pub begun: bool,
    /// The lines that were taken.
    pub lines: u64,
    /// The control records that were taken.
    pub controls: u64,
    /// The octets of the open line.
    pub line: Lines,
    /// The records of the open phase.
    pub records: Vec<TraceRecord>,
}

impl Run {
    fn start(alloc: Global) -> Result<Run, AllocError>
        ensures start { IfOk result IsStart }
    {
        Ok(Run {
            config: Config::empty(),
            given: 0,
            begun: false,
            lines: 0,
            controls: 0,
            line: Lines::open(alloc)?,
            records: Vec::new(alloc),
        })
    }

    /// Takes the open line: a record joins the open phase, and the line that ends a phase has its
    /// blocks written.
    fn take_line<T: Threads + Wait + Sync, R: RunsPhases, K: Sink>(
        &mut self,
        rt: &T,
        alloc: Global,
        room: u64,
        runner: &mut R,
        out: &mut K,
    ) -> Result<(), Ending>
        requires sound { IsSound R.fresh R.stands self.old runner.old }
        requires short { self.old.lines + 1 < 2 ^ 63 }
        requires room { room ≤ MOST_EVENTS }
        ensures ok { OfLine self.old (λ line. OnOk result (Steps R.stands
            (given_by R.numbers R.gave) (λ p. after_line room p line) (K.taken out.old)
            (K.taken out.new) self.old self.new runner.old runner.new)) }
        ensures err { OfLine self.old (λ line. IfErr result (λ e. Halts R.stands
            (given_by R.numbers R.gave) (λ p. after_line room p line) (K.taken out.old)
            (K.taken out.new) self.old runner.old runner.new e)) }
        ensures cause { HasEndingCause (K.faults out.old) (K.faults out.new) result }
        ensures sound { OnOk result (IsSound R.fresh R.stands self.new runner.new ×
            (self.new.lines ≡ self.old.lines + 1)) }
        ensures same { R.numbers runner.new ≡ R.numbers runner.old }
    {
        match read_line(
            alloc,
            &mut self.config,
            &mut self.given,
            self.begun,
            self.line.line(),
        ) {
            Ok(Line::Blank) => {
                self.lines += 1;
                Ok(())
            }
            Ok(Line::Setting) => {
                self.lines += 1;
                Ok(())
            }
            Ok(Line::Begin) => self.begin(rt, alloc, runner),
            Ok(Line::Sync) => self.sync(rt, alloc, runner, out),
            Ok(Line::Control { lane, what }) => self.enter_control(room, lane, what),
            Ok(Line::Data { port, octets }) => self.enter_data(port, octets),
            Err(LineErr::NoMemory) => Err(Ending::NoMemory),
            Err(LineErr::Bad { why }) => Err(Ending::Refused {
                line: self.lines + 1,
                why,
            }),
        }
    }

    /// Takes a piece of a line, behind which the line feed that ends the line may stand.
    fn take_piece<T: Threads + Wait + Sync, R: RunsPhases, K: Sink>(
        &mut self,
        rt: &T,
        alloc: Global,
        room: u64,
        piece: &[u8],
        runner: &mut R,
        out: &mut K,
    ) -> Result<(), Ending>
        requires sound { IsSound R.fresh R.stands self.old runner.old }
        requires short { self.old.lines + 1 < 2 ^ 63 }
        requires room { room ≤ MOST_EVENTS }
        requires begun_line { self.old.line.ended ≡ false }
        requires piece { StopsAtFeed (length piece.now) piece.now }
        ensures line { OnOk result (self.new.line.ended ≡ false) }
        ensures ok { OnOk result (TakesPiece R.stands (given_by R.numbers R.gave) room piece.now
            (K.taken out.old) (K.taken out.new) self.old self.new runner.old runner.new) }
        ensures err { IfErr result (λ e. StopsAtPiece R.stands (given_by R.numbers R.gave) room
            piece.now (K.taken out.old) (K.taken out.new) self.old runner.old runner.new e) }
        ensures cause { HasEndingCause (K.faults out.old) (K.faults out.new) result }
        ensures sound { OnOk result (IsSound R.fresh R.stands self.new runner.new ×
            (self.new.lines ≤ self.old.lines + 1)) }
        ensures same { R.numbers runner.new ≡ R.numbers runner.old }
    {
        match self.line.feed(piece) {
            None => Ok(()),
            Some(_) => self.end_line(rt, alloc, room, runner, out),
        }
    }

    /// Takes the open line, and begins the next.
    fn end_line<T: Threads + Wait + Sync, R: RunsPhases, K: Sink>(
        &mut self,
        rt: &T,
        alloc: Global,
        room: u64,
        runner: &mut R,
        out: &mut K,
    ) -> Result<(), Ending>
        requires sound { IsSound R.fresh R.stands self.old runner.old }
        requires short { self.old.lines + 1 < 2 ^ 63 }
        requires room { room ≤ MOST_EVENTS }
        ensures ok { OfLine self.old (λ line. OnOk result (Steps R.stands
            (given_by R.numbers R.gave) (λ p. after_line room p line) (K.taken out.old)
            (K.taken out.new) self.old self.new runner.old runner.new)) }
        ensures err { OfLine self.old (λ line. IfErr result (λ e. Halts R.stands
            (given_by R.numbers R.gave) (λ p. after_line room p line) (K.taken out.old)
            (K.taken out.new) self.old runner.old runner.new e)) }
        ensures next { OnOk result (self.new.line ≡ record { text = []; ended = false }) }
        ensures cause { HasEndingCause (K.faults out.old) (K.faults out.new) result }
        ensures sound { OnOk result (IsSound R.fresh R.stands self.new runner.new ×
            (self.new.lines ≡ self.old.lines + 1)) }
        ensures same { R.numbers runner.new ≡ R.numbers runner.old }
    {
        match self.take_line(rt, alloc, room, runner, out) {
            Ok(()) => {
                self.line.next();
                Ok(())
            }
            Err(ending) => Err(ending),
        }
    }

    /// Takes the last line, and ends the last phase.
    fn finish<T: Threads + Wait + Sync, R: RunsPhases, K: Sink>(
        &mut self,
        rt: &T,
        alloc: Global,
        room: u64,
        runner: &mut R,
        out: &mut K,
    ) -> Ending
        requires sound { IsSound R.fresh R.stands self.old runner.old }
        requires short { self.old.lines + 2 < 2 ^ 63 }
        requires room { room ≤ MOST_EVENTS }
        ensures ends { EndsAtEnd R.stands (given_by R.numbers R.gave) room
            (K.taken out.old) (K.taken out.new) self.old runner.old runner.new result }
        ensures cause { EndingCause (K.faults out.old) (K.faults out.new) result }
        ensures same { R.numbers runner.new ≡ R.numbers runner.old }
    {
        if self.line.line().is_empty() {
            return self.end_trace(rt, alloc, runner, out);
        }
        match self.take_line(rt, alloc, room, runner, out) {
            Ok(()) => self.end_trace(rt, alloc, runner, out),
            Err(ending) => ending,
        }
    }

    /// Ends the last phase.
    fn end_trace<T: Threads + Wait + Sync, R: RunsPhases, K: Sink>(
        &mut self,
        rt: &T,
        alloc: Global,
        runner: &mut R,
        out: &mut K,
    ) -> Ending
        requires sound { IsSound R.fresh R.stands self.old runner.old }
        requires short { self.old.lines + 1 < 2 ^ 63 }
        ensures ends { (room : ℕ) → EndsTrace R.stands (given_by R.numbers R.gave) room
            (K.taken out.old) (K.taken out.new) self.old runner.old runner.new result }
        ensures cause { EndingCause (K.faults out.old) (K.faults out.new) result }
        ensures same { R.numbers runner.new ≡ R.numbers runner.old }
    {
        if !self.begun {
            return Ending::Refused {
                line: self.lines + 1,
                why: MISSING,
            };
        }
        match self.end_phase(rt, alloc, runner, out) {
            Ok(()) => Ending::Done,
            Err(ending) => ending,
        }
    }

    /// Takes all octets of a source, and ends the last phase.
    fn take_all<T: Threads + Wait + Sync, R: RunsPhases, S: Source, K: Sink>(
        &mut self,
        rt: &T,
        alloc: Global,
        limit: usize,
        room: u64,
        runner: &mut R,
        source: &mut S,
        out: &mut K,
    ) -> Ending
        requires limit { limit < 2 ^ 62 }
        requires room { room ≤ MOST_EVENTS }
        requires start { IsStart self.old }
        requires fresh { R.fresh runner.old }
        ensures ends { RunEnds (R.gave (R.numbers runner.new)) (R.stands runner.new) limit room
            empty (S.left source.old) (S.left source.new) (K.taken out.old) (K.taken out.new)
            result }
        ensures same { R.numbers runner.new ≡ R.numbers runner.old }
        ensures read { result ≡ ReadFault → Rose (S.faults source.old) (S.faults source.new) }
        ensures write { result ≡ WriteFault → Rose (K.faults out.old) (K.faults out.new) }
        ensures later { (S.faults source.old ≤ S.faults source.new)
            × (K.faults out.old ≤ K.faults out.new) }
    {
        let mut count = 0;
        let mut buf = [0; PIECE];
        'pieces: loop {
            // At the limit one octet is asked for, to see whether there is one.
            let most = PIECE.min(limit - count).max(1);
            match read_piece(source, &mut buf[..most]) {
                Err(Failed) => return Ending::ReadFault,
                Ok(piece) => {
                    if piece.is_empty() {
                        return self.finish(rt, alloc, room, runner, out);
                    }
                    if count == limit {
                        return Ending::TooLong;
                    }
                    count += piece.len();
                    if let Err(ending) = self.take_piece(rt, alloc, room, piece, runner, out) {
                        return ending;
                    }
                }
            }
        }
    }
}

/// Reads a trace of at most `limit` octets and `room` control records, has its phases run, and
/// writes the text of each as it ends. What runs them is opened where the settings end; it stands
/// afterwards for what it has given.
pub fn run_within<T: Threads + Wait + Sync, R: RunsPhases, S: Source, K: Sink>(
    rt: &T,
    alloc: Global,
    limit: usize,
    room: u64,
    runner: &mut R,
    source: &mut S,
    out: &mut K,
) -> Ending
    requires limit { limit < 2 ^ 62 }
    requires room { room ≤ MOST_EVENTS }
    requires fresh { R.fresh runner.old }
    ensures ends { RunEnds (R.gave (R.numbers runner.new)) (R.stands runner.new) limit room empty
        (S.left source.old) (S.left source.new) (K.taken out.old) (K.taken out.new) result }
    ensures same { R.numbers runner.new ≡ R.numbers runner.old }
    ensures read { result ≡ ReadFault → Rose (S.faults source.old) (S.faults source.new) }
    ensures write { result ≡ WriteFault → Rose (K.faults out.old) (K.faults out.new) }
    ensures later { (S.faults source.old ≤ S.faults source.new)
        × (K.faults out.old ≤ K.faults out.new) }
{
    match Run::start(alloc) {
        Ok(mut run) => run.take_all(rt, alloc, limit, room, runner, source, out),
        Err(_) => Ending::NoMemory,
    }
}
