// The lanes of a phase.
ghost use Rattle.std.specs.Prelude.{◌⊎◌, ◌≡◌, ◌<◌, ◌≤◌, ◌+◌, ◌^◌, [], ◌∷◌, ◌++◌, List, ℕ, length, true, false, All, slice_index_or, Some};
ghost use Rattle.book_lock.specs.declared.law.Base.{Base};
ghost use Rattle.switch_event.specs.Event.{happening};
ghost use Rattle.switch_defs.specs.Switch.{most_sessions};
ghost use Rattle.authenticator.specs.Meaning.{IsEvent};
ghost use Rattle.switch_book.specs.declared.open_book.Fixed.{Fixed};
ghost use Rattle.trace_defs.specs.Output as output;
ghost use Rattle.legal_defs.specs.Runs.{ControlRecord, Numbered, numbered, with_number};
ghost use Rattle.trace_defs.specs.Entered.{entered, entered_all};
ghost use Rattle.race_lanes.specs.Lanes.{Ran, Counted, LaneView, MayCome, IsFresh, IsSameLane, Takes, Misses, Done};

use crate::records::{record_at, running_lane};
use authenticator::Authenticator;
use block_list::Blocks;
use event_record::TraceRecord;
use out_tray::Tray;
use outside_core::Gate;
use std::marker::Model;
use std::sync::Wait;
use std::thread;
use std::thread::Threads;
use switch_book::{Answer, BookLock, Booked, JournalErr, LaneSeat, OpenBook};
use switch_event::Event;

/// What a lane has beside its seat, from phase to phase: its tray, and what it printed in the last
/// phase.
#[derive(Drop)]
pub struct LaneOut {
    /// The lane, 1 to 3.
    pub lane: u8,
    /// What the last event sent.
    pub tray: Tray,
    /// A block for each record of this lane.
    pub said: Blocks,
    /// Some event was refused, or there was no memory for a block.
    pub failed: bool,
    /// The book was full.
    pub full: bool,
}

/// A lane at work. It is not Drop, since a seat is not.
pub struct LaneJob<B: Booked> {
    pub seat: LaneSeat<B>,
    pub out: LaneOut,
}

impl LaneOut {
    // Prints the block of an accepted event; the lane has failed where there is no memory for it.
    fn note(&mut self, number: u64, answer: &Answer)
        requires lane { (1 ≤ self.old.lane) × (self.old.lane ≤ 3) }
        ensures same { (self.new.lane ≡ self.old.lane) × (self.new.full ≡ self.old.full)
            × (self.new.tray ≡ self.old.tray) }
        ensures noted { self.new.failed ≡ false → (self.old.failed ≡ false)
            × (self.new.said ≡ self.old.said ++ record {
              count = answer.now.serial;
              text = output.control_block number self.old.lane answer.now.serial
                  answer.now.outcome self.old.tray.items;
              forwards = 0;
            } ∷ []) }
    {
        let printed = self.said.add_control(
            number,
            self.lane,
            answer.serial,
            &answer.outcome,
            &self.tray,
        );
        if printed.is_err() {
            self.failed = true;
        }
    }
}

impl<B: Booked> Model for LaneJob<B> {
    ghost use Rattle.race_lanes.specs.Lanes.{LaneView};

    ghost Value = { LaneView B.Fixed };

    ghost view = { λ j. record {
      lock = j.seat.chair.table_id;
      lane = j.seat.lane;
      knows = j.seat.chair.me.0;
      out = j.out;
    } };
}

impl<A: Authenticator + Drop> LaneJob<OpenBook<A>> {
    // Waits for the lane's turn and offers an event of its own.
    fn offer<R: Wait, G: Gate>(
        &mut self,
        rt: &R,
        gate: &G,
        lock: &BookLock<OpenBook<A>>,
        number: u64,
        e: &Event<'_>,
    )
        requires lock { self.old.lock ≡ lock.now.table.shared.table_id }
        requires based { (x : Base Fixed) × (self.old.knows.base ≡ Some x)
            × IsEvent x.fixed.config (happening e.now) }
        requires room { most_sessions ≤ self.old.out.tray.sessions }
        requires lane { (self.old.out.lane ≡ self.old.lane)
            × (1 ≤ self.old.lane) × (self.old.lane ≤ 3) }
        ensures same { IsSameLane self.old self.new }
        ensures offered { (x : Base Fixed) (r : ControlRecord) → self.old.knows.base ≡ Some x
            → r.number ≡ number → r.event ≡ happening e.now
            → Takes x r self.old self.new ⊎ Misses x self.old self.new }
    {
        match lock.turn_at(rt, gate, &mut self.seat, e, &mut self.out.tray) {
            Ok(answer) => self.out.note(number, &answer),
            Err(JournalErr::Full { events: _ }) => {
                self.out.failed = true;
                self.out.full = true;
            }
            Err(JournalErr::NoMemory) => self.out.failed = true,
        }
    }

    // Does the record if it is this lane's.
    fn take<R: Wait, G: Gate>(
        &mut self,
        rt: &R,
        gate: &G,
        lock: &BookLock<OpenBook<A>>,
        lanes: u8,
        number: u64,
        what: &TraceRecord,
    )
        requires lock { self.old.lock ≡ lock.now.table.shared.table_id }
        requires based { (x : Base Fixed) × (self.old.knows.base ≡ Some x)
            × MayCome x.fixed.config (with_number number (entered what.now)) }
        requires room { most_sessions ≤ self.old.out.tray.sessions }
        requires lane { (self.old.out.lane ≡ self.old.lane)
            × (1 ≤ self.old.lane) × (self.old.lane ≤ 3) }
        requires lanes { (1 ≤ lanes) × (lanes ≤ 3) }
        ensures same { IsSameLane self.old self.new }
        ensures ran { (x : Base Fixed) (done : List Numbered) → self.old.knows.base ≡ Some x
            → Ran x.fixed.config x.opening lanes self.old.lane done self.old.out.failed
            self.old.knows.entries self.old.out.said
            → Ran x.fixed.config x.opening lanes self.old.lane
            (done ++ with_number number (entered what.now) ∷ [])
            self.new.out.failed self.new.knows.entries self.new.out.said }
        ensures counted { (x : Base Fixed) (done : List Numbered) → self.old.knows.base ≡ Some x
            → Counted x.opening lanes self.old.lane done self.old.out.failed self.old.out.full
            self.old.knows.mark self.old.knows.entries
            → Counted x.opening lanes self.old.lane
            (done ++ with_number number (entered what.now) ∷ [])
            self.new.out.failed self.new.out.full self.new.knows.mark self.new.knows.entries }
    {
        if self.out.failed {
            return;
        }
        if let TraceRecord::Control { lane, what } = what {
            if running_lane(lanes, *lane) == self.seat.lane {
                self.offer(rt, gate, lock, number, &what.event());
            }
        }
    }

    // Does all records of this lane.
    fn run<R: Wait, G: Gate>(
        &mut self,
        rt: &R,
        gate: &G,
        lock: &BookLock<OpenBook<A>>,
        lanes: u8,
        first: u64,
        records: &[TraceRecord],
    )
        requires fresh { IsFresh lock.now.table.shared.table_id
            (numbered first (entered_all records.now)) self.old }
        requires lanes { (1 ≤ lanes) × (lanes ≤ 3) }
        requires numbers { first + length records.now < 2 ^ 64 }
        ensures { Done lanes (numbered first (entered_all records.now)) self.old self.new }
    {
        for i in 0..records.len() {
            let what = record_at(records, i);
            self.take(rt, gate, lock, lanes, first + i as u64, what);
        }
    }
}

/// Runs all lanes at the same time.
pub fn run_lanes<R, A, G>(
    rt: &R,
    gate: &G,
    lock: &BookLock<OpenBook<A>>,
    lanes: u8,
    first: u64,
    records: &[TraceRecord],
    jobs: &mut [LaneJob<OpenBook<A>>],
)
where
    R: Threads + Wait + Sync,
    A: Authenticator + Drop + Send + Sync,
    G: Gate,
    requires lanes { (1 ≤ lanes) × (lanes ≤ 3) }
    requires numbers { first + length records.now < 2 ^ 64 }
    requires jobs { All (IsFresh lock.now.table.shared.table_id
        (numbered first (entered_all records.now))) jobs.old }
    ensures { (i : ℕ) (d : LaneView Fixed) → i < length jobs.old
        → Done lanes (numbered first (entered_all records.now))
        (slice_index_or jobs.old i d) (slice_index_or jobs.new i d) }
{
    thread::for_each_mut(
        rt,
        jobs,
        3,
        &|_: usize, job: &mut LaneJob<OpenBook<A>>|
            requires { IsFresh lock.now.table.shared.table_id
                (numbered first (entered_all records.now)) job.now × (1 ≤ lanes) × (lanes ≤ 3)
                × (first + length records.now < 2 ^ 64) }
            ensures { Done lanes (numbered first (entered_all records.entry.now))
                job.entry.now job.exit.now }
        { job.run(rt, gate, lock, lanes, first, records) },
    );
}
