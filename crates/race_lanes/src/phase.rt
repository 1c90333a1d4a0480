// One phase: the lock is opened round the book, lanes and workers run, and the lock is closed.
ghost use Rattle.std.specs.Prelude.{◌≡◌, ◌+◌, ◌<◌, ◌≤◌, ◌^◌, [], ◌∷◌, ◌++◌, ℕ, length, map, true, false, All, vec_capacity, IfSome, IfOk, Some, slice_index_or};
ghost use mathlib.Core.List.{IsPrefix};
ghost use Rattle.std.specs.Thread.{IsSync, IsSend};
ghost use Rattle.book_lock.specs.declared.law.Base.{Base};
ghost use Rattle.book_lock.specs.Sums.{Each, total, lanes_up};
ghost use Rattle.event_record.specs.declared.TheConstants.{MOST_EVENTS};
ghost use Rattle.switch_defs.specs.Switch.{most_sessions};
ghost use Rattle.switch_book.specs.declared.open_book.Fixed.{Fixed};
ghost use Rattle.switch_book.specs.Locked.{based};
ghost use Rattle.legal_defs.specs.Runs.{numbered, controls_in};
ghost use Rattle.trace_defs.specs.Entered.{entered_all};
ghost use Rattle.race_lanes.specs.declared.workers.WorkerJob.{WorkerJob};
ghost use Rattle.race_lanes.specs.InPhase.{PhaseOk};
ghost use Rattle.race_lanes.specs.Lanes.{LaneView, MayCome, IsFresh, Done, turned, IsBlank, seat_view, seat_in};
ghost use Rattle.race_lanes.specs.Workers.{Worked};

use crate::lanes::{LaneJob, LaneOut, run_lanes};
use crate::workers::{WorkerJob, run_workers};
use authenticator::Authenticator;
use event_record::TraceRecord;
use outside_core::Gate;
use std::alloc::Global;
use std::sync::Wait;
use std::thread::{Threads, join_mut};
use switch_book::{Book, BookLock, Booked, LaneSeat, OpenBook};

// Memory for the seats and jobs of a phase, reserved before the book is locked.
struct Room<B: Booked> {
    jobs: Vec<LaneJob<B>>,
    back: Vec<LaneSeat<B>>,
}

fn room_for<B: Booked>(alloc: Global, lanes: usize) -> Option<Room<B>>
    ensures empty { IfSome result (λ r. (r.jobs.items ≡ []) × (r.back.items ≡ [])) }
    ensures room { IfSome result (λ r. (lanes ≤ vec_capacity r.jobs)
        × (lanes ≤ vec_capacity r.back)) }
{
    let jobs = match Vec::with_capacity(alloc, lanes) {
        Ok(jobs) => jobs,
        Err(_) => return None,
    };
    match Vec::with_capacity(alloc, lanes) {
        Ok(back) => Some(Room { jobs, back }),
        Err(_) => {
            jobs.destroy_empty();
            None
        }
    }
}

impl<B: Booked> Room<B> {
    fn give_up(self)
        requires { (self.jobs.items ≡ []) × (self.back.items ≡ []) }
    {
        let Self { jobs, back } = self;
        jobs.destroy_empty();
        back.destroy_empty();
    }
}

impl<B: Booked> LaneJob<B> {
    fn new(seat: LaneSeat<B>, mut out: LaneOut) -> LaneJob<B>
        requires room { most_sessions ≤ out.tray.sessions }
        ensures seat { (result.lock ≡ seat.chair.table_id) × (result.lane ≡ seat.lane)
            × (result.knows ≡ seat.chair.me.0) }
        ensures blank { IsBlank result }
    {
        out.lane = seat.lane;
        out.said.clear();
        out.failed = false;
        out.full = false;
        LaneJob { seat, out }
    }

    fn parts(self) -> (LaneSeat<B>, LaneOut)
        ensures seat { (result.0.chair.table_id ≡ self.lock) × (result.0.lane ≡ self.lane)
            × (result.0.chair.me.0 ≡ self.knows) }
        ensures out { result.1 ≡ self.out }
    {
        let Self { seat, out } = self;
        (seat, out)
    }
}

fn last_out(outs: &mut Vec<LaneOut>) -> LaneOut
    requires { 0 < length outs.old.items }
    ensures rest { outs.old.items ≡ outs.new.items ++ result ∷ [] }
    ensures kept { vec_capacity outs.new ≡ vec_capacity outs.old }
{
    outs.pop().unwrap()
}

// A job for each seat, in the other order.
fn jobs_of<B: Booked>(
    mut seats: Vec<LaneSeat<B>>,
    outs: &mut Vec<LaneOut>,
    jobs: &mut Vec<LaneJob<B>>,
)
    requires empty { jobs.old.items ≡ [] }
    requires room { length seats.items ≤ vec_capacity jobs.old }
    requires outs { length outs.old.items ≡ length seats.items }
    requires trays { Each (λ o. most_sessions ≤ o.tray.sessions) outs.old.items }
    ensures seats { map seat_in jobs.new.items
        ≡ turned (λ s. seat_view s.chair.table_id s.lane s.chair.me.0) seats.items }
    ensures blank { Each IsBlank jobs.new.items }
    ensures outs { outs.new.items ≡ [] }
    ensures kept { vec_capacity outs.new ≡ vec_capacity outs.old }
{
    while let Some(seat) = seats.pop() {
        let out = last_out(outs);
        jobs.push_reserved(LaneJob::new(seat, out));
    }
    seats.destroy_empty();
}

fn either(a: bool, b: bool) -> bool
    ensures both { result ≡ false → (a ≡ false) × (b ≡ false) }
    ensures none { a ≡ false → b ≡ false → result ≡ false }
{
    a || b
}

// The seats and what was printed, in the other order, whether some lane failed, and whether one met
// a full book.
fn gather_jobs<B: Booked>(
    mut jobs: Vec<LaneJob<B>>,
    back: &mut Vec<LaneSeat<B>>,
    outs: &mut Vec<LaneOut>,
) -> (bool, bool)
    requires empty { (back.old.items ≡ []) × (outs.old.items ≡ []) }
    requires room { (length jobs.items ≤ vec_capacity back.old)
        × (length jobs.items ≤ vec_capacity outs.old) }
    ensures seats { map (λ s. seat_view s.chair.table_id s.lane s.chair.me.0) back.new.items
        ≡ turned seat_in jobs.items }
    ensures outs { outs.new.items ≡ turned (λ j. j.out) jobs.items }
    ensures kept { vec_capacity outs.new ≡ vec_capacity outs.old }
    ensures failed { result.0 ≡ false → Each (λ o. o.failed ≡ false) outs.new.items }
    ensures full { Each (λ o. o.full ≡ false) outs.new.items → result.1 ≡ false }
{
    let mut failed = false;
    let mut full = false;
    while let Some(job) = jobs.pop() {
        let (seat, out) = job.parts();
        failed = either(failed, out.failed);
        full = either(full, out.full);
        back.push_reserved(seat);
        outs.push_reserved(out);
    }
    jobs.destroy_empty();
    (failed, full)
}

// Lanes and workers at the same time.
fn run_both<R, A, G>(
    rt: &R,
    gate: &G,
    lock: &BookLock<OpenBook<A>>,
    lanes: u8,
    workers: usize,
    first: &u64,
    records: &[TraceRecord],
    lane_jobs: &mut [LaneJob<OpenBook<A>>],
    worker_jobs: &mut [WorkerJob],
)
where
    R: Threads + Wait + Sync,
    A: Authenticator + Drop + Send + Sync,
    G: Gate,
    requires lanes { (1 ≤ lanes) × (lanes ≤ 3) }
    requires workers { (1 ≤ workers) × (workers ≤ 8) }
    requires numbers { first.now + length records.now < 2 ^ 64 }
    requires jobs { All (IsFresh lock.now.table.shared.table_id
        (numbered first.now (entered_all records.now))) lane_jobs.old }
    ensures lanes { (i : ℕ) (d : LaneView Fixed) → i < length lane_jobs.old
        → Done lanes (numbered first.now (entered_all records.now))
        (slice_index_or lane_jobs.old i d) (slice_index_or lane_jobs.new i d) }
    ensures workers { (i : ℕ) (d : WorkerJob) → i < length worker_jobs.old
        → Worked workers i (numbered first.now (entered_all records.now))
        (slice_index_or worker_jobs.old i d) (slice_index_or worker_jobs.new i d) }
{
    join_mut(
        rt,
        &mut ||
            requires { IsSync R.row × IsSync G.row × IsSend A.row × IsSync A.row
                × (1 ≤ lanes) × (lanes ≤ 3) × (first.now + length records.now < 2 ^ 64)
                × All (IsFresh lock.now.table.shared.table_id
                (numbered first.now (entered_all records.now))) lane_jobs.now }
            ensures { (i : ℕ) (d : LaneView Fixed) → i < length lane_jobs.entry.now
                → Done lanes (numbered first.entry.now (entered_all records.entry.now))
                (slice_index_or lane_jobs.entry.now i d) (slice_index_or lane_jobs.exit.now i d) }
        { run_lanes(rt, gate, lock, lanes, *first, records, lane_jobs) },
        &mut ||
            requires { IsSync R.row × IsSync G.row × (1 ≤ workers) × (workers ≤ 8)
                × (first.now + length records.now < 2 ^ 64) }
            ensures { (i : ℕ) (d : WorkerJob) → i < length worker_jobs.entry.now
                → Worked workers i (numbered first.entry.now (entered_all records.entry.now))
                (slice_index_or worker_jobs.entry.now i d)
                (slice_index_or worker_jobs.exit.now i d) }
        { run_workers(rt, gate, workers, *first, records, worker_jobs) },
    );
}

// The same, over jobs in a Vec.
fn run_jobs<R, A, G>(
    rt: &R,
    gate: &G,
    lock: &BookLock<OpenBook<A>>,
    lanes: u8,
    workers: usize,
    first: u64,
    records: &[TraceRecord],
    lane_jobs: &mut Vec<LaneJob<OpenBook<A>>>,
    worker_jobs: &mut [WorkerJob],
)
where
    R: Threads + Wait + Sync,
    A: Authenticator + Drop + Send + Sync,
    G: Gate,
    requires lanes { (1 ≤ lanes) × (lanes ≤ 3) }
    requires workers { (1 ≤ workers) × (workers ≤ 8) }
    requires numbers { first + length records.now < 2 ^ 64 }
    requires jobs { Each (IsFresh lock.now.table.shared.table_id
        (numbered first (entered_all records.now))) lane_jobs.old.items }
    ensures count { length lane_jobs.new.items ≡ length lane_jobs.old.items }
    ensures lanes { (i : ℕ) (d : LaneView Fixed) → i < length lane_jobs.old.items
        → Done lanes (numbered first (entered_all records.now))
        (slice_index_or lane_jobs.old.items i d) (slice_index_or lane_jobs.new.items i d) }
    ensures workers { (i : ℕ) (d : WorkerJob) → i < length worker_jobs.old
        → Worked workers i (numbered first (entered_all records.now))
        (slice_index_or worker_jobs.old i d) (slice_index_or worker_jobs.new i d) }
{
    run_both(
        rt,
        gate,
        lock,
        lanes,
        workers,
        &first,
        records,
        lane_jobs.as_mut_slice(),
        worker_jobs,
    );
}

// The lock is open round the book.
fn run_locked<R, A, G>(
    rt: &R,
    gate: &G,
    lock: BookLock<OpenBook<A>>,
    seats: Vec<LaneSeat<OpenBook<A>>>,
    room: Room<OpenBook<A>>,
    lanes: u8,
    workers: usize,
    first: u64,
    records: &[TraceRecord],
    outs: &mut Vec<LaneOut>,
    worker_jobs: &mut [WorkerJob],
) -> (Book<A>, bool)
where
    R: Threads + Wait + Sync,
    A: Authenticator + Drop + Send + Sync,
    G: Gate,
    requires opened { All (λ s. (s.chair.table_id ≡ lock.table.shared.table_id)
        × (s.chair.me.0.base ≡ Some (based lock.table.shared.key.value.book))
        × (s.chair.me.0.entries ≡ [])) seats.items }
    requires lanes { (1 ≤ lanes) × (lanes ≤ 3) }
    requires workers { (1 ≤ workers) × (workers ≤ 8) }
    requires numbers { first + length records.now < 2 ^ 64 }
    requires may_come { All (MayCome lock.table.shared.key.value.book.config)
        (numbered first (entered_all records.now)) }
    requires fits { length lock.table.shared.key.value.book.list
        + controls_in (numbered first (entered_all records.now)) ≤ MOST_EVENTS }
    requires count { length seats.items ≡ lanes }
    requires lane_numbers { map (λ s. s.lane) seats.items ≡ lanes_up lanes }
    requires parts { total (λ s. s.chair.me.0.parts) seats.items ≡ 3 }
    requires empty { (room.jobs.items ≡ []) × (room.back.items ≡ []) }
    requires room { (lanes ≤ vec_capacity room.jobs) × (lanes ≤ vec_capacity room.back) }
    requires outs { length outs.old.items ≡ lanes }
    requires trays { Each (λ o. most_sessions ≤ o.tray.sessions) outs.old.items }
    ensures same { let b = lock.table.shared.key.value.book in
        (result.0.config ≡ b.config) × (result.0.name ≡ b.name) × (result.0.finished ≡ false) }
    ensures grows { IsPrefix lock.table.shared.key.value.book.list result.0.list }
    ensures printed { let b = lock.table.shared.key.value.book in
        let rs = numbered first (entered_all records.now) in
        result.1 ≡ true → PhaseOk b.config result.0.list (length b.list) lanes rs outs.new.items
        × (length result.0.list ≡ length b.list + controls_in rs) }
    ensures outs { length outs.new.items ≡ lanes }
    ensures trays { Each (λ o. most_sessions ≤ o.tray.sessions) outs.new.items }
    ensures workers { (i : ℕ) (d : WorkerJob) → i < length worker_jobs.old
        → Worked workers i (numbered first (entered_all records.now))
        (slice_index_or worker_jobs.old i d) (slice_index_or worker_jobs.new i d) }
{
    let Room { mut jobs, mut back } = room;
    jobs_of(seats, outs, &mut jobs);
    run_jobs(
        rt,
        gate,
        &lock,
        lanes,
        workers,
        first,
        records,
        &mut jobs,
        worker_jobs,
    );
    let (failed, full) = gather_jobs(jobs, &mut back, outs);
    let book = lock.close(back).into_book();
    if full {
        unreachable!();
    }
    (book, !failed)
}

/// Runs the records of a phase, of which the first has this number, and answers whether each was
/// run and has its block: those of lane `l` on lane `((l - 1) mod lanes) + 1`, those of port `p` on
/// worker `((p - 1) mod workers) + 1`, all at the same time. `false`: there was no memory. The book
/// comes back all the same.
pub fn run_phase<R, A, G>(
    rt: &R,
    alloc: Global,
    book: Book<A>,
    gate: &G,
    lanes: u8,
    workers: usize,
    first: u64,
    records: &[TraceRecord],
    outs: &mut Vec<LaneOut>,
    worker_jobs: &mut [WorkerJob],
) -> (Book<A>, bool)
where
    R: Threads + Wait + Sync,
    A: Authenticator + Drop + Send + Sync,
    G: Gate,
    requires unfinished { book.finished ≡ false }
    requires lanes { (1 ≤ lanes) × (lanes ≤ 3) }
    requires workers { (1 ≤ workers) × (workers ≤ 8) }
    requires numbers { first + length records.now < 2 ^ 64 }
    requires may_come { All (MayCome book.config) (numbered first (entered_all records.now)) }
    requires fits { length book.list + controls_in
        (numbered first (entered_all records.now)) ≤ MOST_EVENTS }
    requires outs { length outs.old.items ≡ lanes }
    requires trays { Each (λ o. most_sessions ≤ o.tray.sessions) outs.old.items }
    ensures same { (result.0.config ≡ book.config) × (result.0.name ≡ book.name)
        × (result.0.finished ≡ false) }
    ensures grows { IsPrefix book.list result.0.list }
    ensures printed { let rs = numbered first (entered_all records.now) in
        result.1 ≡ true → PhaseOk book.config result.0.list
        (length book.list) lanes rs outs.new.items
        × (length result.0.list ≡ length book.list + controls_in rs) }
    ensures outs { length outs.new.items ≡ lanes }
    ensures trays { Each (λ o. most_sessions ≤ o.tray.sessions) outs.new.items }
    ensures workers { result.1 ≡ true → (i : ℕ) (d : WorkerJob) → i < length worker_jobs.old
        → Worked workers i (numbered first (entered_all records.now))
        (slice_index_or worker_jobs.old i d) (slice_index_or worker_jobs.new i d) }
{
    let Some(room) = room_for(alloc, usize::from(lanes)) else {
        return (book, false);
    };
    match BookLock::open(alloc, OpenBook { book }, usize::from(lanes)) {
        Ok((lock, seats)) => run_locked(
            rt,
            gate,
            lock,
            seats,
            room,
            lanes,
            workers,
            first,
            records,
            outs,
            worker_jobs,
        ),
        Err((_, open)) => {
            room.give_up();
            (open.into_book(), false)
        }
    }
}
