// A run between two phases.
ghost use Rattle.std.specs.Prelude.{◌≡◌, ◌+◌, ◌<◌, ◌≤◌, ◌^◌, ◌++◌, ◌∷◌, [], List, ℕ, length, All, true, false, vec_capacity, IfOk, IfErr, OnOk};
ghost use mathlib.Core.List.{IsPrefix};
ghost use Rattle.book_lock.specs.Sums.{Each};
ghost use Rattle.event_record.specs.declared.TheConstants.{MOST_EVENTS};
ghost use Rattle.switch_event.specs.Config.{is_valid};
ghost use Rattle.switch_defs.specs.History.{after};
ghost use Rattle.switch_defs.specs.Switch.{most_sessions};
ghost use Rattle.trace_defs.specs.Line.{Record};
ghost use Rattle.auth_publish.specs.Changes.{front_of};
ghost use Rattle.table_defs.specs.Table.{opening_table};
ghost use Rattle.legal_defs.specs.Runs.{numbered, controls_in};
ghost use Rattle.legal_defs.specs.Blocks.{Line, text_of, forwarded_in};
ghost use Rattle.legal_defs.specs.Legal.{LegalBy, IsBegun};
ghost use Rattle.trace_defs.specs.Entered.{entered_all};
ghost use Rattle.race_lanes.specs.Lanes.{MayCome};
ghost use Rattle.race_lanes.specs.Workers.{IsFor, seen_by};
ghost use Rattle.race_lanes.specs.Lines.{PhaseLines};
ghost use Rattle.race_lanes.specs.Standing.{Stands};

use crate::closing::{finish_all, tell_all};
use crate::lanes::LaneOut;
use crate::order::{any_failed, merge};
use crate::phase::run_phase;
use crate::workers::WorkerJob;
use auth_publish::Viewer;
use authenticator::Authenticator;
use block_list::Blocks;
use event_record::TraceRecord;
use forward_worker::Worker;
use out_tray::Tray;
use outside_core::Gate;
use std::alloc::{AllocError, Global};
use std::marker::Model;
use std::sync::Wait;
use std::thread::Threads;
use switch_book::Book;
use switch_event::Config;
use switch_event::limit::SESSIONS;

/// A book with its lanes and workers, between two phases. It is not Drop, since a book is not: end
/// it by `end`, or by `give_up` where there is no memory.
pub struct Race<A: Authenticator + Drop> {
    book: Book<A>,
    outs: Vec<LaneOut>,
    jobs: Vec<WorkerJob>,
    lanes: u8,
    workers: usize,
    /// The number of the next record, from 1.
    number: u64,
    /// How many frames were forwarded.
    forwarded: u64,
}

impl<A: Authenticator + Drop> Model for Race<A> {
    ghost use Rattle.std.specs.Prelude.{◌≡◌, ◌≤◌, false, length, All};
    ghost use Rattle.book_lock.specs.Sums.{Each};
    ghost use Rattle.switch_defs.specs.Switch.{most_sessions};
    ghost use Rattle.race_lanes.specs.Workers.{IsFor, lists_seen};
    ghost use Rattle.race_lanes.specs.Standing.{Run};

    ghost Value = { Run };

    ghost view = { λ r. record {
      config = r.book.config;
      lanes = r.lanes;
      workers = r.workers;
      number = r.number;
      history = r.book.list;
      seen = lists_seen r.jobs.items;
      forwarded = r.forwarded;
    } };

    ghost invariant = { λ r. (r.book.finished ≡ false) × (1 ≤ r.lanes) × (r.lanes ≤ 3)
        × (1 ≤ r.workers) × (r.workers ≤ 8) × (length r.jobs.items ≡ r.workers)
        × All (IsFor r.book.name r.book.config) r.jobs.items
        × (length r.outs.items ≡ r.lanes) × (r.forwarded ≤ r.number)
        × Each (λ o. most_sessions ≤ o.tray.sessions) r.outs.items };
}

// What each lane has beside its seat.
fn lane_outs(alloc: Global, lanes: u8) -> Result<Vec<LaneOut>, AllocError>
    ensures count { IfOk result (λ r. length r.items ≡ lanes) }
    ensures trays { IfOk result (λ r. Each (λ o. most_sessions ≤ o.tray.sessions) r.items) }
{
    let mut outs = Vec::new(alloc);
    for lane in 0..lanes {
        outs.push(LaneOut {
            lane,
            tray: Tray::open(alloc, SESSIONS)?,
            said: Blocks::new(alloc),
            failed: false,
            full: false,
        })?;
    }
    Ok(outs)
}

// A job for each worker.
fn worker_jobs<A: Authenticator + Drop>(
    _book: &Book<A>,
    alloc: Global,
    mut viewers: Vec<Viewer>,
    mut jobs: Vec<WorkerJob>,
) -> Vec<WorkerJob>
    requires empty { jobs.items ≡ [] }
    requires room { length viewers.items ≤ vec_capacity jobs }
    requires same { All (λ w. (w.name ≡ _book.now.name) × (w.first ≡ opening_table _book.now.config)
        × (w.list ≡ [])) viewers.items }
    ensures count { length result.items ≡ length viewers.items }
    ensures names { All (IsFor _book.now.name _book.now.config) result.items }
{
    while let Some(viewer) = viewers.pop() {
        let worker = Worker::new(viewer);
        let job = WorkerJob::new(alloc, worker);
        jobs.push_reserved(job);
    }
    jobs
}

// A phase, after which every worker is told of what is published, and how many frames were
// forwarded in it.
fn run_one<R, A, G>(
    rt: &R,
    alloc: Global,
    book: Book<A>,
    gate: &G,
    lanes: u8,
    workers: usize,
    number: u64,
    records: &[TraceRecord],
    outs: &mut Vec<LaneOut>,
    jobs: &mut [WorkerJob],
    text: &mut Vec<u8>,
) -> (Book<A>, Result<u64, AllocError>)
where
    R: Threads + Wait + Sync,
    A: Authenticator + Drop + Send + Sync,
    G: Gate,
    requires unfinished { book.finished ≡ false }
    requires lanes { (1 ≤ lanes) × (lanes ≤ 3) }
    requires workers { (1 ≤ workers) × (workers ≤ 8) }
    requires count { length jobs.old ≡ workers }
    requires names { All (IsFor book.name book.config) jobs.old }
    requires numbers { number + length records.now < 2 ^ 64 }
    requires may_come { All (MayCome book.config) (numbered number (entered_all records.now)) }
    requires fits { length book.list + controls_in
        (numbered number (entered_all records.now)) ≤ MOST_EVENTS }
    requires outs { length outs.old.items ≡ lanes }
    requires trays { Each (λ o. most_sessions ≤ o.tray.sessions) outs.old.items }
    ensures same { (result.0.config ≡ book.config) × (result.0.name ≡ book.name)
        × (result.0.finished ≡ false) }
    ensures grows { IsPrefix book.list result.0.list }
    ensures lines { IfOk result.1 (λ n. (ls : List Line)
        × (text.new.items ≡ text.old.items ++ text_of ls)
        × (n ≡ forwarded_in ls) × PhaseLines book.config lanes workers
        (length book.list) result.0.list
        (numbered number (entered_all records.now)) (seen_by jobs.old) (seen_by jobs.new) ls) }
    ensures few { IfOk result.1 (λ n. n ≤ length records.now) }
    ensures count { length jobs.new ≡ workers }
    ensures names { OnOk result.1 (All (IsFor book.name book.config) jobs.new) }
    ensures told { OnOk result.1 ((k : ℕ) → k < workers
        → IsPrefix (seen_by jobs.old k) (seen_by jobs.new k)
        × (length result.0.list ≤ front_of (seen_by jobs.new k))) }
    ensures outs { length outs.new.items ≡ lanes }
    ensures trays { Each (λ o. most_sessions ≤ o.tray.sessions) outs.new.items }
{
    let (mut book, whole) = run_phase(
        rt, alloc, book, gate, lanes, workers, number, records, outs, jobs,
    );
    if !whole {
        return (book, Err(AllocError));
    }
    if any_failed(jobs) {
        return (book, Err(AllocError));
    }
    match merge(alloc, lanes, workers, records, outs, jobs, text) {
        Ok(forwarded) => {
            tell_all(&mut book, jobs);
            (book, Ok(forwarded))
        }
        Err(error) => (book, Err(error)),
    }
}

impl<A: Authenticator + Drop> Race<A> {
    /// A run of these settings, which are valid, on 1 to 3 lanes and 1 to 8 workers, before its
    /// first phase. `AllocError`: there is no memory.
    pub fn open<R: Wait>(
        rt: &R,
        alloc: Global,
        config: Config,
        lanes: u8,
        workers: usize,
    ) -> Result<Race<A>, AllocError>
        requires valid { is_valid config ≡ true }
        requires lanes { (1 ≤ lanes) × (lanes ≤ 3) }
        requires workers { (1 ≤ workers) × (workers ≤ 8) }
        ensures same { IfOk result (λ r. (r.config ≡ config) × (r.lanes ≡ lanes)
            × (r.workers ≡ workers)) }
        ensures none { IfOk result (λ r. (r.number ≡ 1) × (r.history ≡ []) × Stands r [] []) }
    {
        let outs = lane_outs(alloc, lanes)?;
        let jobs = Vec::with_capacity(alloc, workers)?;
        let (book, all) = Book::open(rt, alloc, config, workers)?;
        let jobs = worker_jobs(&book, alloc, all, jobs);
        Ok(Race {
            book,
            outs,
            jobs,
            lanes,
            workers,
            number: 1,
            forwarded: 0,
        })
    }

    /// Runs the records of a phase and appends their blocks to the text, in record order: those of
    /// lane `l` on lane `((l - 1) mod lanes) + 1`, those of port `p` on worker
    /// `((p - 1) mod workers) + 1`. The gate is called by each worker that has
    /// decided. `AllocError`: there is no memory, and the run has ended.
    pub fn phase<R, G>(
        self,
        rt: &R,
        alloc: Global,
        gate: &G,
        records: &[TraceRecord],
        text: &mut Vec<u8>,
    ) -> Result<Race<A>, AllocError>
    where
        R: Threads + Wait + Sync,
        A: Send + Sync,
        G: Gate,
        requires numbers { self.number + length records.now < 2 ^ 64 }
        requires may_come { All (MayCome self.config)
            (numbered self.number (entered_all records.now)) }
        requires fits { length self.history + controls_in
            (numbered self.number (entered_all records.now)) ≤ MOST_EVENTS }
        ensures same { IfOk result (λ r. (r.config ≡ self.config) × (r.lanes ≡ self.lanes)
            × (r.workers ≡ self.workers)
            × (r.number ≡ self.number + length records.now)
            × (length r.history ≡ length self.history + controls_in
            (numbered self.number (entered_all records.now)))) }
        ensures stands { (phases : List (List Record)) (was : List ℕ) → Stands self phases was
            → IfOk result (λ r. (more : List ℕ) × (text.new.items ≡ text.old.items ++ more)
            × Stands r (phases ++ entered_all records.now ∷ []) (was ++ more)) }
        ensures begun { (phases : List (List Record)) (was : List ℕ) → Stands self phases was
            → IfErr result (λ _. IsBegun self.config self.lanes self.workers phases was) }
    {
        let Self {
            book,
            mut outs,
            mut jobs,
            lanes,
            workers,
            number,
            forwarded,
        } = self;
        let (book, done) = run_one(
            rt,
            alloc,
            book,
            gate,
            lanes,
            workers,
            number,
            records,
            &mut outs,
            jobs.as_mut_slice(),
            text,
        );
        match done {
            Ok(more) => Ok(Race {
                book,
                outs,
                jobs,
                lanes,
                workers,
                number: number + records.len() as u64,
                forwarded: forwarded + more,
            }),
            Err(error) => {
                book.end(rt);
                Err(error)
            }
        }
    }

    /// How many sessions there are now, 0 to 960.
    pub fn sessions(&self) -> usize
        ensures { result ≡ length (after self.now.config self.now.history).sessions }
    {
        self.book.sessions()
    }

    /// How many frames were forwarded so far.
    pub fn forwarded(&self) -> u64
        ensures { result ≡ self.now.forwarded }
    {
        self.forwarded
    }

    /// Ends the run: the book is finished, and each worker learns that and enters once more.
    /// `AllocError`: there is no memory, and the run has ended all the same.
    pub fn end<R: Wait>(self, rt: &R) -> Result<(), AllocError>
        ensures legal { (phases : List (List Record)) (text : List ℕ) → Stands self phases text
            → IfOk result (λ _. LegalBy self.config self.lanes self.workers phases text
            self.history self.forwarded) }
        ensures begun { (phases : List (List Record)) (text : List ℕ) → Stands self phases text
            → IfErr result (λ _. IsBegun self.config self.lanes self.workers phases text) }
    {
        let Self {
            mut book,
            outs: _outs,
            mut jobs,
            lanes: _,
            workers: _,
            number: _,
            forwarded: _,
        } = self;
        let closed = finish_all(rt, &mut book, jobs.as_mut_slice());
        book.end(rt);
        closed
    }

    /// Ends the run where there was no memory for what comes next.
    pub fn give_up<R: Wait>(self, rt: &R)
        ensures { (phases : List (List Record)) (text : List ℕ) → Stands self phases text
            → IsBegun self.config self.lanes self.workers phases text }
    {
        let Self {
            book,
            outs: _outs,
            jobs: _jobs,
            lanes: _,
            workers: _,
            number: _,
            forwarded: _,
        } = self;
        book.end(rt);
    }
}
