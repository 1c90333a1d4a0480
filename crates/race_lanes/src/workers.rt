// The workers of a phase.
ghost use Rattle.std.specs.Prelude.{◌≡◌, ◌<◌, ◌≤◌, ◌+◌, ◌^◌, [], ◌∷◌, ◌++◌, List, ℕ, length, false, IfOk, slice_index_or};
ghost use mathlib.Core.List.{IsPrefix};
ghost use Rattle.table_defs.specs.Table.{Change};
ghost use Rattle.legal_defs.specs.Runs.{DataRecord, Numbered, numbered, with_number};
ghost use Rattle.trace_defs.specs.Entered.{entered, entered_all};
ghost use Rattle.race_lanes.specs.Shares.{datas_of};
ghost use Rattle.race_lanes.specs.Workers.{Heard, Hears, Worked};

use crate::records::{record_at, serving_worker};
use arrayvec::ArrayVec;
use block_list::Blocks;
use event_record::TraceRecord;
use forward_worker::Worker;
use outside_core::{Gate, Point, Who};
use std::alloc::{AllocError, Global};
use std::thread;
use std::thread::Threads;

/// A worker, and what it printed in the last phase.
#[derive(Drop)]
pub struct WorkerJob {
    pub worker: Worker,
    /// A block for each record of this worker.
    pub decided: Blocks,
    /// There was no memory.
    pub failed: bool,
    // Two lines of a cache, so that no two workers write into one.
    apart: [u64; 16],
}

// Decides on a frame of this worker, and prints its block. What leaves is put together in `tagged`.
fn decide(
    worker: &mut Worker,
    number: u64,
    port: u8,
    frame: &[u8],
    decided: &mut Blocks,
    tagged: &mut ArrayVec<u8, 1522>,
) -> Result<(), AllocError>
    ensures same { (worker.new.name ≡ worker.old.name) × (worker.new.first ≡ worker.old.first) }
    ensures grows { IsPrefix worker.old.list worker.new.list }
    ensures heard { (x : DataRecord) → x.number ≡ number → x.port ≡ port → x.octets ≡ frame.now
        → IfOk result (λ _. Heard worker.old.first worker.new.list x decided.old decided.new) }
{
    let one = worker.forward(port, frame, tagged)?;
    decided.add_data(number, &one, tagged.as_slice())
}

// Decides on one record, if it is this worker's.
fn take<G: Gate>(
    worker: &mut Worker,
    gate: &G,
    workers: usize,
    share: usize,
    number: u64,
    what: &TraceRecord,
    decided: &mut Blocks,
    tagged: &mut ArrayVec<u8, 1522>,
) -> Result<(), AllocError>
    requires workers { (1 ≤ workers) × (workers ≤ 8) }
    ensures same { (worker.new.name ≡ worker.old.name) × (worker.new.first ≡ worker.old.first) }
    ensures grows { IsPrefix worker.old.list worker.new.list }
    ensures hears { (least : List Change) (done : List Numbered)
        → IsPrefix least worker.old.list
        → Hears worker.old.first least worker.old.list (datas_of workers share done) decided.old
        → IfOk result (λ _. Hears worker.old.first least worker.new.list
        (datas_of workers share (done ++ with_number number (entered what.now) ∷ [])) decided.new) }
{
    if let TraceRecord::Data { port, octets } = what {
        if serving_worker(workers, *port) == share {
            decide(worker, number, *port, octets.as_slice(), decided, tagged)?;
            gate.at(Who::Worker(share as u8 + 1), Point::Decided);
        }
    }
    Ok(())
}

// Decides on all records of this worker, in order.
fn take_all<G: Gate>(
    worker: &mut Worker,
    gate: &G,
    workers: usize,
    share: usize,
    first: u64,
    records: &[TraceRecord],
    decided: &mut Blocks,
) -> Result<(), AllocError>
    requires workers { (1 ≤ workers) × (workers ≤ 8) }
    requires numbers { first + length records.now < 2 ^ 64 }
    requires empty { decided.old ≡ [] }
    ensures same { (worker.new.name ≡ worker.old.name) × (worker.new.first ≡ worker.old.first) }
    ensures grows { IsPrefix worker.old.list worker.new.list }
    ensures hears { IfOk result (λ _. Hears worker.old.first worker.old.list worker.new.list
        (datas_of workers share (numbered first (entered_all records.now))) decided.new) }
{
    let mut tagged = ArrayVec::new();
    for i in 0..records.len() {
        let what = record_at(records, i);
        take(
            worker,
            gate,
            workers,
            share,
            first + i as u64,
            what,
            decided,
            &mut tagged,
        )?;
    }
    Ok(())
}

impl WorkerJob {
    /// A worker that has printed nothing.
    pub fn new(alloc: Global, worker: Worker) -> WorkerJob
        ensures { result.worker ≡ worker }
    {
        WorkerJob {
            worker,
            decided: Blocks::new(alloc),
            failed: false,
            apart: [0; 16],
        }
    }

    fn run<G: Gate>(
        &mut self,
        gate: &G,
        workers: usize,
        share: usize,
        first: u64,
        records: &[TraceRecord],
    )
        requires workers { (1 ≤ workers) × (workers ≤ 8) }
        requires numbers { first + length records.now < 2 ^ 64 }
        ensures { Worked workers share (numbered first
            (entered_all records.now)) self.old self.new }
    {
        self.decided.clear();
        let done = take_all(
            &mut self.worker,
            gate,
            workers,
            share,
            first,
            records,
            &mut self.decided,
        );
        self.failed = done.is_err();
    }
}

/// Runs all workers at the same time.
pub fn run_workers<R: Threads + Sync, G: Gate>(
    rt: &R,
    gate: &G,
    workers: usize,
    first: u64,
    records: &[TraceRecord],
    jobs: &mut [WorkerJob],
)
    requires workers { (1 ≤ workers) × (workers ≤ 8) }
    requires numbers { first + length records.now < 2 ^ 64 }
    ensures { (i : ℕ) (d : WorkerJob) → i < length jobs.old
        → Worked workers i (numbered first (entered_all records.now))
        (slice_index_or jobs.old i d) (slice_index_or jobs.new i d) }
{
    thread::for_each_mut(
        rt,
        jobs,
        8,
        &|i: usize, job: &mut WorkerJob|
            requires { (1 ≤ workers) × (workers ≤ 8) × (first + length records.now < 2 ^ 64) }
            ensures { Worked workers i (numbered first (entered_all records.entry.now))
                job.entry.now job.exit.now }
        { job.run(gate, workers, i, first, records) },
    );
}
