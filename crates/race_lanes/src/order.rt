// The blocks of a phase, in the order of its records.
ghost use Rattle.std.specs.Prelude.{◌≡◌, ◌+◌, ◌<◌, ◌≤◌, ◌∷◌, ◌++◌, ◌^◌, [], ℕ, List, length, take, false, true, All, Some, IfOk, slice_get, slice_set, slice_index_or};
ghost use Rattle.legal_defs.specs.Runs.{numbered};
ghost use Rattle.legal_defs.specs.Blocks.{Shown, Line, shown_in, text_of, forwarded_in};
ghost use Rattle.block_list.specs.Marks.{one_if};
ghost use Rattle.trace_defs.specs.Entered.{entered_all};
ghost use Rattle.race_lanes.specs.declared.lanes.LaneOut.{LaneOut};
ghost use Rattle.race_lanes.specs.declared.workers.WorkerJob.{WorkerJob};
ghost use Rattle.race_lanes.specs.Lines.{AreWhole, Walked, Merged};

use crate::lanes::LaneOut;
use crate::records::{record_at, running_lane, serving_worker};
use crate::workers::WorkerJob;
use block_list::Block;
use event_record::TraceRecord;
use std::alloc::{AllocError, Global};

// What a lane printed next.
fn next_said<'a>(outs: &'a [LaneOut], next: &mut Vec<usize>, lane: usize) -> Block<'a>
    requires inside { lane < length outs.now }
    requires count { length next.old.items ≡ length outs.now }
    requires more { (d : LaneOut) → slice_index_or next.old.items lane 0 < length
        (slice_index_or outs.now lane d).said }
    ensures next { next.new.items ≡ slice_set next.old.items lane
        (slice_index_or next.old.items lane 0 + 1) }
    ensures said { (s : Shown) × (result.text.now ≡ s.text) × (one_if result.forwards ≡ s.forwards)
        × ((d : LaneOut) → slice_get (slice_index_or outs.now lane d).said
        (slice_index_or next.old.items lane 0) ≡ Some s) }
{
    let out = &outs[lane];
    let at = next[lane];
    let block = out.said.block(at);
    next[lane] = at + 1;
    block
}

// What a worker printed next.
fn next_decided<'a>(jobs: &'a [WorkerJob], next: &mut Vec<usize>, worker: usize) -> Block<'a>
    requires inside { worker < length jobs.now }
    requires count { length next.old.items ≡ length jobs.now }
    requires more { (d : WorkerJob) → slice_index_or next.old.items worker 0 < length
        (slice_index_or jobs.now worker d).decided }
    ensures next { next.new.items ≡ slice_set next.old.items worker
        (slice_index_or next.old.items worker 0 + 1) }
    ensures decided { (s : Shown) × (result.text.now ≡ s.text)
        × (one_if result.forwards ≡ s.forwards)
        × ((d : WorkerJob) → slice_get (slice_index_or jobs.now worker d).decided
        (slice_index_or next.old.items worker 0) ≡ Some s) }
{
    let job = &jobs[worker];
    let at = next[worker];
    let block = job.decided.block(at);
    next[worker] = at + 1;
    block
}

// The block of one record, when those of the earlier ones are taken.
fn block_at<'a>(
    lanes: u8,
    workers: usize,
    records: &[TraceRecord],
    i: usize,
    outs: &'a [LaneOut],
    jobs: &'a [WorkerJob],
    lane_next: &mut Vec<usize>,
    worker_next: &mut Vec<usize>,
) -> Block<'a>
    requires lanes { (1 ≤ lanes) × (lanes ≤ 3) }
    requires workers { (1 ≤ workers) × (workers ≤ 8) }
    requires inside { i < length records.now }
    requires whole { (first : ℕ) × AreWhole lanes workers
        (numbered first (entered_all records.now)) outs.now jobs.now
        × ((lines : List Line) × Walked lanes workers outs.now jobs.now
        (take i (numbered first
        (entered_all records.now))) lane_next.old.items worker_next.old.items lines) }
    ensures { (first : ℕ) (lines : List Line) → Walked lanes workers outs.now jobs.now
        (take i (numbered first
        (entered_all records.now))) lane_next.old.items worker_next.old.items lines
        → (line : Line) × (result.text.now ≡ (shown_in line).text)
        × (one_if result.forwards ≡ (shown_in line).forwards)
        × Walked lanes workers outs.now jobs.now
        (take (i + 1) (numbered first (entered_all records.now)))
        lane_next.new.items worker_next.new.items (lines ++ line ∷ []) }
{
    match record_at(records, i) {
        TraceRecord::Control { lane, what: _ } => {
            let at = usize::from(running_lane(lanes, *lane) - 1);
            next_said(outs, lane_next, at)
        }
        TraceRecord::Data { port, octets: _ } => {
            next_decided(jobs, worker_next, serving_worker(workers, *port))
        }
    }
}

fn count_of(forwards: bool) -> u64
    ensures count { result ≡ one_if forwards }
    ensures one { result ≤ 1 }
{
    if forwards { 1 } else { 0 }
}

/// Appends the blocks of all records, of what lanes and workers printed, and answers how many
/// frames they say are forwarded. `AllocError`: there is no memory.
pub fn merge(
    alloc: Global,
    lanes: u8,
    workers: usize,
    records: &[TraceRecord],
    outs: &[LaneOut],
    jobs: &[WorkerJob],
    text: &mut Vec<u8>,
) -> Result<u64, AllocError>
    requires lanes { (1 ≤ lanes) × (lanes ≤ 3) }
    requires workers { (1 ≤ workers) × (workers ≤ 8) }
    requires whole { (first : ℕ) × AreWhole lanes workers
        (numbered first (entered_all records.now)) outs.now jobs.now }
    ensures lines { (first : ℕ) → AreWhole lanes workers
        (numbered first (entered_all records.now)) outs.now jobs.now
        → IfOk result (λ n. (lines : List Line) × (text.new.items ≡ text.old.items ++ text_of lines)
        × (n ≡ forwarded_in lines) × Merged lanes workers
        (numbered first (entered_all records.now)) outs.now jobs.now lines) }
    ensures few { IfOk result (λ n. n ≤ length records.now) }
{
    let mut lane_next = vec![in alloc; 0usize; outs.len()]?;
    let mut worker_next = vec![in alloc; 0usize; jobs.len()]?;
    let mut forwarded = 0;
    for i in 0..records.len() {
        let block = block_at(
            lanes,
            workers,
            records,
            i,
            outs,
            jobs,
            &mut lane_next,
            &mut worker_next,
        );
        text.extend_from_slice(block.text)?;
        forwarded += count_of(block.forwards);
    }
    Ok(forwarded)
}

/// Whether some worker had no memory.
pub fn any_failed(jobs: &[WorkerJob]) -> bool
    ensures { result ≡ false → All (λ j. j.failed ≡ false) jobs.now }
{
    for i in 0..jobs.len() {
        if jobs[i].failed {
            return true;
        }
    }
    false
}
