// The records of a phase, and where each runs.
ghost use Rattle.std.specs.Prelude.{◌≡◌, ◌<◌, ◌≤◌, ◌+◌, ℕ, length, slice_get, Some};
ghost use Rattle.legal_defs.specs.Runs.{numbered, with_number, runs_on, served_by};
ghost use Rattle.trace_defs.specs.Entered.{entered, entered_all};

use event_record::TraceRecord;

fn entry_at(records: &[TraceRecord], i: usize) -> &TraceRecord
    requires { i < length records.now }
    ensures { slice_get records.now i ≡ Some result.now }
{
    &records[i]
}

/// The record at a place.
pub fn record_at(records: &[TraceRecord], i: usize) -> &TraceRecord
    requires { i < length records.now }
    ensures { (first : ℕ) → slice_get (numbered first (entered_all records.now)) i
        ≡ Some (with_number (first + i) (entered result.now)) }
{
    entry_at(records, i)
}

/// Of 1 to 3 lanes the one that runs the records of a lane.
pub fn running_lane(lanes: u8, lane: u8) -> u8
    requires { (1 ≤ lanes) × (lanes ≤ 3) }
    ensures { result ≡ runs_on lanes lane }
{
    lane.saturating_sub(1) % lanes + 1
}

/// Of 1 to 8 workers the one that decides on the frames of a port, from 0.
pub fn serving_worker(workers: usize, port: u8) -> usize
    requires { (1 ≤ workers) × (workers ≤ 8) }
    ensures { result ≡ served_by workers port }
{
    usize::from(port.saturating_sub(1)) % workers
}
