//! Records are counted.
ghost use Rattle.std.specs.Prelude.{◌≡◌, ◌+◌, length};
ghost use Rattle.history_defs.specs.Output.{controls_in};
ghost use Rattle.trace_defs.specs.Entered.{entered_all};
ghost use Rattle.day_load.specs.Summary.{frames_in};

use event_record::TraceRecord;

/// How many control records and how many data records there are.
#[derive(Clone, Copy)]
pub(crate) struct Counts {
    pub controls: u64,
    pub frames: u64,
}

/// Counts the records.
pub(crate) fn count(records: &[TraceRecord]) -> Counts
    ensures controls { result.controls ≡ controls_in (entered_all records.now) }
    ensures frames { result.frames ≡ frames_in (entered_all records.now) }
    ensures all { result.controls + result.frames ≡ length records.now }
{
    let mut controls = 0;
    let mut frames = 0;
    let mut rest = records;
    while let [record, after @ ..] = rest {
        match record {
            TraceRecord::Control { .. } => controls += 1,
            TraceRecord::Data { .. } => frames += 1,
        }
        rest = after;
    }
    Counts { controls, frames }
}
