// What runs no record, and counts them.
ghost use Rattle.std.specs.Prelude.{◌≡◌, ◌+◌, ◌<◌, ◌^◌, length};
ghost use Rattle.history_defs.specs.Output.{controls_in};
ghost use Rattle.trace_defs.specs.Entered.{entered_all};

use crate::runs::RunsPhases;
use event_record::TraceRecord;
use std::alloc::{AllocError, Global};
use std::sync::Wait;
use std::thread::Threads;
use switch_event::Config;

/// Counts the records of phases, and gives no text for them.
#[derive(Clone, Copy, Debug, Default, PartialEq, Eq)]
pub struct Counter {
    /// How many records there were.
    pub records: u64,
    /// How many of them were control records.
    pub controls: u64,
}

impl Counter {
    fn count(&mut self, records: &[TraceRecord])
        requires records { self.old.records + length records.now < 2 ^ 64 }
        requires controls { self.old.controls + controls_in (entered_all records.now) < 2 ^ 64 }
        ensures records { self.new.records ≡ self.old.records + length records.now }
        ensures controls { self.new.controls
            ≡ self.old.controls + controls_in (entered_all records.now) }
    {
        let mut rest = records;
        while let [record, after @ ..] = rest {
            self.records += 1;
            if let TraceRecord::Control { .. } = record {
                self.controls += 1;
            }
            rest = after;
        }
    }
}

impl RunsPhases for Counter {
    ghost use Rattle.std.specs.Prelude.{[]};
    ghost use Rattle.race_run.specs.Runners.{HasCounted, IsSilent};

    ghost numbers = { λ counter. [] };

    ghost fresh = { λ counter. Unit {0} };

    ghost stands = { HasCounted };

    ghost gave = { λ none. IsSilent };

    fn open<T: Threads + Wait + Sync>(
        &mut self,
        _rt: &T,
        _alloc: Global,
        _config: &Config,
    ) -> Result<(), AllocError> {
        *self = Counter::default();
        Ok(())
    }

    fn run<T: Threads + Wait + Sync>(
        &mut self,
        _rt: &T,
        records: &[TraceRecord],
        _text: &mut Vec<u8>,
    ) -> Result<(), AllocError> {
        self.count(records);
        Ok(())
    }
}
