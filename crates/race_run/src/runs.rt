//! What runs the phases of a trace.
ghost use Rattle.std.specs.Prelude.{◌≡◌, ℕ, List, [], true, IfOk, OnOk};
ghost use Rattle.std.specs.Thread.{IsSync};
ghost use Rattle.switch_event.specs.Config.{Config as Settings, is_valid};
ghost use Rattle.trace_defs.specs.Line.{Record};
ghost use Rattle.trace_defs.specs.Entered.{entered_all};
ghost use Rattle.race_run.specs.Runs.{MayRun, RanPhase};

use event_record::TraceRecord;
use std::alloc::{AllocError, Global};
use std::sync::Wait;
use std::thread::Threads;
use trace_lang::Config;

/// Runs one phase of records after another, and gives a text for each. It may start threads, and
/// has joined them when a call returns.
pub trait RunsPhases {
    // what its text depends on beside the records, and no call changes
    ghost numbers: { Self → List ℕ };

    // it was not opened yet
    ghost fresh: { Self → Type 0 };

    // it has run these phases under these settings, and has given this text for them
    ghost stands: { Self → Settings → List (List Record) → List ℕ → Type 0 };

    // one of these numbers has given this text for phases under settings, as far as that is known
    // where a run ends for want of memory
    ghost gave: { List ℕ → Settings → List (List Record) → List ℕ → Type 0 };

    /// Prepares it for a run under valid settings, before the first phase. `AllocError`: there is
    /// no memory; then it is not used again.
    fn open<T: Threads + Wait + Sync>(
        &mut self,
        rt: &T,
        alloc: Global,
        config: &Config,
    ) -> Result<(), AllocError>
        requires sync { IsSync T.row }
        requires valid { is_valid config.now ≡ true }
        requires fresh { fresh self.old }
        ensures same { numbers self.new ≡ numbers self.old }
        ensures stands { IfOk result (λ _. stands self.new config.now [] []) };

    /// Runs the records of a phase, and appends their text. They are those that lines can write
    /// under the settings, and no more than a trace and a history have room for, with those before
    /// them. `AllocError`: there is no memory; then it is not used again.
    fn run<T: Threads + Wait + Sync>(
        &mut self,
        rt: &T,
        records: &[TraceRecord],
        text: &mut Vec<u8>,
    ) -> Result<(), AllocError>
        requires sync { IsSync T.row }
        requires fits { (c : Settings) × (phases : List (List Record)) × (was : List ℕ)
            × stands self.old c phases was × MayRun c phases (entered_all records.now) }
        ensures same { numbers self.new ≡ numbers self.old }
        ensures ran { (c : Settings) (phases : List (List Record)) (was : List ℕ)
            → stands self.old c phases was
            → OnOk result (RanPhase (stands self.new) (gave (numbers self.new)) c phases
            (entered_all records.now) was text.old.items text.new.items) };
}
