// The phases of a run: its records, and the line that ends it.
ghost use Rattle.std.specs.Prelude.{◌≡◌, ◌⊎◌, ◌≤◌, ◌<◌, ◌+◌, ◌^◌, ℕ, List, Option, OnOk, IfErr, Ok, true, false};
ghost use Rattle.switch_event.specs.Config.{is_valid};
ghost use Rattle.trace_defs.specs.Line.Line.{Begin as IsBegin, Sync as IsSyncLine};
ghost use Rattle.trace_defs.specs.Trace.{add_line};
ghost use Rattle.event_record.specs.declared.trace_record.TraceRecord.TheVariants.{Control, Data};
ghost use Rattle.race_run.specs.declared.ending.Ending.TheVariants.{NoMemory, Full as IsFull};
ghost use Rattle.race_run.specs.Ending.{HasEndingCause};
ghost use Rattle.race_run.specs.Run.{IsSound, Steps, Halts, Joins, ended, given_by};

use crate::ending::Ending;
use crate::run::Run;
use crate::runs::RunsPhases;
use event_record::TraceRecord;
use outside_core::{Failed, Sink};
use outside_text::write_whole;
use std::alloc::Global;
use std::sync::Wait;
use std::thread::Threads;
use trace_lang::{Octets, Record};

impl Run {
    /// Puts a control record into the open phase.
    pub fn enter_control(&mut self, room: u64, lane: u8, what: Record) -> Result<(), Ending>
        requires lines { self.old.lines + 1 < 2 ^ 63 }
        requires controls { self.old.controls + 1 < 2 ^ 63 }
        ensures ok { OnOk result ((self.old.controls < room)
            × Joins self.old self.new (Control lane what) (self.old.controls + 1)) }
        ensures err { IfErr result (λ e. (e ≡ NoMemory)
            ⊎ ((e ≡ IsFull) × (room ≤ self.old.controls))) }
    {
        if self.controls >= room {
            return Err(Ending::Full);
        }
        self.records.push(TraceRecord::Control { lane, what })?;
        self.controls += 1;
        self.lines += 1;
        Ok(())
    }

    /// Puts a data record into the open phase.
    pub fn enter_data(&mut self, port: u8, octets: Octets) -> Result<(), Ending>
        requires lines { self.old.lines + 1 < 2 ^ 63 }
        ensures ok { OnOk result (Joins self.old self.new (Data port octets) self.old.controls) }
        ensures err { IfErr result (λ e. e ≡ NoMemory) }
    {
        self.records.push(TraceRecord::Data { port, octets })?;
        self.lines += 1;
        Ok(())
    }

    /// Ends the settings.
    pub fn begin<T: Threads + Wait + Sync, R: RunsPhases>(
        &mut self,
        rt: &T,
        alloc: Global,
        runner: &mut R,
    ) -> Result<(), Ending>
        requires sound { IsSound R.fresh R.stands self.old runner.old }
        requires short { self.old.lines + 1 < 2 ^ 63 }
        requires unbegun { self.old.begun ≡ false }
        requires valid { is_valid self.old.config ≡ true }
        ensures ok { (room : ℕ) (taken : Option (List ℕ)) → OnOk result (Steps R.stands
            (given_by R.numbers R.gave) (λ p. add_line room p (Ok IsBegin)) taken taken
            self.old self.new runner.old runner.new) }
        ensures err { IfErr result (λ e. e ≡ NoMemory) }
        ensures sound { OnOk result (IsSound R.fresh R.stands self.new runner.new ×
            (self.new.lines ≡ self.old.lines + 1)) }
        ensures same { R.numbers runner.new ≡ R.numbers runner.old }
    {
        runner.open(rt, alloc, &self.config)?;
        self.begun = true;
        self.lines += 1;
        Ok(())
    }

    /// Ends a phase.
    pub fn sync<T: Threads + Wait + Sync, R: RunsPhases, K: Sink>(
        &mut self,
        rt: &T,
        alloc: Global,
        runner: &mut R,
        out: &mut K,
    ) -> Result<(), Ending>
        requires sound { IsSound R.fresh R.stands self.old runner.old }
        requires short { self.old.lines + 1 < 2 ^ 63 }
        requires begun { self.old.begun ≡ true }
        ensures ok { (room : ℕ) → OnOk result (Steps R.stands (given_by R.numbers R.gave)
            (λ p. add_line room p (Ok IsSyncLine)) (K.taken out.old) (K.taken out.new)
            self.old self.new runner.old runner.new) }
        ensures err { (room : ℕ) → IfErr result (λ e. Halts R.stands
            (given_by R.numbers R.gave) (λ p. add_line room p (Ok IsSyncLine)) (K.taken out.old)
            (K.taken out.new) self.old runner.old runner.new e) }
        ensures cause { HasEndingCause (K.faults out.old) (K.faults out.new) result }
        ensures sound { OnOk result (IsSound R.fresh R.stands self.new runner.new ×
            (self.new.lines ≡ self.old.lines + 1)) }
        ensures same { R.numbers runner.new ≡ R.numbers runner.old }
    {
        match self.end_phase(rt, alloc, runner, out) {
            Ok(()) => {
                self.lines += 1;
                Ok(())
            }
            Err(ending) => Err(ending),
        }
    }

    /// Runs the records of the open phase and writes their blocks.
    pub fn end_phase<T: Threads + Wait + Sync, R: RunsPhases, K: Sink>(
        &mut self,
        rt: &T,
        alloc: Global,
        runner: &mut R,
        out: &mut K,
    ) -> Result<(), Ending>
        requires sound { IsSound R.fresh R.stands self.old runner.old }
        requires short { self.old.lines + 1 < 2 ^ 63 }
        requires begun { self.old.begun ≡ true }
        ensures ok { OnOk result (Steps R.stands (given_by R.numbers R.gave)
            (λ p. Ok (ended p)) (K.taken out.old) (K.taken out.new) self.old self.new
            runner.old runner.new) }
        ensures err { IfErr result (λ e. Halts R.stands (given_by R.numbers R.gave)
            (λ p. Ok (ended p)) (K.taken out.old) (K.taken out.new) self.old
            runner.old runner.new e) }
        ensures cause { HasEndingCause (K.faults out.old) (K.faults out.new) result }
        ensures sound { OnOk result (IsSound R.fresh R.stands self.new runner.new ×
            (self.new.lines ≡ self.old.lines)) }
        ensures same { R.numbers runner.new ≡ R.numbers runner.old }
    {
        let mut text = Vec::new(alloc);
        runner.run(rt, &self.records, &mut text)?;
        match write_whole(out, &text) {
            Ok(()) => {
                self.records.clear();
                Ok(())
            }
            Err(Failed) => Err(Ending::WriteFault),
        }
    }
}
