// The records of a trace: they are run in order, and their blocks printed.
ghost use Rattle.std.specs.Prelude.{◌≡◌, ◌<◌, ◌+◌, ◌^◌, ℕ, OnOk, OnErr};
ghost use Rattle.trace_defs.specs.Line.Record.{Control as ControlEntry, Data as DataEntry};
ghost use Rattle.event_record.specs.declared.TheConstants.{MOST_EVENTS};
ghost use Rattle.event_record.specs.Record.{event_of};
ghost use Rattle.history_defs.specs.Output.{Place};
ghost use Rattle.authenticator.specs.Meaning.{IsEvent};
ghost use Rattle.trace_defs.specs.Entered.{entered, entered_all};
ghost use Rattle.sequential.specs.Records.{Stands, Turned, Prints, Sends, PrintsAll, PrintsSome, MayRunOne, MayRunAt};

use crate::sequential::Sequential;
use arrayvec::ArrayVec;
use auth_table::{absorb, decide, write_out};
use authenticator::Authenticator;
use event_record::{Record, TraceRecord};
use std::alloc::AllocError;
use switch_event::{Decided, Outcome};
use trace_print::{print_control, print_data};

// A run on one thread has one lane.
const LANE: u8 = 1;

impl<A: Authenticator + Drop> Sequential<A> {
    /// Runs records in order, and appends their blocks to the text. They are those that may come at
    /// their places, and there is room for their numbers. `AllocError`: there is no memory; then the
    /// blocks of the first ones are appended, and it is not used again.
    pub fn run_records(
        &mut self,
        records: &[TraceRecord],
        text: &mut Vec<u8>,
    ) -> Result<(), AllocError>
        requires place { (at : Place) × Stands A.stands A.made self.old at
            × MayRunAt at (entered_all records.now) }
        ensures blocks { OnOk result
            (PrintsAll A.stands A.made self.old self.new records.now text.old.items
            text.new.items) }
        ensures short { OnErr result
            (PrintsSome A.stands A.made self.old records.now text.old.items text.new.items) }
    {
        for entry in records {
            self.run_record(entry, text)?;
        }
        Ok(())
    }

    /// Runs a record, and appends its block to the text. `AllocError`: there is no memory; then the
    /// text is as before, and it is not used again.
    pub fn run_record(&mut self, entry: &TraceRecord, text: &mut Vec<u8>) -> Result<(), AllocError>
        requires place { (at : Place) × Stands A.stands A.made self.old at
            × MayRunOne at (entered entry.now) }
        ensures block { OnOk result
            (Prints A.stands A.made self.old self.new (entered entry.now) text.old.items
            text.new.items) }
        ensures kept { OnErr result (text.new.items ≡ text.old.items) }
    {
        match entry {
            TraceRecord::Control { lane: _, what } => self.run_control(what, text),
            TraceRecord::Data { port, octets } => self.run_data(*port, octets.as_slice(), text),
        }
    }

    /// Runs a control record, and appends its block to the text, with lane 1. The tray has what is
    /// sent. `AllocError`: there is no memory for the block; then the turn is made and not counted,
    /// the text is as before, and it is not used again.
    pub fn run_control(&mut self, what: &Record, text: &mut Vec<u8>) -> Result<(), AllocError>
        requires place { (at : Place) × (lane : ℕ) × Stands A.stands A.made self.old at
            × MayRunOne at (ControlEntry lane (event_of what.now)) }
        ensures block { (lane : ℕ) → OnOk result
            (Prints A.stands A.made self.old self.new (ControlEntry lane (event_of what.now))
            text.old.items text.new.items) }
        ensures sent { Sends A.stands A.made self.old self.new (event_of what.now) }
        ensures counted { OnErr result ((self.new.number ≡ self.old.number)
            × (self.new.serial ≡ self.old.serial)) }
        ensures kept { OnErr result (text.new.items ≡ text.old.items) }
    {
        let outcome = self.turn(what);
        print_control(self.number, LANE, self.serial, &outcome, &self.tray, text)?;
        self.number += 1;
        self.serial += 1;
        Ok(())
    }

    // Makes a turn of the authenticator, and keeps the table in step with it.
    fn turn(&mut self, what: &Record) -> Outcome
        requires serial { self.old.serial < MOST_EVENTS }
        requires event { (at : Place) × Stands A.stands A.made self.old at
            × IsEvent at.state.config (event_of what.now) }
        ensures turned { (at : Place) → Stands A.stands A.made self.old at
            → Turned A.stands A.made self.new (event_of what.now) result at }
        ensures number { self.new.number ≡ self.old.number }
        ensures serial { self.new.serial ≡ self.old.serial }
    {
        let outcome = self
            .core
            .turn(&what.event(), &mut self.tray, &mut self.items);
        absorb(&mut self.table, self.items.as_slice());
        outcome
    }

    /// Runs a data record, and appends its block to the text. `AllocError`: there is no memory for
    /// the block; then all is as before.
    pub fn run_data(
        &mut self,
        port: u8,
        octets: &[u8],
        text: &mut Vec<u8>,
    ) -> Result<(), AllocError>
        requires number { self.old.number + 1 < 2 ^ 64 }
        ensures block { OnOk result
            (Prints A.stands A.made self.old self.new (DataEntry port octets.now) text.old.items
            text.new.items) }
        ensures kept { OnErr result ((self.new ≡ self.old)
            × (text.new.items ≡ text.old.items)) }
    {
        let decided = Decided {
            front: self.serial,
            decision: decide(&self.table, port, octets),
        };
        let mut tagged = ArrayVec::new();
        write_out(decided.decision, octets, &mut tagged);
        print_data(self.number, &decided, tagged.as_slice(), text)?;
        self.number += 1;
        Ok(())
    }
}
