// How lanes and workers run the phases of a trace.
ghost use Rattle.std.specs.Prelude.{◌≡◌, ◌≤◌, List, ℕ, None, IfOk, IfErr};
ghost use Rattle.switch_event.specs.Config.{Config as Settings};
ghost use Rattle.trace_defs.specs.Line.{Record};
ghost use Rattle.race_phases.specs.Raced.{HasRaced, begun_by, legal_by};

use crate::parallel::InParallel;
use authenticator::copied_config;
use control_core::Core;
use core::mem::replace;
use event_record::TraceRecord;
use outside_core::NoGate;
use race_lanes::Race;
use race_run::RunsPhases;
use std::alloc::{AllocError, Global};
use std::sync::Wait;
use std::thread::Threads;
use switch_event::Config;

impl InParallel {
    /// One that was not opened yet.
    pub fn new(alloc: Global, lanes: u8, workers: usize) -> InParallel
        requires lanes { (1 ≤ lanes) × (lanes ≤ 3) }
        requires workers { (1 ≤ workers) × (workers ≤ 8) }
        ensures numbers { (result.lanes ≡ lanes) × (result.workers ≡ workers) }
        ensures fresh { result.race ≡ None }
    {
        InParallel {
            alloc,
            lanes,
            workers,
            race: None,
        }
    }

    // The run is this one. One that was there before is ended.
    fn hold<R: Wait>(&mut self, rt: &R, race: Race<Core>)
        ensures numbers { (self.new.lanes ≡ self.old.lanes)
            × (self.new.workers ≡ self.old.workers) }
        ensures race { self.new.race ≡ Some race }
    {
        match replace(&mut self.race, Some(race)) {
            None => {}
            Some(earlier) => earlier.give_up(rt),
        }
    }

    /// Ends the run: its book is finished, and each worker learns that and enters once more.
    /// `AllocError`: there is no memory, and the run has ended all the same.
    pub fn end<R: Wait>(self, rt: &R) -> Result<(), AllocError>
        ensures legal { (c : Settings) (phases : List (List Record)) (text : List ℕ)
            → HasRaced self c phases text
            → IfOk result (λ _. legal_by self.lanes self.workers c phases text) }
        ensures begun { (c : Settings) (phases : List (List Record)) (text : List ℕ)
            → HasRaced self c phases text
            → IfErr result (λ _. begun_by self.lanes self.workers c phases text) }
    {
        let Self {
            alloc: _,
            lanes: _,
            workers: _,
            race,
        } = self;
        match race {
            Some(race) => race.end(rt),
            None => Ok(()),
        }
    }
}

impl RunsPhases for InParallel {
    ghost use Rattle.std.specs.Prelude.{◌≡◌, ◌∷◌, [], None};
    ghost use Rattle.race_phases.specs.Raced.{HasRaced, gave};

    ghost numbers = { λ p. p.lanes ∷ p.workers ∷ [] };

    ghost fresh = { λ p. p.race ≡ None };

    ghost stands = { HasRaced };

    ghost gave = { gave };

    fn open<T: Threads + Wait + Sync>(
        &mut self,
        rt: &T,
        alloc: Global,
        config: &Config,
    ) -> Result<(), AllocError> {
        let race = Race::open(rt, alloc, copied_config(config), self.lanes, self.workers)?;
        self.hold(rt, race);
        Ok(())
    }

    fn run<T: Threads + Wait + Sync>(
        &mut self,
        rt: &T,
        records: &[TraceRecord],
        text: &mut Vec<u8>,
    ) -> Result<(), AllocError> {
        let Some(race) = self.race.take() else {
            unreachable!()
        };
        let race = race.phase(rt, self.alloc, &NoGate, records, text)?;
        self.hold(rt, race);
        Ok(())
    }
}
