//! A day that runs, between two of its phases.
ghost use Rattle.std.specs.Prelude.{◌≡◌, ◌+◌, ◌≤◌, ◌++◌, ◌∷◌, [], List, ℕ, length, IfOk};
ghost use Rattle.event_record.specs.declared.TheConstants.{MOST_EVENTS};
ghost use Rattle.day_defs.specs.declared.Phase.{Phase as Which};
ghost use Rattle.day_defs.specs.declared.TheConstants.{MOST_HOSTS};
ghost use Rattle.day_defs.specs.Day.{dawn, recorded_phases};
ghost use Rattle.day_load.specs.Running.{Stands, spent};
ghost use Rattle.day_load.specs.Summary.{Sums};

use crate::count::count;
use crate::summary::Summary;
use crate::{LANES, WORKERS};
use authenticator::Authenticator;
use day_defs::Phase;
use day_maker::{DayMaker, settings};
use outside_core::Gate;
use race_lanes::Race;
use std::alloc::{AllocError, Global};
use std::sync::Wait;
use std::thread::Threads;

/// A day that runs, between two phases. It is not Drop, since a run on lanes and workers is not: end it
/// by `close`, or by `give_up` where there is no memory.
pub(crate) struct DayRun<A: Authenticator + Drop> {
    /// What makes the records, as far as they were run.
    maker: DayMaker<A>,
    /// What runs them.
    race: Race<A>,
    /// How many of them were control records, and how many data records.
    controls: u64,
    frames: u64,
}

impl<A: Authenticator + Drop> DayRun<A> {
    /// A day of so many hosts before its first phase. `AllocError`: there is no memory.
    pub fn open<T: Wait>(rt: &T, alloc: Global, hosts: u8) -> Result<DayRun<A>, AllocError>
        ensures { IfOk result (λ r. Stands A.stands A.made r hosts []) }
    {
        let maker = DayMaker::open(alloc, hosts, &settings())?;
        let race = Race::open(rt, alloc, settings(), LANES, WORKERS)?;
        Ok(DayRun {
            maker,
            race,
            controls: 0,
            frames: 0,
        })
    }

    /// The records of the next phase are made, and then run. `AllocError`: there is no memory, and the
    /// day has ended.
    pub fn pass<T, G>(
        mut self,
        rt: &T,
        alloc: Global,
        gate: &G,
        which: Phase,
    ) -> Result<DayRun<A>, AllocError>
    where
        T: Threads + Wait + Sync,
        A: Send + Sync,
        G: Gate,
        requires { (hosts : ℕ) × (done : List Which) × Stands A.stands A.made self hosts done
            × (hosts ≤ MOST_HOSTS) × (spent hosts (done ++ which ∷ []) ≤ MOST_EVENTS) }
        ensures { (hosts : ℕ) (done : List Which) → Stands A.stands A.made self hosts done
            → IfOk result (λ r. Stands A.stands A.made r hosts (done ++ which ∷ [])) }
    {
        let mut records = Vec::new(alloc);
        if let Err(error) = self.maker.phase(alloc, which, &mut records) {
            self.give_up(rt);
            return Err(error);
        }
        let Self {
            maker,
            race,
            controls,
            frames,
        } = self;
        let more = count(&records);
        let mut text = Vec::new(alloc);
        let race = race.phase(rt, alloc, gate, &records, &mut text)?;
        Ok(DayRun {
            maker,
            race,
            controls: controls + more.controls,
            frames: frames + more.frames,
        })
    }

    /// Ends the day, and tells what it came to. `AllocError`: there is no memory, and the day has ended
    /// all the same.
    pub fn close<T: Wait>(self, rt: &T) -> Result<Summary, AllocError>
        ensures { (hosts : ℕ) (done : List Which) → Stands A.stands A.made self hosts done
            → IfOk result (λ s. Sums (recorded_phases hosts dawn done) s) }
    {
        let Self {
            maker: _maker,
            race,
            controls,
            frames,
        } = self;
        let summary = Summary {
            controls,
            frames,
            forwarded: race.forwarded(),
            sessions: race.sessions(),
        };
        race.end(rt)?;
        Ok(summary)
    }

    // Ends the day where there was no memory for what comes next.
    fn give_up<T: Wait>(self, rt: &T) {
        let Self {
            maker: _maker,
            race,
            controls: _controls,
            frames: _frames,
        } = self;
        race.give_up(rt);
    }
}
