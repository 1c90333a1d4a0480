// The authenticator on one thread as what runs the phases of a trace.
use crate::runs::RunsPhases;
use authenticator::Authenticator;
use event_record::TraceRecord;
use sequential::Sequential;
use std::alloc::{AllocError, Global};
use std::sync::Wait;
use std::thread::Threads;
use switch_event::Config;

/// Runs phases on the calling thread. Their text is the blocks of the records in order, with lane 1
/// and the serials and fronts of record order.
#[derive(Drop)]
pub struct OneThread<A> {
    /// The authenticator, once it was opened.
    pub(crate) alone: Option<Sequential<A>>,
}

impl<A: Authenticator + Drop> OneThread<A> {
    /// One that was not opened yet.
    pub fn new() -> OneThread<A> {
        OneThread { alone: None }
    }
}

impl<A: Authenticator + Drop> RunsPhases for OneThread<A> {
    ghost use Rattle.std.specs.Prelude.{[]};
    ghost use Rattle.history_defs.specs.Output.{IsPlain};
    ghost use Rattle.race_run.specs.Runners.{HasRunAlone};

    ghost numbers = { λ one. [] };

    ghost fresh = { λ one. Unit {0} };

    ghost stands = { HasRunAlone A.stands A.made };

    ghost gave = { λ none. IsPlain };

    fn open<T: Threads + Wait + Sync>(
        &mut self,
        _rt: &T,
        alloc: Global,
        config: &Config,
    ) -> Result<(), AllocError> {
        self.alone = Some(Sequential::open(alloc, config)?);
        Ok(())
    }

    fn run<T: Threads + Wait + Sync>(
        &mut self,
        _rt: &T,
        records: &[TraceRecord],
        text: &mut Vec<u8>,
    ) -> Result<(), AllocError> {
        let Some(alone) = &mut self.alone else {
            unreachable!()
        };
        alone.run_records(records, text)
    }
}
