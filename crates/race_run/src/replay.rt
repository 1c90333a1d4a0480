// A run of a trace on one thread.
ghost use Rattle.std.specs.Prelude.{◌≡◌, ◌≤◌, ◌<◌, ◌^◌};
ghost use Rattle.wire_defs.specs.Outside.{Rose};
ghost use Rattle.switch_event.specs.Config.{empty};
ghost use Rattle.event_record.specs.declared.TheConstants.{MOST_EVENTS};
ghost use Rattle.history_defs.specs.Output.{IsPlain};
ghost use Rattle.race_run.specs.declared.ending.Ending.TheVariants.{ReadFault, WriteFault};
ghost use Rattle.race_run.specs.Ending.{RunEnds};

use crate::ending::Ending;
use crate::one_thread::OneThread;
use crate::run::run_within;
use authenticator::Authenticator;
use outside_core::{Sink, Source};
use std::alloc::Global;
use std::sync::Wait;
use std::thread::Threads;

/// Reads a trace of at most `limit` octets and `room` control records, runs it on one thread, and
/// writes the blocks of each phase as it ends.
pub fn replay_within<A: Authenticator + Drop, T: Threads + Wait + Sync, S: Source, K: Sink>(
    rt: &T,
    alloc: Global,
    limit: usize,
    room: u64,
    source: &mut S,
    out: &mut K,
) -> Ending
    requires limit { limit < 2 ^ 62 }
    requires room { room ≤ MOST_EVENTS }
    ensures ends { RunEnds IsPlain IsPlain limit room empty (S.left source.old)
        (S.left source.new) (K.taken out.old) (K.taken out.new) result }
    ensures read { result ≡ ReadFault → Rose (S.faults source.old) (S.faults source.new) }
    ensures write { result ≡ WriteFault → Rose (K.faults out.old) (K.faults out.new) }
    ensures later { (S.faults source.old ≤ S.faults source.new)
        × (K.faults out.old ≤ K.faults out.new) }
{
    let mut runner = OneThread::<A>::new();
    run_within(rt, alloc, limit, room, &mut runner, source, out)
}
