// A run that counts the records of a trace.
ghost use Rattle.std.specs.Prelude.{◌≡◌, ◌≤◌, ◌<◌, ◌+◌, ◌++◌, ◌∷◌, ◌^◌, [], length, codes};
ghost use Rattle.std.specs.List.{concat};
ghost use Rattle.std.specs.Fmt.{decimal};
ghost use Rattle.wire_defs.specs.Outside.{Rose};
ghost use Rattle.switch_event.specs.Config.{empty};
ghost use Rattle.event_record.specs.declared.TheConstants.{MOST_EVENTS};
ghost use Rattle.trace_defs.specs.Output.{line_feed};
ghost use Rattle.race_run.specs.declared.ending.Ending.TheVariants.{ReadFault, WriteFault};
ghost use Rattle.race_run.specs.Counts.{CountEnds};

use crate::counter::Counter;
use crate::ending::Ending;
use crate::run::run_within;
use arrayvec::ArrayVec;
use outside_core::{Failed, Sink, Source};
use outside_text::write_whole;
use std::alloc::Global;
use std::sync::Wait;
use std::thread::Threads;
use wire_core::append;

/// Reads a trace of at most `limit` octets and `room` control records, runs none, and writes `ok`,
/// how many records there were, how many of them were control records, and a line feed. Where it
/// ends otherwise, nothing is written, and after a write fault a part of that line.
pub fn check_within<T: Threads + Wait + Sync, S: Source, K: Sink>(
    rt: &T,
    alloc: Global,
    limit: usize,
    room: u64,
    source: &mut S,
    out: &mut K,
) -> Ending
    requires limit { limit < 2 ^ 62 }
    requires room { room ≤ MOST_EVENTS }
    ensures ends { CountEnds limit room empty (S.left source.old) (S.left source.new)
        (K.taken out.old) (K.taken out.new) result }
    ensures read { result ≡ ReadFault → Rose (S.faults source.old) (S.faults source.new) }
    ensures write { result ≡ WriteFault → Rose (K.faults out.old) (K.faults out.new) }
    ensures later { (S.faults source.old ≤ S.faults source.new)
        × (K.faults out.old ≤ K.faults out.new) }
{
    let mut counter = Counter::default();
    let ending = run_within(rt, alloc, limit, room, &mut counter, source, out);
    if ending != Ending::Done {
        return ending;
    }
    match write_whole(out, &counts_line(counter)) {
        Ok(()) => Ending::Done,
        Err(Failed) => Ending::WriteFault,
    }
}

// `ok RECORDS CONTROLS` and a line feed.
fn counts_line(counter: Counter) -> ArrayVec<u8, 64>
    ensures { result.items ≡ concat (codes "ok " ∷ decimal counter.records ∷ codes " "
        ∷ decimal counter.controls ∷ line_feed ∷ []) }
{
    let mut digits = itoa::Buffer::new();
    let mut line = ArrayVec::new();
    append(b"ok ", &mut line);
    append(digits.format(counter.records).as_bytes(), &mut line);
    append(b" ", &mut line);
    append(digits.format(counter.controls).as_bytes(), &mut line);
    append(b"\n", &mut line);
    line
}
