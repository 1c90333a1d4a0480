//! A day that is run as a whole.
ghost use Rattle.std.specs.Prelude.{◌≡◌, ◌≤◌, IfOk};
ghost use Rattle.wire_defs.specs.Outside.{Rose};
ghost use Rattle.day_defs.specs.declared.TheConstants.{MOST_HOSTS};
ghost use Rattle.day_defs.specs.Day.{recorded_day};
ghost use Rattle.race_run.specs.declared.ending.Ending.TheVariants.{WriteFault};
ghost use Rattle.day_load.specs.Summary.{Sums};
ghost use Rattle.day_load.specs.Ending.{LoadEnds};

use crate::day_run::DayRun;
use crate::summary::{Summary, summary_line};
use authenticator::Authenticator;
use day_defs::{HOURS, Phase};
use outside_core::{Failed, Gate, Sink};
use outside_text::write_whole;
use race_run::Ending;
use std::alloc::{AllocError, Global};
use std::sync::Wait;
use std::thread::Threads;

/// Runs a day of 1 to 240 hosts, and writes what it came to: `load`, the number of hosts, the numbers
/// of control records, of data records, of frames that were forwarded and of sessions at the end,
/// each behind its name, and a line feed. A lane calls the gate while it holds the book, and a
/// worker when it has decided. Where there is no memory nothing is written, and after a write fault
/// a part of that line.
pub fn load_within<A, T, G, K>(rt: &T, alloc: Global, gate: &G, hosts: u8, out: &mut K) -> Ending
where
    A: Authenticator + Drop + Send + Sync,
    T: Threads + Wait + Sync,
    G: Gate,
    K: Sink,
    requires { hosts ≤ MOST_HOSTS }
    ensures ends { LoadEnds hosts (K.taken out.old) (K.taken out.new) result }
    ensures write { result ≡ WriteFault → Rose (K.faults out.old) (K.faults out.new) }
    ensures later { K.faults out.old ≤ K.faults out.new }
{
    let Ok(summary) = run_day::<A, T, G>(rt, alloc, gate, hosts) else {
        return Ending::NoMemory;
    };
    match write_whole(out, &summary_line(hosts, &summary)) {
        Ok(()) => Ending::Done,
        Err(Failed) => Ending::WriteFault,
    }
}

// Runs a day, phase by phase.
fn run_day<A, T, G>(rt: &T, alloc: Global, gate: &G, hosts: u8) -> Result<Summary, AllocError>
where
    A: Authenticator + Drop + Send + Sync,
    T: Threads + Wait + Sync,
    G: Gate,
    requires { hosts ≤ MOST_HOSTS }
    ensures { IfOk result (λ s. Sums (recorded_day hosts) s) }
{
    let mut run = DayRun::<A>::open(rt, alloc, hosts)?;
    run = run.pass(rt, alloc, gate, Phase::Arrival)?;
    for _hour in 0..HOURS {
        run = run.pass(rt, alloc, gate, Phase::Hour)?;
        run = run.pass(rt, alloc, gate, Phase::Renewal)?;
    }
    run.close(rt)
}
