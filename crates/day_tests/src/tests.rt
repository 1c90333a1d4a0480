// A day of an office, run over the authenticator, as the gate and the sink see it.
use control_core::Core;
use day_load::load_within;
use outside_core::{Gate, MemSink, Point, SureSink, Who};
use race_run::Ending;
use std::sync::atomic::{AtomicU64, Ordering};
use std::test::Fail;

// A gate that counts how often the lane holds the book, and how often a worker has decided.
#[derive(Drop)]
struct Counts {
    held: AtomicU64,
    decided: AtomicU64,
    others: AtomicU64,
}

impl Counts {
    fn new() -> Counts {
        Counts {
            held: AtomicU64::new(0),
            decided: AtomicU64::new(0),
            others: AtomicU64::new(0),
        }
    }
}

impl Gate for Counts {
    fn at(&self, who: Who, point: Point) {
        let count = match (who, point) {
            (Who::Lane(1), Point::Held) => &self.held,
            (Who::Worker(_), Point::Decided) => &self.decided,
            _ => &self.others,
        };
        count.fetch_add(1, Ordering::SeqCst);
    }
}

#[test]
fn a_day_of_120_hosts_comes_to_this(rt: HostRuntime) -> Result<(), Fail> {
    let counts = Counts::new();
    let mut out = SureSink::new(rt.alloc(), 200)?;
    let ending = load_within::<Core, _, _, _>(&rt, rt.alloc(), &counts, 120, &mut out);
    assert_eq!(rt; ending, Ending::Done);
    let line = b"load 120 controls 92580 data 31680 forwarded 31680 sessions 120\n";
    assert_eq!(rt; out.taken(), line.as_slice());
    assert_eq!(rt; counts.held.load(Ordering::SeqCst), 92_580);
    assert_eq!(rt; counts.decided.load(Ordering::SeqCst), 31_680);
    assert_eq!(rt; counts.others.load(Ordering::SeqCst), 0);
    Ok(())
}

#[test]
fn a_sink_that_fails_takes_nothing_of_the_line(rt: HostRuntime) -> Result<(), Fail> {
    let counts = Counts::new();
    let mut out = MemSink::new(rt.alloc(), 200, &[0])?;
    let ending = load_within::<Core, _, _, _>(&rt, rt.alloc(), &counts, 1, &mut out);
    assert_eq!(rt; ending, Ending::WriteFault);
    assert_eq!(rt; out.taken(), b"".as_slice());
    assert_eq!(rt; counts.held.load(Ordering::SeqCst), 86_511);
    assert_eq!(rt; counts.decided.load(Ordering::SeqCst), 264);
    Ok(())
}
