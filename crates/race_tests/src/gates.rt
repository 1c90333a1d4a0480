// What the threads of a phase call, and that they are at work at the same time.
ghost use Rattle.std.specs.Prelude.{◌≤◌, ◌∷◌, [], length, IfOk};
ghost use Rattle.race_tests.specs.Simple.{AreSimple};

use control_core::Core;
use event_record::{Octets, Record, TraceRecord};
use machine_vars::Control;
use outside_core::{Gate, Point, Who};
use race_lanes::Race;
use std::alloc::{AllocError, Global};
use std::sync::Wait;
use std::sync::atomic::{AtomicU64, Ordering};
use std::test::Fail;
use std::thread::Threads;
use switch_event::{Config, PortConf};

// How often a thread at a gate looks for another: for a second or more, so that the other comes to
// run where the machine has other work to do.
const TURNS: u32 = 2_000_000_000;

fn settings() -> Config {
    let mut c = Config::empty();
    c.server.port = 1812;
    let _fits = c.secret.try_push(b's');
    let _fits = c.ports.try_push(PortConf {
        port: 1,
        native: 10,
        control: Control::Auto,
        restricted: 0,
        guest: 0,
    });
    c
}

fn second(lane: u8) -> TraceRecord
    ensures { AreSimple (result ∷ []) }
{
    TraceRecord::Control {
        lane,
        what: Record::Second,
    }
}

// A frame of one octet, which is decided on as any other.
fn frame(alloc: Global, port: u8) -> Result<TraceRecord, AllocError>
    ensures { IfOk result (λ r. AreSimple (r ∷ [])) }
{
    Ok(TraceRecord::Data {
        port,
        octets: Octets::of(alloc, &[0])?,
    })
}

// Runs the records as one phase, and ends the run.
fn run_at<T: Threads + Wait + Sync, G: Gate>(
    rt: &T,
    alloc: Global,
    gate: &G,
    lanes: u8,
    workers: usize,
    records: &[TraceRecord],
) -> Result<(), AllocError>
    requires lanes { (1 ≤ lanes) × (lanes ≤ 3) }
    requires workers { (1 ≤ workers) × (workers ≤ 8) }
    requires few { length records.now ≤ 1000 }
    requires simple { AreSimple records.now }
{
    let settings = settings();
    if !settings.valid() {
        return Err(AllocError);
    }
    let race = Race::<Core>::open(rt, alloc, settings, lanes, workers)?;
    let mut text = Vec::new(alloc);
    let race = race.phase(rt, alloc, gate, records, &mut text)?;
    race.end(rt)
}

// A gate that counts how often each lane holds the book, and how often each worker has decided.
#[derive(Drop)]
struct Counts {
    held: [AtomicU64; 3],
    decided: [AtomicU64; 2],
    others: AtomicU64,
}

impl Counts {
    fn new() -> Counts {
        Counts {
            held: [AtomicU64::new(0), AtomicU64::new(0), AtomicU64::new(0)],
            decided: [AtomicU64::new(0), AtomicU64::new(0)],
            others: AtomicU64::new(0),
        }
    }
}

impl Gate for Counts {
    fn at(&self, who: Who, point: Point) {
        let count = match (who, point) {
            (Who::Lane(1), Point::Held) => &self.held[0],
            (Who::Lane(2), Point::Held) => &self.held[1],
            (Who::Lane(3), Point::Held) => &self.held[2],
            (Who::Worker(1), Point::Decided) => &self.decided[0],
            (Who::Worker(2), Point::Decided) => &self.decided[1],
            _ => &self.others,
        };
        count.fetch_add(1, Ordering::SeqCst);
    }
}

#[test]
fn the_gate_is_called_once_for_each_record(rt: HostRuntime) -> Result<(), Fail> {
    let counts = Counts::new();
    let records = [
        second(1),
        second(2),
        frame(rt.alloc(), 1)?,
        second(3),
        frame(rt.alloc(), 2)?,
        frame(rt.alloc(), 3)?,
        second(2),
        frame(rt.alloc(), 60)?,
        second(2),
        frame(rt.alloc(), 5)?,
    ];
    run_at(&rt, rt.alloc(), &counts, 3, 2, &records)?;
    assert_eq!(rt; counts.held[0].load(Ordering::SeqCst), 1);
    assert_eq!(rt; counts.held[1].load(Ordering::SeqCst), 3);
    assert_eq!(rt; counts.held[2].load(Ordering::SeqCst), 1);
    assert_eq!(rt; counts.decided[0].load(Ordering::SeqCst), 3);
    assert_eq!(rt; counts.decided[1].load(Ordering::SeqCst), 2);
    assert_eq!(rt; counts.others.load(Ordering::SeqCst), 0);
    Ok(())
}

// Two threads that show themselves and look for each other.
#[derive(Drop)]
struct Meeting {
    shown: [AtomicU64; 2],
    seen: [AtomicU64; 2],
}

impl Meeting {
    fn new() -> Meeting {
        Meeting {
            shown: [AtomicU64::new(0), AtomicU64::new(0)],
            seen: [AtomicU64::new(0), AtomicU64::new(0)],
        }
    }

    // Shows one of the two, and looks for the other, for so many turns at most.
    fn meet(&self, first: bool) {
        let (one, other) = if first { (0, 1) } else { (1, 0) };
        self.shown[one].store(1, Ordering::SeqCst);
        for _ in 0..TURNS {
            if self.shown[other].load(Ordering::SeqCst) == 1 {
                self.seen[one].store(1, Ordering::SeqCst);
                return;
            }
        }
    }

    fn both_saw(&self) -> bool {
        self.seen[0].load(Ordering::SeqCst) == 1 && self.seen[1].load(Ordering::SeqCst) == 1
    }
}

// A lane that holds the book, and a worker that has decided.
#[derive(Drop)]
struct LaneAndWorker {
    meeting: Meeting,
}

impl Gate for LaneAndWorker {
    fn at(&self, who: Who, _point: Point) {
        self.meeting.meet(matches!(who, Who::Lane(_)));
    }
}

#[test]
fn a_worker_decides_while_a_lane_holds_the_book(rt: HostRuntime) -> Result<(), Fail> {
    let gate = LaneAndWorker {
        meeting: Meeting::new(),
    };
    let records = [second(1), frame(rt.alloc(), 1)?];
    run_at(&rt, rt.alloc(), &gate, 1, 1, &records)?;
    assert!(rt; gate.meeting.both_saw());
    Ok(())
}

// Two workers that have decided.
#[derive(Drop)]
struct TwoWorkers {
    meeting: Meeting,
}

impl Gate for TwoWorkers {
    fn at(&self, who: Who, _point: Point) {
        self.meeting.meet(who == Who::Worker(1));
    }
}

#[test]
fn two_workers_decide_at_once(rt: HostRuntime) -> Result<(), Fail> {
    let gate = TwoWorkers {
        meeting: Meeting::new(),
    };
    let records = [frame(rt.alloc(), 1)?, frame(rt.alloc(), 2)?];
    run_at(&rt, rt.alloc(), &gate, 1, 2, &records)?;
    assert!(rt; gate.meeting.both_saw());
    Ok(())
}
