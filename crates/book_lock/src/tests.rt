ghost use Rattle.std.specs.Prelude.{◌≡◌, ◌≤◌, ℕ, Some, All, length};
ghost use Rattle.event_record.specs.declared.TheConstants.{MOST_EVENTS};
ghost use Rattle.book_lock.specs.declared.law.Base.{Base};
ghost use Rattle.book_lock.specs.Sums.{total};

use crate::{BookLock, Booked, LaneSeat};
use event_record::Entry;
use out_tray::Tray;
use outside_core::{Gate, Point, Who};
use std::alloc::{AllocError, Global};
use std::sync::Wait;
use std::sync::atomic::{AtomicU64, Ordering};
use std::test::Fail;
use std::thread::{Threads, for_each_mut};
use switch_event::Event;

// How many events each lane offers.
const EACH: u8 = 200;

// How many sockets the events go round.
const SOCKETS: u8 = 5;

// A book that keeps what it is offered, and answers the number of the entry.
#[derive(Drop)]
struct Ledger {
    entries: Vec<Entry>,
    alloc: Global,
    ghost few: { length entries.items ≤ MOST_EVENTS },
}

impl Booked for Ledger {
    ghost use Rattle.std.specs.Prelude.{◌≡◌, [], length};

    type Fixed = u64;

    type Answer = u64;

    type Refusal = AllocError;

    ghost fixed = { λ b. 0 };

    ghost list = { λ b. b.entries.items };

    ghost admits = { λ f e sessions. Unit {0} };

    ghost answers = { λ f before e answer. answer ≡ length before };

    ghost sends = { λ f before e. [] };

    ghost refuses = { λ f n refusal. Unit {0} };

    fn control<R: Wait>(
        &mut self,
        _rt: &R,
        lane: u8,
        e: &Event<'_>,
        tray: &mut Tray,
    ) -> Result<u64, AllocError> {
        tray.clear();
        let number = self.entries.len();
        if number == event_record::MOST_EVENTS {
            return Err(AllocError);
        }
        let entry = Entry::of(self.alloc, lane, e)?;
        self.entries.push(entry)?;
        Ok(number as u64)
    }
}

// A gate that counts how often each lane holds the book.
#[derive(Drop)]
struct Held {
    lanes: [AtomicU64; 3],
}

impl Gate for Held {
    fn at(&self, who: Who, point: Point) {
        if let (Who::Lane(lane), Point::Held) = (who, point) {
            let lane = usize::from(lane.wrapping_sub(1)).min(2);
            self.lanes[lane].fetch_add(1, Ordering::SeqCst);
        }
    }
}

// Offers events, of which the sockets go round, until one is refused. Answers that do not rise are counted as wrong.
fn run<R: Wait>(
    rt: &R,
    alloc: Global,
    lock: &BookLock<Ledger>,
    gate: &Held,
    seat: &mut LaneSeat<Ledger>,
    wrong: &AtomicU64,
)
    requires lock { seat.old.chair.table_id ≡ lock.now.table.shared.table_id }
    requires based { (y : Base ℕ) × (seat.old.chair.me.0.base ≡ Some y) }
    ensures lock { seat.new.chair.table_id ≡ seat.old.chair.table_id }
    ensures parts { seat.new.chair.me.0.parts ≡ seat.old.chair.me.0.parts }
{
    let Ok(mut tray) = Tray::open(alloc, 0) else {
        wrong.fetch_add(1, Ordering::SeqCst);
        return;
    };
    let mut next = 0;
    for round in 0..EACH {
        let event = Event::Radius {
            socket: round % SOCKETS,
            octets: &[],
        };
        match lock.turn_at(rt, gate, seat, &event, &mut tray) {
            Ok(answer) => {
                if answer < next {
                    wrong.fetch_add(1, Ordering::SeqCst);
                }
                next = answer.saturating_add(1);
            }
            Err(_) => {
                wrong.fetch_add(1, Ordering::SeqCst);
            }
        }
    }
}

// All lanes at the same time.
fn run_lanes<R: Threads + Wait + Sync>(
    rt: &R,
    alloc: Global,
    lock: &BookLock<Ledger>,
    gate: &Held,
    seats: &mut [LaneSeat<Ledger>],
    wrong: &AtomicU64,
)
    requires lock { All (λ s. s.chair.table_id ≡ lock.now.table.shared.table_id) seats.old }
    requires based { All (λ s. (y : Base ℕ) × (s.chair.me.0.base ≡ Some y)) seats.old }
    requires parts { total (λ s. s.chair.me.0.parts) seats.old ≡ 3 }
    ensures lock { All (λ s. s.chair.table_id ≡ lock.now.table.shared.table_id) seats.new }
    ensures parts { total (λ s. s.chair.me.0.parts) seats.new ≡ 3 }
{
    for_each_mut(
        rt,
        seats,
        3,
        &|_: usize, seat: &mut LaneSeat<Ledger>|
            requires { (seat.now.chair.table_id ≡ lock.now.table.shared.table_id)
                × ((y : Base ℕ) × (seat.now.chair.me.0.base ≡ Some y)) }
            ensures { (seat.exit.now.chair.table_id ≡ seat.entry.now.chair.table_id)
                × (seat.exit.now.chair.me.0.parts ≡ seat.entry.now.chair.me.0.parts) }
        { run(rt, alloc, lock, gate, seat, wrong) },
    );
}

#[test]
fn three_lanes_in_threads_take_turns(rt: HostRuntime) -> Result<(), Fail> {
    let ledger = Ledger {
        entries: Vec::new(rt.alloc()),
        alloc: rt.alloc(),
    };
    let Ok((lock, mut seats)) = BookLock::open(rt.alloc(), ledger, 3) else {
        return Err(Fail::from(AllocError));
    };
    let wrong = AtomicU64::new(0);
    let gate = Held {
        lanes: [AtomicU64::new(0), AtomicU64::new(0), AtomicU64::new(0)],
    };
    run_lanes(&rt, rt.alloc(), &lock, &gate, seats.as_mut_slice(), &wrong);
    let ledger = lock.close(seats);
    assert_eq!(rt; wrong.load(Ordering::SeqCst), 0);
    assert_eq!(rt; ledger.entries.len(), 600);
    for held in gate.lanes.iter() {
        assert_eq!(rt; held.load(Ordering::SeqCst), u64::from(EACH));
    }
    let mut rounds = [0u8; 3];
    for entry in ledger.entries.iter() {
        let lane = usize::from(entry.lane().wrapping_sub(1)).min(2);
        let due = Event::Radius {
            socket: rounds[lane] % SOCKETS,
            octets: &[],
        };
        assert_eq!(rt; entry.event(), due);
        rounds[lane] = rounds[lane].wrapping_add(1);
    }
    assert_eq!(rt; rounds, [EACH; 3]);
    Ok(())
}
