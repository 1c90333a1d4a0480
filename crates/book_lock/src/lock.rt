//! The lock.
ghost use Rattle.std.specs.Prelude.{◌≡◌, ◌+◌, ◌<◌, ◌≤◌, [], ◌∷◌, ◌++◌, List, ℕ, length, map, vec_capacity, All, Some, IfOk, IfErr};
ghost use Rattle.event_record.specs.Entry.{Entry, entry_of};
ghost use Rattle.book_lock.specs.declared.law.Base.{Base};
ghost use Rattle.book_lock.specs.Sums.{total, top, gathered, Each, lanes_up};
ghost use Rattle.book_lock.specs.Places.{Stands, times_at};
ghost use Rattle.book_lock.specs.Rules.{base_of, IsFree, Whole, opened, WasAccepted, WasRefused};

use crate::booked::Booked;
use crate::law::{Chair, Cuts, Desk, Joins, Law, Turns};
use crate::steps::run;
use atomic_table::{Refused, Table};
use out_tray::Tray;
use outside_core::{Gate, NoGate};
use std::alloc::{AllocError, AllocFailed, Global};
use std::marker::Brand;
use std::snapshot::Snapshot;
use std::sync::Wait;
use switch_event::Event;

/// A lock round a book. It is not Drop: end it by `close`.
pub struct BookLock<B: Booked> {
    table: Table<Option<B>, Turns<<B as Booked>::Fixed>, Snapshot<B>, Law<B>, Global>,
    ghost sized: { (table.shared.table_id.words ≡ 3) × (table.shared.table_id.slots ≡ 1) },
}

/// A lane's right to use the book. It is not Drop, since a drop of it asks one of the book: give it
/// to `close`.
pub struct LaneSeat<B: Booked> {
    chair: Chair<B>,
    pub lane: u8,
    ghost free: { IsFree chair.me.0 × (chair.me.1 ≡ []) },
}

impl<B: Booked> BookLock<B> {
    /// A lock round the book, and a seat for each of 1 to 3 lanes, which are numbered from 1 on, in
    /// order. The book comes back as it was where there is no memory.
    pub fn open(
        alloc: Global,
        book: B,
        lanes: usize,
    ) -> Result<(BookLock<B>, Vec<LaneSeat<B>>), (AllocError, B)>
        requires { (1 ≤ lanes) × (lanes ≤ 3) }
        ensures key { IfOk result (λ r. r.0.table.shared.key.value ≡ book) }
        ensures count { IfOk result (λ r. length r.1.items ≡ lanes) }
        ensures lanes { IfOk result (λ r. map (λ s. s.lane) r.1.items ≡ lanes_up lanes) }
        ensures parts { IfOk result (λ r. total (λ s. s.chair.me.0.parts) r.1.items ≡ 3) }
        ensures seats { IfOk result (λ r. All (λ s. (s.chair.table_id ≡ r.0.table.shared.table_id)
            × (s.chair.me.0.base ≡ Some (base_of B.fixed B.list book)) × (s.chair.me.0.entries ≡ [])
            × (s.chair.me.0.mark ≡ 0)) r.1.items) }
        ensures back { IfErr result (λ e. e.1 ≡ book) }
    {
        let about = Snapshot::of(&book);
        let mut seats = match Vec::with_capacity(alloc, lanes) {
            Ok(seats) => seats,
            Err(_) => return Err((AllocError, book)),
        };
        let mut slots = Vec::new(alloc);
        if let Err(failed) = slots.push(Some(book)) {
            let AllocFailed { value } = failed;
            slots.destroy_empty();
            seats.destroy_empty();
            return Err((AllocError, value.unwrap()));
        }
        match Table::new(alloc, &[0, 0, 0], slots, &about) {
            Ok((table, chair)) => {
                deal(&table.shared, chair, &mut seats, lanes as u8);
                Ok((BookLock { table }, seats))
            }
            Err(refused) => {
                let Refused { mut slots } = refused;
                let book = slots.pop().unwrap().unwrap();
                slots.destroy_empty();
                seats.destroy_empty();
                Err((AllocError, book))
            }
        }
    }

    /// Waits for the lane's turn, and offers the event to the book. The answer and the tray are
    /// those that belong to the event after the list at that turn, and the place of the entry is
    /// above those of the lane's earlier ones. A refusal records nothing but how long the list then
    /// was, and clears the tray.
    pub fn turn<R: Wait>(
        &self,
        rt: &R,
        seat: &mut LaneSeat<B>,
        e: &Event<'_>,
        tray: &mut Tray,
    ) -> Result<B::Answer, B::Refusal>
        requires lock { seat.old.chair.table_id ≡ self.now.table.shared.table_id }
        requires admitted { (y : Base B.Fixed) × (seat.old.chair.me.0.base ≡ Some y)
            × B.admits y.fixed (entry_of seat.old.lane e.now) tray.old.sessions }
        ensures same { (seat.new.chair.table_id ≡ seat.old.chair.table_id)
            × (seat.new.lane ≡ seat.old.lane) }
        ensures tray { tray.new.sessions ≡ tray.old.sessions }
        ensures accepted { IfOk result (λ a. WasAccepted B.answers B.sends
            (entry_of seat.old.lane e.now) seat.old.chair.me.0 seat.new.chair.me.0 a tray.new.items) }
        ensures refused { IfErr result (λ r. WasRefused B.refuses
            seat.old.chair.me.0 seat.new.chair.me.0 r tray.new.items) }
    {
        self.turn_at(rt, &NoGate, seat, e, tray)
    }

    /// As `turn`, and the gate is called by the lane at Held, while it holds the book.
    pub fn turn_at<R: Wait, G: Gate>(
        &self,
        rt: &R,
        gate: &G,
        seat: &mut LaneSeat<B>,
        e: &Event<'_>,
        tray: &mut Tray,
    ) -> Result<B::Answer, B::Refusal>
        requires lock { seat.old.chair.table_id ≡ self.now.table.shared.table_id }
        requires admitted { (y : Base B.Fixed) × (seat.old.chair.me.0.base ≡ Some y)
            × B.admits y.fixed (entry_of seat.old.lane e.now) tray.old.sessions }
        ensures same { (seat.new.chair.table_id ≡ seat.old.chair.table_id)
            × (seat.new.lane ≡ seat.old.lane) }
        ensures tray { tray.new.sessions ≡ tray.old.sessions }
        ensures accepted { IfOk result (λ a. WasAccepted B.answers B.sends
            (entry_of seat.old.lane e.now) seat.old.chair.me.0 seat.new.chair.me.0 a tray.new.items) }
        ensures refused { IfErr result (λ r. WasRefused B.refuses
            seat.old.chair.me.0 seat.new.chair.me.0 r tray.new.items) }
    {
        let lane = seat.lane;
        run::<B, Brand, R, G>(rt, gate, &self.table.shared, &mut seat.chair, lane, e, tray)
    }

    /// The book, where all seats are given back. What was added to its list is the entries of the
    /// seats, each once, and no refusal found a longer list. It takes no memory.
    pub fn close(self, seats: Vec<LaneSeat<B>>) -> B
        requires lock { All (λ s. s.chair.table_id ≡ self.table.shared.table_id) seats.items }
        requires parts { total (λ s. s.chair.me.0.parts) seats.items ≡ 3 }
        ensures { Whole B.fixed B.list (base_of B.fixed B.list self.table.shared.key.value)
            (gathered (λ s. s.chair.me.0.entries) seats.items) (top (λ s.
            s.chair.me.0.mark) seats.items) result }
    {
        let BookLock { table } = self;
        let chair = gather(&table.shared, seats);
        let mut closed = table.close_with(chair);
        let book = closed.take(0).unwrap();
        closed.free();
        book
    }
}

// A seat for each lane. The last one keeps the parts that are left.
fn deal<B: Booked>(desk: &Desk<B>, mut chair: Chair<B>, seats: &mut Vec<LaneSeat<B>>, lanes: u8)
    requires table { (chair.table_id ≡ desk.now.table_id) × (desk.now.table_id.words ≡ 3) }
    requires first { chair.me ≡ (opened (base_of B.fixed B.list desk.now.key.value), []) }
    requires lanes { (1 ≤ lanes) × (lanes ≤ 3) }
    requires room { (seats.old.items ≡ []) × (lanes ≤ vec_capacity seats.old) }
    ensures count { length seats.new.items ≡ lanes }
    ensures lanes { map (λ s. s.lane) seats.new.items ≡ lanes_up lanes }
    ensures parts { total (λ s. s.chair.me.0.parts) seats.new.items ≡ 3 }
    ensures seats { All (λ s. (s.chair.table_id ≡ desk.now.table_id)
        × (s.chair.me.0.base ≡ Some (base_of B.fixed B.list desk.now.key.value))
        × (s.chair.me.0.entries ≡ []) × (s.chair.me.0.mark ≡ 0)) seats.new.items }
{
    for lane in 1..lanes {
        let part = desk.split_seat::<Cuts>(&mut chair);
        seats.push_reserved(seat_of(part, lane));
    }
    seats.push_reserved(seat_of(chair, lanes));
}

fn seat_of<B: Booked>(chair: Chair<B>, lane: u8) -> LaneSeat<B>
    requires free { IsFree chair.me.0 × (chair.me.1 ≡ []) }
    ensures { (result.chair ≡ chair) × (result.lane ≡ lane) }
{
    LaneSeat { chair, lane }
}

// The seats in one, whose entries are theirs.
fn gather<B: Booked>(desk: &Desk<B>, mut seats: Vec<LaneSeat<B>>) -> Chair<B>
    requires table { desk.now.table_id.words ≡ 3 }
    requires lock { All (λ s. s.chair.table_id ≡ desk.now.table_id) seats.items }
    requires parts { total (λ s. s.chair.me.0.parts) seats.items ≡ 3 }
    ensures table { result.table_id ≡ desk.now.table_id }
    ensures free { IsFree result.me.0 × (result.me.1 ≡ []) }
    ensures parts { result.me.0.parts ≡ 3 }
    ensures times { (p : ℕ) → times_at p (gathered (λ s.
        s.chair.me.0.entries) seats.items) ≡ times_at p result.me.0.entries }
    ensures stand { (log : List Entry) → Each (Stands log) result.me.0.entries
        → Each (Stands log) (gathered (λ s. s.chair.me.0.entries) seats.items) }
    ensures mark { result.me.0.mark ≡ top (λ s. s.chair.me.0.mark) seats.items }
{
    let mut chair = seats.pop().unwrap().into_chair();
    while let Some(seat) = seats.pop() {
        desk.join_seat::<Joins>(&mut chair, seat.into_chair());
    }
    seats.destroy_empty();
    chair
}

impl<B: Booked> LaneSeat<B> {
    fn into_chair(self) -> Chair<B>
        ensures same { result ≡ self.chair }
        ensures free { IsFree result.me.0 × (result.me.1 ≡ []) }
    {
        let Self { chair, lane: _ } = self;
        chair
    }
}
