//! The steps of a turn, each one atomic step of the table.
ghost use Rattle.std.specs.Prelude.{◌≡◌, ◌+◌, ◌<◌, [], ◌∷◌, ◌++◌, true, false, List, ℕ, length, Some, None, IfOk, IfErr};
ghost use Rattle.event_record.specs.Entry.{Entry, entry_of};
ghost use Rattle.book_lock.specs.declared.law.Base.{Base};
ghost use Rattle.book_lock.specs.Sums.{Each};
ghost use Rattle.book_lock.specs.Rules.{IsFree, Taken, Holds, WasAccepted, WasRefused, drawn, recorded, passed};

use crate::booked::Booked;
use crate::law::{Chair, Desk, Draws, Looks, Passes, Recording, Records, Refuses};
use event_record::MOST_EVENTS;
use out_tray::Tray;
use outside_core::{Gate, Point, Who};
use std::sync::Wait;
use std::thread;
use switch_event::Event;

fn draw<B: Booked>(desk: &Desk<B>, chair: &mut Chair<B>) -> u64
    requires table { (chair.old.table_id ≡ desk.now.table_id) × (desk.now.table_id.words ≡ 3) }
    requires free { IsFree chair.old.me.0 }
    ensures same { (chair.new.table_id ≡ chair.old.table_id) × (chair.new.id ≡ chair.old.id) }
    ensures drawn { chair.new.me ≡ (drawn result chair.old.me.0, chair.old.me.1) }
{
    desk.fetch_add::<Draws>(chair, 0, 1)
}

fn wait_and_take<B: Booked, R: Wait>(rt: &R, desk: &Desk<B>, chair: &mut Chair<B>, mine: u64) -> B
    requires table { (chair.old.table_id ≡ desk.now.table_id) × (desk.now.table_id.words ≡ 3) }
    requires ready { (chair.old.me.0.ticket ≡ Some mine) × (chair.old.me.0.turn ≡ false)
        × (0 < chair.old.me.0.parts) × (chair.old.me.1 ≡ []) }
    ensures same { (chair.new.table_id ≡ chair.old.table_id) × (chair.new.id ≡ chair.old.id) }
    ensures taken { Taken B.fixed B.list chair.old.me.0 chair.new.me result }
{
    for _ in rt.forever() {
        if desk.load::<Looks<B>>(chair, 1) == mine {
            return desk.exchange(chair, 0, None).unwrap();
        }
        thread::yield_now();
    }
    unreachable!()
}

fn record<B: Booked, J: Recording>(desk: &Desk<B>, chair: &mut Chair<B>)
    requires table { (chair.old.table_id ≡ desk.now.table_id) × (desk.now.table_id.words ≡ 3) }
    requires turn { (chair.old.me.0.turn ≡ true) × (0 < chair.old.me.0.parts) }
    requires room { length chair.old.me.0.found < MOST_EVENTS }
    ensures same { (chair.new.table_id ≡ chair.old.table_id) × (chair.new.id ≡ chair.old.id) }
    ensures recorded { chair.new.me ≡ (
      recorded J.entry
          (length chair.old.me.0.found) chair.old.me.0,
      chair.old.me.1,
    ) }
    ensures rises { Each (λ m. m.place < length chair.old.me.0.found) chair.old.me.0.entries }
{
    desk.fetch_add::<Records<J>>(chair, 2, 1);
}

fn put_back<B: Booked>(desk: &Desk<B>, chair: &mut Chair<B>, book: B)
    requires table { chair.old.table_id ≡ desk.now.table_id }
    requires empty { chair.old.me.1 ≡ (0, None) ∷ [] }
    ensures same { (chair.new.table_id ≡ chair.old.table_id) × (chair.new.id ≡ chair.old.id) }
    ensures full { chair.new.me ≡ (chair.old.me.0, (0, Some book) ∷ []) }
{
    let old = desk.exchange(chair, 0, Some(book));
    let None = old else { unreachable!() };
}

fn pass<B: Booked>(desk: &Desk<B>, chair: &mut Chair<B>)
    requires table { (chair.old.table_id ≡ desk.now.table_id) × (desk.now.table_id.words ≡ 3) }
    requires holds { Holds B.fixed B.list chair.old.me }
    ensures same { (chair.new.table_id ≡ chair.old.table_id) × (chair.new.id ≡ chair.old.id) }
    ensures passed { chair.new.me ≡ (passed chair.old.me.0.mark chair.old.me.0, []) }
{
    desk.fetch_add::<Passes>(chair, 1, 1);
}

fn pass_refused<B: Booked>(desk: &Desk<B>, chair: &mut Chair<B>)
    requires table { (chair.old.table_id ≡ desk.now.table_id) × (desk.now.table_id.words ≡ 3) }
    requires holds { Holds B.fixed B.list chair.old.me }
    ensures same { (chair.new.table_id ≡ chair.old.table_id) × (chair.new.id ≡ chair.old.id) }
    ensures passed { chair.new.me ≡ (passed (length chair.old.me.0.found) chair.old.me.0, []) }
{
    desk.fetch_add::<Refuses>(chair, 1, 1);
}

// One turn: a ticket, the book, the gate, the event, its entry if it was accepted, and the book back.
pub fn run<B: Booked, J: Recording, R: Wait, G: Gate>(
    rt: &R,
    gate: &G,
    desk: &Desk<B>,
    chair: &mut Chair<B>,
    lane: u8,
    e: &Event<'_>,
    tray: &mut Tray,
) -> Result<B::Answer, B::Refusal>
    requires table { (chair.old.table_id ≡ desk.now.table_id) × (desk.now.table_id.words ≡ 3) }
    requires free { IsFree chair.old.me.0 × (chair.old.me.1 ≡ []) }
    requires picked { entry_of lane e.now ≡ J.entry }
    requires admitted { (y : Base B.Fixed) × (chair.old.me.0.base ≡ Some y)
        × B.admits y.fixed (entry_of lane e.now) tray.old.sessions }
    ensures same { (chair.new.table_id ≡ chair.old.table_id) × (chair.new.id ≡ chair.old.id) }
    ensures tray { tray.new.sessions ≡ tray.old.sessions }
    ensures home { chair.new.me.1 ≡ [] }
    ensures accepted { IfOk result (λ a. WasAccepted B.answers B.sends (entry_of lane e.now)
        chair.old.me.0 chair.new.me.0 a tray.new.items) }
    ensures refused { IfErr result (λ r. WasRefused B.refuses
        chair.old.me.0 chair.new.me.0 r tray.new.items) }
{
    let mine = draw(desk, chair);
    let mut book = wait_and_take(rt, desk, chair, mine);
    gate.at(Who::Lane(lane), Point::Held);
    match book.control(rt, lane, e, tray) {
        Ok(answer) => {
            record::<B, J>(desk, chair);
            put_back(desk, chair, book);
            pass(desk, chair);
            Ok(answer)
        }
        Err(refusal) => {
            put_back(desk, chair, book);
            pass_refused(desk, chair);
            Err(refusal)
        }
    }
}
