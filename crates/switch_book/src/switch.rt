//! A book that lanes in threads of their own share.
ghost use Rattle.std.specs.Prelude.{◌≡◌, ◌≤◌, [], true, false, length, map, All, Some, IfOk, IfErr};
ghost use Rattle.switch_event.specs.Config.{is_valid};
ghost use Rattle.event_record.specs.Entry.{entry_of};
ghost use Rattle.table_defs.specs.Table.{opening_table};
ghost use Rattle.book_lock.specs.declared.law.Base.{Base};
ghost use Rattle.book_lock.specs.Sums.{total, top, gathered, lanes_up};
ghost use Rattle.book_lock.specs.Rules.{Whole};
ghost use Rattle.switch_book.specs.declared.open_book.Fixed.{Fixed};
ghost use Rattle.switch_book.specs.Book.{opened};
ghost use Rattle.switch_book.specs.Locked.{Accepted, Admits, Refused, based, fixed_of, list_of};

use crate::book::{Answer, Book};
use crate::open_book::OpenBook;
use auth_journal::JournalErr;
use auth_publish::Viewer;
use authenticator::Authenticator;
use book_lock::{BookLock, LaneSeat};
use out_tray::Tray;
use std::alloc::{AllocError, Global};
use std::sync::Wait;
use switch_event::{Config, Event};

/// A lane's right to use a switch.
pub type Lane<A> = LaneSeat<OpenBook<A>>;

/// A book under a lock. It is not Drop: end it by `close`, and the book that this gives by `Book::end`.
pub struct Switch<A: Authenticator + Drop> {
    lock: BookLock<OpenBook<A>>,
}

impl<A: Authenticator + Drop> Switch<A> {
    /// A book of these settings, which are valid, with no entry, under a lock; a seat for each of 1 to 3 lanes, which are
    /// numbered from 1 on, in order; and a viewer for each of 1 to 8 workers. It waits for nobody but where it is refused: then it ends
    /// what it had made, and nobody is inside.
    pub fn open<R: Wait>(
        rt: &R,
        alloc: Global,
        config: Config,
        workers: usize,
        lanes: usize,
    ) -> Result<(Switch<A>, Vec<Lane<A>>, Vec<Viewer>), AllocError>
        requires valid { is_valid config ≡ true }
        requires workers { (1 ≤ workers) × (workers ≤ 8) }
        requires lanes { (1 ≤ lanes) × (lanes ≤ 3) }
        ensures book { IfOk result (λ r. r.0.lock.table.shared.key.value.book
            ≡ opened config r.0.lock.table.shared.key.value.book.name) }
        ensures lane_count { IfOk result (λ r. length r.1.items ≡ lanes) }
        ensures lanes { IfOk result (λ r. map (λ s. s.lane) r.1.items ≡ lanes_up lanes) }
        ensures parts { IfOk result (λ r. total (λ s. s.chair.me.0.parts) r.1.items ≡ 3) }
        ensures seats { IfOk result (λ r. All (λ s.
            (s.chair.table_id ≡ r.0.lock.table.shared.table_id)
            × (s.chair.me.0.base ≡ Some (based r.0.lock.table.shared.key.value.book))
            × (s.chair.me.0.entries ≡ []) × (s.chair.me.0.mark ≡ 0)) r.1.items) }
        ensures worker_count { IfOk result (λ r. length r.2.items ≡ workers) }
        ensures workers { IfOk result (λ r. All (λ w.
            (w.name ≡ r.0.lock.table.shared.key.value.book.name)
            × (w.first ≡ opening_table config) × (w.list ≡ [])) r.2.items) }
    {
        let (book, all) = Book::open(rt, alloc, config, workers)?;
        match BookLock::open(alloc, OpenBook { book }, lanes) {
            Ok((lock, seats)) => Ok((Switch { lock }, seats, all)),
            Err((error, back)) => {
                back.into_book().end(rt);
                Err(error)
            }
        }
    }

    /// Waits for the lane's turn, and offers the event to the book. The answer and the tray are those that belong to the
    /// event after the history at that turn, and the place of the entry is above those of the lane's earlier ones. A refusal
    /// records nothing but how long the history then was, and clears the tray. `Full`: it had `MOST_EVENTS` entries.
    /// `NoMemory`: there was none.
    pub fn control<R: Wait>(
        &self,
        rt: &R,
        seat: &mut Lane<A>,
        e: &Event<'_>,
        tray: &mut Tray,
    ) -> Result<Answer, JournalErr>
        requires lock { seat.old.chair.table_id ≡ self.now.lock.table.shared.table_id }
        requires admitted { (y : Base Fixed) × (seat.old.chair.me.0.base ≡ Some y)
            × Admits y.fixed (entry_of seat.old.lane e.now) tray.old.sessions }
        ensures same { (seat.new.chair.table_id ≡ seat.old.chair.table_id)
            × (seat.new.lane ≡ seat.old.lane) }
        ensures tray { tray.new.sessions ≡ tray.old.sessions }
        ensures accepted { IfOk result (λ a. Accepted (entry_of seat.old.lane e.now)
            seat.old.chair.me.0 seat.new.chair.me.0 a tray.new.items) }
        ensures refused { IfErr result (λ r. Refused
            seat.old.chair.me.0 seat.new.chair.me.0 r tray.new.items) }
    {
        self.lock.turn(rt, seat, e, tray)
    }

    /// The book, where all seats are given back. What was added to its history is the entries of the seats, each once, and no
    /// refusal found a longer history. It takes no memory.
    pub fn close(self, seats: Vec<Lane<A>>) -> Book<A>
        requires lock { All (λ s. s.chair.table_id ≡ self.lock.table.shared.table_id) seats.items }
        requires parts { total (λ s. s.chair.me.0.parts) seats.items ≡ 3 }
        ensures whole { Whole fixed_of list_of (based self.lock.table.shared.key.value.book)
            (gathered (λ s. s.chair.me.0.entries) seats.items)
            (top (λ s. s.chair.me.0.mark) seats.items) result }
        ensures open { result.finished ≡ false }
    {
        let Switch { lock } = self;
        lock.close(seats).into_book()
    }
}
