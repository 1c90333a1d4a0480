//! The book.
ghost use Rattle.std.specs.Prelude.{◌≡◌, ◌+◌, ◌≤◌, [], ◌∷◌, ◌++◌, true, false, length, All, IfOk, IfErr, OnErr};
ghost use Rattle.switch_event.specs.Config.{is_valid};
ghost use Rattle.switch_event.specs.Event.{happening};
ghost use Rattle.event_record.specs.declared.TheConstants.{MOST_EVENTS};
ghost use Rattle.event_record.specs.Entry.{entry_of};
ghost use Rattle.switch_defs.specs.History.{after};
ghost use Rattle.switch_defs.specs.Switch.{most_sessions};
ghost use Rattle.table_defs.specs.Table.{Change, Finish, opening_table};
ghost use Rattle.auth_publish.specs.Changes.{front_of};
ghost use Rattle.authenticator.specs.Meaning.{IsEvent};
ghost use Rattle.switch_book.specs.Book.{opened, IsTold, Refuses, RefusesFinish, reply_after};

use arrayvec::ArrayVec;
use auth_journal::{Journal, JournalErr};
use auth_publish::{Publisher, Receipt, Viewer, open};
use auth_table::opening;
use authenticator::Authenticator;
use out_tray::Tray;
use std::alloc::{AllocError, Global};
use std::marker::Model;
use std::sync::Wait;
use switch_event::{Config, Event, Outcome};
use table_defs::Item;
use thiserror::Error;

/// What an accepted event is answered.
#[derive(Drop)]
pub struct Answer {
    /// The number of the entry in the history, from 0.
    pub serial: u64,
    /// What became of the event.
    pub outcome: Outcome,
    /// That the entry's change is published.
    pub receipt: Receipt,
}

/// Why an event was not accepted, or a book not finished.
#[derive(Debug, Drop, Error)]
pub enum BookErr {
    /// The book was finished.
    #[error("the book was finished")]
    Closed,
    /// The history has this many events, and takes no more.
    #[error("the history has {events} events and takes no more")]
    Full { events: u64 },
    /// There was no memory.
    #[error("no memory")]
    NoMemory,
}

/// The history, what is published, and two equal authenticators: the one that turns first may be ahead of what is published,
/// and is then set back to the other. Contracts see the settings, the history and what is published; the state is that after the
/// history. What is large stands in boxes, since a lock moves the book at each turn. It is not Drop, since a publisher is not: end it
/// by `end`.
pub struct Book<A: Authenticator + Drop> {
    config: Box<Config>,
    journal: Journal,
    publisher: Publisher,
    first: Box<A>,
    second: Box<A>,
    /// What the last turn changes for those that forward frames.
    items: Box<ArrayVec<Item, 1024>>,
    finished: bool,
}

impl<A: Authenticator + Drop> Model for Book<A> {
    ghost use Rattle.switch_book.specs.Book as book;

    ghost Value = { book.Book };

    ghost view = { λ b. record {
      config = b.config.value;
      name = b.publisher.name;
      list = b.journal.list;
      published = b.publisher.list;
      finished = b.finished;
    } };

    ghost invariant = { λ b. book.IsKept A.stands A.made record {
      config = b.config.value;
      name = b.publisher.name;
      list = b.journal.list;
      published = b.publisher.list;
      finished = b.finished;
    } b.publisher.first b.first.value b.second.value };
}

impl<A: Authenticator + Drop> Book<A> {
    /// A book of these settings, which are valid, with no entry, and a viewer for each of 1 to 8 workers. It waits for nobody but where
    /// it is refused: then it ends what it had made, and nobody is inside.
    pub fn open<R: Wait>(
        rt: &R,
        alloc: Global,
        config: Config,
        workers: usize,
    ) -> Result<(Book<A>, Vec<Viewer>), AllocError>
        requires valid { is_valid config ≡ true }
        requires workers { (1 ≤ workers) × (workers ≤ 8) }
        ensures book { IfOk result (λ r. r.0 ≡ opened config r.0.name) }
        ensures count { IfOk result (λ r. length r.1.items ≡ workers) }
        ensures workers { IfOk result (λ r. All (λ w. (w.name ≡ r.0.name)
            × (w.first ≡ opening_table config) × (w.list ≡ [])) r.1.items) }
    {
        let first = Box::new(alloc, A::open(alloc, &config)?)?;
        let second = Box::new(alloc, A::open(alloc, &config)?)?;
        let items = Box::new(alloc, ArrayVec::new())?;
        let journal = Journal::open(alloc)?;
        let table = opening(&config);
        let settings = Box::new(alloc, config)?;
        let (publisher, viewers) = open(rt, alloc, table, workers)?;
        let book = Book {
            config: settings,
            journal,
            publisher,
            first,
            second,
            items,
            finished: false,
        };
        Ok((book, viewers))
    }

    /// One turn of the authenticator for an event that came on a lane: one entry more in the history, and one change more
    /// published. The answer and the tray are those of the entry's place, and the receipt has the change. A refusal leaves
    /// the history, what is published and the state as they were, and clears the tray. It may wait for workers that are inside.
    /// `Closed`: the book was finished. `Full`: it was not, and has `MOST_EVENTS` entries. `NoMemory`: there was none.
    pub fn control<R: Wait>(
        &mut self,
        rt: &R,
        lane: u8,
        e: &Event<'_>,
        tray: &mut Tray,
    ) -> Result<Answer, BookErr>
        requires event { IsEvent self.old.config (happening e.now) }
        requires room { most_sessions ≤ tray.old.sessions }
        ensures same { (self.new.config ≡ self.old.config) × (self.new.name ≡ self.old.name)
            × (self.new.finished ≡ self.old.finished) }
        ensures tray { tray.new.sessions ≡ tray.old.sessions }
        ensures open { IfOk result (λ a. self.old.finished ≡ false) }
        ensures list { IfOk result (λ a. self.new.list ≡ self.old.list ++ entry_of lane e.now ∷ []) }
        ensures published { IfOk result (λ a. (change : Change)
            × (self.new.published ≡ self.old.published ++ change ∷ [])) }
        ensures told { IsTold self.new }
        ensures few { length self.new.list ≤ MOST_EVENTS }
        ensures serial { IfOk result (λ a. a.serial ≡ length self.old.list) }
        ensures outcome { IfOk result (λ a.
            a.outcome ≡ (reply_after self.old.config self.old.list (entry_of lane e.now)).outcome) }
        ensures sent { IfOk result (λ a.
            tray.new.items ≡ (reply_after self.old.config self.old.list (entry_of lane e.now)).sent) }
        ensures receipt { IfOk result (λ a. (a.receipt.name ≡ self.new.name)
            × (a.receipt.list ≡ self.new.published)
            × (front_of a.receipt.list ≡ a.serial + 1)) }
        ensures refused { OnErr result ((self.new ≡ self.old) × (tray.new.items ≡ [])) }
        ensures cause { IfErr result (λ r. Refuses self.old.finished (length self.old.list) r) }
    {
        tray.clear();
        if self.finished {
            return Err(BookErr::Closed);
        }
        match self.journal.stage(lane, e) {
            Ok(()) => {}
            Err(JournalErr::Full { events }) => return Err(BookErr::Full { events }),
            Err(JournalErr::NoMemory) => return Err(BookErr::NoMemory),
        }
        let outcome = self.first.turn(e, tray, &mut self.items);
        let Ok(receipt) = self.publisher.post(rt, self.items.as_slice()) else {
            self.first.copy_from(&self.second);
            tray.clear();
            return Err(BookErr::NoMemory);
        };
        let serial = self.journal.commit();
        self.second.turn(e, tray, &mut self.items);
        Ok(Answer {
            serial,
            outcome,
            receipt,
        })
    }

    /// Ends the history: from then on no event is accepted, and Finish stands last in what is published. The receipt has it.
    /// It may wait for workers that are inside. `Closed`: the book was finished before. `NoMemory`: there was none. A refusal
    /// leaves all as it was.
    pub fn finish<R: Wait>(&mut self, rt: &R) -> Result<Receipt, BookErr>
        ensures finished { IfOk result (λ r. (self.old.finished ≡ false)
            × (self.new ≡ record self.old { published = self.old.published ++ Finish ∷ []; finished = true })) }
        ensures told { IsTold self.new }
        ensures receipt { IfOk result (λ r. (r.name ≡ self.new.name) × (r.list ≡ self.new.published)) }
        ensures refused { OnErr result (self.new ≡ self.old) }
        ensures cause { IfErr result (λ r. RefusesFinish self.old.finished r) }
    {
        if self.finished {
            return Err(BookErr::Closed);
        }
        match self.publisher.finish(rt) {
            Ok(receipt) => {
                self.finished = true;
                Ok(receipt)
            }
            Err(_) => Err(BookErr::NoMemory),
        }
    }

    /// A receipt of what is published now.
    pub fn receipt(&mut self) -> Receipt
        ensures same { self.new ≡ self.old }
        ensures told { IsTold self.new }
        ensures receipt { (result.name ≡ self.old.name) × (result.list ≡ self.old.published) }
    {
        self.publisher.receipt()
    }

    /// The history.
    pub fn journal(&self) -> &Journal
        ensures list { result.now.list ≡ self.now.list }
        ensures told { IsTold self.now }
    {
        &self.journal
    }

    /// How many sessions there are, 0 to 960.
    pub fn sessions(&self) -> usize
        ensures { result ≡ length (after self.now.config self.now.list).sessions }
    {
        self.first.sessions()
    }

    /// Ends it. It waits for workers that are inside. Nobody enters any more.
    pub fn end<R: Wait>(self, rt: &R) {
        let Self {
            config: _config,
            journal: _journal,
            publisher,
            first: _first,
            second: _second,
            items: _items,
            finished: _,
        } = self;
        publisher.end(rt);
    }
}
