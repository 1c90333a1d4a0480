//! What is locked: a book that is not finished.
ghost use Rattle.std.specs.Prelude.{◌≡◌, false};

use crate::book::{Answer, Book, BookErr};
use auth_journal::JournalErr;
use auth_publish::PublisherName;
use authenticator::Authenticator;
use book_lock::Booked;
use out_tray::Tray;
use std::sync::Wait;
use switch_event::{Config, Event};

/// What never changes of a book. No value of it is made.
pub struct Fixed {
    pub config: Config,
    pub name: PublisherName,
}

/// A book that is not finished. It is not Drop, since a book is not.
pub struct OpenBook<A: Authenticator + Drop> {
    pub book: Book<A>,
    ghost open: { book.finished ≡ false },
}

impl<A: Authenticator + Drop> OpenBook<A> {
    /// The book, which is not finished.
    pub fn into_book(self) -> Book<A>
        ensures { (result ≡ self.book) × (result.finished ≡ false) }
    {
        let Self { book } = self;
        book
    }
}

/// Since the book is not finished, no refusal is `Closed`.
impl<A: Authenticator + Drop> Booked for OpenBook<A> {
    ghost use Rattle.switch_book.specs.Locked.{fixed_of, list_of, Admits, Answers, sends, MayRefuse};

    type Fixed = Fixed;

    type Answer = Answer;

    type Refusal = JournalErr;

    ghost fixed = { λ b. fixed_of b.book };

    ghost list = { λ b. list_of b.book };

    ghost admits = { Admits };

    ghost answers = { Answers };

    ghost sends = { sends };

    ghost refuses = { λ f n r. MayRefuse n r };

    fn control<R: Wait>(
        &mut self,
        rt: &R,
        lane: u8,
        e: &Event<'_>,
        tray: &mut Tray,
    ) -> Result<Answer, JournalErr> {
        match self.book.control(rt, lane, e, tray) {
            Ok(answer) => Ok(answer),
            Err(BookErr::Full { events }) => Err(JournalErr::Full { events }),
            Err(BookErr::NoMemory) => Err(JournalErr::NoMemory),
            Err(BookErr::Closed) => unreachable!(),
        }
    }
}
