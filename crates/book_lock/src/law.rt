//! What a seat knows, the rule of the lock, and its steps.
use crate::booked::Booked;
use atomic_table::{Join, Play, Seat, Shared, Split, TableRule};
use event_record::Entry;
use std::collections::LinkedList;
use std::marker::{Brand, PhantomData};
use std::snapshot::Snapshot;

/// What never changes: the book's fixed value, and its list as the lock was opened.
pub struct Base<F> {
    pub fixed: F,
    pub opening: LinkedList<Entry>,
}

/// An accepted event: its place, and the list that was found before it.
pub struct Made {
    pub place: u64,
    pub entry: Entry,
    pub before: LinkedList<Entry>,
}

/// What a seat knows. No value of it is made.
pub struct Turns<F> {
    pub parts: u64,
    pub base: Option<Base<F>>,
    pub ticket: Option<u64>,
    pub turn: bool,
    /// While it has the turn: the list that was found, after the opening list.
    pub found: LinkedList<Entry>,
    pub entries: LinkedList<Made>,
    pub mark: u64,
}

/// The rule.
pub struct Law<B> {
    of: PhantomData<B>,
}

impl<B: Booked> TableRule<Option<B>, Turns<B::Fixed>, Snapshot<B>> for Law<B> {
    ghost use Rattle.book_lock.specs.Rules.{Kept, opened, base_of};

    ghost holds = { λ key. Kept B.fixed B.list (base_of B.fixed B.list key.value) };

    ghost first = { λ key. opened (base_of B.fixed B.list key.value) };
}

pub type Desk<B> = Shared<Option<B>, Turns<<B as Booked>::Fixed>, Snapshot<B>, Law<B>>;

pub type Chair<B> = Seat<Option<B>, Turns<<B as Booked>::Fixed>>;

/// A ticket is drawn.
pub struct Draws;

impl<S, F> Play<S, Turns<F>> for Draws {
    ghost use Rattle.book_lock.specs.Rules.{Drawn};

    ghost then = { λ at me n after. Drawn me n after };
}

/// The serving word is read, and the book is taken if it is this seat's turn.
pub struct Looks<B> {
    of: PhantomData<B>,
}

impl<B: Booked> Play<Option<B>, Turns<B::Fixed>> for Looks<B> {
    ghost use Rattle.book_lock.specs.Rules.{Looked};

    ghost then = { λ at me n after. Looked B.fixed B.list me n after };
}

/// Which entry is recorded. Each call picks it.
pub trait Recording {
    ghost use Rattle.event_record.specs.Entry.{Entry};

    ghost entry: { Entry };
}

impl Recording for Brand {
    ghost use Rattle.switch_event.specs.Event.{Second};

    ghost entry = { record { lane = 0; event = Second } };
}

/// That entry is recorded.
pub struct Records<J> {
    of: PhantomData<J>,
}

impl<S, F, J: Recording> Play<S, Turns<F>> for Records<J> {
    ghost use Rattle.book_lock.specs.Rules.{Recorded};

    ghost then = { λ at me n after. Recorded J.entry me n after };
}

/// The turn ends after an accepted event.
pub struct Passes;

impl<S, F> Play<S, Turns<F>> for Passes {
    ghost use Rattle.book_lock.specs.Rules.{Passed};

    ghost then = { λ at me n after. Passed me.0.mark me after };
}

/// The turn ends after a refused event.
pub struct Refuses;

impl<S, F> Play<S, Turns<F>> for Refuses {
    ghost use Rattle.std.specs.Prelude.{length};
    ghost use Rattle.book_lock.specs.Rules.{Passed};

    ghost then = { λ at me n after. Passed (length me.0.found) me after };
}

/// A seat gives one of its parts to a new one.
pub struct Cuts;

impl<F> Split<Turns<F>> for Cuts {
    ghost use Rattle.book_lock.specs.Rules.{fewer, fresh};

    ghost left = { fewer };

    ghost right = { fresh };
}

/// A seat takes another one in.
pub struct Joins;

impl<F> Join<Turns<F>> for Joins {
    ghost use Rattle.book_lock.specs.Rules.{joined, spent};

    ghost both = { joined };

    ghost spent = { spent };
}
