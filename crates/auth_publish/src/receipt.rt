//! The history of the published changes, of which the code keeps only how long it is, and receipts
//! of it.
ghost use Rattle.std.specs.Prelude.{◌≡◌, ◌<◌, ◌≤◌, ◌⊎◌, [], ◌∷◌, ◌++◌, true, length, MatchBool, IfSome};
ghost use mathlib.Core.List.{IsPrefix};
ghost use Rattle.auth_publish.specs.Changes.{is_open, front_of, weight};
ghost use Rattle.auth_publish.specs.History.{head_of};

use crate::change::Posted;
use event_record::MOST_EVENTS;
use logbook::{Gain, Offer, Plain, Play, Rule, Seen, Start, Word};
use std::marker::Model;

/// The rule of the history.
pub struct History;

impl Rule<Posted, u64> for History {
    ghost use Rattle.std.specs.Prelude.{[]};
    ghost use base.Fml.{ftrue};
    ghost use Rattle.auth_publish.specs.History.{IsKept};

    ghost holds = { λ cells log. IsKept cells log };

    ghost first = { [] };

    ghost hinted = { λ n log. Unit {0} };

    ghost shows = { λ log. [] };

    ghost keeps = { λ names log. ftrue };

    ghost moves = { λ ask before after answer. Unit {0} };
}

/// Callers trade nothing.
pub struct Nothing;

impl Gain<Posted, u64> for Nothing {
    ghost use base.Fml.{ftrue};

    ghost after = { λ names about answer. ftrue };
}

/// A step that adds a change.
pub struct Add;

impl Play<Posted, u64> for Add {
    ghost use Rattle.auth_publish.specs.History.{Adds};

    ghost then = { Adds };
}

impl Plain<Posted, Posted, u64> for Add {
    ghost use Rattle.std.specs.Prelude.{None};

    ghost ask = { λ change. change };

    ghost state = { λ change. None };
}

/// How long the history is.
pub(crate) type Head = Word<Posted, u64, History>;

/// That a list of changes was published. Contracts see whose list it is, and the list.
#[derive(Drop)]
pub struct Receipt {
    /// How many changes the list has.
    changes: u64,
    /// How many of them are no Finish.
    front: u64,
    seen: Seen<Posted, u64, History>,
}

impl Model for Receipt {
    ghost use Rattle.std.specs.Prelude.{◌≡◌, length};
    ghost use Rattle.auth_publish.specs.Told.{Told};
    ghost use Rattle.auth_publish.specs.Changes.{front_of};

    ghost Value = { Told };

    ghost view = { λ r. record { name = r.seen.book; list = r.seen.log } };

    ghost invariant = { λ r. (r.changes ≡ length r.seen.log) × (r.front ≡ front_of r.seen.log) };
}

/// Whose changes they are, for contracts of callers. No value of it is made.
pub struct PublisherName {
    seen: Seen<Posted, u64, History>,
}

impl Model for PublisherName {
    ghost use Rattle.logbook.specs.Pages.{Book};

    ghost Value = { Book };

    ghost view = { λ n. n.seen.book };
}

// A new history, without a change.
pub(crate) fn begin() -> (Head, Receipt)
    ensures head { result.0 ≡ head_of result.1.name }
    ensures empty { result.1.list ≡ [] }
{
    let (seen, mut pen, _second) = Seen::open(Start::alone(), 0, 0);
    let head = Word::tracked(0, &mut pen);
    let receipt = Receipt {
        changes: 0,
        front: 0,
        seen,
    };
    (head, receipt)
}

// What a change adds to the front.
fn weight_of(change: &Posted) -> u64
    ensures { result ≡ weight change.now }
{
    if change.is_finish() { 0 } else { 1 }
}

impl Receipt {
    /// The number of changes in the list without Finish.
    pub fn count(&self) -> u64
        ensures { result ≡ front_of self.now.list }
    {
        self.front
    }

    // Another one of the same list.
    pub(crate) fn again(&self) -> Receipt
        ensures { result ≡ self.now }
    {
        Receipt {
            changes: self.changes,
            front: self.front,
            seen: self.seen.again(),
        }
    }

    // Whether the other list begins with this one. Of two lists of one history one begins with the
    // other.
    pub(crate) fn begins(&self, other: &Receipt) -> bool
        requires { other.now.name ≡ self.now.name }
        ensures { MatchBool result (IsPrefix self.now.list other.now.list)
            (IsPrefix other.now.list self.now.list) }
    {
        let mut both = self.seen.again();
        both.learn(&other.seen);
        self.changes <= other.changes
    }

    // The longer of the two, which begins with the other.
    pub(crate) fn longer(self, other: Receipt) -> Receipt
        requires { other.name ≡ self.name }
        ensures one { (result ≡ self) ⊎ (result ≡ other) }
        ensures this { IsPrefix self.list result.list }
        ensures that { IsPrefix other.list result.list }
    {
        if self.begins(&other) { other } else { self }
    }

    // A receipt of this list and one more change. The history has the change from then on, so this
    // comes once for a list.
    pub(crate) fn add(&self, head: &Head, change: &Posted) -> Option<Receipt>
        requires head { head.now ≡ head_of self.now.name }
        requires open { is_open self.now.list ≡ true }
        requires room { front_of self.now.list ≤ MOST_EVENTS }
        ensures { IfSome result (λ r.
            r ≡ record { name = self.now.name; list = self.now.list ++ change.now ∷ [] }) }
    {
        let mut seen = self.seen.again();
        let mut offer: Offer<Posted, u64, History, Nothing> = seen.plain::<Nothing, Posted, Add>(
            change,
        );
        let mut pen = seen.no_pen();
        let changes = self.changes;
        let found = head.compare_exchange::<Add, Nothing>(
            changes,
            changes + 1,
            &mut seen,
            &mut offer,
            &mut pen,
        );
        if found != changes {
            return None;
        }
        Some(Receipt {
            changes: changes + 1,
            front: self.front + weight_of(change),
            seen,
        })
    }
}
