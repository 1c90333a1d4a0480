ghost use Rattle.std.specs.Prelude.{◌≡◌, ◌≢◌, ◌+◌, ◌≤◌, ◌∷◌, ◌++◌, [], length, slice_get, OnOk, OnErr, IfOk, IfErr, IfSome, IsSome, Some, None};
ghost use Rattle.std.specs.Option.{option_map};
ghost use Rattle.event_record.specs.Entry.{entry_of};
ghost use Rattle.auth_journal.specs.Journal.{entry_shown, Refuses};

use event_record::{Entry, MOST_EVENTS};
use std::alloc::{AllocError, Global};
use std::marker::Model;
use switch_event::Event;
use thiserror::Error;

/// Why an event was not staged.
#[derive(Debug, Drop, Error)]
pub enum JournalErr {
    /// The journal has this many events, and takes no more.
    #[error("the journal has {events} events and takes no more")]
    Full { events: u64 },
    /// There was no memory.
    #[error("no memory")]
    NoMemory,
}

/// The accepted events in their order, and at most one that may come next. Contracts see both.
#[derive(Drop)]
pub struct Journal {
    entries: Vec<Entry>,
    /// There is room for it behind the others.
    staged: Option<Entry>,
    alloc: Global,
}

impl Model for Journal {
    ghost use Rattle.std.specs.Prelude.{◌≡◌, ◌≤◌, ◌<◌, IsSome, length, vec_capacity};
    ghost use Rattle.event_record.specs.declared.TheConstants.{MOST_EVENTS};
    ghost use Rattle.auth_journal.specs.Journal as journal;

    ghost Value = { journal.Journal };

    ghost view = { λ j. record { list = j.entries.items; staged = j.staged } };

    ghost invariant = { λ j. (length j.entries.items ≤ MOST_EVENTS)
        × (IsSome j.staged → (length j.entries.items < MOST_EVENTS)
        × (length j.entries.items < vec_capacity j.entries)) };
}

impl Journal {
    /// A journal with no event, and none staged.
    pub fn open(alloc: Global) -> Result<Journal, AllocError>
        ensures { IfOk result (λ j. (j.list ≡ []) × (j.staged ≡ None)) }
    {
        Ok(Journal {
            entries: Vec::new(alloc),
            staged: None,
            alloc,
        })
    }

    /// Stages an event, with a copy of its octets, in place of the one that was staged. The list
    /// stays. The journal is full exactly where it has `MOST_EVENTS` events; it then is as before.
    /// Where there is no memory, nothing is staged.
    pub fn stage(&mut self, lane: u8, event: &Event<'_>) -> Result<(), JournalErr>
        ensures list { self.new.list ≡ self.old.list }
        ensures staged { OnOk result (self.new.staged ≡ Some (entry_of lane event.now)) }
        ensures room { OnOk result (length self.old.list ≢ MOST_EVENTS) }
        ensures refused { IfErr result (λ e. Refuses self.old self.new e) }
    {
        if self.entries.len() == MOST_EVENTS {
            return Err(JournalErr::Full {
                events: MOST_EVENTS as u64,
            });
        }
        self.staged = None;
        self.entries.reserve(1).map_err(|_| JournalErr::NoMemory)?;
        let entry = Entry::of(self.alloc, lane, event).map_err(|_| JournalErr::NoMemory)?;
        self.staged = Some(entry);
        Ok(())
    }

    /// Appends the staged event, and answers its number, from 0. It takes no memory.
    pub fn commit(&mut self) -> u64
        requires { IsSome self.old.staged }
        ensures list { IfSome self.old.staged (λ e. self.new.list ≡ self.old.list ++ e ∷ []) }
        ensures staged { self.new.staged ≡ None }
        ensures number { result ≡ length self.old.list }
    {
        let number = self.entries.len() as u64;
        if let Some(entry) = self.staged.take() {
            self.entries.push_reserved(entry);
        }
        number
    }

    /// How many events the list has.
    pub fn len(&self) -> u64
        ensures { result ≡ length self.now.list }
    {
        self.entries.len() as u64
    }

    /// The event of this number with its lane, where the list has so many.
    pub fn entry(&self, number: u64) -> Option<(u8, Event<'_>)>
        ensures { option_map entry_shown result ≡ slice_get self.now.list number }
    {
        let entry = self.entries.get(number as usize)?;
        Some((entry.lane(), entry.event()))
    }
}
