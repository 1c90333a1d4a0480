ghost use Rattle.std.specs.Prelude.{◌≡◌, IfOk};
ghost use Rattle.switch_event.specs.Event.{happening};
ghost use Rattle.event_record.specs.Entry.{entry_of};

use crate::record::Record;
use std::alloc::{AllocError, Global};
use std::marker::Model;
use switch_event::Event;

/// A control event, and the lane that it came on. Contracts see both.
#[derive(Drop)]
pub struct Entry {
    event: Record,
    lane: u8,
}

impl Model for Entry {
    ghost use Rattle.event_record.specs.Record.{event_of};
    ghost use Rattle.event_record.specs.Entry as entry;

    ghost Value = { entry.Entry };

    ghost view = { λ e. record { lane = e.lane; event = event_of e.event } };
}

impl Entry {
    /// An entry of this lane and event, with a copy of its octets.
    pub fn of(alloc: Global, lane: u8, event: &Event<'_>) -> Result<Entry, AllocError>
        ensures { IfOk result (λ e. e ≡ entry_of lane event.now) }
    {
        Ok(Entry {
            event: Record::of(alloc, event)?,
            lane,
        })
    }

    /// The lane.
    pub fn lane(&self) -> u8
        ensures { result ≡ self.now.lane }
    {
        self.lane
    }

    /// The event, with the octets that the entry owns.
    pub fn event(&self) -> Event<'_>
        ensures { happening result ≡ self.now.event }
    {
        self.event.event()
    }
}
