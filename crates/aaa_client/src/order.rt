//! Which session has which request: an index, so that no request is read that is not wanted.
ghost use Rattle.std.specs.Prelude.{◌≡◌, ◌==◌, ◌+◌, ◌<◌, ◌≤◌, [], ◌∷◌, not, length, filter, find, IfSome, None};
ghost use Rattle.std.specs.List.{AllByRecursion};
ghost use Rattle.std.specs.Option.{option_map};
ghost use Rattle.aaa_defs.specs.declared.TheConstants.{NAMES, MOST_WAITING};
ghost use Rattle.aaa_defs.specs.Waits.{placed};
ghost use Rattle.aaa_client.specs.Order.{Rising, below, session_of};

use aaa_defs::MOST_WAITING;
use arrayvec::ArrayVec;
use std::marker::Model;

// A session, and the name of its request.
#[derive(Clone, Copy, Debug, Default, PartialEq, Eq)]
pub(crate) struct Entry {
    pub(crate) session: u32,
    pub(crate) name: u16,
}

// The sessions that have a request, in rising order.
#[derive(Drop)]
pub(crate) struct Order {
    entries: ArrayVec<Entry, MOST_WAITING>,
}

impl Model for Order {
    ghost use Rattle.std.specs.Prelude.{List};
    ghost use Rattle.aaa_client.specs.declared.order.Entry.{Entry};

    ghost Value = { List Entry };

    ghost use Rattle.aaa_client.specs.Order.{IsOrder};

    ghost view = { λ o. o.entries.items };

    ghost invariant = { λ o. IsOrder o.entries.items };
}

impl Order {
    pub(crate) fn new() -> Order
        ensures { result ≡ [] }
    {
        Order {
            entries: ArrayVec::new(),
        }
    }

    pub(crate) fn clear(&mut self)
        ensures { self.new ≡ [] }
    {
        self.entries.clear();
    }

    // The name of the session's request.
    pub(crate) fn find(&self, session: u32) -> Option<u16>
        ensures found { result ≡ option_map (λ e. e.name) (find (λ e. e.session == session) self.now) }
        ensures rising { Rising self.now }
        ensures small { IfSome result (λ name. name < NAMES) }
        ensures few { length self.now ≤ MOST_WAITING }
    {
        let at = place_of(self.entries.as_slice(), session);
        match self.entries.get(at) {
            Some(entry) if entry.session == session => Some(entry.name),
            _ => None,
        }
    }

    // Adds a session that has no request yet.
    pub(crate) fn insert(&mut self, session: u32, name: u16)
        requires room { length self.old < MOST_WAITING }
        requires new { find (λ e. e.session == session) self.old ≡ None }
        requires small { name < NAMES }
        ensures { self.new ≡ placed (λ e. e.session) (record { session = session; name = name }) self.old }
    {
        let at = place_of(self.entries.as_slice(), session);
        self.entries.insert(at, Entry { session, name });
    }

    // Takes the session out, where it is there.
    pub(crate) fn remove(&mut self, session: u32)
        ensures { self.new ≡ filter (λ e. not (e.session == session)) self.old }
    {
        let at = place_of(self.entries.as_slice(), session);
        let Some(entry) = self.entries.get(at) else {
            return;
        };
        if entry.session != session {
            return;
        }
        let _entry = self.entries.remove(at);
    }

    // The same sessions as in the other.
    pub(crate) fn copy_from(&mut self, other: &Order)
        ensures { self.new ≡ other.now }
    {
        self.entries.clear();
        let _fits = self.entries.try_extend_from_slice(other.entries.as_slice());
    }

    pub(crate) fn entries(&self) -> &[Entry]
        ensures value { result.now ≡ self.now }
        ensures small { AllByRecursion (λ e. e.name < NAMES) result.now }
        ensures few { length result.now ≤ MOST_WAITING }
    {
        self.entries.as_slice()
    }
}

// How many entries stand before the place of a session.
fn place_of(entries: &[Entry], session: u32) -> usize
    requires { Rising entries.now }
    ensures place { result ≡ below session_of session entries.now }
    ensures within { result ≤ length entries.now }
{
    entries.partition_point(|e| e.session < session)
}
