//! Where sessions are kept. A place stays a session's own until it is closed.

ghost use Rattle.std.specs.Prelude.{◌≡◌, ◌≤◌, length, slice_get};
ghost use Rattle.switch_defs.specs.Switch.{State, session_at, session_numbered};
ghost use Rattle.switch_defs.specs.Turn.{on_port_of};
ghost use Rattle.host_sessions.specs.Holds.{Holds};
ghost use Rattle.host_sessions.specs.Finds.{FindsAt, place_if};

use crate::sessions::Sessions;
use wire_core::Mac;

impl Sessions {
    /// How many sessions there are, 960 at most.
    pub fn len(&self) -> usize
        ensures count { (s : State) → Holds self.now s → result ≡ length s.sessions }
        ensures few { result ≤ 960 }
    {
        self.slots.len()
    }

    /// How many sessions a port has, 16 at most.
    pub fn count(&self, port: u8) -> usize
        ensures count { (s : State) → Holds self.now s → result ≡ length (on_port_of port s) }
        ensures most { result ≤ 16 }
    {
        self.slots.count(port)
    }

    /// The place of the session of a host of a port; none exactly where it has none. Only the places of
    /// the port are looked at.
    pub fn find(&self, port: u8, mac: Mac) -> Option<usize>
        ensures { (s : State) → Holds self.now s →
            FindsAt result (session_at port mac.0 s) self.now s }
    {
        self.slots.find(port, mac)
    }

    /// The place of the n-th session in rising order of numbers, counted from 0; none exactly where
    /// there are no more.
    pub fn place_at(&self, n: usize) -> Option<usize>
        ensures { (s : State) → Holds self.now s →
            FindsAt result (slice_get s.sessions n) self.now s }
    {
        self.slots.place_at(n)
    }

    /// The place of the session with a number; none exactly where there is none. It may look at all.
    pub fn numbered(&self, number: u32) -> Option<usize>
        ensures { (s : State) → Holds self.now s →
            FindsAt result (session_numbered number s) self.now s }
    {
        for n in 0..self.slots.len() {
            if let Some(at) = self.place_if(n, number) {
                return Some(at);
            }
        }
        None
    }

    // The place of the n-th session, where it has the number.
    fn place_if(&self, n: usize, number: u32) -> Option<usize>
        ensures { result ≡ place_if number n self.now.slots }
    {
        let at = self.slots.place_at(n)?;
        if self.slots.get(at)?.number == number {
            Some(at)
        } else {
            None
        }
    }
}
