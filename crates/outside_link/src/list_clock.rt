// A clock in memory.
ghost use Rattle.std.specs.Prelude.{◌≡◌, List, ℕ, Some, drop, IfOk};
ghost use Rattle.outside_link.specs.Clock.{Tells};

use crate::Clock;
use std::alloc::{AllocError, Global};
use std::marker::Model;

/// A clock in memory. Contracts see the moments that it has yet to answer.
#[derive(Drop)]
pub struct ListClock {
    moments: Vec<u64>,
    at: usize,
}

impl Model for ListClock {
    ghost Value = { List ℕ };

    ghost view = { λ s. drop s.at s.moments.items };
}

impl ListClock {
    /// A clock that answers these moments in turn.
    pub fn new(alloc: Global, moments: &[u64]) -> Result<ListClock, AllocError>
        ensures { IfOk result (λ s. s ≡ moments.now) }
    {
        Ok(ListClock {
            moments: moments.to_vec(alloc)?,
            at: 0,
        })
    }
}

impl Clock for ListClock {
    ghost moments = { λ s. Some s };

    fn now(&mut self) -> u64 {
        match &self.moments[self.at.min(self.moments.len())..] {
            [] => 0,
            [moment] => *moment,
            [moment, _, ..] => {
                let moment = *moment;
                self.at += 1;
                moment
            }
        }
    }
}
