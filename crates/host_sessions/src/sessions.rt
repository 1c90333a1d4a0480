ghost use Rattle.std.specs.Prelude.{◌≡◌, IfOk};
ghost use Rattle.switch_event.specs.Config.{Config};
ghost use Rattle.switch_defs.specs.Switch.{opening};
ghost use Rattle.host_sessions.specs.Holds.{Holds};

use aaa_client::Waits;
use host_session::Session;
use session_table::{CopyFrom, Slots};
use std::alloc::{AllocError, Global};

/// All sessions, their requests that wait for an answer, and what is counted.
#[derive(Drop)]
pub struct Sessions {
    // The sessions, in rising order of their numbers.
    pub(crate) slots: Slots<Session>,
    // Their requests, at most one of each.
    pub(crate) waits: Waits,
    // How many authenticators of requests were used.
    pub(crate) asked: u64,
    // The next session's number.
    pub(crate) next: u32,
}

impl Sessions {
    /// No sessions. Only this call takes memory: about nine megabytes. `AllocError`: there is none.
    pub fn open(alloc: Global) -> Result<Sessions, AllocError>
        ensures { IfOk result (λ k. (c : Config) → Holds k (opening c)) }
    {
        let slots = Slots::open(alloc)?;
        let waits = Waits::open(alloc)?;
        Ok(Sessions {
            slots,
            waits,
            asked: 0,
            next: 1,
        })
    }

    /// Makes these equal to the others. It takes no memory.
    pub fn copy_from(&mut self, other: &Sessions)
        ensures { self.new ≡ other.now }
    {
        self.slots.copy_from(&other.slots);
        self.waits.copy_from(&other.waits);
        self.asked = other.asked;
        self.next = other.next;
    }
}
