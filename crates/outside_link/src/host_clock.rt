// The clock of the host.
ghost use Rattle.std.specs.Prelude.{◌≡◌, None};
ghost use Rattle.outside_link.specs.Clock.{Tells};

use crate::Clock;
use std::time::{Clock as HostTime, SystemTime, UNIX_EPOCH};

/// The clock of the host, in whole seconds since 1970. It repeats its last moment, at first 0,
/// where the host's clock cannot be read, and tells nothing.
#[derive(Drop)]
pub struct HostClock<'a, C> {
    clock: &'a C,
    last: u64,
}

impl<'a, C: HostTime> HostClock<'a, C> {
    /// A clock over that of the host.
    pub fn new(clock: &'a C) -> Self
        ensures clock { result.clock.now ≡ clock.now }
        ensures last { result.last ≡ 0 }
    {
        HostClock { clock, last: 0 }
    }
}

impl<'a, C: HostTime> Clock for HostClock<'a, C> {
    ghost moments = { λ _. None };

    fn now(&mut self) -> u64
        ensures told { Tells None None result }
        ensures kept { self.new ≡ record self.old { last = result } }
    {
        if let Ok(time) = SystemTime::now(self.clock)
            && let Ok(since) = time.duration_since(UNIX_EPOCH)
        {
            self.last = since.as_secs();
        }
        self.last
    }
}
