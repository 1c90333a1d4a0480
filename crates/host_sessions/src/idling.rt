//! Seconds in which nothing falls due.

ghost use Rattle.std.specs.Prelude.{◌≡◌, true, false};
ghost use Rattle.session_table.specs.Slots.{value_at};
ghost use Rattle.switch_defs.specs.Switch as switch;
ghost use Rattle.switch_defs.specs.Switch.{State};
ghost use Rattle.switch_defs.specs.Laws.{IsBetween};
ghost use Rattle.host_sessions.specs.Holds.{Holds};
ghost use Rattle.host_sessions.specs.Finds.{IsAt};
ghost use Rattle.host_sessions.specs.Idles.{Idles, is_idle};

use crate::sessions::Sessions;

impl Sessions {
    /// A second goes by for the session at a place, where its host is let in and nothing falls due: its
    /// timers fall in place, and nothing is sent. The answer says whether it was such a second; else
    /// nothing is done, and `second` does it.
    pub fn idle(&mut self, at: usize) -> bool
        ensures idle { result ≡ is_idle (value_at at self.old.slots) }
        ensures idles { result ≡ true → (y : switch.Session) (s : State) → Holds self.old s →
            IsAt at y self.old s → IsBetween s → Idles y s self.new }
        ensures stays { result ≡ false → (s : State) → Holds self.old s → self.new ≡ self.old }
        ensures asked { self.new.asked ≡ self.old.asked }
        ensures next { self.new.next ≡ self.old.next }
    {
        match self.slots.get_mut(at) {
            Some(session) => session.idle(),
            None => false,
        }
    }
}
