//! A session ends.

ghost use Rattle.std.specs.Prelude.{◌≡◌, ◌≤◌, ◌+◌, [], ◌∷◌, Some, false};
ghost use Rattle.out_tray.specs.Tray.{spare};
ghost use Rattle.typed_session.specs.Follows.{with_sent};
ghost use Rattle.switch_defs.specs.Switch as switch;
ghost use Rattle.switch_defs.specs.Switch.{State};
ghost use Rattle.switch_defs.specs.Session.{close};
ghost use Rattle.switch_defs.specs.Dynamic.{disconnected, say_failure};
ghost use Rattle.host_sessions.specs.Holds.{Holds};
ghost use Rattle.host_sessions.specs.Finds.{IsAt};
ghost use Rattle.host_sessions.specs.Does.{Does};

use crate::sessions::Sessions;
use out_tray::Tray;

impl Sessions {
    /// The session at a place is closed, and its request forgotten. Its place is free from then on, and
    /// the other sessions keep theirs.
    pub fn close(&mut self, at: usize)
        requires { (y : switch.Session) × (s : State) × Holds self.old s × IsAt at y self.old s }
        ensures holds { (y : switch.Session) (s : State) → Holds self.old s → IsAt at y self.old s →
            Holds self.new (close y.host s) }
        ensures asked { self.new.asked ≡ self.old.asked }
        ensures next { self.new.next ≡ self.old.next }
    {
        if let Some(session) = self.slots.remove(at) {
            self.waits.forget(session.number);
        }
    }

    /// The host of the session at a place is told that it is let go (RFC 3748, 4.2). It takes 38 octets
    /// of the tray, which must be spare.
    pub fn say_failure(&self, at: usize, tray: &mut Tray)
        requires here { (y : switch.Session) × (s : State) × IsAt at y self.now s }
        requires room { 38 ≤ spare tray.old }
        ensures sent { (y : switch.Session) (s : State) → IsAt at y self.now s →
            y.standing.vars.gone ≡ false →
            tray.new ≡ with_sent (say_failure y.standing ∷ []) tray.old }
        ensures room { spare tray.old ≤ spare tray.new + 38 }
    {
        if let Some(session) = self.slots.get(at) {
            session.say_failure(tray);
        }
    }

    /// The host of the session at a place, which goes on, is told that it is let go, and its session is
    /// closed (RFC 5176, 2.1). It takes 38 octets of the tray, which must be spare.
    pub fn disconnect(&mut self, at: usize, tray: &mut Tray)
        requires may { (y : switch.Session) × (s : State) × Holds self.old s × IsAt at y self.old s }
        requires room { 38 ≤ spare tray.old }
        ensures does { (y : switch.Session) (s : State) → Holds self.old s → IsAt at y self.old s →
            y.standing.vars.gone ≡ false →
            Does (disconnected (Some y) s) self.new tray.old tray.new }
        ensures asked { self.new.asked ≡ self.old.asked }
        ensures next { self.new.next ≡ self.old.next }
        ensures room { spare tray.old ≤ spare tray.new + 38 }
    {
        self.say_failure(at, tray);
        self.close(at);
    }
}
