//! A second.

ghost use Rattle.std.specs.Prelude.{◌≡◌, ◌≤◌, ◌<◌, ◌+◌, ◌^◌, ◌==◌, false};
ghost use Rattle.aaa_defs.specs.Waits.{pending_of};
ghost use Rattle.aaa_defs.specs.Age.{aged, after_second};
ghost use Rattle.out_tray.specs.Tray.{spare};
ghost use Rattle.typed_session.specs.Follows.{with_sent};
ghost use Rattle.switch_defs.specs.Switch as switch;
ghost use Rattle.switch_defs.specs.Switch.{Standing, State};
ghost use Rattle.switch_defs.specs.Laws.{IsBetween};
ghost use Rattle.switch_defs.specs.Turn.{is_given_up, second_by, second_of, sent_again};
ghost use Rattle.host_session.specs.Sits.{SitsAs};
ghost use Rattle.host_sessions.specs.Holds.{Holds};
ghost use Rattle.host_sessions.specs.Finds.{IsAt};
ghost use Rattle.host_sessions.specs.Does.{Does, a_second_later, is_ended_by_second, is_gone};
ghost use Rattle.host_sessions.specs.Follows.{WaitsFor, sent_of_pending};

use crate::sessions::Sessions;
use aaa_client::{Aged, Waits};
use host_session::Session;
use out_tray::{Sent, Tray};
use switch_event::Config;

impl Sessions {
    /// A second goes by for the session at a place: its request is sent again or given up (RFC 5080,
    /// 2.2.1), its timers fall, and where its time is over it ends (RFC 2865, 5.27). It may take 9,758
    /// octets of the tray, which must be spare. The answer says whether the session was closed.
    pub fn second(&mut self, at: usize, c: &Config, tray: &mut Tray) -> bool
        requires may { (y : switch.Session) × (s : State) × Holds self.old s × (s.config ≡ c.now)
            × IsAt at y self.old s × IsBetween s }
        requires asked { self.old.asked + 1 < 2 ^ 64 }
        requires room { 9758 ≤ spare tray.old }
        ensures does { (y : switch.Session) (s : State) → Holds self.old s → s.config ≡ c.now →
            IsAt at y self.old s → IsBetween s → Does (second_of y s) self.new tray.old tray.new }
        ensures gone { (y : switch.Session) (s : State) → Holds self.old s → s.config ≡ c.now →
            IsAt at y self.old s → IsBetween s → result ≡ is_ended_by_second y s }
        ensures asked { self.new.asked ≤ self.old.asked + 1 }
        ensures next { self.new.next ≡ self.old.next }
        ensures room { spare tray.old ≤ spare tray.new + 9758 }
    {
        if self.is_over(at) {
            self.disconnect(at, tray);
            true
        } else {
            self.pass(at, c, tray)
        }
    }

    // Whether a second more ends the session at a place.
    fn is_over(&self, at: usize) -> bool
        ensures { (y : switch.Session) (s : State) → IsAt at y self.now s →
            result ≡ (y.standing.end_while == 1) }
    {
        match self.slots.get(at) {
            Some(session) => session.end_while == 1,
            None => false,
        }
    }

    // A second goes by for a session whose time is not over in it.
    fn pass(&mut self, at: usize, c: &Config, tray: &mut Tray) -> bool
        requires may { (y : switch.Session) × (s : State) × Holds self.old s × (s.config ≡ c.now)
            × IsAt at y self.old s × IsBetween s }
        requires asked { self.old.asked + 1 < 2 ^ 64 }
        requires room { 9758 ≤ spare tray.old }
        ensures does { (y : switch.Session) (s : State) → Holds self.old s → s.config ≡ c.now →
            IsAt at y self.old s → IsBetween s → Does (second_by false y s) self.new tray.old tray.new }
        ensures gone { (y : switch.Session) (s : State) → Holds self.old s → s.config ≡ c.now →
            IsAt at y self.old s → IsBetween s → result ≡ is_gone (a_second_later y s) }
        ensures asked { self.new.asked ≤ self.old.asked + 1 }
        ensures next { self.new.next ≡ self.old.next }
        ensures room { spare tray.old ≤ spare tray.new + 9758 }
    {
        let Some(session) = self.slots.get_mut(at) else {
            unreachable!()
        };
        let gave_up = age(&mut self.waits, session, tray);
        let wants = session.second(gave_up, tray);
        self.follow(at, wants, c, tray)
    }
}

// A second goes by for the request of a session, which is sent again where it is time for that: whether
// it is given up. A request waits only while the session waits for the server, so none is looked for
// else. It may take 4,112 octets of the tray.
fn age(waits: &mut Waits, session: &Session, tray: &mut Tray) -> bool
    requires { 4112 ≤ spare tray.old }
    ensures waits { (x : Standing) → SitsAs session.now x →
        WaitsFor session.now.number waits.old x →
        waits.new ≡ after_second session.now.number waits.old }
    ensures gave_up { (x : Standing) → SitsAs session.now x →
        WaitsFor session.now.number waits.old x →
        result ≡ is_given_up (aged (pending_of session.now.number waits.old)) }
    ensures sent { (x : Standing) → SitsAs session.now x →
        WaitsFor session.now.number waits.old x →
        let asked = pending_of session.now.number waits.old in
        tray.new ≡ with_sent (sent_again (aged asked) asked) tray.old }
    ensures room { spare tray.old ≤ spare tray.new + 4112 }
{
    session.is_asking() && aged(waits, session.number, tray)
}

fn aged(waits: &mut Waits, number: u32, tray: &mut Tray) -> bool
    requires { 4112 ≤ spare tray.old }
    ensures waits { waits.new ≡ after_second number waits.old }
    ensures gave_up { result ≡ is_given_up (aged (pending_of number waits.old)) }
    ensures sent { let asked = pending_of number waits.old in
        tray.new ≡ with_sent (sent_again (aged asked) asked) tray.old }
    ensures room { spare tray.old ≤ spare tray.new + 4112 }
{
    match waits.second(number) {
        Aged::Quiet => false,
        Aged::Resend => {
            send(waits, number, tray);
            false
        }
        Aged::GaveUp => true,
    }
}

// The request of a session is sent, where it has one.
pub(crate) fn send(waits: &Waits, number: u32, tray: &mut Tray)
    requires { 4112 ≤ spare tray.old }
    ensures sent { tray.new ≡ with_sent (sent_of_pending (pending_of number waits.now)) tray.old }
    ensures room { spare tray.old ≤ spare tray.new + 4112 }
{
    if let Some(request) = waits.pending(number) {
        // Contracts see both in the name of the request.
        let (socket, _identifier) = (request.socket, request.id);
        tray.put(Sent::Radius {
            socket,
            octets: request.octets(),
        });
    }
}
