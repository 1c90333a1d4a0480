//! What comes to a session: what its host says, an answer of the server, a second.

ghost use Rattle.std.specs.Prelude.{◌≡◌, ◌≤◌, ◌+◌, ◌-◌, ◌||◌, true, false, length, IfSome};
ghost use Rattle.machine_defs.specs.Live as live;
ghost use Rattle.machine_defs.specs.Live.{Packet};
ghost use Rattle.out_tray.specs.Tray.{answer_room, frame_room, spare};
ghost use Rattle.aaa_defs.specs.Said as word;
ghost use Rattle.typed_session.specs.Reads.{IsTold};
ghost use Rattle.radius_packet.specs.Views.{value_in};
ghost use Rattle.host_frames.specs.Heard.{IsShort, event_of};
ghost use Rattle.server_words.specs.Words.{Means, renewed};
ghost use Rattle.switch_defs.specs.Switch.{Standing};
ghost use Rattle.switch_defs.specs.Session.{AnAnswer, ALogoff, Another};
ghost use Rattle.switch_defs.specs.Answer.{kept_of, stands};
ghost use Rattle.switch_defs.specs.Turn.{cause_of, set_vars};
ghost use Rattle.host_session.specs.Sits.{SitsAs, state_in};
ghost use Rattle.host_session.specs.Settles.{Settles, SettlesIdly, is_idle};

use crate::session::Session;
use arrayvec::ArrayVec;
use host_frames::Said;
use machine_vars::Wants;
use out_tray::Tray;
use server_words::Told;

impl Session {
    /// The host says something (IEEE Std 802.1X-2004, 7.5.4). It may take 1,534 octets of the tray,
    /// which must be spare. What is wanted of the server's side is the caller's to do.
    pub fn hear(&mut self, said: Said<'_>, tray: &mut Tray) -> Wants
        requires short { IsShort said }
        requires room { frame_room ≤ spare tray.old }
        ensures settles { (x : Standing) → SitsAs self.old x →
            Settles (cause_of (event_of said.entry)) (set_vars (event_of said.entry) x) self.new result
            tray.old tray.new }
        ensures number { self.new.number ≡ self.old.number }
        ensures room { spare tray.old ≤ spare tray.new + frame_room }
    {
        match said {
            Said::Start => self.start(tray),
            Said::Logoff => self.log_off(tray),
            Said::Packet(eap) => self.receive(eap, tray),
        }
    }

    fn start(&mut self, tray: &mut Tray) -> Wants
        requires { frame_room ≤ spare tray.old }
        ensures settles { (x : Standing) → SitsAs self.old x →
            Settles Another (set_vars live.Start x) self.new result tray.old tray.new }
        ensures number { self.new.number ≡ self.old.number }
        ensures room { spare tray.old ≤ spare tray.new + frame_room }
    {
        self.host.on_start(tray);
        self.rest()
    }

    // A host that logs off is no longer one that was rejected.
    fn log_off(&mut self, tray: &mut Tray) -> Wants
        requires { frame_room ≤ spare tray.old }
        ensures settles { (x : Standing) → SitsAs self.old x →
            Settles ALogoff (set_vars live.Logoff x) self.new result tray.old tray.new }
        ensures number { self.new.number ≡ self.old.number }
        ensures room { spare tray.old ≤ spare tray.new + frame_room }
    {
        self.host.on_logoff(tray);
        self.restricted = false;
        self.rest()
    }

    fn receive(&mut self, eap: &[u8], tray: &mut Tray) -> Wants
        requires { length eap.now ≤ 1500 }
        ensures settles { (x : Standing) → SitsAs self.old x →
            Settles Another (set_vars (live.Packet eap.now) x) self.new result tray.old tray.new }
        ensures number { self.new.number ≡ self.old.number }
        ensures room { tray.new ≡ tray.old }
    {
        self.host.on_eap(eap, tray);
        self.rest()
    }

    /// What an answer of the server says (RFC 2865, 4; RFC 3580, 3), with a State of at most 253
    /// octets. It may take 3,068 octets of the tray, which must be spare: those of two frames.
    pub fn be_told(&mut self, told: &Told<'_>, tray: &mut Tray) -> Wants
        requires told { IsTold told.now.verdict }
        requires state { IfSome told.now.state (λ s. length s.now ≤ 253) }
        requires room { answer_room ≤ spare tray.old }
        ensures settles { (x : Standing) (meant : word.Said) → SitsAs self.old x →
            Means told.now meant x.vars.times x.vars.current_id (kept_of x) →
            Settles AnAnswer (stands meant x) self.new result tray.old tray.new }
        ensures number { self.new.number ≡ self.old.number }
        ensures room { spare tray.old ≤ spare tray.new + answer_room }
    {
        self.host.on_server(&told.verdict, tray);
        self.keep(told);
        let wants = self.rest();
        self.restricted = rejected(self.host.held(), self.restricted);
        wants
    }

    // Keeps what an answer says beside the machines.
    fn keep(&mut self, told: &Told<'_>)
        requires { IfSome told.now.state (λ s. length s.now ≤ 253) }
        ensures number { self.new.number ≡ self.old.number }
        ensures host { self.new.host ≡ self.old.host }
        ensures vlan { self.new.vlan ≡ renewed told.now.vlan self.old.vlan }
        ensures state { state_in self.new.state ≡ value_in told.now.state }
        ensures end_while { self.new.end_while ≡ renewed told.now.end_while self.old.end_while }
        ensures restricted { self.new.restricted ≡ self.old.restricted }
    {
        self.vlan = told.vlan.unwrap_or(self.vlan);
        self.end_while = told.end_while.unwrap_or(self.end_while);
        self.state = kept_state(told.state);
    }

    /// A second goes by, in which the server may be given up; the session's end is a second nearer. It
    /// may take 1,534 octets of the tray, which must be spare.
    pub fn second(&mut self, gave_up: bool, tray: &mut Tray) -> Wants
        requires { frame_room ≤ spare tray.old }
        ensures settles { (x : Standing) → SitsAs self.old x →
            Settles Another (set_vars (live.Second gave_up) (record x { end_while = x.end_while - 1 }))
            self.new result tray.old tray.new }
        ensures number { self.new.number ≡ self.old.number }
        ensures room { spare tray.old ≤ spare tray.new + frame_room }
    {
        self.host.on_second(gave_up, tray);
        self.end_while = self.end_while.saturating_sub(1);
        self.rest()
    }

    /// A second goes by for a session whose host is let in, where nothing falls due: neither its host's
    /// new authentication nor its end, and nothing is left to be done for the server's side. Its timers
    /// fall in place, and nothing is sent. The answer says whether it was such a second; else nothing is
    /// done, and `second` does it.
    pub fn idle(&mut self) -> bool
        ensures idle { result ≡ is_idle self.old }
        ensures idles { result ≡ true → (x : Standing) → SitsAs self.old x →
            SettlesIdly x self.new }
        ensures stays { result ≡ false → self.new ≡ self.old }
        ensures number { self.new.number ≡ self.old.number }
    {
        if self.end_while == 1 || !self.host.idle() {
            return false;
        }
        self.end_while = self.end_while.saturating_sub(1);
        self.restricted = false;
        true
    }
}

// Whether a host that an answer leaves HELD or not is one that was rejected.
fn rejected(held: bool, before: bool) -> bool
    ensures { result ≡ (held || before) }
{
    held || before
}

// A State as it is kept.
fn kept_state(state: Option<&[u8]>) -> Option<ArrayVec<u8, 253>>
    requires { IfSome state (λ s. length s.now ≤ 253) }
    ensures { state_in result ≡ value_in state.entry }
{
    match state {
        Some(octets) => Some(kept(octets)),
        None => None,
    }
}

fn kept(octets: &[u8]) -> ArrayVec<u8, 253>
    requires { length octets.now ≤ 253 }
    ensures { result.items ≡ octets.now }
{
    let mut kept = ArrayVec::new();
    let _fits = kept.try_extend_from_slice(octets);
    kept
}
