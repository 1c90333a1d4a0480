//! What comes to a session, with what follows for its request and for the session itself.

ghost use Rattle.std.specs.Prelude.{◌≡◌, ◌≤◌, ◌<◌, ◌+◌, ◌^◌, length, IfOk, IfSome, OnErr, Some};
ghost use Rattle.out_tray.specs.Tray.{spare};
ghost use Rattle.aaa_defs.specs.Answer.{answered};
ghost use Rattle.aaa_defs.specs.Said as word;
ghost use Rattle.aaa_defs.specs.Waits.{forgotten};
ghost use Rattle.aaa_client.specs.Meaning.{meaning};
ghost use Rattle.typed_session.specs.Reads.{IsTold};
ghost use Rattle.radius_defs.specs.InRange.{HasTime};
ghost use Rattle.host_frames.specs.Heard.{IsShort, event_of};
ghost use Rattle.server_words.specs.Words.{Means};
ghost use Rattle.switch_defs.specs.Switch as switch;
ghost use Rattle.switch_defs.specs.Switch.{State};
ghost use Rattle.switch_defs.specs.Session.{AnAnswer, settle_session};
ghost use Rattle.switch_defs.specs.Answer.{kept_of, stands};
ghost use Rattle.switch_defs.specs.Dynamic.{changed};
ghost use Rattle.switch_defs.specs.Turn.{cause_of, set_vars};
ghost use Rattle.host_sessions.specs.Holds.{Holds};
ghost use Rattle.host_sessions.specs.Finds.{IsAt};
ghost use Rattle.host_sessions.specs.Does.{Does, MayTurn, is_gone};

use crate::sessions::Sessions;
use aaa_client::{AaaDrop, Taken};
use host_frames::Said;
use out_tray::Tray;
use radius_defs::Timeout;
use server_words::Told;
use switch_event::Config;

impl Sessions {
    /// The host of the session at a place says something (IEEE Std 802.1X-2004, 7.5.4). It may take 5,646
    /// octets of the tray, which must be spare. The answer says whether the session was closed.
    pub fn hear(&mut self, at: usize, said: Said<'_>, c: &Config, tray: &mut Tray) -> bool
        requires short { IsShort said }
        requires may { (y : switch.Session) × (s : State)
            × MayTurn c.now self.old at y (set_vars (event_of said) y.standing) s }
        requires asked { self.old.asked + 1 < 2 ^ 64 }
        requires room { 5646 ≤ spare tray.old }
        ensures does { (y : switch.Session) (s : State) →
            MayTurn c.now self.old at y (set_vars (event_of said.entry) y.standing) s →
            Does (settle_session (cause_of (event_of said.entry)) y.host
            (set_vars (event_of said.entry) y.standing) s) self.new tray.old tray.new }
        ensures gone { (y : switch.Session) (s : State) →
            MayTurn c.now self.old at y (set_vars (event_of said.entry) y.standing) s →
            result ≡ is_gone (set_vars (event_of said.entry) y.standing) }
        ensures asked { self.new.asked ≤ self.old.asked + 1 }
        ensures next { self.new.next ≡ self.old.next }
        ensures room { spare tray.old ≤ spare tray.new + 5646 }
    {
        let Some(session) = self.slots.get_mut(at) else {
            unreachable!()
        };
        let wants = session.hear(said, tray);
        self.follow(at, wants, c, tray)
    }

    /// The session at a place is told what an answer of the server says, with a State of at most 253
    /// octets (RFC 2865, 4). It may take 7,180 octets of the tray, which must be spare. The answer says
    /// whether the session was closed.
    pub fn be_told(&mut self, at: usize, told: &Told<'_>, c: &Config, tray: &mut Tray) -> bool
        requires told { IsTold told.now.verdict }
        requires state { IfSome told.now.state (λ s. length s.now ≤ 253) }
        requires may { (y : switch.Session) × (meant : word.Said) × (s : State)
            × Means told.now meant s.config.times y.standing.vars.current_id (kept_of y.standing)
            × MayTurn c.now self.old at y (stands meant y.standing) s }
        requires asked { self.old.asked + 1 < 2 ^ 64 }
        requires room { 7180 ≤ spare tray.old }
        ensures does { (y : switch.Session) (meant : word.Said) (s : State) →
            Means told.now meant s.config.times y.standing.vars.current_id (kept_of y.standing) →
            MayTurn c.now self.old at y (stands meant y.standing) s →
            Does (settle_session AnAnswer y.host (stands meant y.standing) s)
            self.new tray.old tray.new }
        ensures gone { (y : switch.Session) (meant : word.Said) (s : State) →
            Means told.now meant s.config.times y.standing.vars.current_id (kept_of y.standing) →
            MayTurn c.now self.old at y (stands meant y.standing) s →
            result ≡ is_gone (stands meant y.standing) }
        ensures asked { self.new.asked ≤ self.old.asked + 1 }
        ensures next { self.new.next ≡ self.old.next }
        ensures room { spare tray.old ≤ spare tray.new + 7180 }
    {
        let Some(session) = self.slots.get_mut(at) else {
            unreachable!()
        };
        let wants = session.be_told(told, tray);
        self.follow(at, wants, c, tray)
    }

    /// Takes an answer of the server that came to a socket, or says at which check it is dropped (RFC
    /// 2865, 3; RFC 3579, 3). The request that it answers is then forgotten; else all is as before.
    pub fn answer<'a>(
        &mut self,
        socket: u8,
        octets: &'a [u8],
        c: &Config,
    ) -> Result<Taken<'a>, AaaDrop>
        ensures answered { (s : State) → Holds self.old s → s.config ≡ c.now → meaning result
            ≡ answered s.waits socket octets.now s.config.secret s.config.require_ma }
        ensures taken { IfOk result (λ t. (s : State) → Holds self.old s →
            Holds self.new (record s { waits = forgotten t.session s.waits })) }
        ensures eap { IfOk result (λ t. IfSome t.eap (λ eap. 4 ≤ length eap.items)) }
        ensures dropped { OnErr result (self.new ≡ self.old) }
        ensures asked { self.new.asked ≡ self.old.asked }
        ensures next { self.new.next ≡ self.old.next }
    {
        self.waits
            .answer(socket, octets, c.secret.as_slice(), c.require_ma)
    }

    /// The session at a place has another VLAN, where one is given, and other times, where they are
    /// (RFC 5176, 2.2). Nothing settles.
    pub fn change(&mut self, at: usize, vlan: Option<u16>, timeout: Timeout)
        requires time { HasTime timeout }
        requires here { (y : switch.Session) × (s : State) × Holds self.old s × IsAt at y self.old s }
        ensures holds { (y : switch.Session) (s : State) → Holds self.old s → IsAt at y self.old s →
            Holds self.new (changed vlan timeout (Some y) s).state }
        ensures asked { self.new.asked ≡ self.old.asked }
        ensures next { self.new.next ≡ self.old.next }
    {
        if let Some(session) = self.slots.get_mut(at) {
            session.change(vlan, timeout);
        }
    }
}
