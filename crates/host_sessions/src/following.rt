//! What follows from a settling: the request of the session, and the end of it (RFC 4137, 7.1).

ghost use Rattle.std.specs.Prelude.{◌≡◌, ◌≤◌, ◌<◌, ◌+◌, ◌^◌, true};
ghost use Rattle.out_tray.specs.Tray.{spare};
ghost use Rattle.switch_defs.specs.Switch as switch;
ghost use Rattle.switch_defs.specs.Switch.{State, port_address};
ghost use Rattle.switch_defs.specs.Session.{ask, ask_if, close_if, forget, forget_if};
ghost use Rattle.host_sessions.specs.Holds.{Holds};
ghost use Rattle.host_sessions.specs.Finds.{IsAt};
ghost use Rattle.host_sessions.specs.Does.{Does};
ghost use Rattle.host_sessions.specs.Follows.{HasAt, IsToAsk, MayFollow, followed};

use crate::seconds::send;
use crate::sessions::Sessions;
use aaa_client::request_authenticator;
use host_session::Wants;
use out_tray::Tray;
use switch_event::Config;
use wire_core::Mac;

impl Sessions {
    // What is no longer wanted of the server is forgotten, what is to be asked is asked, and a session
    // whose host was given up is closed, as the answer says. It may take 4,112 octets of the tray.
    pub(crate) fn follow(&mut self, at: usize, wants: Wants, c: &Config, tray: &mut Tray) -> bool
        requires may { (y : switch.Session) × (s : State) × MayFollow c.now self.old at wants y s }
        requires asked { self.old.asked + 1 < 2 ^ 64 }
        requires room { 4112 ≤ spare tray.old }
        ensures does { (y : switch.Session) (s : State) → MayFollow c.now self.old at wants y s →
            Does (followed wants y.host y.standing s) self.new tray.old tray.new }
        ensures gone { result ≡ wants.gone }
        ensures asked { self.new.asked ≤ self.old.asked + 1 }
        ensures next { self.new.next ≡ self.old.next }
        ensures room { spare tray.old ≤ spare tray.new + 4112 }
    {
        self.forget_if(wants.abort, at);
        self.ask_if(wants.ask, at, c, tray);
        self.close_if(wants.gone, at);
        wants.gone
    }

    fn forget_if(&mut self, unwanted: bool, at: usize)
        ensures holds { (y : switch.Session) (s : State) → Holds self.old s → IsAt at y self.old s →
            Holds self.new (forget_if unwanted y.host s) }
        ensures slots { self.new.slots ≡ self.old.slots }
        ensures asked { self.new.asked ≡ self.old.asked }
        ensures next { self.new.next ≡ self.old.next }
    {
        if unwanted {
            self.forget(at);
        }
    }

    fn ask_if(&mut self, wanted: bool, at: usize, c: &Config, tray: &mut Tray)
        requires may { wanted ≡ true → (y : switch.Session) × (s : State) × HasAt c.now self.old at y s
            × IsToAsk y s }
        requires asked { self.old.asked + 1 < 2 ^ 64 }
        requires room { 4112 ≤ spare tray.old }
        ensures does { (y : switch.Session) (s : State) → HasAt c.now self.old at y s →
            (wanted ≡ true → IsToAsk y s) →
            Does (ask_if wanted y.host y.standing s) self.new tray.old tray.new }
        ensures slots { self.new.slots ≡ self.old.slots }
        ensures asked { self.new.asked ≤ self.old.asked + 1 }
        ensures next { self.new.next ≡ self.old.next }
        ensures room { spare tray.old ≤ spare tray.new + 4112 }
    {
        if wanted {
            self.ask(at, c, tray);
        }
    }

    fn close_if(&mut self, gone: bool, at: usize)
        requires { (y : switch.Session) × (s : State) × Holds self.old s × IsAt at y self.old s }
        ensures holds { (y : switch.Session) (s : State) → Holds self.old s → IsAt at y self.old s →
            Holds self.new (close_if gone y.host s) }
        ensures asked { self.new.asked ≡ self.old.asked }
        ensures next { self.new.next ≡ self.old.next }
    {
        if gone {
            self.close(at);
        }
    }

    // The request of the session at a place is forgotten.
    fn forget(&mut self, at: usize)
        ensures holds { (y : switch.Session) (s : State) → Holds self.old s → IsAt at y self.old s →
            Holds self.new (forget y.host s) }
        ensures slots { self.new.slots ≡ self.old.slots }
        ensures asked { self.new.asked ≡ self.old.asked }
        ensures next { self.new.next ≡ self.old.next }
    {
        if let Some(session) = self.slots.get(at) {
            self.waits.forget(session.number);
        }
    }

    // An Access-Request about the session at a place is made and sent.
    fn ask(&mut self, at: usize, c: &Config, tray: &mut Tray)
        requires may { (y : switch.Session) × (s : State) × HasAt c.now self.old at y s × IsToAsk y s }
        requires asked { self.old.asked + 1 < 2 ^ 64 }
        requires room { 4112 ≤ spare tray.old }
        ensures does { (y : switch.Session) (s : State) → HasAt c.now self.old at y s → IsToAsk y s →
            Does (ask y.host y.standing s) self.new tray.old tray.new }
        ensures slots { self.new.slots ≡ self.old.slots }
        ensures asked { self.new.asked ≡ self.old.asked + 1 }
        ensures next { self.new.next ≡ self.old.next }
        ensures room { spare tray.old ≤ spare tray.new + 4112 }
    {
        let (Some((port, mac)), Some(session)) = (self.slots.key(at), self.slots.get(at)) else {
            unreachable!()
        };
        let question = session.question(port, port_address(c.bridge, port), mac);
        let auth = request_authenticator(c.seed, self.asked);
        self.waits.ask(&question, c, session.number, auth);
        self.asked += 1;
        send(&self.waits, session.number, tray);
    }
}

/// The address of a port: the first five octets of the bridge's, and the port's number.
pub fn port_address(bridge: Mac, port: u8) -> Mac
    ensures { result.0 ≡ port_address bridge.0 port }
{
    let [a, b, c, d, e, _] = bridge.0;
    Mac([a, b, c, d, e, port])
}
