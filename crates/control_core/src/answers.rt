//! Answers of the RADIUS server (RFC 2865, 4; RFC 3579; RFC 3580).

ghost use Rattle.std.specs.Prelude.{◌≡◌, ◌≤◌, ◌+◌, IfSome, length};
ghost use Rattle.out_tray.specs.Tray.{spare, turn_room};
ghost use Rattle.aaa_client.specs.Meaning.{octets_in, taking};
ghost use Rattle.radius_packet.specs.Views.{value_in};
ghost use Rattle.typed_session.specs.Reads.{IsCarried};
ghost use Rattle.switch_defs.specs.Switch.{Session, State, port_of};
ghost use Rattle.switch_defs.specs.Answer.{answered_on, native_of};
ghost use Rattle.switch_defs.specs.Turn as model;
ghost use Rattle.control_core.specs.Stands.{Holds, MayTurn};
ghost use Rattle.control_core.specs.Does.{Does, Turns};
ghost use Rattle.control_core.specs.Answering.{MayTell, told as told_lem};

use crate::state::Core;
use aaa_client::Taken;
use arrayvec::ArrayVec;
use out_tray::Tray;
use server_words::said;
use switch_event::Outcome;
use table_defs::Item;

impl Core {
    // A datagram of the RADIUS server came to a socket.
    pub(crate) fn do_answer(
        &mut self,
        socket: u8,
        octets: &[u8],
        tray: &mut Tray,
        items: &mut ArrayVec<Item, 1024>,
    ) -> Outcome
        requires may { (s : State) × MayTurn self.old s }
        requires room { turn_room ≤ spare tray.old }
        requires few { length items.old.items + 1 ≤ 1024 }
        ensures turns { (s : State) → MayTurn self.old s →
            Turns s (model.do_answer s (answered_on s socket octets.now))
            self.new result tray.old tray.new items.old.items items.new.items }
        ensures few { length items.new.items ≤ length items.old.items + 1 }
        ensures made { self.new.made ≡ self.old.made }
    {
        match self.sessions.answer(socket, octets, &self.config) {
            Err(drop) => Outcome::AnswerDropped(drop),
            Ok(taken) => {
                self.be_told(&taken, tray, items);
                Outcome::Done
            }
        }
    }

    // The session that asked is told what the answer says.
    fn be_told(&mut self, taken: &Taken<'_>, tray: &mut Tray, items: &mut ArrayVec<Item, 1024>)
        requires may { (y : Session) × (s : State) × MayTell (taking taken.now) y self.old s }
        requires eap { IfSome taken.now.eap (λ eap. 4 ≤ length eap.items) }
        requires room { turn_room ≤ spare tray.old }
        requires few { length items.old.items + 1 ≤ 1024 }
        ensures does { (y : Session) (s : State) → MayTell (taking taken.now) y self.old s →
            Does s (told_lem (taking taken.now) y s)
            self.new tray.old tray.new items.old.items items.new.items }
        ensures few { length items.new.items ≤ length items.old.items + 1 }
        ensures made { self.new.made ≡ self.old.made }
    {
        let Some(at) = self.sessions.numbered(taken.session) else {
            unreachable!()
        };
        let Some((port, mac)) = self.sessions.key(at) else {
            unreachable!()
        };
        let told = said(&taken.packet, eap_of(taken), self.native(port));
        let before = self.right(port, mac);
        let closed = self.sessions.be_told(at, &told, &self.config, tray);
        self.follow(port, mac, closed, before, items);
    }

    // The VLAN of a port where no other is named.
    fn native(&self, port: u8) -> u16
        ensures { (s : State) → Holds self.now s → result ≡ native_of (port_of port s) }
    {
        match self.ports.port(port) {
            Some(port) => port.conf().native,
            None => 0,
        }
    }
}

// The EAP packet that an answer carries.
fn eap_of<'a>(taken: &'a Taken<'_>) -> Option<&'a [u8]>
    requires { IfSome taken.now.eap (λ eap. 4 ≤ length eap.items) }
    ensures value { value_in result ≡ octets_in taken.now.eap }
    ensures carried { IfSome result (λ eap. IsCarried eap.now) }
{
    match &taken.eap {
        Some(eap) => Some(eap.as_slice()),
        None => None,
    }
}
