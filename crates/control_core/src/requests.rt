//! Dynamic requests (RFC 5176).

ghost use Rattle.std.specs.Prelude.{◌≡◌, ◌≤◌, ◌+◌, length, Some};
ghost use Rattle.radius_defs.specs.InRange.{HasTime};
ghost use Rattle.dynauth_defs.specs.Answered.{IsAnswered};
ghost use Rattle.out_tray.specs.Tray.{spare, turn_room};
ghost use Rattle.typed_session.specs.Follows.{with_sent};
ghost use Rattle.switch_defs.specs.Switch.{Session, State, session_numbered};
ghost use Rattle.switch_defs.specs.Dynamic as dynamic;
ghost use Rattle.switch_defs.specs.Dynamic.{judged_on};
ghost use Rattle.switch_defs.specs.Turn as model;
ghost use Rattle.switch_defs.specs.Fitting.{MayName};
ghost use Rattle.control_core.specs.Stands.{Holds, MayTurn, Stands};
ghost use Rattle.control_core.specs.Does.{Does, TellsOn, Turns};
ghost use Rattle.control_core.specs.Acts.{MayAct};

use crate::roll::Roster;
use crate::state::Core;
use arrayvec::ArrayVec;
use dynauth_server::{Action, Judged, client_place, judge, reply};
use out_tray::{Sent, Tray};
use radius_defs::Timeout;
use radius_packet::parse;
use switch_event::Outcome;
use table_defs::Item;
use wire_core::Addr;

impl Core {
    // A dynamic request came from an address and port of UDP.
    pub(crate) fn do_request(
        &mut self,
        from: Addr,
        octets: &[u8],
        tray: &mut Tray,
        items: &mut ArrayVec<Item, 1024>,
    ) -> Outcome
        requires may { (s : State) × MayTurn self.old s }
        requires room { turn_room ≤ spare tray.old }
        requires few { length items.old.items + 1 ≤ 1024 }
        ensures turns { (s : State) → MayTurn self.old s →
            Turns s (model.do_request s from octets.now (judged_on s from octets.now))
            self.new result tray.old tray.new items.old.items items.new.items }
        ensures few { length items.new.items ≤ length items.old.items + 1 }
        ensures made { self.new.made ≡ self.old.made }
    {
        let roster = Roster {
            sessions: &self.sessions,
        };
        match judge(
            octets,
            from,
            &self.config,
            self.kept.as_slice(),
            self.clock,
            &roster,
        ) {
            Judged::Drop(reason) => Outcome::RequestDropped(reason),
            Judged::Again(reply) => {
                tray.put(Sent::Reply {
                    to: from,
                    octets: reply,
                });
                Outcome::Again
            }
            Judged::Nak(cause) => {
                self.reply(octets, Some(cause), from, tray);
                Outcome::Naked(cause)
            }
            Judged::Ack(action) => {
                self.act(action, tray, items);
                self.reply(octets, None, from, tray);
                Outcome::Acked
            }
        }
    }

    // What an acknowledged request does.
    fn act(&mut self, action: Action, tray: &mut Tray, items: &mut ArrayVec<Item, 1024>)
        requires may { (s : State) × Stands self.old s × MayAct action s }
        requires room { 38 ≤ spare tray.old }
        requires few { length items.old.items + 1 ≤ 1024 }
        ensures does { (s : State) → Stands self.old s → MayAct action s →
            Does s (dynamic.act action s)
            self.new tray.old tray.new items.old.items items.new.items }
        ensures few { length items.new.items ≤ length items.old.items + 1 }
        ensures made { self.new.made ≡ self.old.made }
        ensures room { spare tray.old ≤ spare tray.new + 38 }
    {
        match action {
            Action::Disconnect { number } => self.disconnect(number, tray, items),
            Action::Change {
                number,
                vlan,
                timeout,
            } => self.change(number, vlan, timeout, items),
        }
    }

    // The session with a number is closed, and its host told (RFC 5176, 2.1).
    fn disconnect(&mut self, number: u32, tray: &mut Tray, items: &mut ArrayVec<Item, 1024>)
        requires may { (s : State) × (y : Session) × Stands self.old s
            × (session_numbered number s ≡ Some y) }
        requires room { 38 ≤ spare tray.old }
        requires few { length items.old.items + 1 ≤ 1024 }
        ensures does { (s : State) (y : Session) → Stands self.old s →
            session_numbered number s ≡ Some y →
            Does s (dynamic.disconnected (Some y) s)
            self.new tray.old tray.new items.old.items items.new.items }
        ensures few { length items.new.items ≤ length items.old.items + 1 }
        ensures made { self.new.made ≡ self.old.made }
        ensures room { spare tray.old ≤ spare tray.new + 38 }
    {
        let Some(at) = self.sessions.numbered(number) else {
            unreachable!()
        };
        let Some((port, mac)) = self.sessions.key(at) else {
            unreachable!()
        };
        let before = self.right(port, mac);
        self.sessions.disconnect(at, tray);
        self.follow(port, mac, true, before, items);
    }

    // The session with a number has another VLAN, or other times (RFC 5176, 2.2).
    fn change(
        &mut self,
        number: u32,
        vlan: Option<u16>,
        timeout: Timeout,
        items: &mut ArrayVec<Item, 1024>,
    )
        requires may { (s : State) × (y : Session) × Stands self.old s
            × (session_numbered number s ≡ Some y) }
        requires vlan { MayName vlan }
        requires time { HasTime timeout }
        requires few { length items.old.items + 1 ≤ 1024 }
        ensures holds { (s : State) (y : Session) → Stands self.old s →
            session_numbered number s ≡ Some y →
            Holds self.new (dynamic.changed vlan timeout (Some y) s).state }
        ensures told { (s : State) (y : Session) → Stands self.old s →
            session_numbered number s ≡ Some y →
            TellsOn s (dynamic.changed vlan timeout (Some y) s).state
            items.old.items items.new.items }
        ensures few { length items.new.items ≤ length items.old.items + 1 }
        ensures made { self.new.made ≡ self.old.made }
    {
        let Some(at) = self.sessions.numbered(number) else {
            unreachable!()
        };
        let Some((port, mac)) = self.sessions.key(at) else {
            unreachable!()
        };
        let before = self.right(port, mac);
        self.sessions.change(at, vlan, timeout);
        self.follow(port, mac, false, before, items);
    }

    // The reply to a request is sent, and kept for its client (RFC 5176, 2.3).
    fn reply(&mut self, octets: &[u8], cause: Option<u32>, from: Addr, tray: &mut Tray)
        requires answered { IsAnswered self.old.config self.old.kept.items from octets.now }
        requires room { 4112 ≤ spare tray.old }
        ensures holds { (s : State) → Holds self.old s →
            Holds self.new (dynamic.reply octets.now cause from s).state }
        ensures sent { (s : State) → Holds self.old s →
            tray.new ≡ with_sent (dynamic.reply octets.now cause from s).sent tray.old }
        ensures made { self.new.made ≡ self.old.made }
    {
        let Ok(request) = parse(octets) else {
            unreachable!()
        };
        let Some(place) = client_place(from.ip, self.config.clients.as_slice()) else {
            unreachable!()
        };
        let mut out = ArrayVec::new();
        let client = &self.config.clients[place];
        reply(&request, cause, client.secret.as_slice(), &mut out);
        self.kept[place].keep(from.port, request.text(), out.as_slice(), self.clock);
        tray.put(Sent::Reply {
            to: from,
            octets: out.as_slice(),
        });
    }
}
