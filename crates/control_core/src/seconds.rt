//! Seconds.

ghost use Rattle.std.specs.Prelude.{◌≡◌, ◌≤◌, ◌+◌, None, true, false, length};
ghost use Rattle.out_tray.specs.Tray.{second_room, spare};
ghost use Rattle.switch_event.specs.Event as event;
ghost use Rattle.host_session.specs.Sits.{right_in};
ghost use Rattle.switch_defs.specs.Switch.{Session, State, hosts};
ghost use Rattle.switch_defs.specs.Decide.{authorised};
ghost use Rattle.switch_defs.specs.Sound.{AreApart};
ghost use Rattle.switch_defs.specs.Turn as model;
ghost use Rattle.turn_defs.specs.Walks.{Next, is_over};
ghost use Rattle.control_core.specs.Stands.{Holds, MayTurn};
ghost use Rattle.control_core.specs.Does.{Does, TellsOn, Turns};
ghost use Rattle.control_core.specs.Passing.{MayPass, PassesIdly};

use crate::rights::note;
use crate::state::Core;
use arrayvec::ArrayVec;
use out_tray::Tray;
use switch_event::Outcome;
use table_defs::Item;

impl Core {
    // A second goes by: for the clock, for guests, and for each session that there is.
    pub(crate) fn second(&mut self, tray: &mut Tray, items: &mut ArrayVec<Item, 1024>) -> Outcome
        requires may { (s : State) × MayTurn self.old s }
        requires room { second_room ≤ spare tray.old }
        requires few { length items.old.items + 1020 ≤ 1024 }
        ensures turns { (s : State) → MayTurn self.old s → Turns s (model.turn s event.Second)
            self.new result tray.old tray.new items.old.items items.new.items }
        ensures few { (s : State) → MayTurn self.old s →
            length items.new.items ≤ length items.old.items + length s.ports + length s.sessions }
        ensures made { self.new.made ≡ self.old.made }
    {
        self.tick(items);
        self.each_second(tray, items);
        Outcome::Done
    }

    // A second for the clock and for guests, who are let in where nobody came in time.
    fn tick(&mut self, items: &mut ArrayVec<Item, 1024>)
        requires may { (s : State) × MayTurn self.old s }
        requires few { length items.old.items + 60 ≤ 1024 }
        ensures holds { (s : State) → MayTurn self.old s →
            Holds self.new (model.guests_second (model.tick s)) }
        ensures told { (s : State) → MayTurn self.old s →
            TellsOn s (model.guests_second (model.tick s)) items.old.items items.new.items }
        ensures few { length items.new.items ≤ length items.old.items + length self.old.ports }
        ensures made { self.new.made ≡ self.old.made }
    {
        self.clock += 1;
        self.ports.second(items);
    }

    // A second for each session that there is, in rising order of their numbers. Where one is closed the
    // next has its place in the order.
    fn each_second(&mut self, tray: &mut Tray, items: &mut ArrayVec<Item, 1024>)
        requires may { (s : State) × Holds self.old s × MayPass (length s.sessions) s }
        requires room { second_room ≤ spare tray.old }
        requires few { length items.old.items + 960 ≤ 1024 }
        ensures does { (s : State) → Holds self.old s → MayPass (length s.sessions) s →
            Does s (model.each_second s.sessions s)
            self.new tray.old tray.new items.old.items items.new.items }
        ensures few { (s : State) → Holds self.old s →
            length items.new.items ≤ length items.old.items + length s.sessions }
        ensures made { self.new.made ≡ self.old.made }
    {
        let mut n = 0;
        'sessions: for _session in 0..self.sessions.len() {
            if !self.second_of(n, tray, items) {
                n += 1;
            }
        }
    }

    // A second for the n-th session; whether it was closed. Most seconds bring nothing.
    fn second_of(&mut self, n: usize, tray: &mut Tray, items: &mut ArrayVec<Item, 1024>) -> bool
        requires may { (y : Session) × (s : State) × Holds self.old s × Next y n s × MayPass 1 s }
        requires room { 9758 ≤ spare tray.old }
        requires few { length items.old.items + 1 ≤ 1024 }
        ensures does { (y : Session) (s : State) → Holds self.old s → Next y n s → MayPass 1 s →
            Does s (model.second_of y s)
            self.new tray.old tray.new items.old.items items.new.items }
        ensures closed { (y : Session) (s : State) → Holds self.old s → Next y n s → MayPass 1 s →
            result ≡ is_over y s }
        ensures few { length items.new.items ≤ length items.old.items + 1 }
        ensures room { spare tray.old ≤ spare tray.new + 9758 }
        ensures made { self.new.made ≡ self.old.made }
    {
        !self.idle(n) && self.pass(n, tray, items)
    }

    // A second for the n-th session, where nothing falls due in it; whether it was such a second. Else
    // nothing is done.
    fn idle(&mut self, n: usize) -> bool
        ensures idles { result ≡ true → (y : Session) (s : State) → Holds self.old s → Next y n s →
            MayPass 1 s → PassesIdly y s self.new }
        ensures stays { result ≡ false → (s : State) → Holds self.old s → self.new ≡ self.old }
        ensures made { self.new.made ≡ self.old.made }
    {
        match self.sessions.place_at(n) {
            Some(at) => self.sessions.idle(at),
            None => false,
        }
    }

    // A second for the n-th session, whatever falls due in it; whether it was closed.
    fn pass(&mut self, n: usize, tray: &mut Tray, items: &mut ArrayVec<Item, 1024>) -> bool
        requires may { (y : Session) × (s : State) × Holds self.old s × Next y n s × MayPass 1 s }
        requires room { 9758 ≤ spare tray.old }
        requires few { length items.old.items + 1 ≤ 1024 }
        ensures does { (y : Session) (s : State) → Holds self.old s → Next y n s → MayPass 1 s →
            Does s (model.second_of y s)
            self.new tray.old tray.new items.old.items items.new.items }
        ensures closed { (y : Session) (s : State) → Holds self.old s → Next y n s → MayPass 1 s →
            result ≡ is_over y s }
        ensures few { length items.new.items ≤ length items.old.items + 1 }
        ensures room { spare tray.old ≤ spare tray.new + 9758 }
        ensures made { self.new.made ≡ self.old.made }
    {
        let Some(at) = self.sessions.place_at(n) else {
            unreachable!()
        };
        let Some((port, mac)) = self.sessions.key(at) else {
            unreachable!()
        };
        let before = self.right_at(n, port);
        let closed = self.sessions.second(at, &self.config, tray);
        self.arm_if(closed, port);
        let after = self.right_unless(closed, n, port);
        note(port, mac, before, after, items);
        closed
    }

    // The right of the n-th session's host, which is on this port, unless its session was closed.
    fn right_unless(&self, closed: bool, n: usize, port: u8) -> Option<(u32, u16)>
        ensures none { closed ≡ true → right_in result ≡ None }
        ensures right { (s : State) (y : Session) → Holds self.now s → AreApart (hosts s) →
            Next y n s → y.host.port ≡ port → closed ≡ false →
            right_in result ≡ authorised s y.host.port y.host.address }
    {
        if closed {
            return None;
        }
        self.right_at(n, port)
    }
}
