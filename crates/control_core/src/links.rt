//! Links and controls of ports (IEEE Std 802.1X-2004, 8.2.2.2 and 8.2.4).

ghost use Rattle.std.specs.Prelude.{◌≡◌, ◌≤◌, ◌+◌, ◌-◌, ◌<◌, List, Some, length, true};
ghost use Rattle.machine_defs.specs.BackendTable.{is_auto as is_auto_lem};
ghost use Rattle.machine_defs.specs.PaeTable.{same_control};
ghost use Rattle.machine_defs.specs.Live.{InRange};
ghost use Rattle.out_tray.specs.Tray.{spare, turn_room};
ghost use Rattle.switch_defs.specs.Switch.{Port, Session, State, on_port, port_of, turned};
ghost use Rattle.switch_defs.specs.Turn as model;
ghost use Rattle.turn_defs.specs.Walks.{after_closing, next_place};
ghost use Rattle.table_defs.specs.declared.change.Item.{Item as Told};
ghost use Rattle.control_core.specs.Stands.{Holds, MayTurn};
ghost use Rattle.control_core.specs.Does.{Does, TellsOn, Turns};
ghost use Rattle.control_core.specs.Walked.{MayClose, MayEnd};

use crate::state::Core;
use arrayvec::ArrayVec;
use eap_packet::identity_request;
use machine_vars::{Control, Times};
use out_tray::Tray;
use switch_event::{Config, Outcome};
use table_defs::Item;
use wire_core::Mac;
use wire_defs::PAE_GROUP;

impl Core {
    // The link of a port comes up or goes down.
    pub(crate) fn do_link(
        &mut self,
        n: u8,
        up: bool,
        tray: &mut Tray,
        items: &mut ArrayVec<Item, 1024>,
    ) -> Outcome
        requires may { (s : State) × MayTurn self.old s }
        requires room { turn_room ≤ spare tray.old }
        requires new { length items.old.items ≡ 0 }
        ensures turns { (s : State) → MayTurn self.old s →
            Turns s (turned Outcome.Done (model.do_link up (port_of n s) s))
            self.new result tray.old tray.new items.old.items items.new.items }
        ensures few { (s : State) → MayTurn self.old s →
            length items.new.items ≤ length s.sessions + 2 }
        ensures made { self.new.made ≡ self.old.made }
    {
        let Some(port) = self.ports.port(n) else {
            return Outcome::Done;
        };
        let control = port.control();
        if port.link() == up {
            return Outcome::Done;
        }
        self.ports.set_link(n, up);
        items.push(Item::Link { port: n, up });
        if up {
            self.port_up(n, control, tray);
        } else {
            self.close_port(n, items);
        }
        Outcome::Done
    }

    // The control of a port is set.
    pub(crate) fn do_control(
        &mut self,
        n: u8,
        control: Control,
        tray: &mut Tray,
        items: &mut ArrayVec<Item, 1024>,
    ) -> Outcome
        requires may { (s : State) × MayTurn self.old s }
        requires room { turn_room ≤ spare tray.old }
        requires new { length items.old.items ≡ 0 }
        ensures turns { (s : State) → MayTurn self.old s →
            Turns s (turned Outcome.Done (model.do_control control (port_of n s) s))
            self.new result tray.old tray.new items.old.items items.new.items }
        ensures few { (s : State) → MayTurn self.old s →
            length items.new.items ≤ length s.sessions + 2 }
        ensures made { self.new.made ≡ self.old.made }
    {
        let Some(port) = self.ports.port(n) else {
            return Outcome::Done;
        };
        let link = port.link();
        if is_same(port.control(), control) {
            return Outcome::Done;
        }
        self.close_port(n, items);
        self.ports.set_control(n, control);
        items.push(Item::SetControl { port: n, control });
        if link {
            self.port_up(n, control, tray);
        }
        Outcome::Done
    }

    // A port whose link is up begins: where authentication decides it asks for the identity, else it
    // says what is decided.
    fn port_up(&mut self, n: u8, control: Control, tray: &mut Tray)
        requires may { (s : State) × (q : Port) × (port_of n s ≡ Some q) × Holds self.old s
            × InRange s.config.times }
        requires room { turn_room ≤ spare tray.old }
        ensures does { (s : State) (q : Port) (items : List Told) → port_of n s ≡ Some q →
            Holds self.old s → InRange s.config.times →
            Does s (model.port_up q control s) self.new tray.old tray.new items items }
        ensures made { self.new.made ≡ self.old.made }
    {
        let own = self.own(n);
        if is_auto(control) {
            self.arm(n);
            eap_frames::put(n, own, Mac(PAE_GROUP), &identity_request(0), tray);
        } else {
            let times = times(&self.config);
            self.ports.begin(n, own, control, &times, tray);
        }
    }

    // The sessions of a port are closed, and it lets no guests in.
    fn close_port(&mut self, port: u8, items: &mut ArrayVec<Item, 1024>)
        requires may { (s : State) × MayClose port self.old s
            × (length items.old.items + length s.sessions + 1 ≤ 1024) }
        ensures holds { (s : State) → MayClose port self.old s →
            Holds self.new (model.close_port port s) }
        ensures told { (s : State) → MayClose port self.old s →
            TellsOn s (model.close_port port s) items.old.items items.new.items }
        ensures few { (s : State) → MayClose port self.old s →
            length items.new.items ≤ length items.old.items + length s.sessions + 1 }
        ensures made { self.new.made ≡ self.old.made }
    {
        let mut n = 0;
        'sessions: for _session in 0..self.sessions.len() {
            n = self.close_on(port, n, items);
        }
        self.shut_out_guests(port, items);
    }

    // Closes the n-th session, of at most 960, where it is on the port. The answer is the place at
    // which the next one is then.
    fn close_on(&mut self, port: u8, n: usize, items: &mut ArrayVec<Item, 1024>) -> usize
        requires place { n < 960 }
        requires may { (t : State) × (y : Session) × MayEnd n y self.old t }
        requires few { length items.old.items + 1 ≤ 1024 }
        ensures next { (t : State) (y : Session) → MayEnd n y self.old t →
            result ≡ next_place (on_port port y) n }
        ensures holds { (t : State) (y : Session) → MayEnd n y self.old t →
            Holds self.new (after_closing (on_port port y) y t) }
        ensures told { (t : State) (y : Session) → MayEnd n y self.old t →
            TellsOn t (after_closing (on_port port y) y t) items.old.items items.new.items }
        ensures few { length items.new.items ≤ length items.old.items + 1 }
        ensures made { self.new.made ≡ self.old.made }
    {
        let Some(at) = self.sessions.place_at(n) else {
            unreachable!()
        };
        let Some((its_port, mac)) = self.sessions.key(at) else {
            unreachable!()
        };
        if its_port != port {
            return n + 1;
        }
        let before = self.right(port, mac);
        self.sessions.close(at);
        self.follow(port, mac, true, before, items);
        n
    }
}

fn is_same(a: Control, b: Control) -> bool
    ensures { result ≡ same_control a b }
{
    a == b
}

// Whether authentication decides under a control.
fn is_auto(control: Control) -> bool
    ensures { result ≡ is_auto_lem control }
{
    matches!(control, Control::Auto)
}

// The times of the machines.
fn times(c: &Config) -> Times
    ensures { result ≡ c.now.times }
{
    c.times
}
