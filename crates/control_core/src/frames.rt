//! Frames of hosts (IEEE Std 802.1X-2004, 7.5 and 8.2).

ghost use Rattle.std.specs.Prelude.{◌≡◌, ◌≤◌, ◌+◌, List, true, false, length, None, Some};
ghost use Rattle.wire_defs.specs.Ethernet.{is_control};
ghost use Rattle.machine_defs.specs.BackendTable.{is_auto as is_auto_lem};
ghost use Rattle.out_tray.specs.Tray.{spare, turn_room};
ghost use Rattle.host_frames.specs.Heard.{IsShort, event_of};
ghost use Rattle.switch_defs.specs.Switch.{Port, Session, State, port_of, session_at};
ghost use Rattle.switch_defs.specs.Sound.{IsUp};
ghost use Rattle.switch_defs.specs.Turn as model;
ghost use Rattle.switch_defs.specs.Turn.{control_case, frame_case, known_case};
ghost use Rattle.switch_defs.specs.Turn.{is_logoff as is_logoff_lem, is_start as is_start_lem};
ghost use Rattle.table_defs.specs.declared.change.Item.{Item as Told};
ghost use Rattle.control_core.specs.Stands.{MayTurn};
ghost use Rattle.control_core.specs.Does.{Does, IsHere, IsKnown, Turns};
ghost use Rattle.control_core.specs.Hearing.{MayBegin, MayHear};

use crate::state::Core;
use arrayvec::ArrayVec;
use host_frames::{Heard, Said, read};
use machine_vars::Control;
use out_tray::Tray;
use switch_event::limit::HOSTS_A_PORT;
use switch_event::{FrameDrop, Outcome, PortConf};
use table_defs::Item;
use wire_core::Mac;

impl Core {
    // A frame of EAPOL came in on a port.
    pub(crate) fn do_frame(
        &mut self,
        n: u8,
        octets: &[u8],
        tray: &mut Tray,
        items: &mut ArrayVec<Item, 1024>,
    ) -> Outcome
        requires may { (s : State) × MayTurn self.old s }
        requires control { is_control octets.now ≡ true }
        requires room { turn_room ≤ spare tray.old }
        requires few { length items.old.items + 2 ≤ 1024 }
        ensures turns { (s : State) → MayTurn self.old s →
            Turns s (model.do_frame s (frame_case s octets.now (port_of n s)))
            self.new result tray.old tray.new items.old.items items.new.items }
        ensures few { length items.new.items ≤ length items.old.items + 2 }
        ensures made { self.new.made ≡ self.old.made }
    {
        let Some(port) = self.ports.port(n) else {
            return Outcome::FrameDropped(FrameDrop::Down);
        };
        let (conf, link, control) = (port.conf(), port.link(), port.control());
        match read(self.own(n), link, octets) {
            Err(drop) => Outcome::FrameDropped(drop),
            Ok(heard) => self.hear(conf, control, &heard, tray, items),
        }
    }

    // What a host says to a port that is up.
    fn hear(
        &mut self,
        conf: PortConf,
        control: Control,
        heard: &Heard<'_>,
        tray: &mut Tray,
        items: &mut ArrayVec<Item, 1024>,
    ) -> Outcome
        requires may { (s : State) × (q : Port) × IsHere conf control q s
            × MayHear (control_case s q heard.now.from.0 (event_of heard.now.said)) self.old s }
        requires short { IsShort heard.now.said }
        requires room { turn_room ≤ spare tray.old }
        requires few { length items.old.items + 2 ≤ 1024 }
        ensures turns { (s : State) (q : Port) → IsHere conf control q s →
            MayHear (control_case s q heard.now.from.0 (event_of heard.now.said)) self.old s →
            Turns s (model.do_frame s (control_case s q heard.now.from.0 (event_of heard.now.said)))
            self.new result tray.old tray.new items.old.items items.new.items }
        ensures few { length items.new.items ≤ length items.old.items + 2 }
        ensures made { self.new.made ≡ self.old.made }
    {
        if !is_auto(control) {
            return self.hear_forced(conf.port, heard, tray);
        }
        match self.sessions.find(conf.port, heard.from) {
            Some(at) => self.hear_known(at, conf.port, heard, tray, items),
            None => self.hear_first(conf, heard, tray, items),
        }
    }

    // A forced port answers a host that begins.
    fn hear_forced(&mut self, port: u8, heard: &Heard<'_>, tray: &mut Tray) -> Outcome
        requires may { (s : State) × (q : Port) × IsUp s q × (q.conf.port ≡ port)
            × (is_auto_lem q.control ≡ false) × MayTurn self.old s }
        requires room { turn_room ≤ spare tray.old }
        ensures turns { (s : State) (q : Port) (items : List Told) → IsUp s q → q.conf.port ≡ port →
            is_auto_lem q.control ≡ false → MayTurn self.old s →
            Turns s (model.do_frame s (control_case s q heard.now.from.0 (event_of heard.now.said)))
            self.new result tray.old tray.new items items }
        ensures made { self.new.made ≡ self.old.made }
    {
        if !is_start(heard) {
            return Outcome::FrameDropped(FrameDrop::Forced);
        }
        self.ports.greet(port, heard.from, tray);
        Outcome::Done
    }

    // A host that has no session: one opens.
    fn hear_first(
        &mut self,
        conf: PortConf,
        heard: &Heard<'_>,
        tray: &mut Tray,
        items: &mut ArrayVec<Item, 1024>,
    ) -> Outcome
        requires may { (s : State) × (q : Port) × IsHere conf Control.Auto q s
            × (session_at conf.port heard.now.from.0 s ≡ None)
            × MayHear (known_case s q heard.now.from.0 (event_of heard.now.said) None) self.old s }
        requires room { turn_room ≤ spare tray.old }
        requires few { length items.old.items + 2 ≤ 1024 }
        ensures turns { (s : State) (q : Port) → IsHere conf Control.Auto q s →
            session_at conf.port heard.now.from.0 s ≡ None →
            MayHear (known_case s q heard.now.from.0 (event_of heard.now.said) None) self.old s →
            Turns s (model.do_frame s
            (known_case s q heard.now.from.0 (event_of heard.now.said) None))
            self.new result tray.old tray.new items.old.items items.new.items }
        ensures few { length items.new.items ≤ length items.old.items + 2 }
        ensures made { self.new.made ≡ self.old.made }
    {
        if is_logoff(heard) {
            return Outcome::FrameDropped(FrameDrop::NoSession);
        }
        if self.sessions.count(conf.port) >= HOSTS_A_PORT {
            return Outcome::FrameDropped(FrameDrop::PortFull);
        }
        self.open_session(conf, heard.from, tray, items);
        Outcome::Done
    }

    // A session opens on a port, which has no guests from then on.
    fn open_session(
        &mut self,
        conf: PortConf,
        from: Mac,
        tray: &mut Tray,
        items: &mut ArrayVec<Item, 1024>,
    )
        requires may { (s : State) × (q : Port) × MayBegin conf q from.0 self.old s }
        requires room { turn_room ≤ spare tray.old }
        requires few { length items.old.items + 2 ≤ 1024 }
        ensures does { (s : State) (q : Port) → MayBegin conf q from.0 self.old s →
            Does s (model.open_session s q from.0)
            self.new tray.old tray.new items.old.items items.new.items }
        ensures few { length items.new.items ≤ length items.old.items + 2 }
        ensures made { self.new.made ≡ self.old.made }
    {
        self.shut_out_guests(conf.port, items);
        let own = self.own(conf.port);
        let closed = self
            .sessions
            .open_session(conf.port, own, from, conf.native, &self.config, tray);
        self.follow(conf.port, from, closed, None, items);
    }

    // A host that has a session, at a place.
    fn hear_known(
        &mut self,
        at: usize,
        port: u8,
        heard: &Heard<'_>,
        tray: &mut Tray,
        items: &mut ArrayVec<Item, 1024>,
    ) -> Outcome
        requires may { (s : State) × (y : Session) × IsKnown at y port heard.now.from.0 self.old s
            × MayHear (model.Turns y (event_of heard.now.said)) self.old s }
        requires short { IsShort heard.now.said }
        requires room { turn_room ≤ spare tray.old }
        requires few { length items.old.items + 1 ≤ 1024 }
        ensures turns { (s : State) (y : Session) → IsKnown at y port heard.now.from.0 self.old s →
            MayHear (model.Turns y (event_of heard.now.said)) self.old s →
            Turns s (model.do_frame s (model.Turns y (event_of heard.now.said)))
            self.new result tray.old tray.new items.old.items items.new.items }
        ensures few { length items.new.items ≤ length items.old.items + 1 }
        ensures made { self.new.made ≡ self.old.made }
    {
        let before = self.right(port, heard.from);
        let closed = self.sessions.hear(at, heard.said, &self.config, tray);
        self.follow(port, heard.from, closed, before, items);
        Outcome::Done
    }
}

// Authentication decides on such a port.
fn is_auto(control: Control) -> bool
    ensures { result ≡ is_auto_lem control }
{
    matches!(control, Control::Auto)
}

fn is_start(heard: &Heard<'_>) -> bool
    ensures { result ≡ is_start_lem (event_of heard.now.said) }
{
    matches!(heard.said, Said::Start)
}

fn is_logoff(heard: &Heard<'_>) -> bool
    ensures { result ≡ is_logoff_lem (event_of heard.now.said) }
{
    matches!(heard.said, Said::Logoff)
}
