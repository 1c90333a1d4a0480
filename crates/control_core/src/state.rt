ghost use Rattle.std.specs.Prelude.{◌≡◌, ◌≤◌, ◌<◌, ◌+◌, ℕ, [], true, length, IfOk, map};
ghost use Rattle.out_tray.specs.Tray.{second_room, spare};
ghost use Rattle.switch_event.specs.Config.{is_valid};
ghost use Rattle.switch_event.specs.Event.{happening};
ghost use Rattle.switch_defs.specs.Switch.{State, opening, most_sessions};
ghost use Rattle.switch_defs.specs.Laws.{most_turns};
ghost use Rattle.switch_defs.specs.Turn as model;
ghost use Rattle.table_defs.specs.Table.{Tells};
ghost use Rattle.table_defs.specs.Change.{item_of};
ghost use Rattle.authenticator.specs.Meaning.{IsEvent};
ghost use Rattle.control_core.specs.Stands.{MayTurn};
ghost use Rattle.control_core.specs.Does.{Turns};

use crate::copies::{copy_kept, opened_kept};
use arrayvec::ArrayVec;
use authenticator::{Authenticator, copied_config};
use dup_cache::Kept;
use host_sessions::Sessions;
use out_tray::Tray;
use std::alloc::{AllocError, Global};
use switch_event::{Config, Event, Outcome};
use switch_ports::Ports;
use table_defs::Item;

/// The sequential authenticator.
#[derive(Drop)]
pub struct Core {
    /// The settings.
    pub(crate) config: Config,
    /// The second that it is.
    pub(crate) clock: u64,
    /// The configured ports.
    pub(crate) ports: Ports,
    /// The sessions, their requests to the server, and what is counted.
    pub(crate) sessions: Sessions,
    /// For each client the dynamic replies that are kept for it.
    pub(crate) kept: Vec<Kept>,
    /// How many turns were made.
    pub(crate) made: u64,
}

impl Authenticator for Core {
    ghost use Rattle.control_core.specs.Stands.{Stands};

    ghost stands = { Stands };

    ghost made = { λ core. core.made };

    fn open(alloc: Global, c: &Config) -> Result<Core, AllocError> {
        let ports = Ports::open(alloc, c)?;
        let sessions = Sessions::open(alloc)?;
        let kept = opened_kept(alloc, c)?;
        Ok(Core {
            config: copied_config(c),
            clock: c.clock,
            ports,
            sessions,
            kept,
            made: 0,
        })
    }

    fn copy_from(&mut self, other: &Core) {
        self.clock = other.clock;
        self.ports.copy_from(&other.ports);
        self.sessions.copy_from(&other.sessions);
        copy_kept(self.kept.as_mut_slice(), other.kept.as_slice());
        self.made = other.made;
    }

    fn turn(
        &mut self,
        e: &Event<'_>,
        tray: &mut Tray,
        items: &mut ArrayVec<Item, 1024>,
    ) -> Outcome {
        tray.clear();
        items.clear();
        let outcome = self.happen(e, tray, items);
        self.made += 1;
        outcome
    }

    fn sessions(&self) -> usize {
        self.sessions.len()
    }
}

impl Core {
    // An event, with a tray in which nothing was put yet.
    fn happen(
        &mut self,
        e: &Event<'_>,
        tray: &mut Tray,
        items: &mut ArrayVec<Item, 1024>,
    ) -> Outcome
        requires event { (s : State) × MayTurn self.old s × IsEvent s.config (happening e.now) }
        requires room { second_room ≤ spare tray.old }
        requires new { length items.old.items ≡ 0 }
        ensures turns { (s : State) → MayTurn self.old s → Turns s (model.turn s (happening e.now))
            self.new result tray.old tray.new items.old.items items.new.items }
        ensures few { (s : State) → MayTurn self.old s →
            length items.new.items ≤ length s.sessions + length s.ports + 2 }
        ensures made { self.new.made ≡ self.old.made }
    {
        match *e {
            Event::Frame { port, octets } => self.do_frame(port, octets, tray, items),
            Event::Radius { socket, octets } => self.do_answer(socket, octets, tray, items),
            Event::Dynamic { from, octets } => self.do_request(from, octets, tray, items),
            Event::Second => self.second(tray, items),
            Event::Link { port, up } => self.do_link(port, up, tray, items),
            Event::SetControl { port, control } => self.do_control(port, control, tray, items),
        }
    }
}
