// A run behind its settings: its opening, its ports, its turns, and how it ends.
ghost use Rattle.std.specs.Prelude.{[], ◌≡◌, ◌≤◌, ◌<◌, ◌+◌, ◌*◌, ◌^◌, ℕ, List, Option, OnOk, IfErr, IfOk, map, true};
ghost use Rattle.switch_event.specs.Config.{is_valid};
ghost use Rattle.event_record.specs.declared.TheConstants.{MOST_EVENTS};
ghost use Rattle.outside_link.specs.Link.{Outgoing, Same};
ghost use Rattle.serve_defs.specs.Laws.{AreSettings};
ghost use Rattle.serve_defs.specs.Served.{turns_steps};
ghost use Rattle.serve_defs.specs.Served.Step.{Up};
ghost use Rattle.serve_loop.specs.Run.{HasRunCause, IsAt, IsSound, Steps, Stops, outer_of};
ghost use Rattle.serve_loop.specs.Ends.{HasEndCause, HeadHalts, IsOpened, RunEnds};

use crate::ending::Ending;
use crate::homes::Homes;
use crate::server::Server;
use authenticator::Authenticator;
use outside_core::{Failed, Sink};
use outside_link::{Clock, Link};
use outside_text::write_whole;
use sequential::Sequential;
use serve_defs::MOST_TAKEN;
use std::alloc::Global;
use std::net::Net;
use switch_event::Config;
use trace_print::print_config;

// Room for a datagram, and one octet more, which shows that one was longer.
const ROOM: usize = MOST_TAKEN + 1;

// Writes the settings, and opens a server. They are valid.
fn open<A: Authenticator + Drop, K: Sink>(
    alloc: Global,
    config: Config,
    out: &mut K,
) -> Result<Server<A>, Ending>
    requires { AreSettings config }
    ensures ok { (first : Option (List Outgoing)) → IfOk result (λ server.
        IsAt A.stands A.made (K.taken out.old) (K.taken out.new) first first server []) }
    ensures opened { (room : ℕ) → IfOk result (IsOpened A.stands A.made room config) }
    ensures err { IfErr result (λ e. HeadHalts config (K.taken out.old) (K.taken out.new) e) }
    ensures cause { HasRunCause (K.faults out.old) (K.faults out.new) 0 0 result }
{
    let core = Sequential::open(alloc, &config)?;
    let mut text = Vec::new(alloc);
    print_config(&config, &mut text)?;
    match write_whole(out, &text) {
        Err(Failed) => Err(Ending::WriteFault),
        Ok(()) => {
            let last = config.clock;
            Ok(Server {
                config,
                core,
                homes: Homes::new(),
                last,
                block: Vec::new(alloc),
                text,
            })
        }
    }
}

impl<A: Authenticator + Drop> Server<A> {
    // Takes the links of its ports, which come up.
    fn raise<R: Net, K: Sink, L: Link>(
        &mut self,
        rt: &R,
        alloc: Global,
        room: u64,
        out: &mut K,
        link: &mut L,
    ) -> Result<(), Ending>
        requires room { room ≤ MOST_EVENTS }
        requires sound { IsSound A.stands A.made room self.old }
        requires number { self.old.core.number ≡ 1 }
        ensures ok { (m : Option (List ℕ)) → OnOk result (Steps A.stands A.made self.old.config
            (outer_of self.old.last m (L.waits link.old))
            (map (λ p. Up p.port) self.old.config.ports)
            (outer_of self.new.last m (L.waits link.new)) (K.taken out.old) (K.taken out.new)
            (L.sent link.old) (L.sent link.new) self.old self.new) }
        ensures err { (m : Option (List ℕ)) → IfErr result (λ e. Stops A.stands A.made room self.old.config
            (outer_of self.old.last m (L.waits link.old))
            (map (λ p. Up p.port) self.old.config.ports)
            (outer_of self.new.last m (L.waits link.new)) (K.taken out.old) (K.taken out.new)
            (L.sent link.old) (L.sent link.new) self.old e) }
        ensures sound { OnOk result (IsSound A.stands A.made room self.new) }
        ensures number { OnOk result (self.new.core.number ≤ 61) }
        ensures config { OnOk result (self.new.config ≡ self.old.config) }
        ensures bound { Same (L.bound link.old) (L.bound link.new) }
        ensures cause { HasRunCause (K.faults out.old) (K.faults out.new) (L.faults link.old)
            (L.faults link.new) result }
    {
        'ports: for n in 0..self.config.ports.len() {
            let port = self.config.ports[n].port;
            self.set_up(rt, alloc, room, port, out, link)?;
        }
        Ok(())
    }

    // Takes so many turns.
    fn turns<R: Net, K: Sink, L: Link, C: Clock>(
        &mut self,
        rt: &R,
        alloc: Global,
        room: u64,
        turns: u32,
        out: &mut K,
        link: &mut L,
        clock: &mut C,
    ) -> Result<(), Ending>
        requires room { room ≤ MOST_EVENTS }
        requires sound { IsSound A.stands A.made room self.old }
        requires number { self.old.core.number ≤ 61 }
        ensures ok { OnOk result (Steps A.stands A.made self.old.config
            (outer_of self.old.last (C.moments clock.old) (L.waits link.old))
            (turns_steps turns)
            (outer_of self.new.last (C.moments clock.new) (L.waits link.new)) (K.taken out.old) (K.taken out.new)
            (L.sent link.old) (L.sent link.new) self.old self.new) }
        ensures err { IfErr result (λ e. Stops A.stands A.made room self.old.config
            (outer_of self.old.last (C.moments clock.old) (L.waits link.old))
            (turns_steps turns)
            (outer_of self.new.last (C.moments clock.new) (L.waits link.new)) (K.taken out.old) (K.taken out.new)
            (L.sent link.old) (L.sent link.new) self.old e) }
        ensures sound { OnOk result (IsSound A.stands A.made room self.new) }
        ensures config { OnOk result (self.new.config ≡ self.old.config) }
        ensures bound { Same (L.bound link.old) (L.bound link.new) }
        ensures cause { HasRunCause (K.faults out.old) (K.faults out.new) (L.faults link.old)
            (L.faults link.new) result }
    {
        let mut buf = [0; ROOM];
        'turns: for turn in 0..turns {
            self.turn(rt, alloc, room, &mut buf, out, link, clock)?;
        }
        Ok(())
    }
}

/// Serves with these settings, which were read, for so many turns and with room for so many control
/// records.
pub fn serve_from<A: Authenticator + Drop, R: Net, K: Sink, L: Link, C: Clock>(
    rt: &R,
    alloc: Global,
    turns: u32,
    room: u64,
    config: Config,
    out: &mut K,
    link: &mut L,
    clock: &mut C,
) -> Ending
    requires room { room ≤ MOST_EVENTS }
    requires settings { AreSettings config }
    ensures ends { RunEnds room turns config
        (outer_of config.clock (C.moments clock.old) (L.waits link.old)) (L.waits link.new)
        (K.taken out.old) (K.taken out.new) (L.sent link.old) (L.sent link.new) result }
    ensures bound { Same (L.bound link.old) (L.bound link.new) }
    ensures cause { HasEndCause (K.faults out.old) (K.faults out.new) (L.faults link.old)
        (L.faults link.new) result }
{
    let mut server: Server<A> = match open(alloc, config, out) {
        Ok(server) => server,
        Err(ending) => return ending,
    };
    if let Err(ending) = server.raise(rt, alloc, room, out, link) {
        return ending;
    }
    match server.turns(rt, alloc, room, turns, out, link, clock) {
        Ok(()) => Ending::Done,
        Err(ending) => ending,
    }
}
