// A server: one record, one datagram, one turn.
ghost use Rattle.std.specs.Prelude.{◌≡◌, ◌≤◌, ◌<◌, ◌+◌, ◌^◌, ◌++◌, ◌∷◌, [], ℕ, List, Option, OnOk, IfOk, IfErr, length, false, true};
ghost use Rattle.std.specs.Io.KnownBytes.{Appends, Keeps};
ghost use Rattle.wire_defs.specs.Outside.{HasCause};
ghost use Rattle.event_record.specs.declared.TheConstants.{MOST_EVENTS};
ghost use Rattle.trace_defs.specs.Records.{IsPort, IsRecord};
ghost use Rattle.trace_print.specs.Printing.{HasLane, line_text};
ghost use Rattle.outside_link.specs.Link.{Grows, Outgoing, Same};
ghost use Rattle.serve_defs.specs.declared.TheConstants.{MOST_TAKEN};
ghost use Rattle.serve_defs.specs.Log.{commented};
ghost use Rattle.serve_defs.specs.Served as served;
ghost use Rattle.serve_defs.specs.Served.{turn_steps};
ghost use Rattle.serve_defs.specs.Served.Step.{Up, Time, Ask};
ghost use Rattle.switch_event.specs.Sent.{Sent};
ghost use Rattle.serve_defs.specs.Posted.{Home, all_posted};
ghost use Rattle.serve_loop.specs.Arrived.{IsLine, arrival_of, entry_of};
ghost use Rattle.serve_loop.specs.Homes.{AreHomes};
ghost use Rattle.serve_loop.specs.Post.{SendsFirst};
ghost use Rattle.serve_loop.specs.Run.{EnterHalts, HasRunCause, IsAt, IsSound, IsToSend, NotRun, Runs, Sends, Steps, Stops, TakeHalts, TakesText, outer_of};

use crate::arrived::{Arrived, Entry, ends_run, read_datagram};
use crate::comment::print_comments;
use crate::ending::Ending;
use crate::homes::Homes;
use crate::post::Post;
use authenticator::Authenticator;
use event_record::{Octets, Record};
use outside_core::{Failed, Sink};
use outside_link::{Addr, Clock, Link};
use outside_text::write_whole;
use sequential::Sequential;
use std::alloc::Global;
use std::net::Net;
use switch_event::{Config, Event};
use trace_defs::Line;
use trace_print::print_line;

/// A server between two records.
#[derive(Drop)]
pub struct Server<A> {
    /// The settings, with the first second as their clock.
    pub config: Config,
    /// The authenticator.
    pub core: Sequential<A>,
    /// Where the hosts of the ports are.
    pub homes: Homes,
    /// The last second that was counted.
    pub last: u64,
    /// The block of the last record.
    pub block: Vec<u8>,
    /// Its line, and its block as comment lines.
    pub text: Vec<u8>,
}

impl<A: Authenticator + Drop> Server<A> {
    // Writes the line of a record, and its block as comment lines.
    fn log<K: Sink>(&mut self, line: &Line, out: &mut K) -> Result<(), Ending>
        requires lane { HasLane line.now }
        ensures written { TakesText (K.taken out.old) (K.taken out.new)
            (line_text line.now ++ commented self.old.block.items) result }
        ensures cause { HasRunCause (K.faults out.old) (K.faults out.new) 0 0 result }
        ensures same { self.new ≡ record self.old { text = self.new.text } }
    {
        self.text.clear();
        print_line(line, &mut self.text)?;
        print_comments(&self.block, &mut self.text)?;
        match write_whole(out, &self.text) {
            Err(Failed) => Err(Ending::WriteFault),
            Ok(()) => Ok(()),
        }
    }

    // Runs a record: its block is there then, and the tray has what it sends.
    fn run(&mut self, alloc: Global, room: u64, entry: Entry<'_>) -> Result<Line, Ending>
        requires room { room ≤ MOST_EVENTS }
        requires sound { IsSound A.stands A.made room self.old }
        requires number { self.old.core.number + 1 < 2 ^ 64 }
        requires may { IsRecord self.old.config (entry_of entry) }
        ensures line { IfOk result (λ line. IsLine line (entry_of entry.entry)) }
        ensures runs { OnOk result
            (Runs A.stands A.made self.old self.new (entry_of entry.entry)) }
        ensures sends { OnOk result (Sends A.stands A.made self.old self.new entry.entry) }
        ensures not { IfErr result
            (λ e. NotRun A.stands A.made room self.old (entry_of entry.entry) e) }
        ensures sound { OnOk result (IsSound A.stands A.made room self.new) }
        ensures number { OnOk result (self.new.core.number ≤ self.old.core.number + 1) }
        ensures same { self.new ≡ record self.old
            { core = self.new.core; block = self.new.block } }
    {
        self.block.clear();
        match entry {
            Entry::Event(event) => {
                if self.core.serial() >= room {
                    return Err(Ending::Full);
                }
                let what = Record::of(alloc, &event)?;
                self.core.run_control(&what, &mut self.block)?;
                Ok(Line::Control { lane: 1, what })
            }
            Entry::Data { port, octets } => {
                self.core.run_data(port, octets, &mut self.block)?;
                Ok(Line::Data {
                    port,
                    octets: Octets::of(alloc, octets)?,
                })
            }
        }
    }

    // Sends what the record that was run sends.
    fn send<R: Net, L: Link>(&self, rt: &R, entry: Entry<'_>, link: &mut L) -> Result<(), Failed>
        ensures ok { (homes : List Home) (sent : List Sent) → AreHomes self.now.homes.table homes
            → IsToSend entry.entry self.now.core.tray.items sent
            → OnOk result (Grows (L.sent link.old) (L.sent link.new)
            (all_posted self.now.config homes sent)) }
        ensures err { (homes : List Home) (sent : List Sent) → AreHomes self.now.homes.table homes
            → IsToSend entry.entry self.now.core.tray.items sent
            → IfErr result (λ _. SendsFirst (L.sent link.old) (L.sent link.new)
            (all_posted self.now.config homes sent)) }
        ensures waits { Same (L.waits link.old) (L.waits link.new) }
        ensures bound { Same (L.bound link.old) (L.bound link.new) }
        ensures cause { HasCause (L.faults link.old) (L.faults link.new) result }
    {
        match entry {
            Entry::Event(_) => {
                let post = Post {
                    server: self.config.server,
                    homes: &self.homes,
                };
                post.send_all(rt, self.core.tray(), link)
            }
            Entry::Data { .. } => Ok(()),
        }
    }

    // Takes a record: it is run and logged, and then what it sends is sent.
    fn enter<R: Net, K: Sink, L: Link>(
        &mut self,
        rt: &R,
        alloc: Global,
        room: u64,
        arrived: Arrived<'_>,
        out: &mut K,
        link: &mut L,
    ) -> Result<(), Ending>
        requires room { room ≤ MOST_EVENTS }
        requires sound { IsSound A.stands A.made room self.old }
        requires number { self.old.core.number + 1 < 2 ^ 64 }
        requires may { IsRecord self.old.config (entry_of arrived.entry) }
        ensures ok { (origin : Option (List ℕ)) (first : Option (List Outgoing))
            (came : List served.Arrival)
            → IsAt A.stands A.made origin (K.taken out.old) first (L.sent link.old) self.old came
            → OnOk result (IsAt A.stands A.made origin (K.taken out.new) first (L.sent link.new)
            self.new (came ++ arrival_of arrived.entry ∷ [])) }
        ensures err { (origin : Option (List ℕ)) (first : Option (List Outgoing))
            (came : List served.Arrival)
            → IsAt A.stands A.made origin (K.taken out.old) first (L.sent link.old) self.old came
            → IfErr result (λ e. EnterHalts room self.old.config (arrival_of arrived.entry) origin
            (K.taken out.new) first (L.sent link.new) came e) }
        ensures sound { OnOk result (IsSound A.stands A.made room self.new) }
        ensures number { OnOk result (self.new.core.number ≤ self.old.core.number + 1) }
        ensures config { self.new.config ≡ self.old.config }
        ensures last { self.new.last ≡ self.old.last }
        ensures waits { Same (L.waits link.old) (L.waits link.new) }
        ensures bound { Same (L.bound link.old) (L.bound link.new) }
        ensures cause { HasRunCause (K.faults out.old) (K.faults out.new) (L.faults link.old)
            (L.faults link.new) result }
    {
        let line = self.run(alloc, room, arrived.entry)?;
        self.homes.note_arrival(arrived);
        self.log(&line, out)?;
        match self.send(rt, arrived.entry, link) {
            Err(Failed) => Err(Ending::LinkFault),
            Ok(()) => Ok(()),
        }
    }

    // Asks a channel, 0 to 5, and takes the datagram that it has.
    fn ask<R: Net, K: Sink, L: Link>(
        &mut self,
        rt: &R,
        alloc: Global,
        room: u64,
        channel: u8,
        buf: &mut [u8],
        out: &mut K,
        link: &mut L,
    ) -> Result<(), Ending>
        requires room { room ≤ MOST_EVENTS }
        requires sound { IsSound A.stands A.made room self.old }
        requires number { self.old.core.number + 1 < 2 ^ 64 }
        requires channel { channel < 6 }
        requires buf { length buf.old ≡ MOST_TAKEN + 1 }
        ensures ok { (m : Option (List ℕ)) → OnOk result (Steps A.stands A.made self.old.config
            (outer_of self.old.last m (L.waits link.old)) (Ask channel ∷ [])
            (outer_of self.new.last m (L.waits link.new)) (K.taken out.old) (K.taken out.new)
            (L.sent link.old) (L.sent link.new) self.old self.new) }
        ensures err { (m : Option (List ℕ)) → IfErr result (λ e. Stops A.stands A.made room self.old.config
            (outer_of self.old.last m (L.waits link.old)) (Ask channel ∷ [])
            (outer_of self.new.last m (L.waits link.new)) (K.taken out.old) (K.taken out.new)
            (L.sent link.old) (L.sent link.new) self.old e) }
        ensures sound { OnOk result (IsSound A.stands A.made room self.new) }
        ensures number { OnOk result (self.new.core.number ≤ self.old.core.number + 1) }
        ensures config { OnOk result (self.new.config ≡ self.old.config) }
        ensures bound { Same (L.bound link.old) (L.bound link.new) }
        ensures cause { HasRunCause (K.faults out.old) (K.faults out.new) (L.faults link.old)
            (L.faults link.new) result }
    {
        match link.recv(rt, channel, buf) {
            Err(Failed) => Err(Ending::LinkFault),
            Ok(None) => Ok(()),
            Ok(Some((from, count))) => {
                self.take(rt, alloc, room, channel, from, &buf[..count], out, link)
            }
        }
    }

    // Takes a datagram.
    fn take<R: Net, K: Sink, L: Link>(
        &mut self,
        rt: &R,
        alloc: Global,
        room: u64,
        channel: u8,
        from: Addr,
        octets: &[u8],
        out: &mut K,
        link: &mut L,
    ) -> Result<(), Ending>
        requires room { room ≤ MOST_EVENTS }
        requires sound { IsSound A.stands A.made room self.old }
        requires number { self.old.core.number + 1 < 2 ^ 64 }
        requires channel { channel < 6 }
        ensures ok { (origin : Option (List ℕ)) (first : Option (List Outgoing))
            (came : List served.Arrival)
            → IsAt A.stands A.made origin (K.taken out.old) first (L.sent link.old) self.old came
            → OnOk result ((served.ends_run channel octets.now ≡ false)
            × IsAt A.stands A.made origin (K.taken out.new) first (L.sent link.new) self.new
            (came ++ served.arrivals_of self.old.config channel
            (record { from = from; octets = octets.now }))) }
        ensures err { (origin : Option (List ℕ)) (first : Option (List Outgoing))
            (came : List served.Arrival)
            → IsAt A.stands A.made origin (K.taken out.old) first (L.sent link.old) self.old came
            → IfErr result (λ e. TakeHalts room self.old.config channel
            (record { from = from; octets = octets.now }) origin (K.taken out.new) first
            (L.sent link.new) came e) }
        ensures sound { OnOk result (IsSound A.stands A.made room self.new) }
        ensures number { OnOk result (self.new.core.number ≤ self.old.core.number + 1) }
        ensures config { self.new.config ≡ self.old.config }
        ensures last { self.new.last ≡ self.old.last }
        ensures waits { Same (L.waits link.old) (L.waits link.new) }
        ensures bound { Same (L.bound link.old) (L.bound link.new) }
        ensures cause { HasRunCause (K.faults out.old) (K.faults out.new) (L.faults link.old)
            (L.faults link.new) result }
    {
        if ends_run(channel, octets) {
            return Err(Ending::Done);
        }
        match read_datagram(&self.config, channel, from, octets) {
            None => Ok(()),
            Some(arrived) => self.enter(rt, alloc, room, arrived, out, link),
        }
    }

    // Asks the clock, and takes a second where it has gone on.
    fn tick<R: Net, K: Sink, L: Link, C: Clock>(
        &mut self,
        rt: &R,
        alloc: Global,
        room: u64,
        out: &mut K,
        link: &mut L,
        clock: &mut C,
    ) -> Result<(), Ending>
        requires room { room ≤ MOST_EVENTS }
        requires sound { IsSound A.stands A.made room self.old }
        requires number { self.old.core.number + 1 < 2 ^ 64 }
        ensures ok { OnOk result (Steps A.stands A.made self.old.config
            (outer_of self.old.last (C.moments clock.old) (L.waits link.old)) (Time ∷ [])
            (outer_of self.new.last (C.moments clock.new) (L.waits link.new)) (K.taken out.old) (K.taken out.new)
            (L.sent link.old) (L.sent link.new) self.old self.new) }
        ensures err { IfErr result (λ e. Stops A.stands A.made room self.old.config
            (outer_of self.old.last (C.moments clock.old) (L.waits link.old)) (Time ∷ [])
            (outer_of self.new.last (C.moments clock.new) (L.waits link.new)) (K.taken out.old) (K.taken out.new)
            (L.sent link.old) (L.sent link.new) self.old e) }
        ensures sound { OnOk result (IsSound A.stands A.made room self.new) }
        ensures number { OnOk result (self.new.core.number ≤ self.old.core.number + 1) }
        ensures config { OnOk result (self.new.config ≡ self.old.config) }
        ensures bound { Same (L.bound link.old) (L.bound link.new) }
        ensures cause { HasRunCause (K.faults out.old) (K.faults out.new) (L.faults link.old)
            (L.faults link.new) result }
    {
        if clock.now() <= self.last {
            return Ok(());
        }
        self.last += 1;
        let second = Arrived {
            entry: Entry::Event(Event::Second),
            from: None,
        };
        self.enter(rt, alloc, room, second, out, link)
    }

    /// Takes the link of a port that comes up. The port is configured.
    pub fn set_up<R: Net, K: Sink, L: Link>(
        &mut self,
        rt: &R,
        alloc: Global,
        room: u64,
        port: u8,
        out: &mut K,
        link: &mut L,
    ) -> Result<(), Ending>
        requires room { room ≤ MOST_EVENTS }
        requires sound { IsSound A.stands A.made room self.old }
        requires number { self.old.core.number + 1 < 2 ^ 64 }
        requires port { IsPort self.old.config port }
        ensures ok { (m : Option (List ℕ)) → OnOk result (Steps A.stands A.made self.old.config
            (outer_of self.old.last m (L.waits link.old)) (Up port ∷ [])
            (outer_of self.new.last m (L.waits link.new)) (K.taken out.old) (K.taken out.new)
            (L.sent link.old) (L.sent link.new) self.old self.new) }
        ensures err { (m : Option (List ℕ)) → IfErr result (λ e. Stops A.stands A.made room self.old.config
            (outer_of self.old.last m (L.waits link.old)) (Up port ∷ [])
            (outer_of self.new.last m (L.waits link.new)) (K.taken out.old) (K.taken out.new)
            (L.sent link.old) (L.sent link.new) self.old e) }
        ensures sound { OnOk result (IsSound A.stands A.made room self.new) }
        ensures number { OnOk result (self.new.core.number ≤ self.old.core.number + 1) }
        ensures config { OnOk result (self.new.config ≡ self.old.config) }
        ensures bound { Same (L.bound link.old) (L.bound link.new) }
        ensures cause { HasRunCause (K.faults out.old) (K.faults out.new) (L.faults link.old)
            (L.faults link.new) result }
        ensures last { self.new.last ≡ self.old.last }
    {
        let up = Arrived {
            entry: Entry::Event(Event::Link { port, up: true }),
            from: None,
        };
        self.enter(rt, alloc, room, up, out, link)
    }

    /// Takes a turn: the clock is asked, and then each channel.
    pub fn turn<R: Net, K: Sink, L: Link, C: Clock>(
        &mut self,
        rt: &R,
        alloc: Global,
        room: u64,
        buf: &mut [u8],
        out: &mut K,
        link: &mut L,
        clock: &mut C,
    ) -> Result<(), Ending>
        requires room { room ≤ MOST_EVENTS }
        requires sound { IsSound A.stands A.made room self.old }
        requires number { self.old.core.number + 7 < 2 ^ 64 }
        requires buf { length buf.old ≡ MOST_TAKEN + 1 }
        ensures ok { OnOk result (Steps A.stands A.made self.old.config
            (outer_of self.old.last (C.moments clock.old) (L.waits link.old)) turn_steps
            (outer_of self.new.last (C.moments clock.new) (L.waits link.new)) (K.taken out.old) (K.taken out.new)
            (L.sent link.old) (L.sent link.new) self.old self.new) }
        ensures err { IfErr result (λ e. Stops A.stands A.made room self.old.config
            (outer_of self.old.last (C.moments clock.old) (L.waits link.old)) turn_steps
            (outer_of self.new.last (C.moments clock.new) (L.waits link.new)) (K.taken out.old) (K.taken out.new)
            (L.sent link.old) (L.sent link.new) self.old e) }
        ensures sound { OnOk result (IsSound A.stands A.made room self.new) }
        ensures number { OnOk result (self.new.core.number ≤ self.old.core.number + 7) }
        ensures config { OnOk result (self.new.config ≡ self.old.config) }
        ensures bound { Same (L.bound link.old) (L.bound link.new) }
        ensures cause { HasRunCause (K.faults out.old) (K.faults out.new) (L.faults link.old)
            (L.faults link.new) result }
        ensures buf { length buf.new ≡ MOST_TAKEN + 1 }
    {
        self.tick(rt, alloc, room, out, link, clock)?;
        'channels: for channel in 0..6 {
            self.ask(rt, alloc, room, channel, buf, out, link)?;
        }
        Ok(())
    }
}
