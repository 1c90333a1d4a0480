//! The maker, and one thing after another that is done in the course of a day.
ghost use Rattle.std.specs.Prelude.{◌≡◌, ◌+◌, ◌<◌, ◌≤◌, ◌∷◌, [], true, ℕ, length, IfOk, OnOk};
ghost use Rattle.switch_defs.specs.Laws.{most_turns};
ghost use Rattle.event_record.specs.Record.{event_of};
ghost use Rattle.authenticator.specs.Meaning.{IsEvent};
ghost use Rattle.day_defs.specs.declared.TheConstants.{MOST_HOSTS};
ghost use Rattle.day_defs.specs.Office.{settings};
ghost use Rattle.day_defs.specs.Day.{Day, LinkUp, Start, Respond, Answer, Second as ASecond, Send, control as control_record, frame_of, dawn};
ghost use Rattle.wire_defs.specs.Ethernet.{is_control};
ghost use Rattle.day_maker.specs.Hearing.{note_of};
ghost use Rattle.day_maker.specs.Making.{Stands, Adds, Turned, TurnsFew, Makes};

use crate::accept::accept;
use crate::frames::{data_frame, port_of_host, response_frame, start_frame};
use crate::notes::{Note, blank_notes, hear_all};
use arrayvec::ArrayVec;
use authenticator::Authenticator;
use event_record::{Octets, Record, TraceRecord};
use out_tray::Tray;
use std::alloc::{AllocError, Global};
use switch_event::Config;
use switch_event::limit::SESSIONS;
use table_defs::Item;

// The records of a day come on the first lane.
const LANE: u8 = 1;

/// Makes the records of a day of some hosts, and runs them as it makes them.
#[derive(Drop)]
pub struct DayMaker<A> {
    /// The authenticator.
    pub(crate) core: A,
    /// What its last turn sent.
    pub(crate) tray: Tray,
    /// What its last turn changed for those that forward frames.
    pub(crate) items: Box<ArrayVec<Item, 1024>>,
    /// What was heard last for each host, in the order of their numbers.
    pub(crate) notes: Vec<Note>,
    /// How many hosts there are.
    pub(crate) hosts: u8,
}

impl<A: Authenticator + Drop> DayMaker<A> {
    /// The maker of a day of so many hosts, before its first phase. `AllocError`: there is no memory.
    pub fn open(alloc: Global, hosts: u8, config: &Config) -> Result<DayMaker<A>, AllocError>
        requires { config.now ≡ settings }
        ensures dawn { IfOk result (λ m. Stands A.stands m dawn) }
        ensures hosts { IfOk result (λ m. m.hosts ≡ hosts) }
        ensures turns { IfOk result (λ m. A.made m.core ≡ 0) }
    {
        Ok(DayMaker {
            core: A::open(alloc, config)?,
            tray: Tray::open(alloc, SESSIONS)?,
            items: Box::new(alloc, ArrayVec::new())?,
            notes: blank_notes(alloc, hosts)?,
            hosts,
        })
    }

    /// The link of a port comes up.
    pub(crate) fn link_up(
        &mut self,
        port: u8,
        records: &mut Vec<TraceRecord>,
    ) -> Result<(), AllocError>
        requires day { (d : Day) × Stands A.stands self.old d }
        requires few { A.made self.old.core < most_turns }
        requires least { 1 ≤ port }
        requires most { port ≤ 60 }
        ensures { OnOk result (Makes A.stands A.made self.old self.new (LinkUp port ∷ []) records.old.items records.new.items) }
    {
        self.control(Record::Link { port, up: true }, records)
    }

    /// A second goes by.
    pub(crate) fn second(&mut self, records: &mut Vec<TraceRecord>) -> Result<(), AllocError>
        requires day { (d : Day) × Stands A.stands self.old d }
        requires few { A.made self.old.core < most_turns }
        ensures { OnOk result (Makes A.stands A.made self.old self.new (ASecond ∷ []) records.old.items records.new.items) }
    {
        self.control(Record::Second, records)
    }

    /// A host starts.
    pub(crate) fn start(
        &mut self,
        alloc: Global,
        host: u8,
        records: &mut Vec<TraceRecord>,
    ) -> Result<(), AllocError>
        requires day { (d : Day) × Stands A.stands self.old d }
        requires few { A.made self.old.core < most_turns }
        requires host { 1 ≤ host }
        ensures { OnOk result (Makes A.stands A.made self.old self.new (Start host ∷ []) records.old.items records.new.items) }
    {
        let mut octets = ArrayVec::new();
        start_frame(host, &mut octets);
        self.frame(alloc, host, octets.as_slice(), records)
    }

    /// A host gives its identity, where it was asked for it.
    pub(crate) fn respond(
        &mut self,
        alloc: Global,
        host: u8,
        records: &mut Vec<TraceRecord>,
    ) -> Result<(), AllocError>
        requires day { (d : Day) × Stands A.stands self.old d }
        requires few { A.made self.old.core < most_turns }
        requires host { 1 ≤ host }
        requires known { host ≤ self.old.hosts }
        ensures { OnOk result (Makes A.stands A.made self.old self.new (Respond host ∷ []) records.old.items records.new.items) }
    {
        let Some(id) = self.note(host).identity else {
            return Ok(());
        };
        let mut octets = ArrayVec::new();
        response_frame(host, id, &mut octets);
        self.frame(alloc, host, octets.as_slice(), records)
    }

    /// The server answers for a host, where it was asked about it.
    pub(crate) fn answer(
        &mut self,
        alloc: Global,
        host: u8,
        records: &mut Vec<TraceRecord>,
    ) -> Result<(), AllocError>
        requires day { (d : Day) × Stands A.stands self.old d }
        requires few { A.made self.old.core < most_turns }
        requires host { 1 ≤ host }
        requires known { host ≤ self.old.hosts }
        ensures { OnOk result (Makes A.stands A.made self.old self.new (Answer host ∷ []) records.old.items records.new.items) }
    {
        let Some(question) = self.note(host).question else {
            return Ok(());
        };
        let octets = Octets::of(alloc, accept(host, &question).octets())?;
        self.control(
            Record::Radius {
                socket: question.socket,
                octets,
            },
            records,
        )
    }

    /// A host sends a frame.
    pub(crate) fn send(
        &mut self,
        alloc: Global,
        host: u8,
        records: &mut Vec<TraceRecord>,
    ) -> Result<(), AllocError>
        requires { 1 ≤ host }
        ensures { OnOk result (Makes A.stands A.made self.old self.new (Send host ∷ []) records.old.items records.new.items) }
    {
        let mut frame = ArrayVec::new();
        data_frame(host, &mut frame);
        let octets = Octets::of(alloc, frame.as_slice())?;
        records.push(TraceRecord::Data {
            port: port_of_host(host),
            octets,
        })?;
        Ok(())
    }

    // What was heard last for a host.
    fn note(&self, host: u8) -> Note
        requires day { (d : Day) × Stands A.stands self.now d }
        requires host { 1 ≤ host }
        requires known { host ≤ self.now.hosts }
        ensures { (d : Day) → Stands A.stands self.now d → result ≡ note_of d.sent host }
    {
        self.notes[usize::from(host) - 1]
    }

    // A frame of EAPOL comes from a host.
    fn frame(
        &mut self,
        alloc: Global,
        host: u8,
        octets: &[u8],
        records: &mut Vec<TraceRecord>,
    ) -> Result<(), AllocError>
        requires day { (d : Day) × Stands A.stands self.old d }
        requires few { A.made self.old.core < most_turns }
        requires host { 1 ≤ host }
        requires eapol { is_control octets.now ≡ true }
        ensures adds { OnOk result (Adds A.stands self.old self.new (frame_of host octets.now) records.old.items records.new.items) }
        ensures turns { OnOk result (TurnsFew A.made self.old self.new 1) }
    {
        let octets = Octets::of(alloc, octets)?;
        self.control(
            Record::Frame {
                port: port_of_host(host),
                octets,
            },
            records,
        )
    }

    // A control event: its record is added, it is run, and what it sends is heard.
    fn control(&mut self, what: Record, records: &mut Vec<TraceRecord>) -> Result<(), AllocError>
        requires day { (d : Day) × Stands A.stands self.old d }
        requires few { A.made self.old.core < most_turns }
        requires event { IsEvent settings (event_of what) }
        ensures adds { OnOk result (Adds A.stands self.old self.new (control_record (event_of what)) records.old.items records.new.items) }
        ensures turns { OnOk result (TurnsFew A.made self.old self.new 1) }
    {
        self.turn(&what);
        hear_all(&mut self.notes, &self.tray);
        records.push(TraceRecord::Control { lane: LANE, what })?;
        Ok(())
    }

    // One turn of the authenticator.
    fn turn(&mut self, what: &Record)
        requires day { (d : Day) × Stands A.stands self.old d }
        requires few { A.made self.old.core < most_turns }
        requires event { IsEvent settings (event_of what.now) }
        ensures turned { (d : Day) → Stands A.stands self.old d → Turned A.stands self.old self.new d (event_of what.now) }
        ensures hosts { self.new.hosts ≡ self.old.hosts }
        ensures turns { A.made self.new.core ≡ A.made self.old.core + 1 }
    {
        let _outcome = self
            .core
            .turn(&what.event(), &mut self.tray, &mut self.items);
    }
}
