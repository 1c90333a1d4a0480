//! The phases of a day.
ghost use Rattle.std.specs.Prelude.{◌≡◌, ◌+◌, ◌*◌, ◌<◌, ◌≤◌, ℕ, length, map, OnOk};
ghost use Rattle.std.specs.List.{flat_map};
ghost use Rattle.switch_defs.specs.Laws.{most_turns};
ghost use Rattle.day_defs.specs.Office.{hosts as hosts_of};
ghost use Rattle.day_defs.specs.Day as day;
ghost use Rattle.day_maker.specs.Making.{Stands, Makes};

use crate::maker::DayMaker;
use authenticator::Authenticator;
use day_defs::{FRAMES_AN_HOUR, PORTS, Phase, SECONDS_A_FRAME};
use event_record::TraceRecord;
use std::alloc::{AllocError, Global};

impl<A: Authenticator + Drop> DayMaker<A> {
    /// Adds the records of a phase. There must be room for them in a history. `AllocError`: there is
    /// no memory; then the maker is not used again.
    pub fn phase(
        &mut self,
        alloc: Global,
        which: Phase,
        records: &mut Vec<TraceRecord>,
    ) -> Result<(), AllocError>
        requires day { (d : day.Day) × Stands A.stands self.old d }
        requires few { A.made self.old.core + length (day.acts_of self.old.hosts which) ≤ most_turns }
        ensures { OnOk result (Makes A.stands A.made self.old self.new (day.acts_of self.old.hosts which) records.old.items records.new.items) }
    {
        match which {
            Phase::Arrival => self.arrival(alloc, records),
            Phase::Hour => self.hour(alloc, records),
            Phase::Renewal => self.renewal(alloc, records),
        }
    }

    // The links of all ports come up, and the hosts log in.
    fn arrival(&mut self, alloc: Global, records: &mut Vec<TraceRecord>) -> Result<(), AllocError>
        requires day { (d : day.Day) × Stands A.stands self.old d }
        requires few { A.made self.old.core + length (day.arrival self.old.hosts) ≤ most_turns }
        ensures { OnOk result (Makes A.stands A.made self.old self.new (day.arrival self.old.hosts) records.old.items records.new.items) }
    {
        self.links_up(records)?;
        self.log_in_all(alloc, records)
    }

    // An hour goes by.
    fn hour(&mut self, alloc: Global, records: &mut Vec<TraceRecord>) -> Result<(), AllocError>
        requires day { (d : day.Day) × Stands A.stands self.old d }
        requires few { A.made self.old.core + length (day.hour self.old.hosts) ≤ most_turns }
        ensures { OnOk result (Makes A.stands A.made self.old self.new (day.hour self.old.hosts) records.old.items records.new.items) }
    {
        for _part in 0..FRAMES_AN_HOUR {
            self.seconds_and_frames(alloc, records)?;
        }
        Ok(())
    }

    // The hosts log in again, and each sends a frame.
    fn renewal(&mut self, alloc: Global, records: &mut Vec<TraceRecord>) -> Result<(), AllocError>
        requires day { (d : day.Day) × Stands A.stands self.old d }
        requires few { A.made self.old.core + length (day.renewal self.old.hosts) ≤ most_turns }
        ensures { OnOk result (Makes A.stands A.made self.old self.new (day.renewal self.old.hosts) records.old.items records.new.items) }
    {
        for n in 0..self.hosts {
            self.renew(alloc, n + 1, records)?;
        }
        Ok(())
    }

    fn links_up(&mut self, records: &mut Vec<TraceRecord>) -> Result<(), AllocError>
        requires day { (d : day.Day) × Stands A.stands self.old d }
        requires few { A.made self.old.core + 60 ≤ most_turns }
        ensures { OnOk result (Makes A.stands A.made self.old self.new day.links records.old.items records.new.items) }
    {
        for n in 0..PORTS {
            self.link_up(n + 1, records)?;
        }
        Ok(())
    }

    fn log_in_all(
        &mut self,
        alloc: Global,
        records: &mut Vec<TraceRecord>,
    ) -> Result<(), AllocError>
        requires day { (d : day.Day) × Stands A.stands self.old d }
        requires few { A.made self.old.core + 3 * self.old.hosts ≤ most_turns }
        ensures { OnOk result (Makes A.stands A.made self.old self.new (flat_map day.log_in (hosts_of self.old.hosts)) records.old.items records.new.items) }
    {
        for n in 0..self.hosts {
            self.log_in(alloc, n + 1, records)?;
        }
        Ok(())
    }

    // A host logs in.
    fn log_in(
        &mut self,
        alloc: Global,
        host: u8,
        records: &mut Vec<TraceRecord>,
    ) -> Result<(), AllocError>
        requires day { (d : day.Day) × Stands A.stands self.old d }
        requires few { A.made self.old.core + 3 ≤ most_turns }
        requires host { 1 ≤ host }
        requires known { host ≤ self.old.hosts }
        ensures { OnOk result (Makes A.stands A.made self.old self.new (day.log_in host) records.old.items records.new.items) }
    {
        self.start(alloc, host, records)?;
        self.respond(alloc, host, records)?;
        self.answer(alloc, host, records)
    }

    // A host logs in again, and sends a frame.
    fn renew(
        &mut self,
        alloc: Global,
        host: u8,
        records: &mut Vec<TraceRecord>,
    ) -> Result<(), AllocError>
        requires day { (d : day.Day) × Stands A.stands self.old d }
        requires few { A.made self.old.core + 3 ≤ most_turns }
        requires host { 1 ≤ host }
        requires known { host ≤ self.old.hosts }
        ensures { OnOk result (Makes A.stands A.made self.old self.new (day.renew host) records.old.items records.new.items) }
    {
        self.respond(alloc, host, records)?;
        self.answer(alloc, host, records)?;
        self.send(alloc, host, records)
    }

    // Some seconds go by, and each host sends a frame.
    fn seconds_and_frames(
        &mut self,
        alloc: Global,
        records: &mut Vec<TraceRecord>,
    ) -> Result<(), AllocError>
        requires day { (d : day.Day) × Stands A.stands self.old d }
        requires few { A.made self.old.core + 360 ≤ most_turns }
        ensures { OnOk result (Makes A.stands A.made self.old self.new (day.seconds_and_frames self.old.hosts) records.old.items records.new.items) }
    {
        self.seconds(records)?;
        self.send_all(alloc, records)
    }

    fn seconds(&mut self, records: &mut Vec<TraceRecord>) -> Result<(), AllocError>
        requires day { (d : day.Day) × Stands A.stands self.old d }
        requires few { A.made self.old.core + 360 ≤ most_turns }
        ensures { OnOk result (Makes A.stands A.made self.old self.new day.seconds records.old.items records.new.items) }
    {
        for _n in 0..SECONDS_A_FRAME {
            self.second(records)?;
        }
        Ok(())
    }

    fn send_all(&mut self, alloc: Global, records: &mut Vec<TraceRecord>) -> Result<(), AllocError>
        ensures { OnOk result (Makes A.stands A.made self.old self.new (map day.Send (hosts_of self.old.hosts)) records.old.items records.new.items) }
    {
        for n in 0..self.hosts {
            self.send(alloc, n + 1, records)?;
        }
        Ok(())
    }
}
