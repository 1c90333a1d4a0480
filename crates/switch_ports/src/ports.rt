//! All configured ports.

ghost use Rattle.std.specs.Prelude.{◌≡◌, ◌++◌, ◌≤◌, ◌<◌, ◌+◌, ℕ, List, true, false, length, map, find, Some, IfOk, slice_index_or, is_some, None};
ghost use Rattle.std.specs.List.{list_any};
ghost use Rattle.machine_defs.specs.BackendTable.{is_auto};
ghost use Rattle.machine_defs.specs.Live.{InRange, Greeting, set, fresh};
ghost use Rattle.wire_defs.specs.Ethernet.{pae_group};
ghost use Rattle.out_tray.specs.Tray.{spare, turn_room};
ghost use Rattle.switch_event.specs.Config.{are_ports, is_valid};
ghost use Rattle.table_defs.specs.Change.{item_of};
ghost use Rattle.switch_defs.specs.Switch.{Port, Session, is_port, on_port, opened_port};
ghost use Rattle.switch_defs.specs.Session.{armed, unguested};
ghost use Rattle.switch_defs.specs.Turn.{guest_second, with_control, with_link};
ghost use Rattle.switch_defs.specs.Sound.{confs};
ghost use Rattle.table_defs.specs.Told.{opened_guests};
ghost use Rattle.switch_ports.specs.Ports.{IsForced, lets_guests, settled_at, shown, with_said};
ghost use Rattle.switch_ports.specs.Index.{place_of};

use crate::port::PortState;
use arrayvec::ArrayVec;
use machine_vars::{Control, Times};
use out_tray::Tray;
use std::alloc::{AllocError, Global};
use std::marker::Model;
use switch_event::{Config, PortConf};
use table_defs::Item;
use wire_core::Mac;

// One for each number of a port from 0 to 60; no port has the number 0.
const NUMBERS: usize = 61;

/// The configured ports of a switch, 60 at most, in the order of the settings.
#[derive(Drop)]
pub struct Ports {
    // Where the port of each number stands.
    places: [Option<usize>; 61],
    rows: Vec<PortState>,
}

impl Model for Ports {
    ghost use Rattle.std.specs.Prelude.{List};
    ghost use Rattle.switch_defs.specs.Switch.{Port};

    ghost Value = { List Port };

    ghost use Rattle.switch_defs.specs.Sound.{confs};
    ghost use Rattle.switch_ports.specs.Index.{IsIndex};

    ghost view = { λ p. p.rows.items };

    ghost invariant = { λ p. IsIndex p.places (confs p.rows.items) };
}

impl Ports {
    /// The ports of these settings, which must be valid: each link is down, and no guests are let in.
    /// Only this call takes memory. `AllocError`: there is none.
    pub fn open(alloc: Global, c: &Config) -> Result<Ports, AllocError>
        requires { is_valid c.now ≡ true }
        ensures { IfOk result (λ ports. ports ≡ map (opened_port c.now) c.now.ports) }
    {
        let rows = opened_rows(alloc, c)?;
        Ok(Ports {
            places: places_of(c.ports.as_slice()),
            rows,
        })
    }

    /// Makes these equal to other ports of the same settings.
    pub fn copy_from(&mut self, other: &Ports)
        requires { confs self.old ≡ confs other.now }
        ensures { self.new ≡ other.now }
    {
        copy_rows(&mut self.rows, &other.rows);
    }

    /// The port of this number; none exactly where none is configured.
    pub fn port(&self, n: u8) -> Option<&PortState>
        ensures { shown result ≡ find (is_port n) self.now }
    {
        let place = self.place(n)?;
        self.rows.get(place)
    }

    fn place(&self, n: u8) -> Option<usize>
        ensures { result ≡ place_of n (confs self.now) }
    {
        match self.places.get(usize::from(n)) {
            Some(place) => *place,
            None => None,
        }
    }

    /// The link of the port of this number is up or down.
    pub fn set_link(&mut self, n: u8, up: bool)
        ensures { self.new ≡ map (with_link n up) self.old }
    {
        if let Some(place) = self.place(n) {
            self.rows[place].set_link(up);
        }
    }

    /// The administrative control of the port of this number is set.
    pub fn set_control(&mut self, n: u8, control: Control)
        ensures { self.new ≡ map (with_control n control) self.old }
    {
        if let Some(place) = self.place(n) {
            self.rows[place].set_control(control);
        }
    }

    /// The port of this number waits for so many seconds before guests are let in, where authentication
    /// decides on it, its link is up, it has a VLAN for guests, and it has no session (`occupied`).
    pub fn arm(&mut self, n: u8, occupied: bool, wait: u32)
        ensures { (sessions : List Session) → list_any (on_port n) sessions ≡ occupied →
            self.new ≡ map (armed n sessions wait) self.old }
    {
        if let Some(place) = self.place(n) {
            self.rows[place].arm(occupied, wait);
        }
    }

    /// The port of this number lets no guests in, and does not wait to. Whether it let them in before.
    pub fn no_guests(&mut self, n: u8) -> bool
        ensures ports { self.new ≡ map (unguested n) self.old }
        ensures were { result ≡ lets_guests n self.old }
    {
        let Some(place) = self.place(n) else {
            return false;
        };
        let row = &mut self.rows[place];
        let were = row.guest_open();
        row.no_guests();
        were
    }

    /// A second goes by: for each port that lets guests in from now on an item is put behind those that
    /// are there, in the order of the settings.
    pub fn second(&mut self, items: &mut ArrayVec<Item, 1024>)
        requires { length items.old.items + length self.old ≤ 1024 }
        ensures ports { self.new ≡ map guest_second self.old }
        ensures items { map item_of items.new.items ≡
            map item_of items.old.items ++ opened_guests self.old }
    {
        rows_second(&mut self.rows, items);
    }

    /// A host of this address begins on the port of this number, which is forced, and answers it alone
    /// (IEEE Std 802.1X-2004, 8.2.4). It may take 72,098 octets of the tray, of which 80,000 are spare.
    pub fn greet(&mut self, n: u8, from: Mac, tray: &mut Tray)
        requires forced { (q : Port) × (find (is_port n) self.old ≡ Some q) × IsForced q }
        requires room { turn_room ≤ spare tray.old }
        ensures ports { (q : Port) → find (is_port n) self.old ≡ Some q →
            self.new ≡ settled_at n (set (Greeting from.0) q.forced) self.old }
        ensures sent { (q : Port) → find (is_port n) self.old ≡ Some q →
            tray.new ≡ with_said (set (Greeting from.0) q.forced) tray.old }
        ensures room { spare tray.old ≤ spare tray.new + 72098 }
    {
        let Some(place) = self.place(n) else {
            unreachable!()
        };
        self.rows[place].greet(from, tray);
    }

    /// The port of this number, whose address is `own`, begins under a forced control, and says to all
    /// hosts what is decided. It may take 72,098 octets of the tray, of which 80,000 are spare.
    pub fn begin(&mut self, n: u8, own: Mac, control: Control, times: &Times, tray: &mut Tray)
        requires there { is_some (find (is_port n) self.old) ≡ true }
        requires forced { is_auto control ≡ false }
        requires times { InRange times.now }
        requires room { turn_room ≤ spare tray.old }
        ensures ports { self.new ≡ settled_at n (fresh n own.0 pae_group control times.now) self.old }
        ensures sent { tray.new ≡ with_said (fresh n own.0 pae_group control times.now) tray.old }
        ensures room { spare tray.old ≤ spare tray.new + 72098 }
    {
        let Some(place) = self.place(n) else {
            unreachable!()
        };
        self.rows[place].begin(own, control, times, tray);
    }
}

fn opened_rows(alloc: Global, c: &Config) -> Result<Vec<PortState>, AllocError>
    ensures { IfOk result (λ rows. rows.items ≡ map (opened_port c.now) c.now.ports) }
{
    let mut rows = Vec::with_capacity(alloc, c.ports.len())?;
    for conf in c.ports.as_slice() {
        rows.push(PortState::open(*conf, c))?;
    }
    Ok(rows)
}

fn places_of(ports: &[PortConf]) -> [Option<usize>; 61]
    ensures size { length result ≡ 61 }
    ensures places { (n : ℕ) → n < 61 → slice_index_or result n None ≡ place_of n ports.now }
{
    let mut places = [None; NUMBERS];
    for n in 0..NUMBERS {
        places[n] = ports.iter().position(|p| usize::from(p.port) == n);
    }
    places
}

fn copy_rows(rows: &mut [PortState], others: &[PortState])
    requires { length rows.old ≡ length others.now }
    ensures { rows.new ≡ others.now }
{
    for n in 0..rows.len() {
        rows[n].copy_from(&others[n]);
    }
}

fn rows_second(rows: &mut [PortState], items: &mut ArrayVec<Item, 1024>)
    requires { length items.old.items + length rows.old ≤ 1024 }
    ensures rows { rows.new ≡ map guest_second rows.old }
    ensures items { map item_of items.new.items ≡
        map item_of items.old.items ++ opened_guests rows.old }
{
    for row in rows.iter_mut() {
        if row.second() {
            items.push(Item::Guest {
                port: row.conf().port,
                on: true,
            });
        }
    }
}
