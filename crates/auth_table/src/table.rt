//! The table, and the calls on it.

ghost use Rattle.std.specs.Prelude.{◌≡◌, true, map};
ghost use Rattle.wire_defs.specs.Ethernet.{is_reserved as is_reserved_lem};
ghost use Rattle.std.specs.Option.{option_map};
ghost use Rattle.switch_event.specs.Config.{is_valid};
ghost use Rattle.eth_frame.specs.Frame.{fields};
ghost use Rattle.switch_defs.specs.Decide.{checks, first_drop as first_drop_lem};
ghost use Rattle.table_defs.specs.Table as model;
ghost use Rattle.table_defs.specs.Change.{item_of};
ghost use Rattle.auth_table.specs.Meaning.{ForwardsTagged, row_at};

use crate::row::PortRow;
use eth_frame::{EthDrop, Frame};
use machine_vars::Control;
use std::array;
use std::marker::Model;
use switch_event::{Config, Decision, Drop9, PortConf};
use table_defs::Item;
use wire_core::Mac;
use wire_defs::ethertype;

/// The rows of the table: one for each number of a port from 0 to 60; no port has the number 0.
const ROWS: usize = 61;

// The row of the port of one number, where that port is configured.
#[derive(Drop)]
struct Slot {
    row: Option<PortRow>,
}

impl Model for Slot {
    ghost use Rattle.std.specs.Prelude.{Option};
    ghost use Rattle.table_defs.specs.Table.{PortRow as Row};

    ghost Value = { Option Row };

    ghost view = { λ s. s.row };
}

impl Slot {
    fn copied(&self) -> Slot
        ensures { result ≡ self.now }
    {
        let row = match &self.row {
            Some(row) => Some(row.copied()),
            None => None,
        };
        Slot { row }
    }

    fn absorb(&mut self, item: &Item)
        ensures { self.new ≡ option_map (model.done_where_it_fits (item_of item.now)) self.old }
    {
        if let Some(row) = &mut self.row {
            if row.fits(item) {
                row.make(item);
            }
        }
    }
}

/// The configured ports, each with its link, its control and its VLANs, whether guests are let in there, and the
/// addresses of each that are let in, each with the number of its session and its VLAN.
#[derive(Drop)]
pub struct Table {
    rows: [Slot; 61],
}

impl Model for Table {
    ghost use Rattle.table_defs.specs.Table as model;

    ghost Value = { model.Table };

    ghost use Rattle.std.specs.Prelude.{◌≡◌, length};

    ghost view = { λ t. record { rows = t.rows } };

    ghost invariant = { λ t. length t.rows ≡ 61 };
}

impl Table {
    /// The same table once more.
    pub fn copied(&self) -> Table
        ensures { result ≡ self.now }
    {
        let mut rows = array::from_fn(|_| Slot { row: None });
        for n in 0..ROWS {
            rows[n] = self.rows[n].copied();
        }
        Table { rows }
    }

    fn row(&self, port: u8) -> Option<&PortRow>
        ensures { row_at result ≡ model.row_of port self.now }
    {
        self.rows.get(usize::from(port))?.row.as_ref()
    }

    fn absorb_item(&mut self, item: &Item)
        ensures { self.new ≡ model.absorbed self.old (item_of item.now) }
    {
        let at = usize::from(item.port());
        if at < ROWS {
            self.rows[at].absorb(item);
        }
    }
}

/// The table at the start: each port is down, and lets nobody in. The settings are valid.
pub fn opening(c: &Config) -> Table
    requires { is_valid c.now ≡ true }
    ensures { result ≡ model.opening_table c.now }
{
    let mut rows = array::from_fn(|_| Slot { row: None });
    for n in 0..ROWS {
        rows[n] = slot_opened(n, c);
    }
    Table { rows }
}

fn slot_opened(number: usize, c: &Config) -> Slot
    requires { is_valid c.now ≡ true }
    ensures { result ≡ option_map model.row_opened (model.conf_of number c.now.ports) }
{
    match conf_of(number, &c.ports) {
        Some(conf) => Slot {
            row: Some(PortRow::open(conf)),
        },
        None => Slot { row: None },
    }
}

// The settings of a port.
fn conf_of(number: usize, ports: &[PortConf]) -> Option<PortConf>
    ensures { result ≡ model.conf_of number ports.now }
{
    ports
        .iter()
        .find(|p| usize::from(p.port) == number)
        .copied()
}

/// Does the items in order. An item that does not fit changes nothing: one of a port that is not configured, guests
/// without a guest VLAN, a VLAN that is none, a seventeenth address.
pub fn absorb(t: &mut Table, items: &[Item])
    ensures { t.new ≡ model.all_absorbed t.old (map item_of items.now) }
{
    for item in items {
        t.absorb_item(item);
    }
}

/// Whether an item fits: its port is configured, guests have a VLAN, an address has one of 1 to 4094, and no port gets
/// a seventeenth address.
pub fn can_absorb(t: &Table, item: &Item) -> bool
    ensures { result ≡ model.can_absorb t.now (item_of item.now) }
{
    match t.row(item.port()) {
        Some(row) => row.fits(item),
        None => false,
    }
}

/// What is decided on a frame that came in on a port; a port that is not configured is down.
pub fn decide(t: &Table, port: u8, frame: &[u8]) -> Decision
    ensures decision { result ≡ model.decide_table t.now port frame.now }
    ensures vlan { ForwardsTagged result }
{
    let fields = match eth_frame::parse(frame) {
        Err(EthDrop::Runt) => return Decision::Drop(Drop9::Runt),
        Err(EthDrop::Giant) => return Decision::Drop(Drop9::Giant),
        Ok(fields) => fields,
    };
    if let Some(reason) = first_drop(&fields) {
        return Decision::Drop(reason);
    }
    match t.row(port) {
        Some(row) => row.decide(fields.from),
        None => Decision::Drop(Drop9::Down),
    }
}

// Why a frame is dropped whatever its port and its source are.
fn first_drop(frame: &Frame<'_>) -> Option<Drop9>
    ensures { result ≡ first_drop_lem (checks (fields frame.now)) }
{
    if frame.kind == ethertype::EAPOL {
        Some(Drop9::Control)
    } else if is_reserved(frame.to) {
        Some(Drop9::Reserved)
    } else if frame.kind == ethertype::VLAN_TAG {
        Some(Drop9::Tagged)
    } else if frame.from.0[0] % 2 == 1 {
        Some(Drop9::GroupSource)
    } else {
        None
    }
}

// The addresses that no bridge forwards (IEEE Std 802.1D, 7.12.6).
fn is_reserved(address: Mac) -> bool
    ensures { result ≡ is_reserved_lem address.0 }
{
    let [a, b, c, d, e, last] = address.0;
    [a, b, c, d, e] == [0x01, 0x80, 0xc2, 0x00, 0x00] && last < 16
}
