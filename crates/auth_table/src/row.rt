//! One port of the table, and the addresses that are let in on it.

ghost use Rattle.std.specs.Prelude.{◌≡◌, ◌≤◌, ◌||◌, Some, IfSome, nat_lt, true, is_some, [], ◌∷◌, ◌++◌, length, filter};
ghost use Rattle.switch_event.specs.Config.{has_valid_vlans};
ghost use Rattle.table_defs.specs.Table.{done, fits, right_for, row_opened};
ghost use Rattle.switch_event.specs.declared.decision.Decision.TheVariants.{Forward};
ghost use Rattle.switch_defs.specs.Decide.{by_port};
ghost use Rattle.table_defs.specs.Change.{item_of};
ghost use Rattle.auth_table.specs.Meaning.{ForwardsTagged};
ghost use Rattle.std.specs.List.{AllByRecursion};
ghost use Rattle.auth_table.specs.Rows.{HasVlan, entries_of, first_held, right_given, stays};

use arrayvec::ArrayVec;
use machine_vars::Control;
use std::marker::Model;
use switch_event::limit::HOSTS_A_PORT;
use switch_event::{Decision, Drop9, PortConf};
use table_defs::Item;
use wire_core::Mac;

/// An address that is let in: the number of its session, and its VLAN, 1 to 4094.
#[derive(Clone, Copy, Debug, PartialEq, Eq)]
pub(crate) struct Held {
    pub(crate) address: Mac,
    pub(crate) session: u32,
    pub(crate) vlan: u16,
}

impl Default for Held {
    fn default() -> Held {
        Held {
            address: Mac([0; 6]),
            session: 0,
            vlan: 0,
        }
    }
}

/// A configured port: its link, its control, whether it lets guests in, and the addresses that it lets in.
#[derive(Drop)]
pub(crate) struct PortRow {
    conf: PortConf,
    link: bool,
    control: Control,
    guest_open: bool,
    held: ArrayVec<Held, HOSTS_A_PORT>,
}

impl Model for PortRow {
    ghost use Rattle.table_defs.specs.Table.{PortRow as Row};

    ghost Value = { Row };

    ghost use Rattle.auth_table.specs.Rows.{IsRow, entries_of};

    ghost view = { λ r. record {
      view = record { conf = r.conf; link = r.link; control = r.control; guest_open = r.guest_open };
      held = entries_of r.held.items;
    } };

    ghost invariant = { λ r. IsRow r.conf r.guest_open r.held.items };
}

impl PortRow {
    /// A port that is down, and lets nobody in.
    pub(crate) fn open(conf: PortConf) -> PortRow
        requires { has_valid_vlans conf ≡ true }
        ensures { result ≡ row_opened conf }
    {
        PortRow {
            conf,
            link: false,
            control: conf.control,
            guest_open: false,
            held: ArrayVec::new(),
        }
    }

    /// The same port once more.
    pub(crate) fn copied(&self) -> PortRow
        ensures { result ≡ self.now }
    {
        PortRow {
            conf: self.conf,
            link: self.link,
            control: self.control,
            guest_open: self.guest_open,
            held: same_held(self.held.as_slice()),
        }
    }

    /// Whether an item may be done here: guests are let in only where there is a VLAN for them, an address only
    /// into a VLAN of 1 to 4094, and only 16 of them.
    pub(crate) fn fits(&self, item: &Item) -> bool
        ensures { result ≡ fits (item_of item.now) self.now }
    {
        match *item {
            Item::Guest { port: _, on } => !on || self.conf.guest != 0,
            Item::Let {
                port: _,
                mac,
                session: _,
                vlan,
            } => {
                (1..=4094).contains(&vlan)
                    && (find_held(mac, self.held.as_slice()).is_some()
                        || self.held.len() < HOSTS_A_PORT)
            }
            _ => true,
        }
    }

    /// Does an item.
    pub(crate) fn make(&mut self, item: &Item)
        requires { fits (item_of item.now) self.old ≡ true }
        ensures { self.new ≡ done (item_of item.now) self.old }
    {
        match *item {
            Item::Link { port: _, up } => self.link = up,
            Item::SetControl { port: _, control } => self.control = control,
            Item::Guest { port: _, on } => self.guest_open = on,
            Item::Let {
                port: _,
                mac,
                session,
                vlan,
            } => {
                let new = Held {
                    address: mac,
                    session,
                    vlan,
                };
                hold(new, &mut self.held);
            }
            Item::Bar { port: _, mac } => bar(mac, &mut self.held),
        }
    }

    /// What is decided on a frame of a source.
    pub(crate) fn decide(&self, source: Mac) -> Decision
        ensures decision { result ≡ by_port (Some self.now.view) (right_for source.0 self.now.held) }
        ensures vlan { ForwardsTagged result }
    {
        if !self.link {
            return Decision::Drop(Drop9::Down);
        }
        match self.control {
            Control::ForceUnauth => Decision::Drop(Drop9::Closed),
            Control::ForceAuth => guest(self.conf.native),
            Control::Auto => match find_held(source, self.held.as_slice()) {
                Some(held) => Decision::Forward {
                    session: held.session,
                    vlan: held.vlan,
                },
                None if self.guest_open => guest(self.conf.guest),
                None => Decision::Drop(Drop9::Unauthorised),
            },
        }
    }
}

fn same_held(held: &[Held]) -> ArrayVec<Held, HOSTS_A_PORT>
    requires { length held.now ≤ 16 }
    ensures { result.items ≡ held.now }
{
    let mut same = ArrayVec::new();
    for h in held {
        same.push(*h);
    }
    same
}

// It is forwarded without a session.
fn guest(vlan: u16) -> Decision
    ensures { result ≡ Forward 0 vlan }
{
    Decision::Forward { session: 0, vlan }
}

fn find_held(address: Mac, held: &[Held]) -> Option<Held>
    ensures found { result ≡ first_held address.0 held.now }
    ensures right { right_given result ≡ right_for address.0 (entries_of held.now) }
    ensures vlan { AllByRecursion HasVlan held.now → IfSome result HasVlan }
{
    held.iter().find(|h| h.address == address).copied()
}

// From now on the address is held so.
fn hold(new: Held, held: &mut ArrayVec<Held, HOSTS_A_PORT>)
    requires few { length held.old.items ≤ 16 }
    requires room { (is_some (right_for new.address.0 (entries_of held.old.items)) || nat_lt (length held.old.items) 16) ≡ true }
    ensures items { held.new.items ≡ filter (stays new.address.0) held.old.items ++ new ∷ [] }
    ensures few { length held.new.items ≤ 16 }
{
    bar(new.address, held);
    held.push(new);
}

// From now on the address is not held.
fn bar(address: Mac, held: &mut ArrayVec<Held, HOSTS_A_PORT>)
    ensures { held.new.items ≡ filter (stays address.0) held.old.items }
{
    held.retain(|h| h.address != address);
}
