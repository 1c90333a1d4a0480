//! The table of places, and the order in which they were taken.

ghost use Rattle.std.specs.Prelude.{◌≡◌, ◌≤◌, ◌<◌, ◌++◌, ◌∷◌, [], true, Some, None, IfOk, OnOk, OnErr, is_some, length, option_copied, replicate, filter, slice_get, slice_index_or};
ghost use Rattle.std.specs.Option.{option_copied_mut};
ghost use Rattle.std.specs.Option.Follows.{option_follows_value};
ghost use Rattle.std.specs.Borrow.{sem};
ghost use Rattle.session_table.specs.Slots.{IsTable, IsTakenFor, count_on, is_other, is_port, key_at, place_for, places_of, value_at};

use crate::port::{count_in, find_in, free_in};
use arrayvec::ArrayVec;
use std::alloc::{AllocError, Global};
use std::marker::Model;
use switch_event::limit::{HOSTS_A_PORT, PORTS, SESSIONS};
use wire_core::Mac;

/// A seventeenth host on a port.
#[derive(Clone, Copy, Debug, PartialEq, Eq)]
pub struct PortFull;

/// A value that can be made equal to another in its place. No call takes memory.
pub trait CopyFrom {
    ghost use Rattle.std.specs.Prelude.{◌≡◌};

    /// A value that is equal to this one.
    fn copied(&self) -> Self
        ensures { result ≡ self.now };

    /// Makes this equal to another.
    fn copy_from(&mut self, other: &Self)
        ensures { self.new ≡ other.now };
}

/// What is held for hosts, each at a place of its port, in the order in which they came: the list
/// of entries, the oldest first. Places 0 to 15 are of port 1, 16 to 31 of port 2, up to 959.
#[derive(Drop)]
pub struct Slots<T> {
    /// The address that is held at each place.
    hosts: Vec<Option<Mac>>,
    /// What is held for it, at the same place.
    values: Vec<Option<T>>,
    /// The places at which something is held, in the order in which they were taken.
    order: ArrayVec<u16, SESSIONS>,
}

impl<T> Model for Slots<T> {
    ghost use Rattle.std.specs.Prelude.{List};
    ghost use Rattle.session_table.specs.Slots.{Entry};

    ghost Value = { List (Entry T) };

    ghost use Rattle.session_table.specs.Rows.{AreKept, entries_of};

    ghost view = { λ s. entries_of s.hosts.items s.values.items s.order.items };

    ghost invariant = { λ s. AreKept s.hosts.items s.values.items s.order.items };
}

impl<T: Drop> Slots<T> {
    ghost use Rattle.session_table.specs.Lends.{lends_value, lends_get};

    /// Nothing is held. No later call takes memory.
    pub fn open(alloc: Global) -> Result<Slots<T>, AllocError>
        ensures { IfOk result (λ s. s ≡ []) }
    {
        let hosts = nothing(alloc)?;
        let values = nothing(alloc)?;
        Ok(Slots {
            hosts,
            values,
            order: ArrayVec::new(),
        })
    }

    /// The place of an address on a port; none exactly where nothing is held for it there. Only the
    /// port's sixteen places are looked at.
    pub fn find(&self, port: u8, mac: Mac) -> Option<usize>
        ensures place { result ≡ place_for port mac.0 self.now }
        ensures table { IsTable self.now }
    {
        let hosts = self.hosts.as_slice();
        if port == 0 || port > PORTS {
            return None;
        }
        find_in(hosts, HOSTS_A_PORT * usize::from(port - 1), mac)
    }

    /// How many hosts are held on a port, 16 at most.
    pub fn count(&self, port: u8) -> usize
        ensures count { result ≡ count_on port self.now }
        ensures most { result ≤ 16 }
    {
        let hosts = self.hosts.as_slice();
        if port == 0 || port > PORTS {
            return 0;
        }
        count_in(hosts, HOSTS_A_PORT * usize::from(port - 1))
    }

    /// Holds a value for an address on a port, 1 to 60, that has none there, and gives its place: it
    /// comes last in the order. Where sixteen hosts are held on the port already, the value is
    /// dropped, and nothing else changes.
    pub fn insert(&mut self, port: u8, mac: Mac, value: T) -> Result<usize, PortFull>
        requires port { is_port port ≡ true }
        requires new { place_for port mac.0 self.old ≡ None }
        ensures taken { IfOk result (λ at. IsTakenFor port at self.old) }
        ensures held { IfOk result (λ at. self.new
            ≡ self.old ++ record { place = at; port = port; address = mac.0; value = value } ∷ []) }
        ensures room { OnOk result (count_on port self.old < 16) }
        ensures full { OnErr result (count_on port self.old ≡ 16) }
        ensures same { OnErr result (self.new ≡ self.old) }
        ensures table { IsTable self.new }
    {
        let first = HOSTS_A_PORT * usize::from(port - 1);
        let Some(at) = free_in(self.hosts.as_slice(), first) else {
            return Err(PortFull);
        };
        self.hosts[at] = Some(mac);
        self.values[at] = Some(value);
        self.order.push(at as u16);
        Ok(at)
    }

    /// What is held at a place; none exactly where nothing is.
    pub fn get(&self, at: usize) -> Option<&T>
        ensures { option_copied result ≡ value_at at self.now }
    {
        held(self.values.as_slice(), at)
    }

    /// What is held at a place, to be changed there; none exactly where nothing is.
    pub fn get_mut(&mut self, at: usize) -> Option<&mut T>
        ensures* writes_back { sem 𝓛 (lends_get T.row self.entry at result) }
        ensures value { option_copied_mut result ≡ value_at at self.old }
    {
        if self.get(at).is_some() {
            Some(self.value_mut(at))
        } else {
            None
        }
    }

    fn value_mut(&mut self, at: usize) -> &mut T
        requires { is_some (value_at at self.old) ≡ true }
        ensures* writes_back { sem 𝓛 (lends_value T.row self.entry at result) }
        ensures value { value_at at self.old ≡ Some result.now }
    {
        held_mut(&mut self.values[at])
    }

    /// Takes out what is held at a place; none exactly where nothing is. The others keep their
    /// order.
    pub fn remove(&mut self, at: usize) -> Option<T>
        ensures value { result ≡ value_at at self.old }
        ensures others { self.new ≡ filter (is_other at) self.old }
        ensures table { IsTable self.new }
    {
        if self.get(at).is_none() {
            return None;
        }
        let value = self.values[at].take();
        self.hosts[at] = None;
        self.order.retain(|place| usize::from(*place) != at);
        value
    }

    /// How many hosts are held, 960 at most.
    pub fn len(&self) -> usize
        ensures len { result ≡ length self.now }
        ensures few { result ≤ 960 }
    {
        self.order.len()
    }

    /// The place of the n-th host in the order in which they came, from 0 on; none exactly where
    /// there are no more.
    pub fn place_at(&self, n: usize) -> Option<usize>
        ensures place { result ≡ slice_get (places_of self.now) n }
        ensures table { IsTable self.now }
    {
        match self.order.as_slice().get(n) {
            Some(place) => Some(usize::from(*place)),
            None => None,
        }
    }

    /// The port and the address of the host that is held at a place; none exactly where nothing is.
    pub fn key(&self, at: usize) -> Option<(u8, Mac)>
        ensures { result ≡ key_at at self.now }
    {
        let mac = held(self.hosts.as_slice(), at)?;
        Some(((at / HOSTS_A_PORT + 1) as u8, *mac))
    }
}

impl<T: CopyFrom + Drop> Slots<T> {
    /// From now on holds what another table does, at the same places and in the same order. It takes
    /// no memory.
    pub fn copy_from(&mut self, other: &Slots<T>)
        ensures { self.new ≡ other.now }
    {
        self.hosts
            .as_mut_slice()
            .copy_from_slice(other.hosts.as_slice());
        copy_values(self.values.as_mut_slice(), other.values.as_slice());
        copy_order(&mut self.order, other.order.as_slice());
    }
}

// From now on they are the other values.
fn copy_values<T: CopyFrom + Drop>(values: &mut [Option<T>], other: &[Option<T>])
    requires places { length values.old ≡ 960 }
    requires others { length other.now ≡ 960 }
    ensures { values.new ≡ other.now }
{
    for at in 0..SESSIONS {
        copy_value(&mut values[at], &other[at]);
    }
}

// From now on it is the other value, or none.
fn copy_value<T: CopyFrom + Drop>(value: &mut Option<T>, other: &Option<T>)
    ensures { value.new ≡ other.now }
{
    match other {
        Some(other) => match value {
            Some(value) => value.copy_from(other),
            None => *value = Some(other.copied()),
        },
        None => *value = None,
    }
}

// From now on it is the other order.
fn copy_order(order: &mut ArrayVec<u16, SESSIONS>, other: &[u16])
    requires { length other.now ≤ 960 }
    ensures { order.new.items ≡ other.now }
{
    order.clear();
    for place in other {
        order.push(*place);
    }
}

// Nothing at each place.
fn nothing<U: Drop>(alloc: Global) -> Result<Vec<Option<U>>, AllocError>
    ensures { IfOk result (λ v. v.items ≡ replicate 960 None) }
{
    let mut places = Vec::with_capacity(alloc, SESSIONS)?;
    for _ in 0..SESSIONS {
        places.push(None)?;
    }
    Ok(places)
}

// What is at a place, where something is.
fn held<U>(places: &[Option<U>], at: usize) -> Option<&U>
    ensures { option_copied result ≡ slice_index_or places.now at None }
{
    match places.get(at) {
        Some(Some(value)) => Some(value),
        _ => None,
    }
}

// What an `Option` holds, to be changed there.
fn held_mut<U>(held: &mut Option<U>) -> &mut U
    requires { is_some held.old ≡ true }
    ensures* lends { sem 𝓛 (option_follows_value U.row held.entry result) }
    ensures value { held.old ≡ Some result.now }
{
    match held {
        Some(value) => value,
        None => unreachable!(),
    }
}
