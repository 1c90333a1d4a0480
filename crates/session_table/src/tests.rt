//! What no clause says: each call once, the edges of a port, and long calls beside a plain list.

use crate::{CopyFrom, Slots};
use std::test::Fail;
use wire_core::Mac;

impl CopyFrom for u32 {
    fn copied(&self) -> u32 {
        *self
    }

    fn copy_from(&mut self, other: &u32) {
        *self = *other;
    }
}

fn mac(host: u8) -> Mac {
    Mac([2, 0, 0, 0, 0, host])
}

// Holds a value for a host that is new on its port.
fn hold(slots: &mut Slots<u32>, port: u8, host: u8, value: u32) -> Option<usize> {
    if port == 0 || port > 60 {
        return None;
    }
    let address = mac(host);
    match slots.find(port, address) {
        Some(_) => None,
        None => slots.insert(port, address, value).ok(),
    }
}

#[test]
fn nothing_is_held_at_the_start(rt: HostRuntime) -> Result<(), Fail> {
    let mut slots: Slots<u32> = Slots::open(rt.alloc())?;
    for port in 0..255 {
        assert_eq!(rt; slots.find(port, mac(1)), None);
        assert_eq!(rt; slots.count(port), 0);
    }
    for at in 0..970 {
        assert!(rt; slots.get(at).is_none());
        assert!(rt; slots.get_mut(at).is_none());
        assert_eq!(rt; slots.key(at), None);
        assert_eq!(rt; slots.remove(at), None);
    }
    assert_eq!(rt; slots.len(), 0);
    assert_eq!(rt; slots.place_at(0), None);
    Ok(())
}

#[test]
fn a_seventeenth_host_is_refused(rt: HostRuntime) -> Result<(), Fail> {
    let mut slots = Slots::open(rt.alloc())?;
    for host in 0..16 {
        assert_eq!(rt;
            hold(&mut slots, 60, host, 7),
            Some(944 + usize::from(host))
        );
    }
    assert_eq!(rt; hold(&mut slots, 60, 16, 8), None);
    assert_eq!(rt; slots.find(60, mac(16)), None);
    assert_eq!(rt; slots.find(60, mac(5)), Some(949));
    assert_eq!(rt; slots.key(949), Some((60, mac(5))));
    assert_eq!(rt; slots.count(60), 16);
    assert_eq!(rt; slots.remove(949), Some(7));
    assert_eq!(rt; slots.count(60), 15);
    assert_eq!(rt; hold(&mut slots, 60, 16, 8), Some(949));
    assert_eq!(rt; hold(&mut slots, 60, 5, 9), None);
    assert_eq!(rt; hold(&mut slots, 59, 5, 9), Some(928));
    assert_eq!(rt; slots.len(), 17);
    Ok(())
}

#[test]
fn a_value_is_changed_in_its_place_and_taken_out_once(rt: HostRuntime) -> Result<(), Fail> {
    let mut slots = Slots::open(rt.alloc())?;
    assert_eq!(rt; hold(&mut slots, 1, 1, 11), Some(0));
    assert_eq!(rt; hold(&mut slots, 2, 1, 12), Some(16));
    assert_eq!(rt; slots.find(1, mac(1)), Some(0));
    assert_eq!(rt; slots.find(2, mac(1)), Some(16));
    assert_eq!(rt; slots.find(3, mac(1)), None);
    if let Some(value) = slots.get_mut(16) {
        *value = 13;
    }
    assert_eq!(rt; slots.remove(0), Some(11));
    assert_eq!(rt; slots.remove(0), None);
    assert_eq!(rt; slots.find(1, mac(1)), None);
    assert_eq!(rt; slots.get(16).copied(), Some(13));
    assert_eq!(rt; slots.get(0).copied(), None);
    assert_eq!(rt; slots.remove(960), None);
    let mut other = Slots::open(rt.alloc())?;
    assert_eq!(rt; hold(&mut other, 7, 7, 14), Some(96));
    other.copy_from(&slots);
    assert!(rt; is_as(&other, &[(2, 1, 13)]));
    Ok(())
}

// Whether the places, keys and values of the order are those of a list.
fn is_as(slots: &Slots<u32>, list: &[(u8, u8, u32)]) -> bool {
    let mut same = slots.len() == list.len() && slots.place_at(list.len()).is_none();
    for n in 0..list.len() {
        let (port, host, value) = list[n];
        same = same
            && match slots.place_at(n) {
                Some(at) => {
                    slots.key(at) == Some((port, mac(host)))
                        && slots.get(at).copied() == Some(value)
                        && slots.find(port, mac(host)) == Some(at)
                }
                None => false,
            };
    }
    same
}

#[test]
fn long_calls_go_beside_a_plain_list(rt: HostRuntime) -> Result<(), Fail> {
    let mut slots = Slots::open(rt.alloc())?;
    let mut list: Vec<(u8, u8, u32)> = Vec::new(rt.alloc());
    let mut seed: u32 = 7;
    for round in 0..4000 {
        seed = seed.wrapping_mul(1664525).wrapping_add(1013904223);
        let port = [1, 20, 39, 60][(seed >> 8) as usize % 4];
        let host = ((seed >> 12) % 24) as u8;
        let known = list.iter().find(|e| e.0 == port && e.1 == host).copied();
        let found = slots.find(port, mac(host));
        assert_eq!(rt; found.is_some(), known.is_some());
        if let (Some(at), Some(entry)) = (found, known) {
            assert_eq!(rt; slots.remove(at), Some(entry.2));
            list.retain(|e| e.0 != port || e.1 != host);
        } else {
            let held = list.iter().filter(|e| e.0 == port).count();
            assert_eq!(rt; slots.count(port), held);
            assert_eq!(rt; hold(&mut slots, port, host, round).is_some(), held < 16);
            if held < 16 {
                list.push((port, host, round))?;
            }
        }
        assert!(rt; is_as(&slots, &list), "round {round}");
    }
    Ok(())
}
