//! A tray for no session has room for 100,000 octets, with 16 beside each item.

use out_tray::{Sent, Tray};
use wire_core::Addr;

const TO: Addr = Addr {
    ip: [192, 0, 2, 1],
    port: 3799,
};

// What is put into the tray, how many octets of zeros it has, and the room that it leaves.
#[derive(Clone, Copy)]
struct Row {
    way: Way,
    size: usize,
    spare: usize,
}

#[derive(Clone, Copy)]
enum Way {
    Frame,
    Reply,
    Radius,
}

const ROWS: [Row; 3] = [
    Row {
        way: Way::Frame,
        size: 49_984,
        spare: 50_000,
    },
    Row {
        way: Way::Reply,
        size: 49_968,
        spare: 16,
    },
    Row {
        way: Way::Radius,
        size: 0,
        spare: 0,
    },
];

fn put(tray: &mut Tray, way: Way, octets: &[u8]) -> bool {
    if octets.len() + 16 > tray.spare() {
        return false;
    }
    match way {
        Way::Frame => tray.put(Sent::Frame { port: 7, octets }),
        Way::Reply => tray.put(Sent::Reply { to: TO, octets }),
        Way::Radius => tray.put(Sent::Radius { socket: 3, octets }),
    }
    true
}

fn is_item(item: Option<Sent<'_>>, way: Way, wanted: &[u8]) -> bool {
    match (way, item) {
        (Way::Frame, Some(Sent::Frame { port, octets })) => port == 7 && octets == wanted,
        (Way::Reply, Some(Sent::Reply { to, octets })) => to == TO && octets == wanted,
        (Way::Radius, Some(Sent::Radius { socket, octets })) => socket == 3 && octets == wanted,
        _ => false,
    }
}

#[test]
fn a_tray_is_filled_to_its_last_octet(rt: HostRuntime) {
    let mut tray = Tray::open(rt.alloc(), 0).expect(&rt, "there is memory");
    let zeros = [0; 49_984];
    assert_eq!(rt; tray.spare(), 100_000);
    for row in ROWS {
        assert!(rt; put(&mut tray, row.way, &zeros[..row.size]));
        assert_eq!(rt; tray.spare(), row.spare);
    }
    assert_eq!(rt; tray.len(), 3);
    for at in 0..3 {
        let row = ROWS[at];
        assert!(rt; is_item(tray.item(at), row.way, &zeros[..row.size]));
    }
}
