//! Packets of RADIUS (RFC 2865, section 3): one of the standard, the first drops, and one that is built.

use arrayvec::ArrayVec;
use radius_packet::{Builder, Packet, RadDrop, parse};

// RFC 2865, section 7.1: the Access-Request of the first example, with padding behind it.
const REQUEST: [u8; 58] = [
    0x01, 0x00, 0x00, 0x38, 0x0f, 0x40, 0x3f, 0x94, 0x73, 0x97, 0x80, 0x57, 0xbd, 0x83, 0xd5, 0xcb,
    0x98, 0xf4, 0x22, 0x7a, 0x01, 0x06, 0x6e, 0x65, 0x6d, 0x6f, 0x02, 0x12, 0x0d, 0xbe, 0x70, 0x8d,
    0x93, 0xd4, 0x13, 0xce, 0x31, 0x96, 0xe4, 0x3f, 0x78, 0x2a, 0x0a, 0xee, 0x04, 0x06, 0xc0, 0xa8,
    0x01, 0x10, 0x05, 0x06, 0x00, 0x00, 0x00, 0x03, 0, 0,
];

fn has_three(packet: &Packet<'_>) -> bool {
    packet.first_of_three(1, 4, 24)
        == (
            Some(b"nemo".as_slice()),
            Some([192, 168, 1, 16].as_slice()),
            None,
        )
}

fn ends_with_the_port(packet: &Packet<'_>) -> bool {
    packet.nth(3) == Some((5, [0, 0, 0, 3].as_slice()))
        && packet.nth(4).is_none()
        && packet.count(4) == 1
}

fn is_that_of_the_standard(octets: &[u8]) -> bool {
    match parse(octets) {
        Ok(packet) => {
            packet.code == 1
                && packet.octets.len() == 56
                && has_three(&packet)
                && ends_with_the_port(&packet)
        }
        Err(_) => false,
    }
}

#[test]
fn a_request_of_the_standard_is_read(rt: HostRuntime) {
    assert!(rt; is_that_of_the_standard(&REQUEST));
}

// The length that a packet of 26 octets says, those of its first two attributes, which begin at 20 and
// 23, and what is dropped.
#[derive(Clone, Copy)]
struct Lengths {
    length: u8,
    first: u8,
    second: u8,
    drop: Option<RadDrop>,
}

const LENGTHS: [Lengths; 11] = [
    Lengths {
        length: 19,
        first: 3,
        second: 3,
        drop: Some(RadDrop::BadLength),
    },
    Lengths {
        length: 27,
        first: 3,
        second: 3,
        drop: Some(RadDrop::BadLength),
    },
    Lengths {
        length: 26,
        first: 1,
        second: 3,
        drop: Some(RadDrop::BadAttribute { at: 20 }),
    },
    Lengths {
        length: 26,
        first: 0,
        second: 3,
        drop: Some(RadDrop::BadAttribute { at: 20 }),
    },
    Lengths {
        length: 26,
        first: 7,
        second: 3,
        drop: Some(RadDrop::BadAttribute { at: 20 }),
    },
    Lengths {
        length: 26,
        first: 3,
        second: 1,
        drop: Some(RadDrop::BadAttribute { at: 23 }),
    },
    Lengths {
        length: 26,
        first: 3,
        second: 4,
        drop: Some(RadDrop::BadAttribute { at: 23 }),
    },
    Lengths {
        length: 26,
        first: 5,
        second: 9,
        drop: Some(RadDrop::BadAttribute { at: 25 }),
    },
    Lengths {
        length: 26,
        first: 3,
        second: 3,
        drop: None,
    },
    Lengths {
        length: 23,
        first: 3,
        second: 9,
        drop: None,
    },
    Lengths {
        length: 20,
        first: 9,
        second: 9,
        drop: None,
    },
];

fn dropped(row: &Lengths) -> Option<RadDrop> {
    let mut octets = [0; 26];
    octets[3] = row.length;
    octets[21] = row.first;
    octets[24] = row.second;
    parse(&octets).err()
}

#[test]
fn the_first_drop_and_its_place(rt: HostRuntime) {
    assert_eq!(rt; parse(&[0; 19]).err(), Some(RadDrop::Short));
    for row in LENGTHS {
        assert_eq!(rt; dropped(&row), row.drop);
    }
}

fn built() -> Option<Builder> {
    let mut built = Builder::new(2, 7, [9; 16]);
    built.put(79, b"ab").ok()?;
    built.put(80, &[0; 16]).ok()?;
    built.put(79, b"c").ok()?;
    if built.put(1, &[0; 254]).is_ok() {
        return None;
    }
    built.set_auth([5; 16]);
    Some(built)
}

fn joined(octets: &[u8]) -> Option<ArrayVec<u8, 4096>> {
    let packet = parse(octets).ok()?;
    let mut joined = ArrayVec::new();
    if packet.auth == [5; 16] && packet.eap(&mut joined) {
        Some(joined)
    } else {
        None
    }
}

#[test]
fn a_packet_is_built_and_read(rt: HostRuntime) {
    let packet = built().expect(&rt, "there is room");
    let eap = joined(packet.octets()).expect(&rt, "it is read");
    assert!(rt; eap.as_slice() == b"abc".as_slice());
}
