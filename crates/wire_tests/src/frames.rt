//! Ethernet frames.

use arrayvec::ArrayVec;
use eth_frame::{EthDrop, Frame, is_control, parse, write_plain, write_tagged};
use wire_core::Mac;

const HOST: Mac = Mac([0x02, 0, 0, 0, 0, 0xbb]);

const ALL: Mac = Mac([0xff; 6]);

const GROUP: Mac = Mac([0x01, 0x80, 0xc2, 0, 0, 0x03]);

// A broadcast of the host, an Internet datagram cut short.
const DATA: [u8; 16] = [
    0xff, 0xff, 0xff, 0xff, 0xff, 0xff, 0x02, 0, 0, 0, 0, 0xbb, 0x08, 0x00, 0x45, 0x00,
];

// The same behind a tag of VLAN 20.
const TAGGED: [u8; 20] = [
    0xff, 0xff, 0xff, 0xff, 0xff, 0xff, 0x02, 0, 0, 0, 0, 0xbb, 0x81, 0x00, 0x00, 0x14, 0x08, 0x00,
    0x45, 0x00,
];

// An EAPOL-Start of the host.
const START: [u8; 18] = [
    0x01, 0x80, 0xc2, 0, 0, 0x03, 0x02, 0, 0, 0, 0, 0xbb, 0x88, 0x8e, 1, 1, 0, 0,
];

const START_HEAD: [u8; 14] = [
    0x01, 0x80, 0xc2, 0, 0, 0x03, 0x02, 0, 0, 0, 0, 0xbb, 0x88, 0x8e,
];

// A length, and whether a frame of so many octets is dropped.
#[derive(Clone, Copy)]
struct Length {
    length: usize,
    drop: Option<EthDrop>,
}

const LENGTHS: [Length; 5] = [
    Length {
        length: 0,
        drop: Some(EthDrop::Runt),
    },
    Length {
        length: 13,
        drop: Some(EthDrop::Runt),
    },
    Length {
        length: 14,
        drop: None,
    },
    Length {
        length: 1518,
        drop: None,
    },
    Length {
        length: 1519,
        drop: Some(EthDrop::Giant),
    },
];

#[test]
fn frames_have_fourteen_to_1518_octets(rt: HostRuntime) {
    let octets = [0; 1519];
    for row in LENGTHS {
        assert_eq!(rt; parse(&octets[..row.length]).err(), row.drop);
    }
}

// Octets, the frame that they are, and whether it is a control frame.
#[derive(Clone, Copy)]
struct Read {
    octets: &'static [u8],
    frame: Option<Frame<'static>>,
    is_control: bool,
}

const BROADCAST: Frame<'static> = Frame {
    to: ALL,
    from: HOST,
    kind: 0x0800,
    body: &[0x45, 0x00],
};

const READ: [Read; 4] = [
    Read {
        octets: &DATA,
        frame: Some(BROADCAST),
        is_control: false,
    },
    Read {
        octets: &START,
        frame: Some(Frame {
            to: GROUP,
            from: HOST,
            kind: 0x888e,
            body: &[1, 1, 0, 0],
        }),
        is_control: true,
    },
    Read {
        octets: &START_HEAD,
        frame: Some(Frame {
            to: GROUP,
            from: HOST,
            kind: 0x888e,
            body: &[],
        }),
        is_control: true,
    },
    Read {
        octets: &[0x01, 0x80, 0xc2, 0, 0, 0x03, 0x02, 0, 0, 0, 0, 0xbb, 0x88],
        frame: None,
        is_control: false,
    },
];

#[test]
fn a_frame_is_read_into_its_fields(rt: HostRuntime) {
    for row in READ {
        assert_eq!(rt; parse(row.octets).ok(), row.frame);
        assert_eq!(rt; is_control(row.octets), row.is_control);
    }
}

#[test]
fn control_frames_have_at_most_1518_octets(rt: HostRuntime) {
    let mut long = [0; 1519];
    long[12] = 0x88;
    long[13] = 0x8e;
    assert!(rt; is_control(&long[..1518]));
    assert!(rt; !is_control(&long));
}

#[test]
fn frames_are_written_plain_and_behind_a_tag(rt: HostRuntime) {
    let mut plain = ArrayVec::new();
    plain.push(7);
    write_plain(GROUP, HOST, 0x888e, &[1, 1, 0, 0], &mut plain);
    assert_eq!(rt; plain.as_slice(), START.as_slice());
    let mut tagged = ArrayVec::new();
    tagged.push(7);
    write_tagged(&BROADCAST, 20, &mut tagged);
    assert_eq!(rt; tagged.as_slice(), TAGGED.as_slice());
}

#[test]
fn the_longest_bodies_fit(rt: HostRuntime) {
    let body = [0x55; 1504];
    let mut plain = ArrayVec::new();
    write_plain(ALL, HOST, 0x0800, &body, &mut plain);
    assert_eq!(rt; plain.len(), 1518);
    let mut tagged = ArrayVec::new();
    let frame = Frame {
        to: ALL,
        from: HOST,
        kind: 0x0800,
        body: &body,
    };
    write_tagged(&frame, 4094, &mut tagged);
    assert_eq!(rt; tagged.len(), 1522);
    assert_eq!(rt; tagged.get(14).copied(), Some(0x0f));
    assert_eq!(rt; tagged.get(15).copied(), Some(0xfe));
}
