//! EAPOL packets.

use arrayvec::ArrayVec;
use eapol_frame::{Eapol, EapolDrop, Kind, parse, write};

// Octets, and whether they are dropped.
#[derive(Clone, Copy)]
struct Border {
    octets: &'static [u8],
    drop: Option<EapolDrop>,
}

const BORDERS: [Border; 14] = [
    Border {
        octets: &[],
        drop: Some(EapolDrop::Short),
    },
    Border {
        octets: &[1, 1, 0],
        drop: Some(EapolDrop::Short),
    },
    Border {
        octets: &[1, 3, 0],
        drop: Some(EapolDrop::Short),
    },
    Border {
        octets: &[1, 1, 0, 0],
        drop: None,
    },
    Border {
        octets: &[1, 2, 0, 0],
        drop: None,
    },
    Border {
        octets: &[1, 3, 0, 0],
        drop: Some(EapolDrop::Key),
    },
    Border {
        octets: &[1, 3, 0xff, 0xff, 0],
        drop: Some(EapolDrop::Key),
    },
    Border {
        octets: &[1, 4, 0, 0],
        drop: Some(EapolDrop::UnknownType),
    },
    Border {
        octets: &[1, 255, 0, 0],
        drop: Some(EapolDrop::UnknownType),
    },
    Border {
        octets: &[1, 0, 0, 0],
        drop: None,
    },
    Border {
        octets: &[1, 0, 0, 1],
        drop: Some(EapolDrop::BodyShort),
    },
    Border {
        octets: &[1, 0, 1, 0],
        drop: Some(EapolDrop::BodyShort),
    },
    Border {
        octets: &[1, 0, 0, 8, 2, 1, 0, 8, 1, b'b', b'o'],
        drop: Some(EapolDrop::BodyShort),
    },
    Border {
        octets: &[1, 0, 0, 8, 2, 1, 0, 8, 1, b'b', b'o', b'b'],
        drop: None,
    },
];

#[test]
fn each_drop_stands_at_its_border(rt: HostRuntime) {
    for row in BORDERS {
        assert_eq!(rt; parse(row.octets).err(), row.drop);
    }
}

// The identity bob in an EAP-Response, in an EAPOL packet of version 1, and with padding behind it.
const RESPONSES: [&[u8]; 2] = [
    &[1, 0, 0, 8, 2, 1, 0, 8, 1, b'b', b'o', b'b'],
    &[1, 0, 0, 8, 2, 1, 0, 8, 1, b'b', b'o', b'b', 0, 0],
];

const RESPONSE: Eapol<'static> = Eapol {
    version: 1,
    kind: Kind::EapPacket,
    body: &[2, 1, 0, 8, 1, b'b', b'o', b'b'],
};

#[test]
fn a_packet_is_read_without_its_padding(rt: HostRuntime) {
    for octets in RESPONSES {
        assert_eq!(rt; parse(octets).ok(), Some(RESPONSE));
    }
}

fn has_no_body(version: u8, number: u8, kind: Kind) -> bool {
    let wanted = Some(Eapol {
        version,
        kind,
        body: &[],
    });
    parse(&[version, number, 0, 0]).ok() == wanted
        && parse(&[version, number, 0, 2, 7, 7]).ok() == wanted
        && parse(&[version, number, 0xff, 0xff]).ok() == wanted
}

#[test]
fn a_start_and_a_logoff_have_no_body_and_any_version(rt: HostRuntime) {
    for version in [0, 1, 2, 3, 255] {
        assert!(rt; has_no_body(version, 1, Kind::Start));
        assert!(rt; has_no_body(version, 2, Kind::Logoff));
    }
}

#[test]
fn an_eap_packet_is_written_in_version_two(rt: HostRuntime) {
    let mut out = ArrayVec::new();
    out.push(7);
    write(&[1, 0, 0, 5, 1], &mut out);
    assert_eq!(rt; out.as_slice(), [2, 0, 0, 5, 1, 0, 0, 5, 1].as_slice());
    write(&[], &mut out);
    assert_eq!(rt; out.as_slice(), [2, 0, 0, 0].as_slice());
    write(&[9; 1500], &mut out);
    assert_eq!(rt; out.len(), 1504);
    assert_eq!(rt; out.get(2).copied(), Some(0x05));
    assert_eq!(rt; out.get(3).copied(), Some(0xdc));
}
