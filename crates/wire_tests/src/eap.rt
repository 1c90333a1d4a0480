//! EAP packets.

use eap_packet::{Eap, EapDrop, canned, identity_request, parse};

// Octets, and whether they are dropped.
#[derive(Clone, Copy)]
struct Border {
    octets: &'static [u8],
    drop: Option<EapDrop>,
}

const BORDERS: [Border; 17] = [
    Border {
        octets: &[],
        drop: Some(EapDrop::Short),
    },
    Border {
        octets: &[3, 1, 0],
        drop: Some(EapDrop::Short),
    },
    Border {
        octets: &[0, 1, 0, 4],
        drop: Some(EapDrop::BadCode),
    },
    Border {
        octets: &[5, 1, 0, 4],
        drop: Some(EapDrop::BadCode),
    },
    Border {
        octets: &[255, 1, 0, 9],
        drop: Some(EapDrop::BadCode),
    },
    Border {
        octets: &[1, 1, 0, 4, 1],
        drop: Some(EapDrop::BadLength),
    },
    Border {
        octets: &[2, 1, 0, 4, 1],
        drop: Some(EapDrop::BadLength),
    },
    Border {
        octets: &[1, 1, 0, 5, 1],
        drop: None,
    },
    Border {
        octets: &[2, 1, 0, 5, 1],
        drop: None,
    },
    Border {
        octets: &[1, 1, 0, 6, 1],
        drop: Some(EapDrop::BadLength),
    },
    Border {
        octets: &[2, 1, 1, 5, 1],
        drop: Some(EapDrop::BadLength),
    },
    Border {
        octets: &[3, 1, 0, 3],
        drop: Some(EapDrop::BadLength),
    },
    Border {
        octets: &[4, 1, 0, 3],
        drop: Some(EapDrop::BadLength),
    },
    Border {
        octets: &[3, 1, 0, 4],
        drop: None,
    },
    Border {
        octets: &[4, 1, 0, 4],
        drop: None,
    },
    Border {
        octets: &[3, 1, 0, 5, 0],
        drop: Some(EapDrop::BadLength),
    },
    Border {
        octets: &[4, 1, 0, 5, 0],
        drop: Some(EapDrop::BadLength),
    },
];

#[test]
fn each_drop_stands_at_its_border(rt: HostRuntime) {
    for row in BORDERS {
        assert_eq!(rt; parse(row.octets).err(), row.drop);
    }
}

// Octets, and the packet that they are.
#[derive(Clone, Copy)]
struct Read {
    octets: &'static [u8],
    eap: Eap<'static>,
}

const RESPONSE: Eap<'static> = Eap {
    code: 2,
    id: 1,
    kind: 1,
    rest: b"bob",
    whole: &[2, 1, 0, 8, 1, b'b', b'o', b'b'],
};

const CHALLENGE: Eap<'static> = Eap {
    code: 1,
    id: 9,
    kind: 4,
    rest: &[0x10, 0x20],
    whole: &[1, 9, 0, 7, 4, 0x10, 0x20],
};

const SUCCESS: Eap<'static> = Eap {
    code: 3,
    id: 7,
    kind: 0,
    rest: &[],
    whole: &[3, 7, 0, 4],
};

const READ: [Read; 5] = [
    Read {
        octets: &[2, 1, 0, 8, 1, b'b', b'o', b'b'],
        eap: RESPONSE,
    },
    Read {
        octets: &[2, 1, 0, 8, 1, b'b', b'o', b'b', 0, 0],
        eap: RESPONSE,
    },
    Read {
        octets: &[1, 9, 0, 7, 4, 0x10, 0x20],
        eap: CHALLENGE,
    },
    Read {
        octets: &[3, 7, 0, 4],
        eap: SUCCESS,
    },
    Read {
        octets: &[3, 7, 0, 4, 0],
        eap: SUCCESS,
    },
];

#[test]
fn a_request_and_a_response_have_a_type_and_data(rt: HostRuntime) {
    for row in READ {
        assert_eq!(rt; parse(row.octets).ok(), Some(row.eap));
    }
}

#[test]
fn the_packets_of_greatest_length_are_read(rt: HostRuntime) {
    let mut request = [0; 1500];
    request[0] = 1;
    request[2] = 0x05;
    request[3] = 0xdc;
    request[4] = 13;
    let read = parse(&request).ok();
    assert_eq!(rt; read.map(|eap| eap.whole.len()), Some(1500));
    assert_eq!(rt; read.map(|eap| eap.rest.len()), Some(1495));
    request[3] = 0xdd;
    assert_eq!(rt; parse(&request).err(), Some(EapDrop::BadLength));
}

#[test]
fn packets_are_made_as_they_are_known(rt: HostRuntime) {
    assert_eq!(rt; identity_request(0), [1, 0, 0, 5, 1]);
    assert_eq!(rt; identity_request(255), [1, 255, 0, 5, 1]);
    assert_eq!(rt; canned(true, 7), [3, 7, 0, 4]);
    assert_eq!(rt; canned(false, 7), [4, 7, 0, 4]);
}
