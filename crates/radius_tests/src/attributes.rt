//! Values as the standards write them, and Message-Authenticators that Python's hmac computed.

use radius_attrs::{
    Ma, Timeout, Tunnel, allowed, begin, message_state, session_text, sign, timeout, tunnel,
};
use radius_packet::{Builder, parse};

const TYPE: (u8, &[u8]) = (64, &[0, 0, 0, 13]);

const MEDIUM: (u8, &[u8]) = (65, &[1, 0, 0, 6]);

const TIME: (u8, &[u8]) = (27, &[0, 0, 1, 0]);

// Attributes of an Accept, and the VLAN that they name.
#[derive(Clone, Copy)]
struct Vlan {
    attributes: &'static [(u8, &'static [u8])],
    vlan: Tunnel,
}

const VLANS: [Vlan; 10] = [
    Vlan {
        attributes: &[TYPE, MEDIUM, (81, b"4094")],
        vlan: Tunnel::Vlan(4094),
    },
    Vlan {
        attributes: &[TYPE, MEDIUM, (81, b"1")],
        vlan: Tunnel::Vlan(1),
    },
    Vlan {
        attributes: &[TYPE, MEDIUM, (81, &[0x1f, b'7'])],
        vlan: Tunnel::Vlan(7),
    },
    Vlan {
        attributes: &[TYPE, MEDIUM, (81, b"4095")],
        vlan: Tunnel::Bad,
    },
    Vlan {
        attributes: &[TYPE, MEDIUM, (81, b"0")],
        vlan: Tunnel::Bad,
    },
    Vlan {
        attributes: &[TYPE, MEDIUM, (81, b"010")],
        vlan: Tunnel::Bad,
    },
    Vlan {
        attributes: &[TYPE, MEDIUM, (81, b" 7")],
        vlan: Tunnel::Bad,
    },
    Vlan {
        attributes: &[TYPE, MEDIUM, (81, &[0x1f])],
        vlan: Tunnel::Bad,
    },
    Vlan {
        attributes: &[TYPE, MEDIUM, (81, b"")],
        vlan: Tunnel::Bad,
    },
    Vlan {
        attributes: &[TYPE],
        vlan: Tunnel::Partial,
    },
];

// Attributes of an Accept, and the time of the session that they name.
#[derive(Clone, Copy)]
struct Time {
    attributes: &'static [(u8, &'static [u8])],
    time: Timeout,
}

const TIMES: [Time; 5] = [
    Time {
        attributes: &[(29, &[0, 0, 0, 0]), TIME],
        time: Timeout::End(256),
    },
    Time {
        attributes: &[(29, &[0, 0, 0, 1]), TIME],
        time: Timeout::Reauth(256),
    },
    Time {
        attributes: &[(29, &[0, 0, 1]), TIME],
        time: Timeout::End(256),
    },
    Time {
        attributes: &[(29, &[0, 0, 0, 1]), (27, &[0, 1, 0])],
        time: Timeout::Unset,
    },
    Time {
        attributes: &[(29, &[0, 0, 0, 1]), (27, &[0, 0, 0, 0])],
        time: Timeout::Unset,
    },
];

fn built(code: u8, attributes: &[(u8, &[u8])]) -> Option<Builder> {
    let mut packet = Builder::new(code, 7, [0; 16]);
    for (kind, value) in attributes {
        packet.put(*kind, value).ok()?;
    }
    Some(packet)
}

fn vlan_of(attributes: &[(u8, &[u8])]) -> Option<Tunnel> {
    let packet = built(2, attributes)?;
    let read = parse(packet.octets()).ok()?;
    Some(tunnel(&read))
}

#[test]
fn texts_of_a_vlan(rt: HostRuntime) {
    for row in VLANS {
        assert_eq!(rt; vlan_of(row.attributes), Some(row.vlan));
    }
}

fn time_of(attributes: &[(u8, &[u8])]) -> Option<Timeout> {
    let packet = built(2, attributes)?;
    let read = parse(packet.octets()).ok()?;
    Some(timeout(&read))
}

#[test]
fn times_of_a_session(rt: HostRuntime) {
    for row in TIMES {
        assert_eq!(rt; time_of(row.attributes), Some(row.time));
    }
}

const AUTH: [u8; 16] = [0, 1, 2, 3, 4, 5, 6, 7, 8, 9, 10, 11, 12, 13, 14, 15];

const BEHIND: [u8; 16] = [
    0x1d, 0x90, 0xf3, 0x64, 0xee, 0x1b, 0x1f, 0x36, 0x52, 0x55, 0x34, 0x5d, 0x16, 0xac, 0xf2, 0xa3,
];

const IN_FRONT: [u8; 16] = [
    0x40, 0x21, 0x5f, 0x9f, 0x4f, 0xfc, 0x50, 0xa1, 0xff, 0xe9, 0x08, 0xd4, 0xcf, 0x4a, 0xd5, 0x98,
];

// Attributes of a request, and what its Message-Authenticator is.
#[derive(Clone, Copy)]
struct Signature {
    attributes: &'static [(u8, &'static [u8])],
    auth: [u8; 16],
    secret: &'static [u8],
    state: Ma,
}

const SIGNATURES: [Signature; 5] = [
    Signature {
        attributes: &[(1, b"bob")],
        auth: AUTH,
        secret: b"secret",
        state: Ma::Absent,
    },
    Signature {
        attributes: &[(1, b"bob"), (80, &BEHIND)],
        auth: AUTH,
        secret: b"secret",
        state: Ma::Right,
    },
    Signature {
        attributes: &[(1, b"bob"), (80, &BEHIND)],
        auth: AUTH,
        secret: b"Secret",
        state: Ma::Wrong,
    },
    Signature {
        attributes: &[(1, b"bob"), (80, &BEHIND)],
        auth: [0; 16],
        secret: b"secret",
        state: Ma::Wrong,
    },
    Signature {
        attributes: &[(80, &IN_FRONT), (1, b"bob")],
        auth: AUTH,
        secret: b"secret",
        state: Ma::Right,
    },
];

fn state_of(row: &Signature) -> Option<Ma> {
    let packet = built(1, row.attributes)?;
    let read = parse(packet.octets()).ok()?;
    Some(message_state(&read, row.auth, row.secret))
}

#[test]
fn a_message_authenticator_counts_once(rt: HostRuntime) {
    for row in SIGNATURES {
        assert_eq!(rt; state_of(&row), Some(row.state));
    }
}

// The first attribute of a request about bob that is signed in front.
fn signed(value: &mut [u8; 16]) -> Option<u8> {
    let mut packet = begin(1, 7, AUTH);
    packet.put(1, b"bob").ok()?;
    sign(&mut packet, AUTH, b"secret");
    let read = parse(packet.octets()).ok()?;
    let (kind, octets) = read.nth(0)?;
    *value = octets.try_into().ok()?;
    Some(kind)
}

#[test]
fn a_request_is_signed_in_front(rt: HostRuntime) {
    let mut value = [0; 16];
    assert_eq!(rt; signed(&mut value), Some(80));
    assert_eq!(rt; value, IN_FRONT);
}

#[test]
fn a_session_has_eight_digits_in_upper_case(rt: HostRuntime) {
    assert_eq!(rt; session_text(1), *b"00000001");
    assert_eq!(rt; session_text(0xdead_beef), *b"DEADBEEF");
    assert!(rt; allowed(40, 49) && !allowed(43, 49) && allowed(43, 81) && !allowed(40, 81));
}
