//! What no clause says: packets as they are known outside, and each call once. A history is a table of
//! calls, each with what it answers.

use crate::vectors::{
    ACCEPT, BARE_ACCEPT, BARE_REJECT, CHALLENGE, KEY_STREAMS, NO_MESSAGE, REQUEST,
    REQUEST_IN_ACCEPT, RESPONSE_IN_CHALLENGE, WRONG_MESSAGE,
};
use aaa_client::{AaaDrop, Aged, Ask, Waits, request_authenticator};
use arrayvec::ArrayVec;
use radius_auth::{message_auth, response_auth};
use radius_packet::{Builder, parse};
use std::alloc::{AllocError, Global};
use std::test::Fail;
use switch_event::Config;
use wire_core::Mac;

const SECRET: &[u8] = b"secret";

// The authenticator of each request.
const AUTH: [u8; 16] = [
    0x76, 0xb8, 0xe0, 0xad, 0xa0, 0xf1, 0x3d, 0x90, 0x40, 0x5d, 0x6a, 0xe5, 0x53, 0x86, 0xbd, 0x28,
];

#[derive(Clone, Copy)]
enum Call {
    // A session asks about bob on port 1, with this State, or where it is empty with none.
    Ask {
        session: u32,
        state: &'static [u8],
    },
    // So many sessions ask, from session 1 on, and get the names from 0 on.
    AskAll {
        sessions: u32,
    },
    // Session 9 asks and is forgotten, once for each of these names.
    Round {
        first: u32,
        behind: u32,
    },
    // The request of a session has these octets.
    Has {
        session: u32,
        octets: &'static [u8],
    },
    // It has this name, and is an Access-Request with this identifier.
    IsNamed {
        session: u32,
        socket: u8,
        id: u8,
    },
    // The request of a session has this State.
    HasState {
        session: u32,
        state: &'static [u8],
    },
    Waits {
        session: u32,
    },
    // An answer comes to a socket. A Message-Authenticator may be required of each.
    Answer {
        socket: u8,
        octets: &'static [u8],
        require: bool,
    },
    // The Accept comes to socket 0, by another secret, or with this octet at this place.
    Secret {
        secret: &'static [u8],
    },
    Changed {
        at: usize,
        octet: u8,
    },
    // A Challenge with EAP of so many octets, in pieces of 250, comes to socket 0.
    Long {
        size: u16,
    },
    Forget {
        session: u32,
    },
    // A second of session 1, or several which are quiet, and before which it waits.
    Second,
    Quiet {
        seconds: u32,
    },
}

// What a call answers; of an answer also whether session 1 still waits.
#[derive(Clone, Copy, Debug, PartialEq, Eq)]
enum Told {
    Name(u8, u8),
    Nothing,
    Is(bool),
    Aged(Aged),
    Dropped {
        drop: AaaDrop,
        waits: bool,
    },
    Taken {
        session: u32,
        eap: Option<Eap>,
        has_state: bool,
        waits: bool,
    },
}

// The length of an EAP packet, and its first six octets, with zeros behind a shorter one.
#[derive(Clone, Copy, Debug, PartialEq, Eq)]
struct Eap {
    len: usize,
    head: [u8; 6],
}

#[derive(Clone, Copy)]
struct Row {
    call: Call,
    told: Told,
}

// The first row whose call answers something else.
fn otherwise(waits: &mut Waits, rows: &[Row]) -> Option<usize> {
    for (at, row) in rows.iter().enumerate() {
        if answer_of(waits, row.call) != row.told {
            return Some(at);
        }
    }
    None
}

fn opened(alloc: Global, rows: &[Row]) -> Result<Option<usize>, AllocError> {
    let mut waits = Waits::open(alloc)?;
    Ok(otherwise(&mut waits, rows))
}

fn answer_of(waits: &mut Waits, call: Call) -> Told {
    match call {
        Call::Ask { session, state } => asked(waits, session, state),
        Call::AskAll { sessions } => Told::Is(all_ask(waits, sessions)),
        Call::Round { first, behind } => Told::Is(goes_round(waits, first, behind)),
        Call::Has { session, octets } => Told::Is(has(waits, session, octets)),
        Call::IsNamed {
            session,
            socket,
            id,
        } => Told::Is(is_named(waits, session, socket, id)),
        Call::HasState { session, state } => Told::Is(has_state(waits, session, state)),
        Call::Waits { session } => Told::Is(waits.pending(session).is_some()),
        Call::Answer {
            socket,
            octets,
            require,
        } => answered(waits, socket, octets, SECRET, require),
        Call::Secret { secret } => answered(waits, 0, &ACCEPT, secret, true),
        Call::Changed { at, octet } => changed(waits, at, octet),
        Call::Long { size } => long(waits, size),
        Call::Forget { session } => forgotten(waits, session),
        Call::Second => Told::Aged(waits.second(1)),
        Call::Quiet { seconds } => Told::Is(is_quiet(waits, seconds)),
    }
}

fn settings() -> Config {
    let mut config = Config::empty();
    let _fits = config.secret.try_extend_from_slice(SECRET);
    config
}

fn asked(waits: &mut Waits, session: u32, state: &[u8]) -> Told {
    if state.len() > 253 || waits.is_full() || waits.pending(session).is_some() {
        return Told::Nothing;
    }
    let ask = Ask {
        port: 1,
        own: Mac([2, 0, 0, 1, 1, 1]),
        peer: Mac([2, 0, 0, 0, 0, 0xaa]),
        identity: b"bob",
        state: if state.is_empty() { None } else { Some(state) },
        eap: &[2, 1, 0, 8, 1, b'b', b'o', b'b'],
    };
    let (socket, id) = waits.ask(&ask, &settings(), session, AUTH);
    Told::Name(socket, id)
}

fn all_ask(waits: &mut Waits, sessions: u32) -> bool {
    for name in 0..sessions {
        if asked(waits, name.wrapping_add(1), &[]) != named(name) {
            return false;
        }
    }
    true
}

fn goes_round(waits: &mut Waits, first: u32, behind: u32) -> bool {
    for name in first..behind {
        if asked(waits, 9, &[]) != named(name) {
            return false;
        }
        waits.forget(9);
    }
    true
}

fn named(name: u32) -> Told {
    let [_, _, socket, id] = name.to_be_bytes();
    Told::Name(socket, id)
}

fn has(waits: &Waits, session: u32, octets: &[u8]) -> bool {
    match waits.pending(session) {
        Some(request) => request.octets() == octets,
        None => false,
    }
}

fn is_named(waits: &Waits, session: u32, socket: u8, id: u8) -> bool {
    match waits.pending(session) {
        Some(request) => {
            request.session == session
                && request.socket == socket
                && request.id == id
                && request.octets().starts_with(&[1, id])
        }
        None => false,
    }
}

fn has_state(waits: &Waits, session: u32, state: &[u8]) -> bool {
    match waits.pending(session) {
        Some(request) => match parse(request.octets()) {
            Ok(packet) => packet.first(24) == Some(state),
            Err(_) => false,
        },
        None => false,
    }
}

fn answered(waits: &mut Waits, socket: u8, octets: &[u8], secret: &[u8], require: bool) -> Told {
    let told = match waits.answer(socket, octets, secret, require) {
        Ok(taken) => Ok((
            taken.session,
            taken.eap.map(|eap| head_of(eap.as_slice())),
            taken.packet.first(24) == Some(b"ST".as_slice()),
        )),
        Err(drop) => Err(drop),
    };
    let waits = waits.pending(1).is_some();
    match told {
        Ok((session, eap, has_state)) => Told::Taken {
            session,
            eap,
            has_state,
            waits,
        },
        Err(drop) => Told::Dropped { drop, waits },
    }
}

fn head_of(eap: &[u8]) -> Eap {
    let mut head = [0; 6];
    for (to, octet) in head.iter_mut().zip(eap) {
        *to = *octet;
    }
    Eap {
        len: eap.len(),
        head,
    }
}

fn changed(waits: &mut Waits, at: usize, octet: u8) -> Told {
    let mut changed = ACCEPT;
    if let Some(place) = changed.get_mut(at) {
        *place = octet;
    }
    answered(waits, 0, &changed, SECRET, true)
}

fn long(waits: &mut Waits, size: u16) -> Told {
    match long_challenge(size) {
        Some(packet) => answered(waits, 0, packet.octets(), SECRET, true),
        None => Told::Nothing,
    }
}

fn long_challenge(size: u16) -> Option<Builder> {
    let eap = long_eap(size)?;
    let blank = challenge(&[0; 16], eap.as_slice())?;
    if blank.octets().len() < 38 {
        return None;
    }
    let value = message_auth(blank.octets(), AUTH, 22, SECRET);
    let mut packet = challenge(&value, eap.as_slice())?;
    let auth = response_auth(packet.octets(), AUTH, SECRET);
    packet.set_auth(auth);
    Some(packet)
}

fn long_eap(size: u16) -> Option<ArrayVec<u8, 2000>> {
    let [first, last] = size.to_be_bytes();
    let mut eap = ArrayVec::new();
    eap.try_extend_from_slice(&[1, 9, first, last, 4]).ok()?;
    for _ in 5..size {
        eap.try_push(0x55).ok()?;
    }
    Some(eap)
}

fn challenge(message: &[u8; 16], eap: &[u8]) -> Option<Builder> {
    let mut packet = Builder::new(11, 0, AUTH);
    packet.put(80, message).ok()?;
    for piece in eap.chunks(250) {
        packet.put(79, piece).ok()?;
    }
    Some(packet)
}

fn forgotten(waits: &mut Waits, session: u32) -> Told {
    waits.forget(session);
    Told::Is(waits.pending(session).is_some())
}

fn is_quiet(waits: &mut Waits, seconds: u32) -> bool {
    for _ in 0..seconds {
        if waits.pending(1).is_none() || waits.second(1) != Aged::Quiet {
            return false;
        }
    }
    true
}

const KNOWN: [Row; 3] = [
    Row {
        call: Call::Ask {
            session: 1,
            state: &[],
        },
        told: Told::Name(0, 0),
    },
    Row {
        call: Call::Has {
            session: 1,
            octets: &REQUEST,
        },
        told: Told::Is(true),
    },
    Row {
        call: Call::Waits { session: 2 },
        told: Told::Is(false),
    },
];

#[test]
fn a_request_has_the_octets_that_are_known(rt: HostRuntime) -> Result<(), Fail> {
    assert_eq!(rt; opened(rt.alloc(), &KNOWN)?, None);
    Ok(())
}

// Nothing was asked by the sockets 1 to 4.
const DROPS: [Row; 19] = [
    Row {
        call: Call::Ask {
            session: 1,
            state: &[],
        },
        told: Told::Name(0, 0),
    },
    Row {
        call: Call::Changed { at: 3, octet: 0x3d },
        told: Told::Dropped {
            drop: AaaDrop::Malformed,
            waits: true,
        },
    },
    Row {
        call: Call::Changed { at: 1, octet: 1 },
        told: Told::Dropped {
            drop: AaaDrop::NoRequest,
            waits: true,
        },
    },
    Row {
        call: Call::Changed { at: 0, octet: 5 },
        told: Told::Dropped {
            drop: AaaDrop::BadCode,
            waits: true,
        },
    },
    Row {
        call: Call::Changed { at: 4, octet: 0 },
        told: Told::Dropped {
            drop: AaaDrop::BadAuthenticator,
            waits: true,
        },
    },
    Row {
        call: Call::Changed { at: 59, octet: 0 },
        told: Told::Dropped {
            drop: AaaDrop::BadAuthenticator,
            waits: true,
        },
    },
    Row {
        call: Call::Answer {
            socket: 0,
            octets: &WRONG_MESSAGE,
            require: true,
        },
        told: Told::Dropped {
            drop: AaaDrop::BadMessageAuth,
            waits: true,
        },
    },
    Row {
        call: Call::Answer {
            socket: 0,
            octets: &NO_MESSAGE,
            require: true,
        },
        told: Told::Dropped {
            drop: AaaDrop::BadMessageAuth,
            waits: true,
        },
    },
    Row {
        call: Call::Answer {
            socket: 0,
            octets: &BARE_ACCEPT,
            require: true,
        },
        told: Told::Dropped {
            drop: AaaDrop::BadMessageAuth,
            waits: true,
        },
    },
    Row {
        call: Call::Answer {
            socket: 0,
            octets: &BARE_REJECT,
            require: true,
        },
        told: Told::Dropped {
            drop: AaaDrop::BadMessageAuth,
            waits: true,
        },
    },
    Row {
        call: Call::Answer {
            socket: 0,
            octets: &REQUEST_IN_ACCEPT,
            require: true,
        },
        told: Told::Dropped {
            drop: AaaDrop::BadEap,
            waits: true,
        },
    },
    Row {
        call: Call::Answer {
            socket: 0,
            octets: &RESPONSE_IN_CHALLENGE,
            require: true,
        },
        told: Told::Dropped {
            drop: AaaDrop::BadEap,
            waits: true,
        },
    },
    Row {
        call: Call::Answer {
            socket: 1,
            octets: &ACCEPT,
            require: true,
        },
        told: Told::Dropped {
            drop: AaaDrop::NoRequest,
            waits: true,
        },
    },
    Row {
        call: Call::Answer {
            socket: 2,
            octets: &ACCEPT,
            require: true,
        },
        told: Told::Dropped {
            drop: AaaDrop::NoRequest,
            waits: true,
        },
    },
    Row {
        call: Call::Answer {
            socket: 3,
            octets: &ACCEPT,
            require: true,
        },
        told: Told::Dropped {
            drop: AaaDrop::NoRequest,
            waits: true,
        },
    },
    Row {
        call: Call::Answer {
            socket: 4,
            octets: &ACCEPT,
            require: true,
        },
        told: Told::Dropped {
            drop: AaaDrop::NoRequest,
            waits: true,
        },
    },
    Row {
        call: Call::Secret { secret: b"secreT" },
        told: Told::Dropped {
            drop: AaaDrop::BadAuthenticator,
            waits: true,
        },
    },
    Row {
        call: Call::Answer {
            socket: 0,
            octets: &ACCEPT,
            require: true,
        },
        told: Told::Taken {
            session: 1,
            eap: Some(Eap {
                len: 4,
                head: [3, 1, 0, 4, 0, 0],
            }),
            has_state: false,
            waits: false,
        },
    },
    Row {
        call: Call::Answer {
            socket: 0,
            octets: &ACCEPT,
            require: true,
        },
        told: Told::Dropped {
            drop: AaaDrop::NoRequest,
            waits: false,
        },
    },
];

#[test]
fn an_answer_is_dropped_at_the_first_check_that_it_fails(rt: HostRuntime) -> Result<(), Fail> {
    assert_eq!(rt; opened(rt.alloc(), &DROPS)?, None);
    Ok(())
}

const ROUND_OF_CHALLENGE: [Row; 4] = [
    Row {
        call: Call::Ask {
            session: 7,
            state: &[],
        },
        told: Told::Name(0, 0),
    },
    Row {
        call: Call::Answer {
            socket: 0,
            octets: &CHALLENGE,
            require: true,
        },
        told: Told::Taken {
            session: 7,
            eap: Some(Eap {
                len: 6,
                head: [1, 9, 0, 6, 4, 0],
            }),
            has_state: true,
            waits: false,
        },
    },
    Row {
        call: Call::Ask {
            session: 7,
            state: b"ST",
        },
        told: Told::Name(0, 1),
    },
    Row {
        call: Call::HasState {
            session: 7,
            state: b"ST",
        },
        told: Told::Is(true),
    },
];

#[test]
fn a_challenge_is_followed_by_a_request_with_its_state(rt: HostRuntime) -> Result<(), Fail> {
    assert_eq!(rt; opened(rt.alloc(), &ROUND_OF_CHALLENGE)?, None);
    Ok(())
}

// Where the settings require no Message-Authenticator, EAP alone does.
const BARE_ACCEPTED: [Row; 3] = [
    Row {
        call: Call::Ask {
            session: 1,
            state: &[],
        },
        told: Told::Name(0, 0),
    },
    Row {
        call: Call::Answer {
            socket: 0,
            octets: &NO_MESSAGE,
            require: false,
        },
        told: Told::Dropped {
            drop: AaaDrop::BadMessageAuth,
            waits: true,
        },
    },
    Row {
        call: Call::Answer {
            socket: 0,
            octets: &BARE_ACCEPT,
            require: false,
        },
        told: Told::Taken {
            session: 1,
            eap: None,
            has_state: false,
            waits: false,
        },
    },
];

const BARE_REJECTED: [Row; 3] = [
    Row {
        call: Call::Ask {
            session: 1,
            state: &[],
        },
        told: Told::Name(0, 0),
    },
    Row {
        call: Call::Answer {
            socket: 0,
            octets: &NO_MESSAGE,
            require: false,
        },
        told: Told::Dropped {
            drop: AaaDrop::BadMessageAuth,
            waits: true,
        },
    },
    Row {
        call: Call::Answer {
            socket: 0,
            octets: &BARE_REJECT,
            require: false,
        },
        told: Told::Taken {
            session: 1,
            eap: None,
            has_state: false,
            waits: false,
        },
    },
];

#[test]
fn an_answer_without_eap_may_have_no_message_authenticator(rt: HostRuntime) -> Result<(), Fail> {
    assert_eq!(rt; opened(rt.alloc(), &BARE_ACCEPTED)?, None);
    assert_eq!(rt; opened(rt.alloc(), &BARE_REJECTED)?, None);
    Ok(())
}

const SECONDS: [Row; 10] = [
    Row {
        call: Call::Second,
        told: Told::Aged(Aged::Quiet),
    },
    Row {
        call: Call::Ask {
            session: 1,
            state: &[],
        },
        told: Told::Name(0, 0),
    },
    Row {
        call: Call::Quiet { seconds: 4 },
        told: Told::Is(true),
    },
    Row {
        call: Call::Second,
        told: Told::Aged(Aged::Resend),
    },
    Row {
        call: Call::Quiet { seconds: 4 },
        told: Told::Is(true),
    },
    Row {
        call: Call::Second,
        told: Told::Aged(Aged::Resend),
    },
    Row {
        call: Call::Quiet { seconds: 4 },
        told: Told::Is(true),
    },
    Row {
        call: Call::Second,
        told: Told::Aged(Aged::GaveUp),
    },
    Row {
        call: Call::Waits { session: 1 },
        told: Told::Is(false),
    },
    Row {
        call: Call::Second,
        told: Told::Aged(Aged::Quiet),
    },
];

#[test]
fn a_request_is_sent_again_twice_and_then_given_up(rt: HostRuntime) -> Result<(), Fail> {
    assert_eq!(rt; opened(rt.alloc(), &SECONDS)?, None);
    Ok(())
}

// The names 0 and 2 wait all the time, and 1 is free again.
const NAMES: [Row; 13] = [
    Row {
        call: Call::Ask {
            session: 1,
            state: &[],
        },
        told: Told::Name(0, 0),
    },
    Row {
        call: Call::Ask {
            session: 2,
            state: &[],
        },
        told: Told::Name(0, 1),
    },
    Row {
        call: Call::Ask {
            session: 3,
            state: &[],
        },
        told: Told::Name(0, 2),
    },
    Row {
        call: Call::Forget { session: 2 },
        told: Told::Is(false),
    },
    Row {
        call: Call::Round {
            first: 3,
            behind: 1024,
        },
        told: Told::Is(true),
    },
    Row {
        call: Call::Ask {
            session: 9,
            state: &[],
        },
        told: Told::Name(0, 1),
    },
    Row {
        call: Call::Forget { session: 9 },
        told: Told::Is(false),
    },
    Row {
        call: Call::Ask {
            session: 9,
            state: &[],
        },
        told: Told::Name(0, 3),
    },
    Row {
        call: Call::Forget { session: 9 },
        told: Told::Is(false),
    },
    Row {
        call: Call::Ask {
            session: 9,
            state: &[],
        },
        told: Told::Name(0, 4),
    },
    Row {
        call: Call::Forget { session: 9 },
        told: Told::Is(false),
    },
    Row {
        call: Call::Waits { session: 1 },
        told: Told::Is(true),
    },
    Row {
        call: Call::Waits { session: 3 },
        told: Told::Is(true),
    },
];

#[test]
fn names_go_round_and_skip_those_that_wait(rt: HostRuntime) -> Result<(), Fail> {
    assert_eq!(rt; opened(rt.alloc(), &NAMES)?, None);
    Ok(())
}

// The answer is to the request of its socket.
const MANY: [Row; 4] = [
    Row {
        call: Call::AskAll { sessions: 256 },
        told: Told::Is(true),
    },
    Row {
        call: Call::Ask {
            session: 257,
            state: &[],
        },
        told: Told::Name(1, 0),
    },
    Row {
        call: Call::IsNamed {
            session: 257,
            socket: 1,
            id: 0,
        },
        told: Told::Is(true),
    },
    Row {
        call: Call::Answer {
            socket: 1,
            octets: &ACCEPT,
            require: true,
        },
        told: Told::Taken {
            session: 257,
            eap: Some(Eap {
                len: 4,
                head: [3, 1, 0, 4, 0, 0],
            }),
            has_state: false,
            waits: true,
        },
    },
];

#[test]
fn request_257_leaves_by_socket_1(rt: HostRuntime) -> Result<(), Fail> {
    assert_eq!(rt; opened(rt.alloc(), &MANY)?, None);
    Ok(())
}

const LONG: [Row; 3] = [
    Row {
        call: Call::Ask {
            session: 1,
            state: &[],
        },
        told: Told::Name(0, 0),
    },
    Row {
        call: Call::Long { size: 1497 },
        told: Told::Dropped {
            drop: AaaDrop::Oversize,
            waits: true,
        },
    },
    Row {
        call: Call::Long { size: 1496 },
        told: Told::Taken {
            session: 1,
            eap: Some(Eap {
                len: 1496,
                head: [1, 9, 5, 216, 4, 0x55],
            }),
            has_state: false,
            waits: false,
        },
    },
];

#[test]
fn an_eap_packet_of_several_attributes_has_at_most_1496_octets(
    rt: HostRuntime,
) -> Result<(), Fail> {
    assert_eq!(rt; opened(rt.alloc(), &LONG)?, None);
    Ok(())
}

const COPIED: [Row; 3] = [
    Row {
        call: Call::Ask {
            session: 1,
            state: &[],
        },
        told: Told::Name(0, 0),
    },
    Row {
        call: Call::Ask {
            session: 2,
            state: &[],
        },
        told: Told::Name(0, 1),
    },
    Row {
        call: Call::Forget { session: 1 },
        told: Told::Is(false),
    },
];

const OTHERS: [Row; 1] = [Row {
    call: Call::Ask {
        session: 5,
        state: &[],
    },
    told: Told::Name(0, 0),
}];

const COPY: [Row; 4] = [
    Row {
        call: Call::Waits { session: 5 },
        told: Told::Is(false),
    },
    Row {
        call: Call::Waits { session: 1 },
        told: Told::Is(false),
    },
    Row {
        call: Call::IsNamed {
            session: 2,
            socket: 0,
            id: 1,
        },
        told: Told::Is(true),
    },
    Row {
        call: Call::Ask {
            session: 3,
            state: &[],
        },
        told: Told::Name(0, 2),
    },
];

#[test]
fn a_copy_has_the_same_requests_and_the_same_last_name(rt: HostRuntime) -> Result<(), Fail> {
    let mut waits = Waits::open(rt.alloc())?;
    assert_eq!(rt; otherwise(&mut waits, &COPIED), None);
    let mut copy = Waits::open(rt.alloc())?;
    assert_eq!(rt; otherwise(&mut copy, &OTHERS), None);
    copy.copy_from(&waits);
    assert_eq!(rt; otherwise(&mut copy, &COPY), None);
    Ok(())
}

#[test]
fn key_streams_of_the_standard(rt: HostRuntime) {
    for row in KEY_STREAMS {
        assert_eq!(rt; request_authenticator(row.seed, row.k), row.octets);
    }
}
