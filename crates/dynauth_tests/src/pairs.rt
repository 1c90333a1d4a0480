//! For each two neighbouring lines of the list a request that both fit: the earlier one applies. Of
//! lines 14 and 15, and of 18 and 19, no request can fit both.

use crate::requests::{CHANGES, DISCONNECTS, Form, Reply, Row, SECOND, SESSION, otherwise};
use dynauth_server::{DynDrop, Judged};
use std::test::Fail;

const STATE: (u8, &[u8]) = (33, &[0; 248]);

// A request of 4,020 octets, of no known code, which is not true.
const LONG: Row = Row {
    code: 41,
    attributes: &[
        STATE, STATE, STATE, STATE, STATE, STATE, STATE, STATE, STATE, STATE, STATE, STATE, STATE,
        STATE, STATE, STATE,
    ],
    secret: b"dym",
    form: Form::Unsigned,
    ..DISCONNECTS
};

// Lines 1 and 2, 2 and 3, 3 and 4.
const LINES_1_TO_4: [Row; 3] = [
    Row {
        form: Form::Octets(b"no packet"),
        from: SECOND,
        judged: Judged::Drop(DynDrop::Stranger),
        ..LONG
    },
    Row {
        judged: Judged::Drop(DynDrop::Oversize),
        ..LONG
    },
    Row {
        cut: 1,
        judged: Judged::Drop(DynDrop::Malformed),
        ..LONG
    },
];

#[test]
fn a_stranger_before_malformed_before_oversize_before_a_bad_code(
    rt: HostRuntime,
) -> Result<(), Fail> {
    assert_eq!(rt; otherwise(rt.alloc(), &LINES_1_TO_4)?, None);
    Ok(())
}

// A Message-Authenticator that is wrong.
const UNTRUE: Row = Row {
    attributes: &[SESSION, (80, &[0; 16])],
    form: Form::Unsigned,
    now: 1000,
    judged: Judged::Drop(DynDrop::BadMessageAuth),
    ..DISCONNECTS
};

// A moment that is stale, and the name of another access server.
const STALE: Row = Row {
    attributes: &[SESSION, (55, &[0; 4]), (32, b"sw2")],
    now: 1000,
    judged: Judged::Drop(DynDrop::Stale),
    ..DISCONNECTS
};

// Lines 4 and 5, 5 and 6, 6 and 7, 7 and 8, 8 and 9. Event-Timestamp 0 is stale at the moment 1000.
const LINES_4_TO_9: [Row; 7] = [
    Row {
        code: 41,
        secret: b"dym",
        judged: Judged::Drop(DynDrop::BadCode),
        ..UNTRUE
    },
    Row {
        secret: b"dym",
        judged: Judged::Drop(DynDrop::BadAuthenticator),
        ..UNTRUE
    },
    Row { ..STALE },
    Row {
        keep: Some(Reply {
            client: 0,
            octets: b"one",
        }),
        ..UNTRUE
    },
    Row {
        keep: Some(Reply {
            client: 0,
            octets: b"two",
        }),
        ..STALE
    },
    Row { ..UNTRUE },
    Row {
        judged: Judged::Again(b"two"),
        ..STALE
    },
];

#[test]
fn a_bad_code_before_untrue_before_a_repeat_before_stale(rt: HostRuntime) -> Result<(), Fail> {
    assert_eq!(rt; otherwise(rt.alloc(), &LINES_4_TO_9)?, None);
    Ok(())
}

// Lines 9 and 10, 10 and 11, 11 and 12, 12 and 13, 13 and 14, 15 and 16, 16 and 17, 17 and 18.
const CAUSES: [Row; 8] = [
    Row {
        attributes: &[SESSION, (6, &[0, 0, 0, 17]), (32, b"sw2")],
        judged: Judged::Nak(403),
        ..DISCONNECTS
    },
    Row {
        attributes: &[SESSION, (26, b"vendor"), (6, &[0, 0, 0, 17])],
        judged: Judged::Nak(405),
        ..DISCONNECTS
    },
    Row {
        attributes: &[SESSION, (5, &[0, 0, 1]), (26, b"vendor")],
        judged: Judged::Nak(401),
        ..DISCONNECTS
    },
    Row {
        attributes: &[(55, &[0, 0, 1])],
        judged: Judged::Nak(407),
        ..DISCONNECTS
    },
    Row {
        attributes: &[(55, &[0, 0, 0, 0])],
        sessions: 0,
        judged: Judged::Nak(402),
        ..DISCONNECTS
    },
    Row {
        attributes: &[(1, b"bob")],
        sessions: 2,
        judged: Judged::Nak(508),
        ..CHANGES
    },
    Row {
        attributes: &[SESSION, (64, &[0, 0, 0, 13]), (27, &[0, 0, 9])],
        judged: Judged::Nak(402),
        ..CHANGES
    },
    Row {
        attributes: &[SESSION, (27, &[0, 0, 9])],
        authorised: false,
        judged: Judged::Nak(407),
        ..CHANGES
    },
];

#[test]
fn the_earlier_cause_is_given(rt: HostRuntime) -> Result<(), Fail> {
    assert_eq!(rt; otherwise(rt.alloc(), &CAUSES)?, None);
    Ok(())
}
