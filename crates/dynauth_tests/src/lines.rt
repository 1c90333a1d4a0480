//! For each line of the list a request that is right but for that line.

use crate::requests::{CHANGES, DISCONNECTS, Form, Reply, Row, SECOND, SESSION, otherwise};
use dynauth_server::{Action, DynDrop, Judged};
use radius_attrs::Timeout;
use std::test::Fail;

// A Disconnect-Request for session 1 at the moment that it says.
const TIMELY: Row = Row {
    attributes: &[SESSION, (55, &[0, 0, 3, 232])],
    now: 1000,
    ..DISCONNECTS
};

// The same without the moment.
const NAMING: Row = Row {
    attributes: &[SESSION],
    now: 1000,
    ..DISCONNECTS
};

// A wrong Message-Authenticator.
const UNTRUE: &[(u8, &[u8])] = &[(80, &[0; 16]), SESSION];

// A Disconnect-Request for session 1 is done but for what lines 1 to 8 find.
const LINES_1_TO_8: [Row; 10] = [
    Row {
        judged: Judged::Ack(Action::Disconnect { number: 1 }),
        ..TIMELY
    },
    Row {
        from: SECOND,
        judged: Judged::Drop(DynDrop::Stranger),
        ..TIMELY
    },
    Row {
        cut: 1,
        judged: Judged::Drop(DynDrop::Malformed),
        ..TIMELY
    },
    Row {
        code: 41,
        judged: Judged::Drop(DynDrop::BadCode),
        ..NAMING
    },
    Row {
        secret: b"dym",
        judged: Judged::Drop(DynDrop::BadAuthenticator),
        ..NAMING
    },
    Row {
        form: Form::Unsigned,
        judged: Judged::Drop(DynDrop::BadMessageAuth),
        ..NAMING
    },
    Row {
        attributes: UNTRUE,
        form: Form::Unsigned,
        judged: Judged::Drop(DynDrop::BadMessageAuth),
        ..NAMING
    },
    Row {
        now: 1301,
        judged: Judged::Drop(DynDrop::Stale),
        ..TIMELY
    },
    Row {
        keep: Some(Reply {
            client: 0,
            octets: b"kept",
        }),
        ..TIMELY
    },
    Row {
        judged: Judged::Again(b"kept"),
        ..TIMELY
    },
];

#[test]
fn lines_1_to_8_drop_or_repeat(rt: HostRuntime) -> Result<(), Fail> {
    assert_eq!(rt; otherwise(rt.alloc(), &LINES_1_TO_8)?, None);
    Ok(())
}

// Where no Message-Authenticator is required.
const LENIENT: Row = Row {
    attributes: &[SESSION],
    form: Form::Unsigned,
    require: false,
    ..DISCONNECTS
};

// A client that leaves the Message-Authenticator out is answered, and one that has it wrong is not.
const LINE_6: [Row; 3] = [
    Row { ..LENIENT },
    Row {
        form: Form::Signed,
        ..LENIENT
    },
    Row {
        attributes: UNTRUE,
        judged: Judged::Drop(DynDrop::BadMessageAuth),
        ..LENIENT
    },
];

#[test]
fn line_6_asks_for_what_the_settings_require(rt: HostRuntime) -> Result<(), Fail> {
    assert_eq!(rt; otherwise(rt.alloc(), &LINE_6)?, None);
    Ok(())
}

const STATE: (u8, &[u8]) = (33, &[0; 253]);

// Requests of 4,000 and of 4,001 octets: Proxy-States, and attribute 44 at the end.
const LINE_3: [Row; 2] = [
    Row {
        attributes: &[
            STATE,
            STATE,
            STATE,
            STATE,
            STATE,
            STATE,
            STATE,
            STATE,
            STATE,
            STATE,
            STATE,
            STATE,
            STATE,
            STATE,
            STATE,
            (33, &[0; 143]),
            SESSION,
        ],
        ..LENIENT
    },
    Row {
        attributes: &[
            STATE,
            STATE,
            STATE,
            STATE,
            STATE,
            STATE,
            STATE,
            STATE,
            STATE,
            STATE,
            STATE,
            STATE,
            STATE,
            STATE,
            STATE,
            (33, &[0; 144]),
            SESSION,
        ],
        judged: Judged::Drop(DynDrop::Oversize),
        ..LENIENT
    },
];

#[test]
fn line_3_drops_a_request_of_4001_octets(rt: HostRuntime) -> Result<(), Fail> {
    assert_eq!(rt; otherwise(rt.alloc(), &LINE_3)?, None);
    Ok(())
}

const TYPE: (u8, &[u8]) = (64, &[0, 0, 0, 13]);

const MEDIUM: (u8, &[u8]) = (65, &[0, 0, 0, 6]);

const VLAN_43: Judged<'static> = Judged::Ack(Action::Change {
    number: 1,
    vlan: Some(43),
    timeout: Timeout::Unset,
});

const REAUTH_9: Judged<'static> = Judged::Ack(Action::Change {
    number: 1,
    vlan: None,
    timeout: Timeout::Reauth(9),
});

const LINES_9_TO_19: [Row; 25] = [
    Row {
        attributes: &[SESSION, (4, &[192, 0, 2, 10]), (32, b"sw1")],
        judged: Judged::Ack(Action::Disconnect { number: 1 }),
        ..DISCONNECTS
    },
    Row {
        attributes: &[SESSION, (4, &[192, 0, 2, 11])],
        judged: Judged::Nak(403),
        ..DISCONNECTS
    },
    Row {
        attributes: &[SESSION, (32, b"sw2")],
        judged: Judged::Nak(403),
        ..DISCONNECTS
    },
    Row {
        attributes: &[SESSION, (6, &[0, 0, 0, 17])],
        judged: Judged::Nak(405),
        ..DISCONNECTS
    },
    Row {
        attributes: &[SESSION, (26, b"vendor")],
        judged: Judged::Nak(401),
        ..DISCONNECTS
    },
    Row {
        attributes: &[SESSION, (49, &[0, 0, 0, 6])],
        judged: Judged::Ack(Action::Disconnect { number: 1 }),
        ..DISCONNECTS
    },
    Row {
        attributes: &[SESSION, (49, &[0, 0, 0, 6])],
        judged: Judged::Nak(401),
        ..CHANGES
    },
    Row {
        attributes: &[SESSION, (5, &[0, 0, 1])],
        judged: Judged::Nak(407),
        ..DISCONNECTS
    },
    Row {
        attributes: &[SESSION, (55, &[0, 0, 1])],
        judged: Judged::Nak(407),
        ..DISCONNECTS
    },
    Row {
        attributes: &[SESSION, (31, b"02-00-00-00-00")],
        judged: Judged::Nak(407),
        ..DISCONNECTS
    },
    Row {
        attributes: &[(55, &[0, 0, 0, 0])],
        judged: Judged::Nak(402),
        ..DISCONNECTS
    },
    Row {
        attributes: &[(44, b"00000002")],
        judged: Judged::Nak(503),
        ..DISCONNECTS
    },
    Row {
        attributes: &[SESSION, (31, b"0200.0000.00bb")],
        sessions: 2,
        judged: Judged::Nak(503),
        ..DISCONNECTS
    },
    Row {
        attributes: &[(1, b"bob")],
        sessions: 2,
        judged: Judged::Nak(508),
        ..DISCONNECTS
    },
    Row {
        attributes: &[(1, b"bob"), (31, b"0200.0000.00bb")],
        sessions: 2,
        judged: Judged::Ack(Action::Disconnect { number: 2 }),
        ..DISCONNECTS
    },
    Row {
        attributes: &[(1, b"bob"), (5, &[0, 0, 0, 1])],
        authorised: false,
        judged: Judged::Ack(Action::Disconnect { number: 1 }),
        ..DISCONNECTS
    },
    Row {
        attributes: &[SESSION],
        judged: Judged::Nak(402),
        ..CHANGES
    },
    Row {
        attributes: &[SESSION, (29, &[0, 0, 0, 9])],
        judged: Judged::Nak(402),
        ..CHANGES
    },
    Row {
        attributes: &[SESSION, (64, &[0, 0, 0, 13])],
        judged: Judged::Nak(402),
        ..CHANGES
    },
    Row {
        attributes: &[SESSION, (27, &[0, 0, 0, 0])],
        judged: Judged::Nak(407),
        ..CHANGES
    },
    Row {
        attributes: &[SESSION, (27, &[0, 0, 0, 9]), (29, &[0, 0, 0, 2])],
        judged: Judged::Nak(407),
        ..CHANGES
    },
    Row {
        attributes: &[SESSION, TYPE, MEDIUM, (81, b"4095")],
        judged: Judged::Nak(407),
        ..CHANGES
    },
    Row {
        attributes: &[SESSION, TYPE, MEDIUM, (81, b"43")],
        authorised: false,
        judged: Judged::Nak(503),
        ..CHANGES
    },
    Row {
        attributes: &[SESSION, TYPE, MEDIUM, (81, b"43")],
        judged: VLAN_43,
        ..CHANGES
    },
    Row {
        attributes: &[SESSION, (27, &[0, 0, 0, 9]), (29, &[0, 0, 0, 1])],
        judged: REAUTH_9,
        ..CHANGES
    },
];

#[test]
fn lines_9_to_19_refuse_or_do(rt: HostRuntime) -> Result<(), Fail> {
    assert_eq!(rt; otherwise(rt.alloc(), &LINES_9_TO_19)?, None);
    Ok(())
}
