//! Requests whose answers are known by the rules of RFC 5176.

use crate::requests::{CHANGES, DISCONNECTS, Form, Reply, Row, SECOND, SESSION, otherwise};
use crate::vectors::{ACK, DISCONNECT, UNSIGNED};
use dynauth_server::{Action, DynDrop, Judged};
use radius_attrs::Timeout;
use std::test::Fail;

// Two hosts are both authorised as `bob`.
const TWO_BOBS: [Row; 6] = [
    Row {
        attributes: &[(1, b"bob")],
        sessions: 2,
        judged: Judged::Nak(508),
        ..DISCONNECTS
    },
    Row {
        attributes: &[(5, &[0, 0, 0, 2])],
        sessions: 2,
        judged: Judged::Nak(503),
        ..DISCONNECTS
    },
    Row {
        attributes: &[(55, &[0, 0, 0, 0])],
        sessions: 2,
        judged: Judged::Nak(402),
        ..DISCONNECTS
    },
    Row {
        attributes: &[(1, b"bob"), (32, b"sw2"), (26, b"v"), (6, &[0, 0, 0, 17])],
        sessions: 2,
        judged: Judged::Nak(403),
        ..DISCONNECTS
    },
    Row {
        attributes: &[(1, b"bob"), (26, b"v"), (6, &[0, 0, 0, 17])],
        sessions: 2,
        judged: Judged::Nak(405),
        ..DISCONNECTS
    },
    Row {
        attributes: &[(1, b"bob"), (26, b"v")],
        sessions: 2,
        judged: Judged::Nak(401),
        ..DISCONNECTS
    },
];

#[test]
fn a_disconnect_that_names_no_one_session_has_its_cause(rt: HostRuntime) -> Result<(), Fail> {
    assert_eq!(rt; otherwise(rt.alloc(), &TWO_BOBS)?, None);
    Ok(())
}

const TYPE: (u8, &[u8]) = (64, &[0, 0, 0, 13]);

const MEDIUM: (u8, &[u8]) = (65, &[0, 0, 0, 6]);

const GROUP: (u8, &[u8]) = (81, b"43");

const BOTH: Judged<'static> = Judged::Ack(Action::Change {
    number: 1,
    vlan: Some(43),
    timeout: Timeout::End(600),
});

const VLAN_AND_TIME: [Row; 2] = [
    Row {
        attributes: &[SESSION, TYPE, MEDIUM, GROUP, (27, &[0, 2, 88])],
        judged: Judged::Nak(407),
        ..CHANGES
    },
    Row {
        attributes: &[SESSION, TYPE, MEDIUM, GROUP, (27, &[0, 0, 2, 88])],
        judged: BOTH,
        ..CHANGES
    },
];

#[test]
fn a_change_of_vlan_and_time_is_done_whole_or_not_at_all(rt: HostRuntime) -> Result<(), Fail> {
    assert_eq!(rt; otherwise(rt.alloc(), &VLAN_AND_TIME)?, None);
    Ok(())
}

// The clock is at 1000, and the window is 300 seconds.
const WINDOW: [Row; 8] = [
    Row {
        attributes: &[SESSION, (55, &[0, 0, 0x02, 0xbc])],
        now: 1000,
        ..DISCONNECTS
    },
    Row {
        attributes: &[SESSION, (55, &[0, 0, 0x02, 0xbc])],
        from: SECOND,
        now: 1000,
        judged: Judged::Drop(DynDrop::Stranger),
        ..DISCONNECTS
    },
    Row {
        attributes: &[SESSION, (55, &[0, 0, 0x05, 0x14])],
        now: 1000,
        ..DISCONNECTS
    },
    Row {
        attributes: &[SESSION, (55, &[0, 0, 0x05, 0x14])],
        from: SECOND,
        now: 1000,
        judged: Judged::Drop(DynDrop::Stranger),
        ..DISCONNECTS
    },
    Row {
        attributes: &[SESSION, (55, &[0, 0, 0x02, 0xbb])],
        now: 1000,
        judged: Judged::Drop(DynDrop::Stale),
        ..DISCONNECTS
    },
    Row {
        attributes: &[SESSION, (55, &[0, 0, 0x02, 0xbb])],
        from: SECOND,
        now: 1000,
        judged: Judged::Drop(DynDrop::Stranger),
        ..DISCONNECTS
    },
    Row {
        attributes: &[SESSION, (55, &[0, 0, 0x05, 0x15])],
        now: 1000,
        judged: Judged::Drop(DynDrop::Stale),
        ..DISCONNECTS
    },
    Row {
        attributes: &[SESSION, (55, &[0, 0, 0x05, 0x15])],
        from: SECOND,
        now: 1000,
        judged: Judged::Drop(DynDrop::Stranger),
        ..DISCONNECTS
    },
];

#[test]
fn a_request_is_taken_within_the_window_alone(rt: HostRuntime) -> Result<(), Fail> {
    assert_eq!(rt; otherwise(rt.alloc(), &WINDOW)?, None);
    Ok(())
}

const NAMING: Row = Row {
    attributes: &[SESSION],
    ..DISCONNECTS
};

// One right Message-Authenticator is taken, and the same one twice is not.
const ONCE: [Row; 2] = [
    Row { ..NAMING },
    Row {
        form: Form::Twice,
        judged: Judged::Drop(DynDrop::BadMessageAuth),
        ..NAMING
    },
];

#[test]
fn a_message_authenticator_stands_once(rt: HostRuntime) -> Result<(), Fail> {
    assert_eq!(rt; otherwise(rt.alloc(), &ONCE)?, None);
    Ok(())
}

const FIRST_SECRET: Row = Row {
    clients: 2,
    ..NAMING
};

const SECOND_SECRET: Row = Row {
    secret: b"other",
    clients: 2,
    judged: Judged::Drop(DynDrop::BadAuthenticator),
    ..NAMING
};

// Each client has its own secret and its own kept replies.
const CLIENTS: [Row; 5] = [
    Row {
        keep: Some(Reply {
            client: 1,
            octets: b"first",
        }),
        ..FIRST_SECRET
    },
    Row { ..FIRST_SECRET },
    Row {
        from: SECOND,
        judged: Judged::Drop(DynDrop::BadAuthenticator),
        ..FIRST_SECRET
    },
    Row {
        keep: Some(Reply {
            client: 1,
            octets: b"second",
        }),
        ..SECOND_SECRET
    },
    Row {
        from: SECOND,
        judged: Judged::Again(b"second"),
        ..SECOND_SECRET
    },
];

#[test]
fn a_client_is_known_by_its_own_secret_and_replies(rt: HostRuntime) -> Result<(), Fail> {
    assert_eq!(rt; otherwise(rt.alloc(), &CLIENTS)?, None);
    Ok(())
}

const KNOWN: Row = Row {
    form: Form::Octets(&DISCONNECT),
    sessions: 0,
    judged: Judged::Again(&ACK),
    ..DISCONNECTS
};

// A Disconnect-Request is done, and for 30 seconds the same one gets the same octets. Where no
// Message-Authenticator is required, a client that leaves it out is answered.
const AGAIN: [Row; 7] = [
    Row {
        sessions: 1,
        judged: Judged::Ack(Action::Disconnect { number: 1 }),
        keep: Some(Reply {
            client: 0,
            octets: &ACK,
        }),
        ..KNOWN
    },
    Row { now: 0, ..KNOWN },
    Row { now: 1, ..KNOWN },
    Row { now: 29, ..KNOWN },
    Row { now: 30, ..KNOWN },
    Row {
        now: 31,
        judged: Judged::Nak(503),
        ..KNOWN
    },
    Row {
        form: Form::Octets(&UNSIGNED),
        require: false,
        now: 31,
        sessions: 1,
        judged: Judged::Ack(Action::Disconnect { number: 1 }),
        ..KNOWN
    },
];

#[test]
fn a_disconnect_that_comes_again_gets_the_same_reply(rt: HostRuntime) -> Result<(), Fail> {
    assert_eq!(rt; otherwise(rt.alloc(), &AGAIN)?, None);
    Ok(())
}
