//! A port that is forced open, a session of a host as it is opened, and all sessions at their start.

use host_session::open;
use host_sessions::{Sessions, port_address};
use machine_vars::{Control, Times};
use out_tray::{Sent, Tray};
use port_machine::{fresh, settle};
use wire_core::Mac;

const OWN: Mac = Mac([2, 0, 0, 1, 1, 1]);

const HOST: Mac = Mac([2, 0, 0, 0, 0, 5]);

const TIMES: Times = Times {
    quiet: 60,
    server: 30,
    reauth_max: 2,
    reauth_period: 3600,
    reauth: false,
};

// Whether session 7 opens with one frame and wants nothing of the server.
fn is_opened(tray: &mut Tray) -> bool {
    tray.clear();
    let (session, wants) = open(7, 1, OWN, HOST, 10, &TIMES, tray);
    !wants.ask
        && !wants.abort
        && !wants.gone
        && !session.authorised()
        && session.identity().is_none()
        && session.right(99).is_none()
        && session.number == 7
}

#[test]
fn a_session_opens_with_a_request_for_the_identity(rt: HostRuntime) {
    let mut tray = Tray::open(rt.alloc(), 1).expect(&rt, "there is memory");
    assert!(rt; is_opened(&mut tray));
    assert_eq!(rt; tray.len(), 1);
}

fn are_none(sessions: &Sessions) -> bool {
    sessions.len() == 0
        && sessions.count(1) == 0
        && sessions.place_at(0).is_none()
        && sessions.numbered(1).is_none()
        && sessions.find(1, HOST).is_none()
        && sessions.right(0, 99).is_none()
        && sessions.row(0).is_none()
}

#[test]
fn there_are_no_sessions_at_the_start(rt: HostRuntime) {
    let mut sessions = Sessions::open(rt.alloc()).expect(&rt, "there is memory");
    assert!(rt; are_none(&sessions));
    let other = Sessions::open(rt.alloc()).expect(&rt, "there is memory");
    sessions.copy_from(&other);
    assert_eq!(rt; sessions.len(), 0);
}

#[test]
fn a_port_has_the_address_of_its_number(rt: HostRuntime) {
    assert_eq!(rt;
        port_address(Mac([2, 0, 0, 1, 1, 0]), 7),
        Mac([2, 0, 0, 1, 1, 7])
    );
}

// How many rows a port takes that is forced open.
fn forced_open(tray: &mut Tray) -> u32 {
    tray.clear();
    let mut v = fresh(1, OWN, HOST, Control::ForceAuth, &TIMES);
    settle(&mut v, tray)
}

// A Success in a frame to the host.
const SUCCESS: [u8; 22] = [
    2, 0, 0, 0, 0, 5, 2, 0, 0, 1, 1, 1, 0x88, 0x8e, 2, 0, 0, 4, 3, 0, 0, 4,
];

#[test]
fn a_port_that_is_forced_open_tells_of_success(rt: HostRuntime) {
    let mut tray = Tray::open(rt.alloc(), 1).expect(&rt, "there is memory");
    assert_eq!(rt; forced_open(&mut tray), 1);
    assert_eq!(rt; tray.len(), 1);
    assert!(rt;
        matches!(tray.item(0), Some(Sent::Frame { port: 1, octets }) if octets == SUCCESS.as_slice())
    );
}
