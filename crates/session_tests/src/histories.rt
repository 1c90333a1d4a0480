//! Histories of one host each, with what it is sent at each step.

ghost use Rattle.std.specs.Prelude.{◌≡◌};
ghost use Rattle.machine_defs.specs.Live.{InRange};

use crate::pair::{Pair, Step};
use machine_vars::Times;
use out_tray::Sent;
use std::alloc::{AllocError, Global};
use typed_session::Verdict;
use wire_core::Mac;

const HOST: Mac = Mac([0x02, 0x00, 0x00, 0x00, 0x00, 0xaa]);

// The Responses with the identity `bob` to the first request and to the second, a request of the
// server with the identifier 9 and the Response to it, and the plain Success and Failure.
const BOB: [u8; 8] = [2, 1, 0, 8, 1, 0x62, 0x6f, 0x62];

const LATE: [u8; 8] = [2, 2, 0, 8, 1, 0x62, 0x6f, 0x62];

const ASKED: [u8; 6] = [1, 9, 0, 6, 4, 0];

const ANSWER: [u8; 6] = [2, 9, 0, 6, 4, 1];

const SUCCESS: [u8; 4] = [3, 1, 0, 4];

const FAILURE: [u8; 4] = [4, 1, 0, 4];

// The requests for the identity.
const FIRST: [u8; 5] = [1, 1, 0, 5, 1];

const SECOND: [u8; 5] = [1, 2, 0, 5, 1];

const FOURTH: [u8; 5] = [1, 4, 0, 5, 1];

fn times() -> Times
    ensures { InRange result }
{
    Times {
        quiet: 60,
        server: 30,
        reauth_max: 2,
        reauth_period: 3600,
        reauth: false,
    }
}

const ACCEPTS: Step<'static> = Step::Told(Verdict::Accept {
    eap: Some(&SUCCESS),
    timeout_reauth: 0,
});

const ACCEPTS_5: Step<'static> = Step::Told(Verdict::Accept {
    eap: Some(&SUCCESS),
    timeout_reauth: 5,
});

const CHALLENGES: Step<'static> = Step::Told(Verdict::Challenge {
    eap: &ASKED,
    wait: 0,
});

const REJECTS: Step<'static> = Step::Told(Verdict::Reject { eap: None });

const PASSES: Step<'static> = Step::Second { gave_up: false };

// What happens to a pair, and what it then shows.
#[derive(Clone, Copy)]
enum Row {
    // At this step both look alike, and the host is sent this packet, or where it is empty none.
    Step(Step<'static>, &'static [u8]),
    // So many seconds go by without a word.
    Silent(u32),
    // The machines took so many rows.
    Took(u32),
    // The host was sent this packet last.
    Sent(&'static [u8]),
    // It is let in.
    Authorised(bool),
    // It is held.
    Held(bool),
    // It was given up.
    Gone(bool),
    // The identifier of its last request.
    Id(u8),
    // The identity and the response that the server is asked about.
    Asked(&'static [u8], &'static [u8]),
}

// What a history shows, and its rows.
#[derive(Clone, Copy)]
struct History {
    shows: &'static str,
    rows: &'static [Row],
}

const HISTORIES: [History; 11] = [
    History {
        shows: "a host is asked for its identity and let in",
        rows: &[
            Row::Took(8),
            Row::Sent(&FIRST),
            Row::Authorised(false),
            Row::Step(Step::Eap(&BOB), &[]),
            Row::Took(4),
            Row::Asked(b"bob", &BOB),
            Row::Step(ACCEPTS, &SUCCESS),
            Row::Took(4),
            Row::Authorised(true),
            Row::Id(1),
            Row::Silent(4000),
        ],
    },
    History {
        shows: "a challenge goes to the host as it came and its response to the server",
        rows: &[
            Row::Step(Step::Eap(&BOB), &[]),
            Row::Step(CHALLENGES, &ASKED),
            Row::Step(Step::Eap(&ANSWER), &[]),
            Row::Id(9),
            Row::Asked(b"bob", &ANSWER),
        ],
    },
    History {
        shows: "a response with another identifier is ignored",
        rows: &[
            Row::Step(Step::Eap(&LATE), &[]),
            Row::Took(5),
            Row::Asked(&[], &[]),
            Row::Step(Step::Eap(&BOB), &[]),
            Row::Asked(b"bob", &BOB),
        ],
    },
    History {
        shows: "a host that says nothing is asked eight times and given up after 80 seconds",
        rows: &[
            Row::Silent(9),
            Row::Step(PASSES, &FIRST),
            Row::Silent(9),
            Row::Step(PASSES, &FIRST),
            Row::Silent(9),
            Row::Step(PASSES, &FIRST),
            Row::Silent(9),
            Row::Step(PASSES, &SECOND),
            Row::Silent(9),
            Row::Step(PASSES, &SECOND),
            Row::Silent(9),
            Row::Step(PASSES, &SECOND),
            Row::Silent(9),
            Row::Step(PASSES, &SECOND),
            Row::Silent(9),
            Row::Gone(false),
            Row::Silent(1),
            Row::Gone(true),
        ],
    },
    History {
        shows: "a second start takes the next identifier and a third the fourth",
        rows: &[
            Row::Step(Step::Start, &SECOND),
            Row::Step(Step::Start, &FOURTH),
        ],
    },
    History {
        shows: "a host that was refused is asked again after the quiet period",
        rows: &[
            Row::Step(Step::Eap(&BOB), &[]),
            Row::Step(REJECTS, &FAILURE),
            Row::Step(Step::Start, &[]),
            Row::Held(true),
            Row::Authorised(false),
            Row::Silent(59),
            Row::Held(true),
            Row::Step(PASSES, &SECOND),
            Row::Held(false),
        ],
    },
    History {
        shows: "a host is authenticated again after the time that the server gave",
        rows: &[
            Row::Step(Step::Eap(&BOB), &[]),
            Row::Step(ACCEPTS_5, &SUCCESS),
            Row::Authorised(true),
            Row::Silent(4),
            Row::Step(PASSES, &SECOND),
            Row::Authorised(true),
        ],
    },
    History {
        shows: "a session that is to end has the identifier of its last request",
        rows: &[
            Row::Step(Step::Eap(&BOB), &[]),
            Row::Step(ACCEPTS, &SUCCESS),
            Row::Silent(5),
            Row::Id(1),
        ],
    },
    History {
        shows: "a change of the session sets the time of reauthentication",
        rows: &[
            Row::Step(Step::Eap(&BOB), &[]),
            Row::Step(ACCEPTS, &SUCCESS),
            Row::Step(Step::Times { reauth: 600 }, &[]),
            Row::Silent(599),
            Row::Step(PASSES, &SECOND),
            Row::Authorised(true),
        ],
    },
    History {
        shows: "a logoff shuts the host out and asks it for its identity",
        rows: &[
            Row::Step(Step::Eap(&BOB), &[]),
            Row::Step(ACCEPTS, &SUCCESS),
            Row::Step(Step::Logoff, &SECOND),
            Row::Authorised(false),
        ],
    },
    History {
        shows: "a server that was given up shows once its time has run out",
        rows: &[
            Row::Step(Step::Eap(&BOB), &[]),
            Row::Silent(14),
            Row::Step(Step::Second { gave_up: true }, &[]),
            Row::Silent(14),
            Row::Step(PASSES, &SECOND),
        ],
    },
];

// What the host is sent: the EAP packet of the one frame, and nothing where there is no frame.
fn is_sent(pair: &Pair, eap: &[u8]) -> bool {
    let head = [
        0x02, 0x00, 0x00, 0x00, 0x00, 0xaa, 0x02, 0x00, 0x00, 0x01, 0x01, 0x01, 0x88, 0x8e, 2, 0, 0,
    ];
    match pair.two.item(0) {
        Some(Sent::Frame { port: 1, octets }) => {
            pair.two.len() == 1
                && octets.len() == 18 + eap.len()
                && &octets[..17] == head.as_slice()
                && octets[17] as usize == eap.len()
                && &octets[18..] == eap
        }
        Some(_) => false,
        None => eap.is_empty(),
    }
}

fn holds(pair: &mut Pair, row: Row) -> bool {
    match row {
        Row::Step(step, eap) => pair.takes(step) && is_sent(pair, eap),
        Row::Silent(seconds) => is_silent(pair, seconds),
        Row::Took(rows) => pair.rows == rows,
        Row::Sent(eap) => is_sent(pair, eap),
        Row::Authorised(is) => pair.host.authorised() == is,
        Row::Held(is) => pair.host.held() == is,
        Row::Gone(is) => pair.v.gone == is,
        Row::Id(id) => pair.host.id() == id,
        Row::Asked(identity, response) => pair.host.asked() == (identity, response),
    }
}

// Whether so many seconds go by without a word.
fn is_silent(pair: &mut Pair, seconds: u32) -> bool {
    for _ in 0..seconds {
        if !pair.takes(PASSES) || !is_sent(pair, &[]) {
            return false;
        }
    }
    true
}

// The first row that does not hold.
fn otherwise(pair: &mut Pair, rows: &[Row]) -> Option<usize> {
    for (at, row) in rows.iter().enumerate() {
        if !holds(pair, *row) {
            return Some(at);
        }
    }
    None
}

fn opened(alloc: Global) -> Result<Pair, AllocError> {
    Pair::open(alloc, HOST, &times())
}

#[test]
fn a_host_is_sent_the_same_by_both(rt: HostRuntime) {
    for history in HISTORIES {
        let mut pair = opened(rt.alloc()).expect(&rt, "there is memory");
        let shows = history.shows;
        assert_eq!(rt; otherwise(&mut pair, history.rows), None, "{shows}");
    }
}

const LET_IN: [Row; 2] = [
    Row::Step(Step::Eap(&BOB), &[]),
    Row::Step(ACCEPTS, &SUCCESS),
];

const LET_IN_FOR_5: [Row; 2] = [
    Row::Step(Step::Eap(&BOB), &[]),
    Row::Step(ACCEPTS_5, &SUCCESS),
];

fn two_are_let_in(one: &mut Pair, two: &mut Pair) -> bool {
    otherwise(one, &LET_IN).is_none()
        && two.takes(Step::Eap(&BOB))
        && two.takes(ACCEPTS)
        && one.host.authorised()
        && two.host.authorised()
        && one.host.asked().0 == two.host.asked().0
        && one.takes(Step::Logoff)
        && !one.host.authorised()
        && two.host.authorised()
}

#[test]
fn two_hosts_are_let_in_beside_each_other(rt: HostRuntime) {
    let mut one = opened(rt.alloc()).expect(&rt, "there is memory");
    let other = Mac([0x02, 0x00, 0x00, 0x00, 0x00, 0xbb]);
    let mut two = Pair::open(rt.alloc(), other, &times()).expect(&rt, "there is memory");
    assert!(rt; two_are_let_in(&mut one, &mut two));
}

const SERVED: [Row; 1] = [Row::Step(Step::Eap(&BOB), &[])];

const ANEW: [Row; 4] = [
    Row::Sent(&FIRST),
    Row::Asked(&[], &[]),
    Row::Step(ACCEPTS, &[]),
    Row::Authorised(false),
];

#[test]
fn a_session_that_is_opened_anew_knows_nothing_of_the_one_before(rt: HostRuntime) {
    let mut pair = opened(rt.alloc()).expect(&rt, "there is memory");
    assert_eq!(rt; otherwise(&mut pair, &SERVED), None);
    pair = opened(rt.alloc()).expect(&rt, "there is memory");
    assert_eq!(rt; otherwise(&mut pair, &ANEW), None);
}

// Three hosts become one another: the first asks the server, the second is let in for 5 seconds, the
// third for good.
fn copies_are_right(served: &mut Pair, admitted: &mut Pair, other: &mut Pair) -> bool {
    other.host.copy_from(&admitted.host);
    admitted.host.copy_from(&served.host);
    let asks = !admitted.host.authorised() && admitted.host.asked().1 == BOB.as_slice();
    served.host.copy_from(&other.host);
    let is_in = served.host.authorised() && served.host.asked().1.is_empty();
    served.host.copy_from(&admitted.host);
    admitted.host.copy_from(&other.host);
    asks && is_in
}

const ASKED_AGAIN: [Row; 2] = [Row::Silent(29), Row::Step(PASSES, &SECOND)];

const AGAIN_AFTER_5: [Row; 2] = [Row::Silent(4), Row::Step(PASSES, &SECOND)];

#[test]
fn a_copy_goes_on_like_the_host_that_it_was_made_of(rt: HostRuntime) {
    let mut served = opened(rt.alloc()).expect(&rt, "there is memory");
    let mut admitted = opened(rt.alloc()).expect(&rt, "there is memory");
    let mut other = opened(rt.alloc()).expect(&rt, "there is memory");
    assert_eq!(rt; otherwise(&mut served, &SERVED), None);
    assert_eq!(rt; otherwise(&mut admitted, &LET_IN_FOR_5), None);
    assert_eq!(rt; otherwise(&mut other, &LET_IN), None);
    assert!(rt; copies_are_right(&mut served, &mut admitted, &mut other));
    assert_eq!(rt; otherwise(&mut served, &ASKED_AGAIN), None);
    assert_eq!(rt; otherwise(&mut admitted, &AGAIN_AFTER_5), None);
}
