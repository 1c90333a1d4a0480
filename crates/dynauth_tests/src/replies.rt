//! The octets of replies.

use crate::vectors::{ACK, COA, COA_ACK, COA_NAK, DISCONNECT, NAK, UNSIGNED, UNSIGNED_ACK};
use arrayvec::ArrayVec;
use dynauth_server::reply;
use radius_packet::parse;

// A request, the Error-Cause with which it is refused or none, and the octets of its reply.
#[derive(Clone, Copy)]
struct Row {
    request: &'static [u8],
    cause: Option<u32>,
    reply: &'static [u8],
}

// A request without a Message-Authenticator gets a reply with one all the same, and each reply has the
// request's Proxy-States.
const ROWS: [Row; 5] = [
    Row {
        request: &DISCONNECT,
        cause: None,
        reply: &ACK,
    },
    Row {
        request: &DISCONNECT,
        cause: Some(503),
        reply: &NAK,
    },
    Row {
        request: &UNSIGNED,
        cause: None,
        reply: &UNSIGNED_ACK,
    },
    Row {
        request: &COA,
        cause: None,
        reply: &COA_ACK,
    },
    Row {
        request: &COA,
        cause: Some(407),
        reply: &COA_NAK,
    },
];

fn replied(octets: &[u8], cause: Option<u32>, out: &mut ArrayVec<u8, 4096>) -> bool {
    let Ok(packet) = parse(octets) else {
        return false;
    };
    if packet.text().len() > 4000 || (packet.code != 40 && packet.code != 43) {
        return false;
    }
    reply(&packet, cause, b"dyn", out);
    true
}

#[test]
fn a_reply_has_each_proxy_state_and_a_message_authenticator(rt: HostRuntime) {
    let mut out = ArrayVec::new();
    for row in ROWS {
        assert!(rt; replied(row.request, row.cause, &mut out));
        assert!(rt; out.as_slice() == row.reply);
    }
}
