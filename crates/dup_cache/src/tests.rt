use crate::Kept;

// One request for each number.
fn request(n: u8) -> [u8; 3] {
    [40, n, 7]
}

#[test]
fn of_65_entries_the_oldest_is_dropped(rt: HostRuntime) {
    let mut kept = Kept::open(rt.alloc()).expect(&rt, "there is memory");
    for n in 0..65 {
        kept.keep(3799, &request(n), &[41, n], 100);
    }
    assert!(rt; kept.look(3799, &request(0), 100).is_none());
    for n in 1..65 {
        assert!(rt; kept.look(3799, &request(n), 100) == Some([41, n].as_slice()));
    }
    let mut copy = Kept::open(rt.alloc()).expect(&rt, "there is memory");
    copy.keep(1812, &request(9), &[42], 100);
    copy.copy_from(&kept);
    assert!(rt; copy.look(1812, &request(9), 100).is_none());
    assert!(rt; copy.look(3799, &request(64), 100) == Some([41, 64].as_slice()));
}

// A reply is given for 30 seconds, and of two that may be given the newer one.
#[test]
fn a_reply_is_given_for_30_seconds(rt: HostRuntime) {
    let mut kept = Kept::open(rt.alloc()).expect(&rt, "there is memory");
    kept.keep(3799, &request(1), &[41], 1000);
    kept.keep(3799, &request(1), &[42], 1010);
    let older = Some([41].as_slice());
    let newer = Some([42].as_slice());
    let cases = [
        (3799, 1, 999, None),
        (3799, 1, 1000, older),
        (3799, 1, 1009, older),
        (3799, 1, 1010, newer),
        (3799, 1, 1040, newer),
        (3799, 1, 1041, None),
        (3798, 1, 1010, None),
        (3799, 2, 1010, None),
    ];
    for (sport, n, now, reply) in cases {
        assert!(rt; kept.look(sport, &request(n), now) == reply);
    }
}

// A request and a reply of 4,096 octets each are kept whole.
#[test]
fn the_longest_packets_are_kept(rt: HostRuntime) {
    let mut kept = Kept::open(rt.alloc()).expect(&rt, "there is memory");
    let request = [40; 4096];
    let reply = [41; 4096];
    kept.keep(3799, &request, &reply, 7);
    assert!(rt; kept.look(3799, &request, 7) == Some(reply.as_slice()));
    assert!(rt; kept.look(3799, &request[..4095], 7).is_none());
}
