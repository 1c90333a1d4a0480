// Datagrams that leave nothing in the log.
use crate::served::{HEAD, local, serve, server};
use outside_core::MemSink;
use outside_link::{Addr, MemLink};
use serve_loop::Ending;
use std::test::Fail;

const ROOM: usize = 1 << 16;

#[test]
fn datagrams_that_are_skipped_leave_no_event(rt: HostRuntime) -> Result<(), Fail> {
    let other_port = Addr {
        ip: [192, 0, 2, 20],
        port: 1813,
    };
    // The channel, the sender, and how often which octet is sent.
    let rows: [(u8, Addr, usize, u8); 9] = [
        (0, local(6000), 0, 0),
        (0, local(6000), 2, 0xff),
        (0, local(6000), 4, 4),
        (0, local(6000), 2002, 1),
        (0, local(6000), 5001, 1),
        (1, server(), 0, 0),
        (1, local(1812), 1, 2),
        (5, other_port, 1, 2),
        (2, local(3799), 5001, 0),
    ];
    for (channel, from, count, octet) in rows {
        let octets = vec![in rt.alloc(); octet; count]?;
        let mut out = MemSink::new(rt.alloc(), ROOM, &[])?;
        let mut link = MemLink::new(rt.alloc(), ROOM, &[])?;
        link.give(rt.alloc(), channel, from, &octets)?;
        let ending = serve(&rt, rt.alloc(), &[1000], 1, &mut out, &mut link)?;
        assert_eq!(rt; ending, Ending::Done);
        assert_eq!(rt; out.taken(), HEAD.as_bytes());
        assert_eq!(rt; link.sent(0), None);
    }
    Ok(())
}

#[test]
fn each_channel_has_its_record(rt: HostRuntime) -> Result<(), Fail> {
    let rows: [(u8, &str); 5] = [
        (1, "radius 02\n# c 4 @1 3 drop malformed\n"),
        (2, "dyn 192.0.2.20 1812 02\n# c 4 @1 3 drop stranger\n"),
        (3, "radius 1 02\n# c 4 @1 3 drop malformed\n"),
        (4, "radius 2 02\n# c 4 @1 3 drop malformed\n"),
        (5, "radius 3 02\n# c 4 @1 3 drop malformed\n"),
    ];
    for (channel, record) in rows {
        let mut out = MemSink::new(rt.alloc(), ROOM, &[])?;
        let mut link = MemLink::new(rt.alloc(), ROOM, &[])?;
        link.give(rt.alloc(), channel, server(), &[2])?;
        let ending = serve(&rt, rt.alloc(), &[1000], 1, &mut out, &mut link)?;
        assert_eq!(rt; ending, Ending::Done);
        let log = format!(in rt.alloc(); "{HEAD}{record}")?;
        assert_eq!(rt; out.taken(), log.as_bytes(), "on channel {channel}");
    }
    Ok(())
}
