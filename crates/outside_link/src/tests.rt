//! What no clause says: two links of the host on loopback; and each call that takes memory, once with
//! enough of it.
ghost use Rattle.std.specs.Prelude.{◌≤◌};

use crate::{Addr, CHANNELS, Clock, Failed, HostClock, Link, ListClock, MemLink, UdpLink};
use std::cell::Cell;
use std::io;
use std::io::ErrorKind;
use std::net::Net;
use std::test::Fail;
use std::time::{Clock as HostTime, Duration};

fn local(port: u16) -> Addr {
    Addr {
        ip: [127, 0, 0, 1],
        port,
    }
}

#[test]
fn a_link_in_memory_keeps_datagrams_by_channel(rt: HostRuntime) -> Result<(), Fail> {
    let mut link = MemLink::new(rt.alloc(), 16 + 3 + 16 + 1, &[5])?;
    link.give(rt.alloc(), 0, local(6000), &[1, 2, 3])?;
    link.give(rt.alloc(), 5, local(6005), &[])?;
    let mut buf = [9; 2];
    assert_eq!(rt; link.recv(&rt, 0, &mut buf), Err(Failed));
    for channel in 0..CHANNELS as u8 {
        let bound = link.bind(&rt, channel, 5000);
        assert_eq!(rt; bound.is_err(), channel == 4);
    }
    assert_eq!(rt; link.bind(&rt, 6, 5006), Err(Failed));
    assert_eq!(rt; link.recv(&rt, 0, &mut buf), Ok(Some((local(6000), 2))));
    assert_eq!(rt; buf, [1, 2]);
    assert_eq!(rt; link.recv(&rt, 0, &mut buf), Ok(None));
    assert_eq!(rt; link.recv(&rt, 5, &mut buf), Ok(Some((local(6005), 0))));
    assert_eq!(rt; link.recv(&rt, 4, &mut buf), Err(Failed));
    assert_eq!(rt; link.send(&rt, 1, local(1812), &[7, 8, 9]), Ok(()));
    assert_eq!(rt; link.send(&rt, 1, local(1812), &[7, 8]), Err(Failed));
    assert_eq!(rt; link.send(&rt, 3, local(1813), &[6]), Ok(()));
    assert_eq!(rt; link.sent(0), Some((1, local(1812), [7, 8, 9].as_slice())));
    assert_eq!(rt; link.sent(1), Some((3, local(1813), [6].as_slice())));
    assert_eq!(rt; link.sent(2), None);
    Ok(())
}

#[test]
fn a_clock_in_memory_repeats_its_last_moment(rt: HostRuntime) -> Result<(), Fail> {
    let mut clock = ListClock::new(rt.alloc(), &[1000, 1002])?;
    for moment in [1000, 1002, 1002] {
        assert_eq!(rt; clock.now(), moment);
    }
    let mut none = ListClock::new(rt.alloc(), &[])?;
    assert_eq!(rt; none.now(), 0);
    Ok(())
}

// Binds a channel to one of a few ports, of which some may be taken.
fn bound_at<R: Net>(rt: &R, link: &mut UdpLink, channel: u8, first: u16) -> Option<Addr>
    requires { first ≤ 60000 }
{
    for n in 0..100u16 {
        if link.bind(rt, channel, first + n).is_ok() {
            return Some(local(first + n));
        }
    }
    None
}

// What comes on a channel within a second or so.
fn received<R: Net>(
    rt: &R,
    link: &mut UdpLink,
    channel: u8,
    buf: &mut [u8],
) -> Option<(Addr, usize)> {
    for _ in 0..500 * CHANNELS {
        if let Ok(Some(found)) = link.recv(rt, channel, buf) {
            return Some(found);
        }
    }
    None
}

#[test]
fn two_links_on_loopback_reach_each_other(rt: HostRuntime) -> Result<(), Fail> {
    let (mut here, mut there) = (UdpLink::new(), UdpLink::new());
    let from = bound_at(&rt, &mut here, 1, 41_100).expect(&rt, "a port");
    let to = bound_at(&rt, &mut there, 5, 42_100).expect(&rt, "a port");
    let mut buf = [0; 8];
    assert_eq!(rt; here.recv(&rt, 0, &mut buf), Err(Failed));
    assert_eq!(rt; here.send(&rt, 0, to, &[1]), Err(Failed));
    assert_eq!(rt; here.send(&rt, 1, to, &[1, 2, 3]), Ok(()));
    assert_eq!(rt; received(&rt, &mut there, 5, &mut buf), Some((from, 3)));
    assert_eq!(rt; &buf[..3], [1, 2, 3].as_slice());
    assert_eq!(rt; there.send(&rt, 5, from, &[4; 5000]), Ok(()));
    assert_eq!(rt; received(&rt, &mut here, 1, &mut buf), Some((to, 8)));
    assert_eq!(rt; here.bind(&rt, 2, to.port), Err(Failed));
    assert_eq!(rt; here.bind(&rt, 6, 0), Err(Failed));
    Ok(())
}

#[test]
fn the_clock_of_the_host_does_not_stand_at_0(rt: HostRuntime) {
    let mut clock = HostClock::new(&rt);
    let first = clock.now();
    assert!(rt; first > 1_700_000_000);
    assert!(rt; clock.now() >= first);
}

// A host whose clock can be read once.
#[derive(Drop)]
struct ReadOnce {
    is_read: Cell<bool>,
}

impl HostTime for ReadOnce {
    fn monotonic(&self) -> io::Result<Duration> {
        Err(ErrorKind::Unsupported.into())
    }

    fn since_1970(&self) -> io::Result<Duration> {
        if self.is_read.replace(true) {
            return Err(ErrorKind::Unsupported.into());
        }
        Ok(Duration::from_millis(1_700_000_000_999))
    }
}

#[test]
fn a_clock_that_cannot_be_read_stands_still(rt: HostRuntime) {
    let host = ReadOnce {
        is_read: Cell::new(false),
    };
    let mut clock = HostClock::new(&host);
    assert_eq!(rt; clock.now(), 1_700_000_000);
    assert_eq!(rt; clock.now(), 1_700_000_000);
    let mut late = HostClock::new(&host);
    assert_eq!(rt; late.now(), 0);
}
