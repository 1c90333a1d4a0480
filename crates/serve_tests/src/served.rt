// A run of a server over objects in memory, and what they are given.
ghost use Rattle.std.specs.Prelude.{◌<◌};

use control_core::Core;
use event_record::MOST_EVENTS;
use history_defs::MOST_OCTETS;
use outside_core::{MemSink, MemSource};
use outside_link::{Addr, ListClock, MemLink};
use serve_loop::{Ending, serve_within};
use std::alloc::{AllocError, Global};
use std::net::Net;

/// The settings of all runs: a port that authenticates hosts, one that forwards all, one that
/// forwards none.
pub const SETTINGS: &[u8] =
    b"nas 192.0.2.10 sw1\nserver 192.0.2.20 1812 736563726574\nclient 192.0.2.30 64796e\nport 1 10 auto\nport 2 20 force-auth\nport 3 30 force-unauth\nbegin\n";

/// What is logged before the first turn, where the clock says 1000.
pub const HEAD: &str =
    "bridge 020000010100\nnas 192.0.2.10 sw1\nserver 192.0.2.20 1812 736563726574\nclient 192.0.2.30 64796e\nport 1 10 auto\nport 2 20 force-auth\nport 3 30 force-unauth\nset quiet-period 60\nset server-timeout 30\nset reauth-max 2\nset reauth-period 3600\nset reauth off\nset guest-wait 30\nset dyn-window 300\nset require-ma on\nclock 1000\nseed 0000000000000000000000000000000000000000000000000000000000000000\nbegin\nlink 1 up\n# c 1 @1 0 ok\n# f 1 0180c2000003020000010101888e020000050100000501\nlink 2 up\n# c 2 @1 1 ok\n# f 2 0180c2000003020000010102888e0200000403000004\nlink 3 up\n# c 3 @1 2 ok\n# f 3 0180c2000003020000010103888e0200000404000004\n";

/// What is logged of the frame [`START`] as the first datagram.
pub const STARTED: &str =
    "frame 1 0180c20000030200000000aa888e01010000\n# c 4 @1 3 ok\n# f 1 0200000000aa020000010101888e020000050101000501\n";

/// A datagram with an EAPOL-Start on port 1 (IEEE Std 802.1X-2004, 7.5).
pub const START: &[u8] =
    b"\x01\x01\x80\xc2\x00\x00\x03\x02\x00\x00\x00\x00\xaa\x88\x8e\x01\x01\x00\x00";

/// A datagram with an Identity of the same host.
pub const IDENTITY: &[u8] =
    b"\x01\x01\x80\xc2\x00\x00\x03\x02\x00\x00\x00\x00\xaa\x88\x8e\x01\x00\x00\x08\x02\x01\x00\x08\x01bob";

/// A port of UDP on this host.
pub fn local(port: u16) -> Addr {
    Addr {
        ip: [127, 0, 0, 1],
        port,
    }
}

/// The RADIUS server of the settings.
pub fn server() -> Addr {
    Addr {
        ip: [192, 0, 2, 20],
        port: 1812,
    }
}

/// Serves over these objects and a clock with these moments.
pub fn serve<R: Net>(
    rt: &R,
    alloc: Global,
    moments: &[u64],
    turns: u32,
    out: &mut MemSink,
    link: &mut MemLink,
) -> Result<Ending, AllocError> {
    let mut source = MemSource::new(alloc, SETTINGS, 4096, &[])?;
    let mut clock = ListClock::new(alloc, moments)?;
    let ports = [5001, 5010, 5003, 5011, 5012, 5013];
    Ok(serve_within::<Core, _, _, _, _, _>(
        rt,
        alloc,
        &ports,
        turns,
        MOST_OCTETS,
        MOST_EVENTS as u64,
        &mut source,
        out,
        link,
        &mut clock,
    ))
}
