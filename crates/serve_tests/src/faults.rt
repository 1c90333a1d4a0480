// The outside fails at each of its calls.
use crate::served::{HEAD, START, STARTED, local, serve};
use outside_core::MemSink;
use outside_link::MemLink;
use serve_loop::{Ending, status};
use std::test::Fail;

const ROOM: usize = 1 << 16;

// The calls of a run of two turns with one frame: six binds, then the first channel is asked, the
// answer to the frame is sent, and the other channels and then all six are asked.
const CALLS: u64 = 19;

#[test]
fn a_link_that_fails_ends_the_run_with_what_was_logged(rt: HostRuntime) -> Result<(), Fail> {
    let whole = format!(in rt.alloc(); "{HEAD}{STARTED}")?;
    for call in 0..CALLS + 1 {
        let mut out = MemSink::new(rt.alloc(), ROOM, &[])?;
        let mut link = MemLink::new(rt.alloc(), ROOM, &[call])?;
        link.give(rt.alloc(), 0, local(6000), START)?;
        let ending = serve(&rt, rt.alloc(), &[1000], 2, &mut out, &mut link)?;
        let (log, sends) = match call {
            0..=5 => ("", false),
            6 => (HEAD, false),
            7 => (whole.as_str(), false),
            _ => (whole.as_str(), true),
        };
        assert_eq!(rt;
            status(ending),
            if call < CALLS { 7 } else { 0 },
            "at {call}"
        );
        assert_eq!(rt; out.taken(), log.as_bytes(), "at {call}");
        assert_eq!(rt; link.sent(0).is_some(), sends, "at {call}");
    }
    Ok(())
}

#[test]
fn a_sink_that_fails_ends_the_run(rt: HostRuntime) -> Result<(), Fail> {
    let lens = [0, 398, 475, 550, 625, 737];
    for (call, len) in lens.iter().enumerate() {
        let mut out = MemSink::new(rt.alloc(), ROOM, &[call as u64])?;
        let mut link = MemLink::new(rt.alloc(), ROOM, &[])?;
        link.give(rt.alloc(), 0, local(6000), START)?;
        let ending = serve(&rt, rt.alloc(), &[1000], 2, &mut out, &mut link)?;
        let wanted = if call < 5 {
            Ending::WriteFault
        } else {
            Ending::Done
        };
        assert_eq!(rt; ending, wanted, "at {call}");
        assert_eq!(rt; out.taken().len(), *len, "at {call}");
        assert_eq!(rt; link.sent(0).is_some(), call == 5, "at {call}");
    }
    Ok(())
}
