// What a server logs and sends.
use crate::served::{HEAD, IDENTITY, SETTINGS, START, STARTED, local, serve, server};
use control_core::Core;
use event_record::MOST_EVENTS;
use history_defs::MOST_OCTETS;
use outside_core::{MemSink, MemSource};
use outside_link::MemLink;
use race_run::replay_within;
use serve_loop::{Ending, status};
use std::alloc::{AllocError, Global};
use std::sync::Wait;
use std::test::Fail;
use std::thread::Threads;

const ROOM: usize = 1 << 16;

#[test]
fn the_octet_ff_ends_the_run(rt: HostRuntime) -> Result<(), Fail> {
    let mut out = MemSink::new(rt.alloc(), ROOM, &[])?;
    let mut link = MemLink::new(rt.alloc(), ROOM, &[])?;
    link.give(rt.alloc(), 0, local(6000), &[0xff])?;
    link.give(rt.alloc(), 2, local(6001), &[1])?;
    let ending = serve(&rt, rt.alloc(), &[1000], 10, &mut out, &mut link)?;
    assert_eq!(rt; status(ending), 0);
    assert_eq!(rt; out.taken(), HEAD.as_bytes());
    assert_eq!(rt; link.sent(0), None);
    Ok(())
}

#[test]
fn the_clock_goes_on_by_seconds(rt: HostRuntime) -> Result<(), Fail> {
    let mut out = MemSink::new(rt.alloc(), ROOM, &[])?;
    let mut link = MemLink::new(rt.alloc(), ROOM, &[])?;
    let ending = serve(&rt, rt.alloc(), &[1000, 1000, 1002], 3, &mut out, &mut link)?;
    assert_eq!(rt; ending, Ending::Done);
    let log = format!(in rt.alloc(); "{HEAD}tick\n# c 4 @1 3 ok\ntick\n# c 5 @1 4 ok\n")?;
    assert_eq!(rt; out.taken(), log.as_bytes());
    Ok(())
}

// The blocks that a log shows: its comment lines, without what makes them comments.
fn shown(alloc: Global, log: &str) -> Result<String, AllocError> {
    let mut text = String::new(alloc);
    for line in log.lines() {
        if let Some(rest) = line.strip_prefix("# ") {
            text.push_str(rest)?;
            text.push('\n')?;
        }
    }
    Ok(text)
}

#[test]
fn a_host_is_answered_where_it_is(rt: HostRuntime) -> Result<(), Fail> {
    let mut out = MemSink::new(rt.alloc(), ROOM, &[])?;
    let mut link = MemLink::new(rt.alloc(), ROOM, &[])?;
    link.give(rt.alloc(), 0, local(6000), START)?;
    link.give(rt.alloc(), 0, local(6000), &[0xff])?;
    let ending = serve(&rt, rt.alloc(), &[1000], 2, &mut out, &mut link)?;
    assert_eq!(rt; ending, Ending::Done);
    let log = format!(in rt.alloc(); "{HEAD}{STARTED}")?;
    assert_eq!(rt; out.taken(), log.as_bytes());
    let frame =
        b"\x02\x00\x00\x00\x00\xaa\x02\x00\x00\x01\x01\x01\x88\x8e\x02\x00\x00\x05\x01\x01\x00\x05\x01";
    assert_eq!(rt; link.sent(0), Some((0, local(6000), frame.as_slice())));
    assert_eq!(rt; link.sent(1), None);
    Ok(())
}

// The blocks that a run of a log writes.
fn replayed<T: Threads + Wait + Sync>(
    rt: &T,
    alloc: Global,
    log: &[u8],
) -> Result<Vec<u8>, AllocError> {
    let mut source = MemSource::new(alloc, log, 4096, &[])?;
    let mut out = MemSink::new(alloc, ROOM, &[])?;
    let _done = replay_within::<Core, _, _, _>(
        rt,
        alloc,
        MOST_OCTETS,
        MOST_EVENTS as u64,
        &mut source,
        &mut out,
    );
    out.taken().to_vec(alloc)
}

#[test]
fn a_log_replays_to_the_blocks_that_it_shows(rt: HostRuntime) -> Result<(), Fail> {
    let mut out = MemSink::new(rt.alloc(), ROOM, &[])?;
    let mut link = MemLink::new(rt.alloc(), ROOM, &[])?;
    link.give(rt.alloc(), 0, local(6000), START)?;
    link.give(rt.alloc(), 0, local(6001), IDENTITY)?;
    link.give(rt.alloc(), 0, local(6001), &[2, 7])?;
    let ending = serve(&rt, rt.alloc(), &[1000, 1000, 1001], 4, &mut out, &mut link)?;
    assert_eq!(rt; ending, Ending::Done);
    let log = str::from_utf8(out.taken()).expect(&rt, "a log is text");
    assert!(rt; log.ends_with("\nframe 2 07\n# d 7 6 drop runt\n"));
    let blocks = replayed(&rt, rt.alloc(), log.as_bytes())?;
    assert_eq!(rt; blocks.as_slice(), shown(rt.alloc(), log)?.as_bytes());
    assert!(rt; matches!(link.sent(1), Some((1, to, [1, 0, ..])) if to == server()));
    assert_eq!(rt; link.sent(2), None);
    Ok(())
}

#[test]
fn settings_that_are_refused_start_nothing(rt: HostRuntime) -> Result<(), Fail> {
    let text = &SETTINGS[..SETTINGS.len() - 6];
    let mut source = MemSource::new(rt.alloc(), text, 4096, &[])?;
    let mut out = MemSink::new(rt.alloc(), ROOM, &[])?;
    let mut link = MemLink::new(rt.alloc(), ROOM, &[0])?;
    let mut clock = outside_link::ListClock::new(rt.alloc(), &[1000])?;
    let ending = serve_loop::serve_within::<Core, _, _, _, _, _>(
        &rt,
        rt.alloc(),
        &[1, 2, 3, 4, 5, 6],
        1,
        MOST_OCTETS,
        1,
        &mut source,
        &mut out,
        &mut link,
        &mut clock,
    );
    assert_eq!(rt; ending, Ending::Refused { line: 7, why: 13 });
    assert_eq!(rt; out.taken(), b"".as_slice());
    Ok(())
}
