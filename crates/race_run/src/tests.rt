// Where a run ends at its limits, and what is counted.
use crate::{Counter, Ending, check_within, run_within};
use outside_core::{MemSink, MemSource};
use std::test::Fail;

const ROOM: usize = 1 << 16;

const TEXT: &[u8] =
    b"server 192.0.2.20 1812 73\nport 3 30 force-unauth\nbegin\nlink 3 down\n\n# none\nsync\nlink 3 down\nframe 3 ffffffffffff0200000000bb0800\nlink 3 down\n";

#[test]
fn a_trace_past_its_limits_is_not_run(rt: HostRuntime) -> Result<(), Fail> {
    let rows: [(usize, u64, Ending); 3] = [
        (TEXT.len(), 3, Ending::Done),
        (TEXT.len() - 1, 3, Ending::TooLong),
        (TEXT.len(), 2, Ending::Full),
    ];
    for (limit, room, ending) in rows {
        let mut source = MemSource::new(rt.alloc(), TEXT, 4096, &[])?;
        let mut out = MemSink::new(rt.alloc(), ROOM, &[])?;
        let mut counter = Counter::default();
        let ended = run_within(
            &rt,
            rt.alloc(),
            limit,
            room,
            &mut counter,
            &mut source,
            &mut out,
        );
        assert_eq!(rt; ended, ending, "at {limit} {room}");
    }
    Ok(())
}

#[test]
fn records_and_control_records_are_counted(rt: HostRuntime) -> Result<(), Fail> {
    let mut source = MemSource::new(rt.alloc(), TEXT, 4096, &[])?;
    let mut out = MemSink::new(rt.alloc(), ROOM, &[])?;
    let ended = check_within(&rt, rt.alloc(), TEXT.len(), 3, &mut source, &mut out);
    assert_eq!(rt; ended, Ending::Done);
    assert_eq!(rt; out.taken(), b"ok 4 3\n".as_slice());
    Ok(())
}
