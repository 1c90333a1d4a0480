// What is printed, and how runs end.
use outside_core::{MemSink, MemSource};
use race_phases::race_within;
use race_run::Ending;
use std::alloc::{AllocError, Global};
use std::test::Fail;

const LIMIT: usize = 1 << 16;

const ROOM: u64 = 100;

const SETTINGS: &str =
    "server 192.0.2.20 1812 73\nport 1 10 auto\nport 2 20 auto\nport 3 30 force-auth\nbegin\n";

// A phase for each record, so that there is one output.
const ONE_BY_ONE: &str =
    "@2 link 3 up\nsync\nframe 3 ffffffffffff0200000000bb08004500\nsync\n@2 link 3 down\nsync\nframe 3 ffffffffffff0200000000bb08004500\n";

const BLOCKS: &str =
    "c 1 @2 0 ok\nf 3 0180c2000003020000010103888e0200000403000004\nd 2 1 forward 0 30 ffffffffffff0200000000bb8100001e08004500\nc 3 @2 1 ok\nd 4 2 drop down\n";

fn trace(alloc: Global, records: &str) -> Result<String, AllocError> {
    let mut text = String::new(alloc);
    text.push_str(SETTINGS)?;
    text.push_str(records)?;
    Ok(text)
}

#[test]
fn a_worker_knows_of_the_phases_before(rt: HostRuntime) -> Result<(), Fail> {
    let text = trace(rt.alloc(), ONE_BY_ONE)?;
    for workers in 1..9 {
        let mut source = MemSource::new(rt.alloc(), text.as_bytes(), 4096, &[])?;
        let mut out = MemSink::new(rt.alloc(), LIMIT, &[])?;
        let ending = race_within(
            &rt,
            rt.alloc(),
            2,
            workers,
            LIMIT,
            ROOM,
            &mut source,
            &mut out,
        );
        assert_eq!(rt; ending, Ending::Done, "with {workers} workers");
        assert_eq!(rt; out.taken(), BLOCKS.as_bytes(), "with {workers} workers");
    }
    Ok(())
}

#[test]
fn faults_of_the_streams_are_told(rt: HostRuntime) -> Result<(), Fail> {
    let text = trace(rt.alloc(), ONE_BY_ONE)?;
    let rows: [(&[u64], &[u64], Ending); 2] = [
        (&[0], &[], Ending::ReadFault),
        (&[], &[0], Ending::WriteFault),
    ];
    for (reads, writes, wanted) in rows {
        let mut source = MemSource::new(rt.alloc(), text.as_bytes(), 4096, reads)?;
        let mut out = MemSink::new(rt.alloc(), LIMIT, writes)?;
        let ending = race_within(&rt, rt.alloc(), 1, 1, LIMIT, ROOM, &mut source, &mut out);
        assert_eq!(rt; ending, wanted);
        assert_eq!(rt; out.taken(), b"".as_slice());
    }
    Ok(())
}
