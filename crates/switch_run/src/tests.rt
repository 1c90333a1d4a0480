// What the program prints for whole traces, and where the outside fails.
ghost use Rattle.std.specs.Prelude.{◌≤◌, None};

use crate::words::without_name;
use outside_core::{Failed, MemSink, MemSource, Sink, Source, SureSink, SureSource};
use outside_link::{Addr, Clock, Link, ListClock, MemLink};
use std::alloc::{AllocError, Global};
use std::cell::Cell;
use std::net::Net;
use std::sync::Wait;
use std::test::Fail;
use std::thread::Threads;
use switch_top::switch_top;

const ROOM: usize = 1 << 16;

const SETTINGS: &str =
    "nas 192.0.2.10 sw1\nserver 192.0.2.20 1812 736563726574\nclient 192.0.2.30 64796e\nport 1 10 auto\nport 2 20 force-auth\nport 3 30 force-unauth\nbegin\n";

// The status of a run, and what was taken by the output and by standard error.
#[derive(Drop)]
struct Ran {
    status: u8,
    out: Vec<u8>,
    err: Vec<u8>,
}

fn replay(alloc: Global) -> Result<Vec<String>, AllocError> {
    let mut words = Vec::new(alloc);
    words.push(String::from_str(alloc, "replay")?)?;
    Ok(words)
}

// The status of a call.
fn top<T: Threads + Wait + Net + Sync, S: Source, K: Sink, L: Link, C: Clock>(
    rt: &T,
    alloc: Global,
    words: &[String],
    source: &mut S,
    out: &mut K,
    err: &mut K,
    link: &mut L,
    clock: &mut C,
) -> u8 {
    switch_top(rt, alloc, words, source, out, err, link, clock)
}

// The status of a call over a link and a clock in memory.
fn called<T: Threads + Wait + Net + Sync, S: Source, K: Sink>(
    rt: &T,
    alloc: Global,
    words: &[String],
    source: &mut S,
    out: &mut K,
    err: &mut K,
) -> Result<u8, AllocError> {
    let mut link = MemLink::new(alloc, 0, &[])?;
    let mut clock = ListClock::new(alloc, &[])?;
    Ok(top(rt, alloc, words, source, out, err, &mut link, &mut clock))
}

fn words_of(alloc: Global, words: &[&str]) -> Result<Vec<String>, AllocError> {
    let mut all = Vec::new(alloc);
    for word in words {
        all.push(String::from_str(alloc, word)?)?;
    }
    Ok(all)
}

fn run<T: Threads + Wait + Net + Sync>(
    rt: &T,
    alloc: Global,
    words: &[&str],
    text: &[u8],
    step: usize,
) -> Result<Ran, AllocError>
    requires { 1 ≤ step }
{
    let all = words_of(alloc, words)?;
    let mut source = MemSource::new(alloc, text, step, &[])?;
    let mut out = MemSink::new(alloc, ROOM, &[])?;
    let mut err = MemSink::new(alloc, ROOM, &[])?;
    let status = called(rt, alloc, &all, &mut source, &mut out, &mut err)?;
    told(alloc, status, &out, &err)
}

// The status with what the sinks took.
fn told(alloc: Global, status: u8, out: &MemSink, err: &MemSink) -> Result<Ran, AllocError> {
    Ok(Ran {
        status,
        out: out.taken().to_vec(alloc)?,
        err: err.taken().to_vec(alloc)?,
    })
}

#[test]
fn traces_print_their_blocks(rt: HostRuntime) -> Result<(), Fail> {
    let rows: [(&str, &str); 4] = [
        ("", ""),
        (
            "link 1 up\nframe 1 ffffffffffff0200000000aa08004500\n",
            "c 1 @1 0 ok\nf 1 0180c2000003020000010101888e020000050100000501\nd 2 1 drop unauthorised\n",
        ),
        (
            "frame 2 ffffffffffff0200000000bb08004500\nlink 2 up\nframe 2 ffffffffffff0200000000bb08004500\n",
            "d 1 0 drop down\nc 2 @1 0 ok\nf 2 0180c2000003020000010102888e0200000403000004\nd 3 1 forward 0 20 ffffffffffff0200000000bb8100001408004500\n",
        ),
        (
            "link 3 up\nframe 3 ffffffffffff0200000000bb08004500\n",
            "c 1 @1 0 ok\nf 3 0180c2000003020000010103888e0200000404000004\nd 2 1 drop closed\n",
        ),
    ];
    for (records, printed) in rows {
        let text = format!(in rt.alloc(); "{SETTINGS}{records}")?;
        for step in [1, 4096] {
            let ran = run(&rt, rt.alloc(), &["replay"], text.as_bytes(), step)?;
            assert_eq!(rt; ran.status, 0, "at {records}");
            assert_eq!(rt; ran.out.as_slice(), printed.as_bytes(), "at {records}");
            assert_eq!(rt; ran.err.as_slice(), b"".as_slice(), "at {records}");
        }
    }
    Ok(())
}

#[test]
fn each_drop_has_its_name(rt: HostRuntime) -> Result<(), Fail> {
    let rows: [(&str, usize, &str); 7] = [
        ("ffffffffffff0200000000bb08", 0, "drop runt\n"),
        (
            "ffffffffffff0200000000bb0800",
            0,
            "forward 0 20 ffffffffffff0200000000bb810000140800",
        ),
        (
            "ffffffffffff0200000000bb0800",
            1504,
            "forward 0 20 ffffffffffff0200000000bb810000140800",
        ),
        ("ffffffffffff0200000000bb0800", 1505, "drop giant\n"),
        ("ffffffffffff0200000000bb8100", 0, "drop tagged\n"),
        ("0180c200000e0200000000bb0800", 0, "drop reserved\n"),
        ("ffffffffffff0100000000bb0800", 0, "drop group-source\n"),
    ];
    for (frame, zeros, decision) in rows {
        let mut body = String::new(rt.alloc());
        for _ in 0..zeros {
            body.push_str("00")?;
        }
        let text = format!(in rt.alloc(); "{SETTINGS}link 2 up\nsync\nframe 2 {frame}{body}\n")?;
        let ran = run(&rt, rt.alloc(), &["replay"], text.as_bytes(), 4096)?;
        let forwards = decision.len() > 20;
        let end = if forwards { body.as_str() } else { "" };
        let feed = if forwards { "\n" } else { "" };
        let printed = format!(in rt.alloc();
            "c 1 @1 0 ok\nf 2 0180c2000003020000010102888e0200000403000004\nd 2 1 {decision}{end}{feed}"
        )?;
        assert_eq!(rt; ran.status, 0, "at {frame} {zeros}");
        assert_eq!(rt;
            ran.out.as_slice(),
            printed.as_bytes(),
            "at {frame} {zeros}"
        );
    }
    Ok(())
}

#[test]
fn a_refused_line_has_its_number_and_the_phases_before_it_stand(
    rt: HostRuntime,
) -> Result<(), Fail> {
    let rows: [(&str, &str, &str); 8] = [
        (
            "nas 192.0.2.10 sw1\nserver 192.0.2.20 1812 736563726574\nclient 192.0.2.30 64796e\nport 1 10 auto\nport 2 20 force-auth\nport 3 30 force-unauth\n",
            "",
            "line 7: missing\n",
        ),
        ("", "", "line 1: missing\n"),
        (
            "server 192.0.2.20 1812 73\nport 3 30 force-unauth\nbegin\n# a comment\nlink 3 down\nsync\nlink 61 down\nlink 3 down\n",
            "c 1 @1 0 ok\n",
            "line 7: number\n",
        ),
        (
            "server 192.0.2.20 1812 73\r\nport 3 30 force-unauth\r\nbegin\r\n\r\nlink 3 down\r\n\r\r\n",
            "",
            "line 6: octet\n",
        ),
        ("server 192.0.2.256 1812 73\n", "", "line 1: number\n"),
        (
            "server 192.0.2.20 1812 73\nport 1 10 auto\nport 1 10 auto\nbegin\n",
            "",
            "line 3: twice\n",
        ),
        (
            "server 192.0.2.20 1812 73\nport 1 10 auto\nbegin\n@2 frame 1 ffffffffffff0200000000aa08004500\n",
            "",
            "line 4: lane\n",
        ),
        (
            "server 192.0.2.20 1812 73\nport 1 10 auto\nbegin\n@2 link 1 up\n@4 tick",
            "",
            "line 5: lane\n",
        ),
    ];
    for (text, printed, said) in rows {
        for step in [1, 4096] {
            let ran = run(&rt, rt.alloc(), &["replay"], text.as_bytes(), step)?;
            assert_eq!(rt; ran.status, 3, "at {text}");
            assert_eq!(rt; ran.out.as_slice(), printed.as_bytes(), "at {text}");
            assert_eq!(rt; ran.err.as_slice(), said.as_bytes(), "at {text}");
        }
    }
    let usage = run(&rt, rt.alloc(), &["replay", "x"], b"begin\n", 1)?;
    assert_eq!(rt; usage.status, 2);
    assert_eq!(rt; usage.err.as_slice(), b"usage\n".as_slice());
    Ok(())
}

// Two phases; the second ends with the text.
const TWO_PHASES: &str = "link 1 up\nsync\nlink 3 up\n";

const FIRST_BLOCK: &str = "c 1 @1 0 ok\nf 1 0180c2000003020000010101888e020000050100000501\n";

// Each read of a run may fail, from the first to the one that finds the end of input.
#[test]
fn a_source_that_fails_leaves_the_phases_before(rt: HostRuntime) -> Result<(), Fail> {
    let text = format!(in rt.alloc(); "{SETTINGS}{TWO_PHASES}")?;
    let first_phase = SETTINGS.len() + 15;
    for call in 0..=text.len() {
        let mut source = MemSource::new(rt.alloc(), text.as_bytes(), 1, &[call as u64])?;
        let mut out = MemSink::new(rt.alloc(), ROOM, &[])?;
        let mut err = MemSink::new(rt.alloc(), ROOM, &[])?;
        let words = replay(rt.alloc())?;
        let status = called(&rt, rt.alloc(), &words, &mut source, &mut out, &mut err)?;
        let printed = if call < first_phase { "" } else { FIRST_BLOCK };
        assert_eq!(rt; status, 4, "at {call}");
        assert_eq!(rt; out.taken(), printed.as_bytes(), "at {call}");
        assert_eq!(rt; err.taken(), b"read fault\n".as_slice(), "at {call}");
    }
    Ok(())
}

#[test]
fn over_objects_that_do_not_fail_a_run_is_done(rt: HostRuntime) -> Result<(), Fail> {
    let text = format!(in rt.alloc(); "{SETTINGS}{TWO_PHASES}")?;
    let last_block = "c 2 @1 1 ok\nf 3 0180c2000003020000010103888e0200000404000004\n";
    let printed = format!(in rt.alloc(); "{FIRST_BLOCK}{last_block}")?;
    let mut source = SureSource::new(rt.alloc(), text.as_bytes(), 7)?;
    let mut out = SureSink::new(rt.alloc(), printed.len())?;
    let mut err = SureSink::new(rt.alloc(), 0)?;
    let words = replay(rt.alloc())?;
    let status = called(&rt, rt.alloc(), &words, &mut source, &mut out, &mut err)?;
    assert_eq!(rt; status, 0);
    assert_eq!(rt; out.taken(), printed.as_bytes());
    assert_eq!(rt; err.taken(), b"".as_slice());
    Ok(())
}

// A sink that takes none of a piece, and counts that as a failure.
#[derive(Drop)]
struct Refusing {
    refused: u64,
}

impl Sink for Refusing {
    ghost taken = { λ _. None };

    ghost faults = { λ s. s.refused };

    fn write(&mut self, piece: &[u8]) -> Result<usize, Failed> {
        self.refused = self.refused.saturating_add(1);
        Ok(0)
    }
}

#[test]
fn a_sink_that_takes_none_of_the_first_piece_fails(rt: HostRuntime) -> Result<(), Fail> {
    let text = format!(in rt.alloc(); "{SETTINGS}{TWO_PHASES}")?;
    let mut source = SureSource::new(rt.alloc(), text.as_bytes(), 4096)?;
    let mut out = Refusing { refused: 0 };
    let mut err = Refusing { refused: 0 };
    let words = replay(rt.alloc())?;
    let status = called(&rt, rt.alloc(), &words, &mut source, &mut out, &mut err)?;
    assert_eq!(rt; status, 5);
    assert_eq!(rt; out.refused, 1);
    let mut rest = [0; 64];
    assert_eq!(rt; source.read(&mut rest), Ok(10));
    assert_eq!(rt; &rest[..10], b"link 3 up\n".as_slice());
    Ok(())
}

#[test]
fn a_sink_that_fails_leaves_all_that_follows_the_phase(rt: HostRuntime) -> Result<(), Fail> {
    let text = format!(in rt.alloc(); "{SETTINGS}{TWO_PHASES}")?;
    let rows: [(u64, &str, &str); 2] = [(0, "", "link 3 up\n"), (1, FIRST_BLOCK, "")];
    for (call, printed, left) in rows {
        let mut source = MemSource::new(rt.alloc(), text.as_bytes(), 4096, &[])?;
        let mut out = MemSink::new(rt.alloc(), ROOM, &[call])?;
        let mut err = MemSink::new(rt.alloc(), ROOM, &[])?;
        let words = replay(rt.alloc())?;
        let status = called(&rt, rt.alloc(), &words, &mut source, &mut out, &mut err)?;
        assert_eq!(rt; status, 5, "at {call}");
        assert_eq!(rt; out.taken(), printed.as_bytes(), "at {call}");
        assert_eq!(rt; err.taken(), b"write fault\n".as_slice(), "at {call}");
        let mut rest = [0; 64];
        assert_eq!(rt; source.read(&mut rest), Ok(left.len()), "at {call}");
        assert_eq!(rt; &rest[..left.len()], left.as_bytes(), "at {call}");
    }
    Ok(())
}

#[test]
fn a_sink_without_room_for_a_block_fails(rt: HostRuntime) -> Result<(), Fail> {
    let text = format!(in rt.alloc(); "{SETTINGS}{TWO_PHASES}")?;
    let mut source = MemSource::new(rt.alloc(), text.as_bytes(), 4096, &[])?;
    let mut out = MemSink::new(rt.alloc(), FIRST_BLOCK.len() + 1, &[])?;
    let mut err = MemSink::new(rt.alloc(), 5, &[])?;
    let words = replay(rt.alloc())?;
    let status = called(&rt, rt.alloc(), &words, &mut source, &mut out, &mut err)?;
    assert_eq!(rt; status, 5);
    assert_eq!(rt; out.taken(), FIRST_BLOCK.as_bytes());
    assert_eq!(rt; err.taken(), b"".as_slice());
    Ok(())
}

// The record that a source and a sink share: the octets that were given so far, and how many they were at each write.
#[derive(Drop)]
struct Shared {
    given: Cell<u64>,
    first_write: Cell<u64>,
    writes: Cell<u64>,
}

#[derive(Drop)]
struct SharedSource<'a> {
    shared: &'a Shared,
    text: &'a [u8],
}

impl Source for SharedSource<'_> {
    ghost left = { λ _. None };

    ghost faults = { λ _. 0 };

    fn read(&mut self, buf: &mut [u8]) -> Result<usize, Failed> {
        let count = self.text.len().min(buf.len());
        buf[..count].copy_from_slice(&self.text[..count]);
        self.text = &self.text[count..];
        self.shared
            .given
            .set(self.shared.given.get().saturating_add(count as u64));
        Ok(count)
    }

    fn read_line(&mut self, buf: &mut [u8]) -> Result<usize, Failed> {
        let most = buf.len().min(1);
        self.read(&mut buf[..most])
    }
}

#[derive(Drop)]
struct SharedSink<'a> {
    shared: &'a Shared,
}

impl Sink for SharedSink<'_> {
    ghost taken = { λ _. None };

    ghost faults = { λ _. 0 };

    fn write(&mut self, piece: &[u8]) -> Result<usize, Failed> {
        if self.shared.writes.get() == 0 {
            self.shared.first_write.set(self.shared.given.get());
        }
        self.shared
            .writes
            .set(self.shared.writes.get().saturating_add(1));
        Ok(piece.len())
    }
}

#[test]
fn the_first_phase_is_written_before_an_octet_of_the_second_is_given(
    rt: HostRuntime,
) -> Result<(), Fail> {
    let text = format!(in rt.alloc(); "{SETTINGS}{TWO_PHASES}")?;
    let shared = Shared {
        given: Cell::new(0),
        first_write: Cell::new(0),
        writes: Cell::new(0),
    };
    let mut source = SharedSource {
        shared: &shared,
        text: text.as_bytes(),
    };
    let mut out = SharedSink { shared: &shared };
    let unused = Shared {
        given: Cell::new(0),
        first_write: Cell::new(0),
        writes: Cell::new(0),
    };
    let mut err = SharedSink { shared: &unused };
    let words = replay(rt.alloc())?;
    let status = called(&rt, rt.alloc(), &words, &mut source, &mut out, &mut err)?;
    assert_eq!(rt; status, 0);
    assert_eq!(rt; shared.first_write.get(), SETTINGS.len() as u64 + 15);
    assert_eq!(rt; shared.given.get(), text.len() as u64);
    assert_eq!(rt; shared.writes.get(), 2);
    assert_eq!(rt; unused.writes.get(), 0);
    Ok(())
}

#[test]
fn octets_past_the_limit_of_a_word_are_refused(rt: HostRuntime) -> Result<(), Fail> {
    let rows: [(&str, usize, usize, &str); 4] = [
        ("frame 2 ", 2000, 0, ""),
        ("frame 2 ", 2001, 3, "line 8: hex\n"),
        ("radius ", 5000, 0, ""),
        ("radius ", 5001, 3, "line 8: hex\n"),
    ];
    for (word, octets, status, said) in rows {
        let mut line = String::new(rt.alloc());
        for _ in 0..octets {
            line.push_str("00")?;
        }
        let text = format!(in rt.alloc(); "{SETTINGS}{word}{line}\n")?;
        let ran = run(&rt, rt.alloc(), &["replay"], text.as_bytes(), 4096)?;
        assert_eq!(rt; usize::from(ran.status), status, "at {word}{octets}");
        assert_eq!(rt; ran.err.as_slice(), said.as_bytes(), "at {word}{octets}");
    }
    Ok(())
}

#[test]
fn the_phases_before_a_refused_line_are_written(rt: HostRuntime) -> Result<(), Fail> {
    let text = format!(in rt.alloc(); "{SETTINGS}link 1 up\nsync\nlink 2 up\nsync\nlink 61 up")?;
    for step in [1, 4096] {
        let ran = run(&rt, rt.alloc(), &["replay"], text.as_bytes(), step)?;
        assert_eq!(rt; ran.status, 3);
        assert_eq!(rt;
            ran.out.as_slice(),
            b"c 1 @1 0 ok\nf 1 0180c2000003020000010101888e020000050100000501\nc 2 @1 1 ok\nf 2 0180c2000003020000010102888e0200000403000004\n".as_slice()
        );
        assert_eq!(rt; ran.err.as_slice(), b"line 12: number\n".as_slice());
    }
    Ok(())
}

// The settings, and then a line so many times.
fn repeated(alloc: Global, line: &str, count: u32) -> Result<Vec<u8>, AllocError> {
    let mut text = SETTINGS.as_bytes().to_vec(alloc)?;
    for _ in 0..count {
        text.extend_from_slice(line.as_bytes())?;
    }
    Ok(text)
}

// The settings, and then a comment, of so many octets.
fn commented(alloc: Global, octets: usize) -> Result<Vec<u8>, AllocError> {
    let mut text = SETTINGS.as_bytes().to_vec(alloc)?;
    text.resize(octets, b'#')?;
    Ok(text)
}

#[test]
fn a_history_has_its_limit(rt: HostRuntime) -> Result<(), Fail> {
    let text = repeated(rt.alloc(), "link 1 up\n", 1_048_577)?;
    let ran = run(&rt, rt.alloc(), &["replay"], &text, 4096)?;
    assert_eq!(rt; ran.status, 6);
    assert_eq!(rt; ran.out.as_slice(), b"".as_slice());
    assert_eq!(rt; ran.err.as_slice(), b"full: 1048576\n".as_slice());
    Ok(())
}

#[test]
fn a_comment_of_one_octet_too_many_is_too_long(rt: HostRuntime) -> Result<(), Fail> {
    let text = commented(rt.alloc(), 67_108_865)?;
    assert_eq!(rt; text.len(), 67_108_865);
    let ran = run(&rt, rt.alloc(), &["replay"], &text, 4096)?;
    assert_eq!(rt; ran.status, 8);
    assert_eq!(rt; ran.out.as_slice(), b"".as_slice());
    assert_eq!(rt; ran.err.as_slice(), b"too long: 67108864\n".as_slice());
    Ok(())
}

#[test]
fn the_words_are_those_after_the_name(rt: HostRuntime) -> Result<(), Fail> {
    let mut line = replay(rt.alloc())?;
    assert_eq!(rt; without_name(&line).len(), 0);
    line.push(String::from_str(rt.alloc(), "trace")?)?;
    assert_eq!(rt; without_name(&line).len(), 1);
    assert_eq!(rt; without_name(&line)[0].as_str(), "trace");
    assert_eq!(rt; without_name(&[]).len(), 0);
    Ok(())
}

#[test]
fn a_race_prints_serials_of_the_order_of_a_lane(rt: HostRuntime) -> Result<(), Fail> {
    let records = "link 1 up\n@1 link 2 up\n@1 link 3 up\n";
    let text = format!(in rt.alloc(); "{SETTINGS}{records}")?;
    let alone = run(&rt, rt.alloc(), &["replay"], text.as_bytes(), 4096)?;
    assert_eq!(rt; alone.status, 0);
    for workers in ["1", "8"] {
        for lanes in ["1", "3"] {
            let raced = run(
                &rt,
                rt.alloc(),
                &["race", workers, lanes],
                text.as_bytes(),
                1,
            )?;
            assert_eq!(rt; raced.status, 0, "at {workers} {lanes}");
            assert_eq!(rt; raced.out, alone.out, "at {workers} {lanes}");
        }
    }
    Ok(())
}

#[test]
fn words_that_are_no_form_are_said(rt: HostRuntime) -> Result<(), Fail> {
    let rows: [&[&str]; 14] = [
        &[],
        &["check", "x"],
        &["race", "1"],
        &["race", "0", "1"],
        &["race", "9", "1"],
        &["race", "1", "4"],
        &["race", "01", "1"],
        &["serve", "5001", "5010", "5003"],
        &["serve", "5001", "5010", "5003", "0"],
        &["serve", "5001", "5010", "5003", "100000001"],
        &["serve", "5001", "5010", "5001", "1"],
        &["serve", "5013", "5010", "5003", "1"],
        &["serve", "5001", "65533", "5003", "1"],
        &["serve", "0", "5010", "5003", "1"],
    ];
    for words in rows {
        let ran = run(&rt, rt.alloc(), words, b"begin\n", 1)?;
        assert_eq!(rt; ran.status, 2);
        assert_eq!(rt; ran.out.as_slice(), b"".as_slice());
        assert_eq!(rt; ran.err.as_slice(), b"usage\n".as_slice());
    }
    Ok(())
}

const SENDER: Addr = Addr {
    ip: [127, 0, 0, 1],
    port: 6000,
};

// A Start on port 1 waits on the channel of frames, and behind it what is too short to name a port.
fn waiting(alloc: Global) -> Result<MemLink, AllocError> {
    let start = b"\x01\x01\x80\xc2\x00\x00\x03\x02\x00\x00\x00\x00\xaa\x88\x8e\x01\x01\x00\x00";
    let mut link = MemLink::new(alloc, ROOM, &[])?;
    link.give(alloc, 0, SENDER, start)?;
    link.give(alloc, 0, SENDER, b"\xff")?;
    Ok(link)
}

// A server of two turns over this link.
fn serve<T: Threads + Wait + Net + Sync>(
    rt: &T,
    alloc: Global,
    link: &mut MemLink,
) -> Result<Ran, AllocError> {
    let words = words_of(alloc, &["serve", "5001", "5010", "5003", "2"])?;
    let mut clock = ListClock::new(alloc, &[1000])?;
    let mut source = MemSource::new(alloc, SETTINGS.as_bytes(), 4096, &[])?;
    let mut out = MemSink::new(alloc, ROOM, &[])?;
    let mut err = MemSink::new(alloc, ROOM, &[])?;
    let status = top(
        rt,
        alloc,
        &words,
        &mut source,
        &mut out,
        &mut err,
        link,
        &mut clock,
    );
    told(alloc, status, &out, &err)
}

#[test]
fn a_server_logs_a_frame_and_answers_its_sender(rt: HostRuntime) -> Result<(), Fail> {
    let mut link = waiting(rt.alloc())?;
    let ran = serve(&rt, rt.alloc(), &mut link)?;
    let end =
        "frame 1 0180c20000030200000000aa888e01010000\n# c 4 @1 3 ok\n# f 1 0200000000aa020000010101888e020000050101000501\n";
    assert_eq!(rt; ran.status, 0);
    assert_eq!(rt; ran.err.as_slice(), b"".as_slice());
    assert!(rt; ran.out.ends_with(end.as_bytes()));
    let (channel, to, octets) = link.sent(0).unwrap_or((9, SENDER, b""));
    assert_eq!(rt; (channel, to), (0, SENDER));
    assert_eq!(rt; octets.len(), 23);
    assert!(rt; link.sent(1).is_none());
    Ok(())
}
