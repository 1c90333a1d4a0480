// Long lines, and texts that come in pieces, by what read_line answers.
use crate::{Config, Line, LineErr, Lines, lines_of, read_line};
use std::alloc::{AllocError, Global};
use std::test::Fail;

#[derive(Clone, Copy, Debug, PartialEq, Eq)]
enum Answer {
    Blank,
    Sync,
    Other,
    Refused(u8),
    NoMemory,
}

// What a line is, after `begin`.
fn answer_to(alloc: Global, line: &[u8]) -> Answer {
    let mut config = Config::empty();
    let mut given = 0;
    match read_line(alloc, &mut config, &mut given, true, line) {
        Ok(Line::Blank) => Answer::Blank,
        Ok(Line::Sync) => Answer::Sync,
        Ok(_) => Answer::Other,
        Err(LineErr::Bad { why }) => Answer::Refused(why),
        Err(LineErr::NoMemory) => Answer::NoMemory,
    }
}

const LONG: Answer = Answer::Refused(1);

const UNKNOWN: Answer = Answer::Refused(4);

// Lines of a beginning, so many times an octet and an end.
const ROWS: [(&str, u8, usize, &str, Answer); 14] = [
    ("sync", b' ', 0, "", Answer::Sync),
    ("", b' ', 0, "\r", Answer::Blank),
    ("#", b'y', 20_000, "", Answer::Blank),
    ("", b'x', 10_240, "", UNKNOWN),
    ("", b'x', 10_240, "\r", UNKNOWN),
    ("", b'x', 10_241, "", LONG),
    ("", b'x', 10_241, "\r", LONG),
    ("", b'x', 10_240, "\r\r", LONG),
    ("sync", b' ', 10_236, "\r", Answer::Sync),
    ("sync", b' ', 10_237, "", LONG),
    ("", b' ', 20_000, "", Answer::Blank),
    ("", b' ', 20_000, "\r", Answer::Blank),
    ("", b' ', 20_000, "x", LONG),
    ("", b' ', 20_000, "\r\r", LONG),
];

fn append(
    text: &mut Vec<u8>,
    first: &str,
    fill: u8,
    count: usize,
    last: &str,
) -> Result<(), AllocError> {
    text.extend_from_slice(first.as_bytes())?;
    for _n in 0..count {
        text.push(fill)?;
    }
    text.extend_from_slice(last.as_bytes())
}

#[test]
fn a_long_line_is_read_as_what_is_kept_of_it(rt: HostRuntime) -> Result<(), Fail> {
    for (first, fill, count, last, wanted) in ROWS {
        let mut text = Vec::new(rt.alloc());
        append(&mut text, first, fill, count, last)?;
        let mut lines = Lines::open(rt.alloc())?;
        assert!(rt; lines.feed(&text).is_none());
        assert!(rt; lines.feed(b"\nsync") == Some(1));
        assert_eq!(rt;
            answer_to(rt.alloc(), &text),
            wanted,
            "at {first}{count}{last}"
        );
        assert_eq!(rt;
            answer_to(rt.alloc(), lines.line()),
            wanted,
            "at {first}{count}{last}"
        );
        lines.next();
        assert!(rt; lines.feed(b"sync").is_none());
        assert_eq!(rt; lines.line(), b"sync".as_slice());
    }
    Ok(())
}

#[test]
fn pieces_of_any_size_give_the_same_lines(rt: HostRuntime) -> Result<(), Fail> {
    let mut text = Vec::new(rt.alloc());
    for (first, fill, count, last, _) in ROWS {
        append(&mut text, first, fill, count, last)?;
        text.push(b'\n')?;
    }
    text.extend_from_slice(b"sync")?;
    for size in [1, 2, 7, 4096, 1_000_000] {
        let mut pieces: Vec<&[u8]> = Vec::new(rt.alloc());
        for piece in text.chunks(size) {
            pieces.push(piece)?;
        }
        let lines = lines_of(rt.alloc(), &pieces)?;
        assert_eq!(rt; lines.len(), ROWS.len() + 1);
        for (line, (first, _, count, last, wanted)) in lines.iter().zip(ROWS) {
            assert_eq!(rt;
                answer_to(rt.alloc(), line.as_slice()),
                wanted,
                "at {first}{count}{last}"
            );
        }
        assert_eq!(rt; lines[ROWS.len()].as_slice(), b"sync".as_slice());
    }
    Ok(())
}
