// What the objects of the outside give and take, call by call.
use crate::{Failed, MemSink, MemSource, Sink, Source, StdSink, StdSource, SureSink, SureSource};
use std::alloc::{AllocError, Global};
use std::io::{self, ErrorKind, Read, Write};
use std::test::Fail;

#[test]
fn a_source_in_memory_gives_at_most_a_step_and_fails_where_listed(
    rt: HostRuntime,
) -> Result<(), Fail> {
    let mut source = MemSource::new(rt.alloc(), b"abc", 2, &[1])?;
    let mut buf = [0; 4];
    assert_eq!(rt; source.read(&mut buf), Ok(2));
    assert_eq!(rt; &buf[..2], b"ab".as_slice());
    assert_eq!(rt; source.read(&mut buf), Err(Failed));
    assert_eq!(rt; source.read(&mut buf), Ok(1));
    assert_eq!(rt; buf[0], b'c');
    assert_eq!(rt; source.read(&mut buf), Ok(0));
    Ok(())
}

// What a source gives line by line into this buffer, a bar behind each piece.
fn pieces_of<S: Source>(
    alloc: Global,
    source: &mut S,
    buf: &mut [u8],
) -> Result<Vec<u8>, AllocError> {
    let mut seen = Vec::new(alloc);
    for _ in 0..8 {
        let count = source.read_line(buf).unwrap_or(0);
        if count > 0 {
            for octet in buf.iter().take(count) {
                seen.push(*octet)?;
            }
            seen.push(b'|')?;
        }
    }
    Ok(seen)
}

#[test]
fn a_line_is_given_up_to_its_line_feed_and_no_further(rt: HostRuntime) -> Result<(), Fail> {
    let text = b"ab\n\ncde".as_slice();
    let mut memory = MemSource::new(rt.alloc(), text, 2, &[])?;
    let seen = pieces_of(rt.alloc(), &mut memory, &mut [0; 8])?;
    assert_eq!(rt; seen.as_slice(), b"ab|\n|\n|cd|e|".as_slice());
    let mut host = StdSource::new(text);
    let seen = pieces_of(rt.alloc(), &mut host, &mut [0; 8])?;
    assert_eq!(rt; seen.as_slice(), b"ab\n|\n|cde|".as_slice());
    let mut host = StdSource::new(text);
    let seen = pieces_of(rt.alloc(), &mut host, &mut [0; 2])?;
    assert_eq!(rt; seen.as_slice(), b"ab|\n|\n|cd|e|".as_slice());
    Ok(())
}

#[test]
fn what_does_not_fail_fails_only_where_its_room_ends(rt: HostRuntime) -> Result<(), Fail> {
    let mut source = SureSource::new(rt.alloc(), b"a\nb", 2)?;
    let seen = pieces_of(rt.alloc(), &mut source, &mut [0; 8])?;
    assert_eq!(rt; seen.as_slice(), b"a\n|b|".as_slice());
    let mut sink = SureSink::new(rt.alloc(), 3)?;
    assert_eq!(rt; sink.write(b"ab"), Ok(2));
    assert_eq!(rt; sink.write(b"cd"), Err(Failed));
    assert_eq!(rt; sink.write(b"c"), Ok(1));
    assert_eq!(rt; sink.taken(), b"abc".as_slice());
    Ok(())
}

#[test]
fn a_sink_in_memory_takes_whole_pieces_within_its_room(rt: HostRuntime) -> Result<(), Fail> {
    let mut sink = MemSink::new(rt.alloc(), 5, &[1])?;
    assert_eq!(rt; sink.write(b"abc"), Ok(3));
    assert_eq!(rt; sink.write(b"d"), Err(Failed));
    assert_eq!(rt; sink.write(b"def"), Err(Failed));
    assert_eq!(rt; sink.write(b"de"), Ok(2));
    assert_eq!(rt; sink.taken(), b"abcde".as_slice());
    Ok(())
}

#[test]
fn a_reader_and_a_writer_in_memory_serve_as_source_and_sink(rt: HostRuntime) -> Result<(), Fail> {
    let mut source = StdSource::new(b"abc".as_slice());
    let mut buf = [0; 2];
    assert_eq!(rt; source.read(&mut buf), Ok(2));
    assert_eq!(rt; buf, *b"ab");
    assert_eq!(rt; source.read(&mut buf), Ok(1));
    assert_eq!(rt; buf[0], b'c');
    assert_eq!(rt; source.read(&mut buf), Ok(0));
    let mut written = Vec::new(rt.alloc());
    let mut sink = StdSink::new(&mut written);
    assert_eq!(rt; sink.write(b"abc"), Ok(3));
    assert_eq!(rt; sink.write(b""), Ok(0));
    assert_eq!(rt; sink.write(b"d"), Ok(1));
    assert_eq!(rt; written.as_slice(), b"abcd".as_slice());
    Ok(())
}

// What one call of a stream does.
#[derive(Clone, Copy)]
enum Step {
    // It moves at most so many octets.
    Moves(usize),
    // It fails for this reason.
    Fails(ErrorKind),
}

// A stream whose calls do these steps in order, and then move nothing more. It gives the octet 1, and then each octet 1
// greater than the one before.
#[derive(Drop)]
struct Stream {
    steps: Vec<Step>,
    given: u8,
    written: Vec<u8>,
}

impl Stream {
    fn new(alloc: Global, steps: &[Step]) -> Result<Stream, AllocError> {
        let mut later = steps.to_vec(alloc)?;
        later.reverse();
        Ok(Stream {
            steps: later,
            given: 0,
            written: Vec::new(alloc),
        })
    }

    fn step(&mut self) -> Step {
        self.steps.pop().unwrap_or(Step::Moves(0))
    }
}

impl Read for Stream {
    fn read(&mut self, buf: &mut [u8]) -> io::Result<usize> {
        match self.step() {
            Step::Fails(kind) => Err(kind.into()),
            Step::Moves(most) => {
                let count = most.min(buf.len());
                for octet in &mut buf[..count] {
                    self.given = self.given.saturating_add(1);
                    *octet = self.given;
                }
                Ok(count)
            }
        }
    }
}

impl Write for Stream {
    fn write(&mut self, piece: &[u8]) -> io::Result<usize> {
        match self.step() {
            Step::Fails(kind) => Err(kind.into()),
            Step::Moves(most) => {
                let count = most.min(piece.len());
                self.written.extend_from_slice(&piece[..count])?;
                Ok(count)
            }
        }
    }

    fn flush(&mut self) -> io::Result<()> {
        Ok(())
    }
}

#[test]
fn a_reader_that_fails_in_mid_stream_is_a_fault_and_loses_nothing(
    rt: HostRuntime,
) -> Result<(), Fail> {
    let steps = [
        Step::Moves(3),
        Step::Fails(ErrorKind::Interrupted),
        Step::Fails(ErrorKind::Other),
        Step::Fails(ErrorKind::Interrupted),
        Step::Moves(2),
        Step::Moves(0),
    ];
    let mut source = StdSource::new(Stream::new(rt.alloc(), &steps)?);
    let mut buf = [0; 2];
    assert_eq!(rt; source.read(&mut buf), Ok(2));
    assert_eq!(rt; buf, [1, 2]);
    assert_eq!(rt; source.read(&mut buf), Ok(1));
    assert_eq!(rt; buf[0], 3);
    assert_eq!(rt; source.read(&mut buf), Err(Failed));
    assert_eq!(rt; source.read(&mut buf), Ok(2));
    assert_eq!(rt; buf, [4, 5]);
    assert_eq!(rt; source.read(&mut buf), Ok(0));
    Ok(())
}

#[test]
fn a_writer_that_fails_or_takes_less_says_so(rt: HostRuntime) -> Result<(), Fail> {
    let steps = [
        Step::Moves(2),
        Step::Fails(ErrorKind::Interrupted),
        Step::Moves(4),
        Step::Fails(ErrorKind::BrokenPipe),
        Step::Moves(0),
        Step::Moves(1),
    ];
    let mut stream = Stream::new(rt.alloc(), &steps)?;
    let mut sink = StdSink::new(&mut stream);
    assert_eq!(rt; sink.write(b"abcd"), Ok(2));
    assert_eq!(rt; sink.write(b"cd"), Ok(2));
    assert_eq!(rt; sink.write(b"e"), Err(Failed));
    assert_eq!(rt; sink.write(b"e"), Err(Failed));
    assert_eq!(rt; sink.write(b"ef"), Ok(1));
    assert_eq!(rt; sink.write(b"f"), Err(Failed));
    assert_eq!(rt; stream.written.as_slice(), b"abcde".as_slice());
    Ok(())
}
