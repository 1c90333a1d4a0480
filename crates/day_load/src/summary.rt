//! What a day came to.
ghost use Rattle.std.specs.Prelude.{◌≡◌, ◌+◌, ◌≤◌, ◌++◌, length};
ghost use Rattle.std.specs.Fmt.{decimal};
ghost use Rattle.day_load.specs.Summary.{summary_text};

use arrayvec::ArrayVec;
use wire_core::append;

/// What a day came to.
#[derive(Clone, Copy, Debug, PartialEq, Eq)]
pub struct Summary {
    /// How many control records were made.
    pub controls: u64,
    /// How many data records were made.
    pub frames: u64,
    /// How many of their frames were forwarded.
    pub forwarded: u64,
    /// How many sessions there are at its end.
    pub sessions: usize,
}

/// The line that tells what a day of so many hosts came to, with its line feed.
pub fn summary_line(hosts: u8, summary: &Summary) -> ArrayVec<u8, 160>
    ensures { result.items ≡ summary_text hosts summary.now }
{
    let mut line = ArrayVec::new();
    put(&mut line, b"load ", u64::from(hosts));
    put(&mut line, b" controls ", summary.controls);
    put(&mut line, b" data ", summary.frames);
    put(&mut line, b" forwarded ", summary.forwarded);
    put(&mut line, b" sessions ", summary.sessions as u64);
    append(b"\n", &mut line);
    line
}

// Appends a name and a number.
fn put(line: &mut ArrayVec<u8, 160>, name: &[u8], number: u64)
    requires { length line.old.items + length name.now + 20 ≤ 160 }
    ensures text { line.new.items ≡ line.old.items ++ (name.now ++ decimal number) }
    ensures short { length line.new.items ≤ length line.old.items + length name.now + 20 }
{
    let mut digits = itoa::Buffer::new();
    append(name, line);
    append(digits.format(number).as_bytes(), line);
}
