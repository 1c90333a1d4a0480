// What is said of a status, and of the end of a run, on standard error.
ghost use Rattle.std.specs.Prelude.{◌≡◌, ◌≢◌, ◌+◌, ◌≤◌, ◌++◌, [], ◌∷◌, length, codes};
ghost use Rattle.history_defs.specs.Status.{refusal_text, status_text};
ghost use Rattle.trace_defs.specs.Reason.{reason_name as name_of};
ghost use Rattle.outside_text.specs.Streams.{Says};
ghost use Rattle.race_run.specs.Ending.{ending_text};

use crate::ending::{Ending, status};
use arrayvec::ArrayVec;
use outside_core::Sink;
use outside_text::say;
use wire_core::append;

/// Says how a run ended, as far as `err` takes it: the line that was refused and the reason, else
/// the words of the status.
pub fn say_ending<K: Sink>(err: &mut K, ending: Ending)
    ensures said { Says (K.taken err.old) (K.taken err.new) (K.faults err.old) (K.faults err.new)
        (ending_text ending) }
{
    match ending {
        Ending::Refused { line, why } => say(err, &refusal_words(line, why)),
        _ => say(err, status_words(status(ending))),
    }
}

/// What is said of a status other than 3: nothing of 0, else its name and a line feed.
pub fn status_words(status: u8) -> &'static [u8]
    ensures { result.now ≡ status_text status }
{
    match status {
        1 => b"out of memory\n",
        2 => b"usage\n",
        4 => b"read fault\n",
        5 => b"write fault\n",
        6 => b"full: 1048576\n",
        7 => b"link fault\n",
        8 => b"too long: 67108864\n",
        _ => b"",
    }
}

/// What is said of a line that was refused: its number, the name of the reason, and a line feed.
pub fn refusal_words(line: u64, why: u8) -> ArrayVec<u8, 64>
    ensures { result.items ≡ refusal_text line why }
{
    let mut digits = itoa::Buffer::new();
    let mut out = ArrayVec::new();
    append(b"line ", &mut out);
    append(digits.format(line).as_bytes(), &mut out);
    append(b": ", &mut out);
    append(reason_name(why), &mut out);
    append(b"\n", &mut out);
    out
}

fn reason_name(why: u8) -> &'static [u8]
    ensures name { result.now ≡ name_of why }
    ensures short { length result.now ≤ 16 }
{
    match why {
        1 => b"long",
        2 => b"octet",
        3 => b"lane",
        4 => b"word",
        5 => b"place",
        6 => b"count",
        7 => b"number",
        8 => b"hex",
        9 => b"name",
        10 => b"port",
        11 => b"lane",
        12 => b"twice",
        13 => b"missing",
        _ => b"",
    }
}
