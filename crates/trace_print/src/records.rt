// The text of records.
ghost use Rattle.std.specs.Prelude.{◌≡◌, ◌≤◌, ◌++◌, ℕ, List, true, Ok, Some, OnOk, OnErr};
ghost use Rattle.switch_event.specs.Config.{Config};
ghost use Rattle.trace_defs.specs.Line.{Record as Entered, line_of};
ghost use Rattle.trace_defs.specs.Line.Line.{Entry};
ghost use Rattle.event_record.specs.Record.{event_of};
ghost use Rattle.trace_defs.specs.Text as defined;
ghost use Rattle.trace_print.specs.Printing.{line_text, record_of, HasLane, Appended, ReadsAsRecord};

use crate::names::{control_text, link_text};
use crate::piece::{Piece, hex_or_dash, put};
use std::alloc::AllocError;
use trace_defs::{Line, Record};
use wire_core::Addr;

/// Appends the line of a record with its line feed: a control event, with its lane, 1 to 3, where
/// that is not 1, or a data frame. `Begin` and `Sync` give their words, a blank line is empty, and
/// a setting gives nothing, since `print_config` prints it. A record that was read from a line
/// reads back from what is appended. Where there is no memory, `out` is as before.
pub fn print_line(l: &Line, out: &mut Vec<u8>) -> Result<(), AllocError>
    requires lane { HasLane l.now }
    ensures printed { OnOk result (out.new.items ≡ out.old.items ++ line_text l.now) }
    ensures back { (config : Config) (given : ℕ) (line : List ℕ) (r : Entered)
        → record_of l.now ≡ Some r → line_of config given true line ≡ Ok (Entry r)
        → OnOk result (Appended out.old.items out.new.items (ReadsAsRecord config r)) }
    ensures kept { OnErr result (out.new.items ≡ out.old.items) }
{
    append_line(l, out)
}

fn append_line(l: &Line, out: &mut Vec<u8>) -> Result<(), AllocError>
    requires lane { HasLane l.now }
    ensures printed { OnOk result (out.new.items ≡ out.old.items ++ line_text l.now) }
    ensures kept { OnErr result (out.new.items ≡ out.old.items) }
{
    match l {
        Line::Blank => put(&[Piece::Text(b"\n")], out),
        Line::Begin => put(&[Piece::Text(b"begin\n")], out),
        Line::Sync => put(&[Piece::Text(b"sync\n")], out),
        Line::Setting => Ok(()),
        Line::Control { lane, what } => put_event(lane_mark(*lane), what, out),
        Line::Data { port, octets } => put_frame(b"", *port, octets.as_slice(), out),
    }
}

// Lane 1 is not written.
fn lane_mark(lane: u8) -> &'static [u8]
    requires { (1 ≤ lane) × (lane ≤ 3) }
    ensures { result.now ≡ defined.lane_mark lane }
{
    match lane {
        1 => b"",
        2 => b"@2 ",
        _ => b"@3 ",
    }
}

fn put_event(mark: &[u8], what: &Record, out: &mut Vec<u8>) -> Result<(), AllocError>
    ensures printed { OnOk result (out.new.items ≡ out.old.items
        ++ (mark.now ++ defined.text_line (defined.event_words (event_of what.now)))) }
    ensures kept { OnErr result (out.new.items ≡ out.old.items) }
{
    match what {
        Record::Frame { port, octets } => put_frame(mark, *port, octets.as_slice(), out),
        Record::Radius { socket, octets } => put_radius(mark, *socket, octets.as_slice(), out),
        Record::Dynamic { from, octets } => put_dynamic(mark, *from, octets.as_slice(), out),
        Record::Second => put(&[Piece::Text(mark), Piece::Text(b"tick\n")], out),
        Record::Link { port, up } => put_choice(mark, b"link ", *port, link_text(*up), out),
        Record::SetControl { port, control } => {
            put_choice(mark, b"control ", *port, control_text(*control), out)
        }
    }
}

// `frame PORT OCTETS`
fn put_frame<'a>(
    mark: &'a [u8],
    port: u8,
    octets: &'a [u8],
    out: &mut Vec<u8>,
) -> Result<(), AllocError>
    ensures printed { OnOk result (out.new.items ≡ out.old.items
        ++ (mark.now ++ defined.text_line (defined.frame_words port octets.now))) }
    ensures kept { OnErr result (out.new.items ≡ out.old.items) }
{
    put(
        &[
            Piece::Text(mark),
            Piece::Text(b"frame "),
            Piece::Number(u64::from(port)),
            Piece::Text(b" "),
            hex_or_dash(octets),
            Piece::Text(b"\n"),
        ],
        out,
    )
}

// `radius OCTETS` for socket 0, and `radius SOCKET OCTETS`
fn put_radius<'a>(
    mark: &'a [u8],
    socket: u8,
    octets: &'a [u8],
    out: &mut Vec<u8>,
) -> Result<(), AllocError>
    ensures printed { OnOk result (out.new.items ≡ out.old.items
        ++ (mark.now ++ defined.text_line (defined.radius_words socket octets.now))) }
    ensures kept { OnErr result (out.new.items ≡ out.old.items) }
{
    if socket == 0 {
        return put(
            &[
                Piece::Text(mark),
                Piece::Text(b"radius "),
                hex_or_dash(octets),
                Piece::Text(b"\n"),
            ],
            out,
        );
    }
    put(
        &[
            Piece::Text(mark),
            Piece::Text(b"radius "),
            Piece::Number(u64::from(socket)),
            Piece::Text(b" "),
            hex_or_dash(octets),
            Piece::Text(b"\n"),
        ],
        out,
    )
}

// `dyn IP PORT OCTETS`
fn put_dynamic<'a>(
    mark: &'a [u8],
    from: Addr,
    octets: &'a [u8],
    out: &mut Vec<u8>,
) -> Result<(), AllocError>
    ensures printed { OnOk result (out.new.items ≡ out.old.items
        ++ (mark.now ++ defined.text_line (defined.dyn_words from octets.now))) }
    ensures kept { OnErr result (out.new.items ≡ out.old.items) }
{
    put(
        &[
            Piece::Text(mark),
            Piece::Text(b"dyn "),
            Piece::Address(from.ip),
            Piece::Text(b" "),
            Piece::Number(u64::from(from.port)),
            Piece::Text(b" "),
            hex_or_dash(octets),
            Piece::Text(b"\n"),
        ],
        out,
    )
}

// A word with a space behind it, a port, and what is chosen for the port.
fn put_choice<'a>(
    mark: &'a [u8],
    word: &'a [u8],
    port: u8,
    choice: &'a [u8],
    out: &mut Vec<u8>,
) -> Result<(), AllocError>
    ensures printed { OnOk result (out.new.items ≡ out.old.items
        ++ (mark.now ++ (word.now ++ defined.text_line (defined.choice_words port choice.now)))) }
    ensures kept { OnErr result (out.new.items ≡ out.old.items) }
{
    put(
        &[
            Piece::Text(mark),
            Piece::Text(word),
            Piece::Number(u64::from(port)),
            Piece::Text(b" "),
            Piece::Text(choice),
            Piece::Text(b"\n"),
        ],
        out,
    )
}
