// The blocks that are printed for records.
ghost use Rattle.std.specs.Prelude.{◌≡◌, ◌≤◌, ◌++◌, OnOk, OnErr, length, take};
ghost use Rattle.trace_defs.specs.Output as output;
ghost use Rattle.switch_event.specs.Sent.{sent_of};

use crate::names::{drop_name, outcome_pieces};
use crate::piece::{Piece, put, undo};
use out_tray::{Sent, Tray};
use std::alloc::AllocError;
use switch_event::{Decided, Decision, Outcome};

/// Appends the block of control record `r`, from 1: its lane, 1 to 3, its serial, from 0, what
/// became of it, and a line for each thing that was sent, in order. Where there is no memory, `out` is
/// as before.
pub fn print_control(
    r: u64,
    lane: u8,
    serial: u64,
    o: &Outcome,
    tray: &Tray,
    out: &mut Vec<u8>,
) -> Result<(), AllocError>
    requires lane { (1 ≤ lane) × (lane ≤ 3) }
    ensures printed { OnOk result (out.new.items ≡ out.old.items
        ++ output.control_block r lane serial o.now tray.now.items) }
    ensures kept { OnErr result (out.new.items ≡ out.old.items) }
{
    let start = out.len();
    let put = put_control(r, lane, serial, o, tray, out);
    undo(start, put, out)
}

fn put_control(
    r: u64,
    lane: u8,
    serial: u64,
    o: &Outcome,
    tray: &Tray,
    out: &mut Vec<u8>,
) -> Result<(), AllocError>
    ensures printed { OnOk result (out.new.items ≡ out.old.items
        ++ output.control_block r lane serial o.now tray.now.items) }
    ensures begins { OnErr result (take (length out.old.items) out.new.items ≡ out.old.items) }
{
    put_line(r, lane, serial, o, out)?;
    put_sent(tray, out)
}

// `c RECORD @LANE SERIAL OUTCOME`
fn put_line(r: u64, lane: u8, serial: u64, o: &Outcome, out: &mut Vec<u8>) -> Result<(), AllocError>
    ensures printed { OnOk result (out.new.items ≡ out.old.items
        ++ output.control_line r lane serial o.now) }
    ensures kept { OnErr result (out.new.items ≡ out.old.items) }
{
    let (word, rest) = outcome_pieces(o);
    put(
        &[
            Piece::Text(b"c "),
            Piece::Number(r),
            Piece::Text(b" @"),
            Piece::Number(u64::from(lane)),
            Piece::Text(b" "),
            Piece::Number(serial),
            Piece::Text(b" "),
            Piece::Text(word),
            rest,
            Piece::Text(b"\n"),
        ],
        out,
    )
}

fn put_sent(tray: &Tray, out: &mut Vec<u8>) -> Result<(), AllocError>
    ensures printed { OnOk result (out.new.items ≡ out.old.items
        ++ output.sent_lines tray.now.items) }
    ensures begins { OnErr result (take (length out.old.items) out.new.items ≡ out.old.items) }
{
    for n in 0..tray.len() {
        if let Some(sent) = tray.item(n) {
            put_one(sent, out)?;
        }
    }
    Ok(())
}

// `f PORT OCTETS`, `r OCTETS`, `r SOCKET OCTETS` or `y IP PORT OCTETS`
fn put_one(sent: Sent<'_>, out: &mut Vec<u8>) -> Result<(), AllocError>
    ensures printed { OnOk result (out.new.items ≡ out.old.items
        ++ output.sent_line (sent_of sent.entry)) }
    ensures kept { OnErr result (out.new.items ≡ out.old.items) }
{
    match sent {
        Sent::Frame { port, octets } => put(
            &[
                Piece::Text(b"f "),
                Piece::Number(u64::from(port)),
                Piece::Text(b" "),
                Piece::Hex(octets),
                Piece::Text(b"\n"),
            ],
            out,
        ),
        Sent::Radius { socket: 0, octets } => put(
            &[Piece::Text(b"r "), Piece::Hex(octets), Piece::Text(b"\n")],
            out,
        ),
        Sent::Radius { socket, octets } => put(
            &[
                Piece::Text(b"r "),
                Piece::Number(u64::from(socket)),
                Piece::Text(b" "),
                Piece::Hex(octets),
                Piece::Text(b"\n"),
            ],
            out,
        ),
        Sent::Reply { to, octets } => put(
            &[
                Piece::Text(b"y "),
                Piece::Address(to.ip),
                Piece::Text(b" "),
                Piece::Number(u64::from(to.port)),
                Piece::Text(b" "),
                Piece::Hex(octets),
                Piece::Text(b"\n"),
            ],
            out,
        ),
    }
}

/// Appends the block of data record `r`, from 1: how many control events were before it, what was
/// decided, and the tagged frame where it is forwarded. Where there is no memory, `out` is as
/// before.
pub fn print_data(r: u64, d: &Decided, tagged: &[u8], out: &mut Vec<u8>) -> Result<(), AllocError>
    ensures printed { OnOk result (out.new.items ≡ out.old.items
        ++ output.data_line r d.now.front d.now.decision tagged.now) }
    ensures kept { OnErr result (out.new.items ≡ out.old.items) }
{
    match d.decision {
        Decision::Forward { session, vlan } => put(
            &[
                Piece::Text(b"d "),
                Piece::Number(r),
                Piece::Text(b" "),
                Piece::Number(d.front),
                Piece::Text(b" forward "),
                Piece::Number(u64::from(session)),
                Piece::Text(b" "),
                Piece::Number(u64::from(vlan)),
                Piece::Text(b" "),
                Piece::Hex(tagged),
                Piece::Text(b"\n"),
            ],
            out,
        ),
        Decision::Drop(why) => put(
            &[
                Piece::Text(b"d "),
                Piece::Number(r),
                Piece::Text(b" "),
                Piece::Number(d.front),
                Piece::Text(b" drop "),
                Piece::Text(drop_name(why)),
                Piece::Text(b"\n"),
            ],
            out,
        ),
    }
}
