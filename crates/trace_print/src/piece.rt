// The parts of a line, and how they are appended to a text.
ghost use Rattle.std.specs.Prelude.{◌≡◌, ◌+◌, ◌≤◌, ◌++◌, [], ◌∷◌, codes, OnOk, OnErr, length, take};
ghost use Rattle.std.specs.List.{flat_map, concat};
ghost use Rattle.std.specs.Fmt.{decimal};
ghost use Rattle.arrayvec.specs.ArrayVec.{array_vec_len};
ghost use Rattle.hex.specs.Hex.{encode_lower};
ghost use Rattle.trace_defs.specs.Text as defined;
ghost use Rattle.trace_print.specs.Pieces.{piece_text};

use arrayvec::ArrayVec;
use hex::encode_to_slice;
use std::alloc::AllocError;

/// A part of a line.
#[derive(Clone, Copy)]
pub enum Piece<'a> {
    /// Octets as they are.
    Text(&'a [u8]),
    /// A number in decimal digits.
    Number(u64),
    /// Octets as pairs of hexadecimal digits, in lower case.
    Hex(&'a [u8]),
    /// An address of IPv4: four numbers with a full stop between each two.
    Address([u8; 4]),
}

/// Octets as pairs of hexadecimal digits, or a dash for none.
pub fn hex_or_dash(octets: &[u8]) -> Piece<'_>
    ensures { piece_text result ≡ defined.octets_text octets.now }
{
    if octets.is_empty() {
        Piece::Text(b"-")
    } else {
        Piece::Hex(octets)
    }
}

/// Appends the parts, one after another. Where there is no memory, `out` is as before.
pub fn put(pieces: &[Piece<'_>], out: &mut Vec<u8>) -> Result<(), AllocError>
    ensures printed { OnOk result (out.new.items ≡ out.old.items
        ++ flat_map piece_text pieces.now) }
    ensures kept { OnErr result (out.new.items ≡ out.old.items) }
{
    let start = out.len();
    let put = put_each(pieces, out);
    undo(start, put, out)
}

/// Takes what was appended from a length on out again, where there was no memory.
pub fn undo(start: usize, put: Result<(), AllocError>, out: &mut Vec<u8>) -> Result<(), AllocError>
    ensures same { result ≡ put }
    ensures printed { OnOk result (out.new.items ≡ out.old.items) }
    ensures kept { OnErr result (out.new.items ≡ take start out.old.items) }
{
    if put.is_err() {
        out.truncate(start);
    }
    put
}

fn put_each(pieces: &[Piece<'_>], out: &mut Vec<u8>) -> Result<(), AllocError>
    ensures printed { OnOk result (out.new.items ≡ out.old.items
        ++ flat_map piece_text pieces.now) }
    ensures begins { OnErr result (take (length out.old.items) out.new.items ≡ out.old.items) }
{
    for piece in pieces {
        put_piece(*piece, out)?;
    }
    Ok(())
}

fn put_piece(piece: Piece<'_>, out: &mut Vec<u8>) -> Result<(), AllocError>
    ensures printed { OnOk result (out.new.items ≡ out.old.items ++ piece_text piece.entry) }
    ensures kept { OnErr result (out.new.items ≡ out.old.items) }
{
    match piece {
        Piece::Text(text) => out.extend_from_slice(text),
        Piece::Number(n) => put_number(n, out),
        Piece::Hex(octets) => put_hex(octets, out),
        Piece::Address(ip) => out.extend_from_slice(&dotted(&ip)),
    }
}

fn put_number(n: u64, out: &mut Vec<u8>) -> Result<(), AllocError>
    ensures printed { OnOk result (out.new.items ≡ out.old.items ++ decimal n) }
    ensures kept { OnErr result (out.new.items ≡ out.old.items) }
{
    let mut digits = itoa::Buffer::new();
    out.extend_from_slice(digits.format(n).as_bytes())
}

// The digits are written where they are to stand.
fn put_hex(octets: &[u8], out: &mut Vec<u8>) -> Result<(), AllocError>
    ensures printed { OnOk result (out.new.items ≡ out.old.items ++ encode_lower octets.now) }
    ensures kept { OnErr result (out.new.items ≡ out.old.items) }
{
    out.reserve(2 * octets.len())?;
    let start = out.len();
    out.resize(start + 2 * octets.len(), b'0')?;
    match encode_to_slice(octets, &mut out.as_mut_slice()[start..]) {
        Ok(()) => Ok(()),
        Err(_) => unreachable!(),
    }
}

fn dotted(ip: &[u8; 4]) -> ArrayVec<u8, 15>
    ensures { result.items ≡ defined.dotted ip.now }
{
    four_numbers(ip[0], ip[1], ip[2], ip[3])
}

fn four_numbers(a: u8, b: u8, c: u8, d: u8) -> ArrayVec<u8, 15>
    ensures { result.items ≡ concat (
        decimal a ∷ codes "." ∷ decimal b ∷ codes "." ∷ decimal c ∷ codes "." ∷ decimal d ∷ []) }
{
    let mut text = ArrayVec::new();
    push_number(a, &mut text);
    text.push(b'.');
    push_number(b, &mut text);
    text.push(b'.');
    push_number(c, &mut text);
    text.push(b'.');
    push_number(d, &mut text);
    text
}

fn push_number(n: u8, text: &mut ArrayVec<u8, 15>)
    requires { array_vec_len text.old + 3 ≤ 15 }
    ensures text { text.new.items ≡ text.old.items ++ decimal n }
    ensures long { array_vec_len text.new ≤ array_vec_len text.old + 3 }
{
    let mut digits = itoa::Buffer::new();
    for digit in digits.format(n).as_bytes() {
        text.push(*digit);
    }
}
