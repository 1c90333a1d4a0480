//! The address of a station as text (RFC 3580, 3.20 and 3.21).

ghost use Rattle.std.specs.Prelude.{◌≡◌, ℕ, ◌+◌, ◌*◌, ◌<◌, ◌≤◌, ◌++◌, Bool, IsTrue, not, length, slice_index, option_map, MatchOption};
ghost use Rattle.std.specs.List.{list_all};
ghost use Rattle.std.specs.Char.{is_ascii_hexdigit, digit_value};
ghost use Rattle.arrayvec.specs.ArrayVec.{array_vec_len};
ghost use Rattle.wire_defs.specs.Station.{octet_text, upper_digit as upper_digit_lem, station_text, station_of as station_of_lem, is_separator as is_separator_lem, without_separators};
ghost use Rattle.wire_core.specs.Station.{AreStationDigits, AreNoStationDigits};

use crate::Mac;
use arrayvec::ArrayVec;

/// Replaces `out` by an address as text: two hexadecimal digits an octet, in upper case, and a hyphen
/// between each two octets, as in `00-10-A4-23-19-C0`.
pub fn station(m: Mac, out: &mut ArrayVec<u8, 17>)
    ensures { out.new.items ≡ station_text m.0 }
{
    out.clear();
    push_octet(m.0[0], out);
    for octet in &m.0[1..] {
        out.push(b'-');
        push_octet(*octet, out);
    }
}

fn push_octet(octet: u8, out: &mut ArrayVec<u8, 17>)
    requires { array_vec_len out.old + 2 ≤ 17 }
    ensures { out.new.items ≡ out.old.items ++ octet_text octet }
{
    out.push(upper_digit(octet / 16));
    out.push(upper_digit(octet % 16));
}

/// The hexadecimal digit of a number below 16, A to F in upper case.
pub fn upper_digit(number: u8) -> u8
    requires { number < 16 }
    ensures { result ≡ upper_digit_lem number }
{
    if number < 10 {
        b'0' + number
    } else {
        b'A' + (number - 10)
    }
}

/// The address that a text writes: every `-`, `:` and `.` is skipped. None where what remains is not
/// twelve hexadecimal digits of either case.
pub fn station_of(t: &[u8]) -> Option<Mac>
    ensures { option_map (λ m. m.0) result ≡ station_of_lem t.now }
{
    let digits = station_digits(t)?;
    Some(Mac([
        octet_of(&digits, 0),
        octet_of(&digits, 1),
        octet_of(&digits, 2),
        octet_of(&digits, 3),
        octet_of(&digits, 4),
        octet_of(&digits, 5),
    ]))
}

// What a text has beside its separators, where that is twelve hexadecimal digits.
fn station_digits(text: &[u8]) -> Option<[u8; 12]>
    ensures { MatchOption result (AreNoStationDigits (without_separators text.now)) (λ digits. (digits ≡ without_separators text.now) × AreStationDigits digits) }
{
    let mut digits = ArrayVec::<u8, 12>::new();
    let mut rest = text;
    while let [octet, after @ ..] = rest {
        if !is_separator(*octet) {
            if !octet.is_ascii_hexdigit() || digits.is_full() {
                return None;
            }
            digits.push(*octet);
        }
        rest = after;
    }
    digits.into_inner().ok()
}

fn is_separator(octet: u8) -> bool
    ensures { result ≡ is_separator_lem octet }
{
    octet == b'-' || octet == b':' || octet == b'.'
}

// The octet that two of the digits write.
fn octet_of(digits: &[u8; 12], index: usize) -> u8
    requires within { index < 6 }
    requires hexadecimal { IsTrue (list_all is_ascii_hexdigit digits.now) }
    ensures { result ≡ 16 * digit_value (slice_index digits.now (2 * index)) + digit_value (slice_index digits.now (2 * index + 1)) }
{
    16 * hexadecimal(digits[2 * index]) + hexadecimal(digits[2 * index + 1])
}

// The value of a hexadecimal digit of either case.
fn hexadecimal(digit: u8) -> u8
    requires { IsTrue (is_ascii_hexdigit digit) }
    ensures value { result ≡ digit_value digit }
    ensures small { result < 16 }
{
    match digit {
        b'0'..=b'9' => digit - b'0',
        b'A'..=b'F' => digit - b'A' + 10,
        _ => digit - b'a' + 10,
    }
}
