//! Numbers in octets and in decimal digits.

ghost use Rattle.std.specs.Prelude.{◌≡◌, ◌≤◌, IsTrue};
ghost use Rattle.std.specs.List.{list_all};
ghost use Rattle.std.specs.Char.{is_ascii_digit};
ghost use Rattle.std.specs.Str.Parse.{digits_value};
ghost use Rattle.std.specs.Option.{SomeIff};
ghost use Rattle.wire_defs.specs.Number.{two_octets as two_octets_lem, four_octets as four_octets_lem, pair_at, quad_at, number_in, is_number as is_number_lem};

/// The number in two octets of `b` from place `at`, the most significant first.
/// None where fewer than two stand there.
pub fn be16(b: &[u8], at: usize) -> Option<u16>
    ensures { result ≡ pair_at b.now at }
{
    match b.get(at..)? {
        [high, low, ..] => Some(u16::from_be_bytes([*high, *low])),
        _ => None,
    }
}

/// The number in four octets of `b` from place `at`, the most significant first.
/// None where fewer than four stand there.
pub fn be32(b: &[u8], at: usize) -> Option<u32>
    ensures { result ≡ quad_at b.now at }
{
    match b.get(at..)? {
        [first, second, third, last, ..] => Some(
            (u32::from(*first) * 256 + u32::from(*second)) * 65536
                + (u32::from(*third) * 256 + u32::from(*last)),
        ),
        _ => None,
    }
}

/// A number as two octets, the most significant first.
pub fn two_octets(n: u16) -> [u8; 2]
    ensures { result ≡ two_octets_lem n }
{
    n.to_be_bytes()
}

/// A number as four octets, the most significant first.
pub fn four_octets(n: u32) -> [u8; 4]
    ensures { result ≡ four_octets_lem n }
{
    n.to_be_bytes()
}

/// The number that decimal digits write, from `least` to `most`. None where the text is no run of
/// one or more digits without a leading zero (`0` alone is one), or its value is out of that range.
pub fn decimal(t: &[u8], least: u64, most: u64) -> Option<u64>
    ensures { result ≡ number_in least most t.now }
{
    if !is_number(t) {
        return None;
    }
    let value = value_up_to(t, most)?;
    if least <= value { Some(value) } else { None }
}

fn is_number(text: &[u8]) -> bool
    ensures { result ≡ is_number_lem text.now }
{
    !text.is_empty() && has_digits_only(text) && (text.len() <= 1 || text[0] != b'0')
}

fn has_digits_only(text: &[u8]) -> bool
    ensures { result ≡ list_all is_ascii_digit text.now }
{
    text.iter().all(|octet| octet.is_ascii_digit())
}

// The value of decimal digits, where it is at most `most`.
fn value_up_to(text: &[u8], most: u64) -> Option<u64>
    requires { IsTrue (list_all is_ascii_digit text.now) }
    ensures { SomeIff result (digits_value 10 text.now ≤ most) (digits_value 10 text.now) }
{
    let mut value: u64 = 0;
    let mut rest = text;
    while let [digit, after @ ..] = rest {
        let next = u128::from(value) * 10 + u128::from(*digit - b'0');
        if next > u128::from(most) {
            return None;
        }
        value = next as u64;
        rest = after;
    }
    Some(value)
}
