// The values that words write.
ghost use Rattle.std.specs.Prelude.{◌≡◌, ◌≤◌, IfSome, MatchOption, ◌<◌, ◌∷◌, [], Option, Some, None, Ok, length};
ghost use Rattle.wire_defs.specs.Number.{number_in};
ghost use Rattle.trace_defs.specs.Word as defined;
ghost use Rattle.trace_defs.specs.Word.{address_of, four_of, hex_of, hex_in, control_of, link_of, switch_of};
ghost use Rattle.trace_lang.specs.Meaning.{Decodes};
ghost use Rattle.trace_lang.specs.declared.line.LineErr.TheVariants.{NoMemory};

use crate::line::LineErr;
use crate::words::cut_at_stop;
use arrayvec::ArrayVec;
use hex::{FromHex, FromHexError};
use machine_vars::Control;
use std::alloc::Global;
use trace_defs::{HEX, Octets};
use wire_core::decimal;

/// A port's number, 1 to 60.
pub fn port_of(text: &[u8]) -> Option<u8>
    ensures value { result ≡ number_in 1 60 text.now }
    ensures range { IfSome result (λ port. (1 ≤ port) × (port ≤ 60)) }
{
    let port = decimal(text, 1, 60)?;
    Some(port as u8)
}

/// A VLAN, 1 to 4094.
pub fn vlan_of(text: &[u8]) -> Option<u16>
    ensures value { result ≡ number_in 1 4094 text.now }
    ensures range { IfSome result (λ vlan. (1 ≤ vlan) × (vlan ≤ 4094)) }
{
    let vlan = decimal(text, 1, 4094)?;
    Some(vlan as u16)
}

/// A number in a range.
pub fn number_of(text: &[u8], least: u32, most: u32) -> Option<u32>
    ensures { result ≡ number_in least most text.now }
{
    let n = decimal(text, u64::from(least), u64::from(most))?;
    Some(n as u32)
}

/// A port of UDP, from `least` to 65,535.
pub fn udp_port_of(text: &[u8], least: u16) -> Option<u16>
    ensures { result ≡ number_in least 65535 text.now }
{
    let port = decimal(text, u64::from(least), 65535)?;
    Some(port as u16)
}

/// The number of a socket, 0 to 4.
pub fn socket_of(text: &[u8]) -> Option<u8>
    ensures { result ≡ number_in 0 4 text.now }
{
    let socket = decimal(text, 0, 4)?;
    Some(socket as u8)
}

fn octet_of(text: &[u8]) -> Option<u8>
    ensures { result ≡ number_in 0 255 text.now }
{
    let octet = decimal(text, 0, 255)?;
    Some(octet as u8)
}

/// An address of IPv4: four numbers with dots.
pub fn ip_of(text: &[u8]) -> Option<[u8; 4]>
    ensures { result ≡ address_of text.now }
{
    let (a, rest) = cut_at_stop(text)?;
    let (b, rest) = cut_at_stop(rest)?;
    let (c, d) = cut_at_stop(rest)?;
    match cut_at_stop(d) {
        Some(_) => None,
        None => four_octets(a, b, c, d),
    }
}

fn four_octets(a: &[u8], b: &[u8], c: &[u8], d: &[u8]) -> Option<[u8; 4]>
    ensures { result ≡ four_of (a.now ∷ b.now ∷ c.now ∷ d.now ∷ []) }
{
    Some([octet_of(a)?, octet_of(b)?, octet_of(c)?, octet_of(d)?])
}

/// The octets of a word of hexadecimal digits, or of a dash, where there are at most so many.
pub fn hex_octets(alloc: Global, text: &[u8], most: usize) -> Result<Octets, LineErr>
    ensures { Decodes (hex_in 0 most text.now) result }
{
    match any_octets(alloc, text) {
        Ok(octets) if octets.as_slice().len() > most => Err(LineErr::Bad { why: HEX }),
        other => other,
    }
}

fn any_octets(alloc: Global, text: &[u8]) -> Result<Octets, LineErr>
    ensures { Decodes (hex_of text.now) result }
{
    if text == b"-".as_slice() {
        return Ok(Octets::of(alloc, &[])?);
    }
    match hex::decode(alloc, text) {
        Ok(octets) => Ok(Octets::from_vec(octets)),
        Err(FromHexError::OutOfMemory) => Err(LineErr::NoMemory),
        Err(_) => Err(LineErr::Bad { why: HEX }),
    }
}

/// The octets of a word of hexadecimal digits, where there are exactly 6.
pub fn six_octets(text: &[u8]) -> Option<[u8; 6]>
    ensures { result ≡ hex_in 6 6 text.now }
{
    match <[u8; 6] as FromHex>::from_hex(text) {
        Ok(octets) => Some(octets),
        Err(_) => None,
    }
}

/// The octets of a word of hexadecimal digits, where there are exactly 32.
pub fn thirty_two_octets(text: &[u8]) -> Option<[u8; 32]>
    ensures { result ≡ hex_in 32 32 text.now }
{
    match <[u8; 32] as FromHex>::from_hex(text) {
        Ok(octets) => Some(octets),
        Err(_) => None,
    }
}

/// The octets of a word of hexadecimal digits, where there are 1 to 64.
pub fn secret_of(text: &[u8]) -> Option<ArrayVec<u8, 64>>
    ensures { MatchOption result (hex_in 1 64 text.now ≡ None)
        (λ secret. hex_in 1 64 text.now ≡ Some secret.items) }
{
    let count = text.len() / 2;
    if count == 0 || count > 64 {
        return None;
    }
    let mut secret = ArrayVec::from([0; 64]);
    secret.truncate(count);
    match hex::decode_to_slice(text, secret.as_mut_slice()) {
        Ok(()) => Some(secret),
        Err(_) => None,
    }
}

/// A name of at most 32 octets.
pub fn name_of(text: &[u8]) -> Option<ArrayVec<u8, 32>>
    ensures { MatchOption result (defined.name_of text.now ≡ None)
        (λ name. defined.name_of text.now ≡ Some name.items) }
{
    ArrayVec::try_from(text).ok()
}

/// The control of a port.
pub fn control_choice(text: &[u8]) -> Option<Control>
    ensures { result ≡ control_of text.now }
{
    if text == b"auto".as_slice() {
        Some(Control::Auto)
    } else if text == b"force-auth".as_slice() {
        Some(Control::ForceAuth)
    } else if text == b"force-unauth".as_slice() {
        Some(Control::ForceUnauth)
    } else {
        None
    }
}

/// The state of a link.
pub fn link_choice(text: &[u8]) -> Option<bool>
    ensures { result ≡ link_of text.now }
{
    match text {
        b"up" => Some(true),
        b"down" => Some(false),
        _ => None,
    }
}

/// Whether something is switched on.
pub fn switch_choice(text: &[u8]) -> Option<bool>
    ensures { result ≡ switch_of text.now }
{
    match text {
        b"on" => Some(true),
        b"off" => Some(false),
        _ => None,
    }
}
