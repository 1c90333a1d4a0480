//! The digests by which RADIUS packets are told to be true. Each takes its octets in pieces, and
//! copies no packet.
#![tactic(auto)]

ghost use Rattle.std.specs.Prelude.{◌≡◌, ◌+◌, ◌≤◌, ◌++◌, length, drop, map, bit_xor};
ghost use Rattle.md5.specs.Md5.{Holds, md5};
ghost use Rattle.radius_defs.specs.Digest as digest;

use md5::{Digest, Md5};

// What the octets of the key's block are changed by (RFC 2104, section 2).
const INNER_PAD: u8 = 0x36;

const OUTER_PAD: u8 = 0x5c;

/// HMAC-MD5 of the text under the key (RFC 2104, section 2). A key of more than 64 octets is
/// digested first.
pub fn hmac_md5(key: &[u8], text: &[u8]) -> [u8; 16]
    ensures { result ≡ digest.hmac key.now text.now }
{
    let mut inner = started(key);
    inner.update(text);
    finished(key, inner.finalize())
}

/// The authenticator of an answer: MD5 of the packet with the request's authenticator in place of
/// its own, and of the secret (RFC 2865, section 3).
pub fn response_auth(packet: &[u8], request: [u8; 16], secret: &[u8]) -> [u8; 16]
    requires { 20 ≤ length packet.now }
    ensures { result ≡ digest.response_auth packet.now request secret.now }
{
    let mut hasher = Md5::new();
    hasher.update(&packet[..4]);
    hasher.update(&request);
    hasher.update(&packet[20..]);
    hasher.update(secret);
    hasher.finalize()
}

/// The authenticator of a dynamic request: the same with 16 zero octets in place of its own
/// (RFC 5176, section 2.3).
pub fn request_auth(packet: &[u8], secret: &[u8]) -> [u8; 16]
    requires { 20 ≤ length packet.now }
    ensures { result ≡ digest.request_auth packet.now secret.now }
{
    response_auth(packet, [0; 16], secret)
}

/// The value of Message-Authenticator: HMAC-MD5 of the packet with this authenticator in place of
/// its own, and zeros in the 16 octets at `at` (RFC 3579, section 3.2).
pub fn message_auth(packet: &[u8], auth: [u8; 16], at: usize, secret: &[u8]) -> [u8; 16]
    requires behind { 20 ≤ at }
    requires within { at + 16 ≤ length packet.now }
    ensures { result ≡ digest.message_auth packet.now auth at secret.now }
{
    let (_to_the_value, behind) = packet.split_at(at + 16);
    let mut inner = started(secret);
    inner.update(&packet[..4]);
    inner.update(&auth);
    inner.update(&packet[20..at]);
    inner.update(&[0; 16]);
    inner.update(behind);
    finished(secret, inner.finalize())
}

// A hasher that has taken the key for the inner digest.
fn started(key: &[u8]) -> Md5
    ensures { Holds result (digest.masked key.now 0x36) }
{
    let mut inner = Md5::new();
    inner.update(&masked(key, INNER_PAD));
    inner
}

// The outer digest over the inner one.
fn finished(key: &[u8], inner: [u8; 16]) -> [u8; 16]
    ensures { result ≡ md5 (digest.masked key.now 0x5c ++ inner) }
{
    let mut outer = Md5::new();
    outer.update(&masked(key, OUTER_PAD));
    outer.update(&inner);
    outer.finalize()
}

// The key's block, with each octet changed by the pad.
fn masked(key: &[u8], pad: u8) -> [u8; 64]
    ensures { result ≡ digest.masked key.now pad }
{
    let mut block = key_block(key);
    change_each(&mut block, pad);
    block
}

// Changes each octet by the pad.
fn change_each(octets: &mut [u8], pad: u8)
    ensures { octets.new ≡ map (λ octet. bit_xor octet pad) octets.old }
{
    for octet in octets.iter_mut() {
        *octet ^= pad;
    }
}

// The key, or the digest of one longer than a block, with zeros behind it.
fn key_block(key: &[u8]) -> [u8; 64]
    ensures { result ≡ digest.key_block key.now }
{
    if key.len() > 64 {
        block_of(&Md5::digest(key))
    } else {
        block_of(key)
    }
}

// A block that begins with these octets and goes on with zeros.
fn block_of(octets: &[u8]) -> [u8; 64]
    requires { length octets.now ≤ 64 }
    ensures { result ≡ digest.block_of octets.now }
{
    let mut block = [0; 64];
    write_front(&mut block, octets);
    block
}

// Writes octets over the first ones.
fn write_front(block: &mut [u8], octets: &[u8])
    requires { length octets.now ≤ length block.old }
    ensures { block.new ≡ octets.now ++ drop (length octets.now) block.old }
{
    block[..octets.len()].copy_from_slice(octets);
}
