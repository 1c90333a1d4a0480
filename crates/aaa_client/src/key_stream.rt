//! The Request Authenticators of a seed (RFC 2865, section 3), out of the key stream of ChaCha20 (RFC
//! 8439, section 2.4). No call takes memory.
ghost use Rattle.std.specs.Prelude.{◌≡◌, ◌+◌, ◌*◌, ◌<◌, ◌≤◌, ◌^◌, ◌++◌};
ghost use Rattle.rand_chacha.specs.ChaCha.{ChaCha, key_of};
ghost use Rattle.aaa_defs.specs.Request.{authenticator, seed_word};

use rand_chacha::ChaCha20Rng;
use rand_core::SeedableRng;
use rand_core::utils::NextWord;

// How many words of the key stream an authenticator has.
const WORDS: u128 = 4;

/// Authenticator `k`, counted from 0, of a seed: the words of the key stream at places 4k to 4k + 3
/// of stream 0, each least octet first.
pub fn request_authenticator(seed: [u8; 32], k: u64) -> [u8; 16]
    ensures { result ≡ authenticator seed k }
{
    let mut words = ChaCha20Rng::from_seed(seed);
    words.set_word_pos(WORDS * u128::from(k));
    let [a, b, c, d] = words.next_word().to_le_bytes();
    let [e, f, g, h] = words.next_word().to_le_bytes();
    let [i, j, l, m] = words.next_word().to_le_bytes();
    let [n, o, p, q] = words.next_word().to_le_bytes();
    [a, b, c, d, e, f, g, h, i, j, l, m, n, o, p, q]
}
