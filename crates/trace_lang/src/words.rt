// The words of a line, and the parts of a word.
ghost use Rattle.std.specs.Prelude.{◌≡◌, ◌≢◌, ◌<◌, ◌==◌, ◌∷◌, [], length, slice_index, MatchOption, Some, None};
ghost use Rattle.std.specs.List.{slice_split};
ghost use Rattle.wire_defs.specs.Text.{words};
ghost use Rattle.trace_defs.specs.Word.{one_of, two_of, three_of, socket_of};
ghost use Rattle.trace_lang.specs.Words.{IsPartLen};

const SPACE: u8 = b' ';

/// The first word of a text, and what follows it.
pub fn first_word(text: &[u8]) -> Option<(&[u8], &[u8])>
    ensures { MatchOption result (words text.now ≡ [])
        (λ found. words text.now ≡ found.0.now ∷ words found.1.now) }
{
    let rest = skip_spaces(text);
    if rest.is_empty() {
        return None;
    }
    let end = part_len(rest, SPACE);
    Some((&rest[..end], &rest[end..]))
}

/// The word of a text that has one.
pub fn one_word(text: &[u8]) -> Option<&[u8]>
    ensures { MatchOption result (one_of (words text.now) ≡ None)
        (λ found. one_of (words text.now) ≡ Some found.now) }
{
    let (word, rest) = first_word(text)?;
    if first_word(rest).is_some() {
        return None;
    }
    Some(word)
}

/// The words of a text that has two.
pub fn two_words(text: &[u8]) -> Option<(&[u8], &[u8])>
    ensures { MatchOption result (two_of (words text.now) ≡ None)
        (λ found. two_of (words text.now) ≡ Some (found.0.now, found.1.now)) }
{
    let (first, rest) = first_word(text)?;
    let (second, rest) = first_word(rest)?;
    if first_word(rest).is_some() {
        return None;
    }
    Some((first, second))
}

/// The words of a text that has three.
pub fn three_words(text: &[u8]) -> Option<(&[u8], &[u8], &[u8])>
    ensures { MatchOption result (three_of (words text.now) ≡ None)
        (λ found. three_of (words text.now) ≡ Some (found.0.now, found.1.now, found.2.now)) }
{
    let (first, rest) = first_word(text)?;
    let (second, rest) = first_word(rest)?;
    let (third, rest) = first_word(rest)?;
    if first_word(rest).is_some() {
        return None;
    }
    Some((first, second, third))
}

/// The words of a text that has two, or `0` and the word of a text that has one.
pub fn socket_words(text: &[u8]) -> Option<(&[u8], &[u8])>
    ensures { MatchOption result (socket_of (words text.now) ≡ None)
        (λ found. socket_of (words text.now) ≡ Some (found.0.now, found.1.now)) }
{
    let (first, rest) = first_word(text)?;
    let Some((second, rest)) = first_word(rest) else {
        return Some((b"0", first));
    };
    if first_word(rest).is_some() {
        return None;
    }
    Some((first, second))
}

/// The part of a word before its first full stop, and what follows that.
pub fn cut_at_stop(text: &[u8]) -> Option<(&[u8], &[u8])>
    ensures { MatchOption result (slice_split (λ octet. octet == 46) text.now ≡ text.now ∷ [])
        (λ found. slice_split (λ octet. octet == 46) text.now
        ≡ found.0.now ∷ slice_split (λ octet. octet == 46) found.1.now) }
{
    let end = part_len(text, b'.');
    if end == text.len() {
        return None;
    }
    Some((&text[..end], &text[end + 1..]))
}

/// What follows the spaces that a text begins with.
fn skip_spaces(text: &[u8]) -> &[u8]
    ensures same { words result.now ≡ words text.now }
    ensures start { 0 < length result.now → slice_index result.now 0 ≢ 32 }
{
    let mut rest = text;
    while let [32, after @ ..] = rest {
        rest = after;
    }
    rest
}

/// The number of octets before the first separator.
fn part_len(text: &[u8], separator: u8) -> usize
    ensures { IsPartLen separator text.now result }
{
    for (i, octet) in text.iter().enumerate() {
        if *octet == separator {
            return i;
        }
    }
    text.len()
}
