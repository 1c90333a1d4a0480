// How a line begins: the mark of a lane, and the first word behind it.
ghost use Rattle.std.specs.Prelude.{◌≡◌, ◌∷◌};
ghost use Rattle.wire_defs.specs.Text.{words};
ghost use Rattle.trace_defs.specs.Line as defined;
ghost use Rattle.trace_lang.specs.Parts.{head_is};

use crate::keyword::{keyword_of, lane_of, timing_of};
use crate::words::first_word;
use trace_defs::{Keyword, SettingWord};

/// How a line begins, and the text behind that.
#[derive(Clone, Copy)]
pub struct Head<'a> {
    /// Whether the mark of a lane stands first.
    pub marked: bool,
    /// The lane that it marks, 1 to 3.
    pub lane: Option<u8>,
    /// What the first word says, or the one behind the mark.
    pub keyword: Option<Keyword>,
    /// The text behind that word.
    pub rest: &'a [u8],
}

/// The head of a line by its first word and the text behind it.
pub fn head_of<'a>(word: &[u8], rest: &'a [u8]) -> Head<'a>
    ensures { head_is result ≡ defined.head_of word.now (words rest.now) }
{
    if !is_mark(word) {
        return Head {
            marked: false,
            lane: None,
            keyword: keyword_of(word),
            rest,
        };
    }
    behind_mark(lane_of(word), rest)
}

fn behind_mark(lane: Option<u8>, rest: &[u8]) -> Head<'_>
    ensures { head_is result ≡ defined.behind_mark lane (words rest.now) }
{
    match first_word(rest) {
        Some((word, rest)) => Head {
            marked: true,
            lane,
            keyword: keyword_of(word),
            rest,
        },
        None => Head {
            marked: true,
            lane,
            keyword: None,
            rest,
        },
    }
}

fn is_mark(word: &[u8]) -> bool
    ensures { result ≡ defined.is_mark word.now }
{
    matches!(word, [b'@', ..])
}

impl Head<'_> {
    /// Whether a mark is none of the three, or no word of a control event stands behind it.
    pub fn has_wrong_lane(&self) -> bool
        ensures { result ≡ defined.has_wrong_lane (head_is self.now) }
    {
        self.marked && (self.lane.is_none() || !matches!(self.keyword, Some(Keyword::Record(_))))
    }

    /// Whether the first word is unknown, or the one behind `set`.
    pub fn is_unknown(&self) -> bool
        ensures { result ≡ defined.is_unknown self.now.keyword (words self.now.rest.now) }
    {
        match self.keyword {
            None => true,
            Some(Keyword::Setting(SettingWord::Set)) => is_unknown_timing(self.rest),
            Some(_) => false,
        }
    }

    /// Whether it is a setting after `begin`, or another line before it.
    pub fn is_misplaced(&self, begun: bool) -> bool
        ensures { result ≡ defined.is_misplaced begun self.now.keyword }
    {
        match self.keyword {
            Some(Keyword::Setting(_)) => begun,
            _ => !begun,
        }
    }
}

// Whether a first word stands here that is no setting of `set`.
fn is_unknown_timing(rest: &[u8]) -> bool
    ensures { result ≡ defined.is_unknown_timing (words rest.now) }
{
    match first_word(rest) {
        Some((word, _)) => timing_of(word).is_none(),
        None => false,
    }
}
