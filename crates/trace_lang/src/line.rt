// A line of a trace.
ghost use Rattle.std.specs.Prelude.{◌≡◌, ℕ, List, IfOk, true, ◌∷◌};
ghost use Rattle.std.specs.List.{list_all};
ghost use Rattle.std.specs.Str.Lines.{strip_carriage_return};
ghost use Rattle.wire_defs.specs.Text.{words};
ghost use Rattle.switch_event.specs.Config.{are_ports, empty};
ghost use Rattle.trace_defs.specs.Line as defined;
ghost use Rattle.trace_defs.specs.Trace.{Progress, read_lines, start};
ghost use Rattle.trace_defs.specs.Trace.Reading.{Going};
ghost use Rattle.trace_lang.specs.Meaning.{Sets, IsInPlace, IsValidAtBegin};
ghost use Rattle.trace_lang.specs.declared.line.LineErr.TheVariants.{NoMemory};

use crate::head::head_of;
use crate::records::{read_record, read_sync};
use crate::settings::read_setting;
use crate::words::first_word;
use std::alloc::{AllocError, Global};
use switch_event::Config;
use trace_defs::{Keyword, LANE, LONG, Line, MOST_LINE_OCTETS, OCTET, PLACE, WORD};

/// Why a line is not read.
#[derive(Clone, Copy, Debug, PartialEq, Eq, thiserror::Error)]
pub enum LineErr {
    /// It is refused for the first of the reasons of `trace_defs` that applies, `LONG` to
    /// `MISSING`.
    #[error("the line is refused for reason {why}")]
    Bad { why: u8 },
    /// There is no memory for its octets.
    #[error("out of memory")]
    NoMemory,
}

impl From<AllocError> for LineErr {
    ghost from_gives = { λ _ e. e ≡ NoMemory };

    fn from(_: AllocError) -> Self {
        LineErr::NoMemory
    }
}

/// What a line means, without its line feed. A setting is put into `c` and noted in `given`, by its
/// bit (`BRIDGE` to `REQUIRE_MA` of `trace_defs`); after any other line, and after a refusal, both
/// are as before. `begun` tells whether the settings are ended. Settings that were read are valid
/// at `begin`.
pub fn read_line(
    alloc: Global,
    c: &mut Config,
    given: &mut u32,
    begun: bool,
    line: &[u8],
) -> Result<Line, LineErr>
    requires ports { are_ports c.old.ports ≡ true }
    ensures reads { Sets (defined.line_of c.old given.old begun line.now)
        c.old given.old c.new given.new result }
    ensures ports { are_ports c.new.ports ≡ true }
    ensures place { IfOk result (IsInPlace begun) }
    ensures valid { (room : ℕ) (lines : List (List ℕ)) (p : Progress)
        → read_lines room (start empty) lines ≡ Going p → p.config ≡ c.old → p.given ≡ given.old
        → IfOk result (IsValidAtBegin c.new) }
{
    read_any(alloc, c, given, begun, line)
}

fn read_any(
    alloc: Global,
    c: &mut Config,
    given: &mut u32,
    begun: bool,
    line: &[u8],
) -> Result<Line, LineErr>
    requires ports { are_ports c.old.ports ≡ true }
    ensures reads { Sets (defined.line_of c.old given.old begun line.now)
        c.old given.old c.new given.new result }
    ensures ports { are_ports c.new.ports ≡ true }
    ensures place { IfOk result (IsInPlace begun) }
{
    let text = without_return(line);
    if is_comment(text) {
        return Ok(Line::Blank);
    }
    match first_word(text) {
        None => Ok(Line::Blank),
        Some((word, rest)) => read_words(alloc, c, given, begun, text, word, rest),
    }
}

fn read_words(
    alloc: Global,
    c: &mut Config,
    given: &mut u32,
    begun: bool,
    text: &[u8],
    word: &[u8],
    rest: &[u8],
) -> Result<Line, LineErr>
    requires ports { are_ports c.old.ports ≡ true }
    ensures reads { Sets
        (defined.words_line c.old given.old begun text.now (word.now ∷ words rest.now))
        c.old given.old c.new given.new result }
    ensures ports { are_ports c.new.ports ≡ true }
    ensures place { IfOk result (IsInPlace begun) }
{
    if text.len() > MOST_LINE_OCTETS {
        return Err(LineErr::Bad { why: LONG });
    }
    if !has_printable_only(text) {
        return Err(LineErr::Bad { why: OCTET });
    }
    let head = head_of(word, rest);
    if head.has_wrong_lane() {
        return Err(LineErr::Bad { why: LANE });
    }
    if head.is_unknown() {
        return Err(LineErr::Bad { why: WORD });
    }
    if head.is_misplaced(begun) {
        return Err(LineErr::Bad { why: PLACE });
    }
    match head.keyword {
        Some(Keyword::Setting(word)) => read_setting(c, given, word, head.rest),
        Some(Keyword::Record(word)) => read_record(alloc, c, head.lane, word, head.rest),
        Some(Keyword::Sync) => read_sync(head.rest),
        None => Err(LineErr::Bad { why: WORD }),
    }
}

fn is_comment(text: &[u8]) -> bool
    ensures { result ≡ defined.is_comment text.now }
{
    matches!(text, [b'#', ..])
}

fn has_printable_only(text: &[u8]) -> bool
    ensures { result ≡ list_all defined.is_printable text.now }
{
    text.iter().all(|octet| *octet >= 32 && *octet <= 126)
}

fn without_return(line: &[u8]) -> &[u8]
    ensures { result.now ≡ strip_carriage_return line.now }
{
    match line {
        [front @ .., 13] => front,
        _ => line,
    }
}
