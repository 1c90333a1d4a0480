// The words that a line begins with.
ghost use Rattle.std.specs.Prelude.{◌≡◌, ◌≤◌, IfSome};
ghost use Rattle.trace_defs.specs.Word as defined;

use trace_defs::{Keyword, RecordWord, SettingWord, Timing};

/// The first word of a line.
pub fn keyword_of(word: &[u8]) -> Option<Keyword>
    ensures { result ≡ defined.keyword_of word.now }
{
    if word == b"frame".as_slice() {
        Some(Keyword::Record(RecordWord::Frame))
    } else if word == b"radius".as_slice() {
        Some(Keyword::Record(RecordWord::Radius))
    } else if word == b"dyn".as_slice() {
        Some(Keyword::Record(RecordWord::Dyn))
    } else if word == b"tick".as_slice() {
        Some(Keyword::Record(RecordWord::Tick))
    } else if word == b"link".as_slice() {
        Some(Keyword::Record(RecordWord::Link))
    } else if word == b"control".as_slice() {
        Some(Keyword::Record(RecordWord::Control))
    } else if word == b"sync".as_slice() {
        Some(Keyword::Sync)
    } else {
        setting_of(word)
    }
}

fn setting_of(word: &[u8]) -> Option<Keyword>
    ensures { result ≡ defined.setting_of word.now }
{
    if word == b"bridge".as_slice() {
        Some(Keyword::Setting(SettingWord::Bridge))
    } else if word == b"nas".as_slice() {
        Some(Keyword::Setting(SettingWord::Nas))
    } else if word == b"server".as_slice() {
        Some(Keyword::Setting(SettingWord::Server))
    } else if word == b"client".as_slice() {
        Some(Keyword::Setting(SettingWord::Client))
    } else if word == b"port".as_slice() {
        Some(Keyword::Setting(SettingWord::Port))
    } else if word == b"restricted".as_slice() {
        Some(Keyword::Setting(SettingWord::Restricted))
    } else if word == b"guest".as_slice() {
        Some(Keyword::Setting(SettingWord::Guest))
    } else if word == b"set".as_slice() {
        Some(Keyword::Setting(SettingWord::Set))
    } else if word == b"clock".as_slice() {
        Some(Keyword::Setting(SettingWord::Clock))
    } else if word == b"seed".as_slice() {
        Some(Keyword::Setting(SettingWord::Seed))
    } else if word == b"begin".as_slice() {
        Some(Keyword::Setting(SettingWord::Begin))
    } else {
        None
    }
}

/// The word behind `set`.
pub fn timing_of(word: &[u8]) -> Option<Timing>
    ensures { result ≡ defined.timing_of word.now }
{
    if word == b"quiet-period".as_slice() {
        Some(Timing::QuietPeriod)
    } else if word == b"server-timeout".as_slice() {
        Some(Timing::ServerTimeout)
    } else if word == b"reauth-max".as_slice() {
        Some(Timing::ReauthMax)
    } else if word == b"reauth-period".as_slice() {
        Some(Timing::ReauthPeriod)
    } else if word == b"reauth".as_slice() {
        Some(Timing::Reauth)
    } else if word == b"guest-wait".as_slice() {
        Some(Timing::GuestWait)
    } else if word == b"dyn-window".as_slice() {
        Some(Timing::DynWindow)
    } else if word == b"require-ma".as_slice() {
        Some(Timing::RequireMa)
    } else {
        None
    }
}

/// The lane that a word marks, 1 to 3.
pub fn lane_of(word: &[u8]) -> Option<u8>
    ensures value { result ≡ defined.lane_of word.now }
    ensures range { IfSome result (λ lane. (1 ≤ lane) × (lane ≤ 3)) }
{
    match word {
        b"@1" => Some(1),
        b"@2" => Some(2),
        b"@3" => Some(3),
        _ => None,
    }
}
