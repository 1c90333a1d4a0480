// Settings from a source, octet by octet and line by line.
ghost use Rattle.std.specs.Prelude.{◌≡◌, ◌≤◌, ◌<◌, ◌+◌, ◌^◌, ℕ, List, [], ◌∷◌, OnOk, IfOk, IfErr, Ok, Err, true, false};
ghost use Rattle.wire_defs.specs.Outside.{Rose, HasCause};
ghost use Rattle.switch_event.specs.Config.{is_valid};
ghost use Rattle.settings_reader.specs.declared.settings_err.SettingsErr.TheVariants.{ReadFault, Refused};
ghost use Rattle.trace_defs.specs.declared.reason.TheConstants.{MISSING};
ghost use Rattle.settings_reader.specs.Reader.{EndsText, IsAt, IsSound, IsTaken, TakesLine, TakesOctet};
ghost use Rattle.settings_reader.specs.Settings.{SettingsEnd};

use crate::settings_err::SettingsErr;
use outside_core::{Failed, Source};
use outside_text::read_octet;
use std::alloc::{AllocError, Global};
use trace_defs::MISSING;
use trace_lang::{Config, Line, LineErr, Lines, read_line};

/// How far the settings are.
#[derive(Drop)]
pub struct Reader {
    /// The settings so far.
    pub config: Config,
    /// Which of them were given.
    pub given: u32,
    /// The lines that were taken.
    pub lines: u64,
    /// What is kept of the open line.
    pub line: Lines,
}

impl Reader {
    fn start(alloc: Global) -> Result<Reader, AllocError>
        ensures at { IfOk result (λ reader. IsAt reader []) }
        ensures sound { IfOk result IsSound }
        ensures line { IfOk result (λ reader. reader.line.ended ≡ false) }
        ensures lines { IfOk result (λ reader. reader.lines ≡ 0) }
    {
        Ok(Reader {
            config: Config::empty(),
            given: 0,
            lines: 0,
            line: Lines::open(alloc)?,
        })
    }

    // Takes the open line, and answers whether it ends the settings.
    fn take_line(&mut self, alloc: Global) -> Result<bool, SettingsErr>
        requires sound { IsSound self.old }
        requires short { self.old.lines + 1 < 2 ^ 63 }
        ensures takes { TakesLine self.old self.new result }
        ensures fault { IfErr result (λ e. e ≡ ReadFault → ⊥) }
        ensures sound { OnOk result (IsSound self.new) }
        ensures line { self.new.line ≡ self.old.line }
        ensures lines { OnOk result (self.new.lines ≡ self.old.lines + 1) }
        ensures valid { (given : List ℕ) → IsAt self.old given
            → result ≡ Ok true → is_valid self.new.config ≡ true }
    {
        match read_line(
            alloc,
            &mut self.config,
            &mut self.given,
            false,
            self.line.line(),
        ) {
            Ok(Line::Begin) => {
                self.lines += 1;
                Ok(true)
            }
            Ok(Line::Blank) => {
                self.lines += 1;
                Ok(false)
            }
            Ok(Line::Setting) => {
                self.lines += 1;
                Ok(false)
            }
            Ok(_) => unreachable!(),
            Err(LineErr::NoMemory) => Err(SettingsErr::NoMemory),
            Err(LineErr::Bad { why }) => Err(SettingsErr::Refused {
                line: self.lines + 1,
                why,
            }),
        }
    }

    // Takes an octet of a line, or the line feed that ends it, and answers whether the line ends the
    // settings.
    fn take_octet(&mut self, alloc: Global, octet: u8) -> Result<bool, SettingsErr>
        requires sound { IsSound self.old }
        requires short { self.old.lines + 1 < 2 ^ 63 }
        requires open { self.old.line.ended ≡ false }
        ensures takes { TakesOctet octet self.old self.new result }
        ensures fault { IfErr result (λ e. e ≡ ReadFault → ⊥) }
        ensures sound { OnOk result (IsSound self.new) }
        ensures open { OnOk result (self.new.line.ended ≡ false) }
        ensures lines { OnOk result (self.new.lines ≤ self.old.lines + 1) }
        ensures valid { (given : List ℕ) → IsAt self.old given
            → result ≡ Ok true → is_valid self.new.config ≡ true }
    {
        if octet != b'\n' {
            let _whole = self.line.feed(&[octet]);
            return Ok(false);
        }
        let ends = self.take_line(alloc)?;
        self.line.next();
        Ok(ends)
    }

    // The text ends here: its last line ends the settings, or one is missing behind it.
    fn finish(&mut self, alloc: Global) -> Result<(), SettingsErr>
        requires sound { IsSound self.old }
        requires short { self.old.lines + 2 < 2 ^ 63 }
        ensures ends { EndsText self.old self.new result }
        ensures fault { IfErr result (λ e. e ≡ ReadFault → ⊥) }
        ensures valid { (given : List ℕ) → IsAt self.old given
            → OnOk result (is_valid self.new.config ≡ true) }
    {
        if self.line.line().is_empty() {
            return Err(self.missing());
        }
        match self.take_line(alloc) {
            Ok(true) => Ok(()),
            Ok(false) => Err(self.missing()),
            Err(e) => Err(e),
        }
    }

    // Another line is missing.
    fn missing(&self) -> SettingsErr
        requires { self.now.lines + 1 < 2 ^ 64 }
        ensures { result ≡ Refused (self.now.lines + 1) MISSING }
    {
        SettingsErr::Refused {
            line: self.lines + 1,
            why: MISSING,
        }
    }

    // Takes octets up to the line that ends the settings.
    fn take_all<S: Source>(
        &mut self,
        alloc: Global,
        limit: usize,
        source: &mut S,
    ) -> Result<(), SettingsErr>
        requires limit { limit < 2 ^ 62 }
        requires at { IsAt self.old [] }
        requires sound { IsSound self.old }
        requires line { self.old.line.ended ≡ false }
        requires lines { self.old.lines ≡ 0 }
        ensures ends { IsTaken limit (S.left source.old) (S.left source.new) self.new.config
            result }
        ensures valid { OnOk result (is_valid self.new.config ≡ true) }
        ensures later { S.faults source.old ≤ S.faults source.new }
        ensures fault { result ≡ Err ReadFault → Rose (S.faults source.old) (S.faults source.new) }
    {
        let mut count = 0;
        'octets: loop {
            match read_octet(source) {
                Err(Failed) => return Err(SettingsErr::ReadFault),
                Ok(None) => return self.finish(alloc),
                Ok(Some(octet)) => {
                    if count == limit {
                        return Err(SettingsErr::TooLong);
                    }
                    count += 1;
                    match self.take_octet(alloc, octet) {
                        Ok(true) => return Ok(()),
                        Ok(false) => {}
                        Err(e) => return Err(e),
                    }
                }
            }
        }
    }
}

/// The settings of a source: its lines up to the one that ends the settings (`begin`), of which at
/// most `limit` octets count. No octet behind that line is taken. The settings are valid.
///
/// `NoMemory`: there is none. `Refused`: exactly where a line is refused, or the text ends without
/// ending its settings. `TooLong`: exactly where more octets come before the settings end or a line
/// is refused. `ReadFault` comes only where the count of faults of the source rose.
pub fn read_settings<S: Source>(
    alloc: Global,
    limit: usize,
    source: &mut S,
) -> Result<Config, SettingsErr>
    requires limit { limit < 2 ^ 62 }
    ensures ends { SettingsEnd limit (S.left source.old) (S.left source.new) result }
    ensures valid { IfOk result (λ config. is_valid config ≡ true) }
    ensures later { S.faults source.old ≤ S.faults source.new }
    ensures fault { result ≡ Err ReadFault → Rose (S.faults source.old) (S.faults source.new) }
{
    let mut reader = Reader::start(alloc)?;
    reader.take_all(alloc, limit, source)?;
    Ok(reader.config)
}
