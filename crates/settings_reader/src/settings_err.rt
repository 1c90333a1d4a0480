// Why there are no settings.
ghost use Rattle.std.specs.Prelude.{◌≡◌};
ghost use Rattle.settings_reader.specs.declared.settings_err.SettingsErr.TheVariants.{NoMemory};

use std::alloc::AllocError;

/// Why a source gave no settings.
#[derive(Clone, Copy, Debug, PartialEq, Eq, thiserror::Error)]
pub enum SettingsErr {
    /// There was no memory.
    #[error("out of memory")]
    NoMemory,
    /// A line was refused, with its number from 1 and the reason, `LONG` to `MISSING` of
    /// `trace_defs`. The line behind the last one is missing where the text does not end its
    /// settings.
    #[error("line {line} is refused for reason {why}")]
    Refused { line: u64, why: u8 },
    /// The source failed.
    #[error("read fault")]
    ReadFault,
    /// There were more octets than may come before the settings end.
    #[error("too long")]
    TooLong,
}

impl From<AllocError> for SettingsErr {
    ghost from_gives = { λ _ e. e ≡ NoMemory };

    fn from(_: AllocError) -> Self {
        SettingsErr::NoMemory
    }
}
