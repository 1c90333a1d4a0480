// How a run ends, and the status of the program then.
ghost use Rattle.std.specs.Prelude.{◌≡◌};
ghost use Rattle.serve_loop.specs.Ending.{ending_of, status_of};
ghost use Rattle.serve_loop.specs.declared.ending.Ending.TheVariants.{NoMemory};

use settings_reader::SettingsErr;
use std::alloc::AllocError;

/// How a run ends.
#[derive(Clone, Copy, Debug, PartialEq, Eq)]
pub enum Ending {
    /// Its turns are over, or it was told to end.
    Done,
    /// There was no memory.
    NoMemory,
    /// A line of the settings was refused, with its number from 1 and the reason.
    Refused { line: u64, why: u8 },
    /// The source failed.
    ReadFault,
    /// The sink failed.
    WriteFault,
    /// There were more control records than a history has room for.
    Full,
    /// The link failed.
    LinkFault,
    /// There were more octets than the settings may have.
    TooLong,
}

impl From<AllocError> for Ending {
    ghost from_gives = { λ _ e. e ≡ NoMemory };

    fn from(_: AllocError) -> Self {
        Ending::NoMemory
    }
}

/// The end of a run that has no settings.
pub fn unsettled(e: SettingsErr) -> Ending
    ensures { result ≡ ending_of e }
{
    match e {
        SettingsErr::NoMemory => Ending::NoMemory,
        SettingsErr::Refused { line, why } => Ending::Refused { line, why },
        SettingsErr::ReadFault => Ending::ReadFault,
        SettingsErr::TooLong => Ending::TooLong,
    }
}

/// The status of the program after this end.
pub fn status(ending: Ending) -> u8
    ensures { result ≡ status_of ending }
{
    match ending {
        Ending::Done => 0,
        Ending::NoMemory => 1,
        Ending::Refused { .. } => 3,
        Ending::ReadFault => 4,
        Ending::WriteFault => 5,
        Ending::Full => 6,
        Ending::LinkFault => 7,
        Ending::TooLong => 8,
    }
}
