// How a run ends, and the status of the program then.
ghost use Rattle.std.specs.Prelude.{◌≡◌};
ghost use Rattle.race_run.specs.Ending.{status_of};

use std::alloc::{AllocError, AllocFailed};

/// How a run ends.
#[derive(Clone, Copy, Debug, PartialEq, Eq)]
pub enum Ending {
    /// The source was read to its end.
    Done,
    /// There was no memory.
    NoMemory,
    /// A line was refused, with its number from 1 and the reason.
    Refused { line: u64, why: u8 },
    /// The source failed.
    ReadFault,
    /// The sink failed.
    WriteFault,
    /// There were more control records than a history has room for.
    Full,
    /// There were more octets than a trace may have.
    TooLong,
}

impl From<AllocError> for Ending {
    ghost use Rattle.race_run.specs.declared.ending.Ending.TheVariants.{NoMemory};

    ghost from_gives = { λ _ e. e ≡ NoMemory };

    fn from(_: AllocError) -> Self {
        Ending::NoMemory
    }
}

impl<T: Drop> From<AllocFailed<T>> for Ending {
    ghost use Rattle.race_run.specs.declared.ending.Ending.TheVariants.{NoMemory};

    ghost from_gives = { λ _ e. e ≡ NoMemory };

    fn from(_: AllocFailed<T>) -> Self {
        Ending::NoMemory
    }
}

/// The status of the program after this end.
pub fn status(ending: Ending) -> u8
    ensures { result ≡ status_of ending }
{
    match ending {
        Ending::Done => 0,
        Ending::NoMemory => 1,
        Ending::Refused { .. } => 3,
        Ending::ReadFault => 4,
        Ending::WriteFault => 5,
        Ending::Full => 6,
        Ending::TooLong => 8,
    }
}
