//! The sessions, as a dynamic request can know them.

ghost use Rattle.control_core.specs.Rows.{AreBetween, rows_of};

use dynauth_server::{Roll, RollRow};
use host_sessions::Sessions;

/// The sessions, in rising order of their numbers.
#[derive(Drop)]
pub(crate) struct Roster<'a> {
    pub(crate) sessions: &'a Sessions,
    ghost between: { ∥ AreBetween sessions.now ∥₁ },
}

impl Roll for Roster<'_> {
    ghost use Rattle.control_core.specs.Rows.{rows_of};

    ghost rows = { λ roster. rows_of roster.sessions.now };

    fn len(&self) -> usize {
        self.sessions.len()
    }

    fn row(&self, n: usize) -> Option<RollRow<'_>> {
        self.sessions.row(n)
    }
}
