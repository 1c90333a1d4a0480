//! A roll of sessions that both gave the identity `bob`.

ghost use Rattle.std.specs.Prelude.{◌≤◌};

use dynauth_server::{Roll, RollRow};
use wire_core::Mac;

/// Session 1 of host 02-00-00-00-00-AA and session 2 of host 02-00-00-00-00-BB, both on port 1: the
/// first `len` of them.
#[derive(Drop)]
pub(crate) struct Bobs {
    pub(crate) len: usize,
    pub(crate) authorised: bool,
    pub(crate) ghost few: { len ≤ 2 },
}

impl Roll for Bobs {
    ghost use Rattle.std.specs.Prelude.{◌∷◌, [], Some, take, codes};
    ghost use Rattle.dynauth_defs.specs.Session.{Row};

    ghost rows = { λ s. take s.len (record { number = 1; port = 1; address = 2 ∷ 0 ∷ 0 ∷ 0 ∷ 0 ∷ 170 ∷ []; identity = Some (codes "bob"); authorised = s.authorised } ∷ record { number = 2; port = 1; address = 2 ∷ 0 ∷ 0 ∷ 0 ∷ 0 ∷ 187 ∷ []; identity = Some (codes "bob"); authorised = s.authorised } ∷ []) };

    fn len(&self) -> usize {
        self.len
    }

    fn row(&self, n: usize) -> Option<RollRow<'_>> {
        if n >= self.len {
            return None;
        }
        let (number, last) = if n == 0 { (1, 0xaa) } else { (2, 0xbb) };
        Some(RollRow {
            number,
            port: 1,
            mac: Mac([2, 0, 0, 0, 0, last]),
            identity: Some(b"bob".as_slice()),
            authorised: self.authorised,
        })
    }
}

/// The first `len` of the two sessions, at most two.
pub(crate) fn named_bob(len: usize, authorised: bool) -> Bobs {
    Bobs {
        len: len.min(2),
        authorised,
    }
}
