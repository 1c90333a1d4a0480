//! The sessions that a dynamic request may name.

use wire_core::Mac;

/// What a request can know a session by.
#[derive(Clone, Copy, Debug)]
pub struct RollRow<'a> {
    /// The number of the session, which its Acct-Session-Id writes.
    pub number: u32,
    /// The number of its port.
    pub port: u8,
    /// The address of its host.
    pub mac: Mac,
    /// The identity that the host gave, 1 to 253 octets.
    pub identity: Option<&'a [u8]>,
    /// Whether the host is authorised.
    pub authorised: bool,
}

/// The sessions that live, in rising order of number.
pub trait Roll {
    ghost use Rattle.std.specs.Prelude.{◌≡◌, List, length, slice_get};
    ghost use Rattle.std.specs.Option.{option_map};
    ghost use Rattle.dynauth_defs.specs.Session.{Row};
    ghost use Rattle.dynauth_server.specs.Roll.{row_of, IsRoll};

    /// The sessions.
    ghost rows: { Self → List Row };

    /// How many there are.
    fn len(&self) -> usize
        ensures count { result ≡ length (rows self.now) }
        ensures roll { IsRoll (rows self.now) };

    /// Session `n`, counted from 0 in the order of the numbers. None exactly where there are at most `n`.
    fn row(&self, n: usize) -> Option<RollRow<'_>>
        ensures { option_map row_of result ≡ slice_get (rows self.now) n };
}
