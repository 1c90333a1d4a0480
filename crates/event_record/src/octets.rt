ghost use Rattle.std.specs.Prelude.{◌≡◌, ℕ, List, IfOk};

use std::alloc::{AllocError, Global};
use std::marker::Model;

/// Octets in memory of their own. Contracts see the list of them.
#[derive(Drop)]
pub struct Octets {
    held: Vec<u8>,
}

impl Model for Octets {
    ghost Value = { List ℕ };

    ghost view = { λ o. o.held.items };
}

impl Octets {
    /// A copy of these octets, in memory for just so many.
    pub fn of(alloc: Global, octets: &[u8]) -> Result<Octets, AllocError>
        ensures { IfOk result (λ o. o ≡ octets.now) }
    {
        Ok(Octets {
            held: octets.to_vec(alloc)?,
        })
    }

    /// The octets of a vector, in the memory that it has.
    pub fn from_vec(octets: Vec<u8>) -> Octets
        ensures { result ≡ octets.items }
    {
        Octets { held: octets }
    }

    /// The octets.
    pub fn as_slice(&self) -> &[u8]
        ensures { result.now ≡ self.now }
    {
        &self.held
    }
}
