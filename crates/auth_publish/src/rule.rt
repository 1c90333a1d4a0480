//! What is published, and the rule that ties it to what each thread knows.
use crate::change::Posted;
use crate::receipt::Receipt;
use atomic_table::{Join, Split};
use auth_table::Table;
use crossbeam_utils::rule::{Outcome, Protocol};
use left_right::Absorb;
use std::alloc::AllocError;

/// What readers take.
#[derive(Drop)]
pub struct Published {
    pub table: Table,
    /// The list that the table is after.
    pub told: Receipt,
}

/// What is done to the published value.
#[derive(Drop)]
pub enum Deed {
    /// Nothing: it takes the place that a later deed has.
    Begin,
    /// A change, and the list that ends with it.
    Publish(Posted, Receipt),
}

impl Absorb<Deed> for Published {
    ghost use Rattle.auth_publish.specs.Deeds.{done};

    type State = Published;

    ghost state = { λ p. p };

    ghost applied = { done };

    ghost never_fails = { Unit {0} };

    fn absorb_first(&mut self, deed: &Deed, _other: &Published) -> Result<(), AllocError> {
        match deed {
            Deed::Begin => {}
            Deed::Publish(change, told) => {
                change.apply(&mut self.table);
                self.told = told.again();
            }
        }
        Ok(())
    }
}

/// How a publisher began. No value of it is made.
pub struct Opening {
    pub first: Table,
    /// Of the empty list.
    pub told: Receipt,
}

/// The rule of what is published.
pub struct Law;

impl Protocol<Published, Option<Opening>> for Law {
    ghost use Rattle.std.specs.Prelude.{None};
    ghost use Rattle.auth_publish.specs.Rules.{Stands};

    ghost holds = { Stands };

    ghost first = { None };
}

/// A viewer enters.
pub struct Enters;

impl Outcome<Published, Option<Opening>> for Enters {
    ghost use Rattle.auth_publish.specs.Rules.{Sees};

    ghost then = { λ v x y w. Sees v y w };
}

/// The publisher takes its place.
pub struct Begins;

impl Outcome<Published, Option<Opening>> for Begins {
    ghost use Rattle.std.specs.Prelude.{◌≡◌, Some};
    ghost use Rattle.auth_publish.specs.Rules.{opening};

    ghost then = { λ v x y w. w ≡ Some (opening y.table y.told.name) };
}

/// The publisher publishes.
pub struct Posts;

impl Outcome<Published, Option<Opening>> for Posts {
    ghost use Rattle.std.specs.Prelude.{◌≡◌};

    ghost then = { λ v x y w. w ≡ v };
}

/// A copy of what a seat knows.
pub struct Copies;

impl Split<Option<Opening>> for Copies {
    ghost left = { λ v. v };

    ghost right = { λ v. v };
}

/// A viewer is told how the publisher began.
pub struct Arrives;

impl Join<Option<Opening>> for Arrives {
    ghost use Rattle.std.specs.Prelude.{None};

    ghost both = { λ v note. note };

    ghost spent = { None };
}
