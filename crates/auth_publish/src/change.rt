//! A change as it is kept until both copies of the table have it.
ghost use Rattle.std.specs.Prelude.{◌≡◌, map, IfOk};
ghost use Rattle.table_defs.specs.Table.{Items, Finish, changed};
ghost use Rattle.table_defs.specs.Change.{item_of};
ghost use Rattle.auth_publish.specs.Changes.{is_finish};

use auth_table::{Table, absorb};
use std::alloc::{AllocError, Global};
use std::marker::Model;
use table_defs::Item;

/// The items of a change, in memory for just so many, or the end. Contracts see the change.
#[derive(Drop)]
pub struct Posted {
    items: Vec<Item>,
    ends: bool,
}

impl Model for Posted {
    ghost use Rattle.table_defs.specs.Table as table;
    ghost use Rattle.auth_publish.specs.Posted.{change_kept};

    ghost Value = { table.Change };

    ghost view = { λ p. change_kept p.ends p.items.items };
}

impl Posted {
    // It takes memory for as many items as there are.
    pub(crate) fn of(alloc: Global, items: &[Item]) -> Result<Posted, AllocError>
        ensures { IfOk result (λ p. p ≡ Items (map item_of items.now)) }
    {
        Ok(Posted {
            items: items.to_vec(alloc)?,
            ends: false,
        })
    }

    pub(crate) fn finish(alloc: Global) -> Posted
        ensures { result ≡ Finish }
    {
        Posted {
            items: Vec::new(alloc),
            ends: true,
        }
    }

    pub(crate) fn is_finish(&self) -> bool
        ensures { result ≡ is_finish self.now }
    {
        self.ends
    }

    // What it changes in the table.
    pub(crate) fn apply(&self, table: &mut Table)
        ensures { table.new ≡ changed table.old self.now }
    {
        if !self.ends {
            absorb(table, &self.items);
        }
    }
}
