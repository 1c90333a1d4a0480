//! A viewer and its view.
ghost use Rattle.std.specs.Prelude.{◌≡◌, ◌⊎◌, true, IfOk, IfErr};
ghost use mathlib.Core.List.{IsPrefix};
ghost use Rattle.table_defs.specs.Table.{changed_by};
ghost use Rattle.auth_publish.specs.Changes.{front_of, finish_is_last};

use crate::receipt::Receipt;
use crate::rule::{Enters, Law, Opening, Published};
use auth_table::Table;
use left_right::reader::{Reader, Reading};
use std::marker::Model;

/// One that reads the published table. Contracts see the longest of the lists that it entered or
/// learnt.
#[derive(Drop)]
pub struct Viewer {
    pub(crate) reader: Reader<Published, Option<Opening>, Law>,
    pub(crate) told: Receipt,
}

impl Model for Viewer {
    ghost use Rattle.auth_publish.specs.Rules.{first_of, IsPlaced};
    ghost use Rattle.auth_publish.specs.Feeds.{Feed};

    ghost Value = { Feed };

    ghost view = { λ v. record {
      name = v.told.name;
      first = first_of v.reader.place;
      list = v.told.list;
    } };

    ghost invariant = { λ v. IsPlaced v.told.name v.reader.place };
}

/// The table as it was entered. Contracts see the list that it is after. It is not Drop: end it by
/// `leave`.
pub struct View {
    reading: Reading<Published, Option<Opening>, Law>,
}

impl Model for View {
    ghost use Rattle.std.specs.Prelude.{◌≡◌, true};
    ghost use Rattle.auth_publish.specs.Rules.{first_of, IsPlaced};
    ghost use Rattle.table_defs.specs.Table.{changed_by};
    ghost use Rattle.auth_publish.specs.Changes.{finish_is_last};
    ghost use Rattle.auth_publish.specs.Feeds.{Feed};

    ghost Value = { Feed };

    ghost view = { λ v. record {
      name = v.reading.part.value.told.name;
      first = first_of v.reading.place;
      list = v.reading.part.value.told.list;
    } };

    ghost invariant = { λ v. IsPlaced v.reading.part.value.told.name v.reading.place
        × (v.reading.part.value.table
        ≡ changed_by (first_of v.reading.place) v.reading.part.value.told.list)
        × (finish_is_last v.reading.part.value.told.list ≡ true) };
}

impl Viewer {
    /// Enters the table as it is published now. The list that is entered begins with each list that
    /// this viewer entered before or learnt, and Finish stands only last in it. Where the entry is
    /// refused the viewer comes back, with all that it had seen; this counts as want of memory. It
    /// takes no lock.
    pub fn enter(self) -> Result<View, Viewer>
        ensures same { IfOk result (λ v. (v.name ≡ self.name) × (v.first ≡ self.first)) }
        ensures begins { IfOk result (λ v. IsPrefix self.list v.list) }
        ensures last { IfOk result (λ v. finish_is_last v.list ≡ true) }
        ensures refused { IfErr result (λ v. v ≡ self) }
    {
        let Self { reader, told } = self;
        match reader.enter_as::<Enters>() {
            Ok(reading) => {
                if told.begins(&reading.get().told) {
                    Ok(View { reading })
                } else {
                    // A list is published before there is a receipt of it, so this does not come.
                    Err(Viewer {
                        reader: reading.leave(),
                        told,
                    })
                }
            }
            Err(reader) => Err(Viewer { reader, told }),
        }
    }

    /// What it enters from now on begins with the receipt's list too. Of the two lists one begins
    /// the other, and the longer is kept.
    pub fn learn(self, r: Receipt) -> Viewer
        requires { r.name ≡ self.name }
        ensures same { (result.name ≡ self.name) × (result.first ≡ self.first) }
        ensures this { IsPrefix self.list result.list }
        ensures that { IsPrefix r.list result.list }
        ensures one { (result.list ≡ self.list) ⊎ (result.list ≡ r.list) }
    {
        let Self { reader, told } = self;
        Viewer {
            reader,
            told: told.longer(r),
        }
    }
}

impl View {
    /// The table after the list that was entered.
    pub fn table(&self) -> &Table
        ensures { result.now ≡ changed_by self.now.first self.now.list }
    {
        &self.reading.get().table
    }

    /// The number of changes without Finish.
    pub fn front(&self) -> u64
        ensures { result ≡ front_of self.now.list }
    {
        self.reading.get().told.count()
    }

    /// Ends the view. The viewer has seen its list.
    pub fn leave(self) -> Viewer
        ensures { result ≡ self }
    {
        let Self { reading } = self;
        let told = reading.get().told.again();
        Viewer {
            reader: reading.leave(),
            told,
        }
    }
}
