//! The publisher.
ghost use Rattle.std.specs.Prelude.{◌≡◌, ◌<◌, ◌≤◌, [], ◌∷◌, ◌++◌, true, false, length, map, drop, fold, All, IfOk, IsOk, OnErr};
ghost use Rattle.table_defs.specs.Table.{Items, Finish, changed_by};
ghost use Rattle.table_defs.specs.Change.{item_of};
ghost use Rattle.auth_publish.specs.Changes.{is_open, front_of};
ghost use Rattle.auth_publish.specs.Deeds.{done, IsNext};
ghost use Rattle.auth_publish.specs.Rules.{known_by, first_of, IsPlaced};

use crate::change::Posted;
use crate::receipt::{Head, Receipt, begin};
use crate::rule::{Arrives, Begins, Copies, Deed, Law, Opening, Posts, Published};
use crate::viewer::Viewer;
use auth_table::Table;
use core::mem::replace_with;
use event_record::MOST_EVENTS;
use left_right::writer::Writer;
use std::alloc::{AllocError, Global};
use std::marker::Model;
use std::sync::Wait;
use table_defs::Item;

type TableWriter = Writer<Published, Deed, Option<Opening>, Law>;

/// One that changes the table and shows each change. Contracts see the changes that are published.
/// It is not Drop: end it by `end`.
pub struct Publisher {
    writer: TableWriter,
    head: Head,
    alloc: Global,
}

impl Model for Publisher {
    ghost use Rattle.std.specs.Prelude.{◌≡◌, ◌≤◌, [], drop};
    ghost use Rattle.event_record.specs.declared.TheConstants.{MOST_EVENTS};
    ghost use Rattle.auth_publish.specs.Rules.{first_of, IsPlaced};
    ghost use Rattle.auth_publish.specs.History.{head_of};
    ghost use Rattle.table_defs.specs.Table.{changed_by};
    ghost use Rattle.auth_publish.specs.Changes.{front_of};
    ghost use Rattle.auth_publish.specs.Feeds.{Feed};

    ghost Value = { Feed };

    ghost view = { λ p. record {
      name = p.writer.desk.shown.value.told.name;
      first = first_of p.writer.desk.place;
      list = p.writer.desk.shown.value.told.list;
    } };

    ghost invariant = { λ p. (drop p.writer.behind p.writer.log.items ≡ [])
        × IsPlaced p.writer.desk.shown.value.told.name p.writer.desk.place
        × (p.head ≡ head_of p.writer.desk.shown.value.told.name)
        × (p.writer.desk.shown.value.table
        ≡ changed_by (first_of p.writer.desk.place) p.writer.desk.shown.value.told.list)
        × (front_of p.writer.desk.shown.value.told.list ≤ MOST_EVENTS) };
}

/// A publisher of this table with an empty list, and so many viewers of it, 1 to 8. It waits for
/// nobody but where it is refused: then it ends what it had made, and nobody is inside.
pub fn open<R: Wait>(
    rt: &R,
    alloc: Global,
    first: Table,
    viewers: usize,
) -> Result<(Publisher, Vec<Viewer>), AllocError>
    requires { (1 ≤ viewers) × (viewers ≤ 8) }
    ensures publisher { IfOk result (λ r. (r.0.first ≡ first) × (r.0.list ≡ [])) }
    ensures count { IfOk result (λ r. length r.1.items ≡ viewers) }
    ensures viewers { IfOk result (λ r. All (λ v. v ≡ r.0) r.1.items) }
{
    let mut publisher = Publisher::new(rt, alloc, first, viewers)?;
    match publisher.viewers(viewers) {
        Ok(all) => Ok((publisher, all)),
        Err(error) => {
            publisher.end(rt);
            Err(error)
        }
    }
}

// Publishes what is there already. Afterwards there is room to publish a change.
fn settle<R: Wait>(mut writer: TableWriter, rt: &R) -> Result<TableWriter, AllocError>
    requires fresh { writer.desk.shown.value.told.list ≡ [] }
    requires pending { drop writer.behind writer.log.items ≡ [] }
    ensures pending { IfOk result (λ w. drop w.behind w.log.items ≡ []) }
    ensures shown { IfOk result (λ w. w.desk.shown.value ≡ writer.desk.shown.value) }
    ensures placed { IfOk result (λ w. (first_of w.desk.place ≡ writer.desk.shown.value.table)
        × IsPlaced writer.desk.shown.value.told.name w.desk.place) }
{
    if writer.append(Deed::Begin).is_err() {
        drop(writer.take(rt));
        return Err(AllocError);
    }
    let (writer, begun) = writer.publish_as::<Begins, R>(rt);
    match begun {
        Ok(()) => Ok(writer),
        Err(error) => {
            drop(writer.take(rt));
            Err(error)
        }
    }
}

// Publishes what is pending.
fn show<R: Wait>(writer: TableWriter, rt: &R) -> (TableWriter, Result<(), AllocError>)
    requires { IsNext writer.desk.shown.value (drop writer.behind writer.log.items) }
    ensures ok { IsOk result.1 }
    ensures pending { drop result.0.behind result.0.log.items ≡ [] }
    ensures shown { result.0.desk.shown.value
        ≡ fold done writer.desk.shown.value (drop writer.behind writer.log.items) }
    ensures known { known_by result.0.desk.place ≡ known_by writer.desk.place }
{
    writer.publish_as::<Posts, R>(rt)
}

impl Publisher {
    fn new<R: Wait>(
        rt: &R,
        alloc: Global,
        first: Table,
        readers: usize,
    ) -> Result<Publisher, AllocError>
        requires { (1 ≤ readers) × (readers ≤ 8) }
        ensures { IfOk result (λ p. (p.first ≡ first) × (p.list ≡ [])) }
    {
        let (head, told) = begin();
        let again = Published {
            table: first.copied(),
            told: told.again(),
        };
        let published = Published { table: first, told };
        let writer = Writer::new(alloc, published, again, readers)?;
        // Of two deeds at most one waits for the second copy, so a change finds room from now on.
        let writer = settle(settle(writer, rt)?, rt)?;
        Ok(Publisher {
            writer,
            head,
            alloc,
        })
    }

    fn viewers(&mut self, count: usize) -> Result<Vec<Viewer>, AllocError>
        ensures same { self.new ≡ self.old }
        ensures count { IfOk result (λ v. length v.items ≡ count) }
        ensures viewers { IfOk result (λ v. All (λ v. v ≡ self.old) v.items) }
    {
        let mut all = Vec::new(self.alloc);
        for _ in 0..count {
            all.push(self.viewer()?)?;
        }
        Ok(all)
    }

    fn viewer(&mut self) -> Result<Viewer, AllocError>
        ensures same { self.new ≡ self.old }
        ensures fresh { IfOk result (λ v. v ≡ self.old) }
    {
        let told = self.writer.published().told.again();
        let mut reader = self.writer.factory().reader()?;
        reader.learn::<Arrives>(self.writer.tell::<Copies>());
        Ok(Viewer { reader, told })
    }

    #[tactic(auto, using(crate::proofs::Lists::open_more))]
    /// Publishes the change of these items, and gives a receipt of the list that ends with it. It takes
    /// memory for as many items as there are, and may wait for viewers that are inside. Where there is
    /// no memory the list is as before.
    pub fn post<R: Wait>(&mut self, rt: &R, items: &[Item]) -> Result<Receipt, AllocError>
        requires open { is_open self.old.list ≡ true }
        requires room { length self.old.list < MOST_EVENTS }
        ensures same { (self.new.name ≡ self.old.name) × (self.new.first ≡ self.old.first) }
        ensures published { IfOk result (λ r.
            self.new.list ≡ self.old.list ++ Items (map item_of items.now) ∷ []) }
        ensures open { IfOk result (λ r. is_open self.new.list ≡ true) }
        ensures receipt { IfOk result (λ r. (r.name ≡ self.new.name) × (r.list ≡ self.new.list)) }
        ensures refused { OnErr result (self.new ≡ self.old) }
    {
        let change = Posted::of(self.alloc, items)?;
        self.publish(rt, change)
    }

    /// Publishes Finish, and gives a receipt of the list that ends with it. It may wait for viewers
    /// that are inside. Where there is no memory the list is as before.
    pub fn finish<R: Wait>(&mut self, rt: &R) -> Result<Receipt, AllocError>
        requires { is_open self.old.list ≡ true }
        ensures same { (self.new.name ≡ self.old.name) × (self.new.first ≡ self.old.first) }
        ensures published { IfOk result (λ r. self.new.list ≡ self.old.list ++ Finish ∷ []) }
        ensures receipt { IfOk result (λ r. (r.name ≡ self.new.name) × (r.list ≡ self.new.list)) }
        ensures refused { OnErr result (self.new ≡ self.old) }
    {
        self.publish(rt, Posted::finish(self.alloc))
    }

    #[tactic(auto, using(crate::proofs::Lists::changed_more))]
    // All memory is there before the history is told: that of the change, and that of its place
    // since `new`. Were there none for the place all the same, the history would have a change that
    // readers never see, and no change could come after it.
    fn publish<R: Wait>(&mut self, rt: &R, change: Posted) -> Result<Receipt, AllocError>
        requires open { is_open self.old.list ≡ true }
        requires room { front_of (self.old.list ++ change ∷ []) ≤ MOST_EVENTS }
        ensures same { (self.new.name ≡ self.old.name) × (self.new.first ≡ self.old.first) }
        ensures published { IfOk result (λ r. self.new.list ≡ self.old.list ++ change ∷ []) }
        ensures receipt { IfOk result (λ r. (r.name ≡ self.new.name) × (r.list ≡ self.new.list)) }
        ensures refused { OnErr result (self.new ≡ self.old) }
    {
        let Some(told) = self.writer.published().told.add(&self.head, &change) else {
            return Err(AllocError);
        };
        let receipt = told.again();
        if self.writer.append(Deed::Publish(change, told)).is_err() {
            return Err(AllocError);
        }
        replace_with(
            &mut self.writer,
            rt,
            |writer: TableWriter, rt: &R| -> (TableWriter, Result<(), AllocError>)
                requires { IsNext writer.desk.shown.value (drop writer.behind writer.log.items) }
                ensures ok { IsOk result.1 }
                ensures pending { drop result.0.behind result.0.log.items ≡ [] }
                ensures shown { result.0.desk.shown.value
                    ≡ fold done writer.desk.shown.value (drop writer.behind writer.log.items) }
                ensures known { known_by result.0.desk.place ≡ known_by writer.desk.place }
            { show(writer, rt) },
        )?;
        Ok(receipt)
    }

    /// A receipt of the list as it is published now.
    pub fn receipt(&mut self) -> Receipt
        ensures same { self.new ≡ self.old }
        ensures receipt { (result.name ≡ self.old.name) × (result.list ≡ self.old.list) }
    {
        self.writer.published().told.again()
    }

    /// Ends it. It waits for viewers that are inside. Nobody enters any more.
    pub fn end<R: Wait>(self, rt: &R) {
        let Self {
            writer,
            head: _head,
            alloc: _,
        } = self;
        drop(writer.take(rt));
    }
}
