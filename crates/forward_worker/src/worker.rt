//! A worker.
ghost use Rattle.std.specs.Prelude.{◌≡◌, ◌⊎◌, [], ◌∷◌, ◌++◌, List, true, IfOk, OnErr};
ghost use mathlib.Core.List.{IsPrefix};
ghost use Rattle.table_defs.specs.Table.{Change, Finish, changed_by, decide_table};
ghost use Rattle.auth_publish.specs.Changes.{front_of, finish_is_last};
ghost use Rattle.auth_table.specs.Meaning.{ForwardsTagged};
ghost use Rattle.auth_table.specs.Leaving.{leaving};

use arrayvec::ArrayVec;
use auth_publish::{Receipt, Viewer};
use auth_table::{decide, write_out};
use core::mem::replace_with;
use std::alloc::AllocError;
use std::marker::Model;
use switch_event::Decided;

/// One that decides on data frames. Contracts see the longest of the lists of changes that it
/// entered or learnt.
#[derive(Drop)]
pub struct Worker {
    viewer: Viewer,
}

impl Model for Worker {
    ghost use Rattle.auth_publish.specs.Feeds.{Feed};

    ghost Value = { Feed };

    ghost view = { λ w. w.viewer };
}

// A frame that came in on a port.
#[derive(Clone, Copy)]
struct Data<'a> {
    port: u8,
    frame: &'a [u8],
}

// Enters once, and decides by that view.
fn look(viewer: Viewer, data: Data<'_>) -> (Viewer, Result<Decided, AllocError>)
    ensures same { (result.0.name ≡ viewer.name) × (result.0.first ≡ viewer.first) }
    ensures begins { IfOk result.1 (λ d. IsPrefix viewer.list result.0.list) }
    ensures last { IfOk result.1 (λ d. finish_is_last result.0.list ≡ true) }
    ensures front { IfOk result.1 (λ d. d.front ≡ front_of result.0.list) }
    ensures decided { IfOk result.1 (λ d. d.decision
        ≡ decide_table (changed_by result.0.first result.0.list)
        data.entry.port data.entry.frame.now) }
    ensures vlan { IfOk result.1 (λ d. ForwardsTagged d.decision) }
    ensures refused { OnErr result.1 (result.0 ≡ viewer) }
{
    match viewer.enter() {
        Ok(view) => {
            let decided = Decided {
                front: view.front(),
                decision: decide(view.table(), data.port, data.frame),
            };
            (view.leave(), Ok(decided))
        }
        Err(viewer) => (viewer, Err(AllocError)),
    }
}

impl Worker {
    /// A worker that reads by this viewer.
    pub fn new(v: Viewer) -> Worker
        ensures { result ≡ v }
    {
        Worker { viewer: v }
    }

    /// Decides on a frame that came in on a port, by the table as it is published now, which is
    /// entered once; the list of that entry begins with each list that this worker entered before
    /// or learnt. The front is the number of control events that the list tells of. Where the frame
    /// is forwarded, `out` is replaced by the tagged frame, and else it is emptied. Where the entry
    /// is refused, which counts as want of memory, what was seen and learnt stands, and `out` is
    /// emptied. It takes no lock.
    pub fn forward(
        &mut self,
        port: u8,
        frame: &[u8],
        out: &mut ArrayVec<u8, 1522>,
    ) -> Result<Decided, AllocError>
        ensures same { (self.new.name ≡ self.old.name) × (self.new.first ≡ self.old.first) }
        ensures begins { IfOk result (λ d. IsPrefix self.old.list self.new.list) }
        ensures last { IfOk result (λ d. finish_is_last self.new.list ≡ true) }
        ensures front { IfOk result (λ d. d.front ≡ front_of self.new.list) }
        ensures decided { IfOk result (λ d. d.decision
            ≡ decide_table (changed_by self.new.first self.new.list) port frame.now) }
        ensures out { IfOk result (λ d. out.new.items ≡ leaving d.decision frame.now) }
        ensures refused { OnErr result ((self.new ≡ self.old) × (out.new.items ≡ [])) }
    {
        out.clear();
        let decided = self.look(Data { port, frame })?;
        write_out(decided.decision, frame, out);
        Ok(decided)
    }

    fn look(&mut self, data: Data<'_>) -> Result<Decided, AllocError>
        ensures same { (self.new.name ≡ self.old.name) × (self.new.first ≡ self.old.first) }
        ensures begins { IfOk result (λ d. IsPrefix self.old.list self.new.list) }
        ensures last { IfOk result (λ d. finish_is_last self.new.list ≡ true) }
        ensures front { IfOk result (λ d. d.front ≡ front_of self.new.list) }
        ensures decided { IfOk result (λ d. d.decision
            ≡ decide_table (changed_by self.new.first self.new.list)
            data.entry.port data.entry.frame.now) }
        ensures vlan { IfOk result (λ d. ForwardsTagged d.decision) }
        ensures refused { OnErr result (self.new ≡ self.old) }
    {
        replace_with(
            &mut self.viewer,
            data,
            |viewer: Viewer, data: Data<'_>| -> (Viewer, Result<Decided, AllocError>)
                ensures same { (result.0.name ≡ viewer.name) × (result.0.first ≡ viewer.first) }
                ensures begins { IfOk result.1 (λ d. IsPrefix viewer.list result.0.list) }
                ensures last { IfOk result.1 (λ d. finish_is_last result.0.list ≡ true) }
                ensures front { IfOk result.1 (λ d. d.front ≡ front_of result.0.list) }
                ensures decided { IfOk result.1 (λ d. d.decision
                    ≡ decide_table (changed_by result.0.first result.0.list)
                    data.entry.port data.entry.frame.now) }
                ensures vlan { IfOk result.1 (λ d. ForwardsTagged d.decision) }
                ensures refused { OnErr result.1 (result.0 ≡ viewer) }
            { look(viewer, data) },
        )
    }

    /// What it enters from now on begins with the receipt's list too, which is of the same
    /// publisher.
    pub fn learn(&mut self, r: Receipt)
        requires { r.name ≡ self.old.name }
        ensures same { (self.new.name ≡ self.old.name) × (self.new.first ≡ self.old.first) }
        ensures this { IsPrefix self.old.list self.new.list }
        ensures that { IsPrefix r.list self.new.list }
        ensures one { (self.new.list ≡ self.old.list) ⊎ (self.new.list ≡ r.list) }
    {
        replace_with(
            &mut self.viewer,
            r,
            |viewer: Viewer, r: Receipt| -> (Viewer, ())
                requires { r.name ≡ viewer.name }
                ensures same { (result.0.name ≡ viewer.name) × (result.0.first ≡ viewer.first) }
                ensures this { IsPrefix viewer.list result.0.list }
                ensures that { IsPrefix r.list result.0.list }
                ensures one { (result.0.list ≡ viewer.list) ⊎ (result.0.list ≡ r.list) }
            { (viewer.learn(r), ()) },
        );
    }

    /// Learns a receipt of the finished list, and enters once more: it then has exactly that list,
    /// with which each list that it entered before begins. The answer is the front, as of
    /// `forward`. `AllocError`: the entry was refused; then the receipt is learnt all the same, and
    /// what was seen stands.
    pub fn close(&mut self, r: Receipt) -> Result<u64, AllocError>
        requires own { r.name ≡ self.old.name }
        requires finished { (cs : List Change) × (r.list ≡ cs ++ Finish ∷ []) }
        ensures same { (self.new.name ≡ self.old.name) × (self.new.first ≡ self.old.first) }
        ensures this { IsPrefix self.old.list self.new.list }
        ensures that { IsPrefix r.list self.new.list }
        ensures all { IfOk result (λ n. self.new.list ≡ r.list) }
        ensures front { IfOk result (λ n. n ≡ front_of r.list) }
    {
        self.learn(r);
        let decided = self.look(Data {
            port: 0,
            frame: &[],
        })?;
        Ok(decided.front)
    }
}
