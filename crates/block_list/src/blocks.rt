ghost use Rattle.std.specs.Prelude.{◌≡◌, ◌≤◌, ◌<◌, ◌^◌, ◌++◌, ◌∷◌, [], length, slice_get, slice_range, Some, OnOk, OnErr};
ghost use Rattle.trace_defs.specs.Output as output;
ghost use Rattle.legal_defs.specs.Blocks.{Shown, forwards_one};
ghost use Rattle.block_list.specs.Marks.{shown, one_if};

use out_tray::Tray;
use std::alloc::{AllocError, Global};
use std::marker::Model;
use switch_event::{Decided, Decision, Outcome};
use trace_print::{print_control, print_data};

// Where a block stands in the text, the number that it shows beside its record's, and whether it
// says that a frame is forwarded.
#[derive(Clone, Copy)]
struct Mark {
    count: u64,
    start: usize,
    end: usize,
    forwards: bool,
}

/// A block of a list.
#[derive(Clone, Copy)]
pub struct Block<'a> {
    /// Its lines.
    pub text: &'a [u8],
    /// Whether it says that a frame is forwarded.
    pub forwards: bool,
}

/// Blocks, in the order in which they were added. Contracts see for each its text, the number that
/// it shows beside that of its record, which is the serial of a control record and the front of a
/// data record, and how many frames it says are forwarded.
#[derive(Drop)]
pub struct Blocks {
    marks: Vec<Mark>,
    text: Vec<u8>,
}

impl Model for Blocks {
    ghost use Rattle.std.specs.Prelude.{List, map, length};
    ghost use Rattle.legal_defs.specs.Blocks.{Shown};
    ghost use Rattle.block_list.specs.Marks.{shown, AreWithin};

    ghost Value = { List Shown };

    ghost view = { λ b. map (shown b.text.items) b.marks.items };

    ghost invariant = { λ b. AreWithin (length b.text.items) b.marks.items };
}

impl Blocks {
    /// No blocks, in no memory yet.
    pub fn new(alloc: Global) -> Blocks
        ensures { result ≡ [] }
    {
        Blocks {
            marks: Vec::new(alloc),
            text: Vec::new(alloc),
        }
    }

    /// Takes all blocks out, and keeps the memory.
    pub fn clear(&mut self)
        ensures { self.new ≡ [] }
    {
        self.marks.clear();
        self.text.clear();
    }

    /// Adds the block of a control record of this number, which ran on a lane, 1 to 3, as the entry
    /// of this serial. `AllocError`: there is no memory, and the blocks are as before.
    pub fn add_control(
        &mut self,
        number: u64,
        lane: u8,
        serial: u64,
        outcome: &Outcome,
        tray: &Tray,
    ) -> Result<(), AllocError>
        requires lane { (1 ≤ lane) × (lane ≤ 3) }
        ensures added { OnOk result (self.new ≡ self.old ++ record {
          count = serial;
          text = output.control_block number lane serial outcome.now tray.now.items;
          forwards = 0;
        } ∷ []) }
        ensures kept { OnErr result (self.new ≡ self.old) }
    {
        let start = self.text.len();
        print_control(number, lane, serial, outcome, tray, &mut self.text)?;
        let end = self.text.len();
        self.marks.push(Mark {
            count: serial,
            start,
            end,
            forwards: false,
        })?;
        Ok(())
    }

    /// Adds the block of a data record of this number, with the frame that goes out. `AllocError`:
    /// there is no memory, and the blocks are as before.
    pub fn add_data(
        &mut self,
        number: u64,
        decided: &Decided,
        tagged: &[u8],
    ) -> Result<(), AllocError>
        ensures added { OnOk result (self.new ≡ self.old ++ record {
          count = decided.now.front;
          text = output.data_line number decided.now.front decided.now.decision tagged.now;
          forwards = forwards_one decided.now.decision;
        } ∷ []) }
        ensures kept { OnErr result (self.new ≡ self.old) }
    {
        let start = self.text.len();
        print_data(number, decided, tagged, &mut self.text)?;
        let end = self.text.len();
        self.marks.push(Mark {
            count: decided.front,
            start,
            end,
            forwards: is_forward(&decided.decision),
        })?;
        Ok(())
    }

    /// A block, which there is.
    pub fn block(&self, i: usize) -> Block<'_>
        requires { i < length self.now }
        ensures block { (s : Shown) × (slice_get self.now i ≡ Some s)
            × (result.text.now ≡ s.text) × (one_if result.forwards ≡ s.forwards) }
        ensures few { i < 2 ^ 63 }
    {
        let mark = mark_at(&self.marks, i);
        Block {
            text: part(&self.text, mark.start, mark.end),
            forwards: mark.forwards,
        }
    }
}

fn is_forward(decision: &Decision) -> bool
    ensures { one_if result ≡ forwards_one decision.now }
{
    match decision {
        Decision::Forward {
            session: _,
            vlan: _,
        } => true,
        Decision::Drop(_) => false,
    }
}

fn mark_at(marks: &[Mark], i: usize) -> Mark
    requires { i < length marks.now }
    ensures mark { slice_get marks.now i ≡ Some result }
    ensures few { i < 2 ^ 63 }
{
    marks[i]
}

fn part(octets: &[u8], start: usize, end: usize) -> &[u8]
    requires rises { start ≤ end }
    requires within { end ≤ length octets.now }
    ensures { result.now ≡ slice_range octets.now start end }
{
    &octets[start..end]
}
