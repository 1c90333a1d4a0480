ghost use Rattle.std.specs.Prelude.{List, ℕ, Option, IfOk};
ghost use Rattle.std.specs.Io.{ReadsAtMost, WritesAtMost};
ghost use Rattle.std.specs.Io.KnownBytes.{ReadConsumes, WriteAppends};
ghost use Rattle.wire_defs.specs.Outside.{HasCause, TakesSome};
ghost use Rattle.outside_core.specs.Lines.{StopsAtFeed};

/// A call on an object of the outside failed.
#[derive(Clone, Copy, Debug, PartialEq, Eq)]
pub struct Failed;

/// Where octets come from.
pub trait Source {
    /// The octets that are left, where the source tells them.
    ghost left: { Self → Option (List ℕ) };

    /// How often it has failed. The count stays at 18,446,744,073,709,551,615.
    ghost faults: { Self → ℕ };

    /// Moves the first octets that are left into `buf`, and answers how many: at most the length of
    /// `buf`, and for a `buf` that is not empty 0 exactly at the end of input. After [`Failed`],
    /// which comes only where the count of faults rose, as much is left as before.
    fn read(&mut self, buf: &mut [u8]) -> Result<usize, Failed>
        ensures bound { ReadsAtMost result buf.new }
        ensures octets { ReadConsumes (left self.old) (left self.new) result buf.new }
        ensures cause { HasCause (faults self.old) (faults self.new) result };

    /// Reads as [`Source::read`] does, and not beyond the first line feed: where the octets that it
    /// moved have one, it is their last.
    fn read_line(&mut self, buf: &mut [u8]) -> Result<usize, Failed>
        ensures bound { ReadsAtMost result buf.new }
        ensures octets { ReadConsumes (left self.old) (left self.new) result buf.new }
        ensures cause { HasCause (faults self.old) (faults self.new) result }
        ensures line { IfOk result (λ n. StopsAtFeed n buf.new) };
}

/// Where octets go.
pub trait Sink {
    /// The octets that were taken, where the sink tells them.
    ghost taken: { Self → Option (List ℕ) };

    /// How often it has failed. The count stays at 18,446,744,073,709,551,615.
    ghost faults: { Self → ℕ };

    /// Takes the first octets of `piece`, and answers how many: at most its length, and 0 for a
    /// `piece` that is not empty only where the count of faults rose. After [`Failed`], which comes
    /// only where the count rose, nothing more was taken.
    fn write(&mut self, piece: &[u8]) -> Result<usize, Failed>
        ensures bound { WritesAtMost result piece.now }
        ensures octets { WriteAppends (taken self.old) (taken self.new) result piece.now }
        ensures some { TakesSome (faults self.old) (faults self.new) result piece.now }
        ensures cause { HasCause (faults self.old) (faults self.new) result };
}
