ghost use Rattle.std.specs.Prelude.{List, ℕ, Option};
ghost use Rattle.outside_link.specs.Clock.{Tells};

/// What time it is.
pub trait Clock {
    /// The moments that it has yet to answer, where it tells them.
    ghost moments: { Self → Option (List ℕ) };

    /// The moment, in seconds since 1970. The last one of the moments is repeated; without one it is
    /// 0.
    fn now(&mut self) -> u64
        ensures told { Tells (moments self.old) (moments self.new) result };
}
