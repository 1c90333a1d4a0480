/// Who calls a gate.
#[derive(Clone, Copy, Debug, PartialEq, Eq)]
pub enum Who {
    /// A lane, 1 to 3.
    Lane(u8),
    /// A worker, 1 to 8.
    Worker(u8),
}

/// When a gate is called.
#[derive(Clone, Copy, Debug, PartialEq, Eq)]
pub enum Point {
    /// A lane holds the book.
    Held,
    /// A worker has decided on a frame.
    Decided,
}

/// What the threads of a run call at certain points, so that somebody can see them there. It
/// promises nothing.
pub trait Gate: Sync {
    /// Called by this lane or worker.
    fn at(&self, who: Who, point: Point);
}

impl<G: Gate> Gate for &G {
    fn at(&self, who: Who, point: Point) {
        (**self).at(who, point);
    }
}

/// A gate at which nothing happens.
#[derive(Clone, Copy)]
pub struct NoGate;

impl Gate for NoGate {
    fn at(&self, _who: Who, _point: Point) {}
}
