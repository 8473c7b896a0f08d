//! The goal up to which a merge returns its marks.

/// The goal up to which marks are taken.
#[derive(Clone, Copy, Debug)]
pub enum Goal {
    /// A reading of the clock, in sampling instants, of a merge that is open.
    Tick(i64),
    /// The end, after a close.
    End,
}
