//! The clock of an output.

/// The clock by which an output begins its blocks and counts them.
#[derive(Clone, Copy, Debug, PartialEq, Eq)]
pub enum OutputClock {
    /// The clock of the run: the first block begins at the start, which moves with the opening.
    Run,
    /// The media clock: the block at a media time has one number, whenever the studio opens. The first block is the
    /// first that begins at the opening or after it.
    Media,
}
