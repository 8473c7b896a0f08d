//! The faults of a text of gains.
ghost use Rattle.std.specs.Prelude.{◌≡◌};
ghost use Rattle.studio_run.specs.declared.gains.fault.GainsFaultKind.TheVariants as kind;

use std::alloc::AllocError;
use thiserror::Error;

/// The fault of a line: the first of these that holds. Its text is the kind's word.
#[derive(Clone, Copy, Debug, PartialEq, Eq, Error)]
pub enum GainsFaultKind {
    /// The text ends before the line's line feed.
    #[error("cut")]
    Cut,
    /// The first field is neither `gain` nor `gains`.
    #[error("word")]
    Word,
    /// The line has too few or too many fields for its word.
    #[error("fields")]
    Fields,
    /// A field is no whole number of 64 bits.
    #[error("number")]
    Number,
    /// The time is not from 0 to 2^60, there is no such output or input, or a gain is not from -1,048,576 to 1,048,576.
    #[error("range")]
    Range,
    /// The time is before that of the change in the lines before.
    #[error("order")]
    Order,
    /// There are 64 changes before the time, as many as a schedule has.
    #[error("toomany")]
    TooMany,
    /// An allocation failed.
    #[error("memory")]
    Memory,
}

impl From<AllocError> for GainsFaultKind {
    ghost from_gives = { λ _ to. to ≡ kind.Memory };

    fn from(_error: AllocError) -> GainsFaultKind {
        GainsFaultKind::Memory
    }
}

/// The first fault of a text of gains.
#[derive(Clone, Copy, Debug, PartialEq, Eq, Error)]
#[error("gains line {line}: {kind}")]
pub struct GainsFault {
    /// The number of the line, counted from 1. It says nothing if an allocation failed.
    pub line: usize,
    pub kind: GainsFaultKind,
}
