//! The lines that a run writes: `mark` has those of a listing, and `counts` those of a report. `instants` has sampling
//! instants in milliseconds, as lines for people show them.

pub(crate) mod counts;
pub(crate) mod instants;
pub(crate) mod mark;
