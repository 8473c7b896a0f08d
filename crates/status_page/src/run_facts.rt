//! The facts of a run that are known when its page is opened, and the run as its page shows it.

use crate::snapshot::Snapshot;

/// The facts of a run that stay the same to its end.
#[derive(Clone, Copy)]
pub struct RunFacts {
    /// The version of the program that runs.
    pub version: &'static str,
    /// The time at which the run opened, in seconds since 1970 (Unix time). `None` if the clock could not be read.
    pub started: Option<u64>,
}

/// The run that a page shows.
#[derive(Drop)]
pub(crate) struct ShownRun {
    pub(crate) facts: RunFacts,
    /// The newest snapshot.
    pub(crate) snapshot: Snapshot,
}
