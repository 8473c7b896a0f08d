//! The lines of a live run: `report` has those that only its report has, and `snapshot` those on standard error while
//! it goes on, whose texts are in `running` and `drift`.

pub(crate) mod drift;
pub(crate) mod report;
pub(crate) mod running;
pub(crate) mod snapshot;
