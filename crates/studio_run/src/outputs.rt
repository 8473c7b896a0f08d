//! The texts of a studio's run: `listing` has the lines of its marks, and `report` those of its datagrams and counts.

pub(crate) mod listing;
pub(crate) mod report;
