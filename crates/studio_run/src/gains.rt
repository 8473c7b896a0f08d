//! The changes of gains that the lines of a text specify, put into the schedule of a studio. `field` reads the fields
//! of a line, `line` the change that it specifies, and `studio` all lines. `change` makes changed matrices and
//! schedules.

pub(crate) mod change;
pub(crate) mod fault;
pub(crate) mod field;
pub(crate) mod laws;
pub(crate) mod line;
pub(crate) mod studio;
