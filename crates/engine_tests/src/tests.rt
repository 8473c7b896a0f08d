//! The tests of a studio.
//!
//! In reading order: `gains` has those of gains, `moving_gains` of gains that change while they are in use, `datagrams`
//! of outputs, `mixer` of a mixer, `lists` of a list of events, `players` of the report and the listing of a trace, and
//! `calls` and `deadlines` of an engine, whose calls `studios` makes.
mod calls;
mod datagrams;
mod deadlines;
mod gains;
mod lists;
mod mixer;
mod moving_gains;
mod players;
mod studios;
