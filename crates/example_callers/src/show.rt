//! A call of each caller, which prints what it returned.

mod datagram_text;
mod engine;
mod mix;
mod receive;
mod report;
mod run;

pub(crate) use engine::show_engine;
pub(crate) use mix::show_mix;
pub(crate) use receive::show_receive;
pub(crate) use report::show_report;
pub(crate) use run::show_run;
