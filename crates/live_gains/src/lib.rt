//! The control of a live run's gains: a page in one thread requests changes, and the run answers them in another.
//!
//! `open_control` returns both ends of a channel if there is a `Token` for it: the `Control` that the
//! page has, with its `PageRequester`, and `RunGains`, the `GainSource` of the run. `GainChannel::new`
//! makes the two ends alone.
//!
//! With `GainNotes`, the page's end is a `NotingRequester`, which notes each change that the run takes.
//! A keeper of the gains reads the notes as a text, by which a later run begins with these gains:
//! `GainState` has the gains, and `kept_text` writes the text.
//!
//! The ends pass messages to each other through two rings of one place, and share a `GainLink`, by
//! which either the run takes a request or the page withdraws it.
#![tactic(auto)]

mod gain_channel;
mod gain_control;
mod gain_notes;
mod gain_state;
mod kept_text;
mod link;
mod messages;
mod noting_requester;
mod page_requester;
mod planned;
mod run_gains;

pub use gain_control::{GainControl, open_control};
pub use gain_notes::GainNotes;
pub use kept_text::KEPT_LINE;
pub use link::GainLink;
pub use noting_requester::NotingRequester;
pub use page_requester::PageRequester;
pub use run_gains::RunGains;
