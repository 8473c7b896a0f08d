//! The texts of a studio: traces and changes of gains are read, and listings and reports are written.
//!
//! `list_marks` and `play` are the whole, from the octets of a reader to those of a writer. They read
//! to the end, find the first fault and allocate everything before the first write.
//! `list_marks_and_counts` also writes the counts, to a second writer, after the listing.
//!
//! Their parts are exported for other commands:
//!
//! - `read_octets` and `read_all` read the octets of a trace; `read_trace` returns its events.
//! - `TracedEvents` and `runnable_events` return the events of a text by index.
//! - `write_mark`, `write_datagram` and the like write one line each to a `TextBuffer`, whose
//!   `finish` writes what it still holds. `push_count` and `push_tally` add the parts of other lines.
//!
//! `studio_with_gains` returns a studio whose gains change as the lines of a text say, or the first fault
//! of the text. The studio is for a run offline, as `play` makes it: it has the streams, the output and the
//! opening time of the studio that is passed, and no ports or addresses.
//!
//! This crate also exports the types of a studio and of its run.
#![tactic(auto)]

mod gains;
mod laws;
mod lines;
mod outputs;
mod player;
mod text_buffer;
mod text_field;
mod text_io;
mod trace;

pub use gains::fault::{GainsFault, GainsFaultKind};
pub use gains::laws::{a_change_is_in_force_from_its_time_on, one_gain_changes_alone};
pub use gains::studio::studio_with_gains;
pub use laws::{a_report_is_the_only_one, events_have_a_report};
pub use lines::counts::{
    push_count, push_tally, write_datagram, write_merge_counts, write_path_counts,
};
pub use lines::instants::millis;
pub use outputs::listing::{list_marks_and_counts, write_whole_listing};
pub use outputs::report::write_counts;
pub use player::{PlayFault, list_marks, play, read_all, runnable_events};
pub use rtp_stream::{PathCounts, StreamCounts};
pub use studio_config::{ConfigTable, Key, SpecError, SpecErrorKind, StudioSpec};
pub use studio_mix::Mixer;
pub use studio_session::{Report, StudioEvent, StudioFault, run_studio};
pub use text_buffer::TextBuffer;
pub use text_io::{ReadFault, WriteFault, read_octets, write_text};
pub use trace::events::read_trace;
pub use trace::fault::{TraceFault, TraceFaultKind};
pub use trace::text_events::TracedEvents;
