//! The status of a running studio: snapshots for its page, and count lines on standard error.
//!
//! 1. `open_page` binds the port of the page if one is asked for, and returns the `PageThread`, which
//!    serves the page from snapshots that come through a ring. `open_outputs` returns the
//!    `StatusOutputs`, which have the other end of the ring.
//! 2. A `StatusPublisher` knows the names and conditions of the streams. Once it `is_due`, its caller
//!    takes a `blank_snapshot`, fills in the numbers, and calls `publish`: that pushes the snapshot
//!    to the page and writes the count lines that are due.
//! 3. `fill_stream` and `fill_outputs` fill a snapshot from statistics. Workers send theirs; for a run
//!    in one thread, `EngineStatus` makes the same from an engine, and does step 2. `fill_health`
//!    fills in the state of sockets, of sends and of the run's outputs, from a `HealthSource`.
//!
//! `publish` also watches the streams: from the arrival margins of the last minute it shows the drift
//! of each path, and paths without a packet in time.
//!
//! A `Meter` measures the peaks of the mix if one thread sends it.
#![tactic(auto)]

mod count_lines;
mod engine_offers;
mod engine_status;
mod health;
mod lines;
mod meter;
mod page_thread;
mod publisher;
mod reception_watch;
mod signal_presence;
mod snapshot_fill;
mod status_outputs;
mod stream_status;

pub use engine_status::EngineStatus;
pub use health::{HealthSource, fill_health};
pub use lines::report::{SinkCounts, write_feed_faults, write_sink_counts};
pub use meter::Meter;
pub use page_thread::{PageFault, PageThread};
pub use publisher::StatusPublisher;
pub use snapshot_fill::{fill_outputs, fill_stream};
pub use status_outputs::{OpenPage, StatusInputs, StatusOutputs, open_outputs, open_page};
