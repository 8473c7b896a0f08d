//! The ends of a studio's rings: one per path, per stream and for the mixer, each for a thread of its
//! own.
//!
//! `open` allocates and returns the ends; `open_with_stats` also returns `StatsReceivers`, which
//! receive the statistics of paths and mix. No call of an end allocates or waits.
//!
//! - **`PathEnd`**: `offer` takes each datagram. `finish` ends the path and returns its token, a
//!   `PathDone`.
//! - **`StreamEnd`**: `turn` takes a clock reading, moves packets to the merge and marks to the
//!   mixer. By the arrival clock, call `read_clock` before the first `turn`: its reading is the time
//!   of the first packet. At the end: `path_done` with the token of each path; `close` until it
//!   returns `Ok`, with a `turn` in between; `drain_turn` until it returns `true`; `finish`, which
//!   returns the token of the stream, a `StreamDone`.
//! - **`MixEnd`**: `turn` writes the next datagram if its block is ready. At the end: `stream_done`
//!   with the token of each stream, then `turn` until `settled` returns `true` and a turn writes
//!   nothing.
//! - **`MonitorEnd`**: `next` returns the counts of a stream's turns.
//!
//! The caller makes sure that a token goes to the ends it was opened with. `run_workers` of
//! `studio_rings` makes all these calls in threads.
#![tactic(auto)]

mod ends;
mod mix_end;
mod monitor_end;
mod path_end;
mod rings;
mod stats_channels;
mod stream_end;

pub use ends::{Ends, OpenFault, open, open_with_stats};
pub use mix_end::{MixEnd, MixNote};
pub use monitor_end::MonitorEnd;
pub use path_end::{Offer, PathDone, PathEnd};
pub use rtp_stream::PathCounts;
pub use stats_channels::StatsReceivers;
pub use stream_end::StreamEnd;
pub use stream_end::marks_out::{StopReason, TurnNote};
pub use stream_end::turns::{PathsOpen, StreamDone};
