//! Runs a studio in threads: one worker per path, one per stream and one for the mixer.
//!
//! 1. `studio_ends::open` returns the ends of the rings. Take the monitors' ends out of them if
//!    counts are to be read during the run.
//! 2. `run_workers` takes the ends, a `Feed` for each path, stream by stream and path by path, a
//!    `Clock` for each stream, and a `Sink`. It returns once every feed has ended and every datagram
//!    was sent, with a `WorkReport` and the sink. To change gains during the run, put
//!    the feeds, the clocks and the sink with a `GainSource` into `WorkerDevices`, and call its `run`.
//!
//! If the report is `settled`, the sink was passed the datagrams of exactly the ready blocks, of the
//! studio with the changes of gains that were taken.
//!
//! Each worker is also a function or type of its own, for callers that start threads themselves:
//!
//! - `run_path` offers what a feed returns until the feed ends, and returns the token of the path's
//!   ring.
//! - `ClockedStream` is the end of a stream with its clock. `turn` goes to the greatest clock reading
//!   so far, and `try_close` closes the stream once everything that its paths sent was taken.
//! - `run_mixer` passes each datagram of the mixer to the sink, and `run_mixer_with_gains` also asks
//!   a `GainSource`. `MixEnd::answer_request` answers one request. `is_settled_with` returns whether
//!   everything that the streams' tokens report reached the mixer.
//!
//! This crate also exports the ends of the rings, and the devices and the report of a run.
#![tactic(auto)]

mod jobs;
mod path_threads;
mod results;
mod run;
mod stream_threads;
mod tokens;
mod worker;

pub use run::{WorkerDevices, run_workers};
pub use studio_ends::{
    Ends, MixEnd, MixNote, MonitorEnd, Offer, OpenFault, PathCounts, PathDone, PathEnd, PathsOpen,
    StatsReceivers, StopReason, StreamDone, StreamEnd, TurnNote, open, open_with_stats,
};
pub use studio_io::{
    Clock, Feed, FeedAnswer, GainAction, GainAnswer, GainRequest, GainSource, NoGains, SendAnswer,
    SendCounts, Sink, WorkFault, WorkReport,
};
pub use tokens::is_settled_with;
pub use worker::clocked_stream::ClockedStream;
pub use worker::mixer::{MixResult, run_mixer};
