//! The devices that a run is given, the traits `Feed`, `Clock`, `Sink` and `GainSource`, its outputs, and its report.
//!
//! The caller of a run passes
//!
//! - a `Feed` for each path, which returns its datagrams;
//! - a `Clock`, or one for each stream if the run has a thread per stream;
//! - a `Sink`, which takes the datagrams of the mix, each with the block of which it was mixed;
//! - if gains are to change while it goes on, a `GainSource`, which it asks for changes; else
//!   `NoGains`.
//!
//! The run returns a `WorkReport`, or the `WorkFault` that says why it did not begin. `LiveOptions` has the
//! options of a run on real sockets.
//!
//! What a run writes next to the datagrams of its mix are its outputs, at most one of each `OutputKind`.
//! Each has an `OutputProgress`: the threads of the run set it, and any thread may read its
//! `OutputState`, with its counts and the reason if it ended before the run. `RunProgress` has that of
//! all kinds.
//!
//! A feed or a clock may state what it will return, and a sink what it was passed. The contracts of a
//! run are about feeds, clocks and sinks that do so. `MemoryFeed`, `MemoryClock` and `MemorySink` do.
#![tactic(auto)]

mod clock;
mod feed;
mod feed_state;
mod gain_source;
mod live_options;
mod memory_clock;
mod memory_feed;
mod memory_sink;
mod mixed_block;
mod output_kind;
mod output_progress;
mod output_state;
mod output_states;
mod report;
mod sink;

pub use clock::Clock;
pub use feed::{Feed, FeedAnswer};
pub use feed_state::FeedState;
pub use gain_source::{
    GainAction, GainAnswer, GainRequest, GainSource, MAX_GAINS, MAX_REQUESTS, NoGains, copy_gains,
};
pub use live_options::LiveOptions;
pub use memory_clock::MemoryClock;
pub use memory_feed::MemoryFeed;
pub use memory_sink::MemorySink;
pub use mixed_block::{Missing, MixedBlock};
pub use output_kind::{OUTPUT_KINDS, OutputKind};
pub use output_progress::{OutputProgress, RunProgress};
pub use output_state::{OutputCounts, OutputEnd, OutputState};
pub use output_states::OutputStates;
pub use report::{WorkFault, WorkReport};
pub use sink::{SendAnswer, SendCounts, Sink};
