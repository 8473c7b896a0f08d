//! Statistics of a stream's paths and of the mix: copies, misses, arrival margins and peaks, and the
//! channels that carry them to another thread.
//!
//! Begin with `CopyTracker`, one for each stream. `new` allocates. `note` takes each packet that was
//! offered to the merge of the stream, with its fate. `stats` returns the `PathStats` of a path at
//! any time. The tracker is made of two parts:
//!
//! - `Deadlines::deadline` returns the deadline of an offered packet, from its fate and timestamp,
//!   and `margin_before` returns how long before the deadline it came.
//! - `StreamTally` counts per path. `path` returns the counts, and `spare` the least, the median and
//!   the greatest arrival margin in the last whole second. A path has missed a number once the numbers of a whole
//!   window lie between it and a number that was taken, so `missed` is late by the length of a
//!   window.
//!
//! A `MarginMinute` keeps the margins of a path's seconds. `drift` returns how they change over a
//! minute: the sender's clock against the receiver's, and the time until its packets will be late or
//! too early.
//!
//! `raise_peaks` raises the peak of each channel to the samples of a payload. Whoever shows peaks
//! sets them to 0 again.
//!
//! A channel carries the newest statistics through a ring to another thread, at most ten times a
//! second. No end waits: if the ring has no space, nothing is sent, and a later value takes its place.
//! `stream_stats_channel` makes one for the statistics of a stream, `path_counts_channel` for the
//! datagrams of a path before the merge, and `mix_stats_channel` for the saturated samples and peaks
//! of the mix. Only `new` and these three calls allocate.
#![tactic(auto)]

mod arrival_margin;
mod channel;
mod copy_tracker;
mod deadlines;
mod drift;
mod laws;
mod path_tally;
mod peaks;
mod stats;
mod tally;

pub use arrival_margin::ArrivalMargin;
pub use channel::mix::{MixStatsReceiver, mix_stats_channel};
pub use channel::mix_sender::{MAX_CHANNELS, MixStatsSender};
pub use channel::path::{PathCountsReceiver, PathCountsSender, path_counts_channel};
pub use channel::stream::{StreamStatsReceiver, StreamStatsSender, stream_stats_channel};
pub use copy_tracker::CopyTracker;
pub use deadlines::{Deadlines, margin_before};
pub use drift::{Drift, MarginMinute};
pub use laws::{a_path_misses_what_it_gives_up, each_number_is_first_on_one_path};
pub use path_tally::PathTally;
pub use peaks::raise_peaks;
pub use stats::{MixStats, PathStats, StreamStats};
pub use tally::StreamTally;
pub use tally::margins::second_of;
