//! The latest statistics that the workers sent, refreshed from the receivers of paths, of streams and of the mix.
ghost use Rattle.std.specs.Prelude.{◌≡◌, None, replicate, IfOk, IsNone, IsSomeAnd, MatchOption};
ghost use Rattle.live_status.specs.Each.{AreEach};
ghost use Rattle.live_status.specs.Outputs.{HasNumbers};
ghost use Rattle.live_run.specs.LatestStats.{AreRefreshed, RefreshesMix, RefreshesPath, RefreshesStream, mix_last_of};
ghost use Rattle.live_run.specs.StreamStatus.{FillsEachStream};

use crate::workers::stream_status::fill_streams;
use live_status::fill_outputs;
use rtp_stats::{MixStats, MixStatsReceiver, PathCountsReceiver, StreamStats, StreamStatsReceiver};
use rtp_stream::PathCounts;
use status_page::Snapshot;
use std::alloc::{AllocError, Global};
use studio_ends::StatsReceivers;

/// The latest statistics that the workers sent; `None` for a worker that has sent none yet.
#[derive(Drop)]
pub(crate) struct LatestStats {
    /// The counts of each path, ordered by stream and then by path.
    paths: Vec<Option<PathCounts>>,
    /// The statistics of each stream.
    streams: Vec<Option<StreamStats>>,
    /// The statistics of the mix.
    mix: Option<MixStats>,
}

impl LatestStats {
    /// Returns statistics of this many paths and streams, all of them still unsent. Allocates all their memory, and
    /// returns `AllocError` if that fails.
    pub(crate) fn empty(
        alloc: Global,
        paths: usize,
        streams: usize,
    ) -> Result<LatestStats, AllocError>
        ensures paths { IfOk result (λ stats. stats.paths.items ≡ replicate paths None) }
        ensures streams { IfOk result (λ stats. stats.streams.items ≡ replicate streams None) }
        ensures mix { IfOk result (λ stats. IsNone stats.mix) }
    {
        Ok(LatestStats {
            paths: Vec::from_elem(alloc, None, paths)?,
            streams: Vec::from_elem(alloc, None, streams)?,
            mix: None,
        })
    }

    /// Refreshes all statistics from the receivers.
    pub(crate) fn refresh(&mut self, receivers: &mut StatsReceivers)
        ensures paths { AreRefreshed RefreshesPath receivers.old.paths.items receivers.new.paths.items
            self.old.paths.items self.new.paths.items }
        ensures streams { AreRefreshed RefreshesStream receivers.old.streams.items receivers.new.streams.items
            self.old.streams.items self.new.streams.items }
        ensures mix { MatchOption receivers.old.mix (IsNone receivers.new.mix × (self.new.mix ≡ self.old.mix))
            (λ old. IsSomeAnd receivers.new.mix (λ new. RefreshesMix old new self.old.mix self.new.mix)) }
    {
        refresh_paths(receivers.paths.as_mut_slice(), self.paths.as_mut_slice());
        refresh_streams(
            receivers.streams.as_mut_slice(),
            self.streams.as_mut_slice(),
        );
        refresh_mix(&mut receivers.mix, &mut self.mix);
    }

    /// Fills the statistics into a snapshot.
    pub(crate) fn fill(&self, snapshot: &mut Snapshot)
        ensures streams { AreEach
            (FillsEachStream self.now.streams.items self.now.paths.items snapshot.old.streams.items)
            snapshot.old.streams.items snapshot.new.streams.items }
        ensures outputs { MatchOption self.now.mix (snapshot.new.outputs ≡ snapshot.old.outputs)
            (λ stats. AreEach (HasNumbers stats) snapshot.old.outputs.items snapshot.new.outputs.items) }
    {
        if let Some(stats) = &self.mix {
            fill_outputs(stats, snapshot.outputs.as_mut_slice());
        }
        let streams = snapshot.streams.as_mut_slice();
        fill_streams(self.streams.as_slice(), self.paths.as_slice(), streams);
    }
}

/// Refreshes the counts of all paths from their receivers.
fn refresh_paths(receivers: &mut [PathCountsReceiver], counts: &mut [Option<PathCounts>])
    ensures { AreRefreshed RefreshesPath receivers.old receivers.new counts.old counts.new }
{
    for place in 0..receivers.len().min(counts.len()) {
        refresh_path(&mut receivers[place], &mut counts[place]);
    }
}

/// Refreshes the counts of a path from its receiver. They stay if it received none.
fn refresh_path(receiver: &mut PathCountsReceiver, counts: &mut Option<PathCounts>)
    ensures { RefreshesPath receiver.old receiver.new counts.old counts.new }
{
    if let Some(newest) = receiver.latest() {
        *counts = Some(newest);
    }
}

/// Refreshes the statistics of all streams from their receivers.
fn refresh_streams(receivers: &mut [StreamStatsReceiver], stats: &mut [Option<StreamStats>])
    ensures { AreRefreshed RefreshesStream receivers.old receivers.new stats.old stats.new }
{
    for place in 0..receivers.len().min(stats.len()) {
        refresh_stream(&mut receivers[place], &mut stats[place]);
    }
}

/// Refreshes the statistics of a stream from its receiver. They stay if it received none.
fn refresh_stream(receiver: &mut StreamStatsReceiver, stats: &mut Option<StreamStats>)
    ensures { RefreshesStream receiver.old receiver.new stats.old stats.new }
{
    if let Some(newest) = receiver.latest() {
        *stats = Some(newest);
    }
}

/// Refreshes the statistics of the mix from its receiver, if there is one.
fn refresh_mix(receiver: &mut Option<MixStatsReceiver>, stats: &mut Option<MixStats>)
    ensures { MatchOption receiver.old (IsNone receiver.new × (stats.new ≡ stats.old))
        (λ old. IsSomeAnd receiver.new (λ new. RefreshesMix old new stats.old stats.new)) }
{
    if let Some(receiver) = receiver {
        refresh_mixer(receiver, stats);
    }
}

/// Refreshes the statistics of the mix from its receiver. If it received none, the peaks are set to 0.
// Without new statistics no datagram was sent since the last ones, so there is nothing that a peak could be of.
fn refresh_mixer(receiver: &mut MixStatsReceiver, stats: &mut Option<MixStats>)
    ensures { RefreshesMix receiver.old receiver.new stats.old stats.new }
{
    match receiver.latest() {
        Some(newest) => *stats = Some(newest),
        None => clear_peaks(stats),
    }
}

/// Sets the peaks to 0.
fn clear_peaks(stats: &mut Option<MixStats>)
    ensures { stats.new ≡ mix_last_of None stats.old }
{
    if let Some(stats) = stats {
        stats.peaks = [0; 8];
    }
}
