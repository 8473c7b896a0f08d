//! Filling a snapshot with the statistics of a stream, of its paths and of the mix.
ghost use Rattle.std.specs.Prelude.{◌≡◌, Some, slice_index};
ghost use Rattle.live_status.specs.Copies.{IsTold, with_numbers};
ghost use Rattle.live_status.specs.Each.{AreEach};
ghost use Rattle.live_status.specs.FilledStreams.{FillsStream, HasCounts};
ghost use Rattle.live_status.specs.Outputs.{HasNumbers};

use rtp_stats::{MixStats, PathStats, StreamStats};
use rtp_stream::{Counts, PathCounts};
use status_page::{ChannelState, CopyCounts, PathState, StreamState};

/// Fills in a stream: its statistics, if there are any, and the counts of its paths' datagrams, as far as they are
/// known.
pub fn fill_stream(
    stats: &Option<StreamStats>,
    counts: &[Option<PathCounts>],
    stream: &mut StreamState,
)
    ensures { FillsStream stats.now counts.now stream.old stream.new }
{
    if let Some(own) = stats {
        fill_stats(own, stream);
    }
    fill_path_counts(counts, stream.paths.as_mut_slice());
}

/// Fills in the counts of a stream, and the copies and arrival margins of its paths.
fn fill_stats(stats: &StreamStats, stream: &mut StreamState)
    ensures counts { stream.new.counts ≡ stats.now.counts }
    ensures paths { AreEach (IsTold stats.now.counts stats.now.paths)
        stream.old.paths.items stream.new.paths.items }
    ensures rest { (stream.new.name ≡ stream.old.name) × (stream.new.condition ≡ stream.old.condition)
        × (stream.new.latency ≡ stream.old.latency) }
{
    stream.counts = stats.counts;
    fill_paths(stats, stream.paths.as_mut_slice());
}

/// Fills in each path.
fn fill_paths(stats: &StreamStats, paths: &mut [PathState])
    ensures { AreEach (IsTold stats.now.counts stats.now.paths) paths.old paths.new }
{
    for (place, path) in paths.iter_mut().enumerate() {
        fill_path(stats, place, path);
    }
}

/// Fills in the path at a place, if there are statistics for it.
fn fill_path(stats: &StreamStats, place: usize, path: &mut PathState)
    ensures { IsTold stats.now.counts stats.now.paths place path.old path.new }
{
    if let Some(of_path) = stats.paths.get(place) {
        path.first = first_at(&stats.counts, place);
        fill_copies(of_path, stats.counts.lost, path);
    }
}

/// Fills in the copies and arrival margins of a path from its statistics. `lost` is the number of packets that the
/// stream lost.
fn fill_copies(stats: &PathStats, lost: u64, state: &mut PathState)
    ensures { state.new ≡ with_numbers stats.now lost state.old }
{
    let tally = stats.tally;
    // A packet that the stream lost was taken from no path, so it counts as lost on each, also if it arrived there
    // after its deadline. `missed` has only packets that another path brought.
    state.copies = Some(CopyCounts {
        lost: tally.missed.saturating_add(lost),
        double: tally.double,
        unlike: tally.unlike,
        late: tally.late,
        ahead: tally.ahead,
        repeated: tally.repeated,
    });
    state.spare = stats.spare;
}

/// Returns the number of first copies that the path at a place brought.
fn first_at(counts: &Counts, place: usize) -> u64
    ensures { result ≡ slice_index counts.now.taken_by place }
{
    match counts.taken_by.get(place) {
        Some(first) => *first,
        None => 0,
    }
}

/// Fills in the counts of each path's datagrams before the merge.
fn fill_path_counts(counts: &[Option<PathCounts>], paths: &mut [PathState])
    ensures { AreEach (HasCounts counts.now) paths.old paths.new }
{
    for (place, path) in paths.iter_mut().enumerate() {
        fill_counts_at(counts, place, path);
    }
}

/// Fills in the counts of the datagrams of the path at a place, if they are known.
fn fill_counts_at(counts: &[Option<PathCounts>], place: usize, path: &mut PathState)
    ensures { HasCounts counts.now place path.old path.new }
{
    if let Some(Some(own)) = counts.get(place) {
        path.datagrams = own.offered;
        path.counts = Some(*own);
    }
}

/// Fills in the mix: each channel's peak and its number of saturated samples.
pub fn fill_outputs(stats: &MixStats, outputs: &mut [ChannelState])
    ensures { AreEach (HasNumbers stats.now) outputs.old outputs.new }
{
    for (channel, output) in outputs.iter_mut().enumerate() {
        fill_channel(stats, channel, output);
    }
}

/// Fills in the output channel at a place, if there are statistics for it.
fn fill_channel(stats: &MixStats, channel: usize, output: &mut ChannelState)
    ensures { HasNumbers stats.now channel output.old output.new }
{
    if let Some(peak) = stats.peaks.get(channel) {
        output.peak = *peak;
    }
    if let Some(count) = stats.saturated.get(channel) {
        output.saturated = *count;
    }
}
