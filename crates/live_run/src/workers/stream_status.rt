//! Filling a snapshot's streams with the statistics that the workers sent.
ghost use Rattle.std.specs.Prelude.{◌≡◌, drop};
ghost use Rattle.live_status.specs.Each.{AreEach};
ghost use Rattle.live_run.specs.StreamStatus.{FillsEachStream, FillsStreamAt};

use live_status::fill_stream;
use rtp_stats::StreamStats;
use rtp_stream::PathCounts;
use status_page::StreamState;

/// Fills in each stream and each path. `counts` has the counts of all paths, ordered by stream and then by path.
pub(crate) fn fill_streams(
    stats: &[Option<StreamStats>],
    counts: &[Option<PathCounts>],
    streams: &mut [StreamState],
)
    ensures { AreEach (FillsEachStream stats.now counts.now streams.old) streams.old streams.new }
{
    let mut left = counts;
    for (number, stream) in streams.iter_mut().enumerate() {
        let paths = stream.paths.len();
        fill_stream_at(stats, number, left, stream);
        left = counts_past(left, paths);
    }
}

/// Fills in the stream at a place, if there is a place for its statistics. `counts` starts with those of its paths.
fn fill_stream_at(
    stats: &[Option<StreamStats>],
    place: usize,
    counts: &[Option<PathCounts>],
    stream: &mut StreamState,
)
    ensures { FillsStreamAt stats.now place counts.now stream.old stream.new }
{
    if let Some(own) = stats.get(place) {
        fill_stream(own, counts, stream);
    }
}

/// Returns the counts behind the counts of the first `paths` paths.
fn counts_past(counts: &[Option<PathCounts>], paths: usize) -> &[Option<PathCounts>]
    ensures { result.now ≡ drop paths counts.now }
{
    if paths <= counts.len() {
        &counts[paths..]
    } else {
        &[]
    }
}
