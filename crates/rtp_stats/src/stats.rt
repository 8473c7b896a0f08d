//! The statistics that the channels report: of a path, of a stream and of the mix.
ghost use Rattle.std.specs.Prelude.{◌≡◌, replicate, slice_index};
ghost use Rattle.rtp_stats.specs.Stats.{IsByChannel, no_stats};

use crate::arrival_margin::ArrivalMargin;
use crate::channel::mix_sender::MAX_CHANNELS;
use crate::path_tally::PathTally;
use rtp_stream::Counts;

/// The statistics of the packets of one path.
#[derive(Clone, Copy, PartialEq, Eq)]
pub struct PathStats {
    /// The packets by fate, and the numbers that the path missed.
    pub tally: PathTally,
    /// The arrival margins of the last whole second; `None` if no packet arrived in time then.
    pub spare: Option<ArrivalMargin>,
}

/// The statistics of a stream's packets, at one time of its merge.
#[derive(Clone, Copy)]
pub struct StreamStats {
    pub counts: Counts,
    /// The statistics of each path. A path that the stream does not have has counts of 0 and no arrival margin.
    pub paths: [PathStats; 4],
}

/// The saturated samples of the mix at one time, and its peaks since the statistics before these.
#[derive(Clone, Copy, PartialEq, Eq)]
pub struct MixStats {
    /// The number of saturated samples of each channel; 0 for a channel that the output does not have.
    pub saturated: [u64; MAX_CHANNELS],
    /// The greatest magnitude of each channel's samples since the statistics sent before these; 0 for a channel that
    /// the output does not have. Full scale is 8,388,608.
    pub peaks: [u32; MAX_CHANNELS],
}

/// The statistics of a path of which no packet was noted.
const NO_STATS: PathStats = PathStats {
    tally: PathTally {
        first: 0,
        double: 0,
        unlike: 0,
        late: 0,
        ahead: 0,
        repeated: 0,
        missed: 0,
    },
    spare: None,
};

impl StreamStats {
    /// Returns the statistics of a stream with these counts, of whose paths no packet was noted.
    pub fn of_counts(counts: Counts) -> StreamStats
        ensures counts { result.counts ≡ counts }
        ensures paths { result.paths ≡ replicate 4 no_stats }
    {
        StreamStats {
            counts,
            paths: [NO_STATS; 4],
        }
    }
}

impl MixStats {
    /// Returns the statistics of a mix with these counts of saturated samples and these peaks.
    pub fn new(saturated: &[u64], peaks: [u32; MAX_CHANNELS]) -> MixStats
        ensures counts { IsByChannel saturated.now result }
        ensures peaks { result.peaks ≡ peaks }
    {
        let mut counts = [0u64; MAX_CHANNELS];
        for channel in 0..MAX_CHANNELS {
            counts[channel] = count_at(saturated, channel);
        }
        MixStats {
            saturated: counts,
            peaks,
        }
    }
}

/// Returns the count of a channel; 0 if the output does not have it.
fn count_at(saturated: &[u64], channel: usize) -> u64
    ensures { result ≡ slice_index saturated.now channel }
{
    match saturated.get(channel) {
        Some(count) => *count,
        None => 0,
    }
}
