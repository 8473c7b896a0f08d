//! The channels that report the statistics of a studio's ends, opened together with the ends.
ghost use Rattle.std.specs.Prelude.{◌≡◌, [], IfOk};
ghost use Rattle.studio_ends.specs.OpenedChannels.{HaveChannels, OpensMix, OpensPath, OpensStream};
ghost use Rattle.studio_ends.specs.Stats.{Measures};

use mix_packets::OutSpec;
use rtp_stats::{
    MixStatsReceiver, MixStatsSender, PathCountsReceiver, PathCountsSender, StreamStatsReceiver,
    StreamStatsSender, mix_stats_channel, path_counts_channel, stream_stats_channel,
};
use rtp_stream::StreamSpec;
use std::alloc::{AllocError, Global};

/// The receivers of a studio's statistics: the datagrams of each path before the merge, ordered by stream and then by
/// path; the packets of each stream's merge; and the mix.
#[derive(Drop)]
pub struct StatsReceivers {
    pub paths: Vec<PathCountsReceiver>,
    pub streams: Vec<StreamStatsReceiver>,
    /// `None` until the mixer's end is opened, which is the last. `open_with_stats` always sets it.
    pub mix: Option<MixStatsReceiver>,
}

/// The receivers that were opened so far. Without statistics it opens none.
#[derive(Drop)]
pub(crate) struct StatsChannels {
    pub(crate) receivers: StatsReceivers,
    are_wanted: bool,
}

impl StatsChannels {
    /// Returns channels, none of them open yet. If they are not wanted, none is ever opened.
    pub(crate) fn new(alloc: Global, are_wanted: bool) -> StatsChannels
        ensures wanted { result.are_wanted ≡ are_wanted }
        ensures none { HaveChannels [] [] result }
    {
        StatsChannels {
            receivers: StatsReceivers {
                paths: Vec::new(alloc),
                streams: Vec::new(alloc),
                mix: None,
            },
            are_wanted,
        }
    }

    /// Opens the next path's channel and returns its sender; `None` if statistics are not wanted.
    pub(crate) fn path_channel(
        &mut self,
        alloc: Global,
    ) -> Result<Option<PathCountsSender>, AllocError>
        ensures { IfOk result (λ sender. OpensPath self.old sender self.new) }
    {
        if !self.are_wanted {
            return Ok(None);
        }
        let (sender, receiver) = path_counts_channel(alloc)?;
        self.receivers.paths.push(receiver)?;
        Ok(Some(sender))
    }

    /// Opens the next stream's channel and returns its sender; `None` if statistics are not wanted.
    pub(crate) fn stream_channel(
        &mut self,
        alloc: Global,
        spec: &StreamSpec,
    ) -> Result<Option<StreamStatsSender>, AllocError>
        ensures { IfOk result (λ sender. OpensStream spec.now self.old sender self.new) }
    {
        if !self.are_wanted {
            return Ok(None);
        }
        let (sender, receiver) = stream_stats_channel(alloc, spec)?;
        self.receivers.streams.push(receiver)?;
        Ok(Some(sender))
    }

    /// Opens the mixer's channel for this output and returns its sender; `None` if statistics are not wanted.
    pub(crate) fn mix_channel(
        &mut self,
        alloc: Global,
        output: &OutSpec,
    ) -> Result<Option<MixStatsSender>, AllocError>
        ensures opened { IfOk result (λ sender. OpensMix self.old sender self.new) }
        ensures measures { IfOk result (λ sender. Measures sender output.now) }
    {
        if !self.are_wanted {
            return Ok(None);
        }
        let (sender, receiver) = mix_stats_channel(alloc, output.enc(), output.channels())?;
        self.receivers.mix = Some(receiver);
        Ok(Some(sender))
    }
}
