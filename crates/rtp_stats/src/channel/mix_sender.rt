//! The sending end of the channel of the mix, as a struct.
ghost use Rattle.std.specs.Prelude.{◌≤◌};

use crate::stats::MixStats;
use rtp_wire::Enc;
use rtrb::Producer;

/// The most output channels whose saturated samples and peaks are reported.
pub const MAX_CHANNELS: usize = 8;

/// The sender of the statistics of the mix: the saturated samples and the peak of each channel.
#[derive(Drop)]
pub struct MixStatsSender {
    pub(crate) enc: Enc,
    pub(crate) channels: usize,
    /// The peak of each channel since the last statistics that were sent.
    pub(crate) peaks: [u32; MAX_CHANNELS],
    pub(crate) ring: Producer<MixStats>,
    ghost few: { channels ≤ 8 },
}
