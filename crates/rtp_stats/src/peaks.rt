//! The peaks of a payload's channels: L16 (RFC 3551 4.5) or L24 (RFC 3190 4).
ghost use Rattle.std.specs.Prelude.{◌≡◌, ℕ, ◌+◌, ◌%◌, ◌<◌, length, max, slice_index, EachIndex};
ghost use Rattle.rtp_stats.specs.Peaks.{peak_of};

use rtp_wire::{Enc, sample};

/// Returns the channel of the sample that follows a sample of this channel.
// Samples are interleaved. A comparison is cheaper than a division for each sample.
#[inline(always)]
fn channel_after(channel: usize, channels: usize) -> usize
    requires { channel < channels }
    ensures { (index : ℕ) → channel ≡ index % channels → result ≡ (index + 1) % channels }
{
    if channel + 1 < channels {
        channel + 1
    } else {
        0
    }
}

/// Raises each channel's peak to the greatest magnitude of its samples in a payload.
///
/// `octets` are the samples behind a datagram's header. There are as many channels as peaks. Full scale is 8,388,608
/// in both encodings.
pub fn raise_peaks(peaks: &mut [u32], enc: Enc, octets: &[u8])
    requires { 0 < length peaks.old }
    ensures { EachIndex peaks.new (λ channel. slice_index peaks.new channel
        ≡ max (slice_index peaks.old channel) (peak_of enc octets.now (length peaks.old) channel)) }
{
    let count = octets.len() / enc.octets();
    let mut channel = 0;
    for index in 0..count {
        let magnitude = sample(enc, octets, index).unsigned_abs();
        peaks[channel] = peaks[channel].max(magnitude);
        channel = channel_after(channel, peaks.len());
    }
}
