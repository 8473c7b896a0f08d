//! The anchor: what the first packet of an epoch fixes, and the tests of later packets against it.
ghost use Rattle.std.specs.Prelude.{◌≡◌, ◌+◌, ◌<◌, ◌≤◌, ◌^◌, ℤ, pos, ◌≤ℤ◌, neg_ℤ};
ghost use Rattle.rtp_stream.specs.PacketRef.{packet_of};
ghost use Rattle.rtp_stream.specs.declared.stream_spec.Stream.{Stream};
ghost use Rattle.rtp_stream.specs.Anchor.{media_time_of, first_media_time, is_source_wanted, restart_media_time};
ghost use Rattle.rtp_stream.specs.Grid.{extended_number, is_on_grid};

use crate::extend::{near16, near32};
use crate::packet::PacketRef;
use crate::stream_spec::StreamClock;

/// An epoch's anchor: the extended sequence number, timestamp, media time and source of its first
/// packet (RFC 3550, A.1, `base_seq`).
#[derive(Clone, Copy, Debug)]
pub struct Anchor {
    /// The number of restarts before it.
    pub epoch: u64,
    /// The extended sequence number.
    pub number: u64,
    /// The timestamp, in sampling instants at 48 kHz.
    pub timestamp: u32,
    /// The media time, in sampling instants of the receiver's clock.
    pub media: i64,
    /// The synchronization source.
    pub source: u32,
}

impl Anchor {
    /// Returns the anchor of epoch 0, at this media time.
    pub fn first(seq: u16, timestamp: u32, source: u32, media: i64) -> Anchor
        ensures value { result ≡
            record { epoch = 0; number = 65536 + seq; timestamp = timestamp; media = media; source = source } }
        ensures seq { seq < 2 ^ 16 }
        ensures timestamp { timestamp < 2 ^ 32 }
    {
        Anchor::of_epoch(0, seq, timestamp, source, media)
    }

    /// Returns the anchor of the epoch after `epoch`, at this media time.
    pub fn following(epoch: u64, seq: u16, timestamp: u32, source: u32, media: i64) -> Anchor
        requires { epoch < 2 ^ 62 }
        ensures value { result ≡
            record { epoch = epoch + 1; number = 65536 + seq; timestamp = timestamp; media = media; source = source } }
        ensures seq { seq < 2 ^ 16 }
        ensures timestamp { timestamp < 2 ^ 32 }
    {
        Anchor::of_epoch(epoch + 1, seq, timestamp, source, media)
    }

    /// Returns the anchor of an epoch, at this media time.
    fn of_epoch(epoch: u64, seq: u16, timestamp: u32, source: u32, media: i64) -> Anchor
        ensures value { result ≡
            record { epoch = epoch; number = 65536 + seq; timestamp = timestamp; media = media; source = source } }
        ensures seq { seq < 2 ^ 16 }
        ensures timestamp { timestamp < 2 ^ 32 }
    {
        Anchor {
            epoch,
            // Numbers start in the second cycle of sequence numbers, so that none just before the anchor's is
            // below 0.
            number: 65_536 + u64::from(seq),
            timestamp,
            media,
            source,
        }
    }
}

/// Returns the extended sequence number of a packet, if `next` is the number due next.
pub fn number_of(packet: &PacketRef<'_>, next: u64) -> u64
    requires low { 32768 ≤ next }
    requires high { next ≤ 2 ^ 61 }
    ensures value { result ≡ extended_number (packet_of packet.now) next }
    ensures low { next ≤ result + 32768 }
    ensures high { result < next + 32768 }
{
    // The nearest to the number due next, instead of the steps of RFC 3550, A.1: so the number depends on the packet
    // and the time alone, not on which packets came before.
    near16(packet.seq, next as i64) as u64
}

/// Returns true if a timestamp is in step with the number of this media time.
pub fn is_in_step(anchor: &Anchor, media: i64, ts: u32) -> bool
    requires low { neg_ℤ (pos (2 ^ 62)) ≤ℤ media }
    requires high { media ≤ℤ pos (2 ^ 62) }
    requires anchor_low { neg_ℤ (pos (2 ^ 61)) ≤ℤ anchor.now.media }
    requires anchor_high { anchor.now.media ≤ℤ pos (2 ^ 61) }
    ensures { (stream : Stream) (number : _) → media ≡ media_time_of stream anchor.now number
        → result ≡ is_on_grid stream anchor.now number ts }
{
    (i64::from(anchor.timestamp) + (media - anchor.media)).rem_euclid(4_294_967_296)
        == i64::from(ts)
}

/// Returns true if a packet of this source may be the first of an epoch: `None` wants any source.
pub fn is_wanted_source(wanted: Option<u32>, source: u32) -> bool
    ensures { result ≡ is_source_wanted wanted source }
{
    match wanted {
        None => true,
        Some(ssrc) => source == ssrc,
    }
}

/// Returns the media time of a packet that would be the first of epoch 0, at this time.
pub fn media_of_first(clock: StreamClock, ts: u32, time: i64) -> i64
    requires low { pos 0 ≤ℤ time }
    requires high { time ≤ℤ pos (2 ^ 60) }
    ensures { result ≡ first_media_time clock ts time }
{
    match clock {
        StreamClock::Media { offset } => near32(ts.wrapping_sub(offset), time),
        StreamClock::Arrival | StreamClock::Follow => time,
    }
}

/// Returns the media time of a packet that would restart the stream, at this time; `due` is that of the number due
/// next.
pub fn media_of_restart(clock: StreamClock, ts: u32, time: i64, due: i64) -> i64
    requires low { pos 0 ≤ℤ time }
    requires high { time ≤ℤ pos (2 ^ 60) }
    ensures { result ≡ restart_media_time clock ts time due }
{
    let media = media_of_first(clock, ts, time);
    match clock {
        // The slots so far reach to `due`, and media time never goes back.
        StreamClock::Arrival | StreamClock::Follow if media <= due => due,
        _ => media,
    }
}
