//! The capacity of the rings between a run and the writers of its audio.
ghost use Rattle.std.specs.Prelude.{◌≡◌, ◌^◌, ◌≤◌, ℕ, Some, slice_get};
ghost use Rattle.rtp_stream.specs.declared.stream_spec.Stream.{Stream};
ghost use Rattle.live_audio.specs.RingOctets.{ring_octets_for};

use rtp_stream::StreamSpec;
use wav_file::WavFormat;

/// The least capacity, in octets: 1 MiB.
// Of mono in L16 this is eleven seconds: if the octets are few, there is more time for a slow device.
const LEAST_OCTETS: u64 = 1 << 20;

/// The sampling instants that the ring of a WAV file holds in addition to the streams' latency: thirty seconds.
// After a machine was held up, as by a suspension, a run mixes in one burst what came due meanwhile, faster than a disk
// takes it. Thirty seconds are also enough for a disk that takes time to start or to flush.
pub(crate) const WAV_SPARE: u32 = 1_440_000;

/// The sampling instants that the ring of raw PCM holds in addition to the streams' latency: two seconds.
// Its reader hears what is in the ring as a delay. After a hold-up it would stay late by all that the ring can hold.
pub(crate) const PCM_SPARE: u32 = 96_000;

/// Returns the number of octets that the ring of a studio's audio holds: of the greatest latency of its streams and
/// `spare` sampling instants more, but 1 MiB at least.
// At its end a run mixes in one burst what its streams still hold: their latency.
pub fn ring_octets(format: WavFormat, streams: &[StreamSpec], spare: u32) -> usize
    ensures all { (place : ℕ) (stream : Stream) → slice_get streams.now place ≡ Some stream
        → ring_octets_for spare format stream.latency ≤ result }
    ensures least { 2 ^ 20 ≤ result }
{
    let instants = u64::from(greatest_latency(streams)) + u64::from(spare);
    let octets = instants * u64::from(format.frame_len());
    octets.max(LEAST_OCTETS) as usize
}

/// Returns the greatest latency of these streams in sampling instants, or 0 without streams.
fn greatest_latency(streams: &[StreamSpec]) -> u32
    ensures { (place : ℕ) (stream : Stream) → slice_get streams.now place ≡ Some stream → stream.latency ≤ result }
{
    let mut greatest = 0;
    for number in 0..streams.len() {
        greatest = greater_of(greatest, streams[number].latency());
    }
    greatest
}

/// Returns the greater of two numbers.
fn greater_of(one: u32, other: u32) -> u32
    ensures one { one ≤ result }
    ensures other { other ≤ result }
{
    if one < other { other } else { one }
}
