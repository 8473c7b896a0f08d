//! The capacity that a lane needs for marks that come before a block wants them.
ghost use Rattle.std.specs.Prelude.{◌≡◌, ◌+◌, ◌^◌, ◌≤◌};
ghost use Rattle.studio_mix.specs.LaneCapacity as capacity;

use rtp_stream::StreamSpec;

/// Returns the frames by which the marks of a stream may be behind the time: its latency plus a window of packets.
fn lag_of(stream: &StreamSpec) -> u32
    ensures value { result ≡ capacity.lag_of stream.now }
    ensures short { result ≤ 2 ^ 23 }
{
    stream.latency() + u32::from(stream.window()) * u32::from(stream.frames())
}

/// Returns the greatest lag of the streams, in frames.
pub(crate) fn greatest_lag(streams: &[StreamSpec]) -> u32
    ensures value { result ≡ capacity.greatest_lag streams.now }
    ensures short { result ≤ 2 ^ 23 }
{
    let mut greatest = 0;
    for stream in streams {
        greatest = lag_of(stream).max(greatest);
    }
    greatest
}

/// Returns the number of frames that a stream's lane has to hold next to a stream of this lag.
pub(crate) fn capacity_for(stream: &StreamSpec, block: u16, lag: u32) -> u32
    requires short { lag ≤ 2 ^ 23 }
    requires block { block ≤ 192 }
    ensures value { result ≡ capacity.capacity_for lag block stream.now }
    ensures enough { block + stream.now.frames ≤ result }
    ensures few { result ≤ 2 ^ 24 }
{
    // A stream's own latency keeps its marks behind the time as well. A lag of 0 leaves space for a block and a
    // packet.
    lag.saturating_sub(stream.latency()) + u32::from(stream.frames()) + u32::from(block)
}
