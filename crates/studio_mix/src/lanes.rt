//! The lanes of a studio's streams: the test that a block of all of them is final, and the values of the block.
ghost use Rattle.std.specs.Prelude.{◌≡◌, ◌+◌, ◌*◌, ◌^◌, ◌≤◌, ◌≤ℤ◌, pos, true, length, map, All, IfOk};
ghost use Rattle.std.specs.List.{list_all, list_any};
ghost use Rattle.rtp_wire.specs.PacketTime.{is_packet_time};
ghost use Rattle.lane_align.specs.Cover.{covers};
ghost use Rattle.lane_align.specs.Lane.{LaneState, cover_at};
ghost use Rattle.gain_mix.specs.Mix.{Is24Bits};
ghost use Rattle.studio_config.specs.Studio.{channel_total};
ghost use Rattle.studio_mix.specs.Feed.{unfed};
ghost use Rattle.studio_mix.specs.LaneCapacity.{capacity_for, capacities_of};
ghost use Rattle.studio_mix.specs.Lanes.{AreFed, AreRead, IsLaneAt, IsReadyLane, lane_channels, reaches_past};

use crate::interleave::lay_stream;
use crate::lane_capacity::capacity_for;
use lane_align::{Cover, Lane};
use rtp_stream::StreamSpec;
use std::alloc::{AllocError, Global};

/// Returns a lane for each stream, without marks, and with space next to a stream of this lag, in frames.
pub(crate) fn new_lanes(
    alloc: Global,
    streams: &[StreamSpec],
    start: i64,
    block: u16,
    lag: u32,
) -> Result<Vec<Lane>, AllocError>
    requires not_low { pos 0 ≤ℤ start }
    requires not_high { start ≤ℤ pos (2 ^ 60) }
    requires block { is_packet_time block ≡ true }
    requires short { lag ≤ 2 ^ 23 }
    ensures fed { IfOk result (λ lanes. AreFed start block lanes.items (unfed streams.now) start) }
    ensures each { IfOk result (λ lanes. All (IsLaneAt block start) lanes.items) }
    ensures channels { IfOk result (λ lanes. lane_channels lanes.items ≡ channel_total streams.now) }
    ensures count { IfOk result (λ lanes. length lanes.items ≡ length streams.now) }
    ensures capacities { IfOk result (λ lanes. capacities_of lanes.items ≡ map (capacity_for lag block) streams.now) }
{
    let mut lanes = Vec::new(alloc);
    for stream in streams {
        let capacity = capacity_for(stream, block, lag);
        let lane = Lane::with_capacity(alloc, *stream, start, block, capacity)?;
        // Only the clauses of this call are wanted: they bound the channels of every lane.
        let _format = lane.format();
        lanes.push(lane)?;
    }
    Ok(lanes)
}

/// Returns true if the values of every lane before `end` are final.
pub(crate) fn are_covered(lanes: &[Lane], end: i64) -> bool
    ensures { result ≡ list_all (λ (lane : LaneState). covers (cover_at lane) end) lanes.now }
{
    lanes.iter().all(|lane| lane.cover().covers(end))
}

/// Returns true if one of the lanes has not ended, or ends after `time`.
pub(crate) fn reach_past(lanes: &[Lane], time: i64, end: i64) -> bool
    requires covered { list_all (λ (lane : LaneState). covers (cover_at lane) end) lanes.now ≡ true }
    requires later { time ≤ℤ end }
    ensures value { result ≡ list_any (reaches_past time) lanes.now }
    ensures early { result ≡ true → time ≤ℤ pos (2 ^ 61 + 192) }
{
    for lane in lanes {
        match lane.cover() {
            Cover::All => {
                if time < lane.end() {
                    return true;
                }
            }
            _ => return true,
        }
    }
    false
}

/// Reads a block of every lane. Each frame has the values of all streams, one stream after the other.
pub(crate) fn read_lanes(
    lanes: &mut [Lane],
    one: &mut [i32],
    frames: usize,
    width: usize,
    ins: &mut [i32],
)
    requires ready { All (IsReadyLane frames) lanes.old }
    requires width { width ≡ lane_channels lanes.old }
    requires narrow { width ≤ 1024 }
    requires short { frames ≤ 192 }
    requires one { length one.old ≡ frames * 64 }
    requires ins { length ins.old ≡ frames * width }
    requires in_24_bits { All Is24Bits ins.old }
    ensures { AreRead lanes.old lanes.new ins.new frames width }
{
    // If there is only one stream, its values are already the frames of all streams, and need no copy through `one`.
    if lanes.len() == 1 {
        lanes[0].read_block(ins);
    } else {
        read_each(lanes, one, frames, width, ins);
    }
}

/// Reads a block of every lane, one after the other.
fn read_each(lanes: &mut [Lane], one: &mut [i32], frames: usize, width: usize, ins: &mut [i32])
    requires ready { All (IsReadyLane frames) lanes.old }
    requires width { width ≡ lane_channels lanes.old }
    requires narrow { width ≤ 1024 }
    requires short { frames ≤ 192 }
    requires one { length one.old ≡ frames * 64 }
    requires ins { length ins.old ≡ frames * width }
    requires in_24_bits { All Is24Bits ins.old }
    ensures { AreRead lanes.old lanes.new ins.new frames width }
{
    let mut at = 0;
    for lane in lanes.iter_mut() {
        let channels = usize::from(lane.format().channels);
        let values = &mut one[..frames * channels];
        lane.read_block(values);
        lay_stream(frames, channels, values, width, at, ins);
        at += channels;
    }
}
