//! The tests that decide the fate of an arrival.
ghost use Rattle.std.specs.Prelude.{◌≡◌, ◌^◌, ◌≤◌, ℕ, ℤ, pos, ◌≤ℤ◌, neg_ℤ};
ghost use Rattle.rtp_stream.specs.PacketRef.{packet_of};
ghost use Rattle.rtp_stream.specs.Anchor.{first_media_time, is_restart_in_reach, media_time_of};
ghost use Rattle.rtp_stream.specs.Counts.{is_taken_fate};
ghost use Rattle.rtp_stream.specs.Fate as fate;
ghost use Rattle.rtp_stream.specs.Fate.{first_fate, reach_fault_of};
ghost use Rattle.rtp_stream.specs.Grid.{of_width};
ghost use Rattle.rtp_stream.specs.Probation.{is_off};
ghost use Rattle.rtp_stream.specs.declared.stream_spec.Stream.{Stream};
ghost use Rattle.rtp_stream.specs.declared.anchor.Anchor.{Anchor};
ghost use Rattle.rtp_stream.specs.declared.packet.Packet.{Packet};

use crate::anchor::{Anchor, is_in_step, is_wanted_source, number_of};
use crate::fate::{Fate, Put};
use crate::packet::PacketRef;
use crate::stream_spec::StreamSpec;

/// Returns the fate of a packet that was put into a window with this result.
pub fn fate_of_put(put: Put) -> Fate
    ensures { result ≡ fate.fate_of_put put }
{
    match put {
        Put::Taken => Fate::Taken,
        Put::Double => Fate::Double,
        Put::Unlike => Fate::Unlike,
    }
}

/// Returns true if a packet of this fate was taken.
pub fn is_taken(fate: Fate) -> bool
    ensures { result ≡ is_taken_fate fate }
{
    matches!(fate, Fate::Taken | Fate::Restarted)
}

/// Returns a packet's number if the packet is a copy in time, and otherwise its fate.
///
/// `next` is the number due next, `media` its media time, and `width` the number of packets from it on that are in
/// time: the window, or 0 while the stream is emptying.
pub fn place_of(
    spec: &StreamSpec,
    anchor: &Anchor,
    next: u64,
    media: i64,
    width: u64,
    packet: &PacketRef<'_>,
) -> Result<u64, Fate>
    requires low { 65536 ≤ next }
    requires high { next ≤ 2 ^ 61 }
    requires space { width ≤ 16384 }
    requires media_low { neg_ℤ (pos (2 ^ 61)) ≤ℤ media }
    requires media_high { media ≤ℤ pos (2 ^ 61) }
    requires anchor_low { neg_ℤ (pos (2 ^ 61)) ≤ℤ anchor.now.media }
    requires anchor_high { anchor.now.media ≤ℤ pos (2 ^ 61) }
    requires media_is { media ≡ media_time_of spec.now anchor.now next }
    ensures { result ≡ fate.place_of (of_width spec.now width) anchor.now next (packet_of packet.now) }
{
    if packet.ssrc != anchor.source {
        return Err(Fate::WrongSource);
    }
    let number = number_of(packet, next);
    let there = media + (number as i64 - next as i64) * i64::from(spec.frames());
    // The timestamp shows a replay from an earlier cycle of sequence numbers, which the sequence number can't.
    if !is_in_step(anchor, there, packet.ts) {
        return Err(Fate::OffGrid);
    }
    if number < next {
        return Err(Fate::Late);
    }
    if number >= next + width {
        return Err(Fate::Ahead);
    }
    Ok(number)
}

/// Returns true if a packet with this place is off: it is of another source, or off the grid.
pub fn is_off_place(place: &Result<u64, Fate>) -> bool
    ensures { (stream : Stream) (anchor : Anchor) (next : ℕ) (packet : Packet)
        → place.now ≡ fate.place_of stream anchor next packet → result ≡ is_off stream anchor next packet }
{
    matches!(place, Err(Fate::WrongSource | Fate::OffGrid))
}

/// Returns the fate of a packet at `media` that can't be the first of an epoch: its deadline has come, or it is
/// beyond the window.
fn reach_fault(spec: &StreamSpec, time: i64, media: i64) -> Option<Fate>
    requires low { pos 0 ≤ℤ time }
    requires high { time ≤ℤ pos (2 ^ 60) }
    ensures { result ≡ reach_fault_of spec.now time media }
{
    let earliest = time - i64::from(spec.latency());
    if media <= earliest {
        return Some(Fate::Late);
    }
    if media >= earliest + i64::from(spec.window()) * i64::from(spec.frames()) {
        return Some(Fate::Ahead);
    }
    None
}

/// Returns true if a packet at `media` may begin the next epoch: it is in reach, and not before `due`, the media
/// time of the number due next.
pub fn continues_media_time(spec: &StreamSpec, time: i64, due: i64, media: i64) -> bool
    requires low { pos 0 ≤ℤ time }
    requires high { time ≤ℤ pos (2 ^ 60) }
    ensures { result ≡ is_restart_in_reach spec.now time due media }
{
    match reach_fault(spec, time, media) {
        Some(_) => false,
        // Media time never goes back.
        None => due <= media,
    }
}

/// Returns the fate of a packet that would be the first of epoch 0, at `media`.
pub fn fate_of_first(spec: &StreamSpec, time: i64, media: i64, source: u32) -> Fate
    requires low { pos 0 ≤ℤ time }
    requires high { time ≤ℤ pos (2 ^ 60) }
    ensures { (packet : Packet) → packet.ssrc ≡ source → media ≡ first_media_time spec.now.clock packet.ts time
        → result ≡ first_fate spec.now time packet }
{
    if !is_wanted_source(spec.ssrc(), source) {
        return Fate::WrongSource;
    }
    match reach_fault(spec, time, media) {
        Some(fault) => fault,
        None => Fate::Taken,
    }
}
