//! The tests of a mixer that is fed in several orders, of one whose lanes have space, and of failed allocations.
ghost use Rattle.std.specs.Prelude.{◌≡◌};
ghost use Rattle.rtp_stream.specs.MarkFacts.{HasLength, payload_length};

use crate::small_packets::thousands_alone;
use crate::small_studios::{six_and_forty_eight, stream};
use rtp_stream::{Body, Mark, PacketFormat, StreamSpec};
use rtp_wire::Payload;
use std::alloc::Global;
use std::process::Abort;
use studio_config::StudioSpec;
use studio_mix::Mixer;

/// Returns a payload of L24 whose samples are all 1000, or a lost body if they do not fill a packet of the format.
fn thousand(format: PacketFormat) -> Body
    ensures { HasLength (payload_length format) result }
{
    let mut octets = Payload::new();
    for _ in 0..6 {
        let _ = octets.try_push(0);
        let _ = octets.try_push(3);
        let _ = octets.try_push(0xe8);
    }
    if octets.len() != format.payload_len() {
        return Body::Lost;
    }
    Body::Got(octets)
}

/// Returns a mark of the first stream, whose slots of 6 have samples of 1000 up to 48 and are lost from there on, or of
/// the second one, which is silent up to 48.
fn mark_of(format: PacketFormat, stream: usize, place: u8) -> Mark {
    if stream == 1 {
        return Mark::quiet(format, 48);
    }
    let body = if place < 8 {
        thousand(format)
    } else {
        Body::Lost
    };
    let place = i64::from(place);
    Mark::slot(format, 0, 65_537 + place as u64, 6 * place, body)
}

/// Feeds the next mark of a stream, which the mixer wants and accepts, and counts it.
fn feed(rt: &impl Abort, mixer: &mut Mixer, spec: &StudioSpec, stream: usize, fed: &mut [u8; 2]) {
    let format = spec.streams().get(stream).expect(rt, "a stream").format();
    let place = fed.get_mut(stream).expect(rt, "one of two streams");
    let mark = mark_of(format, stream, *place);
    // The calls of a mixer require a number of one of its streams.
    assert!(rt; stream < mixer.streams());
    assert!(rt; mixer.wants(stream), "stream {stream}");
    assert!(rt; mixer.accepts(stream, &mark), "stream {stream}");
    mixer.feed(stream, mark);
    *place = place.saturating_add(1);
}

/// Returns true if the next block has these octets, or, if there are none, isn't ready.
fn gives(mixer: &mut Mixer, octets: &[u8]) -> bool {
    let mut out = [0u8; 1452];
    // Called for its clause: a datagram has at most 1,452 octets, so `out` has space.
    let _short = mixer.output().datagram_len();
    let len = mixer.next_block(&mut out);
    len.unwrap_or(0) == octets.len() && out.starts_with(octets)
}

/// The order in which marks of both streams are fed: stream by stream, and in turn.
const ORDERS: [[usize; 9]; 3] = [
    [0, 0, 0, 0, 0, 0, 0, 0, 1],
    [1, 0, 0, 0, 0, 0, 0, 0, 0],
    [0, 1, 0, 0, 0, 0, 0, 0, 0],
];

/// A stream brings eight packets of 1000, and the other one is silent up to 48. Whether their marks are fed stream by
/// stream or in turn, the same block is ready with the last of them, and no block before it or after it.
#[test]
fn the_order_of_feeding_changes_no_block(rt: HostRuntime) {
    let spec = six_and_forty_eight(rt.alloc(), 2).expect(&rt, "there is memory");
    let block = thousands_alone(rt.alloc()).expect(&rt, "there is memory");
    for order in &ORDERS {
        mixes_in(
            &rt,
            &mut for_wanted_marks(&rt, rt.alloc(), &spec),
            &spec,
            order,
            &block,
        );
    }
}

/// Tests the blocks of a mixer that is fed the marks of both streams in this order.
fn mixes_in(
    rt: &impl Abort,
    mixer: &mut Mixer,
    spec: &StudioSpec,
    order: &[usize; 9],
    block: &[u8],
) {
    let fed = &mut [0u8; 2];
    for stream in order {
        assert!(rt; gives(mixer, &[]), "not ready: {order:?}");
        feed(rt, mixer, spec, *stream, fed);
    }
    assert!(rt; gives(mixer, block), "{order:?}");
    assert!(rt;
        gives(mixer, &[]),
        "the second block isn't ready: {order:?}"
    );
}

/// Returns a lost slot of a stream at a media time.
fn lost(spec: &StreamSpec, media: i16) -> Mark {
    Mark::slot(spec.format(), 0, 65_537, i64::from(media), Body::Lost)
}

/// Returns a mixer whose lanes have space.
fn for_early_marks(rt: &impl Abort, alloc: Global, spec: &StudioSpec) -> Mixer {
    Mixer::for_early_marks(alloc, spec).expect(rt, "there is memory")
}

/// Returns a mixer whose lanes have no space.
fn for_wanted_marks(rt: &impl Abort, alloc: Global, spec: &StudioSpec) -> Mixer {
    Mixer::new(alloc, spec).expect(rt, "there is memory")
}

/// Tests that a mixer for early marks keeps a stream's slot that fits into its lane, and has no space for a slot beyond
/// it.
fn keeps(rt: &impl Abort, mixer: &mut Mixer, number: usize, within: &Mark, beyond: &Mark) {
    // The calls of a mixer require a number of one of its streams.
    assert!(rt; number < mixer.streams());
    assert!(rt;
        !mixer.has_space(number, &beyond.as_ref()),
        "stream {number}"
    );
    assert!(rt;
        mixer.has_space(number, &within.as_ref()),
        "stream {number}"
    );
    assert!(rt; mixer.accepts(number, within));
    mixer.keep_ref(number, &within.as_ref());
}

/// Tests that a mixer has no space for a stream's mark.
fn has_none(rt: &impl Abort, mixer: &Mixer, number: usize, mark: &Mark) {
    assert!(rt; number < mixer.streams());
    assert!(rt; !mixer.has_space(number, &mark.as_ref()), "stream {number}");
}

/// A stream's number, its sampling instants a packet, its latency, and the media time of the last slot that its lane
/// has space for.
type LaneSize = (usize, u16, u32, i16);

const LANE_SIZES: [LaneSize; 2] = [(0, 6, 12, 468), (1, 48, 48, 432)];

/// Next to a stream that lags by 432 sampling instants, a stream of latency 12 has space for 474: for a slot of 6 at
/// 468.
#[test]
fn a_lane_has_space_next_to_the_stream_that_lags_most(rt: HostRuntime) {
    let studio = six_and_forty_eight(rt.alloc(), 1).expect(&rt, "there is memory");
    for capacity in &LANE_SIZES {
        has_this_capacity(&rt, rt.alloc(), &studio, *capacity);
    }
}

/// Tests the capacity of a stream's lane, which only a mixer for early marks has.
fn has_this_capacity(rt: &impl Abort, alloc: Global, studio: &StudioSpec, capacity: LaneSize) {
    let (number, frames, latency, last) = capacity;
    let spec = stream(frames, latency, 1).expect(rt, "a stream");
    let (within, beyond) = (lost(&spec, last), lost(&spec, last.wrapping_add(1)));
    keeps(
        rt,
        &mut for_early_marks(rt, alloc, studio),
        number,
        &within,
        &beyond,
    );
    has_none(rt, &for_wanted_marks(rt, alloc, studio), number, &within);
}

/// A mixer is made twice: if one allocation fails, at most one of the two calls returns an error.
#[test]
fn each_refused_allocation_is_answered(rt: HostRuntime) {
    let alloc = rt.alloc();
    // The allocation that fails may be one of the studio's, so that is tried twice as well.
    let spec = six_and_forty_eight(alloc, 1).or_else(|| six_and_forty_eight(alloc, 1));
    let spec = spec.expect(&rt, "with memory again");
    let first = Mixer::new(alloc, &spec).is_ok();
    let second = Mixer::new(alloc, &spec).is_ok();
    assert!(rt; first || second, "with memory again");
}
