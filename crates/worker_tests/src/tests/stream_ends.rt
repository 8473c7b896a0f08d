//! The ends of one stream on two paths: how tests open, close and settle them.
ghost use Rattle.std.specs.Prelude.{◌≡◌, ◌++◌, ◌∷◌, [], ◌<◌, Some, slice_get, vec_len};
ghost use Rattle.rtrb.specs.Ring.{IsPair};
ghost use Rattle.rtrb.specs.Ends.{SameRing};
ghost use Rattle.rtp_stream.specs.declared.packet.Packet.{Packet};
ghost use Rattle.studio_ends.specs.FreshEnds.{AreOpened};
ghost use Rattle.studio_ends.specs.MarksIn.{AllTakeSome};
ghost use Rattle.studio_ends.specs.declared.rings.TokenConsumer.{TokenConsumer};
ghost use Rattle.worker_tests.specs.OneStream.{AreOfOneStream, FeedsMixer, HasSameRings};

use engine_tests::small_studios::sum_of;
use path_merge::{Counts, SpecFault, StreamClock, StreamSpec};
use rtp_wire::Enc;
use std::alloc::Global;
use std::process::Abort;
use studio_config::StudioSpec;
use studio_ends::*;

pub(super) const MEDIA: StreamClock = StreamClock::Media { offset: 0 };

/// Returns a studio of one stream of L24 on two paths, in packets of six sampling instants, with a latency of twelve,
/// by a clock, with a window of `width` packets. Its output has the same format.
pub(super) fn studio_of(
    rt: &impl Abort,
    alloc: Global,
    clock: StreamClock,
    width: u16,
) -> StudioSpec {
    studio_in(alloc, clock, width).expect(rt, "there is memory")
}

/// Returns the stream of that studio.
fn stream_in(clock: StreamClock, width: u16) -> Result<StreamSpec, SpecFault> {
    StreamSpec::new(Enc::L24, 1, 6, 96, None, clock, 12, width, 2)
}

/// Returns that studio, or none if an allocation is refused.
pub(super) fn studio_in(alloc: Global, clock: StreamClock, width: u16) -> Option<StudioSpec> {
    let spec = stream_in(clock, width).ok()?;
    sum_of(alloc, &[spec], 6)
}

/// Returns the ends of a studio, over rings of `ring_len` places.
pub(super) fn open_ends(
    rt: &impl Abort,
    alloc: Global,
    studio: &StudioSpec,
    ring_len: usize,
) -> Ends
    ensures { AreOpened studio.now ring_len result }
{
    match open(alloc, studio, ring_len) {
        Ok(ends) => ends,
        Err(_) => { panic!(rt; "there is memory") }
    }
}

/// Removes the last of a list, and returns it.
pub(super) fn last_of<T: Drop>(rt: &impl Abort, list: &mut Vec<T>) -> T
    ensures { list.old.items ≡ list.new.items ++ result ∷ [] }
{
    let Some(last) = list.pop() else {
        panic!(rt; "the list has none")
    };
    last
}

/// The ends of a studio of one stream.
#[derive(Drop)]
pub(super) struct OneStream {
    pub(super) first: PathEnd,
    pub(super) second: PathEnd,
    pub(super) stream: StreamEnd,
    pub(super) monitor: MonitorEnd,
    pub(super) mix: MixEnd,
    ghost pairs: { AreOfOneStream first second stream mix },
}

/// Returns the ends of the studio of `studio_of`, over rings of `ring_len` places.
pub(super) fn one_stream(
    rt: &impl Abort,
    alloc: Global,
    clock: StreamClock,
    width: u16,
    ring_len: usize,
) -> OneStream {
    let studio = studio_of(rt, alloc, clock, width);
    let mut ends = open_ends(rt, alloc, &studio, ring_len);
    assert!(rt; ends.paths.len() == 2);
    assert!(rt; ends.streams.len() == 1);
    let second = last_of(rt, &mut ends.paths);
    let first = last_of(rt, &mut ends.paths);
    let stream = last_of(rt, &mut ends.streams);
    let monitor = last_of(rt, &mut ends.monitors);
    OneStream {
        first,
        second,
        stream,
        monitor,
        mix: ends.mix,
    }
}

/// Makes a turn, and returns its outcome: packets of the first two paths, marks, the time it reached, and the reason
/// why it stopped.
#[tactic(auto, using(crate::proofs::OneStreamLemmas::turned_same))]
pub(super) fn turn(
    rt: &impl Abort,
    stream: &mut StreamEnd,
    now: i64,
) -> (u32, u32, u32, i64, StopReason)
    ensures { HasSameRings stream.old stream.new }
{
    match stream.turn(now) {
        Ok(note) => {
            let [first, second, _, _] = note.from;
            (first, second, note.marks, note.reached, note.why_stopped)
        }
        Err(_) => { panic!(rt; "the readings are in order") }
    }
}

/// Makes a turn of the mixer.
pub(super) fn mixed(mix: &mut MixEnd, out: &mut [u8; 1452]) -> MixNote
    ensures { AllTakeSome mix.old.sides.items mix.new.sides.items }
{
    let _short = mix.datagram_len();
    mix.turn(out)
}

/// Tests a turn of the mixer that takes this many marks and returns no datagram.
pub(super) fn gives_none(rt: &impl Abort, mix: &mut MixEnd, taken: u32)
    ensures { AllTakeSome mix.old.sides.items mix.new.sides.items }
{
    let mut out = [0u8; 1452];
    let note = mixed(mix, &mut out);
    assert!(rt; (note.taken, note.strange, note.len) == (taken, 0, None));
}

/// Returns true if a drain has sent all marks that are left.
#[tactic(auto, using(crate::proofs::OneStreamLemmas::drained_same))]
pub(super) fn drains(stream: &mut StreamEnd) -> bool
    ensures { HasSameRings stream.old stream.new }
{
    stream.drain_turn()
}

/// Returns the paths that a close finds open, or none if it closed.
#[tactic(auto, using(crate::proofs::OneStreamLemmas::looked_same))]
pub(super) fn still_open(stream: &mut StreamEnd) -> Option<[bool; 4]>
    ensures { HasSameRings stream.old stream.new }
{
    match stream.close() {
        Ok(_) => None,
        Err(open) => Some(open.still_open),
    }
}

/// The ends of a stream that is closed, and of its mixer. Both paths have finished.
#[derive(Drop)]
pub(super) struct ClosedStream {
    pub(super) stream: StreamEnd,
    pub(super) mix: MixEnd,
    /// The numbers of each path's datagrams that were offered, sent and refused at a full ring.
    pub(super) paths: [[u64; 3]; 2],
    ghost feeds: { FeedsMixer stream mix.sides.items },
}

/// Finishes a path's end, whose token goes to its stream's. Returns the numbers of datagrams that were offered, sent
/// and refused at a full ring.
fn finish_path(rt: &impl Abort, path: PathEnd, number: usize, stream: &mut StreamEnd) -> [u64; 3]
    requires place { number < vec_len stream.old.sides }
    requires pair { (side : TokenConsumer Packet) → slice_get stream.old.sides.items number ≡ Some side
        → IsPair path.ring side.ring }
    ensures { HasSameRings stream.old stream.new }
{
    let (done, counts) = path.finish();
    let Some(done) = done else {
        panic!(rt; "the stream's end is there")
    };
    stream.path_done(number, done);
    [counts.offered, counts.sent, counts.full]
}

/// Finishes the paths one after the other and closes their stream, which has taken all their packets. The close names
/// the paths that go on, until both have finished.
pub(super) fn close_paths(rt: &impl Abort, ends: OneStream) -> ClosedStream {
    let OneStream {
        first,
        second,
        mut stream,
        monitor: _,
        mix,
    } = ends;
    let of_first = finish_path(rt, first, 0, &mut stream);
    assert!(rt; still_open(&mut stream) == Some([false, true, false, false]));
    let of_second = finish_path(rt, second, 1, &mut stream);
    assert!(rt; still_open(&mut stream).is_none(), "both paths are drained");
    ClosedStream {
        stream,
        mix,
        paths: [of_first, of_second],
    }
}

/// Finishes a closed stream's end, which has no mark left after one more drain, and returns its token and counts.
fn finish_stream(rt: &impl Abort, stream: StreamEnd) -> (StreamDone, Counts)
    ensures { SameRing stream.marks.end result.0.token.end }
{
    let mut stream = stream;
    assert!(rt; drains(&mut stream), "the end is all that is left");
    let (done, counts) = stream.finish();
    let Some(done) = done else {
        panic!(rt; "the mixer's end is there")
    };
    (done, counts)
}

/// Finishes the stream's end, and returns its counts. The mixer takes the mark of the end, writes no datagram, and is
/// settled once it has the stream's token.
pub(super) fn settle(rt: &impl Abort, closed: ClosedStream) -> Counts {
    let ClosedStream {
        stream,
        mut mix,
        paths: _,
    } = closed;
    let (done, counts) = finish_stream(rt, stream);
    gives_none(rt, &mut mix, 1);
    assert!(rt; !mix.settled(), "the token is missing");
    mix.stream_done(0, done);
    assert!(rt; mix.settled());
    counts
}
