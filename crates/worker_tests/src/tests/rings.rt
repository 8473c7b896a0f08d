//! One stream through its rings, by worked examples.
ghost use Rattle.studio_ends.specs.MarksIn.{AllTakeSome};
ghost use Rattle.worker_tests.specs.OneStream.{HasSameRings};

use super::stream_ends::{
    MEDIA, OneStream, close_paths, drains, gives_none, last_of, mixed, one_stream, open_ends,
    settle, still_open, studio_in, studio_of, turn,
};
use engine_tests::small_packets::{FIRST, SECOND, thousands, thousands_alone};
use engine_tests::small_studios::six_and_forty_eight;
use path_merge::{ClockFault, StreamClock};
use std::alloc::Global;
use std::process::Abort;
use studio_config::StudioSpec;
use studio_ends::*;

/// Tests a turn of the mixer, which takes this many marks and returns a datagram with these samples.
fn mixes(rt: &impl Abort, mix: &mut MixEnd, taken: u32, samples: &[u8])
    ensures { AllTakeSome mix.old.sides.items mix.new.sides.items }
{
    let mut out = [0u8; 1452];
    let note = mixed(mix, &mut out);
    assert!(rt; (note.taken, note.strange) == (taken, 0));
    assert!(rt; note.len == Some(30));
    assert!(rt; &out[12..30] == samples, "the samples of the block");
}

/// A step with the ends of one stream, and its expected outcome.
#[derive(Clone, Copy)]
enum Step {
    /// A packet is offered on the first path.
    Send(&'static [u8; 30], Offer),
    /// A turn at a clock reading: what it took of both paths, the marks that it sent, the time that it reached, and why
    /// it stopped.
    Turn(i64, (u32, u32, u32, i64, StopReason)),
    /// A turn at a reading that went back.
    Refuse(i64),
    /// A turn of the mixer: how many marks it takes, and the packet whose samples its datagram has.
    Mix(u32, &'static [u8; 30]),
    /// A drain before the close, which returns nothing.
    DrainNone,
    /// A close, which finds paths open.
    Close([bool; 4]),
    /// A reading of the clock, which changes nothing else.
    Read(i64),
    /// The deadline of the next slot.
    Deadline(Option<i64>),
    /// The monitor's next counts, if there are any: of packets on the first path, which arrived and were taken, and of
    /// those that were got. All other counts are 0.
    Show(Option<(u64, u64)>),
}

fn play(rt: &impl Abort, ends: &mut OneStream, steps: &[Step]) {
    for step in steps {
        play_one(rt, ends, *step);
    }
}

#[tactic(auto, using(crate::proofs::OneStreamLemmas::offered))]
fn play_one(rt: &impl Abort, ends: &mut OneStream, step: Step) {
    match step {
        Step::Send(packet, answer) => assert!(rt; ends.first.offer(packet) == answer),
        Step::Turn(now, end) => assert!(rt; turn(rt, &mut ends.stream, now) == end),
        Step::Refuse(now) => assert!(rt;
            fault_of(&mut ends.stream, now) == Some(ClockFault::WentBack)
        ),
        Step::Mix(taken, packet) => mixes(rt, &mut ends.mix, taken, &packet[12..]),
        Step::DrainNone => assert!(rt; !drains(&mut ends.stream), "there is a mark"),
        Step::Close(want) => assert!(rt; still_open(&mut ends.stream) == Some(want)),
        Step::Read(now) => assert!(rt; reads(&mut ends.stream, now) == Some(StopReason::CaughtUp)),
        Step::Deadline(want) => assert!(rt; ends.stream.next_deadline() == want),
        Step::Show(counts) => shows(rt, &mut ends.monitor, counts),
    }
}

/// Returns the fault of a turn at a reading, if it has one.
#[tactic(auto, using(crate::proofs::OneStreamLemmas::turned_same, crate::proofs::OneStreamLemmas::same_end))]
fn fault_of(stream: &mut StreamEnd, now: i64) -> Option<ClockFault>
    ensures { HasSameRings stream.old stream.new }
{
    match stream.turn(now) {
        Ok(_) => None,
        Err(fault) => Some(fault),
    }
}

/// Returns the reason why a reading of the clock stopped, if it was not refused.
#[tactic(auto, using(crate::proofs::OneStreamLemmas::read_same, crate::proofs::OneStreamLemmas::same_end))]
fn reads(stream: &mut StreamEnd, now: i64) -> Option<StopReason>
    ensures { HasSameRings stream.old stream.new }
{
    match stream.read_clock(now) {
        Ok(reason) => Some(reason),
        Err(_) => None,
    }
}

/// Tests that the monitor has these counts next, or none.
fn shows(rt: &impl Abort, monitor: &mut MonitorEnd, expected: Option<(u64, u64)>) {
    let Some(counts) = monitor.next() else {
        assert!(rt; expected.is_none(), "there are counts");
        return;
    };
    assert!(rt; expected == Some((counts.arrived, counts.got)));
    assert!(rt; counts.taken == counts.arrived);
    assert!(rt; counts.taken_by == [counts.taken, 0, 0, 0]);
    let refused = [
        counts.double,
        counts.unlike,
        counts.off_grid,
        counts.late,
        counts.ahead,
        counts.wrong_source,
    ];
    assert!(rt; refused == [0; 6] && (counts.lost, counts.restarts) == (0, 0));
}

const ONE_PLACE: [Step; 10] = [
    Step::Send(&FIRST, Offer::Sent),
    Step::Send(&SECOND, Offer::Full),
    Step::Turn(0, (1, 0, 0, 0, StopReason::CaughtUp)),
    Step::Send(&SECOND, Offer::Sent),
    Step::Turn(18, (1, 0, 1, 12, StopReason::NoRoom)),
    Step::Mix(1, &FIRST),
    Step::Turn(18, (0, 0, 1, 18, StopReason::NoRoom)),
    Step::Mix(1, &SECOND),
    Step::Turn(18, (0, 0, 0, 18, StopReason::CaughtUp)),
    Step::Refuse(17),
];

const SHOWN: [Step; 9] = [
    Step::Send(&FIRST, Offer::Sent),
    Step::Turn(0, (1, 0, 0, 0, StopReason::CaughtUp)),
    Step::Show(Some((1, 0))),
    Step::Show(None),
    Step::Send(&SECOND, Offer::Sent),
    Step::Turn(18, (1, 0, 1, 12, StopReason::NoRoom)),
    Step::Refuse(11),
    Step::Show(Some((2, 1))),
    Step::Show(None),
];

/// Each turn that was taken sends its counts, and a refused one none.
#[test]
fn counts_reach_the_monitor(rt: HostRuntime) {
    let mut ends = one_stream(&rt, rt.alloc(), MEDIA, 8, 1);
    play(&rt, &mut ends, &SHOWN);
}

/// Tests a turn of the mixer that returns this datagram.
fn gives(rt: &impl Abort, mix: &mut MixEnd, datagram: &[u8]) {
    let mut out = [0u8; 1452];
    let note = mixed(mix, &mut out);
    assert!(rt; (note.strange, note.len) == (0, Some(156)));
    assert!(rt; out.starts_with(datagram), "the datagram of the block");
}

/// The ends of two streams of one path each.
#[derive(Drop)]
struct TwoStreams {
    of_first: PathEnd,
    of_second: PathEnd,
    first: StreamEnd,
    second: StreamEnd,
    mix: MixEnd,
}

fn two_streams(rt: &impl Abort, alloc: Global) -> TwoStreams {
    let studio = six_and_forty_eight(alloc, 1).expect(rt, "there is memory");
    let mut ends = open_ends(rt, alloc, &studio, 64);
    let of_second = last_of(rt, &mut ends.paths);
    let of_first = last_of(rt, &mut ends.paths);
    let second = last_of(rt, &mut ends.streams);
    let first = last_of(rt, &mut ends.streams);
    TwoStreams {
        of_first,
        of_second,
        first,
        second,
        mix: ends.mix,
    }
}

/// Offers eight packets of 1000 from 0 on.
fn offer_thousands(rt: &impl Abort, alloc: Global, path: &mut PathEnd) {
    for packet in thousands(alloc).expect(rt, "there is memory").iter() {
        assert!(rt; path.offer(packet) == Offer::Sent);
    }
}

/// Makes two turns of a stream, which takes the packets that have come and passes on its marks up to 96.
fn gives_marks(rt: &impl Abort, stream: &mut StreamEnd) {
    assert!(rt; stream.turn(0).is_ok() && stream.turn(96).is_ok());
}

/// Lets one stream send its marks; the mixer takes `taken` of them and returns no datagram. Then lets the other stream
/// send its marks.
fn give_in_turn(
    rt: &impl Abort,
    early: &mut StreamEnd,
    late: &mut StreamEnd,
    mix: &mut MixEnd,
    taken: u32,
) {
    gives_marks(rt, early);
    gives_none(rt, mix, taken);
    gives_marks(rt, late);
}

/// Tests two streams that send their marks in this order: the first one has eight packets, the second one none. Up to
/// 96 the first one has fifteen slots, eight of them for the first block, and the second one is silent up to 48.
fn mixes_in_order(rt: &impl Abort, alloc: Global, last_first: bool) {
    let TwoStreams {
        mut of_first,
        of_second: _,
        mut first,
        mut second,
        mut mix,
    } = two_streams(rt, alloc);
    offer_thousands(rt, alloc, &mut of_first);
    if last_first {
        give_in_turn(rt, &mut second, &mut first, &mut mix, 1);
    } else {
        give_in_turn(rt, &mut first, &mut second, &mut mix, 8);
    }
    gives(
        rt,
        &mut mix,
        &thousands_alone(alloc).expect(rt, "there is memory"),
    );
    gives_none(rt, &mut mix, 7);
}

/// A stream of eight packets and a silent one lead to the same datagram in whichever order their marks come.
#[test]
fn the_order_of_the_streams_changes_no_datagram(rt: HostRuntime) {
    mixes_in_order(&rt, rt.alloc(), false);
    mixes_in_order(&rt, rt.alloc(), true);
}

/// The first close of a stream, whose paths are both open.
const OPEN: [Step; 2] = [Step::DrainNone, Step::Close([true, true, false, false])];

/// Finishes the ends of a stream whose two slots the mixer took. One datagram of the first path was refused at a full
/// ring, and the second path was offered none.
fn finish_in_turn(rt: &impl Abort, ends: OneStream) {
    let closed = close_paths(rt, ends);
    assert!(rt; closed.paths == [[3, 2, 1], [0, 0, 0]]);
    let counts = settle(rt, closed);
    assert!(rt; (counts.arrived, counts.taken, counts.got) == (2, 2, 2));
}

/// Rings of one place: full, stopped because there is no space, caught up, and a reading that goes back. Then the paths
/// finish one after the other, the stream closes and drains, and the mixer is settled.
#[test]
fn rings_of_one_place_lose_nothing_to_the_end(rt: HostRuntime) {
    let mut ends = one_stream(&rt, rt.alloc(), MEDIA, 8, 1);
    play(&rt, &mut ends, &ONE_PLACE);
    play(&rt, &mut ends, &OPEN);
    finish_in_turn(&rt, ends);
}

/// Rings of no place, or of 65,537, are refused.
#[test]
fn ring_lengths_are_bounded(rt: HostRuntime) {
    let studio = studio_of(&rt, rt.alloc(), MEDIA, 8);
    for len in [0usize, 65_537] {
        match open(rt.alloc(), &studio, len) {
            Ok(_) => { panic!(rt; "no ring has that many places") }
            Err(fault) => assert!(rt; fault == OpenFault::RingLength),
        }
    }
}

const LATE: [Step; 4] = [
    Step::Send(&FIRST, Offer::Sent),
    Step::Turn(0, (1, 0, 0, 0, StopReason::CaughtUp)),
    Step::Turn(600, (0, 0, 64, 390, StopReason::Batch)),
    Step::Turn(600, (0, 0, 35, 600, StopReason::CaughtUp)),
];

/// A turn over 99 marks stops after 64, and the next one reaches its reading.
#[test]
fn a_turn_stops_after_64_marks(rt: HostRuntime) {
    let mut ends = one_stream(&rt, rt.alloc(), MEDIA, 8, 128);
    play(&rt, &mut ends, &LATE);
}

const FROM_A_READING: [Step; 6] = [
    Step::Send(&FIRST, Offer::Sent),
    Step::Read(240),
    Step::Deadline(None),
    Step::Turn(240, (1, 0, 0, 240, StopReason::CaughtUp)),
    Step::Deadline(Some(252)),
    Step::Turn(252, (0, 0, 1, 252, StopReason::CaughtUp)),
];

/// By the arrival clock a first packet has the time of the reading before it: its slot is due twelve later.
#[test]
fn a_reading_sets_the_time_of_the_first_packet(rt: HostRuntime) {
    let mut ends = one_stream(&rt, rt.alloc(), StreamClock::Arrival, 8, 8);
    play(&rt, &mut ends, &FROM_A_READING);
}

/// Returns true if ends were opened; else an allocation was refused.
fn is_opened(rt: &impl Abort, alloc: Global, studio: &StudioSpec) -> bool {
    match open(alloc, studio, 3) {
        Ok(ends) => {
            assert!(rt; ends.paths.len() == 2);
            true
        }
        Err(fault) => {
            assert!(rt; fault == OpenFault::Memory);
            false
        }
    }
}

/// A studio's ends are opened twice: if one allocation fails, at most one of the two calls returns an error.
#[test]
fn each_refused_allocation_is_answered(rt: HostRuntime) {
    let alloc = rt.alloc();
    let studio = studio_in(alloc, MEDIA, 8).or_else(|| studio_in(alloc, MEDIA, 8));
    let studio = studio.expect(&rt, "with memory again");
    let first = is_opened(&rt, alloc, &studio);
    let second = is_opened(&rt, alloc, &studio);
    assert!(rt; first || second, "with memory again");
}
