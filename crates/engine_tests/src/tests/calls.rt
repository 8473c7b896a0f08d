//! The tests of an engine's calls, one by one.
use super::studios::{
    Step, answers, block_of_48, block_of_six, gives, offered, packet_of_48, packet_of_six, play,
    six, six_and_forty_eight,
};
use crate::small_studios::six_and_forty_eight as studio;
use gain_mix::ChangeFault;
use path_merge::{ClockFault, Fate, Path};
use rtp_wire::WireFault;
use std::process::Abort;
use studio_engine::{ArriveFault, Engine, Unfinished};
use studio_session::ArriveOutcome;

/// The fate of a packet that is taken.
pub const TAKEN: Result<Fate, ArriveFault> = Ok(Fate::Taken);

const BLOCK_BY_BLOCK: [Step; 6] = [
    Step::Hand(0, 1, TAKEN),
    Step::Hand(0, 2, TAKEN),
    Step::Turn(11, Ok(None)),
    Step::Give(18, 0, 1),
    Step::Give(18, 1, 2),
    Step::Turn(18, Ok(None)),
];

/// Two packets of 6 sampling instants are due at 12 and 18. Turns to 18 return both blocks, one by one, and then none.
#[test]
fn each_turn_gives_one_block(rt: HostRuntime) {
    play(&rt, rt.alloc(), &BLOCK_BY_BLOCK);
}

const BETWEEN_TURNS: [Step; 7] = [
    Step::Hand(0, 1, TAKEN),
    Step::Give(12, 0, 1),
    Step::Turn(12, Ok(None)),
    Step::Hand(1, 2, TAKEN),
    Step::Give(18, 1, 2),
    Step::Turn(18, Ok(None)),
    Step::Hand(0, 2, Ok(Fate::Late)),
];

/// A packet that arrives between two turns is in the second one's datagram. One that arrives after its deadline is
/// late.
#[test]
fn a_packet_comes_between_two_turns(rt: HostRuntime) {
    play(&rt, rt.alloc(), &BETWEEN_TURNS);
}

const WITHIN_A_TURN: [Step; 7] = [
    Step::Hand(0, 1, TAKEN),
    Step::Give(12, 0, 1),
    Step::Hand(0, 1, Err(ArriveFault::Unfinished)),
    Step::Close(Err(Unfinished)),
    Step::Give(18, 1, 0),
    Step::Turn(18, Ok(None)),
    Step::Close(Ok(())),
];

/// Until a turn has returned no block, neither a packet nor a close is taken. A turn to a later clock reading goes on
/// with it first.
#[test]
fn nothing_is_taken_within_a_turn(rt: HostRuntime) {
    play(&rt, rt.alloc(), &WITHIN_A_TURN);
}

const MOVED: [Step; 12] = [
    Step::Hand(0, 1, TAKEN),
    Step::Hand(0, 2, TAKEN),
    Step::NextBlock(0),
    Step::Move(6, 131_072, Ok(())),
    Step::Gain(5, 65_536),
    Step::Gain(6, 131_072),
    Step::Give(18, 0, 1),
    Step::NextBlock(6),
    Step::Move(5, 196_608, Err(ChangeFault::Time)),
    Step::Give(18, 1, 4),
    Step::Turn(18, Ok(None)),
    Step::NextBlock(12),
];

/// A gain of 2 that is planned for the second block is in that block's datagram. A change for a block that was returned
/// is refused, and changes nothing.
#[test]
fn a_planned_gain_is_heard_from_its_time_on(rt: HostRuntime) {
    play(&rt, rt.alloc(), &MOVED);
}

const REPLACED: [Step; 9] = [
    Step::Hand(0, 1, TAKEN),
    Step::Hand(0, 2, TAKEN),
    Step::Move(6, 131_072, Ok(())),
    Step::Move(0, 196_608, Ok(())),
    Step::Give(18, 0, 3),
    Step::Move(6, 1_048_577, Err(ChangeFault::Range)),
    Step::Move(6, 327_680, Ok(())),
    Step::Give(18, 1, 10),
    Step::Turn(18, Ok(None)),
];

/// A change for the current time replaces the one that was planned, and a change within a turn is in the next datagram
/// of the same turn.
#[test]
fn a_gain_for_now_replaces_what_was_planned(rt: HostRuntime) {
    play(&rt, rt.alloc(), &REPLACED);
}

/// Returns the path of this number.
fn path(rt: &impl Abort, number: u8) -> Path {
    Path::new(number).expect(rt, "a path")
}

/// A datagram for a stream that does not exist, and one on a path that its stream does not have, are each refused by a
/// fault of their own.
#[test]
fn a_wrong_place_has_a_name(rt: HostRuntime) {
    refuses_places(&rt, &mut six(&rt, rt.alloc()));
}

/// Tests the faults of a wrong stream and a wrong path, on an engine of one stream on two paths.
fn refuses_places(rt: &impl Abort, engine: &mut Engine) {
    let first = path(rt, 0);
    assert!(rt; engine.arrive(1, first, &[]) == Err(ArriveFault::Stream));
    assert!(rt; engine.arrive(0, path(rt, 2), &[]) == Err(ArriveFault::Path));
    assert!(rt; engine.path_counts(1, first).is_none() && engine.counts(1).is_none());
}

/// Returns a packet of 6 sampling instants with one octet too many.
fn long_packet() -> [u8; 31] {
    let mut long = [0u8; 31];
    long[..30].copy_from_slice(&packet_of_six(1, 0, 1));
    long
}

/// An empty datagram, one of another payload type and one with an octet too many are each reported by name and counted.
#[test]
fn what_is_no_packet_has_a_name(rt: HostRuntime) {
    names_others(&rt, &mut six(&rt, rt.alloc()));
}

/// Tests the outcomes and the counts of such datagrams on an engine.
fn names_others(rt: &impl Abort, engine: &mut Engine) {
    let path = path(rt, 1);
    assert!(rt; engine.arrive(0, path, &[]) == Ok(ArriveOutcome::Bad(WireFault::Short)));
    assert!(rt; engine.arrive(0, path, &block_of_six(1, 1)) == Ok(ArriveOutcome::WrongType));
    assert!(rt; engine.arrive(0, path, &long_packet()) == Ok(ArriveOutcome::WrongLength));
    let counts = engine.path_counts(0, path).expect(rt, "the stream");
    let found = [
        counts.offered,
        counts.bad,
        counts.wrong_type,
        counts.wrong_length,
    ];
    assert!(rt; found == [3, 1, 1, 1]);
}

const OUT_OF_ORDER: [Step; 7] = [
    Step::Turn(17, Ok(None)),
    Step::Turn(16, Err(ClockFault::WentBack)),
    Step::Turn(1_152_921_504_606_846_977, Err(ClockFault::TooFar)),
    Step::Give(18, 0, 0),
    Step::Turn(18, Ok(None)),
    Step::Close(Ok(())),
    Step::Turn(18, Err(ClockFault::Closed)),
];

/// A clock reading that goes back, one past 2^60 and one after a close are refused, and change nothing.
#[test]
fn a_reading_out_of_order_is_refused(rt: HostRuntime) {
    play(&rt, rt.alloc(), &OUT_OF_ORDER);
}

const LEFT: [Step; 10] = [
    Step::Hand(0, 2, TAKEN),
    Step::DrainNone,
    Step::Settled(false),
    Step::Close(Ok(())),
    Step::Close(Ok(())),
    Step::DrainOne(0, 0),
    Step::Settled(false),
    Step::DrainOne(1, 2),
    Step::DrainNone,
    Step::Settled(true),
];

/// Before a close a drain returns nothing. After it the packet that is held is in the next datagram, and then the
/// engine is settled. A second close changes nothing.
#[test]
fn what_is_left_comes_after_a_close(rt: HostRuntime) {
    play(&rt, rt.alloc(), &LEFT);
}

const SETTLED: [Step; 7] = [
    Step::Hand(0, 1, TAKEN),
    Step::Close(Ok(())),
    Step::DrainOne(0, 1),
    Step::DrainNone,
    Step::Counts(1, 1, 0),
    Step::Hand(0, 1, Ok(Fate::Closed)),
    Step::Settled(true),
];

/// Once all is settled the counts are complete, and a packet that arrives then is refused as closed.
#[test]
fn counts_are_whole_once_settled(rt: HostRuntime) {
    play(&rt, rt.alloc(), &SETTLED);
}

/// Returns the first block of both streams: the packet of 6 sampling instants from 24 on, and silence around it.
fn first_of_both() -> [u8; 156] {
    let mut octets = block_of_48(0, 0);
    for instant in 24..30usize {
        octets[12 + 3 * instant + 2] = 1;
    }
    octets
}

/// A block needs both streams, and the one of packets of 48 has its deadlines 84 later. Until then the marks of the
/// other one are kept for their block.
#[test]
fn marks_are_kept_until_the_slower_stream_has_come(rt: HostRuntime) {
    keeps_marks(&rt, &mut six_and_forty_eight(&rt, rt.alloc()));
}

/// Tests that marks are kept, on an engine of both streams.
fn keeps_marks(rt: &impl Abort, engine: &mut Engine) {
    let path = path(rt, 0);
    assert!(rt; engine.arrive(1, path, &packet_of_48(1, 48, 4)) == offered(1, 48, TAKEN));
    assert!(rt; engine.arrive(0, path, &packet_of_six(1, 24, 1)) == offered(1, 24, TAKEN));
    assert!(rt; answers(engine, 143, Ok(None)));
    assert!(rt; gives(engine, 144, &first_of_both()));
    assert!(rt; gives(engine, 144, &block_of_48(1, 4)));
    assert!(rt; answers(engine, 144, Ok(None)));
}

/// An engine is made twice: if one allocation fails, at most one of the two calls returns an error.
#[test]
fn each_refused_allocation_of_an_engine_is_answered(rt: HostRuntime) {
    let alloc = rt.alloc();
    // The allocation that fails may be one of the studio's, so that is tried twice as well.
    let spec = studio(alloc, 2).or_else(|| studio(alloc, 2));
    let spec = spec.expect(&rt, "with memory again");
    let first = Engine::new(alloc, &spec).is_ok();
    let second = Engine::new(alloc, &spec).is_ok();
    assert!(rt; first || second, "with memory again");
}
