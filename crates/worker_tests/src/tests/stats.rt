//! The statistics that receivers get of one stream and of its mix.
use super::stream_ends::{MEDIA, studio_of};
use engine_tests::small_packets::{FIRST, SECOND};
use std::alloc::Global;
use std::process::Abort;
use studio_ends::{Ends, MixEnd, Offer, StatsReceivers, open_with_stats};

/// A step with the ends of one stream on two paths, and the statistics that its receivers have to have then.
#[derive(Clone, Copy)]
enum Step {
    /// A path is offered a packet, which finds space.
    Send(usize, &'static [u8; 30]),
    /// A path's receiver has its datagrams offered and sent, or nothing.
    Path(usize, Option<(u64, u64)>),
    /// A turn at a reading.
    Turn(i64),
    /// The stream's receiver has the first copies and the doubles of both paths, or nothing.
    Stream(Option<[(u64, u64); 2]>),
    /// The mixer returns a datagram.
    Mix,
    /// A change of the gain from a time on, which is taken or not.
    Move(i64, i32, bool),
    /// The start of the mixer's next block.
    NextBlock(i64),
    /// The mix's receiver has the output channel's saturated samples and its peak, or nothing.
    Output(Option<(u64, u32)>),
}

/// A path's receiver gets the counts of the first datagram since it last looked. The stream's gets its statistics once
/// in a tenth of a second. The mix's gets those of its first datagram since it last looked, with the peak of all since:
/// the samples are 1 to 6, then 7 to 12, which it does not get, then silence.
const STEPS: [Step; 24] = [
    Step::Path(0, None),
    Step::Send(0, &FIRST),
    Step::Send(0, &SECOND),
    Step::Send(1, &SECOND),
    Step::Path(0, Some((1, 1))),
    Step::Path(0, None),
    Step::Send(0, &SECOND),
    Step::Path(0, Some((3, 3))),
    Step::Path(1, Some((1, 1))),
    Step::Stream(None),
    Step::Turn(0),
    Step::Stream(Some([(2, 1), (0, 1)])),
    Step::Output(None),
    Step::Turn(12),
    Step::Stream(None),
    Step::Mix,
    Step::Turn(18),
    Step::Mix,
    Step::Output(Some((0, 6))),
    Step::Output(None),
    Step::Turn(24),
    Step::Mix,
    Step::Output(Some((0, 12))),
    Step::Output(None),
];

/// A gain of 2 is planned for the second block, and is in its peak: its samples are 7 to 12. The first block starts at
/// 0, so after it no gain before 6 can change.
const MOVED: [Step; 15] = [
    Step::Send(0, &FIRST),
    Step::Send(0, &SECOND),
    Step::Turn(0),
    Step::NextBlock(0),
    Step::Move(6, 131_072, true),
    Step::Turn(12),
    Step::Mix,
    Step::Output(Some((0, 6))),
    Step::NextBlock(6),
    Step::Move(5, 0, false),
    Step::Move(12, 0, true),
    Step::Turn(18),
    Step::Mix,
    Step::Output(Some((0, 24))),
    Step::NextBlock(12),
];

fn path_counts(stats: &mut StatsReceivers, path: usize) -> Option<(u64, u64)> {
    let counts = stats.paths.get_mut(path)?.latest()?;
    Some((counts.offered, counts.sent))
}

fn stream_counts(stats: &mut StatsReceivers) -> Option<[(u64, u64); 2]> {
    let numbers = stats.streams.first_mut()?.latest()?;
    let [a, b, _, _] = numbers.paths;
    Some([
        (a.tally.first, a.tally.double),
        (b.tally.first, b.tally.double),
    ])
}

fn output_stats(stats: &mut StatsReceivers) -> Option<(u64, u32)> {
    let numbers = stats.mix.as_mut()?.latest()?;
    Some((*numbers.saturated.first()?, *numbers.peaks.first()?))
}

fn sends(ends: &mut Ends, path: usize, packet: &[u8; 30]) -> bool {
    match ends.paths.get_mut(path) {
        Some(end) => end.offer(packet) == Offer::Sent,
        None => false,
    }
}

fn turns(ends: &mut Ends, now: i64) -> bool {
    match ends.streams.first_mut() {
        Some(end) => end.turn(now).is_ok(),
        None => false,
    }
}

fn gives(mix: &mut MixEnd) -> bool {
    let mut out = [0u8; 1452];
    let _short = mix.datagram_len();
    mix.turn(&mut out).len == Some(30)
}

/// Returns true if the outcome of a step is the expected one.
fn gives_result(ends: &mut Ends, stats: &mut StatsReceivers, step: Step) -> bool {
    match step {
        Step::Send(path, packet) => sends(ends, path, packet),
        Step::Path(path, want) => path_counts(stats, path) == want,
        Step::Turn(now) => turns(ends, now),
        Step::Stream(want) => stream_counts(stats) == want,
        Step::Mix => gives(&mut ends.mix),
        Step::Move(at, gain, taken) => ends.mix.change_gains(at, &[gain]).is_ok() == taken,
        Step::NextBlock(start) => ends.mix.next_block_start() == start,
        Step::Output(want) => output_stats(stats) == want,
    }
}

/// Returns the ends and receivers of that stream.
fn open_both(rt: &impl Abort, alloc: Global) -> (Ends, StatsReceivers) {
    let studio = studio_of(rt, alloc, MEDIA, 8);
    match open_with_stats(alloc, &studio, 4) {
        Ok(both) => both,
        Err(_) => { panic!(rt; "there is memory") }
    }
}

/// Two packets arrive on the first path. The second path brings the later one too, and the first path brings it again.
#[test]
fn receivers_get_what_becomes_of_each_paths_packets(rt: HostRuntime) {
    let (mut ends, mut stats) = open_both(&rt, rt.alloc());
    take_all(&rt, &mut ends, &mut stats, &STEPS);
}

/// A change of gains at the mixer's end is in force from its time on.
#[test]
fn gains_move_at_the_mixers_end(rt: HostRuntime) {
    let (mut ends, mut stats) = open_both(&rt, rt.alloc());
    take_all(&rt, &mut ends, &mut stats, &MOVED);
}

/// Takes all steps, and tests each outcome.
fn take_all(rt: &impl Abort, ends: &mut Ends, stats: &mut StatsReceivers, steps: &[Step]) {
    for (place, step) in steps.iter().enumerate() {
        assert!(rt; gives_result(ends, stats, *step), "step {place}");
    }
}
