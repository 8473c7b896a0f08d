//! The tests of each boundary of deadlines and of the reorder window, with both kinds of window.
use super::bench::{Bench, slots_bench, sorted_bench};
use super::cases::{STREAM, spec_of};
use super::steps::Sent;
use path_merge::{Fate, Path, Stream, StreamClock, Window};
use std::alloc::Global;
use std::process::Abort;

/// Returns the fate of a packet on the second path. If there is a time, the packet (1, 0) came before it on the first
/// path, and the clock was read at that time.
fn fate_on<W: Window>(
    rt: &impl Abort,
    bench: &mut Bench<W>,
    time: Option<i64>,
    sent: Sent,
) -> Fate {
    if let Some(time) = time {
        let a = Path::new(0).expect(rt, "a path");
        let first = bench.offer(rt, a, Sent::new(1, 0));
        assert!(rt; first == Fate::Taken, "the first packet");
        bench.tick(rt, time);
    }
    bench.offer(rt, Path::new(1).expect(rt, "a path"), sent)
}

/// Returns that fate in a stream with this clock and opening time, and tests that both kinds of window agree.
fn fate_of(
    rt: &impl Abort,
    alloc: Global,
    opened: (StreamClock, i64),
    time: Option<i64>,
    sent: Sent,
) -> Fate {
    let (clock, open_at) = opened;
    let spec = spec_of(rt, Stream { clock, ..STREAM });
    let slots = fate_on(rt, &mut slots_bench(rt, alloc, spec, open_at), time, sent);
    let sorted = fate_on(rt, &mut sorted_bench(rt, alloc, spec, open_at), time, sent);
    assert!(rt; slots == sorted, "both windows: timestamp {}", sent.ts);
    slots
}

/// The media clock whose timestamp 0 is media time 0.
const MEDIA: StreamClock = StreamClock::Media { offset: 0 };

/// The media clock whose timestamp 1000 is media time 0.
const OFFSET: StreamClock = StreamClock::Media { offset: 1000 };

/// Returns the fate of number 65537 + k, whose timestamp is 6 k, at a time, after the first packet.
fn fate_at(rt: &impl Abort, alloc: Global, time: i64, k: u32) -> Fate {
    let sent = Sent::new((k.wrapping_add(1) % 65_536) as u16, k.wrapping_mul(6));
    fate_of(rt, alloc, (MEDIA, 0), Some(time), sent)
}

/// A time, the k of the number next due, and the fate of a packet of that number.
const TIMES: [(i64, u32, Fate); 10] = [
    (0, 0, Fate::Double),
    (11, 0, Fate::Double),
    (12, 1, Fate::Taken),
    (13, 1, Fate::Taken),
    (17, 1, Fate::Taken),
    (18, 2, Fate::Taken),
    (19, 2, Fate::Taken),
    (23, 2, Fate::Taken),
    (24, 3, Fate::Taken),
    (25, 3, Fate::Taken),
];

/// The distance of a number from the one next due, and the fate of its packet.
const AROUND: [(i32, Fate); 4] = [
    (-1, Fate::Late),
    (1, Fate::Taken),
    (7, Fate::Taken),
    (8, Fate::Ahead),
];

/// Number 65537 + k is due at 12 + 6 k. At the times around three deadlines, packets of the number next due and of the
/// seven after it are taken.
#[test]
fn every_boundary_of_a_deadline_and_of_the_window(rt: HostRuntime) {
    for (time, next, first) in &TIMES {
        let fate = fate_at(&rt, rt.alloc(), *time, *next);
        assert!(rt; fate == *first, "the next number, at {time}");
        fates_around(&rt, rt.alloc(), *time, *next);
    }
}

/// Tests the fates of the numbers around the one next due.
fn fates_around(rt: &impl Abort, alloc: Global, time: i64, next: u32) {
    for (after, want) in &AROUND {
        let fate = fate_at(rt, alloc, time, next.wrapping_add_signed(*after));
        assert!(rt; fate == *want, "{after} numbers behind the next, at {time}");
    }
}

/// A clock, a first packet's timestamp, and its fate.
const FIRSTS: [(StreamClock, u32, Fate); 12] = [
    (MEDIA, 87, Fate::Late),
    (MEDIA, 88, Fate::Late),
    (MEDIA, 89, Fate::Taken),
    (MEDIA, 135, Fate::Taken),
    (MEDIA, 136, Fate::Ahead),
    (MEDIA, 137, Fate::Ahead),
    (OFFSET, 1088, Fate::Late),
    (OFFSET, 1089, Fate::Taken),
    (OFFSET, 1135, Fate::Taken),
    (OFFSET, 1136, Fate::Ahead),
    (StreamClock::Arrival, 88, Fate::Taken),
    (StreamClock::Arrival, 4_294_967_295, Fate::Taken),
];

/// At the opening time 100, a first packet is taken if it is due after 100 and within eight packets of 6 from then on.
/// By the arrival clock any first packet is taken.
#[test]
fn every_boundary_of_a_first_packet(rt: HostRuntime) {
    for (clock, ts, want) in &FIRSTS {
        let fate = fate_of(&rt, rt.alloc(), (*clock, 100), None, Sent::new(1, *ts));
        assert!(rt; fate == *want, "timestamp {ts}, {clock:?}");
    }
}
