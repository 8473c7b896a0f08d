//! The tests of a stream's tally, on two paths with a window of eight packets, and of peaks and deadlines.

use rtp_stats::{Deadlines, StreamTally, margin_before, raise_peaks};
use rtp_stream::{Fate, Path, StreamClock, StreamSpec};
use rtp_wire::Enc;
use std::alloc::Global;
use std::process::Abort;

/// Returns the tally of a stream to which no packet was offered yet.
fn new_tally(rt: &impl Abort, alloc: Global) -> StreamTally {
    let clock = StreamClock::Media { offset: 0 };
    let spec = StreamSpec::new(Enc::L24, 1, 48, 96, None, clock, 96, 8, 2);
    let tally = StreamTally::new(alloc, &spec.expect(rt, "the stream is fine"));
    tally.expect(rt, "there is memory")
}

/// Returns the path of this number.
fn path(rt: &impl Abort, number: u8) -> Path {
    Path::new(number).expect(rt, "the path is one of four")
}

/// An offered packet: the number of its path, its fate, sequence number and arrival margin, and the clock reading.
type Offered = (u8, Fate, u16, Option<u32>, i64);

/// Adds packets to a tally.
fn add_all(rt: &impl Abort, tally: &mut StreamTally, packets: &[Offered]) {
    for (number, fate, seq, spare, now) in packets {
        tally.add(path(rt, *number), *fate, *seq, *spare, *now, false);
    }
}

/// Tests the numbers of a path's first copies, doubles, unlike and late copies, and missed numbers.
fn has_counts(rt: &impl Abort, tally: &StreamTally, number: u8, wanted: [u64; 6]) {
    let counts = tally.path(path(rt, number));
    let found = [
        counts.first,
        counts.double,
        counts.unlike,
        counts.late,
        counts.ahead,
        counts.missed,
    ];
    assert!(rt; found == wanted, "path {number}: {found:?}");
}

/// Only the first path brings 0. The latest number is 7, so 0 may still come by the second path.
const WITHIN_A_WINDOW: [Offered; 4] = [
    (0, Fate::Taken, 65_535, None, 0),
    (1, Fate::Double, 65_535, None, 1),
    (0, Fate::Taken, 0, None, 48),
    (1, Fate::Taken, 7, None, 336),
];

/// With 8 the second path has missed 0. By the first path 7 may still come.
const A_WINDOW_LATER: [Offered; 4] = [
    (0, Fate::Taken, 8, None, 384),
    (1, Fate::Late, 0, None, 385),
    (1, Fate::Ahead, 40, None, 385),
    (1, Fate::Unlike, 8, None, 386),
];

/// A number that only one path brought counts as missed by the other, once, when the number a window later is taken.
#[test]
fn a_number_is_missed_a_window_after_it_was_taken(rt: HostRuntime) {
    let tally = &mut new_tally(&rt, rt.alloc());
    add_all(&rt, tally, &WITHIN_A_WINDOW);
    has_counts(&rt, tally, 1, [1, 1, 0, 0, 0, 0]);
    add_all(&rt, tally, &A_WINDOW_LATER);
    has_counts(&rt, tally, 1, [1, 1, 1, 1, 1, 1]);
    has_counts(&rt, tally, 0, [3, 0, 0, 0, 0, 0]);
}

/// A path, a clock reading, and the arrival margins of the last whole second before it: the least and the median.
type Margins = (u8, i64, Option<(u32, u32)>);

/// Tests the arrival margins of a tally.
fn has_margins(rt: &impl Abort, tally: &StreamTally, wanted: &[Margins]) {
    for (number, now, margins) in wanted {
        let found = margins_of(tally, path(rt, *number), *now);
        assert!(rt; found == *margins, "path {number} at {now}: {found:?}");
    }
}

/// Returns the arrival margins of a path at a clock reading: the least and the median.
fn margins_of(tally: &StreamTally, path: Path, now: i64) -> Option<(u32, u32)> {
    let margin = tally.spare(path, now)?;
    Some((margin.least, margin.median))
}

/// Packets of three seconds.
const IN_THREE_SECONDS: [Offered; 5] = [
    (0, Fate::Taken, 1, Some(70), 48_000),
    (1, Fate::Double, 1, Some(3), 48_001),
    (0, Fate::Taken, 2, Some(47), 48_048),
    (0, Fate::Taken, 3, Some(100), 95_999),
    (0, Fate::Taken, 4, Some(9), 96_000),
];

/// At 95,999 the second from 48,000 on is not over. From 96,000 on nothing came by the second path.
const SECOND_BY_SECOND: [Margins; 5] = [
    (0, 95_999, None),
    (0, 96_001, Some((47, 66))),
    (1, 143_999, Some((3, 0))),
    (0, 144_000, Some((9, 6))),
    (1, 144_000, None),
];

/// The arrival margins are those of the last whole second before the clock reading, of one path.
#[test]
fn a_second_tells_its_spare_times_once_it_is_over(rt: HostRuntime) {
    let tally = &mut new_tally(&rt, rt.alloc());
    add_all(&rt, tally, &IN_THREE_SECONDS);
    has_margins(&rt, tally, &SECOND_BY_SECOND);
}

/// The least arrival margin is exact. A median of more than 128 ms is reported as that of the last bin.
#[test]
fn a_median_is_at_most_that_of_the_last_bin(rt: HostRuntime) {
    let tally = &mut new_tally(&rt, rt.alloc());
    add_all(&rt, tally, &[(0, Fate::Taken, 1, Some(20_000), 0)]);
    has_margins(&rt, tally, &[(0, 48_000, Some((20_000, 6_138)))]);
}

/// Peaks of both encodings are on the scale of 24 bits, channel by channel. They only rise until they are set to 0.
#[test]
fn peaks_are_on_the_scale_of_24_bits(rt: HostRuntime) {
    let mut peaks = [0, 5];
    raise_peaks(
        &mut peaks,
        Enc::L24,
        &[0x80, 0, 0, 0, 0, 4, 0x7f, 0xff, 0xff, 0, 0, 3],
    );
    assert!(rt; peaks[0] == 8_388_608);
    assert!(rt; peaks[1] == 5);
    raise_peaks(&mut peaks, Enc::L16, &[0, 1, 0xff, 0xff]);
    assert!(rt; peaks[0] == 8_388_608);
    assert!(rt; peaks[1] == 256);
}

/// A fate, a timestamp, the deadline that the merge returns, if any, and the deadline of the packet.
type Deadline = (Fate, u32, Option<i64>, Option<i64>);

/// Before the first row no packet was taken.
const DEADLINES: [Deadline; 7] = [
    (Fate::Double, 0, Some(96), None),
    (Fate::Taken, 4_294_967_248, Some(96), Some(96)),
    (Fate::Taken, 48, Some(96), Some(192)),
    (Fate::Unlike, 0, Some(96), Some(144)),
    (Fate::Late, 0, Some(192), None),
    (Fate::Restarted, 7, Some(1_000), Some(1_000)),
    (Fate::Double, 7, Some(1_000), Some(1_000)),
];

/// Deadlines follow from timestamps, from an epoch's first packet on, also if they wrap, and again after a restart.
#[test]
fn timestamps_tell_deadlines(rt: HostRuntime) {
    let mut deadlines = Deadlines::new();
    for (fate, ts, due, wanted) in &DEADLINES {
        let found = deadlines.deadline(*fate, *ts, *due);
        assert!(rt; found == *wanted, "{fate:?} {ts}: {found:?}");
    }
    assert!(rt; margin_before(96, 90) == Some(6));
    assert!(rt; margin_before(96, 96) == None, "the deadline has come");
}
