//! The tests of the drift of a path's arrival margin, and of packets that repeat numbers received in time.

use rtp_stats::{ArrivalMargin, CopyTracker, Drift, MarginMinute};
use rtp_stream::{Fate, Path, StreamClock, StreamSpec};
use rtp_wire::Enc;
use std::alloc::Global;
use std::ops::Range;
use std::process::Abort;

/// A path whose packets of a second all have one margin. It changes by the same amount from second to second.
struct Margins {
    shows: &'static str,
    /// The number of seconds with packets, one of every `step` seconds from 0 on.
    count: u64,
    step: u64,
    /// The margin of the first second, and the difference from each second to the next, in sampling instants.
    start: u32,
    more: u32,
    less: u32,
    /// The second in which the drift is wanted, and the time that the window holds.
    now: u64,
    window_span: u32,
    /// The drift in parts per million, and the time left in seconds.
    wanted: Option<(i64, u64)>,
}

/// A second has 48,000 sampling instants, so a change of 48 in each second is a drift of 1,000 parts per million.
const MARGINS: [Margins; 9] = [
    Margins {
        shows: "48 more in each second: 1,000 ppm, and the time above the greatest margin is used up",
        count: 20,
        step: 1,
        start: 480,
        more: 48,
        less: 0,
        now: 20,
        window_span: 3_072,
        // The greatest margin is 480 + 19 * 48 = 1,392, so 1,680 are left, and 35 s.
        wanted: Some((1_000, 35)),
    },
    Margins {
        shows: "24 less in each second: -500 ppm, and the least margin is used up",
        count: 20,
        step: 1,
        start: 960,
        more: 0,
        less: 24,
        now: 20,
        window_span: 3_072,
        // The least margin is 960 - 19 * 24 = 504, and 504 / 24 = 21 s.
        wanted: Some((-500, 21)),
    },
    Margins {
        shows: "one more in each second: 20.8 ppm, rounded to 21",
        count: 10,
        step: 1,
        start: 100,
        more: 1,
        less: 0,
        now: 10,
        window_span: 3_072,
        // 3,072 - 109.
        wanted: Some((21, 2_963)),
    },
    Margins {
        shows: "nine seconds are too few",
        count: 9,
        step: 1,
        start: 100,
        more: 1,
        less: 0,
        now: 9,
        window_span: 3_072,
        wanted: None,
    },
    Margins {
        shows: "seconds without packets are left out: 48 in three seconds are 333 ppm",
        count: 12,
        step: 3,
        start: 480,
        more: 48,
        less: 0,
        now: 34,
        window_span: 3_072,
        // The greatest margin is 480 + 11 * 48 = 1,008; 2,064 / 16 = 129 s.
        wanted: Some((333, 129)),
    },
    Margins {
        shows: "no change, and a year is left",
        count: 60,
        step: 1,
        start: 480,
        more: 0,
        less: 0,
        now: 60,
        window_span: 3_072,
        wanted: Some((0, 31_536_000)),
    },
    Margins {
        shows: "of 100 seconds the last minute counts",
        count: 100,
        step: 1,
        start: 1_000,
        more: 0,
        less: 1,
        now: 100,
        window_span: 3_072,
        // The least margin is 901.
        wanted: Some((-21, 901)),
    },
    Margins {
        shows: "51 seconds later nine of twenty seconds are of the minute",
        count: 20,
        step: 1,
        start: 480,
        more: 48,
        less: 0,
        now: 71,
        window_span: 3_072,
        wanted: None,
    },
    Margins {
        shows: "margins that are past the span of the window leave no time",
        count: 20,
        step: 1,
        start: 480,
        more: 48,
        less: 0,
        now: 20,
        window_span: 1_000,
        wanted: Some((1_000, 0)),
    },
];

/// Returns the margins of a second in which all packets had the same margin.
fn margin(second: u64, margin: u32) -> ArrivalMargin {
    ArrivalMargin {
        second,
        least: margin,
        median: 0,
        greatest: margin,
    }
}

/// Returns the drift of a path with these margins.
fn drift_of(margins: &Margins) -> Option<(i64, u64)> {
    let mut minute = MarginMinute::new();
    let mut next = margins.start;
    for count in 0..margins.count.min(1_000) {
        minute.note(margin(count.saturating_mul(margins.step), next));
        next = next
            .saturating_add(margins.more)
            .saturating_sub(margins.less);
    }
    shown(minute.drift(margins.now, margins.window_span))
}

/// Returns the two numbers of a drift.
fn shown(drift: Option<Drift>) -> Option<(i64, u64)> {
    let drift = drift?;
    Some((drift.ppm, drift.left))
}

/// Tests the drift of a path with each of these margins.
// The rows of a test are an argument: a constant would be followed row by row when the test is proved.
fn show_drifts(rt: &impl Abort, rows: &[Margins]) {
    for margins in rows {
        let (shows, found) = (margins.shows, drift_of(margins));
        assert!(rt; found == margins.wanted, "{shows}: {found:?}");
    }
}

/// The drift is the least-squares slope over the seconds of a minute. The time left is that until the window's edge.
#[test]
fn margins_that_change_show_a_drift(rt: HostRuntime) {
    show_drifts(&rt, &MARGINS);
}

/// Notes each of these margins in each of these seconds.
fn note_seconds(minute: &mut MarginMinute, seconds: Range<u64>, margins: &[u32]) {
    for second in seconds {
        for own in margins {
            minute.note(margin(second, *own));
        }
    }
}

/// The seconds before an epoch, and the second in which it began, are left out. A second is noted once.
#[test]
fn a_drift_begins_again_with_an_epoch(rt: HostRuntime) {
    let mut minute = MarginMinute::new();
    note_seconds(&mut minute, 0..20, &[480]);
    assert!(rt; shown(minute.drift(20, 3_072)) == Some((0, 31_536_000)));
    minute.begin(20);
    minute.note(margin(20, 960));
    assert!(rt;
        minute.drift(21, 3_072) == None,
        "the second in which the epoch began"
    );
    note_seconds(&mut minute, 21..31, &[960, 7]);
    assert!(rt;
        shown(minute.drift(31, 3_072)) == Some((0, 31_536_000)),
        "ten seconds with 960"
    );
}

/// A packet that was offered: its path, fate, sequence number and timestamp, and the row of path a after it.
type Offered = (u8, Fate, u16, u32, u64);

/// After the packet 100 was taken, its repeats and those of earlier numbers that are late count, one after another.
const REPEATS: [Offered; 11] = [
    (0, Fate::Taken, 100, 4_800, 0),
    (0, Fate::Late, 99, 4_752, 1),
    (0, Fate::Late, 100, 4_800, 2),
    (1, Fate::Late, 99, 4_752, 2),
    (0, Fate::WrongSource, 7, 4_752, 2),
    (0, Fate::Late, 101, 4_848, 0),
    (0, Fate::Late, 90, 4_320, 1),
    (0, Fate::OffGrid, 90, 4_321, 0),
    (0, Fate::Late, 90, 4_320, 1),
    (1, Fate::Restarted, 300, 0, 0),
    (0, Fate::Late, 299, 4_294_967_248, 1),
];

/// Returns a tracker of a stream to which no packet was offered yet.
fn new_tracker(rt: &impl Abort, alloc: Global) -> CopyTracker {
    let spec = StreamSpec::new(Enc::L24, 1, 48, 96, None, StreamClock::Arrival, 96, 8, 2);
    let tracker = CopyTracker::new(alloc, &spec.expect(rt, "the stream is fine"));
    tracker.expect(rt, "there is memory")
}

/// Offers these packets, and tests the row of path a after each.
fn count_repeats(rt: &impl Abort, tracker: &mut CopyTracker, rows: &[Offered]) {
    let a = Path::new(0).expect(rt, "there is a path a");
    for (number, fate, seq, ts, wanted) in rows {
        let path = Path::new(*number).expect(rt, "the path is one of four");
        tracker.note(path, *seq, *ts, *fate, Some(4_896), 4_800);
        let found = tracker.stats(a, 4_800).tally.repeated;
        assert!(rt; found == *wanted, "{fate:?} {seq}: {found}");
    }
}

/// A sender that is started again with the same numbers repeats numbers that were received in time: its packets are
/// late, and at or below the last one that was taken. A late packet of a greater number ends the row, and so does a new
/// epoch.
#[test]
fn late_packets_that_repeat_numbers_are_counted_in_a_row(rt: HostRuntime) {
    let mut tracker = new_tracker(&rt, rt.alloc());
    count_repeats(&rt, &mut tracker, &REPEATS);
}
