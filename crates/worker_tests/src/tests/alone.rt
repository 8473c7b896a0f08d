//! Whole runs in one thread, over feeds, clocks and a sink in memory.

use super::fakes::{FailingSink, FaultyFeed, NoPause};
use super::timed::{TimedClock, TimedFeed, TimedSink, WholeRest};
use super::workers::{
    FAILURES, Failure, gave_both, has_failed, list_of, one_stream, only, sends, two_packets,
};
use engine_run::{IdleWait, NoObserver, RunDevices, run_engine};
use std::alloc::Global;
use std::process::Abort;
use std::sync::Wait;
use std::sync::atomic::AtomicI64;
use studio_io::{MemoryClock, MemoryFeed, MemorySink, NoGains};
use studio_rings::{Clock, Feed, Sink, WorkReport};

/// Runs one stream on two paths.
fn run_one<R: Wait + Abort, F: Feed, C: Clock, K: Sink, P: IdleWait>(
    rt: &R,
    alloc: Global,
    feeds: [F; 2],
    clock: C,
    sink: K,
    pause: P,
) -> (WorkReport, K) {
    let studio = one_stream(alloc).expect(rt, "a studio");
    let feeds = list_of(rt, alloc, feeds);
    let devices = RunDevices {
        feeds,
        clock,
        sink,
        observer: NoObserver,
        wait: pause,
        gains: NoGains,
    };
    let done = run_engine(rt, alloc, &studio, devices);
    let Ok((report, sink, _, _)) = done else {
        panic!(rt; "there is memory")
    };
    (report, sink)
}

/// A datagram that one address refuses is counted as a fault of that address, and the other address gets all.
#[test]
fn one_thread_and_an_address_that_fails(rt: HostRuntime) {
    let alloc = rt.alloc();
    let packets = two_packets(&rt, alloc);
    let feeds = [MemoryFeed::new(&packets), MemoryFeed::new(&[])];
    let sink = FailingSink::new(&rt, alloc, 1);
    let (report, sink) = run_one(&rt, alloc, feeds, MemoryClock::new(&[0]), sink, NoPause);
    assert!(rt; only(&rt, &report).got == 2);
    assert!(rt; sends(&report) == (2, [2, 1], [0, 1]));
    gave_both(&rt, sink.handed());
}

/// Runs one stream whose feeds fail, by a clock with these readings.
fn run_failing<R: Wait + Abort>(
    rt: &R,
    alloc: Global,
    readings: &[i64],
    failure: &Failure,
) -> WorkReport {
    let packets = two_packets(rt, alloc);
    let feeds = [failure.first, failure.second];
    let feeds = feeds.map(|(first, later)| FaultyFeed::new(first, later, &packets));
    let sink = MemorySink::new(alloc);
    let (report, sink) = run_one(rt, alloc, feeds, MemoryClock::new(readings), sink, NoPause);
    gave_both(rt, sink.kept());
    report
}

/// A feed that fails is called again, and ends, as in a run by workers.
#[test]
fn one_thread_ends_a_feed_after_1000_faults(rt: HostRuntime) {
    for failure in &FAILURES {
        let report = run_failing(&rt, rt.alloc(), &[0], failure);
        has_failed(&rt, &report, failure);
    }
}

/// The faults of a run by a clock that goes back, and its counts.
const A_CLOCK_BACK: Failure = Failure {
    shows: "the clock goes back, and is read again after each fault",
    first: (2, 1),
    second: (2, 1),
    arrivals: [4, 2, 2],
    faults: [4, 4],
};

/// The run uses the greatest clock reading so far, and at least the opening time. After each fault the clock is read
/// again.
#[test]
fn one_thread_by_a_clock_that_goes_back(rt: HostRuntime) {
    let readings = [-5, 11, 5, i64::MIN, 11, 0];
    let report = run_failing(&rt, rt.alloc(), &readings, &A_CLOCK_BACK);
    has_failed(&rt, &report, &A_CLOCK_BACK);
}

/// Returns the times at which a run sent its datagrams. It pauses as long as it may, until a time, and both packets
/// come on the first path.
fn times_until<R: Wait + Abort>(rt: &R, alloc: Global, until: i64) -> Vec<i64> {
    let packets = two_packets(rt, alloc);
    let time = AtomicI64::new(0);
    let time = &time;
    let feeds = [MemoryFeed::new(&packets), MemoryFeed::new(&[])];
    let feeds = feeds.map(|feed| TimedFeed { time, feed, until });
    let times = Vec::new(alloc);
    let sink = TimedSink { time, times };
    let (_, sink) = run_one(
        rt,
        alloc,
        feeds,
        TimedClock { time },
        sink,
        WholeRest { time },
    );
    sink.times
}

/// Packets of 0 and 6 are due a latency of 12 later, and so is the silence after them: no rest goes past a deadline.
#[test]
fn one_thread_rests_to_each_deadline(rt: HostRuntime) {
    let times = times_until(&rt, rt.alloc(), 24);
    assert!(rt; times.as_slice() == [12i64, 18, 24].as_slice(), "{times:?}");
}
