//! Whole runs of the workers over feeds, clocks and a sink in memory.
ghost use Rattle.std.specs.Prelude.{IfSome};
ghost use Rattle.studio_ends.specs.FreshEnds.{AreOpened};

use super::fakes::{FailingSink, FaultyFeed};
use engine_tests::small_packets::{FIRST, SECOND, ones, ones_alone, sums, thousands};
use engine_tests::small_studios::{six_and_forty_eight, stream, sum_of};
use path_merge::Counts;
use std::alloc::Global;
use std::process::Abort;
use std::sync::Wait;
use std::thread::Threads;
use studio_config::StudioSpec;
use studio_ends::{Ends, OpenFault, open};
use studio_io::{MemoryClock, MemoryFeed, MemorySink};
use studio_rings::{Clock, Feed, Sink, WorkFault, WorkReport, run_workers};

/// Returns a studio of one stream on two paths, in packets of six sampling instants, whose output is alike. None if an
/// allocation fails.
pub(super) fn one_stream(alloc: Global) -> Option<StudioSpec> {
    let spec = stream(6, 12, 2).ok()?;
    sum_of(alloc, &[spec], 6)
}

/// Opens the rings of a studio. None if an allocation fails, which is the only fault of rings of these lengths.
pub(super) fn try_open(
    rt: &impl Abort,
    alloc: Global,
    studio: &StudioSpec,
    places: usize,
) -> Option<Ends>
    ensures opened { IfSome result (AreOpened studio.now places) }
{
    match open(alloc, studio, places) {
        Ok(ends) => Some(ends),
        Err(fault) => {
            assert!(rt; fault == OpenFault::Memory, "{fault:?}");
            None
        }
    }
}

/// Runs the workers of a studio over rings of `places` places. Rings that could not be allocated are an allocation
/// failure too.
pub(super) fn try_run<R: Threads + Wait + Abort + Sync, F: Feed + Send, C: Clock + Send, K: Sink>(
    rt: &R,
    alloc: Global,
    studio: &StudioSpec,
    places: usize,
    feeds: Vec<F>,
    clocks: Vec<C>,
    sink: K,
) -> Result<(WorkReport, K), WorkFault> {
    let _sound = studio.streams();
    let Some(ends) = try_open(rt, alloc, studio, places) else {
        return Err(WorkFault::Memory);
    };
    assert!(rt; feeds.len() == ends.paths.len(), "a feed for each path");
    assert!(rt;
        clocks.len() == ends.streams.len(),
        "a clock for each stream"
    );
    run_workers(rt, alloc, ends, feeds, clocks, sink)
}

/// Runs the workers of a studio as `try_run` does. Nothing is refused.
pub(super) fn run<R: Threads + Wait + Abort + Sync, F: Feed + Send, C: Clock + Send, K: Sink>(
    rt: &R,
    alloc: Global,
    studio: &StudioSpec,
    places: usize,
    feeds: Vec<F>,
    clocks: Vec<C>,
    sink: K,
) -> (WorkReport, K) {
    let Ok(done) = try_run(rt, alloc, studio, places, feeds, clocks, sink) else {
        panic!(rt; "there is memory")
    };
    done
}

/// Runs the workers of one stream on two paths, over rings of `places` places.
pub(super) fn run_one<R: Threads + Wait + Abort + Sync, F: Feed + Send, C: Clock + Send, K: Sink>(
    rt: &R,
    alloc: Global,
    places: usize,
    feeds: Vec<F>,
    clocks: Vec<C>,
    sink: K,
) -> (WorkReport, K) {
    let studio = one_stream(alloc).expect(rt, "a studio");
    run(rt, alloc, &studio, places, feeds, clocks, sink)
}

/// Returns a list of these.
pub(super) fn list_of<T: Drop, const N: usize>(
    rt: &impl Abort,
    alloc: Global,
    items: [T; N],
) -> Vec<T> {
    let Ok(list) = Vec::from_array(alloc, items) else {
        panic!(rt; "no memory for a list")
    };
    list
}

/// Returns the counts of the only stream, of a settled run.
pub(super) fn only(rt: &impl Abort, report: &WorkReport) -> Counts {
    assert!(rt; report.settled, "all rings are finished and drained");
    assert!(rt; report.streams.len() == 1);
    report.streams[0].merge
}

/// Returns the number of blocks, and how many of them were sent and failed at each address.
pub(super) fn sends(report: &WorkReport) -> (u64, [u64; 2], [u64; 2]) {
    let sent = [report.sent_a, report.sent_b];
    let faults = [report.fault_a, report.fault_b];
    (report.blocks, sent, faults)
}

/// The datagrams of the two packets: the same samples after headers of the output.
const OUTPUT: [[u8; 30]; 2] = [
    [
        0x80, 0x61, 0xff, 0xff, 0, 0, 0, 0, 0, 0, 0, 2, 0, 0, 1, 0, 0, 2, 0, 0, 3, 0, 0, 4, 0, 0,
        5, 0, 0, 6,
    ],
    [
        0x80, 0x61, 0, 0, 0, 0, 0, 6, 0, 0, 0, 2, 0, 0, 7, 0, 0, 8, 0, 0, 9, 0, 0, 10, 0, 0, 11, 0,
        0, 12,
    ],
];

/// Tests that these are both datagrams.
pub(super) fn gave_both(rt: &impl Abort, kept: &[Vec<u8>]) {
    assert!(rt; kept.len() == 2);
    let [first, second] = &OUTPUT;
    assert!(rt; kept[0].as_slice() == first.as_slice(), "the first");
    assert!(rt; kept[1].as_slice() == second.as_slice(), "the second");
}

/// Returns both packets.
pub(super) fn two_packets(rt: &impl Abort, alloc: Global) -> [Vec<u8>; 2] {
    [list_of(rt, alloc, FIRST), list_of(rt, alloc, SECOND)]
}

/// Runs both packets on both paths, by a clock with these readings, over rings of `places` places.
fn run_alike<R: Threads + Wait + Abort + Sync, K: Sink>(
    rt: &R,
    alloc: Global,
    readings: &[i64],
    places: usize,
    sink: K,
) -> (WorkReport, K) {
    let packets = two_packets(rt, alloc);
    let feeds = [MemoryFeed::new(&packets), MemoryFeed::new(&packets)];
    let feeds = list_of(rt, alloc, feeds);
    let clocks = list_of(rt, alloc, [MemoryClock::new(readings)]);
    run_one(rt, alloc, places, feeds, clocks, sink)
}

/// Runs the packets as `run_alike` does, and tests that each was taken once and sent to both addresses.
fn runs_alike<R: Threads + Wait + Abort + Sync>(
    rt: &R,
    alloc: Global,
    readings: &[i64],
    places: usize,
) {
    let sink = MemorySink::new(alloc);
    let (report, sink) = run_alike(rt, alloc, readings, places, sink);
    is_alike(rt, &report);
    gave_both(rt, sink.kept());
}

/// Tests that both packets were taken once, doubled once, and sent to both addresses.
fn is_alike(rt: &impl Abort, report: &WorkReport) {
    are_got(rt, report);
    assert!(rt; sends(report) == (2, [2, 2], [0, 0]));
}

/// Tests that both packets were taken once and doubled once, and no feed failed.
fn are_got(rt: &impl Abort, report: &WorkReport) {
    let counts = only(rt, report);
    assert!(rt; counts.arrived == 4 && counts.taken == 2 && counts.double == 2);
    assert!(rt; counts.got == 2 && counts.lost == 0);
    assert!(rt; report.feed_faults.as_slice() == [0u64, 0].as_slice());
}

/// Both datagrams on both paths are taken once, doubled once, and sent to both addresses.
#[test]
fn both_paths_alike(rt: HostRuntime) {
    runs_alike(&rt, rt.alloc(), &[0], 4);
}

/// The lengths of the rings.
const PLACES: [usize; 3] = [1, 2, 64];

/// The greatest reading so far counts, from the opening time on: at 11 neither packet is due yet.
#[test]
fn a_clock_that_goes_back(rt: HostRuntime) {
    for places in PLACES {
        runs_alike(&rt, rt.alloc(), &[-5, 11, 5, i64::MIN, 11, 0], places);
    }
}

/// Tests that the counts of a run of one stream balance: of packets by fate, by path, and of datagrams by address.
fn balances(rt: &impl Abort, report: &WorkReport) {
    let counts = only(rt, report);
    let fates = [
        counts.taken,
        counts.double,
        counts.unlike,
        counts.off_grid,
        counts.late,
        counts.ahead,
        counts.wrong_source,
    ];
    assert!(rt; counts.arrived == total(&fates));
    assert!(rt;
        counts.got == counts.taken,
        "each packet that was taken is got"
    );
    let stream = report.streams.first().expect(rt, "one stream");
    let mut sent = 0u64;
    for path in stream.paths.iter() {
        sent = sent.wrapping_add(path.sent);
    }
    assert!(rt; counts.arrived == sent);
    let (blocks, [sent_a, sent_b], [fault_a, fault_b]) = sends(report);
    assert!(rt; blocks == total(&[sent_a, fault_a]) && blocks == total(&[sent_b, fault_b]));
}

/// Returns the sum of small numbers.
fn total(numbers: &[u64]) -> u64 {
    let mut sum = 0u64;
    for number in numbers {
        sum = sum.wrapping_add(*number);
    }
    sum
}

/// By a clock that reads 0, 18, and then 6 for good, a packet may come after its deadline. However the threads run, all
/// rings are finished and drained, and the counts balance.
#[test]
fn a_clock_that_passes_the_deadlines(rt: HostRuntime) {
    for places in PLACES {
        let sink = MemorySink::new(rt.alloc());
        let (report, _) = run_alike(&rt, rt.alloc(), &[0, 18, 6], places, sink);
        balances(&rt, &report);
    }
}

/// Runs the streams of 6 and of 48 sampling instants a packet: these packets and those, each on the first of two paths.
fn run_two<R: Threads + Wait + Abort + Sync>(
    rt: &R,
    alloc: Global,
    first: &[Vec<u8>],
    second: &[Vec<u8>],
) -> (WorkReport, MemorySink) {
    let studio = six_and_forty_eight(alloc, 2).expect(rt, "a studio");
    let feeds = [first, &[], second, &[]].map(MemoryFeed::new);
    let feeds = list_of(rt, alloc, feeds);
    let clocks = list_of(rt, alloc, [MemoryClock::new(&[0]), MemoryClock::new(&[0])]);
    let sink = MemorySink::new(alloc);
    run(rt, alloc, &studio, 64, feeds, clocks, sink)
}

/// Tests that both streams got all.
fn got_all(rt: &impl Abort, report: &WorkReport) {
    assert!(rt; report.settled);
    assert!(rt; report.streams.len() == 2);
    let counts = report.streams[0].merge;
    assert!(rt; counts.arrived == 8 && counts.got == 8);
    let counts = report.streams[1].merge;
    assert!(rt; counts.arrived == 1 && counts.got == 1);
    assert!(rt; sends(report) == (2, [2, 2], [0, 0]));
}

/// Tests that the datagrams are the sums, and then the ones alone.
fn are_the_sums(rt: &impl Abort, alloc: Global, kept: &[Vec<u8>]) {
    assert!(rt; kept.len() == 2);
    assert!(rt; kept[0] == sums(alloc).expect(rt, "there is memory"));
    assert!(rt; kept[1] == ones_alone(alloc).expect(rt, "there is memory"));
}

/// Eight packets of 1000 from 0 on and one of 1 from 20 on, each on the first path of its stream. The second paths end
/// at once.
#[test]
fn two_streams_by_workers(rt: HostRuntime) {
    let alloc = rt.alloc();
    let thousands = thousands(alloc).expect(&rt, "there is memory");
    let ones = [ones(alloc).expect(&rt, "there is memory")];
    let (report, sink) = run_two(&rt, alloc, thousands.as_slice(), &ones);
    got_all(&rt, &report);
    are_the_sums(&rt, alloc, sink.kept());
}

/// Each datagram that one address refuses is counted as a fault of that address, and the other address gets all.
#[test]
fn an_address_that_always_fails(rt: HostRuntime) {
    for places in [1usize, 2, 4, 64] {
        let sink = FailingSink::new(&rt, rt.alloc(), 0);
        let (report, sink) = run_alike(&rt, rt.alloc(), &[0], places, sink);
        are_got(&rt, &report);
        assert!(rt; sends(&report) == (2, [2, 0], [0, 2]), "{places} places");
        gave_both(&rt, sink.handed());
    }
}

/// The numbers of faults of a feed: before its first result, and before each later one.
pub(super) type Failing = (u32, u32);

/// Runs one stream whose feeds fail, each a number of times before its first result and before each later one.
fn run_failing<R: Threads + Wait + Abort + Sync>(
    rt: &R,
    alloc: Global,
    first: Failing,
    second: Failing,
) -> WorkReport {
    let packets = two_packets(rt, alloc);
    let feeds = [
        FaultyFeed::new(first.0, first.1, &packets),
        FaultyFeed::new(second.0, second.1, &packets),
    ];
    let feeds = list_of(rt, alloc, feeds);
    let clocks = list_of(rt, alloc, [MemoryClock::new(&[0])]);
    let sink = MemorySink::new(alloc);
    let (report, sink) = run_one(rt, alloc, 4, feeds, clocks, sink);
    gave_both(rt, sink.kept());
    report
}

/// A run whose feeds fail, and its counts.
#[derive(Clone, Copy)]
pub(super) struct Failure {
    pub(super) shows: &'static str,
    pub(super) first: Failing,
    pub(super) second: Failing,
    /// The packets that arrived, that were taken, and that were doubles.
    pub(super) arrivals: [u64; 3],
    /// The faults of each feed.
    pub(super) faults: [u64; 2],
}

pub(super) const FAILURES: [Failure; 4] = [
    Failure {
        shows: "999 faults in a row end no feed",
        first: (999, 0),
        second: (0, 0),
        arrivals: [4, 2, 2],
        faults: [999, 0],
    },
    Failure {
        shows: "1,000 faults in a row end the first feed",
        first: (1_000, 0),
        second: (0, 0),
        arrivals: [2, 2, 0],
        faults: [1_000, 0],
    },
    Failure {
        shows: "1,000 faults in a row end the second feed",
        first: (0, 0),
        second: (1_000, 0),
        arrivals: [2, 2, 0],
        faults: [0, 1_000],
    },
    Failure {
        shows: "after a datagram faults are counted from 0 again",
        first: (1, 1),
        second: (999, 1),
        arrivals: [4, 2, 2],
        faults: [3, 1_001],
    },
];

/// Tests that both packets were got, and the run's counts.
pub(super) fn has_failed(rt: &impl Abort, report: &WorkReport, failure: &Failure) {
    let shows = failure.shows;
    let counts = only(rt, report);
    assert!(rt; counts.got == 2 && report.blocks == 2, "{shows}");
    let arrivals = [counts.arrived, counts.taken, counts.double];
    assert!(rt; arrivals == failure.arrivals, "{shows}: {arrivals:?}");
    assert!(rt;
        report.feed_faults.as_slice() == failure.faults.as_slice(),
        "{shows}"
    );
}

/// A feed that fails is called again, up to 999 times in a row; after 1,000 faults in a row its path has ended.
#[test]
fn a_feed_ends_after_1000_faults(rt: HostRuntime) {
    for failure in &FAILURES {
        let report = run_failing(&rt, rt.alloc(), failure.first, failure.second);
        has_failed(&rt, &report, failure);
    }
}
