//! Feeds that wait for each other, and a sink that waits for a clock: workers run at the same time.
ghost use Rattle.std.specs.Prelude.{[], None};

use super::workers::{gave_both, list_of, only, run_one, two_packets};
use engine_tests::small_packets::{FIRST, SECOND};
use std::alloc::Global;
use std::process::Abort;
use std::sync::Wait;
use std::sync::atomic::{AtomicBool, AtomicU64, Ordering};
use std::thread::{Parker, Threads};
use std::time::Duration;
use studio_io::{MemoryClock, MemoryFeed, MemorySink};
use studio_rings::{Clock, Feed, FeedAnswer, SendAnswer, Sink, WorkReport};

/// The number of waits for something, a millisecond each.
const WAITS: u32 = 20_000;

/// A feed that begins once the other feed was called too; if that does not happen, it ends at once.
#[derive(Drop)]
struct MeetingFeed<'a, R: Wait> {
    rt: &'a R,
    pause: Parker,
    feed: MemoryFeed<'a>,
    here: &'a AtomicBool,
    there: &'a AtomicBool,
}

impl<'a, R: Wait> MeetingFeed<'a, R> {
    fn new(
        rt: &'a R,
        packets: &'a [Vec<u8>],
        here: &'a AtomicBool,
        there: &'a AtomicBool,
    ) -> MeetingFeed<'a, R> {
        MeetingFeed {
            rt,
            pause: Parker::new(),
            feed: MemoryFeed::new(packets),
            here,
            there,
        }
    }
}

impl<'a, R: Wait> Feed for MeetingFeed<'a, R> {
    ghost told = { λ feed. [] };

    fn next(&mut self, buf: &mut [u8]) -> FeedAnswer {
        self.here.store(true, Ordering::SeqCst);
        for _ in 0..WAITS {
            if self.there.load(Ordering::SeqCst) {
                return self.feed.next(buf);
            }
            self.pause.park_timeout(self.rt, Duration::from_millis(1));
        }
        FeedAnswer::Ended
    }
}

/// Tests that both packets arrived twice, and were got once.
fn got_two(rt: &impl Abort, report: &WorkReport) {
    let counts = only(rt, report);
    assert!(rt; counts.arrived == 4 && counts.got == 2);
}

/// Two feeds that each wait until the other was called come to their end.
#[test]
fn paths_are_read_at_the_same_time(rt: HostRuntime) {
    let alloc = rt.alloc();
    let packets = two_packets(&rt, alloc);
    let first = AtomicBool::new(false);
    let second = AtomicBool::new(false);
    let feeds = [
        MeetingFeed::new(&rt, &packets, &first, &second),
        MeetingFeed::new(&rt, &packets, &second, &first),
    ];
    let feeds = list_of(&rt, alloc, feeds);
    let clocks = list_of(&rt, alloc, [MemoryClock::new(&[0])]);
    let sink = MemorySink::new(alloc);
    let (report, sink) = run_one(&rt, alloc, 64, feeds, clocks, sink);
    got_two(&rt, &report);
    gave_both(&rt, sink.kept());
}

/// A feed that ends only after the first datagram was sent, or after many calls.
#[derive(Drop)]
struct LastingFeed<'a> {
    feed: MemoryFeed<'a>,
    given: &'a AtomicBool,
    sent: &'a AtomicBool,
    left: u32,
}

impl<'a> LastingFeed<'a> {
    fn new(packets: &'a [Vec<u8>], given: &'a AtomicBool, sent: &'a AtomicBool) -> LastingFeed<'a> {
        LastingFeed {
            feed: MemoryFeed::new(packets),
            given,
            sent,
            left: 2_000,
        }
    }
}

impl<'a> Feed for LastingFeed<'a> {
    ghost told = { λ feed. [] };

    fn next(&mut self, buf: &mut [u8]) -> FeedAnswer {
        let answer = self.feed.next(buf);
        if answer != FeedAnswer::Ended {
            return answer;
        }
        self.given.store(true, Ordering::SeqCst);
        if self.sent.load(Ordering::SeqCst) || self.left == 0 {
            return FeedAnswer::Ended;
        }
        self.left -= 1;
        FeedAnswer::Nothing
    }
}

/// A clock that counts its calls. Both packets are due once both feeds have returned all their datagrams.
#[derive(Drop)]
struct CountingClock<'a> {
    asked: &'a AtomicU64,
    first: &'a AtomicBool,
    second: &'a AtomicBool,
}

impl<'a> CountingClock<'a> {
    fn new(
        asked: &'a AtomicU64,
        first: &'a AtomicBool,
        second: &'a AtomicBool,
    ) -> CountingClock<'a> {
        CountingClock {
            asked,
            first,
            second,
        }
    }
}

impl<'a> Clock for CountingClock<'a> {
    ghost told = { λ clock. [] };

    fn now(&mut self) -> i64 {
        self.asked.fetch_add(1, Ordering::SeqCst);
        if self.first.load(Ordering::SeqCst) && self.second.load(Ordering::SeqCst) {
            18
        } else {
            0
        }
    }
}

/// A sink that holds the first datagram until the clock is read again.
#[derive(Drop)]
struct HoldingSink<'a, R: Wait> {
    rt: &'a R,
    pause: Parker,
    asked: &'a AtomicU64,
    sent: &'a AtomicBool,
    asked_again: bool,
    sink: MemorySink,
}

impl<'a, R: Wait> HoldingSink<'a, R> {
    fn new(
        rt: &'a R,
        alloc: Global,
        asked: &'a AtomicU64,
        sent: &'a AtomicBool,
    ) -> HoldingSink<'a, R> {
        HoldingSink {
            rt,
            pause: Parker::new(),
            asked,
            sent,
            asked_again: false,
            sink: MemorySink::new(alloc),
        }
    }
}

impl<'a, R: Wait> Sink for HoldingSink<'a, R> {
    ghost handed = { λ sink. None };

    ghost answered = { λ sink. None };

    fn send(&mut self, datagram: &[u8]) -> SendAnswer {
        let before = self.asked.load(Ordering::SeqCst);
        for _ in 0..WAITS {
            if self.asked_again {
                break;
            }
            self.pause.park_timeout(self.rt, Duration::from_millis(1));
            self.asked_again = self.asked.load(Ordering::SeqCst) > before;
        }
        self.sent.store(true, Ordering::SeqCst);
        self.sink.send(datagram)
    }
}

/// Feeds that end only after a datagram was sent, and a sink that holds a datagram until a clock is read again.
#[test]
fn mixing_goes_on_during_reception(rt: HostRuntime) {
    let alloc = rt.alloc();
    let packets = two_packets(&rt, alloc);
    let first = AtomicBool::new(false);
    let second = AtomicBool::new(false);
    let sent = AtomicBool::new(false);
    let asked = AtomicU64::new(0);
    let feeds = [
        LastingFeed::new(&packets, &first, &sent),
        LastingFeed::new(&packets, &second, &sent),
    ];
    let feeds = list_of(&rt, alloc, feeds);
    let clocks = list_of(&rt, alloc, [CountingClock::new(&asked, &first, &second)]);
    let sink = HoldingSink::new(&rt, alloc, &asked, &sent);
    let (report, sink) = run_one(&rt, alloc, 64, feeds, clocks, sink);
    assert!(rt;
        sink.asked_again,
        "the stream's worker went on while the sink held"
    );
    got_two(&rt, &report);
    gave_both(&rt, sink.sink.kept());
}

/// A clock that returns only once both feeds have returned their end.
#[derive(Drop)]
struct LateClock<'a, R: Wait> {
    rt: &'a R,
    pause: Parker,
    first: &'a AtomicBool,
    second: &'a AtomicBool,
}

impl<'a, R: Wait> Clock for LateClock<'a, R> {
    ghost told = { λ clock. [] };

    fn now(&mut self) -> i64 {
        for _ in 0..WAITS {
            if self.first.load(Ordering::SeqCst) && self.second.load(Ordering::SeqCst) {
                break;
            }
            self.pause.park_timeout(self.rt, Duration::from_millis(1));
        }
        0
    }
}

/// Runs one stream over rings of one place, whose clock returns only once both feeds have returned these packets and
/// their end.
fn run_late<R: Threads + Wait + Abort + Sync>(
    rt: &R,
    alloc: Global,
    packets: &[Vec<u8>],
) -> WorkReport {
    let first = AtomicBool::new(false);
    let second = AtomicBool::new(false);
    let ends = AtomicBool::new(true);
    let feeds = [
        LastingFeed::new(packets, &first, &ends),
        LastingFeed::new(packets, &second, &ends),
    ];
    let clock = LateClock {
        rt,
        pause: Parker::new(),
        first: &first,
        second: &second,
    };
    let feeds = list_of(rt, alloc, feeds);
    let clocks = list_of(rt, alloc, [clock]);
    let sink = MemorySink::new(alloc);
    let (report, _) = run_one(rt, alloc, 1, feeds, clocks, sink);
    report
}

/// Tests the counts if the first packet of each feed was taken, and the others were refused at full rings.
fn are_refused(rt: &impl Abort, report: &WorkReport) {
    let counts = only(rt, report);
    assert!(rt; counts.arrived == 2 && counts.taken == 1);
    assert!(rt; counts.double == 1 && counts.got == 1);
    let stream = report.streams.first().expect(rt, "one stream");
    assert!(rt; stream.paths.len() == 2);
    for path in stream.paths.iter() {
        assert!(rt; path.offered == 2_003 && path.sent == 1 && path.full == 2_002);
    }
}

/// Returns three packets.
fn three_packets(rt: &impl Abort, alloc: Global) -> [Vec<u8>; 3] {
    [FIRST, SECOND, SECOND].map(|packet| list_of(rt, alloc, packet))
}

/// If nobody empties rings of one place, each packet of both feeds but the first is refused 1,001 times.
#[test]
fn packets_are_refused_at_full_rings(rt: HostRuntime) {
    let packets = three_packets(&rt, rt.alloc());
    let report = run_late(&rt, rt.alloc(), &packets);
    are_refused(&rt, &report);
}
