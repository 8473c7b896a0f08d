//! Whole runs, in one thread and by workers, whose gains move while they go on.
ghost use Rattle.std.specs.Prelude.{◌≡◌, ◌++◌, ◌∷◌, [], List, ℤ, None, Some, true, map};

use super::fakes::{FaultyFeed, NoPause};
use super::order_of_calls::OrderOfCalls;
use super::workers::{gave_both, list_of, one_stream, try_open, two_packets};
use engine_run::{NoObserver, RunDevices, RunObserver, run_engine};
use gain_mix::ChangeFault;
use std::alloc::Global;
use std::process::Abort;
use std::sync::Wait;
use std::sync::atomic::AtomicBool;
use std::thread::Threads;
use studio_config::StudioSpec;
use studio_io::{
    Clock, Feed, GainAction, GainAnswer, GainRequest, GainSource, MemoryClock, MemoryFeed,
    MemorySink, WorkReport,
};
use studio_rings::{WorkerDevices, run_mixer};

/// A request, the round in which it is made, and its outcome. A gain of 65,536 leaves samples unchanged.
struct Move {
    /// The round of the run, from 0 on.
    round: u32,
    at: Option<i64>,
    action: GainAction,
    /// The gain in the buffer.
    gain: i32,
    answer: GainAnswer,
    /// The start of the next block.
    next: i64,
    /// The gain that the answer shows.
    shown: i32,
    shows: &'static str,
}

/// Keeps a change that was taken.
pub(super) fn keep(
    rt: &impl Abort,
    alloc: Global,
    taken: &mut Vec<(i64, Vec<i32>)>,
    at: i64,
    gains: &[i32],
)
    ensures { map {B = ℤ × List ℤ} (λ change. (change.0, change.1.items)) taken.new.items
        ≡ map {B = ℤ × List ℤ} (λ change. (change.0, change.1.items)) taken.old.items ++ (at, gains.now) ∷ [] }
{
    let Ok(copy) = Vec::from_slice(alloc, gains) else {
        panic!(rt; "no memory for a change")
    };
    if taken.push((at, copy)).is_err() {
        panic!(rt; "no memory for a change")
    }
}

/// Makes these requests, each in its round, tests the answers, and keeps what was taken.
#[derive(Drop)]
struct PlannedMoves<'a, R: Abort> {
    rt: &'a R,
    alloc: Global,
    moves: &'a [Move],
    /// The number of requests that were answered.
    answered: usize,
    /// The number of rounds that are over.
    round: u32,
    taken: Vec<(i64, Vec<i32>)>,
}

impl<'a, R: Abort> PlannedMoves<'a, R> {
    fn new(rt: &'a R, alloc: Global, moves: &'a [Move]) -> PlannedMoves<'a, R> {
        PlannedMoves {
            rt,
            alloc,
            moves,
            answered: 0,
            round: 0,
            taken: Vec::new(alloc),
        }
    }

    /// Tests an answer.
    fn compare(&mut self, answer: GainAnswer, next: i64, gains: &[i32])
        ensures taken { self.new.taken ≡ self.old.taken }
    {
        let Some(row) = self.moves.get(self.answered) else {
            panic!(self.rt; "an answer without a request")
        };
        assert!(self.rt; answer == row.answer, "{}: {answer:?}", row.shows);
        assert!(self.rt; next == row.next, "{}: {next}", row.shows);
        assert!(self.rt; gains == [row.shown].as_slice(), "{}: {gains:?}", row.shows);
        self.answered += 1;
    }
}

impl<'a, R: Abort> GainSource for PlannedMoves<'a, R> {
    ghost taken = { λ source. map (λ change. (change.0, change.1.items)) source.taken.items };

    ghost asks = { λ source. true };

    fn next(&mut self, gains: &mut [i32]) -> Option<GainRequest> {
        if let Some(row) = self.moves.get(self.answered) {
            if row.round <= self.round {
                gains.fill(row.gain);
                return Some(GainRequest {
                    at: row.at,
                    action: row.action,
                });
            }
        }
        self.round = self.round.saturating_add(1);
        None
    }

    fn answer(&mut self, answer: GainAnswer, next_block_start: i64, gains: &[i32]) {
        self.compare(answer, next_block_start, gains);
        if let GainAnswer::Taken(at) = answer {
            keep(self.rt, self.alloc, &mut self.taken, at, gains);
        }
    }
}

/// The first datagram at gain 2: the samples 1 to 6, doubled.
const DOUBLED: [u8; 30] = [
    0x80, 0x61, 0xff, 0xff, 0, 0, 0, 0, 0, 0, 0, 2, 0, 0, 2, 0, 0, 4, 0, 0, 6, 0, 0, 8, 0, 0, 10,
    0, 0, 12,
];

/// The second datagram at gain 2 until 8, and -1 from 8 on: 14, 16, -9, -10, -11 and -12.
const TURNED: [u8; 30] = [
    0x80, 0x61, 0, 0, 0, 0, 0, 6, 0, 0, 0, 2, 0, 0, 14, 0, 0, 16, 0xff, 0xff, 0xf7, 0xff, 0xff,
    0xf6, 0xff, 0xff, 0xf5, 0xff, 0xff, 0xf4,
];

/// The second datagram at gain 3: the samples 7 to 12, times 3.
const TRIPLED: [u8; 30] = [
    0x80, 0x61, 0, 0, 0, 0, 0, 6, 0, 0, 0, 2, 0, 0, 21, 0, 0, 24, 0, 0, 27, 0, 0, 30, 0, 0, 33, 0,
    0, 36,
];

/// Requests of the first round, before any block.
const FIRST_ROUND: [Move; 10] = [
    Move {
        round: 0,
        at: None,
        action: GainAction::Show,
        gain: 0,
        answer: GainAnswer::Shown(0),
        next: 0,
        shown: 65_536,
        shows: "the gains of the studio are shown",
    },
    Move {
        round: 0,
        at: None,
        action: GainAction::SetAll,
        gain: 131_072,
        answer: GainAnswer::Taken(0),
        next: 0,
        shown: 131_072,
        shows: "a change for now is taken at the start of the next block",
    },
    Move {
        round: 0,
        at: Some(8),
        action: GainAction::SetOne {
            output: 0,
            input: 0,
            gain: -65_536,
        },
        gain: 7,
        answer: GainAnswer::Taken(8),
        next: 0,
        shown: -65_536,
        shows: "one gain is planned for a time within a block",
    },
    Move {
        round: 0,
        at: Some(7),
        action: GainAction::Show,
        gain: 0,
        answer: GainAnswer::Shown(7),
        next: 0,
        shown: 131_072,
        shows: "before that time the first change is in force",
    },
    Move {
        round: 0,
        at: Some(8),
        action: GainAction::Show,
        gain: 0,
        answer: GainAnswer::Shown(8),
        next: 0,
        shown: -65_536,
        shows: "and from it on the second",
    },
    Move {
        round: 0,
        at: Some(-1),
        action: GainAction::Show,
        gain: 0,
        answer: GainAnswer::Shown(0),
        next: 0,
        shown: 131_072,
        shows: "of a time that is past the next block's start is shown",
    },
    Move {
        round: 0,
        at: Some(-1),
        action: GainAction::SetAll,
        gain: 65_536,
        answer: GainAnswer::Refused(ChangeFault::Time),
        next: 0,
        shown: 131_072,
        shows: "a change for a time that is past is refused",
    },
    Move {
        round: 0,
        at: None,
        action: GainAction::SetAll,
        gain: 1_048_577,
        answer: GainAnswer::Refused(ChangeFault::Range),
        next: 0,
        shown: 131_072,
        shows: "a gain out of range is refused",
    },
    Move {
        round: 0,
        at: None,
        action: GainAction::SetOne {
            output: 1,
            input: 0,
            gain: 0,
        },
        gain: 0,
        answer: GainAnswer::Refused(ChangeFault::Shape),
        next: 0,
        shown: 131_072,
        shows: "an output that the studio lacks is refused",
    },
    Move {
        round: 0,
        at: None,
        action: GainAction::SetOne {
            output: 0,
            input: 1,
            gain: 0,
        },
        gain: 0,
        answer: GainAnswer::Refused(ChangeFault::Shape),
        next: 0,
        shown: 131_072,
        shows: "an input that the studio lacks is refused",
    },
];

/// Requests between the two blocks, after a change was planned.
const SECOND_BLOCK: [Move; 4] = [
    Move {
        round: 0,
        at: None,
        action: GainAction::SetAll,
        gain: 131_072,
        answer: GainAnswer::Taken(0),
        next: 0,
        shown: 131_072,
        shows: "a change for now",
    },
    Move {
        round: 0,
        at: Some(8),
        action: GainAction::SetAll,
        gain: -65_536,
        answer: GainAnswer::Taken(8),
        next: 0,
        shown: -65_536,
        shows: "a change that is planned",
    },
    Move {
        round: 3,
        at: Some(3),
        action: GainAction::SetAll,
        gain: 0,
        answer: GainAnswer::Refused(ChangeFault::Time),
        next: 6,
        shown: 131_072,
        shows: "a time of the first block, which was sent, is refused",
    },
    Move {
        round: 3,
        at: None,
        action: GainAction::SetOne {
            output: 0,
            input: 0,
            gain: 196_608,
        },
        gain: 0,
        answer: GainAnswer::Taken(6),
        next: 6,
        shown: 196_608,
        shows: "a change for now begins with the second block, and replaces the planned one",
    },
];

/// Tests that a run sent these two datagrams, and that all requests were answered.
fn sent_both<R: Abort>(
    rt: &R,
    report: &WorkReport,
    sink: &MemorySink,
    source: &PlannedMoves<'_, R>,
    datagrams: [&[u8]; 2],
) {
    assert!(rt; report.settled);
    assert!(rt;
        source.answered == source.moves.len(),
        "all requests were answered"
    );
    let kept = sink.kept();
    assert!(rt; kept.len() == 2);
    assert!(rt; kept[0].as_slice() == datagrams[0], "the first");
    assert!(rt; kept[1].as_slice() == datagrams[1], "the second");
}

/// Runs one stream in this thread, with a source of gains.
fn run_alone<R: Wait + Abort, F: Feed, C: Clock, G: GainSource>(
    rt: &R,
    alloc: Global,
    feeds: [F; 2],
    clock: C,
    gains: G,
) -> (WorkReport, MemorySink, G) {
    let (report, sink, _, gains) = run_observed(rt, alloc, feeds, clock, NoObserver, gains);
    (report, sink, gains)
}

/// Runs one stream in this thread, with an observer and a source of gains.
fn run_observed<R: Wait + Abort, F: Feed, C: Clock, T: RunObserver<F>, G: GainSource>(
    rt: &R,
    alloc: Global,
    feeds: [F; 2],
    clock: C,
    observer: T,
    gains: G,
) -> (WorkReport, MemorySink, T, G) {
    let studio = one_stream(alloc).expect(rt, "a studio");
    let feeds = list_of(rt, alloc, feeds);
    let devices = RunDevices {
        feeds,
        clock,
        sink: MemorySink::new(alloc),
        observer: observer,
        wait: NoPause,
        gains,
    };
    let Ok(done) = run_engine(rt, alloc, &studio, devices) else {
        panic!(rt; "there is memory")
    };
    done
}

/// Runs a studio of one stream by workers, with a source of gains.
fn run_in_workers<R: Threads + Wait + Abort + Sync, G: GainSource>(
    rt: &R,
    alloc: Global,
    studio: &StudioSpec,
    packets: &[Vec<u8>],
    gains: G,
) -> (WorkReport, MemorySink, G) {
    let _sound = studio.streams();
    let Some(ends) = try_open(rt, alloc, studio, 4) else {
        panic!(rt; "there is memory for the rings")
    };
    let feeds = list_of(rt, alloc, [MemoryFeed::new(packets), MemoryFeed::new(&[])]);
    let clocks = list_of(rt, alloc, [MemoryClock::new(&[0])]);
    assert!(rt; feeds.len() == ends.paths.len(), "a feed for each path");
    assert!(rt;
        clocks.len() == ends.streams.len(),
        "a clock for each stream"
    );
    let devices = WorkerDevices {
        feeds,
        clocks,
        sink: MemorySink::new(alloc),
        gains,
    };
    let Ok(done) = devices.run(rt, alloc, ends) else {
        panic!(rt; "there is memory")
    };
    done
}

/// Requests before the first block: a change for the current time, one for a time within the second block, and refused
/// ones.
#[test]
fn one_thread_takes_changes_before_the_first_block(rt: HostRuntime) {
    let packets = two_packets(&rt, rt.alloc());
    let feeds = [MemoryFeed::new(&packets), MemoryFeed::new(&[])];
    let source = PlannedMoves::new(&rt, rt.alloc(), &FIRST_ROUND);
    let done = run_alone(&rt, rt.alloc(), feeds, MemoryClock::new(&[0]), source);
    let (report, sink, source) = done;
    sent_both(&rt, &report, &sink, &source, [&DOUBLED, &TURNED]);
}

/// Those requests in a run by workers, in which the mixer's worker asks before its first turn.
#[test]
fn workers_take_changes_before_the_first_block(rt: HostRuntime) {
    let packets = two_packets(&rt, rt.alloc());
    let studio = one_stream(rt.alloc()).expect(&rt, "a studio");
    let source = PlannedMoves::new(&rt, rt.alloc(), &FIRST_ROUND);
    let done = run_in_workers(&rt, rt.alloc(), &studio, &packets, source);
    let (report, sink, source) = done;
    sent_both(&rt, &report, &sink, &source, [&DOUBLED, &TURNED]);
}

// The first feed fails after each datagram, so that the packets are taken in the rounds 0 and 1. The second one fails
// in the rounds 0 to 2, so that the run goes on to round 3. The reading of round 2 is the deadline of the first block.
/// Requests between the blocks: the first block is not changed any more, and the second has the change for now. The
/// observer gets each change in its place among the datagrams, and none that was refused.
#[test]
fn one_thread_takes_a_change_between_two_blocks(rt: HostRuntime) {
    let packets = two_packets(&rt, rt.alloc());
    let feeds = [FaultyFeed::new(0, 1, &packets), FaultyFeed::new(3, 1, &[])];
    let source = PlannedMoves::new(&rt, rt.alloc(), &SECOND_BLOCK);
    let clock = MemoryClock::new(&[0, 0, 12]);
    let observer = OrderOfCalls::new(&rt, rt.alloc());
    let done = run_observed(&rt, rt.alloc(), feeds, clock, observer, source);
    let (report, sink, observer, source) = done;
    sent_both(&rt, &report, &sink, &source, [&DOUBLED, &TRIPLED]);
    assert!(&rt;
        observer.calls.as_slice() == b"ggddgc".as_slice(),
        "two changes, both packets, and a change"
    );
    assert!(&rt; observer.noted.len() == 3);
    assert!(&rt;
        observer.noted[2].0 == 6,
        "the third is for the second block"
    );
    assert!(&rt;
        observer.noted[2].1.as_slice() == [196_608i32].as_slice(),
        "gain 3"
    );
}

/// The mixer's worker without a source of gains: once all streams have ended, a turn that finds nothing is the last.
#[test]
fn the_mixer_ends_once_all_streams_have_ended(rt: HostRuntime) {
    let studio = one_stream(rt.alloc()).expect(&rt, "a studio");
    let ends = try_open(&rt, rt.alloc(), &studio, 4).expect(&rt, "the rings");
    let ended = [AtomicBool::new(true)];
    let stop = AtomicBool::new(false);
    let sink = MemorySink::new(rt.alloc());
    let mixed = run_mixer(&rt, ends.mix, sink, &ended, &stop);
    assert!(&rt; mixed.counts.blocks == 0);
    assert!(&rt; mixed.sink.is_whole());
}

/// Asks for the gains again and again, and counts the answers.
#[derive(Drop)]
struct EndlessRequests<'a, R: Abort> {
    rt: &'a R,
    alloc: Global,
    answers: u64,
    taken: Vec<(i64, Vec<i32>)>,
}

impl<'a, R: Abort> GainSource for EndlessRequests<'a, R> {
    ghost taken = { λ source. map (λ change. (change.0, change.1.items)) source.taken.items };

    ghost asks = { λ source. true };

    fn next(&mut self, _gains: &mut [i32]) -> Option<GainRequest> {
        Some(GainRequest {
            at: None,
            action: GainAction::Show,
        })
    }

    fn answer(&mut self, answer: GainAnswer, _next_block_start: i64, gains: &[i32]) {
        self.answers = self.answers.saturating_add(1);
        if let GainAnswer::Taken(at) = answer {
            keep(self.rt, self.alloc, &mut self.taken, at, gains);
        }
    }
}

/// A source that always has another request is called 64 times in each of the two rounds, and the run ends.
#[test]
fn endless_requests_do_not_hold_up_a_run(rt: HostRuntime) {
    let packets = two_packets(&rt, rt.alloc());
    let feeds = [MemoryFeed::new(&packets), MemoryFeed::new(&[])];
    let source = EndlessRequests {
        rt: &rt,
        alloc: rt.alloc(),
        answers: 0,
        taken: Vec::new(rt.alloc()),
    };
    let done = run_alone(&rt, rt.alloc(), feeds, MemoryClock::new(&[0]), source);
    let (report, sink, source) = done;
    assert!(&rt; report.settled);
    assert!(&rt; source.answers == 128);
    gave_both(&rt, sink.kept());
}
