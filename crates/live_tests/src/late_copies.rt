//! Tests of copies of the mix in which streams are missing: when each is passed on, and in which order.
ghost use Rattle.std.specs.Prelude.{None};

use engine_tests::small_studios::sum_of;
use live_io::{CopyTime, LateSettings, RunHealth, TimelySink};
use rtp_stream::{StreamClock, StreamSpec};
use rtp_wire::Enc;
use std::alloc::Global;
use std::process::Abort;
use std::sync::atomic::{AtomicU64, Ordering};
use studio_config::StudioSpec;
use studio_io::{MemoryClock, Missing, MixedBlock, SendAnswer, Sink};

/// Nothing is missing.
const WHOLE: Missing = Missing::NOTHING;

/// One stream is missing.
const ONE: Missing = Missing {
    streams: 1,
    is_empty: false,
};

/// Two streams are missing.
const TWO: Missing = Missing {
    streams: 2,
    is_empty: false,
};

/// Streams are missing, and there is nothing else.
const EMPTY: Missing = Missing {
    streams: 1,
    is_empty: true,
};

/// A sink that notes the first octet of each datagram, a decimal digit, behind those before.
#[derive(Drop)]
struct NotingSink<'a> {
    noted: &'a AtomicU64,
}

impl Sink for NotingSink<'_> {
    ghost handed = { λ sink. None };

    ghost answered = { λ sink. None };

    fn send(&mut self, datagram: &[u8]) -> SendAnswer {
        if let Some(octet) = datagram.first() {
            let noted = self.noted.load(Ordering::SeqCst);
            let all = noted.wrapping_mul(10).wrapping_add(u64::from(*octet));
            self.noted.store(all, Ordering::SeqCst);
        }
        SendAnswer { a: true, b: true }
    }
}

/// Returns a studio of one stream in packets of six sampling instants, with a latency of twelve, and an output of the
/// same from 0 on. Its copies wait ten sampling instants.
fn studio(rt: &impl Abort, alloc: Global) -> StudioSpec {
    let clock = StreamClock::Media { offset: 0 };
    let stream = StreamSpec::new(Enc::L24, 1, 6, 96, None, clock, 12, 8, 2);
    let stream = stream.expect(rt, "the stream is fine");
    let studio = sum_of(alloc, &[stream], 6);
    studio.expect(rt, "there is memory").with_late(10)
}

/// A copy is sent at once, late, later or never, by what is missing in it, by the delay, and by whether the run yields.
#[test]
fn the_time_of_a_copy_depends_on_what_is_missing(rt: HostRuntime) {
    let cases = [
        ("whole", WHOLE, 10, false, CopyTime::AtOnce),
        ("one stream is missing", ONE, 10, false, CopyTime::Late),
        ("two are missing", TWO, 10, false, CopyTime::Later),
        ("nothing is there", EMPTY, 10, false, CopyTime::Never),
        (
            "whole, and the run yields",
            WHOLE,
            10,
            true,
            CopyTime::Later,
        ),
        (
            "nothing is there, and the run yields",
            EMPTY,
            10,
            true,
            CopyTime::Never,
        ),
        ("no delay", TWO, 0, false, CopyTime::AtOnce),
        (
            "no delay, and nothing is there",
            EMPTY,
            0,
            true,
            CopyTime::AtOnce,
        ),
    ];
    for (shows, missing, late, yields, time) in cases {
        assert_eq!(rt; CopyTime::of(missing, late, yields), time, "{shows}");
    }
}

/// Whole copies are passed on when they come, and the others once their delay is over, behind the whole one that comes
/// then. One that is never sent is left out.
#[test]
fn copies_wait_by_what_is_missing_in_them(rt: HostRuntime) {
    let studio = studio(&rt, rt.alloc());
    let health = RunHealth::new(rt.alloc(), &studio).expect(&rt, "there is memory");
    let noted = AtomicU64::new(0);
    // The block of number n is due at 6 (n + 1) + 12. The first copy waits until 34, the second until 50.
    let readings = [18, 24, 30, 36, 42, 50];
    let blocks = [WHOLE, ONE, TWO, EMPTY, WHOLE, WHOLE];
    let sink = TimelySink::new(
        rt.alloc(),
        NotingSink { noted: &noted },
        MemoryClock::new(&readings),
        LateSettings::of(&studio, 0),
        &health,
    );
    let mut sink = sink.expect(&rt, "there is memory");
    let after = [1, 1, 1, 12, 125, 12_563];
    for (place, missing) in blocks.iter().enumerate() {
        let block = MixedBlock {
            inputs: &[],
            missing: *missing,
        };
        let answer = sink.send_block(&[place as u8 + 1], &block);
        assert!(rt; answer.a && answer.b, "{place}");
        assert_eq!(rt; noted.load(Ordering::SeqCst), after[place], "{place}");
    }
    let mix = health.mix();
    let counts = (
        mix.incomplete(),
        mix.sent_late(),
        mix.left_out(),
        mix.stale(),
    );
    assert!(rt; counts == (3, 2, 1, 0));
}

/// At the end of a run a copy is sent once its time has come, and left out if it would wait for more than a second.
#[test]
fn copies_that_wait_at_the_end_are_sent_or_left_out(rt: HostRuntime) {
    // The block is due at 18, and its copy waits until 28. The readings at the end, and what becomes of the copy.
    let cases: [(&[i64], u64, u64); 2] = [(&[18, 20, 27, 28], 1, 0), (&[18, 27], 0, 1)];
    let studio = studio(&rt, rt.alloc());
    for (readings, sent, left_out) in cases {
        let health = RunHealth::new(rt.alloc(), &studio).expect(&rt, "there is memory");
        let noted = AtomicU64::new(0);
        let sink = TimelySink::new(
            rt.alloc(),
            NotingSink { noted: &noted },
            MemoryClock::new(readings),
            LateSettings::of(&studio, 0),
            &health,
        );
        let mut sink = sink.expect(&rt, "there is memory");
        let block = MixedBlock {
            inputs: &[],
            missing: ONE,
        };
        let _answer = sink.send_block(&[1], &block);
        assert_eq!(rt; noted.load(Ordering::SeqCst), 0);
        sink.finish(&rt);
        assert_eq!(rt; noted.load(Ordering::SeqCst), sent);
        assert_eq!(rt; health.mix().sent_late(), sent);
        assert_eq!(rt; health.mix().left_out(), left_out);
    }
}

/// A copy that has waited is left out if it has become useless to every receiver.
#[test]
fn a_copy_that_waited_too_long_is_stale(rt: HostRuntime) {
    let studio = studio(&rt, rt.alloc());
    let health = RunHealth::new(rt.alloc(), &studio).expect(&rt, "there is memory");
    let noted = AtomicU64::new(0);
    // A copy is useful for what the window spans, 48 sampling instants, and a second after its time: 28 + 48,048.
    let readings = [18, 28 + 48_048 + 1];
    let sink = TimelySink::new(
        rt.alloc(),
        NotingSink { noted: &noted },
        MemoryClock::new(&readings),
        LateSettings::of(&studio, 0),
        &health,
    );
    let mut sink = sink.expect(&rt, "there is memory");
    let block = MixedBlock {
        inputs: &[],
        missing: ONE,
    };
    let _answer = sink.send_block(&[1], &block);
    sink.finish(&rt);
    assert_eq!(rt; noted.load(Ordering::SeqCst), 0);
    assert_eq!(rt; health.mix().stale(), 1);
    assert_eq!(rt; health.mix().sent_late(), 0);
}
