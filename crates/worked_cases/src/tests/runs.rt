//! The tests of long runs of a merge with both kinds of window, and of `run_merge` over a list of events.
ghost use Rattle.std.specs.Prelude.{◌<◌, ◌^◌, pos, ◌≤ℤ◌, All};
ghost use Rattle.path_merge.specs.Run.{IsEventOf};

use super::bench::{Bench, slots_bench, sorted_bench};
use super::cases::{STREAM, are_events_of, events_of, spec_of};
use super::steps::Sent;
use super::words::says;
use path_merge::{
    Event, Fate, MarkKindRef, MarkRef, Merge, Path, RunFault, StreamSpec, Window, run_merge,
};
use rtp_stream::PacketRef;
use std::alloc::Global;
use std::process::Abort;

/// Of packets 65,537 to 265,536, through three cycles of sequence numbers, every thousandth is missing. Those alone are
/// lost.
#[test]
fn three_cycles_with_every_thousandth_lost(rt: HostRuntime) {
    let spec = spec_of(&rt, STREAM);
    loses_every_thousandth(&rt, &mut slots_bench(&rt, rt.alloc(), spec, 0));
    loses_every_thousandth(&rt, &mut sorted_bench(&rt, rt.alloc(), spec, 0));
}

/// Tests that on a bench.
fn loses_every_thousandth<W: Window>(rt: &impl Abort, bench: &mut Bench<W>) {
    bench.take_all(rt, "tick 0, a 1 0, tick 6, a 2 6");
    for step in 2..200_000u32 {
        let number = 65_537 + step;
        // A slot is due 12 sampling instants after its media time: two steps.
        gives_slot(rt, bench, number - 2, step * 6 - 12, !is_lost(number - 2));
        if !is_lost(number) {
            take_in_time(rt, bench, number, step * 6);
        }
    }
    bench.close(rt);
    let marks = "quiet -6, got 265535 1199988, got 265536 1199994, end";
    says(rt, &bench.marks, marks, "the first and the last marks");
    let counts = "199800 arrived, 199800 from_a, 199800 got, 200 lost";
    bench.has_counts(rt, counts, "");
}

/// By `offer` and `advance`, which take packets and return marks by value, the same packets give the same slots: each
/// reading gives the one that is due, and nothing after it.
#[test]
fn three_cycles_by_value(rt: HostRuntime) {
    let spec = spec_of(&rt, STREAM);
    let bench = &mut slots_bench(&rt, rt.alloc(), spec, 0);
    bench.take_all(&rt, "tick 0, a 1 0, tick 6, a 2 6");
    let path = Path::new(0).expect(&rt, "a path");
    for step in 2..200_000u32 {
        let number = 65_537 + step;
        advances_to_slot(&rt, bench, number - 2, step * 6 - 12, !is_lost(number - 2));
        if !is_lost(number) {
            let sent = Sent::new((number % 65_536) as u16, step * 6);
            let fate = bench.offer(&rt, path, sent);
            assert!(rt; fate == Fate::Taken, "number {number}");
        }
    }
    bench.close(&rt);
    let marks = "quiet -6, got 265535 1199988, got 265536 1199994, end";
    says(&rt, &bench.marks, marks, "the first and the last marks");
    let counts = "199800 arrived, 199800 from_a, 199800 got, 200 lost";
    bench.has_counts(&rt, counts, "");
}

/// Advances to the deadline of a number, and tests that the first call returns its slot and the second one nothing.
fn advances_to_slot<W: Window>(
    rt: &impl Abort,
    bench: &mut Bench<W>,
    number: u32,
    media: u32,
    is_got: bool,
) {
    let now = i64::from(media) + 12;
    let mark = bench
        .merge
        .advance(now)
        .expect(rt, "the reading is in order");
    let mark = mark.expect(rt, "the slot is due");
    assert!(rt;
        is_slot(&mark.as_ref(), number, media, is_got),
        "number {number}"
    );
    let more = bench
        .merge
        .advance(now)
        .expect(rt, "the reading is in order");
    assert!(rt; more.is_none(), "number {number} alone");
}

/// Returns true if a number is a multiple of 1,000.
fn is_lost(number: u32) -> bool {
    number % 1000 == 0
}

// Long runs use the calls that borrow payloads: copies of 1,440 octets for each packet and mark would take most of the
// time.
/// Offers the packet of a number, and tests that it is taken.
fn take_in_time<W: Window>(rt: &impl Abort, bench: &mut Bench<W>, number: u32, ts: u32) {
    let path = Path::new(0).expect(rt, "a path");
    let payload = payload_of(number);
    let packet = PacketRef {
        seq: (number % 65_536) as u16,
        ts,
        ssrc: 1,
        payload: &payload,
    };
    // `Merge::offer_ref` requires these.
    assert!(rt; path.number() < bench.spec.paths() && bench.spec.payload_len() == 18);
    let fate = bench.merge.offer_ref(path, packet);
    assert!(rt; fate == Fate::Taken, "number {number}");
}

/// Advances to the deadline of a number, and tests that this returns its slot and no other mark.
fn gives_slot<W: Window>(
    rt: &impl Abort,
    bench: &mut Bench<W>,
    number: u32,
    media: u32,
    is_got: bool,
) {
    let goal = bench.merge.goal(i64::from(media) + 12);
    let goal = goal.expect(rt, "the reading is in order");
    let mark = bench.merge.mark_to(goal).expect(rt, "the slot is due");
    assert!(rt; is_slot(&mark, number, media, is_got), "number {number}");
    assert!(rt; bench.merge.pass_to(goal), "number {number}");
    assert!(rt;
        bench.merge.mark_to(goal).is_none(),
        "number {number} alone"
    );
}

/// Returns true if a mark is the slot of this number and media time, with the number's payload or lost.
fn is_slot(mark: &MarkRef<'_>, number: u32, media: u32, is_got: bool) -> bool {
    let octets = payload_of(number);
    let body = if is_got {
        Some(octets.as_slice())
    } else {
        None
    };
    match mark.kind() {
        MarkKindRef::Slot {
            epoch,
            number: given,
            media: begin,
            payload,
        } => {
            (epoch, given, begin) == (0, u64::from(number), i64::from(media)) && payload == body
        }
        MarkKindRef::Quiet { .. } | MarkKindRef::End => false,
    }
}

/// Returns the payload of a number's packet, as `Sent::packet` makes it.
fn payload_of(number: u32) -> [u8; 18] {
    let mut octets = [1, 2, 3, 4, 5, 6, 7, 8, 9, 10, 11, 12, 13, 14, 15, 16, 17, 0];
    octets[17] = (number % 256) as u8;
    octets
}

/// After packets 65,536 to 131,071 a restart opens an epoch. Its first number is again near 65,536: 66,043.
#[test]
fn numbers_begin_again_with_an_epoch(rt: HostRuntime) {
    let spec = spec_of(&rt, STREAM);
    restarts_after_a_cycle(&rt, &mut slots_bench(&rt, rt.alloc(), spec, 0));
    restarts_after_a_cycle(&rt, &mut sorted_bench(&rt, rt.alloc(), spec, 0));
}

/// Tests that on a bench.
fn restarts_after_a_cycle<W: Window>(rt: &impl Abort, bench: &mut Bench<W>) {
    bench.take_all(rt, "tick 0, a 0 0, tick 6, a 1 6");
    for step in 2..65_536u32 {
        gives_slot(rt, bench, 65_534 + step, step * 6 - 12, true);
        take_in_time(rt, bench, 65_536 + step, step * 6);
    }
    bench.take_all(rt, "tick 393222, a 500 393188 x 8, tick 393242");
    let marks = "quiet -6, got 131070 393204, got 131071 393210, got 1:66043 393230";
    says(rt, &bench.marks, marks, "the first and the last marks");
    let counts = "65544 arrived, 65537 from_a, 7 off_grid, 65537 got, 1 restarts";
    bench.has_counts(rt, counts, "");
}

/// An opening time, steps, and the place of the first clock reading that is out of order, if there is one.
#[derive(Clone, Copy)]
struct Readings {
    shows: &'static str,
    open_at: i64,
    steps: &'static str,
    place: Option<usize>,
}

const READINGS: [Readings; 5] = [
    Readings {
        shows: "a reading goes back, and arrivals count as places",
        open_at: 0,
        steps: "tick 6, a 1 0, tick 5, tick 4",
        place: Some(2),
    },
    Readings {
        shows: "a first reading is before the opening",
        open_at: 10,
        steps: "tick 9",
        place: Some(0),
    },
    Readings {
        shows: "a reading is past 2^60",
        open_at: 0,
        steps: "tick 1152921504606846976, tick 1152921504606846977",
        place: Some(1),
    },
    Readings {
        shows: "a reading follows a close",
        open_at: 0,
        steps: "close, close, tick 6",
        place: Some(2),
    },
    Readings {
        shows: "a repeated reading and a repeated close are in order",
        open_at: 0,
        steps: "tick 6, tick 6, close, close",
        place: None,
    },
];

/// Returns the place of the first clock reading that is out of order in a run over these events, if there is one.
fn place_of_fault(alloc: Global, spec: StreamSpec, open_at: i64, events: &[Event]) -> Option<usize>
    requires not_low { pos 0 ≤ℤ open_at }
    requires not_high { open_at ≤ℤ pos (2 ^ 60) }
    requires events { All (IsEventOf spec) events.now }
{
    match run_merge(alloc, spec, open_at, events) {
        Err(RunFault::Clock(place)) => Some(place),
        _ => None,
    }
}

/// `run_merge` names the place of the first clock reading that goes back, is before the opening or past 2^60, or
/// follows a close.
#[test]
fn a_run_names_the_first_reading_out_of_order(rt: HostRuntime) {
    for row in &READINGS {
        let place = place_in(&rt, rt.alloc(), row.open_at, row.steps);
        assert!(rt; place == row.place, "{}", row.shows);
    }
}

/// Returns the place of the first clock reading that is out of order in a run over these steps, if there is one.
fn place_in(rt: &impl Abort, alloc: Global, open_at: i64, steps: &str) -> Option<usize> {
    let spec = spec_of(rt, STREAM);
    // `run_merge` requires an opening time from 0 to 2^60.
    assert!(rt; 0 <= open_at && open_at <= 10);
    place_of_fault(alloc, spec, open_at, &events_of(rt, alloc, &spec, steps))
}

/// A run of 101 marks, whose list grows several times, is made twice: if one allocation fails, each run returns all
/// marks or an error, and at most one returns an error.
#[test]
fn each_refused_allocation_of_a_run_is_answered(rt: HostRuntime) {
    let spec = spec_of(&rt, STREAM);
    let events = [arrival(&rt, &spec), Event::Tick(606), Event::Close];
    runs_again(&rt, rt.alloc(), spec, &events);
}

/// Tests that with these events.
fn runs_again(rt: &impl Abort, alloc: Global, spec: StreamSpec, events: &[Event]) {
    assert!(rt; are_events_of(&spec, events));
    let first = mark_count(rt, alloc, spec, events);
    let second = mark_count(rt, alloc, spec, events);
    let counts = [first.unwrap_or(101), second.unwrap_or(101)];
    assert!(rt; counts == [101, 101], "all marks or none");
    assert!(rt;
        first.is_some() || second.is_some(),
        "one of the runs succeeds"
    );
}

/// Returns the arrival of the packet (1, 0) on the first path.
fn arrival(rt: &impl Abort, spec: &StreamSpec) -> Event {
    let path = Path::new(0).expect(rt, "a path");
    Event::Arrive(path, Sent::new(1, 0).packet(spec))
}

/// Returns the number of marks that a run returned, or none if an allocation failed.
fn mark_count(rt: &impl Abort, alloc: Global, spec: StreamSpec, events: &[Event]) -> Option<usize>
    requires { All (IsEventOf spec) events.now }
{
    match run_merge(alloc, spec, 0, events) {
        Ok(marks) => Some(marks.len()),
        Err(RunFault::Memory(_)) => None,
        Err(RunFault::Clock(_)) => { panic!(rt; "the readings are in order") }
    }
}

/// A merge is made twice: if one allocation fails, at most one of the two calls returns an error.
#[test]
fn each_refused_allocation_is_answered(rt: HostRuntime) {
    let spec = spec_of(&rt, STREAM);
    let first = is_made(rt.alloc(), spec);
    let second = is_made(rt.alloc(), spec);
    assert!(rt; first || second, "a merge");
}

/// Returns true if a merge was made. Returns false if an allocation failed.
fn is_made(alloc: Global, spec: StreamSpec) -> bool {
    Merge::new(alloc, spec, 0).is_ok()
}
