//! Cases of one stream, tried by single calls of a merge over each kind of window, and by `run_merge`.
ghost use Rattle.std.specs.Prelude.{All, IsTrue};
ghost use Rattle.path_merge.specs.Run.{IsEventOf};

use super::bench::{Bench, slots_bench, sorted_bench};
use super::steps::{Sent, Step, step_of};
use super::words::{say_mark, says};
use path_merge::{
    Event, Mark, Path, SpecFault, Stream, StreamClock, StreamSpec, Window, run_merge,
};
use rtp_wire::Enc;
use std::alloc::Global;
use std::process::Abort;

/// A stream of L24 in one channel, of 6 sampling instants a packet, on two paths.
pub const STREAM: Stream = Stream {
    enc: Enc::L24,
    channels: 1,
    frames: 6,
    pt: 96,
    ssrc: None,
    clock: StreamClock::Media { offset: 0 },
    latency: 12,
    window: 8,
    paths: 2,
};

/// Returns the specification of a stream that has no fault.
pub fn spec_of(rt: &impl Abort, stream: Stream) -> StreamSpec {
    checked(stream).expect(rt, "a stream")
}

/// Returns the specification of a stream, or its fault.
fn checked(stream: Stream) -> Result<StreamSpec, SpecFault> {
    StreamSpec::of(stream)
}

/// The steps of a stream, and the expected fates, marks and counts, in the words of `steps` and `words`.
#[derive(Clone, Copy)]
pub struct Case {
    /// The claim that the case shows, as a failure reports it.
    pub shows: &'static str,
    pub stream: Stream,
    pub open_at: i64,
    pub steps: &'static str,
    pub fates: &'static str,
    pub marks: &'static str,
    pub counts: &'static str,
}

impl Case {
    /// Tries the case by single calls over each kind of window, and by `run_merge`.
    pub fn check(&self, rt: &impl Abort, alloc: Global) {
        self.check_calls(rt, alloc);
        let spec = spec_of(rt, self.stream);
        let events = events_of(rt, alloc, &spec, self.steps);
        let marks = marks_of(rt, alloc, spec, self.open_at, &events);
        self.has_marks(rt, spec, &marks);
    }

    /// Tries the case by single calls over each kind of window.
    pub fn check_calls(&self, rt: &impl Abort, alloc: Global) {
        let spec = spec_of(rt, self.stream);
        self.check_on(rt, &mut slots_bench(rt, alloc, spec, self.open_at));
        self.check_on(rt, &mut sorted_bench(rt, alloc, spec, self.open_at));
    }

    /// Tries the case on a bench.
    fn check_on<W: Window>(&self, rt: &impl Abort, bench: &mut Bench<W>) {
        bench.take_all(rt, self.steps);
        bench.has_fates(rt, self.fates, self.shows);
        says(rt, &bench.marks, self.marks, self.shows);
        bench.has_counts(rt, self.counts, self.shows);
    }

    /// Tests that the marks of a run are the case's.
    fn has_marks(&self, rt: &impl Abort, spec: StreamSpec, marks: &Vec<Mark>) {
        let mut text = String::new(*marks.allocator());
        for mark in marks {
            say_mark(rt, &spec, &mut text, mark);
        }
        says(rt, &text, self.marks, self.shows);
    }
}

/// Returns the marks of `run_merge` over these events.
fn marks_of(
    rt: &impl Abort,
    alloc: Global,
    spec: StreamSpec,
    open_at: i64,
    events: &[Event],
) -> Vec<Mark>
    requires { All (IsEventOf spec) events.now }
{
    // `run_merge` requires an opening time from 0 to 2^60. The cases have small ones.
    assert!(rt; 0 <= open_at && open_at <= 1_000_000);
    run_merge(alloc, spec, open_at, events).expect(
        rt,
        "the readings are in order, and there is memory",
    )
}

/// Returns true if all are events that the stream can have.
pub fn are_events_of(spec: &StreamSpec, events: &[Event]) -> bool
    ensures { IsTrue result → All (IsEventOf spec.now) events.now }
{
    events.iter().all(|event| match event {
        Event::Arrive(path, packet) => path.number() < spec.paths() && spec.fits(packet),
        Event::Tick(_) | Event::Close => true,
    })
}

/// Returns the events of the steps of a text.
pub fn events_of(rt: &impl Abort, alloc: Global, spec: &StreamSpec, steps: &str) -> Vec<Event>
    ensures { All (IsEventOf spec.now) result.items }
{
    let mut events = Vec::new(alloc);
    push_all(rt, spec, &mut events, steps);
    assert!(rt; are_events_of(spec, &events), "a stream's events");
    events
}

/// Appends the events of the steps of a text.
fn push_all(rt: &impl Abort, spec: &StreamSpec, events: &mut Vec<Event>, steps: &str) {
    for words in steps.split(',') {
        push_events(rt, spec, events, step_of(rt, words));
    }
}

/// Appends the events of a step.
fn push_events(rt: &impl Abort, spec: &StreamSpec, events: &mut Vec<Event>, step: Step) {
    match step {
        Step::On(path, first, times) => push_arrivals(rt, spec, events, path, first, times),
        Step::Tick(now) => push(rt, events, Event::Tick(now)),
        Step::Advance(_) => { panic!(rt; "a single call is no event") }
        Step::Close => push(rt, events, Event::Close),
    }
}

/// Appends an event.
fn push(rt: &impl Abort, events: &mut Vec<Event>, event: Event) {
    events.push(event).expect(rt, "there is memory");
}

/// Appends the arrivals of packets in sequence.
fn push_arrivals(
    rt: &impl Abort,
    spec: &StreamSpec,
    events: &mut Vec<Event>,
    path: Path,
    first: Sent,
    times: u16,
) {
    let mut sent = first;
    for _ in 0..times {
        push(rt, events, Event::Arrive(path, sent.packet(spec)));
        sent = sent.next();
    }
}
