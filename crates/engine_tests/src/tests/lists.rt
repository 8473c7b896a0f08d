//! The tests of `run_studio` over a list of events: two streams of unlike packets, and failed allocations.
use crate::small_packets::{ones, ones_alone, sums, thousands, thousands_alone};
use crate::small_studios::six_and_forty_eight;
use path_merge::Path;
use std::alloc::{AllocError, Global};
use std::process::Abort;
use studio_config::StudioSpec;
use studio_session::{Report, StudioEvent, StudioFault, run_studio};

/// Returns the arrival of a datagram on the first path of a stream.
fn arrival(rt: &impl Abort, stream: u8, octets: Vec<u8>) -> StudioEvent {
    let path = Path::new(0).expect(rt, "a path");
    StudioEvent::Arrive {
        stream,
        path,
        octets,
    }
}

/// Appends the arrivals of eight packets of 1000, from 0 on, of the stream of 6 sampling instants a packet.
fn push_thousands(rt: &impl Abort, events: &mut Vec<StudioEvent>) {
    let packets = thousands(*events.allocator()).expect(rt, "there is memory");
    for octets in packets {
        push(rt, events, arrival(rt, 0, octets));
    }
}

/// Appends an event.
fn push(rt: &impl Abort, events: &mut Vec<StudioEvent>, event: StudioEvent) {
    events.push(event).expect(rt, "there is memory");
}

/// Returns the report of events of both streams.
fn report_of(rt: &impl Abort, alloc: Global, events: &[StudioEvent]) -> Report {
    let spec = six_and_forty_eight(alloc, 2).expect(rt, "there is memory");
    run_studio(alloc, &spec, events).expect(rt, "there is memory")
}

/// Tests that a datagram has these octets.
fn is_datagram(rt: &impl Abort, found: Option<&Vec<u8>>, wanted: Result<Vec<u8>, AllocError>) {
    let wanted = wanted.expect(rt, "there is memory");
    assert!(rt; found.expect(rt, "a datagram") == &wanted);
}

/// Tests the numbers of a stream's packets that were sent, taken and got, and of its slots that were lost.
fn has_counts(rt: &impl Abort, report: &Report, stream: usize, wanted: [u64; 4]) {
    let counts = report.streams.get(stream).expect(rt, "a stream");
    let path = counts.paths.first().expect(rt, "a path");
    let merge = &counts.merge;
    let found = [path.sent, merge.taken, merge.got, merge.lost];
    assert!(rt; found == wanted, "stream {stream}: {found:?}");
}

/// Eight packets of 6 sampling instants from 0 on and one of 48 from 20 on are two datagrams of 48. The second ends in
/// silence, since the greatest end is 68.
#[test]
fn packets_of_6_and_48_are_added(rt: HostRuntime) {
    let mut events = Vec::new(rt.alloc());
    push_thousands(&rt, &mut events);
    let ones = ones(rt.alloc()).expect(&rt, "there is memory");
    push(&rt, &mut events, arrival(&rt, 1, ones));
    push(&rt, &mut events, StudioEvent::Close);
    adds_both(&rt, &report_of(&rt, rt.alloc(), &events));
}

/// Tests that a report has both datagrams of the sum, and its counts.
fn adds_both(rt: &impl Abort, report: &Report) {
    let alloc = *report.datagrams.allocator();
    assert!(rt; report.datagrams.len() == 2);
    is_datagram(rt, report.datagrams.first(), sums(alloc));
    is_datagram(rt, report.datagrams.last(), ones_alone(alloc));
    has_counts(rt, report, 0, [8, 8, 8, 0]);
    has_counts(rt, report, 1, [1, 1, 1, 0]);
}

/// At 96 a stream without packets is silent up to 48, so one block of the other one's packets is ready without a close.
#[test]
fn a_silent_stream_holds_up_no_block(rt: HostRuntime) {
    let mut events = Vec::new(rt.alloc());
    push_thousands(&rt, &mut events);
    push(&rt, &mut events, StudioEvent::Tick(96));
    has_one_block(&rt, &report_of(&rt, rt.alloc(), &events));
}

/// Tests that a report has the one block that is ready, and its counts.
fn has_one_block(rt: &impl Abort, report: &Report) {
    let alloc = *report.datagrams.allocator();
    assert!(rt; report.datagrams.len() == 1);
    is_datagram(rt, report.datagrams.first(), thousands_alone(alloc));
    has_counts(rt, report, 0, [8, 8, 8, 7]);
    has_counts(rt, report, 1, [0, 0, 0, 0]);
}

/// A list is run twice: if one allocation fails, at most one of the two runs returns an error.
#[test]
fn each_refused_allocation_of_a_list_is_answered(rt: HostRuntime) {
    let alloc = rt.alloc();
    // The allocation that fails may be one of the studio's, so that is tried twice as well.
    let spec = six_and_forty_eight(alloc, 2).or_else(|| six_and_forty_eight(alloc, 2));
    let spec = spec.expect(&rt, "with memory again");
    let first = is_run(&rt, alloc, &spec);
    let second = is_run(&rt, alloc, &spec);
    assert!(rt; first || second, "with memory again");
}

/// Returns true if a run returned two datagrams. Returns false if an allocation failed.
fn is_run(rt: &impl Abort, alloc: Global, spec: &StudioSpec) -> bool {
    match run_studio(alloc, spec, &[StudioEvent::Tick(96), StudioEvent::Close]) {
        Ok(report) => {
            assert!(rt; report.datagrams.len() == 2);
            true
        }
        Err(fault) => {
            assert!(rt;
                matches!(fault, StudioFault::Memory(_)),
                "only memory can lack"
            );
            false
        }
    }
}
