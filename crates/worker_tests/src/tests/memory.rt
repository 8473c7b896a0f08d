//! Refused allocations: `rt try --test --fail-alloc N` refuses the Nth of each test.
//!
//! The tests of this file pass for every N: the call that meets it says so, and the next succeeds.

use super::fakes::NoPause;
use super::workers::{one_stream, try_run};
use engine_run::{NoObserver, RunDevices, run_engine};
use engine_tests::small_packets::both_packets;
use std::alloc::{AllocError, Global};
use std::process::Abort;
use std::sync::Wait;
use std::thread::Threads;
use studio_config::StudioSpec;
use studio_io::{MemoryClock, MemoryFeed, MemorySink, NoGains};
use studio_rings::{WorkFault, WorkReport};

/// Returns a studio of one stream, though one allocation may be refused.
fn one_stream_at_last(rt: &impl Abort, alloc: Global) -> StudioSpec {
    let studio = one_stream(alloc).or_else(|| one_stream(alloc));
    studio.expect(rt, "with memory again")
}

/// Tests that each of two blocks was kept, or is reported as a fault of both addresses.
fn kept_or_reported(rt: &impl Abort, report: &WorkReport, sink: &MemorySink) {
    assert!(rt; report.settled);
    assert!(rt; report.blocks == 2);
    let kept = sink.kept().len() as u64;
    assert!(rt; (report.sent_a, report.sent_b) == (kept, kept));
    assert!(rt; sink.is_whole() == (kept == 2));
}

/// Returns the feeds of two paths.
fn two_feeds<'a>(alloc: Global, packets: &'a [Vec<u8>]) -> Result<Vec<MemoryFeed<'a>>, AllocError> {
    Ok(Vec::from_array(alloc, [MemoryFeed::new(packets), MemoryFeed::new(packets)])?)
}

/// Returns the clock of one stream.
fn one_clock(alloc: Global) -> Result<Vec<MemoryClock<'static>>, AllocError> {
    Ok(Vec::from_array(alloc, [MemoryClock::new(&[0])])?)
}

/// Runs two blocks by workers. What the sink could not keep is reported as a fault of both addresses.
fn run_by_workers<R: Threads + Wait + Abort + Sync>(
    rt: &R,
    alloc: Global,
    studio: &StudioSpec,
    packets: &[Vec<u8>],
) -> Result<(), WorkFault> {
    let feeds = two_feeds(alloc, packets)?;
    let clocks = one_clock(alloc)?;
    let sink = MemorySink::new(alloc);
    let (report, sink) = try_run(rt, alloc, studio, 64, feeds, clocks, sink)?;
    kept_or_reported(rt, &report, &sink);
    Ok(())
}

/// A run by workers with any one allocation refused: each block is kept or reported as a fault, or the run returns an
/// error, and succeeds the next time.
#[test]
fn each_refused_allocation_of_a_run_is_answered(rt: HostRuntime) {
    let alloc = rt.alloc();
    let studio = one_stream_at_last(&rt, alloc);
    let packets = both_packets(alloc).or_else(|_| both_packets(alloc));
    let packets = packets.expect(&rt, "with memory again");
    let first = run_by_workers(&rt, alloc, &studio, &packets);
    let second = run_by_workers(&rt, alloc, &studio, &packets);
    // The fault may be either: a thread takes memory as it starts.
    assert!(rt; first.is_ok() || second.is_ok(), "with memory again");
}

/// Returns true if a run of two blocks in one thread was made; else an allocation was refused.
fn is_run_alone<R: Wait + Abort>(
    rt: &R,
    alloc: Global,
    studio: &StudioSpec,
    packets: &[Vec<u8>],
) -> bool {
    let Ok(feeds) = two_feeds(alloc, packets) else {
        return false;
    };
    let devices = RunDevices {
        feeds,
        clock: MemoryClock::new(&[0]),
        sink: MemorySink::new(alloc),
        observer: NoObserver,
        wait: NoPause,
        gains: NoGains,
    };
    match run_engine(rt, alloc, studio, devices) {
        Ok((report, sink, _, _)) => {
            kept_or_reported(rt, &report, &sink);
            true
        }
        Err(_) => false,
    }
}

/// A run in one thread with any one allocation refused: as that by workers.
#[test]
fn each_refused_allocation_of_a_run_in_one_thread_is_answered(rt: HostRuntime) {
    let alloc = rt.alloc();
    let studio = one_stream_at_last(&rt, alloc);
    let packets = both_packets(alloc).or_else(|_| both_packets(alloc));
    let packets = packets.expect(&rt, "with memory again");
    let first = is_run_alone(&rt, alloc, &studio, &packets);
    let second = is_run_alone(&rt, alloc, &studio, &packets);
    assert!(rt; first || second, "with memory again");
}
