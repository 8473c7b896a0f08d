//! A studio in threads, over two packets on each of two paths.

use super::datagram_text::print_kept;
use crate::inputs::{FIRST, ONE_STREAM, SECOND, studio_of};
use crate::run::run_in_threads;
use std::alloc::{AllocError, Global};
use std::sync::Wait;
use std::thread::Threads;
use studio_io::MemorySink;
use studio_rings::WorkReport;

/// Prints whether a run is settled, how many blocks it sent, and its datagrams.
pub(crate) fn show_run<R: Threads + Wait + Sync + Print>(
    rt: &R,
    alloc: Global,
) -> anyhow::Result<()> {
    println!(rt; "run_in_threads:")?;
    let datagrams = [both_packets(alloc)?, both_packets(alloc)?];
    let (report, sink) = run_one_stream(rt, alloc, &datagrams)?;
    print_run(rt, &report, &sink)
}

/// Runs `ONE_STREAM` over these datagrams, a list for each path.
fn run_one_stream<R: Threads + Wait + Sync>(
    rt: &R,
    alloc: Global,
    datagrams: &[Vec<Vec<u8>>],
) -> anyhow::Result<(WorkReport, MemorySink)> {
    let studio = studio_of(alloc, ONE_STREAM)?;
    let sink = MemorySink::new(alloc);
    Ok(run_in_threads(rt, alloc, &studio, datagrams, &[0], sink)?)
}

/// Prints the report of a run, and the datagrams that its sink kept.
fn print_run(rt: &impl Print, report: &WorkReport, sink: &MemorySink) -> anyhow::Result<()> {
    println!(rt; "settled {}, {} blocks", report.settled, report.blocks)?;
    print_kept(rt, sink)
}

/// Returns both packets.
fn both_packets(alloc: Global) -> Result<Vec<Vec<u8>>, AllocError> {
    let packets = [
        Vec::from_slice(alloc, &FIRST)?,
        Vec::from_slice(alloc, &SECOND)?,
    ];
    Ok(Vec::from_array(alloc, packets)?)
}
