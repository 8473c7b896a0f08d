//! Collects the results of the streams' workers into the parts of a report.
ghost use Rattle.std.specs.Prelude.{◌≡◌, ◌≤◌, length, vec_len, vec_capacity, IfOk};
ghost use Rattle.studio_rings.specs.StreamResults.{counts_in, dones_in, faults_in};

use crate::jobs::StreamResult;
use rtp_stream::StreamCounts;
use std::alloc::{AllocError, Global};
use studio_ends::StreamDone;

/// The tokens and counts of the streams, and the number of faults of each feed.
#[derive(Drop)]
pub(crate) struct RunResults {
    pub(crate) dones: Vec<Option<StreamDone>>,
    pub(crate) streams: Vec<StreamCounts>,
    pub(crate) feed_faults: Vec<u64>,
}

/// Allocates space for the results of this number of streams and feeds.
pub(crate) fn reserve_results(
    alloc: Global,
    streams: usize,
    feeds: usize,
) -> Result<RunResults, AllocError>
    ensures dones { IfOk result (λ parts. (vec_len parts.dones ≡ 0) × (streams ≤ vec_capacity parts.dones)) }
    ensures streams { IfOk result (λ parts. (vec_len parts.streams ≡ 0) × (streams ≤ vec_capacity parts.streams)) }
    ensures feeds { IfOk result (λ parts. (vec_len parts.feed_faults ≡ 0) × (feeds ≤ vec_capacity parts.feed_faults)) }
{
    let dones = Vec::with_capacity(alloc, streams)?;
    let counts = Vec::with_capacity(alloc, streams)?;
    let feed_faults = Vec::with_capacity(alloc, feeds)?;
    Ok(RunResults {
        dones,
        streams: counts,
        feed_faults,
    })
}

/// Splits the results into the parts of a report. The space for them was allocated before, so nothing grows.
pub(crate) fn collect_results(results: Vec<StreamResult>, parts: RunResults) -> RunResults
    requires dones { (vec_len parts.dones ≡ 0) × (vec_len results ≤ vec_capacity parts.dones) }
    requires streams { (vec_len parts.streams ≡ 0) × (vec_len results ≤ vec_capacity parts.streams) }
    requires faults { (vec_len parts.feed_faults ≡ 0)
        × (length (faults_in results.items) ≤ vec_capacity parts.feed_faults) }
    ensures dones { result.dones.items ≡ dones_in results.items }
    ensures streams { result.streams.items ≡ counts_in results.items }
    ensures faults { result.feed_faults.items ≡ faults_in results.items }
{
    let RunResults {
        mut dones,
        mut streams,
        mut feed_faults,
    } = parts;
    for result in results {
        let StreamResult {
            done,
            counts,
            mut faults,
        } = result;
        dones.push_reserved(done);
        streams.push_reserved(counts);
        let Ok(()) = feed_faults.append(&mut faults) else {
            unreachable!();
        };
    }
    RunResults {
        dones,
        streams,
        feed_faults,
    }
}
