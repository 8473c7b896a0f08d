//! The report of a run, and the error of a run in threads that has none.
ghost use Rattle.std.specs.Prelude.{◌≡◌};
ghost use Rattle.studio_io.specs.Balances.{Balances};
ghost use Rattle.studio_io.specs.declared.report.WorkFault.TheVariants as fault;

use crate::sink::SendCounts;
use rtp_stream::StreamCounts;
use std::alloc::AllocError;
use thiserror::Error;

/// The report of a run: the counts of each stream, the faults of each feed, and the datagrams of the mix by the result
/// of sending them.
#[derive(Drop)]
pub struct WorkReport {
    /// The counts of each stream.
    pub streams: Vec<StreamCounts>,
    /// The number of faults of each feed, ordered by stream and then by path. A number stays at 2^64 - 1 once it is
    /// reached.
    pub feed_faults: Vec<u64>,
    /// The number of datagrams that the sink was passed.
    pub blocks: u64,
    /// The datagrams that the first address took.
    pub sent_a: u64,
    /// The datagrams that the second address took.
    pub sent_b: u64,
    /// The datagrams that failed at the first address.
    pub fault_a: u64,
    /// The datagrams that failed at the second address.
    pub fault_b: u64,
    /// True if nothing was left over: the sink was passed the datagrams of all blocks that were ready. For a run in
    /// threads `studio_rings::is_settled_with` states when it is true.
    pub settled: bool,
}

impl WorkReport {
    /// Returns the report of a run with these counts of streams, feeds and datagrams.
    pub fn new(
        streams: Vec<StreamCounts>,
        feed_faults: Vec<u64>,
        counts: SendCounts,
        settled: bool,
    ) -> WorkReport
        ensures balance { Balances result.blocks result.sent_a result.fault_a result.sent_b result.fault_b }
        ensures streams { result.streams ≡ streams }
        ensures faults { result.feed_faults ≡ feed_faults }
        ensures blocks { result.blocks ≡ counts.blocks }
        ensures sent_a { result.sent_a ≡ counts.sent_a }
        ensures sent_b { result.sent_b ≡ counts.sent_b }
        ensures fault_a { result.fault_a ≡ counts.fault_a }
        ensures fault_b { result.fault_b ≡ counts.fault_b }
        ensures settled { result.settled ≡ settled }
    {
        WorkReport {
            streams,
            feed_faults,
            blocks: counts.blocks,
            sent_a: counts.sent_a,
            sent_b: counts.sent_b,
            fault_a: counts.fault_a,
            fault_b: counts.fault_b,
            settled,
        }
    }
}

/// The error of a run in threads, which then has no report.
#[derive(Clone, Copy, Debug, PartialEq, Eq, Error)]
pub enum WorkFault {
    /// An allocation failed. No worker was started.
    #[error("out of memory")]
    Memory,
    /// A thread could not be started. The other workers were stopped and joined.
    #[error("a worker couldn't be started")]
    Start,
}

impl From<AllocError> for WorkFault {
    ghost from_gives = { λ _ to. to ≡ fault.Memory };

    fn from(_error: AllocError) -> WorkFault {
        WorkFault::Memory
    }
}
