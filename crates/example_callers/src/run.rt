//! A studio in threads, over feeds, clocks and a sink in memory.
ghost use Rattle.std.specs.Prelude.{◌≡◌, true, map, IfOk};
ghost use Rattle.studio_rings.specs.Balances.{Balances};
ghost use Rattle.studio_rings.specs.Runs.{IsSettledRun};
ghost use Rattle.studio_io.specs.Memory.{told_of};

use std::alloc::{AllocError, AllocFailed, Global};
use std::sync::Wait;
use std::thread::Threads;
use studio_config::StudioSpec;
use studio_ends::{OpenFault, open};
use studio_io::{MemoryClock, MemoryFeed};
use studio_rings::{Sink, WorkFault, WorkReport, run_workers};
use thiserror::Error;

/// The number of packets, marks or counts that a ring holds.
const PLACES: usize = 64;

/// The reason why a run did not begin.
#[derive(Debug, Drop, Error)]
pub enum RunFault {
    /// There are not as many lists of datagrams as the streams have paths.
    #[error("a list of datagrams for each path")]
    Paths,
    /// The rings could not be opened.
    #[error("{0}")]
    Open(#[from] OpenFault),
    /// The workers could not be started.
    #[error("{0}")]
    Work(#[from] WorkFault),
    /// An allocation failed.
    #[error("out of memory")]
    Memory(#[from] AllocError),
}

impl<T: Drop> From<AllocFailed<T>> for RunFault {
    fn from(refused: AllocFailed<T>) -> RunFault {
        RunFault::Memory(refused.into())
    }
}

/// Runs a studio's workers over these datagrams: a list for each path, stream by stream and path by path.
/// The clock of each stream returns these readings.
///
/// If the report is settled, and the sink's contents are known at the end, then the sink was passed the datagrams of
/// exactly the ready blocks. The contents of a `MemorySink` are known if it is whole.
pub fn run_in_threads<R: Threads + Wait + Sync, K: Sink>(
    rt: &R,
    alloc: Global,
    studio: &StudioSpec,
    datagrams: &[Vec<Vec<u8>>],
    readings: &[i64],
    sink: K,
) -> Result<(WorkReport, K), RunFault>
    ensures balance { IfOk result (λ r. Balances r.0.blocks r.0.sent_a r.0.fault_a r.0.sent_b r.0.fault_b) }
    ensures settled { IfOk result (λ r. r.0.settled ≡ true
        → IsSettledRun studio.now 64 (map (λ path. told_of path.items) datagrams.now)
        (map (λ _. readings.now) studio.now.streams) r.0 (K.handed sink) (K.handed r.1)) }
{
    let ends = open(alloc, studio, PLACES)?;
    if datagrams.len() != ends.paths.len() {
        return Err(RunFault::Paths);
    }
    // `run_workers` requires `IsStudio`. The clause `sound` of this call states it; the list itself is not used.
    let _sound = studio.streams();
    let mut feeds = Vec::new(alloc);
    for path in datagrams {
        feeds.push(MemoryFeed::new(path.as_slice()))?;
    }
    let mut clocks = Vec::new(alloc);
    for _ in 0..ends.streams.len() {
        clocks.push(MemoryClock::new(readings))?;
    }
    Ok(run_workers(rt, alloc, ends, feeds, clocks, sink)?)
}
