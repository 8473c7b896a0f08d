//! Makes the report of a run.
ghost use Rattle.std.specs.Prelude.{◌≡◌, ◌<◌, ◌++◌, ℕ, List, Some, map, slice_get, IfOk, OnOk};
ghost use Rattle.rtp_stream.specs.declared.stream_spec.Stream.{Stream};
ghost use Rattle.rtp_stream.specs.PathCounts.{tallies_of};
ghost use Rattle.studio_config.specs.Studio.{Studio};
ghost use Rattle.studio_session.specs.Counts.{path_tallies};
ghost use Rattle.studio_session.specs.Event.{TraceEvent};
ghost use Rattle.studio_session.specs.Report.{AreCounts, AreCountsOf};
ghost use Rattle.studio_engine.specs.Engine.{HasAllMarks};
ghost use Rattle.studio_engine.specs.Session.{HasSession};
ghost use Rattle.studio_io.specs.Balances.{Balances};
ghost use Rattle.studio_io.specs.SendSums.{count_tally, report_tally};
ghost use Rattle.engine_run.specs.Intake.{fault_number, fault_numbers};

use crate::feed_reader::FeedReader;
use crate::state::RunState;
use rtp_stream::{Counts, Path, PathCounts, StreamCounts, StreamSpec};
use std::alloc::{AllocError, Global};
use studio_engine::Engine;
use studio_io::WorkReport;

/// The memory that a report needs, allocated before the run.
// So a run that has sent its datagrams does not lose its report for memory.
#[derive(Drop)]
pub(crate) struct ReportBuffers {
    streams: Vec<StreamCounts>,
    paths: Vec<Vec<PathCounts>>,
    faults: Vec<u64>,
}

impl ReportBuffers {
    /// Allocates space for the counts of these streams and the faults of their feeds.
    pub(crate) fn new(alloc: Global, specs: &[StreamSpec]) -> Result<ReportBuffers, AllocError> {
        let streams = Vec::with_capacity(alloc, specs.len())?;
        let mut paths = Vec::with_capacity(alloc, specs.len())?;
        for spec in specs {
            paths.push(Vec::with_capacity(alloc, usize::from(spec.paths()))?)?;
        }
        // A stream has at most 4 paths.
        let faults = Vec::with_capacity(alloc, specs.len().saturating_mul(4))?;
        Ok(ReportBuffers {
            streams,
            paths,
            faults,
        })
    }
}

/// Returns the counts of the first `count` paths of a stream, in `buffer`.
fn path_counts(
    engine: &Engine,
    stream: usize,
    count: u8,
    buffer: Vec<PathCounts>,
) -> Result<Vec<PathCounts>, AllocError>
    requires few { count < 5 }
    ensures { IfOk result (λ counts. (studio : Studio) (events : List TraceEvent) (datagrams : List (List ℕ))
        (spec : Stream)
        → HasSession studio engine.now events datagrams → slice_get studio.streams stream ≡ Some spec
        → tallies_of counts.items ≡ path_tallies spec stream events count) }
{
    let mut counts = buffer;
    counts.clear();
    for number in 0..count {
        let Some(path) = Path::new(number) else {
            unreachable!()
        };
        if let Some(counted) = engine.path_counts(stream, path) {
            counts.push(counted)?;
        }
    }
    Ok(counts)
}

/// Returns the counts of a stream, with those of its paths in `buffer`.
fn stream_counts(
    engine: &Engine,
    stream: usize,
    spec: &StreamSpec,
    buffer: Vec<PathCounts>,
) -> Result<StreamCounts, AllocError>
    ensures { IfOk result (λ counts. (studio : Studio) (events : List TraceEvent) (datagrams : List (List ℕ))
        → HasSession studio engine.now events datagrams → HasAllMarks engine.now
        → slice_get studio.streams stream ≡ Some spec.now
        → AreCountsOf spec.now stream studio.open_at events counts) }
{
    let paths = path_counts(engine, stream, spec.paths(), buffer)?;
    let merge = match engine.counts(stream) {
        Some(merge) => merge,
        None => Counts::new(),
    };
    Ok(StreamCounts { paths, merge })
}

/// Returns the counts of these streams, in `buffer` and `paths`.
fn all_counts(
    alloc: Global,
    engine: &Engine,
    specs: &[StreamSpec],
    buffer: Vec<StreamCounts>,
    paths: Vec<Vec<PathCounts>>,
) -> Result<Vec<StreamCounts>, AllocError>
    ensures { IfOk result (λ counts. (studio : Studio) (events : List TraceEvent) (datagrams : List (List ℕ))
        → HasSession studio engine.now events datagrams → HasAllMarks engine.now → specs.now ≡ studio.streams
        → AreCounts studio events counts.items) }
{
    let mut counts = buffer;
    counts.clear();
    let mut paths = paths.into_iter();
    for stream in 0..specs.len() {
        let own = paths.next().unwrap_or(Vec::new(alloc));
        counts.push(stream_counts(engine, stream, &specs[stream], own)?)?;
    }
    Ok(counts)
}

/// Appends the number of faults of each feed of a stream.
fn push_faults<F: Drop>(own: Vec<FeedReader<F>>, faults: &mut Vec<u64>) -> Result<(), AllocError>
    ensures { OnOk result (faults.new.items ≡ faults.old.items ++ map fault_number own.items) }
{
    for reader in own {
        faults.push(reader.state.faults)?;
    }
    Ok(())
}

/// Returns the number of faults of each feed, ordered by stream and then by path, in `buffer`.
fn all_faults<F: Drop>(
    streams: Vec<Vec<FeedReader<F>>>,
    buffer: Vec<u64>,
) -> Result<Vec<u64>, AllocError>
    ensures { IfOk result (λ faults. faults.items ≡ fault_numbers streams.items) }
{
    let mut faults = buffer;
    faults.clear();
    for own in streams {
        push_faults(own, &mut faults)?;
    }
    Ok(faults)
}

/// Makes the report of a run, and returns it with the sink and the observer.
pub(crate) fn work_report<F: Drop, C: Drop, K: Drop, T: Drop>(
    alloc: Global,
    state: RunState<F, C, K, T>,
    specs: &[StreamSpec],
    buffer: ReportBuffers,
    settled: bool,
) -> Result<(WorkReport, K, T), AllocError>
    ensures balance { IfOk result (λ r. Balances r.0.blocks r.0.sent_a r.0.fault_a r.0.sent_b r.0.fault_b) }
    ensures settled { IfOk result (λ r. r.0.settled ≡ settled) }
    ensures blocks { IfOk result (λ r. r.0.blocks ≡ state.counts.blocks) }
    ensures numbers { IfOk result (λ r. report_tally r.0 ≡ count_tally state.counts) }
    ensures sink { IfOk result (λ r. r.1 ≡ state.sink) }
    ensures observer { IfOk result (λ r. r.2 ≡ state.observer) }
    ensures faults { IfOk result (λ r. r.0.feed_faults.items ≡ fault_numbers state.readers.items) }
    ensures counts { IfOk result (λ r. (studio : Studio) (events : List TraceEvent) (datagrams : List (List ℕ))
        → HasSession studio state.engine events datagrams → HasAllMarks state.engine → specs.now ≡ studio.streams
        → AreCounts studio events r.0.streams.items) }
{
    let RunState {
        engine,
        readers,
        clock: _,
        sink,
        observer,
        counts,
    } = state;
    let ReportBuffers {
        streams,
        paths,
        faults,
    } = buffer;
    let streams = all_counts(alloc, &engine, specs, streams, paths)?;
    let faults = all_faults(readers, faults)?;
    let report = WorkReport::new(streams, faults, counts, settled);
    Ok((report, sink, observer))
}
