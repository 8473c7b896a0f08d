//! Runs the workers of a studio and makes the report of the run.
ghost use Rattle.std.specs.Prelude.{◌≡◌, ◌≤◌, ◌↔◌, ℕ, ℤ, List, IsTrue, true, map, length, vec_len, vec_capacity, IfOk};
ghost use Rattle.rtp_stream.specs.declared.stream_spec.Stream.{Stream};
ghost use Rattle.studio_config.specs.Studio.{IsStudio, Studio};
ghost use Rattle.studio_mix.specs.Feed.{Feed as FeedMarks};
ghost use Rattle.studio_mix.specs.Blocks.{AreBlocks};
ghost use Rattle.studio_ends.specs.Datagrams.{AreAllGiven};
ghost use Rattle.studio_ends.specs.FreshEnds.{AllFreshStreams};
ghost use Rattle.studio_io.specs.Balances.{Balances};
ghost use Rattle.studio_io.specs.SendSums.{ReportsAnswers, count_tally, report_tally};
ghost use Rattle.studio_rings.specs.Runs.{IsSettledRun, IsSettledRunWith};
ghost use Rattle.studio_rings.specs.StreamTokens.{AllGiveTokens, AreAllDrained, AreTokensOf, AreTold};
ghost use Rattle.studio_rings.specs.Jobs.{AreJobsOf, HaveCapacity};
ghost use Rattle.studio_rings.specs.StreamResults.{AreOpenedTogether};

use crate::jobs::{StreamJob, StreamResult, stream_jobs, unset_flags};
use crate::results::{RunResults, collect_results, reserve_results};
use crate::stream_threads::run_streams;
use crate::tokens::is_settled_with;
use crate::worker::mixer::{MixResult, MixWorker};
use std::alloc::{AllocError, Global};
use std::sync::Wait;
use std::sync::atomic::AtomicBool;
use std::thread::Threads;
use studio_ends::{Ends, PathEnd, StreamEnd};
use studio_io::{Clock, Feed, GainSource, NoGains, SendCounts, Sink, WorkFault, WorkReport};

/// The jobs of the workers, and the space for all their results.
#[derive(Drop)]
struct RunMemory<F, C> {
    jobs: Vec<StreamJob<F, C>>,
    results: Vec<StreamResult>,
    ended: Vec<AtomicBool>,
    parts: RunResults,
}

/// The space for the results of a run, and a flag for each stream.
#[derive(Drop)]
struct RunBuffers {
    results: Vec<StreamResult>,
    ended: Vec<AtomicBool>,
    parts: RunResults,
}

/// Allocates the space for the results of this number of streams and feeds.
fn reserve_buffers(alloc: Global, streams: usize, feeds: usize) -> Result<RunBuffers, AllocError>
    ensures results { IfOk result (λ buffers. (vec_len buffers.results ≡ 0) ×
        (streams ≤ vec_capacity buffers.results)) }
    ensures ended { IfOk result (λ buffers. vec_len buffers.ended ≡ streams) }
    ensures dones { IfOk result (λ buffers. (vec_len buffers.parts.dones ≡ 0)
        × (streams ≤ vec_capacity buffers.parts.dones)) }
    ensures counts { IfOk result (λ buffers. (vec_len buffers.parts.streams ≡ 0)
        × (streams ≤ vec_capacity buffers.parts.streams)) }
    ensures faults { IfOk result (λ buffers. (vec_len buffers.parts.feed_faults ≡ 0)
        × (feeds ≤ vec_capacity buffers.parts.feed_faults)) }
{
    let parts = reserve_results(alloc, streams, feeds)?;
    let results = Vec::with_capacity(alloc, streams)?;
    let ended = unset_flags(alloc, streams)?;
    Ok(RunBuffers {
        results,
        ended,
        parts,
    })
}

/// Allocates all memory of a run.
// In one function before the first thread starts, so that a run which has begun cannot fail for memory.
fn reserve_memory<F: Drop, C: Drop>(
    alloc: Global,
    paths: Vec<PathEnd>,
    feeds: Vec<F>,
    streams: Vec<StreamEnd>,
    clocks: Vec<C>,
) -> Result<RunMemory<F, C>, AllocError>
    requires streams { (open_at : ℤ) × (places : ℕ) × (specs : List Stream)
        × AllFreshStreams open_at places specs paths.items streams.items }
    requires feeds { length feeds.items ≡ length paths.items }
    requires clocks { length clocks.items ≡ length streams.items }
    ensures jobs { IfOk result (λ m. AreJobsOf paths.items feeds.items clocks.items streams.items m.jobs.items
        × HaveCapacity m.jobs.items) }
    ensures results { IfOk result (λ m. (vec_len m.results ≡ 0) × (vec_len m.jobs ≤ vec_capacity m.results)) }
    ensures ended { IfOk result (λ m. vec_len m.ended ≡ vec_len m.jobs) }
    ensures dones { IfOk result (λ m. (vec_len m.parts.dones ≡ 0) × (vec_len m.jobs ≤ vec_capacity m.parts.dones)) }
    ensures counts { IfOk result (λ m. (vec_len m.parts.streams ≡ 0)
        × (vec_len m.jobs ≤ vec_capacity m.parts.streams)) }
    ensures faults { IfOk result (λ m. (vec_len m.parts.feed_faults ≡ 0)
        × (vec_len feeds ≤ vec_capacity m.parts.feed_faults)) }
{
    let buffers = reserve_buffers(alloc, streams.len(), feeds.len())?;
    let jobs = stream_jobs(alloc, paths, feeds, streams, clocks)?;
    let RunBuffers {
        results,
        ended,
        parts,
    } = buffers;
    Ok(RunMemory {
        jobs,
        results,
        ended,
        parts,
    })
}

/// Makes the report of a run, and returns it with the sink.
fn report<K: Drop>(mixed: MixResult<K>, parts: RunResults) -> (WorkReport, K)
    requires tokens { AreTokensOf parts.dones.items mixed.end.sides.items }
    ensures balance { Balances result.0.blocks result.0.sent_a result.0.fault_a result.0.sent_b result.0.fault_b }
    ensures streams { result.0.streams ≡ parts.streams }
    ensures faults { result.0.feed_faults ≡ parts.feed_faults }
    ensures blocks { result.0.blocks ≡ mixed.counts.blocks }
    ensures numbers { report_tally result.0 ≡ count_tally mixed.counts }
    ensures sink { result.1 ≡ mixed.sink }
    ensures exactly { IsTrue result.0.settled ↔ AreAllDrained parts.dones.items mixed.end.sides.items }
    ensures given { result.0.settled ≡ true → AllGiveTokens parts.dones.items }
    ensures settled { result.0.settled ≡ true → (studio : Studio) (feeds : List FeedMarks) (datagrams : List (List ℕ))
        → AreTold studio parts.dones.items feeds
        → AreAllGiven studio mixed.end datagrams → AreBlocks studio feeds datagrams }
{
    let MixResult { end, sink, counts } = mixed;
    let RunResults {
        dones,
        streams,
        feed_faults,
    } = parts;
    let settled = is_settled_with(end, dones);
    (WorkReport::new(streams, feed_faults, counts, settled), sink)
}

/// The devices of a run by workers.
#[derive(Drop)]
pub struct WorkerDevices<F, C, K, G> {
    /// A feed for each path, ordered by stream and then by path.
    pub feeds: Vec<F>,
    /// A clock for each stream.
    pub clocks: Vec<C>,
    /// The sink that takes the datagrams of the mix.
    pub sink: K,
    /// The source of changes of gains. `NoGains` has none.
    pub gains: G,
}

/// Runs a worker for each path and each stream, each in a thread of its own, and the mixer's in the calling thread,
/// until all feeds have ended and all datagrams were sent.
///
/// The caller passes the unused ends of one `open`; it may have taken the monitors' ends out. The feeds are ordered by
/// stream and then by path, the clocks by stream. All memory is allocated before the first worker starts. Returns
/// `WorkFault::Memory` if an allocation fails. Returns `WorkFault::Start` if a thread cannot be started; the other
/// workers are stopped and joined first.
pub fn run_workers<R: Threads + Wait + Sync, F: Feed + Send, C: Clock + Send, K: Sink>(
    rt: &R,
    alloc: Global,
    ends: Ends,
    feeds: Vec<F>,
    clocks: Vec<C>,
    sink: K,
) -> Result<(WorkReport, K), WorkFault>
    requires opened { (studio : Studio) × (places : ℕ) × IsStudio studio × AreOpenedTogether studio places ends }
    requires feeds { length feeds.items ≡ length ends.paths.items }
    requires clocks { length clocks.items ≡ length ends.streams.items }
    ensures balance { IfOk result (λ r. Balances r.0.blocks r.0.sent_a r.0.fault_a r.0.sent_b r.0.fault_b) }
    ensures sums { IfOk result (λ r. ReportsAnswers (K.answered sink) r.0 (K.answered r.1)) }
    ensures faults { IfOk result (λ r. length r.0.feed_faults.items ≡ length feeds.items) }
    ensures settled { IfOk result (λ r. r.0.settled ≡ true → (studio : Studio) (places : ℕ)
        → AreOpenedTogether studio places ends
        → IsSettledRun studio places (map F.told feeds.items) (map C.told clocks.items) r.0 (K.handed sink)
        (K.handed r.1)) }
{
    let devices = WorkerDevices {
        feeds,
        clocks,
        sink,
        gains: NoGains,
    };
    let (report, sink, _) = devices.run(rt, alloc, ends)?;
    Ok((report, sink))
}

impl<F: Feed + Send, C: Clock + Send, K: Sink, G: GainSource> WorkerDevices<F, C, K, G> {
    /// Runs the workers of these ends as `run_workers` does, and returns the report with the sink and the source of
    /// gains. Before each turn of the mixer the source is asked for changes of gains, in the calling thread, until it
    /// has no request or 64 were answered. A settled run is one of the studio with exactly the changes that it took.
    pub fn run<R: Threads + Wait + Sync>(
        self,
        rt: &R,
        alloc: Global,
        ends: Ends,
    ) -> Result<(WorkReport, K, G), WorkFault>
        requires opened { (studio : Studio) × (places : ℕ) × IsStudio studio × AreOpenedTogether studio places ends }
        requires feeds { length self.feeds.items ≡ length ends.paths.items }
        requires clocks { length self.clocks.items ≡ length ends.streams.items }
        ensures balance { IfOk result (λ r. Balances r.0.blocks r.0.sent_a r.0.fault_a r.0.sent_b r.0.fault_b) }
        ensures sums { IfOk result (λ r. ReportsAnswers (K.answered self.sink) r.0 (K.answered r.1)) }
        ensures faults { IfOk result (λ r. length r.0.feed_faults.items ≡ length self.feeds.items) }
        ensures settled { IfOk result (λ r. r.0.settled ≡ true → (studio : Studio) (places : ℕ)
            → AreOpenedTogether studio places ends
            → IsSettledRunWith studio places (map F.told self.feeds.items) (map C.told self.clocks.items) r.0
            (K.handed self.sink) (K.handed r.1) (G.taken self.gains) (G.taken r.2)) }
    {
        let WorkerDevices {
            feeds,
            clocks,
            sink,
            gains,
        } = self;
        let Ends {
            paths,
            streams,
            monitors: _,
            mix,
        } = ends;
        let memory = reserve_memory(alloc, paths, feeds, streams, clocks)?;
        let RunMemory {
            jobs,
            results,
            ended,
            parts,
        } = memory;
        // Set by the first worker that cannot start a thread. Every worker reads it between its steps.
        let stop = AtomicBool::new(false);
        let mixed = MixResult {
            end: mix,
            sink,
            counts: SendCounts::new(),
        };
        let task = MixWorker { mixed, gains };
        let Ok((results, done)) = run_streams(rt, jobs, results, task, &ended, &stop) else {
            return Err(WorkFault::Start);
        };
        let MixWorker { mixed, gains } = done;
        let parts = collect_results(results, parts);
        let (work, sink) = report(mixed, parts);
        Ok((work, sink, gains))
    }
}
