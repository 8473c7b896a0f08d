//! The jobs of the workers, with all the memory that they need, and their results.
ghost use Rattle.std.specs.Prelude.{◌≡◌, ◌+◌, ◌<◌, ◌≤◌, ◌∷◌, ◌++◌, List, ℕ, ℤ, length, vec_len, vec_capacity, IfOk};
ghost use Rattle.std.specs.Vec.Iter.{into_iter_items, into_iter_len};
ghost use Rattle.rtp_stream.specs.declared.stream_spec.Stream.{Stream};
ghost use Rattle.studio_ends.specs.FreshEnds.{AllFreshStreams};
ghost use Rattle.studio_rings.specs.Jobs.{AreJobsOf, HasCapacity, HaveCapacity, feeds_in};
ghost use Rattle.studio_rings.specs.StreamWorkers.{ends_of};

use rtp_stream::{PathCounts, StreamCounts};
use std::alloc::{AllocError, Global};
use std::sync::atomic::AtomicBool;
use std::vec::IntoIter;
use studio_ends::{PathDone, PathEnd, StreamDone, StreamEnd};

/// The job of a path's worker: a path's end and its feed.
#[derive(Drop)]
pub struct PathJob<F> {
    pub end: PathEnd,
    pub feed: F,
}

/// The result of a path's worker.
#[derive(Drop)]
pub struct PathResult {
    /// The token of the path's end; `None` if the worker was stopped or the stream's end was dropped.
    pub done: Option<PathDone>,
    pub counts: PathCounts,
    /// The number of faults that the feed returned.
    pub faults: u64,
}

/// The job of a stream's worker: its end, its clock, its paths, and the memory that their workers need.
#[derive(Drop)]
pub(crate) struct StreamJob<F, C> {
    pub(crate) end: StreamEnd,
    pub(crate) clock: C,
    pub(crate) paths: Vec<PathJob<F>>,
    /// A flag for each path, set once it has ended.
    pub(crate) ended: Vec<AtomicBool>,
    /// The space for the result of each path's worker.
    pub(crate) results: Vec<PathResult>,
    /// The space for the counts of each path.
    pub(crate) counts: Vec<PathCounts>,
    /// The space for the number of each feed's faults.
    pub(crate) faults: Vec<u64>,
}

/// The result of a stream's worker.
#[derive(Drop)]
pub(crate) struct StreamResult {
    /// The token of the stream's end; `None` if a path returned none or the mixer's end was dropped.
    pub(crate) done: Option<StreamDone>,
    pub(crate) counts: StreamCounts,
    /// The number of faults that each feed returned.
    pub(crate) faults: Vec<u64>,
}

/// Allocates `count` flags, none of them set.
pub(crate) fn unset_flags(alloc: Global, count: usize) -> Result<Vec<AtomicBool>, AllocError>
    ensures { IfOk result (λ flags. vec_len flags ≡ count) }
{
    let mut flags = Vec::with_capacity(alloc, count)?;
    for _ in 0..count {
        flags.push_reserved(AtomicBool::new(false));
    }
    Ok(flags)
}

/// Makes the jobs of a stream's paths: the next `count` ends, each with the next feed.
fn next_paths<F: Drop>(
    alloc: Global,
    count: u8,
    ends: &mut IntoIter<PathEnd>,
    feeds: &mut IntoIter<F>,
) -> Result<Vec<PathJob<F>>, AllocError>
    requires ends { count ≤ into_iter_len ends.old }
    requires feeds { count ≤ into_iter_len feeds.old }
    ensures ends { IfOk result (λ own. into_iter_items ends.old ≡ ends_of own.items ++ into_iter_items ends.new) }
    ensures feeds { IfOk result (λ own. into_iter_items feeds.old ≡ feeds_in own.items ++ into_iter_items feeds.new) }
    ensures count { IfOk result (λ own. vec_len own ≡ count) }
    ensures left { IfOk result (λ own. (into_iter_len ends.new + count ≡ into_iter_len ends.old)
        × (into_iter_len feeds.new + count ≡ into_iter_len feeds.old)) }
{
    let mut own = Vec::with_capacity(alloc, usize::from(count))?;
    for _ in 0..count {
        let Some(end) = ends.next() else {
            unreachable!();
        };
        let Some(feed) = feeds.next() else {
            unreachable!();
        };
        own.push_reserved(PathJob { end, feed });
    }
    Ok(own)
}

/// The space for the results of the workers of a stream's paths.
#[derive(Drop)]
struct PathBuffers {
    ended: Vec<AtomicBool>,
    results: Vec<PathResult>,
    counts: Vec<PathCounts>,
    faults: Vec<u64>,
}

/// Allocates space for `count` paths, none of which has ended.
fn path_buffers(alloc: Global, count: usize) -> Result<PathBuffers, AllocError>
    ensures ended { IfOk result (λ buffers. vec_len buffers.ended ≡ count) }
    ensures results { IfOk result (λ buffers. (vec_len buffers.results ≡ 0) × (count ≤ vec_capacity buffers.results)) }
    ensures counts { IfOk result (λ buffers. (vec_len buffers.counts ≡ 0) × (count ≤ vec_capacity buffers.counts)) }
    ensures faults { IfOk result (λ buffers. (vec_len buffers.faults ≡ 0) × (count ≤ vec_capacity buffers.faults)) }
{
    let ended = unset_flags(alloc, count)?;
    let results = Vec::with_capacity(alloc, count)?;
    let counts = Vec::with_capacity(alloc, count)?;
    let faults = Vec::with_capacity(alloc, count)?;
    Ok(PathBuffers {
        ended,
        results,
        counts,
        faults,
    })
}

/// Makes the job of a stream.
fn stream_job<F: Drop, C: Drop>(
    alloc: Global,
    end: StreamEnd,
    clock: C,
    paths: Vec<PathJob<F>>,
) -> Result<StreamJob<F, C>, AllocError>
    ensures parts { IfOk result (λ job. (job.end ≡ end) × (job.clock ≡ clock) × (job.paths ≡ paths)) }
    ensures space { IfOk result (λ job. HasCapacity job) }
{
    let buffers = path_buffers(alloc, paths.len())?;
    let PathBuffers {
        ended,
        results,
        counts,
        faults,
    } = buffers;
    Ok(StreamJob {
        end,
        clock,
        paths,
        ended,
        results,
        counts,
        faults,
    })
}

/// Makes the job of a stream from its end, the next clock, and the next ends and feeds of paths.
fn next_job<F: Drop, C: Drop>(
    alloc: Global,
    end: StreamEnd,
    paths: &mut IntoIter<PathEnd>,
    feeds: &mut IntoIter<F>,
    clocks: &mut IntoIter<C>,
) -> Result<StreamJob<F, C>, AllocError>
    requires paths { end.spec.paths ≤ into_iter_len paths.old }
    requires feeds { end.spec.paths ≤ into_iter_len feeds.old }
    requires clocks { 0 < into_iter_len clocks.old }
    ensures end { IfOk result (λ job. job.end ≡ end) }
    ensures count { IfOk result (λ job. length job.paths.items ≡ end.spec.paths) }
    ensures paths { IfOk result (λ job. into_iter_items paths.old
        ≡ ends_of job.paths.items ++ into_iter_items paths.new) }
    ensures feeds { IfOk result (λ job. into_iter_items feeds.old
        ≡ feeds_in job.paths.items ++ into_iter_items feeds.new) }
    ensures clocks { IfOk result (λ job. into_iter_items clocks.old ≡ job.clock ∷ into_iter_items clocks.new) }
    ensures left { IfOk result (λ job. (into_iter_len paths.new + end.spec.paths ≡ into_iter_len paths.old)
        × (into_iter_len feeds.new + end.spec.paths ≡ into_iter_len feeds.old)
        × (into_iter_len clocks.new + 1 ≡ into_iter_len clocks.old)) }
    ensures space { IfOk result (λ job. HasCapacity job) }
{
    let Some(clock) = clocks.next() else {
        unreachable!();
    };
    let count = end.spec().paths();
    let own = next_paths(alloc, count, paths, feeds)?;
    let job = stream_job(alloc, end, clock, own)?;
    Ok(job)
}

/// Makes the jobs of all streams. The paths' ends and the feeds are ordered by stream and then by path.
pub(crate) fn stream_jobs<F: Drop, C: Drop>(
    alloc: Global,
    paths: Vec<PathEnd>,
    feeds: Vec<F>,
    streams: Vec<StreamEnd>,
    clocks: Vec<C>,
) -> Result<Vec<StreamJob<F, C>>, AllocError>
    requires streams { (open_at : ℤ) × (places : ℕ) × (specs : List Stream)
        × AllFreshStreams open_at places specs paths.items streams.items }
    requires feeds { length feeds.items ≡ length paths.items }
    requires clocks { length clocks.items ≡ length streams.items }
    ensures jobs { IfOk result (λ jobs. AreJobsOf paths.items feeds.items clocks.items streams.items jobs.items) }
    ensures space { IfOk result (λ jobs. HaveCapacity jobs.items) }
    ensures count { IfOk result (λ jobs. vec_len jobs ≡ vec_len streams) }
{
    let mut jobs = Vec::with_capacity(alloc, streams.len())?;
    let mut paths = paths.into_iter();
    let mut feeds = feeds.into_iter();
    let mut clocks = clocks.into_iter();
    for end in streams {
        // A function for each stream borrows the lists: the more is held across a `?`, the longer it takes to prove.
        let job = next_job(alloc, end, &mut paths, &mut feeds, &mut clocks)?;
        jobs.push_reserved(job);
    }
    Ok(jobs)
}
