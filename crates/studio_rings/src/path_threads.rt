//! Runs the workers of a stream's paths, each in a thread of its own, and the stream's turns in the calling thread.
ghost use Rattle.std.specs.Prelude.{◌≡◌, ◌+◌, ◌≤◌, ◌++◌, [], ◌∷◌, List, length, vec_len, vec_capacity, IfOk};
ghost use Rattle.std.specs.Thread.{IsSync};
ghost use Rattle.std.specs.List.{AllZip};
ghost use Rattle.studio_rings.specs.PathWorkers.{IsPathResult};
ghost use Rattle.studio_rings.specs.Turns.{GoesOn};

use crate::jobs::{PathJob, PathResult};
use crate::worker::clocked_stream::ClockedStream;
use crate::worker::path::run_path;
use std::snapshot::Snapshot;
use std::sync::Wait;
use std::sync::atomic::{AtomicBool, Ordering};
use std::thread;
use std::thread::{Promise, Threads};
use studio_io::{Clock, Feed};

/// The error of a run whose workers must stop, since a thread could not be started.
#[derive(Clone, Copy, Debug)]
pub(crate) struct WorkerStopped;

/// Makes turns until all paths have ended or the workers must stop.
fn run_turns<R: Wait, C: Clock>(
    rt: &R,
    stream: ClockedStream<C>,
    ended: &[AtomicBool],
    stop: &AtomicBool,
) -> ClockedStream<C>
    ensures { GoesOn C.told stream result }
{
    let mut stream = stream;
    for _ in rt.forever() {
        let all = ended.iter().all(|flag| flag.load(Ordering::SeqCst));
        if all || stop.load(Ordering::SeqCst) {
            return stream;
        }
        stream.turn(rt);
    }
    unreachable!()
}

/// The promise of a path's thread: its result is that of running this job.
#[derive(Drop)]
struct PathPromise<F> {
    job: Snapshot<PathJob<F>>,
}

impl<F: Feed> Promise<PathResult> for PathPromise<F> {
    ghost kept_by = { λ p r. IsPathResult F.told p.job.value r };
}

/// Runs each path in a thread of its own, and the stream's turns in the calling thread. Appends the results in the
/// order of the paths. Returns `WorkerStopped` if a thread cannot be started.
pub(crate) fn run_paths<R: Threads + Wait + Sync, F: Feed + Send, C: Clock>(
    rt: &R,
    jobs: Vec<PathJob<F>>,
    results: Vec<PathResult>,
    stream: ClockedStream<C>,
    ended: &[AtomicBool],
    stop: &AtomicBool,
) -> Result<(Vec<PathResult>, ClockedStream<C>), WorkerStopped>
    requires space { vec_len results + vec_len jobs ≤ vec_capacity results }
    requires flags { vec_len jobs ≤ length ended.now }
    ensures results { IfOk result (λ r. (own : List PathResult) × (r.0.items ≡ results.items ++ own)
        × AllZip (IsPathResult F.told) jobs.items own) }
    ensures stream { IfOk result (λ r. GoesOn C.told stream r.1) }
    ensures len { IfOk result (λ r. vec_len r.0 ≡ vec_len results + vec_len jobs) }
    ensures capacity { IfOk result (λ r. vec_capacity r.0 ≡ vec_capacity results) }
{
    let mut jobs = jobs;
    // The last path's thread is started first and the calls below start the others, so the results come in order: the
    // last path's is pushed after theirs.
    let Some(job) = jobs.pop() else {
        let stream = run_turns(rt, stream, ended, stop);
        return Ok((results, stream));
    };
    let flag = &ended[jobs.len()];
    // The join says no more of a thread's result than the thread's promise does.
    let promise = PathPromise {
        job: Snapshot::of(&job),
    };
    thread::scope(
        thread::scope_env(),
        rt,
        move |scope| -> Result<(Vec<PathResult>, ClockedStream<C>), WorkerStopped>
            requires sync { IsSync R.row }
            requires space { vec_len results + vec_len jobs + 1 ≤ vec_capacity results }
            requires flags { vec_len jobs ≤ length ended.now }
            requires promise { promise.job.value ≡ job }
            ensures results { IfOk result (λ r. (own : List PathResult) × (r.0.items ≡ results.items ++ own)
                × AllZip (IsPathResult F.told) (jobs.items ++ job ∷ []) own) }
            ensures stream { IfOk result (λ r. GoesOn C.told stream r.1) }
            ensures len { IfOk result (λ r. vec_len r.0 ≡ vec_len results + vec_len jobs + 1) }
            ensures capacity { IfOk result (λ r. vec_capacity r.0 ≡ vec_capacity results) }
        {
            let Ok(child) = scope.spawn_with(promise, move || run_path(rt, job, flag, stop)) else {
                stop.store(true, Ordering::SeqCst);
                return Err(WorkerStopped);
            };
            // The thread is joined before an error of the others is returned.
            let rest = run_paths(rt, jobs, results, stream, ended, stop);
            let result = child.join(rt);
            let (mut all, stream) = rest?;
            all.push_reserved(result);
            Ok((all, stream))
        },
    )
}
