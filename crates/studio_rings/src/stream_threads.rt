//! Runs the workers of all streams, each in a thread of its own, and the mixer's in the calling thread.
ghost use Rattle.std.specs.Prelude.{
  ◌≡◌,
  ◌+◌,
  ◌≤◌,
  ◌++◌,
  [],
  ◌∷◌,
  List,
  true,
  length,
  vec_len,
  vec_capacity,
  IfOk,
  IfSome,
  MatchOption,
};
ghost use Rattle.std.specs.Option.{option_to_list};
ghost use Rattle.std.specs.Thread.{IsSync};
ghost use Rattle.std.specs.List.{AllZip};
ghost use Rattle.studio_rings.specs.StreamWorkers.{AllReady, IsReady, IsStreamResult};

use crate::jobs::{StreamJob, StreamResult};
use crate::path_threads::WorkerStopped;
use crate::worker::mixer::MixTask;
use crate::worker::stream::run_stream;
use std::snapshot::Snapshot;
use std::sync::Wait;
use std::sync::atomic::{AtomicBool, Ordering};
use std::thread;
use std::thread::{Promise, Threads};
use studio_io::{Clock, Feed};

/// The promise of a stream's thread: its result, if it has one, is that of running this job.
#[derive(Drop)]
struct StreamPromise<F, C> {
    job: Snapshot<StreamJob<F, C>>,
}

impl<F: Feed, C: Clock> Promise<Result<StreamResult, WorkerStopped>> for StreamPromise<F, C> {
    ghost kept_by = { λ p r. IfOk r (λ result. IsStreamResult F.told C.told p.job.value result) };
}

/// Removes and returns the last job; `None` if there is none.
// `Vec::pop` with the facts that the caller needs: the jobs that are left are ready too.
fn last_job<F: Drop, C: Drop>(jobs: &mut Vec<StreamJob<F, C>>) -> Option<StreamJob<F, C>>
    requires { AllReady jobs.old.items }
    ensures items { jobs.old.items ≡ jobs.new.items ++ option_to_list result }
    ensures cases { MatchOption result ((vec_len jobs.old ≡ 0) × (vec_len jobs.new ≡ 0))
        (λ _. vec_len jobs.new + 1 ≡ vec_len jobs.old) }
    ensures ready { AllReady jobs.new.items }
    ensures own { IfSome result (λ job. IsReady job) }
{
    jobs.pop()
}

/// Runs each stream in a thread of its own, and the mixer in the calling thread. Appends the results in the order of
/// the streams. Returns `WorkerStopped` if a thread cannot be started.
pub(crate) fn run_streams<R: Threads + Wait + Sync, F: Feed + Send, C: Clock + Send, M: MixTask>(
    rt: &R,
    jobs: Vec<StreamJob<F, C>>,
    results: Vec<StreamResult>,
    task: M,
    ended: &[AtomicBool],
    stop: &AtomicBool,
) -> Result<(Vec<StreamResult>, M), WorkerStopped>
    requires ready { AllReady jobs.items }
    requires space { vec_len results + vec_len jobs ≤ vec_capacity results }
    requires flags { vec_len jobs ≤ length ended.now }
    ensures results { IfOk result (λ r. (own : List StreamResult) × (r.0.items ≡ results.items ++ own)
        × AllZip (IsStreamResult F.told C.told) jobs.items own) }
    ensures mixes { IfOk result (λ r. M.mixed task r.1) }
    ensures len { IfOk result (λ r. vec_len r.0 ≡ vec_len results + vec_len jobs) }
    ensures capacity { IfOk result (λ r. vec_capacity r.0 ≡ vec_capacity results) }
{
    let mut jobs = jobs;
    // The last stream's thread is started first and the calls below start the others, so the results come in order:
    // the last stream's is pushed after theirs.
    let Some(job) = last_job(&mut jobs) else {
        let mixed = task.mix(rt, ended, stop);
        return Ok((results, mixed));
    };
    let flag = &ended[jobs.len()];
    // The join says no more of a thread's result than the thread's promise does.
    let promise = StreamPromise {
        job: Snapshot::of(&job),
    };
    thread::scope(
        thread::scope_env(),
        rt,
        move |scope| -> Result<(Vec<StreamResult>, M), WorkerStopped>
            requires sync { IsSync R.row }
            requires ready { AllReady jobs.items }
            requires own { IsReady job }
            requires space { vec_len results + vec_len jobs + 1 ≤ vec_capacity results }
            requires flags { vec_len jobs ≤ length ended.now }
            requires promise { promise.job.value ≡ job }
            ensures results { IfOk result (λ r. (own : List StreamResult) × (r.0.items ≡ results.items ++ own)
                × AllZip (IsStreamResult F.told C.told) (jobs.items ++ job ∷ []) own) }
            ensures mixes { IfOk result (λ r. M.mixed task r.1) }
            ensures len { IfOk result (λ r. vec_len r.0 ≡ vec_len results + vec_len jobs + 1) }
            ensures capacity { IfOk result (λ r. vec_capacity r.0 ≡ vec_capacity results) }
        {
            let Ok(child) = scope.spawn_with(
                promise,
                move || -> Result<StreamResult, WorkerStopped>
                    requires sync { IsSync R.row }
                    requires own { IsReady job }
                    ensures { IfOk result (λ r. IsStreamResult F.told C.told job r) }
                { run_stream(rt, job, flag, stop) },
            ) else {
                stop.store(true, Ordering::SeqCst);
                return Err(WorkerStopped);
            };
            // The thread is joined before an error of the others is returned.
            let rest = run_streams(rt, jobs, results, task, ended, stop);
            let result = child.join(rt);
            let (mut all, mixed) = rest?;
            all.push_reserved(result?);
            Ok((all, mixed))
        },
    )
}
