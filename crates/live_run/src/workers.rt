//! A live run by workers, with a supervisor in another thread. `rings` opens the rings between the workers, and
//! `worker_run` has their feeds, clocks and sink. `status_task` publishes the run's status from the statistics in
//! `latest_stats`, which `stream_status` fills into a snapshot.
ghost use Rattle.std.specs.Prelude.{◌≡◌, false, is_some, length, IfOk, IfErr};
ghost use Rattle.std.specs.Thread.{IsSync};
ghost use Rattle.studio_rings.specs.StreamResults.{AreOpenedTogether};
ghost use Rattle.run_outputs.specs.Ends.{HasMixEnds};
ghost use Rattle.live_run.specs.RingPlaces.{ring_places};
ghost use Rattle.live_run.specs.RunResult.{IsEarly, IsRunOf};

use crate::context::RunContext;
use crate::fault::LiveFault;
use crate::run_end::RunEnd;
use crate::shown_health::ShownHealth;
use crate::socket_watch::{SocketWatch, WatchedTask};
use crate::supervisor::Supervisor;
use crate::workers::latest_stats::LatestStats;
use crate::workers::rings::{Rings, open_rings};
use crate::workers::status_task::WorkerStatusTask;
use crate::workers::worker_run::{prepare_workers, run_controlled};
use live_io::{FeedFlags, RunPeriod, Sockets};
use live_status::StatusPublisher;
use run_outputs::{CreateOutput, OneTask, run_beside};
use std::alloc::{AllocError, Global};
use std::io::Write;
use std::sync::Wait;
use std::thread::Threads;
use std::time::Clock;
use studio_config::StudioSpec;
use studio_ends::StatsReceivers;

mod latest_stats;
mod rings;
mod status_task;
mod stream_status;
mod worker_run;

/// Runs a studio's workers, and in other threads the supervisor and the tasks of its outputs, of which `outputs` has
/// the part that takes the mix and the tasks. Returns once all have ended. All memory but the workers' is allocated
/// before the first thread starts. After an error there is no report.
pub(crate) fn run_in_workers<
    'a,
    R: Threads + Wait + Sync + Clock,
    E: Write + Send + Drop,
    O: CreateOutput,
>(
    rt: &'a R,
    alloc: Global,
    studio: &'a StudioSpec,
    sockets: Sockets<'a>,
    context: RunContext<'a, R, E>,
    outputs: (O::Mix, O::Tasks),
) -> Result<RunEnd, LiveFault>
    ensures run { IfOk result (λ end. IsRunOf false (is_some context.entry.gains) studio.now end.report) }
    ensures ends { IfOk result (λ end. HasMixEnds O.Mix.ended end.outputs) }
    ensures early { IfErr result IsEarly }
{
    // Without a status there are no rings for statistics, and the workers send none.
    let is_shown = context.status.publisher.is_some();
    let Rings { ends, receivers } = open_rings(alloc, studio, sockets.receiving.len(), is_shown)?;
    let RunContext {
        timing,
        conditions,
        status,
        flags,
        health,
        shown,
        start,
        gains,
    } = context;
    let (mix, tasks) = outputs;
    // No flags of sockets: each path has a thread of its own, whose feed may wait.
    let feed_flags = FeedFlags {
        stop: &flags.stop,
        ready: &[],
        health,
    };
    let workers = prepare_workers(rt, alloc, ends, sockets, mix, timing, feed_flags)?;
    let task = worker_status_task(rt, alloc, receivers, timing.period, status.publisher, shown)?;
    let watch = SocketWatch::new(studio, health, is_shown);
    let supervisor = Supervisor {
        conditions,
        flags,
        task: WatchedTask { watch, task },
    };
    // The supervisor comes last: if it cannot be started, nothing waits for it.
    run_beside(
        rt,
        (tasks, OneTask::new(supervisor)),
        start,
        move || -> Result<RunEnd, LiveFault>
            requires sync { IsSync R.row }
            requires opened { AreOpenedTogether studio.now (ring_places studio.now) workers.ends }
            requires feeds { length workers.feeds.items ≡ length workers.ends.paths.items }
            requires clocks { length workers.clocks.items ≡ length workers.ends.streams.items }
            ensures run { IfOk result (λ end. IsRunOf false (is_some gains.entry) studio.entry.now end.report) }
            ensures ends { IfOk result (λ end. HasMixEnds O.Mix.ended end.outputs) }
            ensures early { IfErr result IsEarly }
        {
            let ran = run_controlled(rt, alloc, studio, workers, gains);
            if ran.is_err() {
                start.set_failed();
            }
            flags.set_finished();
            ran
        },
    )?
}

/// Returns the task that publishes the run's status from its statistics, if there is a status.
fn worker_status_task<'a, R: Clock, E: Write + Drop>(
    rt: &'a R,
    alloc: Global,
    receivers: Option<StatsReceivers>,
    period: RunPeriod,
    publisher: Option<StatusPublisher<E>>,
    health: ShownHealth<'a>,
) -> Result<Option<WorkerStatusTask<'a, R, E>>, AllocError> {
    let (Some(receivers), Some(publisher)) = (receivers, publisher) else {
        return Ok(None);
    };
    let latest = LatestStats::empty(alloc, receivers.paths.len(), receivers.streams.len())?;
    Ok(Some(WorkerStatusTask {
        receivers,
        latest,
        clock: period.clock(rt),
        publisher,
        health,
    }))
}
