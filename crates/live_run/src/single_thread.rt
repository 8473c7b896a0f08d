//! A live run in one thread, with a supervisor in another. `engine_io` has the engine's feeds, clock and sink,
//! `socket_wait` its wait for the sockets, and `observer` passes its events to the outputs and to the status.
ghost use Rattle.std.specs.Prelude.{◌≡◌, is_some, true, IfOk, IfErr};
ghost use Rattle.run_outputs.specs.Ends.{AreEndsIn};
ghost use Rattle.live_run.specs.RunResult.{IsEarly, IsRunOf};

use crate::context::RunContext;
use crate::fault::LiveFault;
use crate::run_end::RunEnd;
use crate::single_thread::engine_io::{EngineDevices, IoSettings, prepare_engine_io};
use crate::single_thread::observer::LiveObserver;
use crate::single_thread::socket_wait::ready_flags;
use crate::socket_watch::SocketWatch;
use crate::supervisor::Supervisor;
use live_gains::RunGains;
use live_io::{FeedFlags, Receiver, Sockets};
use run_outputs::{CreateOutput, CreatedOutput, EventOutput, MixOutput, OneTask, run_beside};
use std::alloc::Global;
use std::io::Write;
use std::sync::Wait;
use std::sync::atomic::AtomicBool;
use std::thread::Threads;
use std::time::Clock;
use studio_config::StudioSpec;
use studio_io::NoGains;

mod engine_io;
mod observer;
mod socket_wait;

/// Runs a studio in this thread, and in others the supervisor and the tasks of its outputs. Returns once all have
/// ended. After an error there is no report.
pub(crate) fn run_in_one_thread<
    'a,
    R: Threads + Wait + Sync + Clock,
    E: Write + Drop,
    O: CreateOutput,
>(
    rt: &'a R,
    alloc: Global,
    studio: &'a StudioSpec,
    sockets: Sockets<'a>,
    context: RunContext<'a, R, E>,
    created: CreatedOutput<O::Events, O::Mix, O::Tasks>,
) -> Result<RunEnd, LiveFault>
    ensures run { IfOk result (λ end. IsRunOf true (is_some context.entry.gains) studio.now end.report) }
    ensures ends { IfOk result (λ end. AreEndsIn true O.Events.ended O.Mix.ended end.outputs) }
    ensures early { IfErr result IsEarly }
{
    let CreatedOutput { events, mix, tasks } = created;
    let mut sockets = sockets;
    // Only if an output needs them, since keeping the sources makes each receive slower.
    if events.needs_addresses() {
        keep_sources(sockets.receiving.as_mut_slice());
    }
    let ready = ready_flags(alloc, sockets.receiving.len())?;
    let (flags, start) = (context.flags, context.start);
    // The run's own thread publishes the status, since only it may look at the engine.
    let supervisor = Supervisor {
        conditions: context.conditions,
        flags,
        task: SocketWatch::new(studio, context.health, context.status.publisher.is_some()),
    };
    let run = prepare_run::<R, E, O>(
        rt,
        alloc,
        studio,
        sockets,
        context,
        ready.as_slice(),
        (events, mix),
    )?;
    // The tasks of the outputs end once the run dropped its ends of their rings. The supervisor comes last: if it
    // cannot be started, nothing waits for it.
    run_beside(
        rt,
        (tasks, OneTask::new(supervisor)),
        start,
        move || -> Result<RunEnd, LiveFault>
            ensures run { IfOk result (λ end. IsRunOf true (is_some run.entry.gains) studio.entry.now end.report) }
            ensures ends { IfOk result (λ end. AreEndsIn true O.Events.ended O.Mix.ended end.outputs) }
            ensures early { IfErr result IsEarly }
        {
            let ran = run.run(rt, alloc, studio);
            if ran.is_err() {
                start.set_failed();
            }
            flags.set_finished();
            ran
        },
    )?
}

/// Makes all receivers keep the source address of each datagram.
fn keep_sources(receivers: &mut [Receiver<'_>]) {
    for receiver in receivers.iter_mut() {
        receiver.keep_sources();
    }
}

/// A run in one thread that is ready to start.
#[derive(Drop)]
struct SingleThreadRun<'a, R: Wait + Clock, E, V, M> {
    devices: EngineDevices<'a, R, M>,
    observer: LiveObserver<'a, E, V>,
    /// The source of changes of gains, if they can be changed.
    gains: Option<RunGains<'a, R>>,
}

/// Returns a run that is ready to start, with the parts of its outputs that take its events and its mix. All memory is
/// allocated here.
fn prepare_run<'a, R: Wait + Clock, E: Write + Drop, O: CreateOutput>(
    rt: &'a R,
    alloc: Global,
    studio: &'a StudioSpec,
    sockets: Sockets<'a>,
    context: RunContext<'a, R, E>,
    ready: &'a [AtomicBool],
    outputs: (O::Events, O::Mix),
) -> Result<SingleThreadRun<'a, R, E, O::Events, O::Mix>, LiveFault>
    ensures gains { IfOk result (λ run. is_some run.gains ≡ is_some context.entry.gains) }
    ensures early { IfErr result IsEarly }
{
    let RunContext {
        timing,
        conditions: _,
        status,
        flags,
        health,
        shown,
        start: _,
        gains,
    } = context;
    let (events, mix) = outputs;
    let settings = IoSettings {
        timing,
        flags: FeedFlags {
            stop: &flags.stop,
            ready,
            health,
        },
        meter: status.meter,
        is_controlled: gains.is_some(),
    };
    let observer = LiveObserver::new(alloc, studio, events, status, shown)?;
    let devices = prepare_engine_io(rt, alloc, studio, sockets, mix, settings)?;
    Ok(SingleThreadRun {
        devices,
        observer,
        gains,
    })
}

impl<R: Wait + Clock, E: Write + Drop, V: EventOutput, M: MixOutput> SingleThreadRun<
    '_,
    R,
    E,
    V,
    M,
> {
    /// Runs an engine in this thread.
    fn run(self, rt: &R, alloc: Global, studio: &StudioSpec) -> Result<RunEnd, LiveFault>
        ensures run { IfOk result (λ end. IsRunOf true (is_some self.entry.gains) studio.now end.report) }
        ensures ends { IfOk result (λ end. AreEndsIn true V.ended M.ended end.outputs) }
        ensures early { IfErr result IsEarly }
    {
        let SingleThreadRun {
            devices,
            observer,
            gains,
        } = self;
        // Two calls, so that a run without control is proved to take no change.
        match gains {
            Some(gains) => devices.run(rt, alloc, studio, observer, gains),
            None => devices.run(rt, alloc, studio, observer, NoGains),
        }
    }
}
