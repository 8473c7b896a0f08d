//! The launch of a live run, by workers or in one thread.
ghost use Rattle.std.specs.Prelude.{◌≡◌, is_some, IfOk, IfErr};
ghost use Rattle.run_outputs.specs.Ends.{AreEndsIn};
ghost use Rattle.live_run.specs.RunResult.{IsEarly, IsRunOf};

use crate::context::{RunContext, RunTiming};
use crate::fault::LiveFault;
use crate::inputs::{LiveRun, PageInputs};
use crate::page_task::{RunPage, open_run_page};
use crate::run_end::RunEnd;
use crate::shown_health::ShownHealth;
use crate::single_thread::run_in_one_thread;
use crate::status::{PageLink, open_status};
use crate::supervisor::stop_conditions::StopConditions;
use crate::supervisor::stop_flags::StopFlags;
use crate::workers::run_in_workers;
use live_gains::{GainControl, GainLink, RunGains, open_control};
use live_io::{LateSettings, RunPeriod, Sockets, open_sockets};
use live_status::{Meter, StatusOutputs};
use run_outputs::{CreateOutput, CreatedOutput, NotedOutput, SideTask, TaskOutput};
use std::alloc::Global;
use std::io::Write;
use std::net::Net;
use std::random::RandomSource;
use std::sync::Wait;
use std::thread::Threads;
use std::time::Clock;

/// The state that the threads of a run share.
#[derive(Drop)]
struct SharedState {
    flags: StopFlags,
    meter: Meter,
    link: GainLink,
}

/// Opens all that a run needs before its first thread starts, and runs it.
pub(crate) fn launch_run<
    R: Threads + Wait + Sync + Net + Clock + RandomSource,
    E: Write + Send + Drop,
    O: CreateOutput,
>(
    rt: &R,
    alloc: Global,
    run: LiveRun<'_>,
    outputs: O,
    page: PageInputs,
    faults: E,
) -> Result<RunEnd, LiveFault>
    ensures run { IfOk result
        (λ end. IsRunOf run.entry.options.now.one_thread (is_some page.control) run.entry.studio.now end.report) }
    ensures ends { IfOk result
        (λ end. AreEndsIn run.entry.options.now.one_thread O.Events.ended O.Mix.ended end.outputs) }
    ensures early { IfErr result IsEarly }
{
    // Made here and not in `bind_and_run`, whose parts and threads borrow it.
    let output = run.studio.output();
    let state = SharedState {
        flags: StopFlags::new(),
        meter: Meter::new(output.enc(), output.channels()),
        link: GainLink::new(),
    };
    bind_and_run(rt, alloc, run, &state, outputs, page, faults)
}

/// The sockets of a run, the source of its changes of gains, and what its status needs of its page.
#[derive(Drop)]
struct BoundRun<'a, R: Wait + Clock> {
    sockets: Sockets<'a>,
    gains: Option<RunGains<'a, R>>,
    page: PageLink,
}

/// Opens the sockets of a run, the control of its gains and its page, and runs it.
fn bind_and_run<
    'a,
    R: Threads + Wait + Sync + Net + Clock + RandomSource,
    E: Write + Send + Drop,
    O: CreateOutput,
>(
    rt: &'a R,
    alloc: Global,
    run: LiveRun<'a>,
    state: &'a SharedState,
    outputs: O,
    page: PageInputs,
    faults: E,
) -> Result<RunEnd, LiveFault>
    ensures run { IfOk result
        (λ end. IsRunOf run.entry.options.now.one_thread (is_some page.control) run.entry.studio.now end.report) }
    ensures ends { IfOk result
        (λ end. AreEndsIn run.entry.options.now.one_thread O.Events.ended O.Mix.ended end.outputs) }
    ensures early { IfErr result IsEarly }
{
    let sockets = open_sockets(rt, alloc, run.studio, run.inputs.sockets)?;
    let PageInputs { facts, control } = page;
    let notes = run.inputs.notes;
    let opened = open_control(rt, alloc, run.studio, &state.link, notes, control)?;
    let GainControl { gains, control } = opened;
    let page = open_run_page(rt, alloc, run.options.page, facts, control)?;
    let RunPage { link, task } = page;
    let bound = BoundRun {
        sockets,
        gains,
        page: link,
    };
    bound.run_with_page(rt, alloc, run, state, (task, outputs), faults)
}

impl<'a, R: Threads + Wait + Sync + Clock> BoundRun<'a, R> {
    /// Runs it with its outputs, and with the task that serves its page, if it has one.
    // The page's server is a type parameter: what holds an HTTP server by name is proved along all of its fields, and
    // so are their destructors.
    fn run_with_page<E: Write + Send + Drop, S: SideTask + Send + Drop, O: CreateOutput>(
        self,
        rt: &'a R,
        alloc: Global,
        run: LiveRun<'a>,
        state: &'a SharedState,
        outputs: (Option<S>, O),
        faults: E,
    ) -> Result<RunEnd, LiveFault>
        ensures run { IfOk result (λ end.
            IsRunOf run.entry.options.now.one_thread (is_some self.entry.gains) run.entry.studio.now end.report) }
        ensures ends { IfOk result
            (λ end. AreEndsIn run.entry.options.now.one_thread O.Events.ended O.Mix.ended end.outputs) }
        ensures early { IfErr result IsEarly }
    {
        let (task, outputs) = outputs;
        let served = match task {
            Some(task) => Some(TaskOutput::new(task)),
            None => None,
        };
        let outputs = NotedOutput::new(run.inputs.start, (served, outputs));
        run_bound(rt, alloc, run, state, self, outputs, faults)
    }
}

/// Opens the status of a run whose sockets and page are open, creates its outputs, and runs it.
fn run_bound<'a, R: Threads + Wait + Sync + Clock, E: Write + Send + Drop, O: CreateOutput>(
    rt: &'a R,
    alloc: Global,
    run: LiveRun<'a>,
    state: &'a SharedState,
    bound: BoundRun<'a, R>,
    outputs: O,
    faults: E,
) -> Result<RunEnd, LiveFault>
    ensures run { IfOk result (λ end.
        IsRunOf run.entry.options.now.one_thread (is_some bound.entry.gains) run.entry.studio.now end.report) }
    ensures ends { IfOk result
        (λ end. AreEndsIn run.entry.options.now.one_thread O.Events.ended O.Mix.ended end.outputs) }
    ensures early { IfErr result IsEarly }
{
    let BoundRun {
        sockets,
        gains,
        page,
    } = bound;
    let status = open_status(alloc, run, &sockets, page, &state.meter, faults)?;
    // Last, so that a start that fails, as one whose sockets are taken, touches no file. A start that fails from here
    // on removes the files that it created.
    let created = outputs.create(alloc, run.studio, gains.is_some())?;
    let context = context_of(run, state, status, gains);
    run_created::<R, E, O>(rt, alloc, run, sockets, context, created)
}

/// Returns the context of a run.
fn context_of<'a, R: Wait + Clock, E: Drop>(
    run: LiveRun<'a>,
    state: &'a SharedState,
    status: StatusOutputs<'a, E>,
    gains: Option<RunGains<'a, R>>,
) -> RunContext<'a, R, E>
    ensures { result.gains ≡ gains.entry }
{
    let LiveRun {
        studio,
        options,
        inputs,
    } = run;
    RunContext {
        timing: RunTiming {
            period: RunPeriod::new(studio, inputs.began, options.instants),
            late: LateSettings::of(studio, options.yield_seconds),
        },
        conditions: StopConditions::new(inputs.signals, options.until_eof),
        status,
        flags: &state.flags,
        health: inputs.sockets.health,
        shown: ShownHealth {
            studio,
            health: inputs.sockets.health,
            unexpected: inputs.sockets.unexpected,
            outputs: inputs.outputs,
        },
        start: inputs.start,
        gains,
    }
}

/// Runs a studio in one thread or by workers, as its options say.
fn run_created<'a, R: Threads + Wait + Sync + Clock, E: Write + Send + Drop, O: CreateOutput>(
    rt: &'a R,
    alloc: Global,
    run: LiveRun<'a>,
    sockets: Sockets<'a>,
    context: RunContext<'a, R, E>,
    created: CreatedOutput<O::Events, O::Mix, O::Tasks>,
) -> Result<RunEnd, LiveFault>
    ensures run { IfOk result (λ end.
        IsRunOf run.entry.options.now.one_thread (is_some context.entry.gains) run.entry.studio.now end.report) }
    ensures ends { IfOk result
        (λ end. AreEndsIn run.entry.options.now.one_thread O.Events.ended O.Mix.ended end.outputs) }
    ensures early { IfErr result IsEarly }
{
    if run.options.one_thread {
        run_in_one_thread::<R, E, O>(rt, alloc, run.studio, sockets, context, created)
    } else {
        let outputs = without_events(created);
        run_in_workers::<R, E, O>(rt, alloc, run.studio, sockets, context, outputs)
    }
}

/// Drops the part of an output that takes events, and returns the others.
// A run by workers has no thread in which its events could be passed on. Dropped here and not by the caller, since a
// task of the output that takes its events from there ends only then.
fn without_events<V: Drop, M: Drop, T: Drop>(created: CreatedOutput<V, M, T>) -> (M, T) {
    let CreatedOutput {
        events: _,
        mix,
        tasks,
    } = created;
    (mix, tasks)
}
