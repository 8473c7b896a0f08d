//! A live run, and its report.
ghost use Rattle.std.specs.Prelude.{is_some, true, IfErr, IfOk, OnOk};
ghost use Rattle.run_outputs.specs.Ends.{AreEndsIn};
ghost use Rattle.live_run.specs.RunText.{FailsRun, WritesRun};

use crate::fault::LiveFault;
use crate::inputs::{LiveRun, PageInputs};
use crate::launch::launch_run;
use crate::report::write_report;
use run_outputs::{CreateOutput, OutputEnds};
use std::alloc::Global;
use std::io::Write;
use std::net::Net;
use std::random::RandomSource;
use std::sync::Wait;
use std::thread::Threads;
use std::time::Clock;
use studio_run::TextBuffer;

/// Runs a studio on real sockets until its feeds have ended, and then writes the report to `output`. Returns why its
/// outputs ended before it, as the run's own parts of them say.
///
/// Inherited sockets are used if there are any, and others are bound at the studio's addresses. All sockets are bound,
/// and all memory but the workers' is allocated, before the first thread starts. The studio runs by workers or in this
/// thread, as the options say.
///
/// A supervisor in another thread ends the feeds as the options say, or once a blocked SIGINT, SIGTERM or SIGHUP is
/// pending. If a page is wanted, it is served in a thread of its own, and the run does not wait for it. If the counts
/// of the streams are wanted, they are written to `faults`, which has to be standard error: a line that would block
/// there is dropped.
///
/// `outputs` are created once all sockets are bound, and each is written by a thread of its own. If the start fails
/// behind that, the files that they created are removed. A run in either form passes its mix to them, and a run in one
/// thread also its events. The run does not wait for them: what an output that is too slow, fails or goes away does
/// then is its own rule. `page` has what its page shows all along. With a token, requests to the page that have it
/// change the gains while the run goes on.
///
/// Returns `LiveFault::Unsettled` if the run was not settled; its report is written all the same. Every other error but
/// `LiveFault::Write` comes before anything is written to `output`.
pub fn run_studio_live<
    R: Threads + Wait + Sync + Net + Clock + RandomSource,
    W: Write,
    E: Write + Send + Drop,
    O: CreateOutput,
>(
    rt: &R,
    alloc: Global,
    run: LiveRun<'_>,
    outputs: O,
    page: PageInputs,
    output: &mut W,
    faults: E,
) -> Result<OutputEnds, LiveFault>
    ensures ok { OnOk result (WritesRun run.entry.options.now.one_thread (is_some page.control) run.entry.studio.now
        true (W.contents output.old) (W.contents output.new)) }
    ensures ends { IfOk result
        (λ ends. AreEndsIn run.entry.options.now.one_thread O.Events.ended O.Mix.ended ends) }
    ensures fault { IfErr result (FailsRun run.entry.options.now.one_thread (is_some page.control) run.entry.studio.now
        (W.contents output.old) (W.contents output.new)) }
{
    // Allocated before the run, so that no run is left without memory for its report.
    let mut text = TextBuffer::new(alloc)?;
    let ended = launch_run(rt, alloc, run, outputs, page, faults)?;
    write_report(&mut text, output, &ended.report)?;
    text.finish(output)?;
    if !ended.report.settled {
        return Err(LiveFault::Unsettled);
    }
    Ok(ended.outputs)
}
