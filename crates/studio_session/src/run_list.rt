//! The run of a studio over a list of events in memory.
ghost use Rattle.std.specs.Prelude.{◌≡◌, map, None, IfOk, IfErr, OnOk};
ghost use Rattle.studio_session.specs.Event.{said_by};
ghost use Rattle.studio_session.specs.Fault.{IsRunFault, session_fault_of};
ghost use Rattle.studio_session.specs.Play.{HasPathsBy, IsRunnableBy};
ghost use Rattle.studio_session.specs.Run.{AreDatagrams};
ghost use Rattle.studio_session.specs.Report.{AreCounts};

use crate::datagrams::all_datagrams;
use crate::event::StudioEvent;
use crate::fault::{StudioFault, first_fault, is_output};
use crate::report::Report;
use crate::session::Session;
use crate::source::EventList;
use std::alloc::{AllocError, Global};
use studio_config::StudioSpec;

/// Returns the datagrams of all blocks that are ready, and the counts of all streams after all their marks.
///
/// The error is the first event that has a fault, which is found before anything is allocated, or an allocation
/// failure.
pub fn run_studio(
    alloc: Global,
    spec: &StudioSpec,
    events: &[StudioEvent],
) -> Result<Report, StudioFault>
    ensures datagrams { IfOk result
        (λ report. AreDatagrams spec.now (map said_by events.now) (map (λ d. d.items) report.datagrams.items)) }
    ensures counts { IfOk result (λ report. AreCounts spec.now (map said_by events.now) report.streams.items) }
    ensures lawful { OnOk result (session_fault_of spec.now (map said_by events.now) ≡ None) }
    ensures fault { IfErr result (IsRunFault spec.now (map said_by events.now)) }
{
    if let Some(fault) = first_fault(spec, &EventList { events }) {
        return Err(fault);
    }
    report_of(alloc, spec, events).map_err(StudioFault::Memory)
}

/// Returns the report of events with no fault.
fn report_of(alloc: Global, spec: &StudioSpec, events: &[StudioEvent]) -> Result<Report, AllocError>
    requires runnable { IsRunnableBy spec.now (map said_by events.now) }
    requires paths { HasPathsBy spec.now (map said_by events.now) }
    ensures datagrams { IfOk result
        (λ report. AreDatagrams spec.now (map said_by events.now) (map (λ d. d.items) report.datagrams.items)) }
    ensures counts { IfOk result (λ report. AreCounts spec.now (map said_by events.now) report.streams.items) }
{
    // Only the clause of this call is wanted: by it a datagram of the output fits the buffer of `all_datagrams`.
    is_output(spec.output());
    let source = EventList { events };
    let mut session = Session::new(alloc, spec)?;
    let datagrams = all_datagrams(alloc, &mut session, &source)?;
    let streams = session.counts(alloc, &source)?;
    Ok(Report { datagrams, streams })
}
