//! A trace in memory, from its text to its report.
ghost use Rattle.std.specs.Prelude.{IfOk, IfErr};
ghost use Rattle.example_callers.specs.Report.{IsFaultOf, IsReportOf};

use std::alloc::Global;
use studio_config::StudioSpec;
use studio_run::{PlayFault, play};

/// Returns the report of a trace: a line for each datagram of the output, and the counts of each stream.
///
/// `play` takes any reader and writer, such as files and pipes; here they are a slice and a `Vec`. If the
/// report cannot grow, the error is that a write failed.
pub fn report_trace(alloc: Global, studio: &StudioSpec, trace: &[u8]) -> Result<Vec<u8>, PlayFault>
    ensures report { IfOk result (λ text. IsReportOf studio.now trace.now text.items) }
    ensures fault { IfErr result (IsFaultOf studio.now trace.now) }
{
    let mut reader = trace;
    let mut report = Vec::new(alloc);
    play(alloc, studio, &mut reader, &mut report)?;
    Ok(report)
}
