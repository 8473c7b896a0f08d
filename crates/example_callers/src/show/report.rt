//! A trace to its report, and a trace's fault.

use crate::inputs::{ONE_STREAM, studio_of};
use crate::report::report_trace;
use anyhow::bail;
use std::alloc::Global;
use studio_config::StudioSpec;
use studio_run::PlayFault;

/// Both packets of `inputs` on the first path, with the readings at which they are due.
const TRACE: &str = "\
tick 0
a 0 806000010000000000000001000001000002000003000004000005000006
a 0 80600002000000060000000100000700000800000900000a00000b00000c
tick 12
tick 18
close
";

/// A trace whose second line begins with an unknown word.
const UNKNOWN_WORD: &str = "tick 0\ntock\n";

/// Prints a trace's report, and the fault of another trace.
pub(crate) fn show_report(rt: &impl Print, alloc: Global) -> anyhow::Result<()> {
    println!(rt; "report_trace:")?;
    let studio = studio_of(alloc, ONE_STREAM)?;
    print_both(rt, alloc, &studio)
}

/// Prints the report of `TRACE`, and the fault of `UNKNOWN_WORD`.
fn print_both(rt: &impl Print, alloc: Global, studio: &StudioSpec) -> anyhow::Result<()> {
    print_report(rt, alloc, studio, TRACE)?;
    print_fault(rt, alloc, studio, UNKNOWN_WORD)
}

/// Prints the report of a trace.
fn print_report(
    rt: &impl Print,
    alloc: Global,
    studio: &StudioSpec,
    trace: &str,
) -> anyhow::Result<()> {
    let report = report_trace(alloc, studio, trace.as_bytes())?;
    print_lines(rt, &report)
}

/// Prints the lines of a text.
fn print_lines(rt: &impl Print, text: &[u8]) -> anyhow::Result<()> {
    for line in str::from_utf8(text)?.lines() {
        println!(rt; "{line}")?;
    }
    Ok(())
}

/// Prints the line and the kind of a trace's fault.
fn print_fault(
    rt: &impl Print,
    alloc: Global,
    studio: &StudioSpec,
    trace: &str,
) -> anyhow::Result<()> {
    match report_trace(alloc, studio, trace.as_bytes()) {
        Err(PlayFault::Trace(fault)) => println!(rt; "line {}: {:?}", fault.line, fault.kind)?,
        Err(fault) => return Err(fault.into()),
        Ok(_) => bail!("a trace with no fault"),
    }
    Ok(())
}
