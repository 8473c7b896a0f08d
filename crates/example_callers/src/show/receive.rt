//! Arrivals to marks, and faults of arrivals.

use crate::arrival::Arrival;
use crate::first_call::stream;
use crate::inputs::{FIRST, SECOND, arrival, path};
use crate::receive::{ReceiveFault, receive_stream};
use anyhow::{Context, ensure};
use path_merge::{Mark, StreamSpec};
use std::alloc::Global;

/// Prints the marks of two packets, and the faults of a reading that goes back and of a path that the stream does not
/// have.
pub(crate) fn show_receive(rt: &impl Print, alloc: Global) -> anyhow::Result<()> {
    println!(rt; "receive_stream:")?;
    let spec = stream()?;
    let (a, b, c) = (path(0)?, path(1)?, path(2)?);
    let arrivals = [
        arrival(0, a, &FIRST),
        arrival(0, b, &FIRST),
        arrival(12, b, &SECOND),
        arrival(12, a, &SECOND[..29]),
    ];
    print_marks(rt, alloc, spec, &arrivals)?;
    let back = [arrival(6, a, &FIRST), arrival(5, a, &FIRST)];
    print_fault(rt, alloc, spec, &back)?;
    print_fault(rt, alloc, spec, &[arrival(0, c, &FIRST)])
}

/// Prints the marks of these arrivals.
fn print_marks(
    rt: &impl Print,
    alloc: Global,
    spec: StreamSpec,
    arrivals: &[Arrival<'_>],
) -> anyhow::Result<()> {
    let marks = receive_stream(alloc, spec, 0, arrivals)?;
    print_each(rt, &marks)
}

/// Prints marks.
fn print_each(rt: &impl Print, marks: &[Mark]) -> anyhow::Result<()> {
    for mark in marks {
        println!(rt; "{:?}", mark.kind())?;
    }
    Ok(())
}

/// Prints the fault of these arrivals.
fn print_fault(
    rt: &impl Print,
    alloc: Global,
    spec: StreamSpec,
    arrivals: &[Arrival<'_>],
) -> anyhow::Result<()> {
    let fault = fault_of(alloc, spec, arrivals).context("arrivals with no fault")?;
    ensure!(!matches!(fault, ReceiveFault::Memory), "out of memory");
    println!(rt; "{fault:?}")?;
    Ok(())
}

/// Returns the fault of these arrivals, if they have one.
fn fault_of(alloc: Global, spec: StreamSpec, arrivals: &[Arrival<'_>]) -> Option<ReceiveFault> {
    receive_stream(alloc, spec, 0, arrivals).err()
}
