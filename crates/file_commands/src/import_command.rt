//! The command `import`: a capture as a trace, or the configuration that fits it.
use crate::capture_flows::{addresses_in, check_times};
use crate::fault::{CaptureInputFault, CommandFault};
use crate::host::{Host, read_capture};
use crate::imported_config::readable_text;
use crate::streams_command::own_fault;
use command_line::ImportArgs;
use pcap_flows::{FlowTable, ImportFault, Routes, config_for, routes_of, trace_text};
use std::alloc::Global;
use std::io::Write;
use std::net::SocketAddrV4;
use studio_run::write_text;

/// Writes the trace of the capture at a path, or the configuration that fits it. If some flows were left out, it writes
/// their number to `faults`. A fault of the capture itself is returned after that, since the packets before it count;
/// the fault of a time that jumps before anything is written.
pub fn run_import<H: Host>(
    host: &H,
    alloc: Global,
    path: &str,
    args: &ImportArgs<'_>,
    output: &mut H::Stdout,
    faults: &mut H::Stderr,
) -> Result<(), CommandFault> {
    let addresses = addresses_in(alloc, args.addresses.as_slice())?;
    import_to(
        host,
        alloc,
        path,
        addresses.as_slice(),
        args,
        output,
        faults,
    )
}

/// Writes the trace or the configuration of the capture at a path, for its flows to these addresses.
fn import_to<H: Host>(
    host: &H,
    alloc: Global,
    path: &str,
    addresses: &[SocketAddrV4],
    args: &ImportArgs<'_>,
    output: &mut H::Stdout,
    faults: &mut H::Stderr,
) -> Result<(), CommandFault> {
    let octets = read_capture(host, alloc, path)?;
    let octets = octets.as_slice();
    let table = timed_table(host, alloc, path, octets, args.gap)?;
    import_table(alloc, &table, octets, addresses, args, output, faults)
}

/// Returns the flows in the octets of the capture at a path. Returns the fault of a time that jumps by more than `gap`
/// allows.
fn timed_table<H: Host>(
    host: &H,
    alloc: Global,
    path: &str,
    octets: &[u8],
    gap: Option<u64>,
) -> Result<FlowTable, CommandFault> {
    let table = FlowTable::of(alloc, octets)?;
    check_times(host, alloc, path, &table, gap)?;
    Ok(table)
}

/// Writes the trace or the configuration of a capture's flows to these addresses, and what is missing of them.
fn import_table<W: Write, E: Write>(
    alloc: Global,
    table: &FlowTable,
    octets: &[u8],
    addresses: &[SocketAddrV4],
    args: &ImportArgs<'_>,
    output: &mut W,
    faults: &mut E,
) -> Result<(), CommandFault> {
    let left_out = import_flows(alloc, table, octets, addresses, args, output)?;
    note_left_out(left_out, faults);
    own_fault(table)
}

/// Writes the number of flows that were left out, if there are some.
fn note_left_out<E: Write>(left_out: usize, faults: &mut E) {
    if left_out > 0 {
        // If this line cannot be written it is lost, as a fault's line is.
        let _ = writeln!(faults, "capture: flows left out: {left_out}");
    }
}

/// Writes the trace or the configuration of a capture's flows to these addresses, and returns the number of flows that
/// were left out.
fn import_flows<W: Write>(
    alloc: Global,
    table: &FlowTable,
    octets: &[u8],
    addresses: &[SocketAddrV4],
    args: &ImportArgs<'_>,
    output: &mut W,
) -> Result<usize, CommandFault> {
    let routes = routes_to(alloc, table, addresses)?;
    write_import(alloc, table, octets, &routes, args, output)?;
    Ok(routes.left_out())
}

/// Returns the routes of a capture's flows to these addresses, or, if there are none, of all flows that fit a stream.
pub(crate) fn routes_to(
    alloc: Global,
    table: &FlowTable,
    addresses: &[SocketAddrV4],
) -> Result<Routes, CommandFault> {
    match routes_of(alloc, table, addresses) {
        Ok(routes) => Ok(routes),
        Err(fault) => Err(route_fault(table, fault)),
    }
}

/// Returns the fault of a capture that has no routes.
fn route_fault(table: &FlowTable, fault: ImportFault) -> CommandFault {
    // A flow may be missing only because the capture was read up to its own fault, which is then the cause.
    match (fault, table.fault()) {
        (ImportFault::NoFlow | ImportFault::UnknownAddress, Some(fault)) => {
            CommandFault::Capture(CaptureInputFault::Octet(fault))
        }
        (fault, _) => fault_of(fault),
    }
}

/// Writes the configuration if `--config` was passed, or else the trace.
fn write_import<W: Write>(
    alloc: Global,
    table: &FlowTable,
    octets: &[u8],
    routes: &Routes,
    args: &ImportArgs<'_>,
    output: &mut W,
) -> Result<(), CommandFault> {
    if args.config {
        write_config(alloc, table, octets, routes, args, output)
    } else {
        write_trace(alloc, octets, routes, output)
    }
}

/// Writes the configuration that fits a capture's trace.
fn write_config<W: Write>(
    alloc: Global,
    table: &FlowTable,
    octets: &[u8],
    routes: &Routes,
    args: &ImportArgs<'_>,
    output: &mut W,
) -> Result<(), CommandFault> {
    match config_for(alloc, table, octets, routes, args.latency) {
        Ok(config) => {
            let text = readable_text(alloc, config)?;
            Ok(write_text(output, text.as_bytes())?)
        }
        Err(fault) => Err(fault_of(fault)),
    }
}

/// Writes a capture's trace.
fn write_trace<W: Write>(
    alloc: Global,
    octets: &[u8],
    routes: &Routes,
    output: &mut W,
) -> Result<(), CommandFault> {
    match trace_text(alloc, octets, routes.list()) {
        Ok(text) => Ok(write_text(output, text.as_slice())?),
        Err(fault) => Err(fault_of(fault)),
    }
}

/// Returns `Memory` if an allocation failed, or else the fault of the capture as a trace.
fn fault_of(fault: ImportFault) -> CommandFault {
    match fault {
        ImportFault::Memory => CommandFault::Memory,
        other => CommandFault::Capture(CaptureInputFault::Import(other)),
    }
}
