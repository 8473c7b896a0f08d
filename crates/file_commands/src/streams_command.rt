//! The command `streams`: the RTP flows of a capture.
use crate::capture_flows::{check_times, table_at};
use crate::fault::{CaptureInputFault, CommandFault};
use crate::host::{Host, open_capture};
use command_line::StreamsArgs;
use pcap_flows::{FlowTable, StreamList, table_text};
use std::alloc::Global;
use studio_run::write_text;

/// The greatest number of passes over a capture for the skews of its paths: 256 flows, 16 at a time.
const MAX_PASSES: u32 = 16;

/// Writes a line for each path of the RTP streams of a capture, stream by stream, and lines for its other flows. A
/// fault of the capture itself or of its times is returned after these lines are written.
///
/// The capture is opened several times, so that it need not fit in memory: for its flows, and for each 16 skews.
pub fn run_streams<H: Host>(
    host: &H,
    alloc: Global,
    args: StreamsArgs<'_>,
    output: &mut H::Stdout,
) -> Result<(), CommandFault> {
    let table = table_at(host, alloc, args.file)?;
    list_table(host, alloc, args, &table, output)
}

/// Writes the lines of the flows of a capture, and returns the fault of its times, or its own.
fn list_table<H: Host>(
    host: &H,
    alloc: Global,
    args: StreamsArgs<'_>,
    table: &FlowTable,
    output: &mut H::Stdout,
) -> Result<(), CommandFault> {
    write_list(host, alloc, args, table, output)?;
    check_times(host, alloc, args.file, table, args.gap)?;
    own_fault(table)
}

/// Writes the lines of the flows of a capture.
fn write_list<H: Host>(
    host: &H,
    alloc: Global,
    args: StreamsArgs<'_>,
    table: &FlowTable,
    output: &mut H::Stdout,
) -> Result<(), CommandFault> {
    let list = measured_list(host, alloc, args.file, table)?;
    let text = table_text(alloc, table, &list, args.all)?;
    Ok(write_text(output, text.as_bytes())?)
}

/// Returns the streams of the capture at a path, with the skews of their paths.
fn measured_list<H: Host>(
    host: &H,
    alloc: Global,
    path: &str,
    table: &FlowTable,
) -> Result<StreamList, CommandFault> {
    let mut list = StreamList::new(alloc, table)?;
    for _pass in 0..MAX_PASSES {
        if list.is_measured() {
            break;
        }
        let mut input = open_capture(host, path)?;
        list.measure(alloc, &mut input)?;
    }
    Ok(list)
}

/// Returns a capture's own fault as an error, if it has one.
pub(crate) fn own_fault(table: &FlowTable) -> Result<(), CommandFault> {
    match table.fault() {
        Some(fault) => Err(CommandFault::Capture(CaptureInputFault::Octet(fault))),
        None => Ok(()),
    }
}
