//! The flows of the capture at a path, and the test of its times.
use crate::fault::{CaptureInputFault, CommandFault};
use crate::host::{Host, open_capture};
use crate::import_command::routes_to;
use pcap_file::ReaderFault;
use pcap_flows::{FlowTable, Routes, TimeJump, place_of_packet};
use pcap_replay::{record_opening, scan_flows};
use std::alloc::Global;
use std::net::SocketAddrV4;

// A recorder that stops and starts again within a minute is one capture. A clock that is set steps by years.
/// The longest step forward of a capture's time that is no fault, in seconds, unless `--gap` has another limit.
const CAPTURE_GAP: u64 = 60;

// A record's times are readings of its own clock, and a studio may have no sender for a while. A wrong bit in a time
// can make a step of centuries.
/// The longest step forward of the time of a live run's record that is no fault, in seconds, unless `--gap` has another
/// limit.
pub(crate) const RECORD_GAP: u64 = 3_600;

/// Returns the flows of the capture at a path, which may be of any length.
pub(crate) fn table_at<H: Host>(
    host: &H,
    alloc: Global,
    path: &str,
) -> Result<FlowTable, CommandFault> {
    let mut input = open_capture(host, path)?;
    Ok(scan_flows(alloc, &mut input)?)
}

/// Returns the routes of the flows of the capture at a path to the addresses that words name, or of all flows that fit
/// a stream if there are no words. Returns the fault of a time that jumps by more than `gap` allows.
pub(crate) fn routes_at<H: Host>(
    host: &H,
    alloc: Global,
    path: &str,
    words: &[&str],
    gap: Option<u64>,
) -> Result<Routes, CommandFault> {
    let addresses = addresses_in(alloc, words)?;
    let table = timed_table_at(host, alloc, path, gap)?;
    routes_to(alloc, &table, addresses.as_slice())
}

/// Returns the flows of the capture at a path. Returns the fault of a time that jumps by more than `gap` allows.
fn timed_table_at<H: Host>(
    host: &H,
    alloc: Global,
    path: &str,
    gap: Option<u64>,
) -> Result<FlowTable, CommandFault> {
    let table = table_at(host, alloc, path)?;
    check_times(host, alloc, path, &table, gap)?;
    Ok(table)
}

/// Returns the addresses and ports that words name. Returns `CommandFault::Address` for a word that names none.
pub(crate) fn addresses_in(
    alloc: Global,
    words: &[&str],
) -> Result<Vec<SocketAddrV4>, CommandFault> {
    let mut addresses = Vec::new(alloc);
    for word in words.iter() {
        let Ok(address) = word.parse::<SocketAddrV4>() else {
            return Err(CommandFault::Address);
        };
        addresses.push(address)?;
    }
    Ok(addresses)
}

/// Tests that the time of the capture at a path steps back by at most a second, and forward by at most `gap` seconds;
/// without `gap` by at most a minute, and by at most an hour in a live run's record.
pub(crate) fn check_times<H: Host>(
    host: &H,
    alloc: Global,
    path: &str,
    table: &FlowTable,
    gap: Option<u64>,
) -> Result<(), CommandFault> {
    let Some(jump) = table.time_jump(gap.unwrap_or(CAPTURE_GAP)) else {
        return Ok(());
    };
    // The file is read again only if its times are wrong for a capture that is no record.
    if gap.is_none() && is_record(host, alloc, path)? {
        return match table.time_jump(RECORD_GAP) {
            Some(jump) => Err(fault_at(host, alloc, path, &jump)),
            None => Ok(()),
        };
    }
    Err(fault_at(host, alloc, path, &jump))
}

/// Returns the fault of a time of the capture at a path that jumps.
fn fault_at<H: Host>(host: &H, alloc: Global, path: &str, jump: &TimeJump) -> CommandFault {
    match place_at(host, alloc, path, jump) {
        Ok(place) => CommandFault::Capture(jump_fault(place, jump)),
        Err(fault) => fault,
    }
}

/// Returns true if the capture at a path is the record of a live run.
fn is_record<H: Host>(host: &H, alloc: Global, path: &str) -> Result<bool, CommandFault> {
    let mut input = open_capture(host, path)?;
    Ok(record_opening(alloc, &mut input)?.is_some())
}

/// Returns the place of the packet with which a capture's time jumps.
fn place_at<H: Host>(
    host: &H,
    alloc: Global,
    path: &str,
    jump: &TimeJump,
) -> Result<usize, CommandFault> {
    let mut input = open_capture(host, path)?;
    match place_of_packet(alloc, &mut input, jump.packet)? {
        Some(place) => Ok(place),
        // The file has become shorter since its packets were counted.
        None => Err(CommandFault::from(ReaderFault::ReadFailed)),
    }
}

/// Returns the fault of a time that jumps at a place.
fn jump_fault(place: usize, jump: &TimeJump) -> CaptureInputFault {
    let seconds = jump.seconds;
    if jump.is_back {
        CaptureInputFault::TimeBack { place, seconds }
    } else {
        CaptureInputFault::TimeAhead { place, seconds }
    }
}
