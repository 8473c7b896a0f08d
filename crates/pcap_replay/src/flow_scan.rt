//! The scan of a capture of any length for its flows.
ghost use Rattle.std.specs.Prelude.{◌≡◌, ◌≤◌, ◌++◌, ℕ, List, map, length, drop, Option, None, Ok, IfOk, IfSome, OnOk};
ghost use Rattle.pcap_file.specs.Entries.{Entry};
ghost use Rattle.pcap_file.specs.ReadBuffer.{octets_of};
ghost use Rattle.pcap_file.specs.Reader.{HasReturned, IsNext, packets_among, part_entries};
ghost use Rattle.pcap_replay.specs.Flows.{HasTable};
ghost use Rattle.pcap_file.specs.Capture.{packets_of};
ghost use Rattle.pcap_flows.specs.FlowTable.{no_table, table_after, table_view};

use pcap_file::{
    BlockParser, CaptureBlock, ReadBuffer, ReaderFault, has_block, next_block, open_reader,
};
use pcap_flows::FlowTable;
use std::alloc::{AllocError, Global};
use std::io::Read;

/// Returns the flows of a capture, up to its end or its fault, as `FlowTable::of` does for one in memory. Returns an
/// error if an allocation or a read fails, or a record or block is too long.
pub fn scan_flows<R: Read>(alloc: Global, reader: &mut R) -> Result<FlowTable, ReaderFault>
    ensures { IfOk result (λ table. IfSome (R.remaining reader.old) (λ file. table_view table
        ≡ table_after no_table (packets_of file))) }
{
    let mut table = FlowTable::new(alloc);
    match open_reader(alloc, reader) {
        Ok((mut window, mut parts)) => {
            add_all(alloc, &mut table, &mut parts, &mut window, reader)?;
            Ok(table)
        }
        // A fault of the capture ends the table, as one behind its packets does.
        Err(ReaderFault::Capture(fault)) => {
            table.take(alloc, Err(fault))?;
            Ok(table)
        }
        Err(fault) => Err(fault),
    }
}

/// Adds the packets of all that is left of a capture, and its fault.
fn add_all<R: Read>(
    alloc: Global,
    table: &mut FlowTable,
    parts: &mut BlockParser,
    window: &mut ReadBuffer,
    reader: &mut R,
) -> Result<(), ReaderFault>
    ensures { OnOk result ((file : List ℕ) (entries : List Entry)
        → HasReturned file entries (R.remaining reader.old) parts.old (octets_of window.old) window.old.ended
        → table_view table.old ≡ table_after no_table (map Ok (packets_among entries))
        → table_view table.new ≡ table_after no_table (packets_of file)) }
{
    // The label names the loop in its proof.
    'parts: for _ in 0..u64::MAX {
        if !has_block(parts, window, reader)? {
            return Ok(());
        }
        match add_next(alloc, table, parts, window)? {
            Some(len) => window.consume(len),
            None => return Ok(()),
        }
    }
    Err(ReaderFault::ReadFailed)
}

/// Adds the packet of the next record or block, and returns its length; none if it is the capture's fault.
fn add_next(
    alloc: Global,
    table: &mut FlowTable,
    parts: &mut BlockParser,
    window: &ReadBuffer,
) -> Result<Option<usize>, AllocError>
    requires { IsNext parts.old (octets_of window.now) window.now.ended }
    ensures len { IfOk result (λ given. IfSome given (λ len. len ≤ length (octets_of window.now))) }
    ensures returned { IfOk result
        (λ given. IfSome given (λ len. (file : List ℕ) (entries : List Entry) (left : Option (List ℕ))
        → HasReturned file entries left parts.old (octets_of window.now) window.now.ended
        → table_view table.old ≡ table_after no_table (map Ok (packets_among entries))
        → HasTable file left (table_view table.new) parts.new (drop len (octets_of window.now)) window.now.ended)) }
    ensures fault { IfOk result (λ given. given ≡ None → (file : List ℕ) (entries : List Entry) (left : Option (List ℕ))
        → HasReturned file entries left parts.old (octets_of window.now) window.now.ended
        → table_view table.old ≡ table_after no_table (map Ok (packets_among entries))
        → table_view table.new ≡ table_after no_table (packets_of file)) }
{
    match next_block(parts, window) {
        Ok(part) => {
            add_part(alloc, table, &part)?;
            Ok(Some(part.len))
        }
        Err(fault) => {
            table.take(alloc, Err(fault))?;
            Ok(None)
        }
    }
}

/// Adds the packet of a record or a block, if it has one.
fn add_part(alloc: Global, table: &mut FlowTable, part: &CaptureBlock<'_>) -> Result<(), AllocError>
    ensures { OnOk result ((entries : List Entry)
        → table_view table.old ≡ table_after no_table (map Ok (packets_among entries))
        → table_view table.new ≡ table_after no_table (map Ok (packets_among (entries ++ part_entries part.now)))) }
{
    match part.packet {
        Some(packet) => table.take(alloc, Ok(packet)),
        None => Ok(()),
    }
}
