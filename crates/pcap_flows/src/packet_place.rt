//! The place of a packet in a capture.
ghost use Rattle.std.specs.Prelude.{◌≤◌, length, IfOk};
ghost use Rattle.pcap_file.specs.ReadBuffer.{octets_of};
ghost use Rattle.pcap_file.specs.Reader.{IsNext};

use pcap_file::{
    BlockParser, CaptureFault, ReadBuffer, ReaderFault, has_block, next_block, open_reader,
};
use std::alloc::Global;
use std::io::Read;

/// Returns the number of octets before the record or block of a UDP packet, by the packet's number from 0; none if the
/// capture ends before it. Returns an error if an allocation or a read fails, and the capture's fault if that is before
/// the packet.
// A `FlowTable` receives packets without their places, which only the rare fault of a packet needs.
pub fn place_of_packet<R: Read>(
    alloc: Global,
    reader: &mut R,
    packet: u64,
) -> Result<Option<usize>, ReaderFault> {
    let (mut window, mut parts) = open_reader(alloc, reader)?;
    let mut left = packet;
    for _ in 0..u64::MAX {
        if !has_block(&parts, &mut window, reader)? {
            return Ok(None);
        }
        let place = parts.place();
        let next = match next_part(&mut parts, &window) {
            Ok(next) => next,
            Err(fault) => return Err(ReaderFault::Capture(fault)),
        };
        if next.has_packet && left == 0 {
            return Ok(Some(place));
        }
        if next.has_packet {
            left -= 1;
        }
        window.consume(next.len);
    }
    Ok(None)
}

/// A record or a block that is passed over.
#[derive(Clone, Copy)]
struct PassedBlock {
    /// Its length, in octets.
    len: usize,
    /// True if it has a UDP packet.
    has_packet: bool,
}

/// Reads the next record or block.
fn next_part(parts: &mut BlockParser, window: &ReadBuffer) -> Result<PassedBlock, CaptureFault>
    requires { IsNext parts.old (octets_of window.now) window.now.ended }
    ensures { IfOk result (λ next. next.len ≤ length (octets_of window.now)) }
{
    let part = next_block(parts, window)?;
    Ok(PassedBlock {
        len: part.len,
        has_packet: part.packet.is_some(),
    })
}
