//! Capture files: the UDP packets of pcap and pcapng files, in memory or from a reader, and the
//! writer of a live run's record.
//!
//! - **In memory**: `open` takes the octets of a whole file and returns a `Capture`, an iterator over
//!   its packets. Payloads stay in the caller's octets. The first fault is the last item.
//! - **In pieces**: `BlockParser` is a position in a capture. Its calls take the octets from there
//!   on. As long as `is_cut` returns `true`, read more octets; then `next` passes over one record or
//!   block and returns what is in it: a packet, or a mark of a live run's record.
//! - **From a reader**: `open_reader` allocates 1 MiB and reads the header of the file. `has_block`
//!   reads until the next block is whole, `next_block` returns it, and `ReadBuffer::consume` passes
//!   over it. The first fault ends the file.
//! - **Writing a record**: `write_section_header` writes the time at which the studio was opened.
//!   `write_interface` then describes a path and its stream's configuration (`RecordedStream`), stream
//!   by stream and path by path; `BlockParser::interface_texts` reads both back. `write_packet`
//!   writes a datagram that arrived, as an IPv4 packet, and `write_statistics` the time of the close.
//!   In the record of a run whose gains can change, `write_gains_interface` describes one more
//!   interface behind those of all paths, and `write_change` writes a change of gains that was taken, as
//!   a packet on it; `read_change` reads its payload. Each writes one block to the front of the caller's
//!   slice, which has `MAX_BLOCK_LEN` octets, and returns its length. Times are in nanoseconds since the
//!   opening (`nanoseconds_after`).
//!   `whole_blocks` finds how much of what was written so far ends with a whole block.
//!
//! Only `open_reader` allocates. What a file holds is defined as `packets_of` and, with the marks of
//! a record, `entries_of`, by draft-ietf-opsawg-pcap, draft-ietf-opsawg-pcapng and tcpdump's registry
//! of link types. `records_are_read_back` states that a written record is read back.
#![tactic(auto)]

mod block_parser;
mod block_type;
mod capture;
mod cursor;
mod decode;
mod encode;
mod fault;
mod laws;
mod reader;
mod record_blocks;

pub use block_parser::{BlockParser, CaptureBlock};
pub use capture::open;
pub use cursor::Capture;
pub use decode::Packet;
pub use decode::interface_texts::InterfaceTexts;
pub use decode::ipv4::{UdpBody, UdpDatagram, UdpPacket};
pub use decode::record_mark::{RecordMark, decimal_number};
pub use decode::recorded_change::{ChangeHead, read_change};
pub use encode::body::{InterfaceName, interface_name};
pub use encode::datagram::{MAX_DATAGRAM_LEN, RecordedDatagram, nanoseconds_after};
pub use encode::recorded_change::{MAX_RECORDED_GAINS, RecordedChange};
pub use encode::recorded_stream::{Description, RecordedStream};
pub use encode::{
    MAX_BLOCK_LEN, write_change, write_gains_interface, write_interface, write_packet,
    write_section_header, write_statistics,
};
pub use fault::{CaptureFault, CaptureFaultKind, ReaderFault};
pub use laws::{
    changes_are_read_back, checksums_are_right, instants_come_back, paths_are_read_back,
    records_are_read_back,
};
pub use reader::buffer::ReadBuffer;
pub use reader::{cut_fault, has_block, has_whole_block, interface_texts, next_block, open_reader};
pub use record_blocks::{WholeBlocks, whole_blocks};
