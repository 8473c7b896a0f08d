//! The blocks of a record. The submodules hold a block's body, a recorded datagram, its IPv4 and UDP headers, a
//! recorded change of gains, and the description of a stream.
ghost use Rattle.std.specs.Prelude.{◌≡◌, ◌+◌, ◌*◌, ◌%◌, ◌≤◌, ◌++◌, length, drop};
ghost use Rattle.pcap_file.specs.RecordedChange.{change_view};
ghost use Rattle.pcap_file.specs.RecordedDatagram.{arrival_view};
ghost use Rattle.pcap_file.specs.Blocks.{
  block_octets,
  change_block,
  closing_block,
  datagram_block,
  gains_interface_block,
  interface_block,
  padded,
  section_block,
  texts_block,
};
ghost use Rattle.pcap_file.specs.Overwrites.{written_at};

use crate::block_type::{ENHANCED_PACKET, INTERFACE, SECTION_HEADER, STATISTICS};
use crate::encode::body::{
    closing_body, datagram_body, interface_body, interface_name, section_body,
};
use crate::encode::datagram::RecordedDatagram;
use crate::encode::recorded_change::{
    GAIN_LEN, GAINS_PLACE, MAX_CHANGE_LEN, RecordedChange, write_payload,
};
use std::net::Ipv4Addr;

pub(crate) mod body;
pub(crate) mod datagram;
pub(crate) mod ip_header;
pub(crate) mod recorded_change;
pub(crate) mod recorded_stream;

/// The greatest length of a block, in octets: that of a change of 8,192 gains. Other blocks have at most 2,108.
// 12 octets of the block itself, 20 of a packet's fields, 28 of the IPv4 and UDP headers, and 32,784 of a change; a
// datagram has 2,048 at most.
pub const MAX_BLOCK_LEN: usize = 32_844;

/// The name and the description of the interface of changes of gains.
const GAINS: &[u8] = b"gains";

/// Writes the section header of a record to the start of `out`, and returns its length in octets. `open_at` is the time
/// at which the studio was opened, in sampling instants at 48 kHz.
#[tactic(auto, unfolding(crate::specs::Blocks::section_block, crate::specs::Blocks::padded))]
pub fn write_section_header(open_at: u64, out: &mut [u8]) -> usize
    requires { 2108 ≤ length out.old }
    ensures written { out.new ≡ section_block open_at ++ drop result out.old }
    ensures len { result ≡ length (section_block open_at) }
    ensures short { result ≤ 2108 }
{
    write_block(SECTION_HEADER, section_body(open_at).as_slice(), &[], out)
}

/// Writes the description of a path's interface to the start of `out`, and returns its length in octets. The
/// interface's name is the stream's number and the path's letter. Its description, of at most 64 octets, says what the
/// stream's configuration is.
#[tactic(auto, unfolding(crate::specs::Blocks::interface_block))]
pub fn write_interface(stream: u16, letter: u8, description: &[u8], out: &mut [u8]) -> usize
    requires few { length description.now ≤ 64 }
    requires space { 2108 ≤ length out.old }
    ensures written { out.new ≡ interface_block stream letter description.now ++ drop result out.old }
    ensures len { result ≡ length (interface_block stream letter description.now) }
    ensures short { result ≤ 2108 }
{
    write_texts(interface_name(stream, letter).as_slice(), description, out)
}

/// Writes the description of the interface of a run's changes of gains to the start of `out`, and returns its length in
/// octets. Its place is behind the interfaces of all paths, in a record of a run whose gains can change.
#[tactic(auto, unfolding(crate::specs::Blocks::gains_interface_block))]
pub fn write_gains_interface(out: &mut [u8]) -> usize
    requires { 2108 ≤ length out.old }
    ensures written { out.new ≡ gains_interface_block ++ drop result out.old }
    ensures len { result ≡ length gains_interface_block }
    ensures short { result ≤ 2108 }
{
    write_texts(GAINS, GAINS, out)
}

/// Writes the description of an interface with a name to the start of `out`, and returns its length in octets.
#[tactic(auto, unfolding(crate::specs::Blocks::texts_block, crate::specs::Blocks::padded))]
fn write_texts(name: &[u8], description: &[u8], out: &mut [u8]) -> usize
    requires short_name { length name.now ≤ 8 }
    requires few { length description.now ≤ 64 }
    requires space { 2108 ≤ length out.old }
    ensures written { out.new ≡ texts_block name.now description.now ++ drop result out.old }
    ensures len { result ≡ length (texts_block name.now description.now) }
    ensures short { result ≤ 2108 }
{
    write_block(
        INTERFACE,
        interface_body(name, description).as_slice(),
        &[],
        out,
    )
}

/// Writes a datagram as an IPv4 packet to the start of `out`, and returns the block's length in octets.
#[tactic(auto, unfolding(crate::specs::Blocks::datagram_block))]
pub fn write_packet(arrival: &RecordedDatagram<'_>, out: &mut [u8]) -> usize
    requires few { length arrival.now.octets.now ≤ 2048 }
    requires space { 2108 ≤ length out.old }
    ensures written { out.new ≡ datagram_block (arrival_view arrival.now) ++ drop result out.old }
    ensures len { result ≡ length (datagram_block (arrival_view arrival.now)) }
    ensures short { result ≤ 2108 }
{
    write_block(
        ENHANCED_PACKET,
        datagram_body(arrival).as_slice(),
        arrival.octets,
        out,
    )
}

/// Writes a change of gains as an IPv4 packet from and to nowhere to the start of `out`, and returns the block's length
/// in octets. All addresses and ports are 0.
#[tactic(auto, unfolding(crate::specs::Blocks::change_block, crate::specs::Blocks::datagram_block))]
pub fn write_change(change: &RecordedChange<'_>, out: &mut [u8]) -> usize
    requires few { length change.now.gains.now ≤ 8192 }
    requires space { 32844 ≤ length out.old }
    ensures written { out.new
        ≡ change_block change.now.interface change.now.nanoseconds (change_view change.now) ++ drop result out.old }
    ensures len { result
        ≡ length (change_block change.now.interface change.now.nanoseconds (change_view change.now)) }
    ensures short { result ≤ 32844 }
{
    let mut buffer = [0; MAX_CHANGE_LEN];
    let payload = &mut buffer[..GAINS_PLACE + GAIN_LEN * change.gains.len()];
    write_payload(change, payload);
    let arrival = RecordedDatagram {
        interface: change.interface,
        nanoseconds: change.nanoseconds,
        source: Ipv4Addr::UNSPECIFIED,
        source_port: 0,
        destination: Ipv4Addr::UNSPECIFIED,
        destination_port: 0,
        octets: payload,
    };
    write_block(
        ENHANCED_PACKET,
        datagram_body(&arrival).as_slice(),
        arrival.octets,
        out,
    )
}

/// Writes the interface statistics of a record's end to the start of `out`, and returns their length in octets. The
/// studio was closed `nanoseconds` after it was opened.
#[tactic(auto, unfolding(crate::specs::Blocks::closing_block, crate::specs::Blocks::padded))]
pub fn write_statistics(nanoseconds: u64, out: &mut [u8]) -> usize
    requires { 2108 ≤ length out.old }
    ensures written { out.new ≡ closing_block nanoseconds ++ drop result out.old }
    ensures len { result ≡ length (closing_block nanoseconds) }
    ensures short { result ≤ 2108 }
{
    write_block(STATISTICS, closing_body(nanoseconds).as_slice(), &[], out)
}

/// Writes a block of a type, with a head and octets, which zeros fill up to whole words of 4. Returns its length.
fn write_block(kind: u32, head: &[u8], octets: &[u8], out: &mut [u8]) -> usize
    requires few { length head.now + (length octets.now + 3 * length octets.now % 4) ≤ 32832 }
    requires space { 12 + length head.now + (length octets.now + 3 * length octets.now % 4) ≤ length out.old }
    ensures written { out.new ≡ block_octets kind (head.now ++ padded octets.now) ++ drop result out.old }
    ensures len { result ≡ length (block_octets kind (head.now ++ padded octets.now)) }
    ensures short { result ≡ 12 + length head.now + (length octets.now + 3 * length octets.now % 4) }
{
    // 3 n and -n are the same modulo 4: the octets that are missing to whole words of 4.
    let zeros = 3 * octets.len() % 4;
    let len = (12 + head.len() + octets.len() + zeros) as u32;
    let place = write_at(out, 0, &kind.to_le_bytes());
    let place = write_at(out, place, &len.to_le_bytes());
    let place = write_at(out, place, head);
    let place = write_at(out, place, octets);
    let place = write_at(out, place, &[0; 3][..zeros]);
    write_at(out, place, &len.to_le_bytes())
}

/// Writes octets at a place, and returns the place behind them.
pub(crate) fn write_at(out: &mut [u8], place: usize, octets: &[u8]) -> usize
    requires { place + length octets.now ≤ length out.old }
    ensures written { out.new ≡ written_at place octets.now out.old }
    ensures place { result ≡ place + length octets.now }
{
    let end = place + octets.len();
    out[place..end].copy_from_slice(octets);
    end
}
