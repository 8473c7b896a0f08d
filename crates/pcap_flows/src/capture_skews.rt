//! The skews of pairs of flows, over a whole capture.
ghost use Rattle.std.specs.Prelude.{
  ◌≡◌,
  ◌≤◌,
  ◌++◌,
  ℕ,
  List,
  length,
  map,
  drop,
  Option,
  None,
  Ok,
  IfOk,
  IfSome,
  OnOk,
};
ghost use Rattle.pcap_file.specs.Capture.{packets_of};
ghost use Rattle.pcap_file.specs.Entries.{Entry};
ghost use Rattle.pcap_file.specs.Packet.{packet_view};
ghost use Rattle.pcap_file.specs.ReadBuffer.{octets_of};
ghost use Rattle.pcap_file.specs.Reader.{HasReturned, IsNext, packets_among, part_entries};
ghost use Rattle.pcap_flows.specs.FlowPacket.{flow_packet_of};
ghost use Rattle.pcap_flows.specs.PairTimes.{PairView, pair_view, pair_with};
ghost use Rattle.pcap_flows.specs.CaptureSkews.{AppendsSkews, HasPairs, pairs_after, pairs_told};

use crate::packet::{FlowPacket, flow_packet};
use crate::pair_times::{FlowPair, PairTimes};
use crate::skew::Skew;
use crate::table::FlowTable;
use pcap_file::{
    BlockParser, CaptureBlock, Packet, ReadBuffer, ReaderFault, has_block, next_block, open,
    open_reader,
};
use std::alloc::{AllocError, Global};
use std::io::Read;

/// The greatest number of pairs whose times are kept at once. A pair takes 4.5 MiB at most.
pub(crate) const MAX_PAIRS: usize = 16;

/// Appends pairs of flows at these places of a table: the first place with each further one.
pub(crate) fn push_pairs(
    pairs: &mut Vec<FlowPair>,
    table: &FlowTable,
    places: &[usize],
) -> Result<(), AllocError> {
    let Some((first, further)) = places.split_first() else {
        return Ok(());
    };
    for place in further {
        if let Some(pair) = pair_of(table, *first, *place) {
            pairs.push(pair)?;
        }
    }
    Ok(())
}

/// Returns the flows at two places of a table, if they are there.
fn pair_of(table: &FlowTable, first: usize, second: usize) -> Option<FlowPair> {
    let (first, _) = table.flow(first)?;
    let (second, _) = table.flow(second)?;
    Some(FlowPair { first, second })
}

/// Returns the skew of the second flow of each pair behind the first one, over the packets that both have; none if no
/// such packet has times. The capture `octets` is read once for each 16 pairs. Returns `AllocError` if an allocation
/// fails.
pub(crate) fn skews_of(
    alloc: Global,
    octets: &[u8],
    pairs: &[FlowPair],
) -> Result<Vec<Option<Skew>>, AllocError> {
    let mut skews = Vec::new(alloc);
    let mut times = Vec::new(alloc);
    for pair in pairs.iter() {
        times.push(PairTimes::new(alloc, *pair)?)?;
        if times.len() == MAX_PAIRS {
            add_capture(&mut times, octets)?;
            take_skews(&mut times, &mut skews)?;
        }
    }
    add_capture(&mut times, octets)?;
    take_skews(&mut times, &mut skews)?;
    Ok(skews)
}

/// Adds the times of all packets of a capture to each pair.
fn add_capture(times: &mut Vec<PairTimes>, octets: &[u8]) -> Result<(), AllocError> {
    if times.is_empty() {
        return Ok(());
    }
    let Ok(capture) = open(octets) else {
        return Ok(());
    };
    for item in capture {
        let Ok(packet) = item else {
            break;
        };
        add_packet(times, &packet)?;
    }
    Ok(())
}

/// Adds the times of all packets of a capture that is read to each pair, up to its end or its fault. Returns an error
/// if an allocation or a read fails, or a record or block is too long.
pub(crate) fn add_reader<R: Read>(
    alloc: Global,
    times: &mut Vec<PairTimes>,
    reader: &mut R,
) -> Result<(), ReaderFault>
    ensures { OnOk result (IfSome (R.remaining reader.old) (λ file. map pair_view times.new.items
        ≡ pairs_after (map pair_view times.old.items) (packets_of file))) }
{
    match open_reader(alloc, reader) {
        Ok((mut window, mut parts)) => add_all(times, &mut parts, &mut window, reader),
        // A capture whose header is wrong has no packet.
        Err(ReaderFault::Capture(_fault)) => Ok(()),
        Err(fault) => Err(fault),
    }
}

/// Adds the times of all packets that are left of a capture.
fn add_all<R: Read>(
    times: &mut Vec<PairTimes>,
    parts: &mut BlockParser,
    window: &mut ReadBuffer,
    reader: &mut R,
) -> Result<(), ReaderFault>
    ensures { OnOk result ((file : List ℕ) (begun : List PairView) (entries : List Entry)
        → HasReturned file entries (R.remaining reader.old) parts.old (octets_of window.old) window.old.ended
        → map pair_view times.old.items ≡ pairs_after begun (map Ok (packets_among entries))
        → map pair_view times.new.items ≡ pairs_after begun (packets_of file)) }
{
    // The label names the loop in its proof.
    'parts: for _ in 0..u64::MAX {
        if !has_block(parts, window, reader)? {
            return Ok(());
        }
        match add_next(times, parts, window)? {
            Some(len) => window.consume(len),
            None => return Ok(()),
        }
    }
    Err(ReaderFault::ReadFailed)
}

/// Adds the time of the packet of the next record or block, and returns its length in octets; none if it is the
/// capture's fault.
fn add_next(
    times: &mut Vec<PairTimes>,
    parts: &mut BlockParser,
    window: &ReadBuffer,
) -> Result<Option<usize>, AllocError>
    requires { IsNext parts.old (octets_of window.now) window.now.ended }
    ensures len { IfOk result (λ passed. IfSome passed (λ len. len ≤ length (octets_of window.now))) }
    ensures returned { IfOk result
        (λ passed. IfSome passed (λ len. (file : List ℕ) (begun : List PairView) (entries : List Entry)
        (left : Option (List ℕ))
        → HasReturned file entries left parts.old (octets_of window.now) window.now.ended
        → map pair_view times.old.items ≡ pairs_after begun (map Ok (packets_among entries))
        → HasPairs file left begun (map pair_view times.new.items) parts.new (drop len (octets_of window.now))
        window.now.ended)) }
    ensures fault { IfOk result (λ passed. passed ≡ None → (file : List ℕ) (begun : List PairView)
        (entries : List Entry) (left : Option (List ℕ))
        → HasReturned file entries left parts.old (octets_of window.now) window.now.ended
        → map pair_view times.old.items ≡ pairs_after begun (map Ok (packets_among entries))
        → map pair_view times.new.items ≡ pairs_after begun (packets_of file)) }
{
    match next_block(parts, window) {
        Ok(part) => {
            add_part(times, &part)?;
            Ok(Some(part.len))
        }
        Err(_fault) => Ok(None),
    }
}

/// Adds the time of the packet of a record or a block, if it has one.
fn add_part(times: &mut Vec<PairTimes>, part: &CaptureBlock<'_>) -> Result<(), AllocError>
    ensures { OnOk result ((begun : List PairView) (entries : List Entry)
        → map pair_view times.old.items ≡ pairs_after begun (map Ok (packets_among entries))
        → map pair_view times.new.items
        ≡ pairs_after begun (map Ok (packets_among (entries ++ part_entries part.now)))) }
{
    match part.packet {
        Some(packet) => add_packet(times, &packet),
        None => Ok(()),
    }
}

/// Adds the time of a packet to each pair, if it is an RTP packet of one of its flows.
fn add_packet(times: &mut Vec<PairTimes>, packet: &Packet<'_>) -> Result<(), AllocError>
    ensures { OnOk result (map pair_view times.new.items
        ≡ pairs_told (map pair_view times.old.items) (flow_packet_of (packet_view packet.now))) }
{
    match flow_packet(packet) {
        Some(next) => add_to_pairs(times, &next),
        None => Ok(()),
    }
}

/// Adds the time of an RTP packet to each pair, if it is of one of its flows.
fn add_to_pairs(times: &mut Vec<PairTimes>, next: &FlowPacket) -> Result<(), AllocError>
    ensures { OnOk result (map pair_view times.new.items
        ≡ map (λ pair. pair_with pair next.now) (map pair_view times.old.items)) }
{
    for place in 0..times.len() {
        times[place].add(next)?;
    }
    Ok(())
}

/// Appends the skew of each pair, and removes the pairs.
pub(crate) fn take_skews(
    times: &mut Vec<PairTimes>,
    skews: &mut Vec<Option<Skew>>,
) -> Result<(), AllocError>
    ensures { OnOk result (AppendsSkews (map pair_view times.old.items) skews.old.items skews.new.items) }
{
    for place in 0..times.len() {
        let skew = times[place].skew();
        skews.push(skew)?;
    }
    times.clear();
    Ok(())
}
