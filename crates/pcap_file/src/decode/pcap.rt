//! The pcap format (draft-ietf-opsawg-pcap, File Header and Packet Record).
ghost use Rattle.std.specs.Prelude.{◌≡◌, ◌≤◌, MatchResult, IfOk, Ok, Err, length};
ghost use Rattle.pcap_file.specs.CaptureBlock.{part_view};
ghost use Rattle.pcap_file.specs.BlockParser as parts;
ghost use Rattle.pcap_file.specs.Pcap as spec;
ghost use Rattle.pcap_file.specs.Pcap.{pcap_of, record_of};

use crate::block_parser::CaptureBlock;
use crate::decode::endian::Endian;
use crate::decode::link::{LinkType, link_of};
use crate::decode::packet_in;
use crate::fault::CaptureFaultKind;

/// The length of a file's header, in octets.
pub(crate) const FILE_HEADER: usize = 24;

/// The length of a record's header, in octets.
const RECORD_HEADER: usize = 16;

/// The magic number of a file whose times are in microseconds.
const MICROSECONDS: u32 = 0xa1b2_c3d4;

/// The magic number of a file whose times are in nanoseconds.
const NANOSECONDS: u32 = 0xa1b2_3c4d;

/// The unit of the second word of a record's time; the first has whole seconds.
#[derive(Clone, Copy, PartialEq, Eq)]
pub(crate) enum TimeUnit {
    Microsecond,
    Nanosecond,
}

/// The fields of a pcap file's header by which its records are read.
#[derive(Clone, Copy, PartialEq, Eq)]
pub(crate) struct Pcap {
    pub(crate) order: Endian,
    pub(crate) unit: TimeUnit,
    pub(crate) link: LinkType,
}

/// Returns the byte order and the time unit of a file's first four octets, if they are the magic number of pcap.
fn read_magic(octets: &[u8]) -> Option<(Endian, TimeUnit)>
    requires { 4 ≤ length octets.now }
    ensures { result ≡ spec.magic_of octets.now }
{
    let big = Endian::Big.read_u32(octets, 0);
    let little = Endian::Little.read_u32(octets, 0);
    if big == MICROSECONDS {
        Some((Endian::Big, TimeUnit::Microsecond))
    } else if little == MICROSECONDS {
        Some((Endian::Little, TimeUnit::Microsecond))
    } else if big == NANOSECONDS {
        Some((Endian::Big, TimeUnit::Nanosecond))
    } else if little == NANOSECONDS {
        Some((Endian::Little, TimeUnit::Nanosecond))
    } else {
        None
    }
}

/// Returns the header of a pcap file, which octets begin with. Returns `Format` if the magic number is wrong,
/// `Truncated` if the header isn't whole, and `Version` if it isn't 2.4.
#[tactic(auto, unfolding(crate::specs::Pcap::pcap_of, crate::specs::Pcap::header_in))]
pub(crate) fn read_header(octets: &[u8]) -> Result<Pcap, CaptureFaultKind>
    ensures header { result ≡ pcap_of octets.now }
    ensures whole { IfOk result (λ _. 24 ≤ length octets.now) }
{
    if octets.len() < 4 {
        return Err(CaptureFaultKind::Format);
    }
    let (order, unit) = read_magic(octets).ok_or(CaptureFaultKind::Format)?;
    if octets.len() < FILE_HEADER {
        return Err(CaptureFaultKind::Truncated);
    }
    if order.read_u16(octets, 4) != 2 || order.read_u16(octets, 6) != 4 {
        return Err(CaptureFaultKind::Version);
    }
    Ok(Pcap {
        order,
        unit,
        // The upper half of the word has other fields: the length of a frame check sequence.
        link: link_of((order.read_u32(octets, 20) % 65536) as u16),
    })
}

/// Returns the packet record that octets begin with, or `Truncated` if it isn't whole.
#[tactic(auto, unfolding(crate::specs::Pcap::record_of))]
pub(crate) fn read_record<'a>(
    pcap: &Pcap,
    octets: &'a [u8],
) -> Result<CaptureBlock<'a>, CaptureFaultKind>
    ensures part { MatchResult result (λ part. record_of pcap.now octets.now ≡ Ok (part_view part))
        (λ kind. record_of pcap.now octets.now ≡ Err kind) }
    ensures bounds { IfOk result (λ part. (1 ≤ part.len) × (part.len ≤ length octets.now)) }
{
    if octets.len() < RECORD_HEADER {
        return Err(CaptureFaultKind::Truncated);
    }
    let captured = pcap.order.read_u32(octets, 8) as usize;
    if octets.len() - RECORD_HEADER < captured {
        return Err(CaptureFaultKind::Truncated);
    }
    let len = RECORD_HEADER + captured;
    let packet = packet_in(
        pcap.link,
        Some(read_time(pcap, octets)),
        0,
        &octets[RECORD_HEADER..len],
    );
    Ok(CaptureBlock {
        len,
        packet,
        mark: None,
    })
}

/// Returns true if the record that octets begin with isn't whole.
pub(crate) fn is_record_cut(pcap: &Pcap, octets: &[u8]) -> bool
    ensures { result ≡ parts.is_record_cut pcap.now octets.now }
{
    octets.len() < RECORD_HEADER
        || octets.len() - RECORD_HEADER < pcap.order.read_u32(octets, 8) as usize
}

/// Returns a record's time in nanoseconds since 1970.
fn read_time(pcap: &Pcap, octets: &[u8]) -> u64
    requires { 16 ≤ length octets.now }
    ensures { result ≡ spec.record_time pcap.now octets.now }
{
    let seconds = u64::from(pcap.order.read_u32(octets, 0));
    let units = u64::from(pcap.order.read_u32(octets, 4));
    let nanoseconds = match pcap.unit {
        TimeUnit::Microsecond => units * 1000,
        TimeUnit::Nanosecond => units,
    };
    seconds * 1_000_000_000 + nanoseconds
}
