//! The UDP packets of a capture whose octets are all in memory, one by one.
ghost use Rattle.std.specs.Prelude.{◌≡◌, ◌<◌, ◌≤◌, [], ◌∷◌, length, MatchOption, IfOk, IfErr, Err};
ghost use Rattle.pcap_file.specs.Capture as spec;
ghost use Rattle.pcap_file.specs.Capture.{HasRead, item_view, packets_left, packets_of, state_of};

use crate::block_parser::CaptureBlock;
use crate::block_type::SECTION_HEADER;
use crate::cursor::{Capture, Format};
use crate::decode::Packet;
use crate::decode::endian::Endian;
use crate::decode::pcap::{FILE_HEADER, read_header, read_record};
use crate::decode::pcapng::Section;
use crate::fault::{CaptureFault, CaptureFaultKind};

/// Opens a capture whose whole file is `octets`, and returns an iterator over its UDP packets. Returns the fault of the
/// file's header if it has one; a section header of pcapng is read by the iterator.
#[tactic(auto, unfolding(crate::specs::Capture::packets_of))]
pub fn open(octets: &[u8]) -> Result<Capture<'_>, CaptureFault>
    ensures packets { IfOk result (λ capture. packets_left capture ≡ packets_of octets.now) }
    ensures fault { IfErr result (λ fault. packets_of octets.now ≡ Err fault ∷ []) }
{
    if is_pcapng(octets) {
        return Ok(Capture {
            format: Format::Pcapng,
            section: Section::new(),
            place: 0,
            octets,
        });
    }
    match read_header(octets) {
        Ok(pcap) => Ok(Capture {
            format: Format::Pcap(pcap),
            section: Section::new(),
            place: FILE_HEADER,
            octets: &octets[FILE_HEADER..],
        }),
        Err(kind) => Err(CaptureFault { place: 0, kind }),
    }
}

/// Returns true if a section header block comes first, so that the file is pcapng.
pub(crate) fn is_pcapng(octets: &[u8]) -> bool
    ensures { result ≡ spec.is_pcapng octets.now }
{
    octets.len() >= 4 && Endian::Big.read_u32(octets, 0) == SECTION_HEADER
}

impl<'a> Capture<'a> {
    /// Reads the record or the block that comes next.
    #[tactic(auto, unfolding(crate::specs::Capture::part_as))]
    fn read_part(&mut self) -> Result<CaptureBlock<'a>, CaptureFaultKind>
        ensures part { HasRead (state_of self.old) (state_of self.new) self.old.octets.now result }
        ensures bounds { IfOk result (λ part. (1 ≤ part.len) × (part.len ≤ length self.old.octets.now)) }
        ensures octets { self.new.octets ≡ self.old.octets }
        ensures place { self.new.place ≡ self.old.place }
    {
        match self.format {
            Format::Pcap(pcap) => read_record(&pcap, self.octets),
            Format::Pcapng => self.section.read_block(self.octets),
        }
    }

    /// Passes over the record or the block that comes next, and returns its packet or its fault, if it has one.
    fn advance(&mut self) -> Option<Result<Packet<'a>, CaptureFault>>
        requires { 1 ≤ length self.old.octets.now }
        ensures returned { MatchOption result (packets_left self.new ≡ packets_left self.old)
            (λ item. packets_left self.old ≡ item_view item ∷ packets_left self.new) }
        ensures shorter { length self.new.octets.now < length self.old.octets.now }
    {
        match self.read_part() {
            Ok(part) => {
                self.place += part.len;
                self.octets = &self.octets[part.len..];
                match part.packet {
                    Some(packet) => Some(Ok(packet)),
                    None => None,
                }
            }
            Err(kind) => {
                // No record or block can be found behind a fault, so it ends the iteration.
                self.octets = &[];
                Some(Err(CaptureFault {
                    place: self.place,
                    kind,
                }))
            }
        }
    }
}

impl<'a> Iterator for Capture<'a> {
    ghost use Rattle.std.specs.Iterator.{YieldsFirstBy, item_count};
    ghost use Rattle.pcap_file.specs.Capture.{item_view, packets_left};

    type Item = Result<Packet<'a>, CaptureFault>;

    ghost next_gives = { YieldsFirstBy item_view packets_left };

    ghost remaining = { item_count packets_left };

    fn next(&mut self) -> Option<Result<Packet<'a>, CaptureFault>> {
        while !self.octets.is_empty() {
            if let Some(item) = self.advance() {
                return Some(item);
            }
        }
        None
    }
}
