//! A record or a block of a capture, as it was read.
ghost use Rattle.std.specs.Prelude.{
  ◌≡◌,
  ◌⊎◌,
  ◌+◌,
  ◌<◌,
  ◌≤◌,
  ◌^◌,
  ◌++◌,
  ◌∷◌,
  ℕ,
  List,
  [],
  false,
  drop,
  take,
  length,
  option_map,
  IfOk,
  IfErr,
  OnErr,
  Err,
};
ghost use Rattle.pcap_file.specs.Capture.{HasRead, packets_of, with_packet};
ghost use Rattle.pcap_file.specs.Packet.{packet_view};
ghost use Rattle.pcap_file.specs.InterfaceTexts.{texts_as, texts_view};
ghost use Rattle.pcap_file.specs.Entries.{entries_at, entries_in, entries_of};
ghost use Rattle.pcap_file.specs.Described.{interfaces_of, texts_at, texts_with};
ghost use Rattle.pcap_file.specs.BlockParser.{IsEnough, is_cut_in, items_at, state_at};

use crate::capture::is_pcapng;
use crate::cursor::Format;
use crate::decode::Packet;
use crate::decode::interface_texts::{InterfaceTexts, read_texts};
use crate::decode::pcap::{FILE_HEADER, is_record_cut, read_header, read_record};
use crate::decode::pcapng::{Section, is_block_cut};
use crate::decode::record_mark::RecordMark;
use crate::fault::{CaptureFault, CaptureFaultKind};

/// A pcap record or a pcapng block: its length, and what it holds of interest.
#[derive(Clone, Copy, PartialEq, Eq)]
pub struct CaptureBlock<'a> {
    /// The length of the record or block in octets, with its header and padding.
    pub len: usize,
    /// The UDP packet in it, if it has one.
    pub packet: Option<Packet<'a>>,
    /// The mark of a live run's record, if it is one.
    pub mark: Option<RecordMark>,
}

/// A parser at a place in a capture. The caller holds the octets from there on, and passes those that were read so far.
#[derive(Drop)]
pub struct BlockParser {
    pub(crate) format: Format,
    pub(crate) section: Section,
    /// The number of octets before the place.
    pub(crate) place: usize,
}

impl BlockParser {
    /// Returns a parser at the first record or block of a capture that begins with these octets: at least 24, or the
    /// whole file. Returns the fault of the file's header if it has one.
    pub fn open(front: &[u8]) -> Result<BlockParser, CaptureFault>
        ensures parts { IfOk result (λ parts. (rest : List ℕ) → IsEnough front.now rest
            → packets_of (front.now ++ rest) ≡ items_at parts (drop parts.place (front.now ++ rest))) }
        ensures entries { IfOk result (λ parts. (rest : List ℕ) → IsEnough front.now rest
            → entries_of (front.now ++ rest) ≡ entries_at parts (drop parts.place (front.now ++ rest))) }
        ensures texts { IfOk result (λ parts. (rest : List ℕ) → IsEnough front.now rest
            → interfaces_of (front.now ++ rest) ≡ texts_at parts (drop parts.place (front.now ++ rest))) }
        ensures place { IfOk result (λ parts. parts.place ≤ length front.now) }
        ensures fault { IfErr result (λ fault. (rest : List ℕ) → IsEnough front.now rest
            → packets_of (front.now ++ rest) ≡ Err fault ∷ []) }
    {
        if is_pcapng(front) {
            return Ok(BlockParser {
                format: Format::Pcapng,
                section: Section::new(),
                place: 0,
            });
        }
        match read_header(front) {
            Ok(pcap) => Ok(BlockParser {
                format: Format::Pcap(pcap),
                section: Section::new(),
                place: FILE_HEADER,
            }),
            Err(kind) => Err(CaptureFault { place: 0, kind }),
        }
    }

    /// Returns the number of octets before the place.
    pub fn place(&self) -> usize
        ensures { result ≡ self.now.place }
    {
        self.place
    }

    /// Returns true if the record or the block that these octets begin with isn't whole, so that more are to be read.
    pub fn is_cut(&self, front: &[u8]) -> bool
        ensures { result ≡ is_cut_in self.now front.now }
    {
        match self.format {
            Format::Pcap(pcap) => is_record_cut(&pcap, front),
            Format::Pcapng => is_block_cut(self.section.order, front),
        }
    }

    /// Returns the name and the description of an interface, if the whole block with these octets describes one.
    pub fn interface_texts<'a>(&self, block: &'a [u8]) -> Option<InterfaceTexts<'a>>
        ensures { option_map texts_view result ≡ texts_as self.now.format self.now.section.order block.now }
    {
        match self.format {
            Format::Pcap(_) => None,
            Format::Pcapng => read_texts(self.section.order, block),
        }
    }

    /// Reads the record or the block that these octets begin with.
    #[tactic(auto, unfolding(crate::specs::Capture::part_as))]
    fn read<'a>(&mut self, front: &'a [u8]) -> Result<CaptureBlock<'a>, CaptureFaultKind>
        ensures part { HasRead (state_at self.old) (state_at self.new) front.now result }
        ensures bounds { IfOk result (λ part. (1 ≤ part.len) × (part.len ≤ length front.now)) }
        ensures place { self.new.place ≡ self.old.place }
    {
        match self.format {
            Format::Pcap(pcap) => read_record(&pcap, front),
            Format::Pcapng => self.section.read_block(front),
        }
    }

    /// Passes over the record or the block that these octets begin with, and returns it. If `is_cut` returns true, the
    /// octets have to be all that are left. Returns a fault if the record or the block isn't whole or is wrong.
    pub fn next<'a>(&mut self, front: &'a [u8]) -> Result<CaptureBlock<'a>, CaptureFault>
        requires some { 1 ≤ length front.now }
        requires place { self.old.place + length front.now < 2 ^ 64 }
        ensures part { IfOk result (λ part. (rest : List ℕ) → (is_cut_in self.old front.now ≡ false) ⊎ (rest ≡ [])
            → items_at self.old (front.now ++ rest)
            ≡ with_packet (option_map packet_view part.packet) (items_at self.new (drop part.len front.now ++ rest))) }
        ensures entries { IfOk result (λ part. (rest : List ℕ) → (is_cut_in self.old front.now ≡ false) ⊎ (rest ≡ [])
            → entries_at self.old (front.now ++ rest)
            ≡ entries_in (option_map packet_view part.packet) part.mark
            ++ entries_at self.new (drop part.len front.now ++ rest)) }
        ensures texts { IfOk result (λ part. (rest : List ℕ) → (is_cut_in self.old front.now ≡ false) ⊎ (rest ≡ [])
            → texts_at self.old (front.now ++ rest)
            ≡ texts_with (option_map packet_view part.packet)
            (texts_as self.new.format self.new.section.order (take part.len front.now))
            (texts_at self.new (drop part.len front.now ++ rest))) }
        ensures len { IfOk result (λ part. (1 ≤ part.len) × (part.len ≤ length front.now)
            × (self.new.place ≡ self.old.place + part.len)) }
        ensures fault { IfErr result (λ fault. (rest : List ℕ) → (is_cut_in self.old front.now ≡ false) ⊎ (rest ≡ [])
            → items_at self.old (front.now ++ rest) ≡ Err fault ∷ []) }
        ensures no_entry { OnErr result ((rest : List ℕ) → (is_cut_in self.old front.now ≡ false) ⊎ (rest ≡ [])
            → entries_at self.old (front.now ++ rest) ≡ []) }
        ensures no_text { OnErr result ((rest : List ℕ) → (is_cut_in self.old front.now ≡ false) ⊎ (rest ≡ [])
            → texts_at self.old (front.now ++ rest) ≡ []) }
    {
        match self.read(front) {
            Ok(part) => {
                self.place += part.len;
                Ok(part)
            }
            Err(kind) => Err(CaptureFault {
                place: self.place,
                kind,
            }),
        }
    }
}
