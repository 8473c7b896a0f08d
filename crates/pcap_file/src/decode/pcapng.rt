//! A section of the pcapng format, read block by block (draft-ietf-opsawg-pcapng, General File Structure and Block
//! Definitions).
ghost use Rattle.std.specs.Prelude.{◌≡◌, ◌≤◌, ◌*◌, MatchResult, IfOk, None, Ok, Err, Some, length, option_copied};
ghost use Rattle.pcap_file.specs.BlockParser as parts;
ghost use Rattle.pcap_file.specs.Section as spec;
ghost use Rattle.pcap_file.specs.Section.{GivesContent, GivesPacket, block_of, section_view};
ghost use Rattle.pcap_file.specs.Mark.{mark_of};
ghost use Rattle.pcap_file.specs.CaptureBlock.{part_view};

use crate::block_parser::CaptureBlock;
use crate::block_type::{
    BYTE_ORDER_MAGIC, ENHANCED_PACKET, INTERFACE, SECTION_HEADER, SIMPLE_PACKET, STATISTICS,
};
use crate::decode::endian::Endian;
use crate::decode::interface::{Interface, read_interface, time_of, time_units};
use crate::decode::record_mark::{RecordMark, read_closing, read_opening};
use crate::decode::{Packet, packet_in};
use crate::fault::CaptureFaultKind;
use arrayvec::ArrayVec;

/// The greatest number of interfaces of a section.
// A record has at most 16 streams with 4 paths each, and an interface of changes of gains. The limit lets the
// interfaces lie in an array, so that reading allocates nothing.
const MAX_INTERFACES: usize = 65;

/// The length of an empty block in octets: its type, and its length twice.
const EMPTY_BLOCK: usize = 12;

/// The kind of a block, by its type.
#[derive(Clone, Copy, PartialEq, Eq)]
pub(crate) enum BlockKind {
    SectionHeader,
    Interface,
    SimplePacket,
    EnhancedPacket,
    /// A block that is passed over.
    Other,
}

/// The byte order of a section, and the interfaces that it has described so far.
#[derive(Drop)]
pub(crate) struct Section {
    pub(crate) order: Endian,
    pub(crate) interfaces: ArrayVec<Interface, MAX_INTERFACES>,
}

impl Section {
    /// Returns a section, before any block was read.
    pub(crate) fn new() -> Section
        ensures { section_view result ≡ spec.no_section }
    {
        Section {
            order: Endian::Big,
            interfaces: ArrayVec::new(),
        }
    }

    /// Returns the block that octets begin with, and takes over its byte order or its interface. Returns a fault if the
    /// block isn't whole or is wrong.
    #[tactic(auto, unfolding(crate::specs::Section::block_of))]
    pub(crate) fn read_block<'a>(
        &mut self,
        octets: &'a [u8],
    ) -> Result<CaptureBlock<'a>, CaptureFaultKind>
        ensures part { MatchResult result
            (λ part. block_of (section_view self.old) octets.now
            ≡ Ok (record { part = part_view part; section = section_view self.new }))
            (λ kind. block_of (section_view self.old) octets.now ≡ Err kind) }
        ensures bounds { IfOk result (λ part. (1 ≤ part.len) × (part.len ≤ length octets.now)) }
    {
        if octets.len() < EMPTY_BLOCK {
            return Err(CaptureFaultKind::Truncated);
        }
        // The order comes before the length, which a section header has in its own order.
        self.order = read_order(self.order, octets)?;
        let len = read_length(self.order, octets)?;
        let packet = self.read_content(&octets[..len])?;
        let mark = self.read_mark(&octets[..len]);
        Ok(CaptureBlock { len, packet, mark })
    }

    /// Takes over a whole block's section or interface, and returns the UDP packet in it, if there is one.
    fn read_content<'a>(&mut self, block: &'a [u8]) -> Result<Option<Packet<'a>>, CaptureFaultKind>
        requires { 12 ≤ length block.now }
        ensures { GivesContent (spec.content_of (section_view self.old) block.now) (section_view self.new) result }
    {
        match block_kind(self.order.read_u32(block, 0)) {
            BlockKind::SectionHeader => self.begin(block),
            BlockKind::Interface => self.add_interface(block),
            BlockKind::SimplePacket => self.read_simple(block),
            BlockKind::EnhancedPacket => self.read_enhanced(block),
            BlockKind::Other => Ok(None),
        }
    }

    /// Returns the mark of a record in a whole block, if there is one.
    fn read_mark(&self, block: &[u8]) -> Option<RecordMark>
        requires { 12 ≤ length block.now }
        ensures { result ≡ mark_of self.now.order (section_view self.now).interfaces block.now }
    {
        match self.order.read_u32(block, 0) {
            SECTION_HEADER => read_opening(self.order, block),
            STATISTICS => read_closing(self.order, self.interfaces.as_slice(), block),
            _ => None,
        }
    }

    /// Begins the section of a header: its interfaces are numbered from 0 again.
    #[tactic(auto, unfolding(crate::specs::Section::begun_by))]
    fn begin<'a>(&mut self, block: &'a [u8]) -> Result<Option<Packet<'a>>, CaptureFaultKind>
        ensures { GivesContent (spec.begun_by (section_view self.old) block.now) (section_view self.new) result }
    {
        check_version(self.order, block)?;
        self.interfaces.clear();
        Ok(None)
    }

    /// Adds an interface by its description. Returns `TooMany` after 65.
    #[tactic(auto, unfolding(crate::specs::Section::described_by))]
    fn add_interface<'a>(&mut self, block: &'a [u8]) -> Result<Option<Packet<'a>>, CaptureFaultKind>
        ensures { GivesContent (spec.described_by (section_view self.old) block.now) (section_view self.new) result }
    {
        let interface = read_interface(self.order, block)?;
        if self.interfaces.is_full() {
            return Err(CaptureFaultKind::TooMany);
        }
        self.interfaces.push(interface);
        Ok(None)
    }

    /// Returns the UDP packet in an enhanced packet block, if there is one.
    #[tactic(auto, unfolding(crate::specs::Section::enhanced_of))]
    fn read_enhanced<'a>(&self, block: &'a [u8]) -> Result<Option<Packet<'a>>, CaptureFaultKind>
        ensures { GivesPacket (spec.enhanced_of (section_view self.now) block.now) result }
    {
        if block.len() < 32 {
            return Err(CaptureFaultKind::Length);
        }
        let number = self.order.read_u32(block, 8);
        let interface = self.interface(number)?;
        let captured = self.order.read_u32(block, 20) as usize;
        // 28 octets are before the packet, and 4 behind it.
        if block.len() - 32 < captured {
            return Err(CaptureFaultKind::Length);
        }
        let units = time_units(self.order, block);
        let time = time_of(&interface, units).ok_or(CaptureFaultKind::Time)?;
        Ok(packet_in(
            interface.link,
            Some(time),
            number,
            &block[28..28 + captured],
        ))
    }

    /// Returns the UDP packet in a simple packet block, which belongs to the first interface, if there is one.
    #[tactic(auto, unfolding(crate::specs::Section::simple_of))]
    fn read_simple<'a>(&self, block: &'a [u8]) -> Result<Option<Packet<'a>>, CaptureFaultKind>
        ensures { GivesPacket (spec.simple_of (section_view self.now) block.now) result }
    {
        if block.len() < 16 {
            return Err(CaptureFaultKind::Length);
        }
        let interface = self.interface(0)?;
        let captured = captured_of(&interface, self.order.read_u32(block, 8)) as usize;
        // 12 octets are before the packet, and 4 behind it.
        if block.len() - 16 < captured {
            return Err(CaptureFaultKind::Length);
        }
        Ok(packet_in(interface.link, None, 0, &block[12..12 + captured]))
    }

    /// Returns the interface with a number, or the fault `Interface` if it isn't described.
    #[tactic(auto, unfolding(crate::specs::Section::interface_at))]
    fn interface(&self, number: u32) -> Result<Interface, CaptureFaultKind>
        ensures { result ≡ spec.interface_at (section_view self.now) number }
    {
        self.interfaces
            .as_slice()
            .get(number as usize)
            .copied()
            .ok_or(CaptureFaultKind::Interface)
    }
}

/// Returns the kind of a block type.
fn block_kind(number: u32) -> BlockKind
    ensures { result ≡ spec.kind_of number }
{
    match number {
        SECTION_HEADER => BlockKind::SectionHeader,
        INTERFACE => BlockKind::Interface,
        SIMPLE_PACKET => BlockKind::SimplePacket,
        ENHANCED_PACKET => BlockKind::EnhancedPacket,
        _ => BlockKind::Other,
    }
}

/// Returns the number of octets that a simple packet block holds of a packet of a length.
fn captured_of(interface: &Interface, original: u32) -> u32
    ensures { result ≡ spec.captured_of interface.now original }
{
    // The block has only the packet's length on the network; the interface's limit says where it was cut.
    if interface.limit != 0 && interface.limit < original {
        interface.limit
    } else {
        original
    }
}

/// Returns the byte order of a block: that of its section, or of a section header its own.
#[tactic(auto, unfolding(crate::specs::Section::order_of))]
fn read_order(order: Endian, octets: &[u8]) -> Result<Endian, CaptureFaultKind>
    requires { 12 ≤ length octets.now }
    ensures { result ≡ spec.order_of order octets.now }
{
    if Endian::Big.read_u32(octets, 0) != SECTION_HEADER {
        Ok(order)
    } else if Endian::Big.read_u32(octets, 8) == BYTE_ORDER_MAGIC {
        Ok(Endian::Big)
    } else if Endian::Little.read_u32(octets, 8) == BYTE_ORDER_MAGIC {
        Ok(Endian::Little)
    } else {
        Err(CaptureFaultKind::ByteOrder)
    }
}

/// Returns the length of a block in octets, which is at its start and at its end.
#[tactic(auto, unfolding(crate::specs::Section::length_of))]
fn read_length(order: Endian, octets: &[u8]) -> Result<usize, CaptureFaultKind>
    requires { 12 ≤ length octets.now }
    ensures value { result ≡ spec.length_of order octets.now }
    ensures bounds { IfOk result (λ len. (12 ≤ len) × (len ≤ length octets.now)) }
{
    let len = order.read_u32(octets, 4) as usize;
    if len < EMPTY_BLOCK || len % 4 != 0 {
        return Err(CaptureFaultKind::Length);
    }
    if octets.len() < len {
        return Err(CaptureFaultKind::Truncated);
    }
    if order.read_u32(octets, len - 4) as usize != len {
        return Err(CaptureFaultKind::Length);
    }
    Ok(len)
}

/// Returns true if the block that octets begin with, of a section in this byte order, isn't whole.
pub(crate) fn is_block_cut(order: Endian, octets: &[u8]) -> bool
    ensures { result ≡ parts.is_block_cut order octets.now }
{
    if octets.len() < EMPTY_BLOCK {
        return true;
    }
    match read_order(order, octets) {
        Ok(order) => is_length_cut(order, octets),
        // A block with a fault isn't cut: no further octets would make it right.
        Err(_) => false,
    }
}

/// Returns true if a block has a possible length and isn't whole.
fn is_length_cut(order: Endian, octets: &[u8]) -> bool
    requires { 12 ≤ length octets.now }
    ensures { result ≡ parts.is_length_cut (Ok order) octets.now }
{
    let len = order.read_u32(octets, 4) as usize;
    len >= EMPTY_BLOCK && len % 4 == 0 && octets.len() < len
}

/// Tests that a section's version is 1.0 or 1.2.
#[tactic(auto, unfolding(crate::specs::Section::section_fault))]
fn check_version(order: Endian, block: &[u8]) -> Result<(), CaptureFaultKind>
    ensures { MatchResult result (λ _. spec.section_fault order block.now ≡ None)
        (λ kind. spec.section_fault order block.now ≡ Some kind) }
{
    if block.len() < 28 {
        return Err(CaptureFaultKind::Length);
    }
    let major = order.read_u16(block, 12);
    let minor = order.read_u16(block, 14);
    if major != 1 || minor != 0 && minor != 2 {
        return Err(CaptureFaultKind::Version);
    }
    Ok(())
}
