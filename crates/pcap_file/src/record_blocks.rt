//! The whole blocks at the start of a record's octets, whose last block may still be on its way.
ghost use Rattle.std.specs.Prelude.{◌≡◌, ◌≤◌, length, take, drop, None, IfSome};
ghost use Rattle.pcap_file.specs.WholeBlocks.{AreWhole, BeginsNone, IsBlock, holds_datagram};

use crate::block_type::ENHANCED_PACKET;
use crate::decode::endian::Endian;

/// The least length of a block in octets: its type, and its length before and behind its body.
const MIN_BLOCK_LEN: usize = 12;

/// The extent of the whole blocks in a prefix of some octets.
#[derive(Clone, Copy, PartialEq, Eq)]
pub struct WholeBlocks {
    /// The number of octets in these blocks.
    pub len: usize,
    /// The number of these blocks that hold a datagram of a path.
    pub datagrams: u64,
}

/// Returns the extent of the whole blocks in a prefix of some octets, which begin with a block of a record. Behind them
/// no whole block begins. The first `paths` interfaces of the record are those of paths: a change of gains is a packet
/// on another one, and is not counted.
pub fn whole_blocks(octets: &[u8], paths: u32) -> WholeBlocks
    ensures whole { AreWhole paths octets.now result }
    ensures within { result.len ≤ length octets.now }
{
    let mut blocks = WholeBlocks {
        len: 0,
        datagrams: 0,
    };
    while let Some((is_datagram, len)) = block_at(&octets[blocks.len..], paths) {
        blocks.len += len;
        if is_datagram {
            blocks.datagrams += 1;
        }
    }
    blocks
}

/// Returns true if the block at the start of some octets holds a datagram of one of this many paths, and the block's
/// length in octets. Returns `None` if the block is not whole.
fn block_at(octets: &[u8], paths: u32) -> Option<(bool, usize)>
    ensures none { result ≡ None → BeginsNone octets.now }
    ensures within { IfSome result (λ block. (12 ≤ block.1) × (block.1 ≤ length octets.now)) }
    ensures block { IfSome result (λ block. IsBlock (take block.1 octets.now)) }
    ensures datagram { IfSome result (λ block. block.0 ≡ holds_datagram paths (take block.1 octets.now)) }
{
    if octets.len() < MIN_BLOCK_LEN {
        return None;
    }
    let len = Endian::Little.read_u32(octets, 4) as usize;
    // A block of 0 octets would never end the loop.
    if len < MIN_BLOCK_LEN || len > octets.len() {
        return None;
    }
    let kind = Endian::Little.read_u32(octets, 0);
    // The body of an enhanced packet begins with the number of its interface.
    let interface = Endian::Little.read_u32(octets, 8);
    Some(((kind == ENHANCED_PACKET) & (interface < paths), len))
}
