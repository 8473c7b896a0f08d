//! The name and the description of an interface (pcapng, Interface Description Block).
ghost use Rattle.std.specs.Prelude.{◌≡◌, option_map};
ghost use Rattle.pcap_file.specs.InterfaceTexts as spec;

use crate::block_type::INTERFACE;
use crate::decode::endian::Endian;
use crate::decode::record_mark::text_at;

/// The code of the option `if_name`.
const NAME: u16 = 2;

/// The code of the option `if_description`.
const DESCRIPTION: u16 = 3;

/// The name and the description of an interface. Both are borrowed from the block, and empty if it has no such option.
#[derive(Clone, Copy, PartialEq, Eq)]
pub struct InterfaceTexts<'a> {
    /// The option `if_name`.
    pub name: &'a [u8],
    /// The option `if_description`.
    pub description: &'a [u8],
}

/// Returns the texts of an interface, if a whole block describes one.
#[tactic(auto, unfolding(crate::specs::InterfaceTexts::texts_in))]
pub(crate) fn read_texts(order: Endian, block: &[u8]) -> Option<InterfaceTexts<'_>>
    ensures { option_map spec.texts_view result ≡ spec.texts_in order block.now }
{
    // 16 octets up to the options, and the length again at the end.
    if block.len() < 20 || order.read_u32(block, 0) != INTERFACE {
        return None;
    }
    let options = &block[16..block.len() - 4];
    Some(InterfaceTexts {
        name: text_at(order, NAME, options),
        description: text_at(order, DESCRIPTION, options),
    })
}
