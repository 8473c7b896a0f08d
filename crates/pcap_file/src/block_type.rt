//! The block types of pcapng that are read or written, and the magic number of a section header.

/// The block type of a section header, which is the same in both byte orders.
pub(crate) const SECTION_HEADER: u32 = 0x0a0d_0d0a;

/// The block type of an interface's description.
pub(crate) const INTERFACE: u32 = 1;

/// The block type of a simple packet.
pub(crate) const SIMPLE_PACKET: u32 = 3;

/// The block type of an interface's statistics.
pub(crate) const STATISTICS: u32 = 5;

/// The block type of an enhanced packet.
pub(crate) const ENHANCED_PACKET: u32 = 6;

/// The number in a section header that shows its byte order.
pub(crate) const BYTE_ORDER_MAGIC: u32 = 0x1a2b_3c4d;
