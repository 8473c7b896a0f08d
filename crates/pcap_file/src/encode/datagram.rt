//! A received datagram, as it is recorded.
ghost use Rattle.std.specs.Prelude.{◌≡◌};
ghost use Rattle.pcap_file.specs.Times.{nanoseconds_in_64};

use std::net::Ipv4Addr;

/// The greatest length of a datagram in a record, in octets.
// A live run receives no more: its buffer for a datagram has this length.
pub const MAX_DATAGRAM_LEN: usize = 2_048;

/// A received datagram with its time, addresses and ports. Its octets are borrowed.
#[derive(Clone, Copy)]
pub struct RecordedDatagram<'a> {
    /// The number of its path's interface: the number of interfaces that were described before it.
    pub interface: u32,
    /// The time in nanoseconds since the studio was opened.
    pub nanoseconds: u64,
    /// The sender's address.
    pub source: Ipv4Addr,
    /// The sender's port.
    pub source_port: u16,
    /// The path's address.
    pub destination: Ipv4Addr,
    /// The path's port.
    pub destination_port: u16,
    /// The datagram's octets, without the UDP header.
    pub octets: &'a [u8],
}

/// Returns the first nanosecond that isn't before this many sampling instants at 48 kHz, if it fits 64 bits.
pub fn nanoseconds_after(instants: u64) -> Option<u64>
    ensures { result ≡ nanoseconds_in_64 instants }
{
    // 3 sampling instants are 62,500 nanoseconds. Rounding up makes the conversion back exact (`instants_come_back`).
    let nanoseconds = (u128::from(instants) * 62_500 + 2) / 3;
    u64::try_from(nanoseconds).ok()
}
