//! The UDP datagrams in IPv4 packets (RFC 791, 3.1; RFC 768).
ghost use Rattle.std.specs.Prelude.{◌≡◌, ◌≤◌, ◌+◌, length, option_map, true};
ghost use Rattle.std.specs.Net.Addr.{ipv4_octets};
ghost use Rattle.pcap_file.specs.UdpPacket as spec;
ghost use Rattle.pcap_file.specs.UdpPacket.{address_at, body_of, body_view, ipv4_of, ipv4_view, udp_of, udp_view};

use crate::decode::endian::Endian;
use std::net::Ipv4Addr;

/// The length of an IPv4 header without options, in octets.
const IPV4_HEADER: usize = 20;

/// The length of a UDP header, in octets.
const UDP_HEADER: usize = 8;

/// The protocol number of UDP in an IPv4 header.
const UDP: u8 = 17;

/// An IPv4 packet of UDP, whose payload is borrowed.
#[derive(Clone, Copy, PartialEq, Eq)]
pub struct UdpPacket<'a> {
    /// The address of the sender.
    pub source: Ipv4Addr,
    /// The address of the receiver, often a multicast group.
    pub destination: Ipv4Addr,
    /// The datagram, if the packet holds a whole one.
    pub body: UdpBody<'a>,
}

/// The body of an IPv4 packet of UDP.
#[derive(Clone, Copy, PartialEq, Eq)]
pub enum UdpBody<'a> {
    /// A whole datagram.
    Datagram(UdpDatagram<'a>),
    /// A fragment of a datagram. Fragments are not reassembled.
    Fragment,
    /// Less than a datagram: it was captured in part, or a length in its headers is wrong.
    Truncated,
}

/// A UDP datagram. Its checksum isn't tested: a sender's network card often fills it in after the capture.
#[derive(Clone, Copy, PartialEq, Eq)]
pub struct UdpDatagram<'a> {
    /// The sender's port.
    pub source_port: u16,
    /// The receiver's port.
    pub destination_port: u16,
    /// The octets behind the UDP header.
    pub payload: &'a [u8],
}

/// Returns the UDP packet at the start of octets, or none if they are something else.
#[tactic(auto, unfolding(crate::specs::UdpPacket::ipv4_of))]
pub(crate) fn read_ipv4(octets: &[u8]) -> Option<UdpPacket<'_>>
    ensures { option_map ipv4_view result ≡ ipv4_of octets.now }
{
    if !begins_with_header(octets) {
        return None;
    }
    Some(UdpPacket {
        source: read_address(octets, 12),
        destination: read_address(octets, 16),
        body: read_body(octets),
    })
}

/// Returns true if octets begin with the fixed fields of a header of version 4 and protocol UDP.
fn begins_with_header(octets: &[u8]) -> bool
    ensures { result ≡ spec.has_udp_header octets.now }
{
    octets.len() >= IPV4_HEADER && octets[0] / 16 == 4 && octets[9] == UDP
}

/// Returns the length of the header with its options, in octets.
fn header_length(octets: &[u8]) -> usize
    requires { 1 ≤ length octets.now }
    ensures { result ≡ spec.header_length octets.now }
{
    4 * usize::from(octets[0] % 16)
}

/// Returns the address of four octets at a place.
fn read_address(octets: &[u8], place: usize) -> Ipv4Addr
    requires { place + 4 ≤ length octets.now }
    ensures { ipv4_octets result ≡ address_at place octets.now }
{
    Ipv4Addr::new(
        octets[place],
        octets[place + 1],
        octets[place + 2],
        octets[place + 3],
    )
}

/// Returns the body of an IPv4 packet whose fixed fields are all there.
#[tactic(auto, unfolding(crate::specs::UdpPacket::body_of))]
fn read_body(octets: &[u8]) -> UdpBody<'_>
    requires { spec.has_udp_header octets.now ≡ true }
    ensures { body_view result ≡ body_of octets.now }
{
    // The flag of more fragments or an offset: the remainder leaves out the reserved flag and "don't fragment". This
    // comes first, since a fragment's octets aren't a whole datagram, whatever its lengths are.
    if Endian::Big.read_u16(octets, 6) % 16384 != 0 {
        return UdpBody::Fragment;
    }
    let begin = header_length(octets);
    let end = usize::from(Endian::Big.read_u16(octets, 2));
    if begin < IPV4_HEADER || end < begin || octets.len() < end {
        return UdpBody::Truncated;
    }
    match read_udp(&octets[begin..end]) {
        Some(datagram) => UdpBody::Datagram(datagram),
        None => UdpBody::Truncated,
    }
}

/// Returns the datagram at the start of octets, or none if they are too few or its length is wrong.
#[tactic(auto, unfolding(crate::specs::UdpPacket::udp_of))]
fn read_udp(octets: &[u8]) -> Option<UdpDatagram<'_>>
    ensures { option_map udp_view result ≡ udp_of octets.now }
{
    if octets.len() < UDP_HEADER {
        return None;
    }
    let end = usize::from(Endian::Big.read_u16(octets, 4));
    if end < UDP_HEADER || octets.len() < end {
        return None;
    }
    Some(UdpDatagram {
        source_port: Endian::Big.read_u16(octets, 0),
        destination_port: Endian::Big.read_u16(octets, 2),
        payload: &octets[UDP_HEADER..end],
    })
}
