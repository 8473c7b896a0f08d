//! A captured packet. The submodules read the formats: pcap, pcapng with its interfaces, options and marks, the header
//! of a link, IPv4 with UDP, and a recorded change of gains.
ghost use Rattle.std.specs.Prelude.{◌≡◌, option_map};
ghost use Rattle.pcap_file.specs.Packet as spec;
ghost use Rattle.pcap_file.specs.Packet.{packet_view};

use crate::decode::ipv4::{UdpPacket, read_ipv4};
use crate::decode::link::{LinkType, ip_octets};

pub(crate) mod endian;
pub(crate) mod interface;
pub(crate) mod interface_texts;
pub(crate) mod ipv4;
mod link;
pub(crate) mod options;
pub(crate) mod pcap;
pub(crate) mod pcapng;
pub(crate) mod record_mark;
pub(crate) mod recorded_change;

/// An IPv4 packet of UDP as it was captured. Its payload is borrowed from the capture's octets.
#[derive(Clone, Copy, PartialEq, Eq)]
pub struct Packet<'a> {
    /// The time in nanoseconds since 1970-01-01 00:00 UTC; a simple packet block has none.
    pub time: Option<u64>,
    /// The interface's number in its section, from 0; 0 in a pcap file.
    pub interface: u32,
    /// The addresses of the packet, and its datagram.
    pub ip: UdpPacket<'a>,
}

/// Returns the UDP packet in a frame of a link, if there is one.
#[tactic(auto, unfolding(crate::specs::Packet::packet_in))]
pub(crate) fn packet_in(
    link: LinkType,
    time: Option<u64>,
    interface: u32,
    frame: &[u8],
) -> Option<Packet<'_>>
    ensures { option_map packet_view result ≡ spec.packet_in link time interface frame.now }
{
    let ip = read_ipv4(ip_octets(link, frame)?)?;
    Some(Packet {
        time,
        interface,
        ip,
    })
}
