//! Captured RTP packets, and the keys by which they are sorted into flows.
ghost use Rattle.std.specs.Prelude.{◌≡◌};
ghost use Rattle.pcap_file.specs.Packet.{packet_view};
ghost use Rattle.pcap_flows.specs.FlowPacket.{same_flow, flow_packet_of};

use pcap_file::{Packet, UdpBody};
use rtp_wire::read;

/// The key of a flow: the addresses and ports of its packets, their source and their payload type. An address is its
/// four octets as one number, the first the most significant.
#[derive(Clone, Copy)]
pub struct FlowKey {
    /// The sender's address.
    pub from: u32,
    /// The sender's port.
    pub from_port: u16,
    /// The receiver's address, often a multicast group.
    pub to: u32,
    /// The receiver's port.
    pub to_port: u16,
    /// The synchronization source (RFC 3550, 5.1).
    pub ssrc: u32,
    /// The payload type (RFC 3550, 5.1).
    pub pt: u8,
}

impl FlowKey {
    /// Returns true if both keys are the same.
    pub(crate) fn is_same(&self, other: &FlowKey) -> bool
        ensures { result ≡ same_flow self.now other.now }
    {
        self.from == other.from
            && self.from_port == other.from_port
            && self.to == other.to
            && self.to_port == other.to_port
            && self.ssrc == other.ssrc
            && self.pt == other.pt
    }
}

/// The header fields of a captured RTP packet, with its length and time.
#[derive(Clone, Copy)]
pub(crate) struct FlowPacket {
    /// The key of its flow.
    pub key: FlowKey,
    /// The sequence number (RFC 3550, 5.1).
    pub seq: u16,
    /// The timestamp in sampling instants (RFC 3550, 5.1).
    pub ts: u32,
    /// The length of the payload, in octets.
    pub len: usize,
    /// The time in nanoseconds since 1970, if the capture has it.
    pub time: Option<u64>,
}

/// Returns the RTP packet in a captured packet; none if that is cut, a fragment or no RTP.
#[tactic(auto, unfolding(crate::specs::FlowPacket::flow_packet_of))]
pub(crate) fn flow_packet(packet: &Packet<'_>) -> Option<FlowPacket>
    ensures { result ≡ flow_packet_of (packet_view packet.now) }
{
    let UdpBody::Datagram(datagram) = packet.ip.body else {
        return None;
    };
    let Ok(view) = read(datagram.payload) else {
        return None;
    };
    Some(FlowPacket {
        key: FlowKey {
            from: u32::from_be_bytes(packet.ip.source.octets()),
            from_port: datagram.source_port,
            to: u32::from_be_bytes(packet.ip.destination.octets()),
            to_port: datagram.destination_port,
            ssrc: view.ssrc,
            pt: view.pt,
        },
        seq: view.seq,
        ts: view.ts,
        len: view.payload.len(),
        time: packet.time,
    })
}
