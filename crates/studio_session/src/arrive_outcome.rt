//! The outcome of a datagram that a stream received.
use rtp_stream::Fate;
use rtp_wire::WireFault;

/// A packet of a stream that was offered to the merge, without its samples.
#[derive(Clone, Copy, Debug, PartialEq, Eq)]
pub struct OfferedPacket {
    /// The sequence number.
    pub seq: u16,
    /// The timestamp, in sampling instants at 48 kHz.
    pub ts: u32,
    pub fate: Fate,
}

/// The outcome of a datagram: its packet with its fate, or the reason why it holds none of the stream.
#[derive(Clone, Copy, Debug, PartialEq, Eq)]
pub enum ArriveOutcome {
    /// A packet of the stream.
    // With its number and timestamp, so that a caller that keeps statistics need not read the header again.
    Offered(OfferedPacket),
    /// No RTP packet (RFC 3550, 5.1), and the datagram's first fault.
    Bad(WireFault),
    /// A packet of another payload type.
    WrongType,
    /// A packet with a payload of another length.
    WrongLength,
}
