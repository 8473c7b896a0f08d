//! The faults of a datagram that is no RTP packet.
use thiserror::Error;

/// The reason why a datagram is no RTP packet (RFC 3550, 5.1 and 5.3.1): the first of these that holds, in this
/// order.
#[derive(Clone, Copy, Debug, PartialEq, Eq, Error)]
pub enum WireFault {
    /// The datagram has fewer than the 12 octets of the fixed header.
    #[error("the fixed header is cut")]
    Short,
    /// The version is not 2.
    #[error("the version is not 2")]
    Version,
    /// The datagram ends within the CSRC list.
    #[error("the CSRC list is cut")]
    CsrcCut,
    /// The datagram ends within the first four octets or the words of the header extension.
    #[error("the header extension is cut")]
    ExtensionCut,
    /// The padding flag is set, and the padding's count is absent, 0, or more than the octets left.
    #[error("the padding count is wrong")]
    Padding,
}
