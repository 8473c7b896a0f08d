//! The errors of importing a capture.
ghost use Rattle.std.specs.Prelude.{◌≡◌};
ghost use Rattle.pcap_flows.specs.declared.fault.ImportFault.TheVariants as fault;

use std::alloc::AllocError;
use thiserror::Error;

/// Why no trace or no configuration can be made of a capture: something is missing, or a limit of traces is exceeded.
#[derive(Clone, Copy, Debug, PartialEq, Eq, Error)]
pub enum ImportFault {
    /// No flow goes to a named address.
    #[error("no flow goes to a named address")]
    UnknownAddress,
    /// No flow fits a stream.
    #[error("no flow fits a stream")]
    NoFlow,
    /// There are more than 16 streams.
    #[error("more than 16 streams")]
    Streams,
    /// The packets of a named flow fit no stream: their lengths or timestamp steps vary, or are no linear PCM.
    #[error("a named flow fits no stream")]
    NoFormat,
    /// The latency is too long for the greatest window.
    #[error("the latency is too long for a window")]
    Latency,
    /// A datagram has more than 2,045 octets, so that its line would be too long.
    #[error("a datagram is too long for a trace")]
    DatagramTooLong,
    /// There are more than 1,000,000 events.
    #[error("more than 1000000 events")]
    TooManyEvents,
    /// The text has more than 67,108,864 octets.
    #[error("more than 67108864 octets of trace")]
    TooLong,
    /// An allocation failed.
    #[error("out of memory")]
    Memory,
}

impl From<AllocError> for ImportFault {
    ghost from_gives = { λ _ to. to ≡ fault.Memory };

    fn from(_error: AllocError) -> ImportFault {
        ImportFault::Memory
    }
}
