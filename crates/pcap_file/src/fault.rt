//! The faults of captures.
ghost use Rattle.std.specs.Prelude.{◌≡◌};
ghost use Rattle.pcap_file.specs.declared.fault.ReaderFault.TheVariants as fault;

use std::alloc::AllocError;
use thiserror::Error;

/// The kind of a capture's fault.
#[derive(Clone, Copy, Debug, PartialEq, Eq, Error)]
pub enum CaptureFaultKind {
    /// The first four octets are those of neither format.
    #[error("neither pcap nor pcapng")]
    Format,
    /// The file ends within the header, the record or the block.
    #[error("it is cut")]
    Truncated,
    /// The magic number of a section's byte order is wrong.
    #[error("the order of octets is unknown")]
    ByteOrder,
    /// A block's length is less than 12, no multiple of 4, another than the one at its end, or too short for its
    /// fields.
    #[error("the lengths are wrong")]
    Length,
    /// The format's version is not 2.4 of pcap, nor 1.0 or 1.2 of pcapng.
    #[error("the version is unknown")]
    Version,
    /// A section describes more than 65 interfaces.
    #[error("there are too many interfaces")]
    TooMany,
    /// An interface's options are cut, or `if_tsresol` or `if_tsoffset` has a wrong length.
    #[error("the options are wrong")]
    Options,
    /// A packet's interface has no description before it in its section.
    #[error("the interface is unknown")]
    Interface,
    /// A packet's time is before 1970, or doesn't fit 64 bits in nanoseconds.
    #[error("the time is out of range")]
    Time,
}

/// The first fault of a capture, with its place.
#[derive(Clone, Copy, Debug, PartialEq, Eq, Error)]
#[error("octet {place}: {kind}")]
pub struct CaptureFault {
    /// The place at which the header, the record or the block begins: the number of octets before it.
    pub place: usize,
    /// The kind of the fault.
    pub kind: CaptureFaultKind,
}

/// Why a capture was not read to its end.
#[derive(Clone, Copy, Debug, PartialEq, Eq, Error)]
pub enum ReaderFault {
    /// A read failed.
    #[error("device: capture")]
    ReadFailed,
    /// The first fault of the capture.
    #[error("capture {0}")]
    Capture(CaptureFault),
    /// The record or block behind this many octets is longer than 983,040 octets, or begins behind 2^63.
    #[error("capture octet {0}: it is too long")]
    TooLong(usize),
    /// An allocation failed.
    #[error("out of memory")]
    Memory,
}

impl From<AllocError> for ReaderFault {
    ghost from_gives = { λ _ to. to ≡ fault.Memory };

    fn from(_error: AllocError) -> ReaderFault {
        ReaderFault::Memory
    }
}
