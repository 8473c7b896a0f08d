//! The errors of replays.
ghost use Rattle.std.specs.Prelude.{◌≡◌};
ghost use Rattle.pcap_replay.specs.declared.fault.ReplayFault.TheVariants as fault;

use pcap_file::ReaderFault;
use std::alloc::AllocError;
use studio_run::WriteFault;
use studio_session::StudioFault;
use thiserror::Error;

/// Why a capture was not played to its end. A prefix of its report was written, and nothing if an allocation failed.
#[derive(Debug, Drop, Error)]
pub enum ReplayFault {
    /// An allocation failed.
    #[error("out of memory")]
    Memory,
    /// The capture has a fault, or could not be read.
    #[error("{0}")]
    Capture(ReaderFault),
    /// An event of the capture has a fault.
    #[error("{0}")]
    Run(StudioFault),
    /// A change of gains of a record was not taken: its number among the changes, from 1, and why.
    #[error("capture change {0}: {1}")]
    Change(u64, RecordedChangeFault),
    /// The time of a packet or of the close is too far ahead of the clock: the number of octets before its record or
    /// block, and the length of the step in seconds, rounded up.
    #[error("capture octet {0}: time jumps by {1} s; --gap allows it")]
    Jump(usize, u64),
    /// The capture has more than 2^62 events. Its file then has at least 2^60 octets.
    #[error("capture: too many events")]
    TooManyEvents,
    /// A write failed, or took no octet.
    #[error("device: write")]
    Write,
}

/// The fault of a recorded change of gains: the first of these that holds. Only a time that does not fit 64 bits is
/// `Time` whatever the gains are. Its text is the kind's word.
#[derive(Clone, Copy, Debug, PartialEq, Eq, Error)]
pub enum RecordedChangeFault {
    /// The packet's payload is that of no change, or of one with more than 8,192 gains.
    #[error("octets")]
    Octets,
    /// The gains are not as many as those of the studio's matrix.
    #[error("shape")]
    Shape,
    /// A gain is below -1,048,576 or above 1,048,576.
    #[error("range")]
    Range,
    /// The time is before the next block, or above 2^60 sampling instants.
    #[error("time")]
    Time,
    /// 64 changes before the time are still to come.
    #[error("toomany")]
    TooMany,
}

impl From<AllocError> for ReplayFault {
    ghost from_gives = { λ _ to. to ≡ fault.Memory };

    fn from(_error: AllocError) -> ReplayFault {
        ReplayFault::Memory
    }
}

impl From<WriteFault> for ReplayFault {
    ghost from_gives = { λ _ to. to ≡ fault.Write };

    fn from(_fault: WriteFault) -> ReplayFault {
        ReplayFault::Write
    }
}

impl From<ReaderFault> for ReplayFault {
    ghost from_gives = { λ from to. to ≡ fault.Capture from };

    fn from(fault: ReaderFault) -> ReplayFault {
        ReplayFault::Capture(fault)
    }
}
