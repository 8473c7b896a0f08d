//! The errors of runs that write a WAV file.
ghost use Rattle.std.specs.Prelude.{◌≡◌};
ghost use Rattle.studio_run.specs.declared.player.PlayFault.TheVariants as play;
ghost use Rattle.wav_file.specs.declared.fault.FileFault.TheVariants as file;
ghost use Rattle.wav_runs.specs.declared.fault.WavRunFault.TheVariants as fault;

use std::alloc::AllocError;
use studio_run::{PlayFault, WriteFault};
use thiserror::Error;
use wav_file::{FileFault, WavFault};

/// The error because of which a stream can have no WAV file.
#[derive(Clone, Copy, Debug, PartialEq, Eq, Error)]
pub enum StreamWavFault {
    /// The studio has no stream of this number.
    #[error("no stream")]
    Unknown,
    /// The stream has more than 8 channels.
    #[error("channels")]
    Channels,
}

/// The error because of which a report or a listing, or its WAV file, was not written whole.
#[derive(Debug, Drop, Error)]
pub enum WavRunFault {
    /// The error of the report or the listing.
    #[error("{0}")]
    Play(PlayFault),
    /// The error of the stream whose samples were to be written.
    #[error("{0}")]
    Stream(StreamWavFault),
    /// The error of the file.
    #[error("{0}")]
    File(FileFault),
}

impl From<PlayFault> for WavRunFault {
    ghost from_gives = { λ from to. to ≡ fault.Play from };

    fn from(fault: PlayFault) -> WavRunFault {
        WavRunFault::Play(fault)
    }
}

impl From<AllocError> for WavRunFault {
    ghost from_gives = { λ _ to. to ≡ fault.Play play.Memory };

    fn from(_error: AllocError) -> WavRunFault {
        WavRunFault::Play(PlayFault::Memory)
    }
}

impl From<WriteFault> for WavRunFault {
    ghost from_gives = { λ _ to. to ≡ fault.Play play.Write };

    fn from(_fault: WriteFault) -> WavRunFault {
        WavRunFault::Play(PlayFault::Write)
    }
}

impl From<WavFault> for WavRunFault {
    ghost from_gives = { λ _ to. to ≡ fault.File file.Write };

    fn from(_fault: WavFault) -> WavRunFault {
        WavRunFault::File(FileFault::Write)
    }
}

impl From<FileFault> for WavRunFault {
    ghost from_gives = { λ from to. to ≡ fault.File from };

    fn from(fault: FileFault) -> WavRunFault {
        WavRunFault::File(fault)
    }
}

impl From<StreamWavFault> for WavRunFault {
    ghost from_gives = { λ from to. to ≡ fault.Stream from };

    fn from(fault: StreamWavFault) -> WavRunFault {
        WavRunFault::Stream(fault)
    }
}
