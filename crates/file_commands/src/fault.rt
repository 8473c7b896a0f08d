//! The faults of a command over files, with their lines on standard error and their exit statuses.
use pcap_file::{CaptureFault, ReaderFault};
use pcap_flows::ImportFault;
use pcap_replay::{RecordingFault, ReplayFault};
use std::alloc::{AllocError, AllocFailed};
use std::io;
use studio_config::{SpecError, SpecErrorKind};
use studio_run::{GainsFault, GainsFaultKind, PlayFault, ReadFault, WriteFault};
use studio_session::StudioFault;
use thiserror::Error;
use wav_file::FileFault;
use wav_runs::StreamWavFault;

/// The fault that ended a command over files. Its `Display` is the fault's line, without the path that precedes a
/// fault of a file: the command writes that to `faults` itself.
#[derive(Debug, Drop, Error)]
pub enum CommandFault {
    /// A word of `--path` is not an IPv4 address and a port.
    #[error("usage: a path is not ADDRESS:PORT")]
    Address,
    /// A file to write is also read, or is another file to write.
    #[error("{0}")]
    Clash(#[from] FileClash),
    /// The STREAM of `marks --wav` or `replay --wav-stream` is not a number from 0 to 255.
    #[error("usage: STREAM is not a number from 0 to 15")]
    StreamNumber,
    /// The configuration was not read, or has a fault.
    #[error("{0}")]
    Config(ConfigFault),
    /// The configuration has a fault, which `check` explains below the fault's line: where it is, what the
    /// configuration has there, and what is allowed.
    #[error("{0}\n{1}")]
    Explained(ConfigFault, String),
    /// A file of gains was not read, or has a fault.
    #[error("{0}")]
    Gains(GainsInputFault),
    /// A trace was not run to its end, or its text was not written.
    #[error("{0}")]
    Play(#[from] PlayFault),
    /// A capture was not read, or has a fault.
    #[error("{0}")]
    Capture(CaptureInputFault),
    /// A capture was not replayed to its end, or its report was not written.
    #[error("{0}")]
    Replay(#[from] ReplayFault),
    /// The studio has no such stream, or the stream has too many channels for a WAV file. The file's path was written
    /// to `faults`.
    #[error("{0}")]
    StreamWav(StreamWavFault),
    /// A WAV file or a chart was not created or not written. The file's path was written to `faults`.
    #[error("{0}")]
    Wav(FileFault),
    /// An allocation failed.
    #[error("out of memory")]
    Memory,
    /// A write to the output failed, or took no octet. The output has a prefix of the text.
    #[error("device: write")]
    Write,
}

/// The kind of a file that commands read by its path.
#[derive(Clone, Copy, Debug, PartialEq, Eq)]
pub enum InputKind {
    /// A configuration.
    Config,
    /// A file of gains.
    Gains,
    /// A capture.
    Capture,
}

/// The fault of files of one command that are one file.
// An enum of its own: a command compares many pairs of files, and each `?` is proved along all parts of its fault.
#[derive(Clone, Copy, Debug, PartialEq, Eq, Error)]
pub enum FileClash {
    /// The file to write is also read. The file's path was written to `faults`.
    #[error("is an input")]
    OutputIsInput,
    /// Two of the files to write are one file, by their options.
    #[error("usage: {0} and {1} are one file")]
    SameFile(&'static str, &'static str),
}

/// The fault of a configuration.
#[derive(Clone, Copy, Debug, PartialEq, Eq, Error)]
pub enum ConfigFault {
    /// The configuration could not be read.
    #[error("device: config")]
    Unread,
    /// The configuration has more than 1,048,576 octets.
    #[error("config: too long")]
    TooLong,
    /// The configuration is not TOML, or not UTF-8.
    #[error("config: not TOML")]
    NotToml,
    /// The configuration's first fault as a studio.
    #[error("config {0}")]
    Studio(SpecError),
}

/// The fault of a file of gains.
#[derive(Clone, Copy, Debug, PartialEq, Eq, Error)]
pub enum GainsInputFault {
    /// The file could not be read.
    #[error("device: gains")]
    Unread,
    /// The file has more than 67,108,864 octets, as many as a trace may have.
    #[error("gains: too long")]
    TooLong,
    /// The file's first fault, with its line.
    #[error("{0}")]
    Line(GainsFault),
}

/// The fault of a capture.
#[derive(Clone, Copy, Debug, PartialEq, Eq, Error)]
pub enum CaptureInputFault {
    /// The capture could not be read.
    #[error("device: capture")]
    Unread,
    /// The capture has more than 67,108,864 octets, as many as a trace may have. `streams` and `replay` have no such
    /// limit.
    #[error("capture: too long")]
    TooLong,
    /// A capture on standard input is not the record of a live run.
    #[error("capture: no record")]
    NoRecord,
    /// A record on standard input seems to be of another configuration, but the octets of it that are read before the
    /// studio is known have no packet, so that descriptions of its paths may be behind them.
    #[error("capture: no packet in its first 1048576 octets")]
    LongFront,
    /// The record is not one of a run by this configuration.
    #[error("capture: recorded by another configuration: {0}")]
    Recording(RecordingFault),
    /// The capture's first fault in its format, with the octet at which it is.
    #[error("capture {0}")]
    Octet(CaptureFault),
    /// The capture's time steps back by more than a second: the number of octets before the place, and the seconds.
    #[error("capture octet {place}: time jumps by -{seconds} s")]
    TimeBack {
        /// The number of octets before the record or block.
        place: usize,
        /// The step's length in seconds, rounded up.
        seconds: u64,
    },
    /// The capture's time steps forward by more than `--gap`: the number of octets before the place, and the seconds.
    #[error("capture octet {place}: time jumps by {seconds} s; --gap allows it")]
    TimeAhead {
        /// The number of octets before the record or block.
        place: usize,
        /// The step's length in seconds, rounded up.
        seconds: u64,
    },
    /// No trace or no configuration can be made from the capture.
    #[error("capture: {0}")]
    Import(ImportFault),
    /// The text of the configuration that was made does not read back as the studio that it is for, so it is not
    /// written.
    // No capture is known to cause this. The test is what makes the claim of `readable_text` true.
    #[error("capture: the configuration does not read back")]
    NotReadBack,
}

impl CommandFault {
    /// Returns the fault of a configuration that was not read.
    pub(crate) fn of_config(fault: ReadFault) -> CommandFault {
        match fault {
            ReadFault::Device => CommandFault::Config(ConfigFault::Unread),
            ReadFault::TooMany => CommandFault::Config(ConfigFault::TooLong),
            ReadFault::Memory => CommandFault::Memory,
        }
    }

    /// Returns the fault of a file of gains that was not read.
    pub(crate) fn of_gains(fault: ReadFault) -> CommandFault {
        match fault {
            ReadFault::Device => CommandFault::Gains(GainsInputFault::Unread),
            ReadFault::TooMany => CommandFault::Gains(GainsInputFault::TooLong),
            ReadFault::Memory => CommandFault::Memory,
        }
    }

    /// Returns the fault of a capture that was not opened or not read.
    pub(crate) fn of_capture(fault: ReadFault) -> CommandFault {
        match fault {
            ReadFault::Device => CommandFault::Capture(CaptureInputFault::Unread),
            ReadFault::TooMany => CommandFault::Capture(CaptureInputFault::TooLong),
            ReadFault::Memory => CommandFault::Memory,
        }
    }

    /// Returns the kind of the file that could not be opened or read, if the fault is one of such a file.
    pub fn unread(&self) -> Option<InputKind> {
        match self {
            CommandFault::Config(ConfigFault::Unread) => Some(InputKind::Config),
            CommandFault::Gains(GainsInputFault::Unread) => Some(InputKind::Gains),
            CommandFault::Capture(CaptureInputFault::Unread) => Some(InputKind::Capture),
            CommandFault::Replay(ReplayFault::Capture(ReaderFault::ReadFailed)) => {
                Some(InputKind::Capture)
            }
            _ => None,
        }
    }

    /// Returns the exit status of the program: 1 for a fault of a trace, an event, gains or a capture, 2 for one of the
    /// command line, 3 for one of the configuration, 4 if an allocation failed, and 5 if a read or a write failed.
    pub fn status(&self) -> u8 {
        match self {
            CommandFault::Address | CommandFault::StreamNumber | CommandFault::StreamWav(_) => 2,
            CommandFault::Clash(_) => 2,
            CommandFault::Config(ConfigFault::Unread) => 5,
            CommandFault::Capture(CaptureInputFault::Unread) => 5,
            CommandFault::Gains(GainsInputFault::Unread) => 5,
            CommandFault::Capture(_) | CommandFault::Gains(_) => 1,
            CommandFault::Config(_) | CommandFault::Explained(..) => 3,
            CommandFault::Play(fault) => play_status(fault),
            CommandFault::Replay(fault) => replay_status(fault),
            CommandFault::Memory => 4,
            CommandFault::Wav(_) | CommandFault::Write => 5,
        }
    }
}

impl From<AllocError> for CommandFault {
    fn from(_fault: AllocError) -> CommandFault {
        CommandFault::Memory
    }
}

impl<T: Drop> From<AllocFailed<T>> for CommandFault {
    fn from(_refused: AllocFailed<T>) -> CommandFault {
        CommandFault::Memory
    }
}

impl From<WriteFault> for CommandFault {
    fn from(_fault: WriteFault) -> CommandFault {
        CommandFault::Write
    }
}

impl From<SpecError> for CommandFault {
    /// Returns `Memory` if an allocation failed, or else the configuration's fault.
    fn from(fault: SpecError) -> CommandFault {
        // A `SpecError` of kind `Memory` is no fault of the configuration: its status is 4, not 3.
        match fault.kind {
            SpecErrorKind::Memory => CommandFault::Memory,
            _ => CommandFault::Config(ConfigFault::Studio(fault)),
        }
    }
}

impl From<GainsFault> for CommandFault {
    /// Returns `Memory` if an allocation failed, or else the fault of the line.
    fn from(fault: GainsFault) -> CommandFault {
        match fault.kind {
            GainsFaultKind::Memory => CommandFault::Memory,
            _ => CommandFault::Gains(GainsInputFault::Line(fault)),
        }
    }
}

impl From<ReaderFault> for CommandFault {
    fn from(fault: ReaderFault) -> CommandFault {
        CommandFault::Replay(ReplayFault::from(fault))
    }
}

/// Returns `CommandFault::Write` if a write to the output failed.
pub fn output_result(write: io::Result<()>) -> Result<(), CommandFault> {
    match write {
        Ok(()) => Ok(()),
        Err(_) => Err(CommandFault::Write),
    }
}

/// Returns the exit status for a trace that was not run to its end.
fn play_status(fault: &PlayFault) -> u8 {
    match fault {
        PlayFault::Memory | PlayFault::Run(StudioFault::Memory(_)) => 4,
        PlayFault::Trace(_) | PlayFault::Run(_) => 1,
        PlayFault::Read | PlayFault::Write => 5,
    }
}

/// Returns the exit status for a capture that was not replayed to its end.
fn replay_status(fault: &ReplayFault) -> u8 {
    match fault {
        ReplayFault::Memory | ReplayFault::Capture(ReaderFault::Memory) => 4,
        ReplayFault::Capture(ReaderFault::ReadFailed) | ReplayFault::Write => 5,
        ReplayFault::Run(StudioFault::Memory(_)) => 4,
        ReplayFault::Capture(_) | ReplayFault::Run(_) => 1,
        ReplayFault::Change(..) | ReplayFault::Jump(..) | ReplayFault::TooManyEvents => 1,
    }
}
