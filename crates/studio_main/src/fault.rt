//! The faults of the program, with their lines on standard error and their exit statuses.
use crate::explanation::Explanation;
use file_commands::{CommandFault, ConfigFault};
use live_io::InheritedSocketFault;
use live_run::LiveFault;
use std::alloc::{AllocError, AllocFailed};
use std::io::Write;
use studio_config::{SpecError, SpecErrorKind};
use studio_io::{OutputEnd, OutputKind};
use thiserror::Error;

/// The hint at a fault of a configuration.
const CONFIG_HINT: &str = "`darbexum check CONFIG` says where this is and what is allowed.";

/// The fault that ended the program. Its `Display` is the fault's line.
#[derive(Debug, Drop, Error)]
pub(crate) enum ProgramFault {
    /// A word of the command line is not UTF-8.
    #[error("usage: a word of the command line is not UTF-8")]
    Usage,
    /// The word of `--tai-offset` is neither a number of seconds nor `system`.
    #[error("usage: --tai-offset is neither seconds nor system")]
    TaiOffset,
    /// A clock could not be read, or the system does not know how far International Atomic Time is ahead.
    #[error("device: clock")]
    Clock,
    /// A clock could not be read, and this explains why.
    #[error("device: clock\n{0}")]
    ClockExplained(Explanation),
    /// A command, or the configuration of a live run, ended with a fault.
    #[error("{0}")]
    Command(#[from] CommandFault),
    /// A file that a command reads could not be read, and this explains why.
    #[error("{0}\n{1}")]
    Unread(CommandFault, Explanation),
    /// A live run ended early.
    #[error("{0}")]
    Live(#[from] LiveFault),
    /// A live run ended early, and this explains why.
    #[error("{0}\n{1}")]
    LiveExplained(LiveFault, Explanation),
    /// Sockets that the program inherited are refused, or an allocation for them failed.
    #[error("{0}")]
    Inherited(#[from] InheritedSocketFault),
    /// A live run's report was written, but the output of this kind ended before the run, for this reason.
    #[error("device: {0} {1}")]
    OutputEnded(OutputKind, OutputEnd),
    /// The file of `--control` cannot be read, is not private (`is_private`), or has no token.
    #[error("device: control")]
    Control,
    /// The file of `--control` is refused, and this explains why.
    #[error("device: control\n{0}")]
    ControlExplained(Explanation),
    /// A run is to yield, and its copies do not wait for what is missing in them.
    #[error("usage: --yield without late of the output")]
    Yield,
    /// The gains of a live run cannot be kept in the file of `--keep-gains`, and this explains why.
    #[error("device: keep-gains\n{0}")]
    KeepGains(Explanation),
    /// A live run's report was written, but the file of `--keep-gains` does not have the last gains.
    #[error("device: keep-gains failed")]
    GainsNotKept,
    /// Two of the files of a live run, named by their options, are one file.
    #[error("usage: {0} are one file")]
    SameFile(&'static str),
    /// A live run's report was written, but a path ended before the run did, since its socket failed again and again.
    #[error("live: path ended")]
    PathEnded,
}

impl ProgramFault {
    /// Returns the exit status of the program: 2 for a fault of the command line, 4 if an allocation failed, 5 if a
    /// device failed, and else the status of the command.
    pub(crate) fn status(&self) -> u8 {
        match self {
            ProgramFault::Usage | ProgramFault::TaiOffset => 2,
            ProgramFault::SameFile(_) | ProgramFault::Yield => 2,
            ProgramFault::Command(fault) => fault.status(),
            ProgramFault::Unread(fault, _) => fault.status(),
            ProgramFault::Live(LiveFault::Memory) => 4,
            ProgramFault::Inherited(InheritedSocketFault::Memory) => 4,
            ProgramFault::Live(_) | ProgramFault::LiveExplained(_, _) => 5,
            ProgramFault::Control | ProgramFault::ControlExplained(_) => 5,
            ProgramFault::Clock | ProgramFault::ClockExplained(_) => 5,
            ProgramFault::Inherited(_) | ProgramFault::PathEnded => 5,
            ProgramFault::OutputEnded(_, _) => 5,
            ProgramFault::KeepGains(_) | ProgramFault::GainsNotKept => 5,
        }
    }

    /// Returns a line that says how to learn more of the fault, if a command says more.
    pub(crate) fn hint(&self) -> Option<&'static str> {
        match self {
            ProgramFault::Command(CommandFault::Config(fault)) => config_hint(*fault),
            _ => None,
        }
    }

    /// Writes the fault's line, and returns its exit status. A line that cannot be written is lost.
    pub(crate) fn report<E: Write>(&self, faults: &mut E) -> u8 {
        let _ = writeln!(faults, "{self}");
        self.status()
    }
}

/// Returns the hint at a fault of a configuration, if `check` says more than the fault's line.
fn config_hint(fault: ConfigFault) -> Option<&'static str> {
    match fault {
        ConfigFault::NotToml => Some(CONFIG_HINT),
        // The line of a missing key says all, and `check` needs no ports.
        ConfigFault::Studio(error) if error.kind == SpecErrorKind::Missing => None,
        ConfigFault::Studio(_) => Some(CONFIG_HINT),
        ConfigFault::Unread | ConfigFault::TooLong => None,
    }
}

impl From<AllocError> for ProgramFault {
    fn from(fault: AllocError) -> ProgramFault {
        ProgramFault::Command(CommandFault::from(fault))
    }
}

impl<T: Drop> From<AllocFailed<T>> for ProgramFault {
    fn from(refused: AllocFailed<T>) -> ProgramFault {
        ProgramFault::Command(CommandFault::from(refused))
    }
}

impl From<SpecError> for ProgramFault {
    fn from(fault: SpecError) -> ProgramFault {
        ProgramFault::Command(CommandFault::from(fault))
    }
}
