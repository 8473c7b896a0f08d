//! The explanation of a file that a command could not read: its path and the system's error.
use crate::explanation::{Explanation, Reason, SystemErrors};
use crate::fault::ProgramFault;
use command_line::{CliCommand, FileCommand, ReplayArgs};
use file_commands::{CommandFault, InputKind};
use std::alloc::{AllocError, Global};

/// The paths of the files that a command reads, each if it reads one.
#[derive(Clone, Copy)]
pub(crate) struct InputPaths<'a> {
    config: Option<&'a str>,
    gains: Option<&'a str>,
    capture: Option<&'a str>,
}

impl<'a> InputPaths<'a> {
    /// Returns the paths of the files that a command reads.
    pub(crate) fn of(command: &CliCommand<'a>) -> InputPaths<'a> {
        match command {
            CliCommand::Live(config, args) => InputPaths {
                gains: args.gains,
                ..InputPaths::of_config(*config)
            },
            CliCommand::File(command) => InputPaths::of_files(command),
        }
    }

    /// Returns the paths of the files that a command over files reads.
    fn of_files(command: &FileCommand<'a>) -> InputPaths<'a> {
        match command {
            FileCommand::QuickStart | FileCommand::ConfigHelp => InputPaths::none(),
            FileCommand::Marks(config) => InputPaths::of_config(*config),
            FileCommand::MarksAndCounts(config) => InputPaths::of_config(*config),
            FileCommand::MarksToWav(config, _) => InputPaths::of_config(*config),
            FileCommand::Chart(config) => InputPaths::of_config(*config),
            FileCommand::Check(config) => InputPaths::of_config(*config),
            FileCommand::Play(config, args) => InputPaths {
                gains: args.gains,
                ..InputPaths::of_config(*config)
            },
            FileCommand::Streams(args) => InputPaths::of_capture(args.file),
            FileCommand::Import(capture, _) => InputPaths::of_capture(*capture),
            FileCommand::Replay(config, args) => InputPaths {
                config: Some(*config),
                gains: args.gains,
                capture: capture_of(args),
            },
        }
    }

    /// Returns no path.
    fn none() -> InputPaths<'a> {
        InputPaths {
            config: None,
            gains: None,
            capture: None,
        }
    }

    /// Returns the path of a configuration alone.
    fn of_config(path: &'a str) -> InputPaths<'a> {
        InputPaths {
            config: Some(path),
            ..InputPaths::none()
        }
    }

    /// Returns the path of a capture alone.
    fn of_capture(path: &'a str) -> InputPaths<'a> {
        InputPaths {
            capture: Some(path),
            ..InputPaths::none()
        }
    }

    /// Returns the path of the file of a kind, if the command reads one.
    fn of_kind(self, kind: InputKind) -> Option<&'a str> {
        match kind {
            InputKind::Config => self.config,
            InputKind::Gains => self.gains,
            InputKind::Capture => self.capture,
        }
    }
}

/// Returns the path of the capture of `replay`, or `None` if it is standard input.
fn capture_of<'a>(args: &ReplayArgs<'a>) -> Option<&'a str> {
    if args.is_stdin() {
        None
    } else {
        Some(args.file)
    }
}

/// Returns the fault of a command with its explanation, if it is one of a file that could not be read, and there is
/// memory to say it.
pub(crate) fn with_unread_file<H: SystemErrors>(
    alloc: Global,
    host: &H,
    paths: InputPaths<'_>,
    fault: ProgramFault,
) -> ProgramFault {
    match fault {
        ProgramFault::Command(fault) => match unread_file(alloc, host, paths, &fault) {
            Ok(Some(why)) => ProgramFault::Unread(fault, why),
            Ok(None) | Err(AllocError) => ProgramFault::Command(fault),
        },
        fault => fault,
    }
}

/// Returns the explanation of a file that could not be read, if the fault is one of a file and the system's error is
/// known.
fn unread_file<H: SystemErrors>(
    alloc: Global,
    host: &H,
    paths: InputPaths<'_>,
    fault: &CommandFault,
) -> Result<Option<Explanation>, AllocError> {
    let path = fault.unread().and_then(|kind| paths.of_kind(kind));
    match (path, host.last_error()) {
        (None, _) | (_, 0) => Ok(None),
        (Some(path), code) => {
            let path = String::from_str(alloc, path)?;
            Ok(Some(Explanation::File(path, Reason::System(code))))
        }
    }
}
