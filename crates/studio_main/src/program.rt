//! The program: from the words of its command line to its exit status, with help, the version and usage faults.
use crate::fault::ProgramFault;
use crate::live_command::run_live;
use crate::live_host::LiveHost;
use crate::std_fds::takes_fault_line;
use crate::terminal_help::{write_hint, write_terminal_help};
use crate::unread_file::{InputPaths, with_unread_file};
use clap::Error;
use clap::error::ErrorKind;
use command_line::{CliCommand, FileCommand, parse_args};
use file_commands::{
    CommandFault, Host, read_config, run_chart, run_check, run_config_help, run_import, run_marks,
    run_marks_to_wav, run_marks_with_counts, run_play, run_quick_start, run_replay, run_streams,
};
use std::alloc::Global;
use std::io::Write;
use std::net::Net;
use std::random::RandomSource;
use std::rt::Env;
use std::sync::Wait;
use std::thread::Threads;
use std::time::Clock;

/// Runs the program and returns its exit status. The words do not include the program's name. The text goes to
/// `output`, and the line of a fault to `faults`, which has to be standard error. The line of a live run's fault is
/// left out if standard error does not take it within two seconds. Files are the host's.
pub(crate) fn run<
    R: Threads + Wait + Sync + Net + Clock + RandomSource + Env + AllocGlobal,
    H: LiveHost,
>(
    rt: &R,
    alloc: Global,
    words: &[String],
    input: &mut H::Stdin,
    output: &mut H::Stdout,
    faults: &mut H::Stderr,
    host: &H,
) -> u8 {
    let command = match parse_args(alloc, words) {
        Ok(command) => command,
        Err(error) => return report_usage(&error, output, faults),
    };
    let is_live = matches!(command, CliCommand::Live(_, _));
    let paths = InputPaths::of(&command);
    match dispatch(rt, alloc, command, input, output, faults, host) {
        Ok(()) => 0,
        // A live run ends when it is told to, also if nobody reads its standard error. A command over files waits for
        // its reader, as the report of a live run does.
        Err(fault) => {
            let fault = with_unread_file(alloc, host, paths, fault);
            report_fault(&fault, !is_live || takes_fault_line(), faults)
        }
    }
}

/// Writes the line of a fault and, at a terminal, how to learn more of it. Both are left out if the line is not taken.
/// Returns the exit status.
fn report_fault<E: Write>(fault: &ProgramFault, is_taken: bool, faults: &mut E) -> u8 {
    if !is_taken {
        return fault.status();
    }
    let status = fault.report(faults);
    write_hint(fault.hint(), faults);
    status
}

/// Writes help or the version to `output`, or a usage fault to `faults`, and returns the exit status.
fn report_usage<W: Write, E: Write>(error: &Error, output: &mut W, faults: &mut E) -> u8 {
    if error.kind() == ErrorKind::OutOfMemory {
        return ProgramFault::Command(CommandFault::Memory).report(faults);
    }
    // Clap's text takes the place of the fault's line, which speaks of UTF-8 alone.
    if error.use_stderr() {
        let _ = write!(faults, "{error}");
        return ProgramFault::Usage.status();
    }
    match write!(output, "{error}") {
        Ok(()) => 0,
        Err(_) => ProgramFault::Command(CommandFault::Write).report(faults),
    }
}

/// Runs the command that the words name.
fn dispatch<R: Threads + Wait + Sync + Net + Clock + RandomSource + Env + AllocGlobal, H: LiveHost>(
    rt: &R,
    alloc: Global,
    command: CliCommand<'_>,
    input: &mut H::Stdin,
    output: &mut H::Stdout,
    faults: &mut H::Stderr,
    host: &H,
) -> Result<(), ProgramFault> {
    match command {
        CliCommand::Live(path, args) => {
            let config = read_config(host, alloc, path)?;
            run_live(rt, alloc, config.as_slice(), args, output, faults, host)
        }
        CliCommand::File(command) => {
            Ok(run_file_command(host, alloc, command, input, output, faults)?)
        }
    }
}

/// Runs a command over files. The counts of `marks --counts` go to `faults`.
fn run_file_command<H: Host>(
    host: &H,
    alloc: Global,
    command: FileCommand<'_>,
    input: &mut H::Stdin,
    output: &mut H::Stdout,
    faults: &mut H::Stderr,
) -> Result<(), CommandFault> {
    match command {
        FileCommand::QuickStart => {
            write_terminal_help(alloc, faults)?;
            run_quick_start(alloc, input, output)
        }
        FileCommand::Marks(path) => run_marks(host, alloc, path, input, output),
        FileCommand::MarksAndCounts(path) => {
            run_marks_with_counts(host, alloc, path, input, output, faults)
        }
        FileCommand::MarksToWav(path, args) => {
            run_marks_to_wav(host, alloc, path, args, input, output, faults)
        }
        FileCommand::Play(path, args) => {
            run_play(host, alloc, path, args, input, output, faults)
        }
        FileCommand::Chart(path) => run_chart(host, alloc, path, input, output),
        FileCommand::Check(path) => run_check(host, alloc, path, output),
        FileCommand::ConfigHelp => run_config_help(output),
        FileCommand::Streams(args) => run_streams(host, alloc, args, output),
        FileCommand::Import(path, args) => run_import(host, alloc, path, &args, output, faults),
        FileCommand::Replay(config, args) => {
            run_replay(host, alloc, config, &args, input, output, faults)
        }
    }
}
