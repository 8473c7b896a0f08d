//! The help for whoever starts the program by hand: without words, and behind a fault.
use clap::Error;
use command_line::parse_args;
use live_io::{STDERR, STDIN, is_ready};
use std::alloc::{AllocError, Global};
use std::io::Write;

/// The line behind the help.
const READS: &str =
    "\nReading a trace for examples/first/studio.toml from this terminal. Ctrl-D ends it.\n";

/// Writes the program's help to `faults`, and that a trace is being read, if standard input is a terminal. Errors of
/// the writes are ignored. Returns `AllocError` if an allocation fails.
// A run without words reads a trace. Typed at a terminal it would wait for one and say nothing.
pub(crate) fn write_terminal_help<E: Write>(
    alloc: Global,
    faults: &mut E,
) -> Result<(), AllocError> {
    if libc::isatty(STDIN) == 1 {
        if let Some(help) = help_of(alloc)? {
            let _ = write!(faults, "{help}");
        }
        let _ = faults.write_all(READS.as_bytes());
    }
    Ok(())
}

/// Writes the hint at a fault to `faults`, if there is one and standard error is a terminal. The hint is left out if
/// standard error would block. Errors of the write are ignored.
// A script reads the line of the fault alone.
pub(crate) fn write_hint<E: Write>(hint: Option<&str>, faults: &mut E) {
    if let Some(hint) = hint {
        if libc::isatty(STDERR) == 1 && is_ready(STDERR, libc::net::POLLOUT) {
            let _ = writeln!(faults, "{hint}");
        }
    }
}

/// Returns the program's help, as `--help` prints it.
fn help_of(alloc: Global) -> Result<Option<Error>, AllocError> {
    let mut words = Vec::new(alloc);
    words.push(String::from_str(alloc, "--help")?)?;
    Ok(parse_args(alloc, words.as_slice()).err())
}
