//! The line that says how to end a run, if a signal does not end it with its report.

use crate::supervisor::signal_file::SignalFile;
use live_io::{STDERR, is_ready};
use std::io::Write;

/// The line at a terminal at which Ctrl-C ends the run without a report, with its line feed.
const END_HINT: &str =
    "live: Ctrl-C ends this run without a report. For a report start it with darbexum-live, or with --until-eof and end it with Ctrl-D.\n";

/// The line of a run that cannot find its signals, with its line feed.
const NO_SIGNALS: &str =
    "live: /proc/self/status cannot be read, so a blocked signal does not end this run. With --until-eof the end of standard input does.\n";

/// Writes the line, if one is needed. The line is left out if standard error would block. Errors of the write are
/// ignored.
pub(crate) fn write_end_hint<W: Write>(signals: &SignalFile, until_eof: bool, writer: &mut W) {
    let Some(hint) = end_hint(signals, until_eof) else {
        return;
    };
    if is_ready(STDERR, libc::net::POLLOUT) {
        let _ = writer.write_all(hint.as_bytes());
    }
}

/// Returns the line that says how to end the run: if the system does not list the signals of the process, or if
/// standard error is a terminal at which Ctrl-C ends the run without a report.
fn end_hint(signals: &SignalFile, until_eof: bool) -> Option<&'static str> {
    let Some(is_blocked) = signals.is_interrupt_blocked() else {
        return Some(NO_SIGNALS);
    };
    if is_blocked || until_eof || libc::isatty(STDERR) != 1 {
        return None;
    }
    Some(END_HINT)
}
