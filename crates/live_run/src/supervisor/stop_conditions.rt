//! The conditions that stop a run: a pending signal that was blocked when the program was started, and the end of
//! standard input.

use crate::supervisor::signal_file::SignalFile;
use live_io::{STDERR, STDIN, is_ready};

/// The greatest number of reads of standard input in one call.
// 1,024 reads of 256 octets empty a full pipe. A limit, since input that never stops must not keep the supervisor from
// its other work.
const MAX_READS: u32 = 1_024;

/// The line at the first read of standard input that fails.
const READ_FAULT: &[u8] = b"live: standard input cannot be read, and the run goes on\n";

/// The conditions that stop a run.
#[derive(Clone, Copy)]
pub(crate) struct StopConditions<'a> {
    /// The signals of the process.
    signals: &'a SignalFile,
    /// True if the run ends at the end of standard input.
    until_eof: bool,
    /// True once a line said that standard input cannot be read.
    is_fault_written: bool,
}

impl<'a> StopConditions<'a> {
    /// Returns the conditions of a run, which ends on a signal, and at the end of standard input if `until_eof`.
    pub(crate) fn new(signals: &'a SignalFile, until_eof: bool) -> StopConditions<'a> {
        StopConditions {
            signals,
            until_eof,
            is_fault_written: false,
        }
    }

    /// Returns true if one of the conditions holds.
    pub(crate) fn is_met(&mut self) -> bool {
        self.signals.has_stop_signal() || self.until_eof && self.has_input_ended()
    }

    /// Returns true if standard input has ended. It reads and drops the input before the end, and does not wait. A read
    /// that fails is not the end: the next call tries again.
    // The end is behind all input that was not read, so that has to be read to find the end.
    fn has_input_ended(&mut self) -> bool {
        let mut octets = [0u8; 256];
        for _ in 0..MAX_READS {
            if !is_ready(STDIN, libc::net::POLLIN) {
                return false;
            }
            let count = libc::read(STDIN, &mut octets);
            if count < 0 {
                self.note_read_fault(os::errno());
            }
            if count <= 0 {
                return count == 0;
            }
        }
        false
    }

    /// Writes the line of a read that failed with this error of the system, once. A line that standard error does not
    /// take now is written later.
    fn note_read_fault(&mut self, error: i32) {
        // Not for a call that was interrupted, or if another reader took the input.
        let is_passing = error == libc::EINTR || error == libc::EAGAIN;
        if is_passing || self.is_fault_written || !is_ready(STDERR, libc::net::POLLOUT) {
            return;
        }
        let _ = libc::write(STDERR, READ_FAULT);
        self.is_fault_written = true;
    }
}
