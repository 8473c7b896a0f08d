//! The descriptors of standard input, output and error.

use libc::net::POLLOUT;
use libc::types::pollfd;
use live_io::STDERR;

/// The descriptor of standard output.
pub(crate) const STDOUT: i32 = 1;

/// The longest wait of a live run's fault for standard error, in milliseconds.
// A reader that goes on gets the line. One that has stopped does not keep a run on that was told to end.
const FAULT_WAIT_MS: i32 = 2_000;

/// The file that replaces a descriptor that is not open: reads return its end, and writes fail, since it is opened for
/// reading.
const NULL_DEVICE: &[u8] = b"/dev/null";

/// Opens the descriptors of standard input, output and error that are not open.
// Without that a file or a socket could get one of them: the report would be written into a record or sent to a
// network.
pub(crate) fn open_missing_fds() {
    // The system returns the least free descriptor, so one past 2 says that all three are open.
    for _ in 0..3u32 {
        let file = os::open_read(NULL_DEVICE);
        if file > 2 {
            let _ = libc::close(file);
        }
        if file < 0 || file > 2 {
            return;
        }
    }
}

/// Returns true if standard output is a terminal.
pub(crate) fn is_stdout_terminal() -> bool {
    libc::isatty(STDOUT) == 1
}

/// Returns true once standard error takes a line without blocking, and false if it does not within two seconds.
pub(crate) fn takes_fault_line() -> bool {
    let mut polled = [pollfd {
        fd: STDERR,
        events: POLLOUT,
        revents: 0,
    }];
    libc::net::poll(&mut polled, FAULT_WAIT_MS) > 0
}
