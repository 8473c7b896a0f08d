//! The test if a read or a write of a descriptor would return at once.

/// The descriptor of standard input.
pub const STDIN: i32 = 0;

/// The descriptor of standard error.
pub const STDERR: i32 = 2;

/// Returns true if a read (`POLLIN`), or a write of at most 4,096 octets (`POLLOUT`), would return at once, also if it
/// would fail. It does not wait.
pub fn is_ready(descriptor: i32, event: i16) -> bool {
    // 4,096 octets are PIPE_BUF: a pipe counts as ready to be written once this many fit.
    let mut asked = [libc::types::pollfd {
        fd: descriptor,
        events: event,
        revents: 0,
    }];
    libc::net::poll(&mut asked, 0) > 0
}
