//! Standard output and standard error, which keep to the limit of the size of files if they are files.
ghost use Rattle.std.specs.Prelude.{◌≤◌};

use crate::file_limit::{file_limit, octets_below, too_large};
use crate::std_fds::STDOUT;
use libc::SEEK_CUR;
use live_io::STDERR;
use std::io::{Stderr, Stdout, Write};
use std::{fs, io};

/// The path by which the system knows the file that standard output is.
const STDOUT_PATH: &str = "/proc/self/fd/1";

/// The path by which the system knows the file that standard error is.
const STDERR_PATH: &str = "/proc/self/fd/2";

/// Standard output. Of a text that passes the limit of a file, what fits is written.
#[derive(Drop)]
pub(crate) struct LimitedStdout<'a> {
    rt: &'a HostRuntime,
    output: Stdout,
}

impl<'a> LimitedStdout<'a> {
    /// Returns standard output.
    pub(crate) fn new(rt: &'a HostRuntime) -> LimitedStdout<'a> {
        LimitedStdout {
            rt,
            output: rt.stdout(),
        }
    }
}

impl Write for LimitedStdout<'_> {
    fn write(&mut self, buf: &[u8]) -> io::Result<usize> {
        let len = room_at_stdout(self.rt, buf.len(), 1);
        if len == 0 && !buf.is_empty() {
            return Err(too_large());
        }
        self.output.write(&buf[..len])
    }

    fn flush(&mut self) -> io::Result<()> {
        self.output.flush()
    }
}

/// Standard error. A text that passes the limit of a file is not written at all, so that a file ends with a whole line.
#[derive(Drop)]
pub(crate) struct LimitedStderr<'a> {
    rt: &'a HostRuntime,
    faults: Stderr,
}

impl<'a> LimitedStderr<'a> {
    /// Returns standard error.
    pub(crate) fn new(rt: &'a HostRuntime) -> LimitedStderr<'a> {
        LimitedStderr {
            rt,
            faults: rt.stderr(),
        }
    }
}

impl Write for LimitedStderr<'_> {
    fn write(&mut self, buf: &[u8]) -> io::Result<usize> {
        if room_in(self.rt, STDERR, STDERR_PATH, buf.len(), buf.len()) < buf.len() {
            return Err(too_large());
        }
        self.faults.write(buf)
    }

    fn flush(&mut self) -> io::Result<()> {
        self.faults.flush()
    }
}

/// Returns the number of octets of a write of `len` octets to standard output that are below its limit, if it is a
/// file: all, or as many units as fit.
pub(crate) fn room_at_stdout(rt: &HostRuntime, len: usize, unit: usize) -> usize
    ensures few { result ≤ len }
{
    room_in(rt, STDOUT, STDOUT_PATH, len, unit)
}

/// Returns the number of octets of a write of `len` octets to a descriptor with this path that are below its limit, if
/// it is a file: all, or as many units as fit.
fn room_in(rt: &HostRuntime, descriptor: i32, path: &str, len: usize, unit: usize) -> usize
    ensures few { result ≤ len }
{
    let limit = file_limit();
    if limit == u64::MAX {
        return len;
    }
    match place_in(rt, descriptor, path) {
        Some(at) => octets_below(limit, at, len, unit),
        None => len,
    }
}

/// Returns the place of the next write to a descriptor with this path. Returns `None` if it is no regular file.
fn place_in(rt: &HostRuntime, descriptor: i32, path: &str) -> Option<u64> {
    // A pipe, a terminal and a socket have no place.
    let at = u64::try_from(libc::lseek(descriptor, 0, SEEK_CUR)).ok()?;
    match fs::metadata(rt, path) {
        // A file that was opened for appending is written at its end, whatever its place.
        Ok(found) => found.is_file().then_some(at.max(found.len())),
        Err(_) => Some(at),
    }
}
