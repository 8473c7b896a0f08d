//! The limit of the size of files (RLIMIT_FSIZE), to which all files of the program keep.
//!
//! A write that passes the limit would end the program by SIGXFSZ, in the middle of the audio, and the toolchain's
//! programs cannot ignore a signal. So such a write is not made. It fails as it does where the signal is ignored: what
//! fits below the limit is written, and the next write returns `EFBIG`, as one on a full disk returns `ENOSPC`.
ghost use Rattle.std.specs.Prelude.{◌≡◌, ◌+◌, ◌-◌, ◌%◌, ◌≤◌, ◌<◌};
ghost use Rattle.std.specs.Io.{WritesAtMost};

use libc::types::rlimit;
use std::io::{Seek, SeekFrom, Write};
use std::{fs, io};

/// The number of the limit of the size of files, which `libc` does not name.
const RLIMIT_FSIZE: i32 = 1;

/// Returns the greatest size that a file of the process may have, in octets.
// Asked at each write, since prlimit(2) can set it while a run goes on. It costs a tenth of a microsecond.
pub(crate) fn file_limit() -> u64 {
    let mut limit = rlimit {
        rlim_cur: u64::MAX,
        rlim_max: u64::MAX,
    };
    match libc::getrlimit(RLIMIT_FSIZE, &mut limit) {
        0 => limit.rlim_cur,
        _ => u64::MAX,
    }
}

/// Returns the number of octets of a write of `len` octets at this place of a file that are below its limit: all, or as
/// many units as fit. A unit has an octet at least.
pub(crate) fn octets_below(limit: u64, at: u64, len: usize, unit: usize) -> usize
    ensures all { at + len ≤ limit → result ≡ len }
    ensures units { 0 < unit → limit < at + len → result ≡ (limit - at) - (limit - at) % unit }
    ensures few { result ≤ len }
{
    let room = limit.saturating_sub(at);
    if room >= len as u64 {
        return len;
    }
    let part = room.checked_rem(unit as u64).unwrap_or(0);
    room.saturating_sub(part) as usize
}

/// Returns the error of a write that would pass the limit.
pub(crate) fn too_large() -> io::Error {
    io::Error::from_raw_os_error(libc::EFBIG)
}

/// A file that is written, below the limit of its size.
#[derive(Drop)]
pub(crate) struct LimitedFile {
    file: fs::File,
    /// The place of the next write.
    at: u64,
}

impl LimitedFile {
    /// Returns the file, which is empty.
    pub(crate) fn new(file: fs::File) -> LimitedFile {
        LimitedFile { file, at: 0 }
    }

    /// Returns the file itself.
    pub(crate) fn file(&self) -> &fs::File {
        &self.file
    }

    /// Writes as `write` does, but of a write that passes the limit only whole units of this many octets.
    pub(crate) fn write_units(&mut self, buf: &[u8], unit: usize) -> io::Result<usize>
        ensures bound { WritesAtMost result buf.now }
    {
        let len = octets_below(file_limit(), self.at, buf.len(), unit);
        if len == 0 && !buf.is_empty() {
            return Err(too_large());
        }
        let count = self.file.write(&buf[..len])?;
        self.at = self.at.saturating_add(count as u64);
        Ok(count)
    }

    /// Cuts the file to its first `len` octets. Later writes go behind them.
    pub(crate) fn cut(&mut self, len: u64) -> io::Result<()> {
        // A file that somebody else has cut would become longer.
        if len > file_limit() && len > self.file.metadata()?.len() {
            return Err(too_large());
        }
        self.file.set_len(len)?;
        self.seek(SeekFrom::Start(len))?;
        Ok(())
    }
}

impl Write for LimitedFile {
    fn write(&mut self, buf: &[u8]) -> io::Result<usize> {
        self.write_units(buf, 1)
    }

    fn flush(&mut self) -> io::Result<()> {
        self.file.flush()
    }
}

impl Seek for LimitedFile {
    fn seek(&mut self, to: SeekFrom) -> io::Result<u64> {
        self.at = self.file.seek(to)?;
        Ok(self.at)
    }
}
