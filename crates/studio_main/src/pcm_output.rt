//! The output of a live run's raw PCM: standard output, a FIFO or a file.
ghost use Rattle.std.specs.Prelude.{◌≤◌};

use crate::SystemHost;
use crate::created_file::{CreateFault, CreatedFile};
use crate::file_limit::too_large;
use crate::output_end::report_output_end;
use crate::std_fds::STDOUT;
use crate::std_streams::{LimitedStderr, room_at_stdout};
use libc::net::{POLLERR, POLLOUT};
use libc::types::pollfd;
use std::alloc::Global;
use std::fs::OpenOptions;
use std::io::{ErrorKind, Write};
use std::os::fd::AsRawFd;
use std::os::unix::fs::FileTypeExt;
use std::{fs, io};
use studio_io::{OutputEnd, OutputKind};
use wav_file::{PcmFault, PcmOutput, PcmSpace};

/// The greatest number of octets that are written at once.
// PIPE_BUF of Linux: a pipe that poll(2) reports as ready has space for this many octets, so the write does not block.
const MAX_WRITE: usize = 4096;

/// Where raw PCM goes.
#[derive(Drop)]
enum PcmTarget<'a> {
    Stdout,
    Fifo(fs::File),
    File(CreatedFile<'a>),
}

impl PcmTarget<'_> {
    /// Returns its descriptor.
    fn descriptor(&self) -> i32 {
        match self {
            PcmTarget::Stdout => STDOUT,
            PcmTarget::Fifo(file) => file.as_raw_fd(),
            PcmTarget::File(file) => file.descriptor(),
        }
    }
}

/// The output of a live run's raw PCM, which reports its end on standard error.
#[derive(Drop)]
pub(crate) struct SystemPcm<'a> {
    rt: &'a HostRuntime,
    target: PcmTarget<'a>,
    /// The number of octets of a block. A file that reaches the limit of its size ends with a whole block.
    block_len: usize,
    /// True while the output is a FIFO that nobody has opened for reading yet.
    is_unread: bool,
    faults: LimitedStderr<'a>,
}

impl<'a> SystemPcm<'a> {
    /// Returns the output of a path, or standard output if there is no path. Returns `Exists` if something is at the
    /// path that is no FIFO. If the system fails, its error is noted in the host.
    pub(crate) fn open(
        host: SystemHost<'a>,
        alloc: Global,
        path: Option<&str>,
        block_len: usize,
    ) -> Result<SystemPcm<'a>, PcmFault> {
        let target = match path {
            Some(path) => target_at(host, alloc, path)?,
            None => PcmTarget::Stdout,
        };
        Ok(SystemPcm {
            rt: host.rt,
            is_unread: matches!(&target, PcmTarget::Fifo(_)),
            target,
            block_len,
            faults: LimitedStderr::new(host.rt),
        })
    }
}

impl SystemPcm<'_> {
    /// Returns the number of octets of a write of `most` octets that are below the limit of the output, if it has one.
    fn room(&self, most: usize) -> usize
        ensures few { result ≤ most }
    {
        match &self.target {
            PcmTarget::Stdout => room_at_stdout(self.rt, most, self.block_len),
            PcmTarget::Fifo(_) | PcmTarget::File(_) => most,
        }
    }
}

/// Opens the FIFO at a path, or creates a file there.
fn target_at<'a>(
    host: SystemHost<'a>,
    alloc: Global,
    path: &str,
) -> Result<PcmTarget<'a>, PcmFault> {
    if !is_fifo(host.rt, path) {
        return match CreatedFile::create(host, alloc, path) {
            Ok(file) => Ok(PcmTarget::File(file)),
            Err(CreateFault::Memory) => Err(PcmFault::Memory),
            Err(CreateFault::Exists) => Err(PcmFault::Exists),
            Err(CreateFault::NotCreated) => Err(PcmFault::NotCreated),
        };
    }
    match open_fifo(host.rt, path) {
        Ok(file) => Ok(PcmTarget::Fifo(file)),
        Err(error) => match host.note(&error) {
            ErrorKind::AlreadyExists => Err(PcmFault::Exists),
            _ => Err(PcmFault::NotCreated),
        },
    }
}

impl Write for SystemPcm<'_> {
    fn write(&mut self, buf: &[u8]) -> io::Result<usize> {
        let most = buf.len().min(MAX_WRITE);
        if let PcmTarget::File(file) = &mut self.target {
            return file.limited().write_units(&buf[..most], self.block_len);
        }
        let len = self.room(most);
        if len == 0 && !buf.is_empty() {
            return Err(too_large());
        }
        // The runtime ignores SIGPIPE from the program's start on, as Rust's does. So a write to a pipe that nobody
        // reads any more fails, and ends nothing. `os::write_no_sigpipe` is not used: it is linked with calls of child
        // processes, and the program has no handle for these.
        let count = libc::write(self.target.descriptor(), &buf[..len]);
        match usize::try_from(count) {
            Ok(count) => Ok(count.min(len)),
            Err(_) => Err(io::Error::from_raw_os_error(os::errno())),
        }
    }

    fn flush(&mut self) -> io::Result<()> {
        Ok(())
    }
}

impl PcmOutput for SystemPcm<'_> {
    fn space(&mut self, milliseconds: u32) -> PcmSpace {
        let mut polled = [pollfd {
            fd: self.target.descriptor(),
            events: POLLOUT,
            revents: 0,
        }];
        let timeout = i32::try_from(milliseconds).unwrap_or(i32::MAX);
        let count = libc::net::poll(&mut polled, timeout);
        if count < 0 && self.is_unread {
            // An error of poll(2) says nothing of the reader.
            return PcmSpace::Unread;
        }
        if count <= 0 {
            // A pipe that nobody reads is never full: it reports an error.
            self.is_unread = false;
            return PcmSpace::Full;
        }
        if polled[0].revents & POLLERR == 0 {
            // A descriptor that cannot be written is ready too: the write then says why.
            self.is_unread = false;
            return PcmSpace::Ready;
        }
        // A pipe reports an error exactly while nobody reads it.
        if self.is_unread {
            PcmSpace::Unread
        } else {
            PcmSpace::Closed
        }
    }

    fn report(&mut self, end: OutputEnd, blocks: u64) {
        report_output_end(&mut self.faults, OutputKind::Pcm, end, blocks);
    }
}

/// Returns true if there is a FIFO at a path, also by links.
pub(crate) fn is_fifo(rt: &HostRuntime, path: &str) -> bool {
    match fs::metadata(rt, path) {
        Ok(found) => found.file_type().is_fifo(),
        Err(_) => false,
    }
}

/// Opens a FIFO for writing without waiting for a reader. Returns an error of the kind `AlreadyExists` if something
/// else is there by now.
// For reading and writing first, which never waits. Then it has a reader, so that it can be opened for writing alone.
fn open_fifo(rt: &HostRuntime, path: &str) -> io::Result<fs::File> {
    let _both = open_existing(rt, path, true)?;
    let file = open_existing(rt, path, false)?;
    // Asked again, since the path may have become another one in the meantime.
    if !file.metadata()?.file_type().is_fifo() {
        return Err(io::Error::from(ErrorKind::AlreadyExists));
    }
    Ok(file)
}

/// Opens what is at a path for writing, and for reading too if `reads`.
fn open_existing(rt: &HostRuntime, path: &str, reads: bool) -> io::Result<fs::File> {
    let mut options = OpenOptions::new();
    options.read(reads);
    options.write(true);
    options.open(rt, path)
}
