//! The file in which a run keeps its gains: how it is known, locked and replaced.
//!
//! FILE is never written in place. Each text goes to FILE.new, is synced, and is renamed over FILE: after a crash FILE
//! has the old text or the new one, whole. A lock on FILE.lock keeps a second run from the file. The system drops the
//! lock with the process, so that a run that was killed leaves none.
use crate::file_limit::LimitedFile;
use crate::std_streams::LimitedStderr;
use live_gains::KEPT_LINE;
use live_io::{STDERR, is_ready};
use std::alloc::{AllocError, Global};
use std::fs::OpenOptions;
use std::io::{ErrorKind, Read, Write};
use std::{fs, io};

/// The number of octets of `KEPT_LINE`.
const KEPT_LEN: usize = 19;

/// Why a run cannot keep its gains in a file.
#[derive(Clone, Copy, PartialEq, Eq)]
pub(crate) enum KeptFault {
    /// An allocation failed.
    Memory,
    /// There is something at the path that no run wrote.
    Foreign,
    /// Another run keeps its gains in the file.
    Locked,
    /// The file that is there cannot be read: the system's error number, or 0 if there is none.
    Unread(i32),
}

impl From<AllocError> for KeptFault {
    fn from(_fault: AllocError) -> KeptFault {
        KeptFault::Memory
    }
}

/// The host's files in which gains are kept.
pub(crate) trait KeptFiles {
    /// A file in which a run keeps its gains.
    type Kept: KeptFile + Send + Drop;

    /// Returns the file at a path, which is locked for this run. Nothing is written to it.
    ///
    /// Returns `Foreign` if something is there whose first line is not `KEPT_LINE`, `Unread` if it cannot be read,
    /// `Locked` if another run has the lock, and `Memory` if an allocation fails. A lock that cannot be taken for
    /// another reason, as in a folder that cannot be written, is no error here: each `replace` tries it again.
    fn open_kept(&self, alloc: Global, path: &str) -> Result<Self::Kept, KeptFault>;
}

/// A file in which a run keeps its gains.
pub(crate) trait KeptFile {
    /// Replaces the file by one with this text. After an error it has the text that it had.
    fn replace(&mut self, text: &[u8]) -> io::Result<()>;

    /// Writes to standard error that the gains are not kept, and why.
    fn report(&mut self, error: &io::Error);
}

/// A file of the system in which a run keeps its gains.
#[derive(Drop)]
pub(crate) struct SystemKept<'a> {
    rt: &'a HostRuntime,
    path: String,
    /// The path of the file that a text is written to before it takes the place of the old one.
    new_path: String,
    lock_path: String,
    /// The file that is locked, as long as it is open.
    lock: Option<fs::File>,
    faults: LimitedStderr<'a>,
}

impl<'a> SystemKept<'a> {
    /// Returns the file at a path, as `open_kept` does.
    pub(crate) fn open(
        rt: &'a HostRuntime,
        alloc: Global,
        path: &str,
    ) -> Result<SystemKept<'a>, KeptFault> {
        let mut kept = SystemKept {
            rt,
            path: String::from_str(alloc, path)?,
            new_path: format!(in alloc; "{path}.new")?,
            lock_path: format!(in alloc; "{path}.lock")?,
            lock: None,
            faults: LimitedStderr::new(rt),
        };
        // Before the lock, so that no file is created next to one that a user wrote.
        refuse_foreign(rt, path)?;
        match kept.take_lock() {
            Err(error) if error.kind() == ErrorKind::WouldBlock => Err(KeptFault::Locked),
            _ => Ok(kept),
        }
    }

    /// Takes the lock, unless this run has it.
    fn take_lock(&mut self) -> io::Result<()> {
        if self.lock.is_some() {
            return Ok(());
        }
        let mut options = OpenOptions::new();
        options.write(true).create(true);
        let file = options.open(self.rt, self.lock_path.as_str())?;
        file.try_lock()?;
        self.lock = Some(file);
        Ok(())
    }

    /// Writes a text to the new file, and puts it in the place of the old one.
    fn put(&self, text: &[u8]) -> io::Result<()> {
        write_new_file(self.rt, self.new_path.as_str(), text)?;
        fs::rename(self.rt, self.new_path.as_str(), self.path.as_str())
    }

    /// Removes the new file, if there is one.
    fn remove_new(&self) {
        let _ = fs::remove_file(self.rt, self.new_path.as_str());
    }
}

impl KeptFile for SystemKept<'_> {
    fn replace(&mut self, text: &[u8]) -> io::Result<()> {
        self.take_lock()?;
        // One that a run left which was killed while it wrote.
        self.remove_new();
        let done = self.put(text);
        if done.is_err() {
            self.remove_new();
        }
        done
    }

    fn report(&mut self, error: &io::Error) {
        // As the lines of outputs that end: a reader who has stopped keeps no run from its end.
        if !is_ready(STDERR, libc::net::POLLOUT) {
            return;
        }
        let path = self.path.as_str();
        let _ = writeln!(self.faults, "device: keep-gains {path}: {error}");
    }
}

/// Refuses what is at a path, if something is there that no run wrote.
fn refuse_foreign(rt: &HostRuntime, path: &str) -> Result<(), KeptFault> {
    match fs::metadata(rt, path) {
        // Before it is opened, since opening a named pipe waits for its other end.
        Ok(found) if !found.is_file() => Err(KeptFault::Foreign),
        Ok(_) => match has_kept_line(rt, path) {
            Ok(true) => Ok(()),
            Ok(false) => Err(KeptFault::Foreign),
            Err(error) => Err(KeptFault::Unread(error.raw_os_error().unwrap_or(0))),
        },
        // Nothing is there yet, or the first text will say why it cannot be written.
        Err(_) => Ok(()),
    }
}

/// Returns true if the first line of a file is `KEPT_LINE`.
fn has_kept_line(rt: &HostRuntime, path: &str) -> io::Result<bool> {
    let mut file = fs::open(rt, path)?;
    let mut front = [0u8; KEPT_LEN];
    match file.read_exact(&mut front) {
        Ok(()) => Ok(front.as_slice() == KEPT_LINE.as_bytes()),
        Err(error) if error.kind() == ErrorKind::UnexpectedEof => Ok(false),
        Err(error) => Err(error),
    }
}

/// Writes a text to a file that is created at a path, and waits until it is on its device.
fn write_new_file(rt: &HostRuntime, path: &str, text: &[u8]) -> io::Result<()> {
    let mut file = LimitedFile::new(fs::File::create_new(rt, path)?);
    file.write_all(text)?;
    file.file().sync_data()
}
