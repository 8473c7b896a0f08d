//! The files that a live run creates: each where nothing is, and gone again if the run does not begin.
ghost use Rattle.std.specs.Prelude.{◌≡◌, ◌↔◌, IsTrue};

use crate::SystemHost;
use crate::file_limit::LimitedFile;
use run_outputs::RunStart;
use std::alloc::Global;
use std::fs::Metadata;
use std::io::ErrorKind;
use std::os::fd::AsRawFd;
use std::os::unix::fs::MetadataExt;
use std::{fs, io};

/// Why a file was not created.
#[derive(Clone, Copy, PartialEq, Eq)]
pub(crate) enum CreateFault {
    /// An allocation failed.
    Memory,
    /// There is something at its path, which was not touched.
    Exists,
    /// The system did not create it.
    NotCreated,
}

/// A file that a live run created where nothing was. Nothing is written past the limit of its size.
///
/// If it is dropped before the run has begun, it is removed, unless something else is at its path by then. So a start
/// that failed can be made again.
pub(crate) struct CreatedFile<'a> {
    rt: &'a HostRuntime,
    start: &'a RunStart,
    path: String,
    file: LimitedFile,
}

impl<'a> CreatedFile<'a> {
    /// Creates the empty file at a path at which nothing is. If the system fails, its error is noted in the host.
    pub(crate) fn create(
        host: SystemHost<'a>,
        alloc: Global,
        path: &str,
    ) -> Result<CreatedFile<'a>, CreateFault> {
        // Before the file is created, so that a failed allocation leaves none behind.
        let Ok(kept) = String::from_str(alloc, path) else {
            return Err(CreateFault::Memory);
        };
        match fs::File::create_new(host.rt, path) {
            Ok(file) => Ok(CreatedFile {
                rt: host.rt,
                start: host.start,
                path: kept,
                file: LimitedFile::new(file),
            }),
            Err(error) => match host.note(&error) {
                ErrorKind::AlreadyExists => Err(CreateFault::Exists),
                _ => Err(CreateFault::NotCreated),
            },
        }
    }

    /// Returns the file and its limit.
    pub(crate) fn limited(&mut self) -> &mut LimitedFile {
        &mut self.file
    }

    /// Returns the file's descriptor.
    pub(crate) fn descriptor(&self) -> i32 {
        self.file.file().as_raw_fd()
    }

    /// Waits until all octets of the file are on its device.
    pub(crate) fn sync(&mut self) -> io::Result<()> {
        self.file.file().sync_data()
    }
}

impl Drop for CreatedFile<'_> {
    fn drop(self) {
        let CreatedFile {
            rt,
            start,
            path,
            file,
        } = self;
        if !start.has_begun() {
            let _ = remove(rt, path.as_str(), file.file());
        }
    }
}

/// Removes the file that is open, if it is still at this path.
// Compared while the file is open, so that no other file can have its inode.
fn remove(rt: &HostRuntime, path: &str, file: &fs::File) -> io::Result<()> {
    let created = identity_of(&file.metadata()?);
    let found = identity_of(&fs::symlink_metadata(rt, path)?);
    if is_one(created, found) {
        fs::remove_file(rt, path)?;
    }
    Ok(())
}

/// The numbers by which the system knows a file, as long as it is open or has a name.
#[derive(Clone, Copy)]
struct FileIdentity {
    device: u64,
    inode: u64,
}

/// Returns the identity of a file.
fn identity_of(file: &Metadata) -> FileIdentity {
    FileIdentity {
        device: file.dev(),
        inode: file.ino(),
    }
}

/// Returns true if two files are one.
fn is_one(created: FileIdentity, found: FileIdentity) -> bool
    ensures one { IsTrue result ↔ created ≡ found }
{
    created.device == found.device && created.inode == found.inode
}
