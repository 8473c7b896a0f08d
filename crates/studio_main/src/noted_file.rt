//! A file that is read, whose errors the host keeps.
use crate::SystemHost;
use std::io::Read;
use std::{fs, io};

/// A file that is read. The host keeps the number of the error with which a read fails.
#[derive(Drop)]
pub(crate) struct NotedFile<'a> {
    host: SystemHost<'a>,
    file: fs::File,
}

impl<'a> NotedFile<'a> {
    /// Returns a file that was opened, of which the host keeps the number of the error with which a read fails.
    pub(crate) fn of(host: SystemHost<'a>, file: fs::File) -> NotedFile<'a> {
        NotedFile { host, file }
    }

    /// Opens the file at a path for reading. The host keeps the number of the error with which this fails.
    pub(crate) fn open(host: SystemHost<'a>, path: &str) -> io::Result<NotedFile<'a>> {
        match fs::open(host.runtime(), path) {
            Ok(file) => Ok(NotedFile::of(host, file)),
            Err(error) => {
                host.note(&error);
                Err(error)
            }
        }
    }
}

impl Read for NotedFile<'_> {
    fn read(&mut self, buf: &mut [u8]) -> io::Result<usize> {
        match self.file.read(buf) {
            Ok(count) => Ok(count),
            Err(error) => {
                self.host.note(&error);
                Err(error)
            }
        }
    }
}
