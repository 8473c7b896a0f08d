//! The creation of a file, and writers whose first octets can be overwritten.
ghost use Rattle.std.specs.Prelude.{IfOk, [], OnErr, OnOk};
ghost use Rattle.wav_file.specs.File.{Holds, Overwrites, OverwritesPart};

use crate::fault::FileFault;
use std::io;
use std::io::{Seek, SeekFrom, Write};

/// A creator of files. A run creates its file last, when only a write can still fail.
pub trait CreateFile {
    /// The type of the file.
    type File: Overwrite + Drop;

    /// Creates an empty file. Returns `NotCreated` if it can't.
    fn create(&self) -> Result<Self::File, FileFault>
        ensures empty { IfOk result (λ file. Holds (Self.File.Write.contents file) []) };
}

/// A writer whose first octets can be written over, as those of a file can.
pub trait Overwrite: Write {
    /// Writes these octets over the first ones. Later writes go to the end again. After an error a prefix of them was
    /// written.
    fn overwrite(&mut self, octets: &[u8]) -> io::Result<()>
        ensures bytes { OnOk result (Overwrites (Self.contents self.old) (Self.contents self.new) octets.now) }
        ensures part { OnErr result (OverwritesPart (Self.contents self.old) (Self.contents self.new) octets.now) };
}

/// A file, or another writer that can seek. Contracts don't know its octets.
#[derive(Drop)]
pub struct SeekFile<F> {
    file: F,
}

impl<F: Write + Seek> SeekFile<F> {
    /// Returns an `Overwrite` over an empty file.
    pub fn new(file: F) -> Self {
        SeekFile { file }
    }
}

impl<F: Write + Seek> Write for SeekFile<F> {
    fn write(&mut self, buf: &[u8]) -> io::Result<usize> {
        self.file.write(buf)
    }

    fn flush(&mut self) -> io::Result<()> {
        self.file.flush()
    }
}

impl<F: Write + Seek> Overwrite for SeekFile<F> {
    fn overwrite(&mut self, octets: &[u8]) -> io::Result<()> {
        self.file.seek(SeekFrom::Start(0))?;
        self.file.write_all(octets)?;
        self.file.seek(SeekFrom::End(0))?;
        Ok(())
    }
}
