//! The file of a record: its creation, and the cut of its end.
ghost use Rattle.std.specs.Prelude.{◌≡◌, IfOk, [], OnOk};
ghost use Rattle.live_io.specs.RecordFile.{Holds, IsCut};

use std::io;
use std::io::Write;
use studio_io::OutputEnd;

/// The error of a record that cannot be created.
#[derive(Clone, Copy, PartialEq, Eq)]
pub enum RecordFault {
    /// An allocation failed.
    Memory,
    /// There is a file at its path, or something else.
    Exists,
    /// The file cannot be created.
    NotCreated,
}

/// The file of a record.
pub trait RecordFile: Write {
    /// Cuts the file to its first `len` octets. Later writes go behind them.
    fn cut(&mut self, len: u64) -> io::Result<()>
        ensures octets { OnOk result (IsCut (Self.contents self.old) (Self.contents self.new) len) };

    /// Reports that the record ends before its run, behind this many datagrams. Called once at most, at that moment.
    fn report(&mut self, end: OutputEnd, datagrams: u64)
        ensures { Self.contents self.new ≡ Self.contents self.old };
}

/// A creator of a record's file. A run creates its record once all that can fail before it did not.
pub trait CreateRecord {
    /// The type of the file.
    type File: RecordFile + Send + Drop;

    /// Creates an empty file where nothing is. Returns `Memory` if an allocation fails, `Exists` if something is there,
    /// which stays as it is, and `NotCreated` if the file cannot be created for another reason.
    fn create(&self) -> Result<Self::File, RecordFault>
        ensures empty { IfOk result (λ file. Holds (Self.File.Write.contents file) []) };
}
