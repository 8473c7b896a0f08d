//! The file of audio that is written live: its creation, its sizes, and the cut of its end.
ghost use Rattle.std.specs.Prelude.{◌≡◌, [], ℕ, List, Option, IfOk, OnOk, OnErr};
ghost use Rattle.wav_file.specs.File.{Becomes, Holds, Overwrites, OverwritesPart};
ghost use Rattle.wav_file.specs.LiveFile.{Closes, IsCut};

use std::alloc::{AllocError, Global};
use std::io;
use std::io::Write;
use studio_io::OutputEnd;

/// The error of a live run's WAV file that cannot be created.
#[derive(Clone, Copy, PartialEq, Eq)]
pub enum LiveWavFault {
    /// An allocation failed.
    Memory,
    /// There is a file at its path, or something else.
    Exists,
    /// The file cannot be created.
    NotCreated,
}

/// The file of a live run's audio.
pub trait LiveWavFile: Write {
    /// Holds while all octets of the file are on its device.
    ghost synced: { Self → Type 0 };

    /// Waits until all octets of the file are on its device, as fdatasync(2) does.
    fn sync(&mut self) -> io::Result<()>
        ensures synced { OnOk result (synced self.new) }
        ensures same { Self.contents self.new ≡ Self.contents self.old };

    /// Writes these octets over the first ones. Later writes go to the end again. After an error a prefix of them was
    /// written.
    // Only once all octets are on the device: after a power failure the sizes never count samples that are not there.
    fn overwrite(&mut self, octets: &[u8]) -> io::Result<()>
        requires synced { synced self.old }
        ensures bytes { OnOk result (Overwrites (Self.contents self.old) (Self.contents self.new) octets.now) }
        ensures part { OnErr result (OverwritesPart (Self.contents self.old) (Self.contents self.new) octets.now) };

    /// Cuts the file to its first `len` octets. Later writes go behind them.
    fn cut(&mut self, len: u64) -> io::Result<()>
        ensures octets { OnOk result (IsCut (Self.contents self.old) (Self.contents self.new) len) };

    /// Reports that the file ends before its run, behind this many blocks. Called once at most, when the file is
    /// finished.
    fn report(&mut self, end: OutputEnd, blocks: u64)
        ensures { Self.contents self.new ≡ Self.contents self.old };
}

/// The files of a live run's audio, one after another. Each but the first is created when the one before it is whole.
pub trait WavFiles {
    /// The type of a file.
    type File: LiveWavFile + Drop;

    /// The octets of the files that were closed, in order, if they are known.
    ghost closed: { Self → Option (List (List ℕ)) };

    /// Creates the first file, where nothing is. Returns `Memory` if an allocation fails, `Exists` if something is
    /// there, which stays as it is, and `NotCreated` if the file cannot be created for another reason.
    fn first(&mut self) -> Result<Self::File, LiveWavFault>
        ensures empty { IfOk result (λ file. Holds (Self.File.Write.contents file) []) };

    /// Creates an empty file where nothing is, whose first sample is of this time, in sampling instants since 1970 in
    /// UTC, and closes the one before it. Returns an error as `first` does. The file before it stays open then.
    fn next(&mut self, file: &mut Self::File, at: u64) -> Result<(), LiveWavFault>
        ensures empty { OnOk result
            (Becomes (Self.File.Write.contents file.old) (Self.File.Write.contents file.new) []) }
        ensures closes { OnOk result
            (Closes (closed self.old) (closed self.new) (Self.File.Write.contents file.old)) }
        ensures same { OnErr result (Self.File.Write.contents file.new ≡ Self.File.Write.contents file.old) }
        ensures kept { OnErr result (closed self.new ≡ closed self.old) };
}

/// A creator of a live run's WAV files. A run creates the first of them once all that can fail before it did not.
pub trait CreateLiveWav {
    /// The type of a file.
    // Here, where a file goes to the thread that writes it, and not in `WavFiles`: in a method of a trait the toolchain
    // does not follow that an associated type may go to another thread.
    type WavFile: LiveWavFile + Send + Drop;

    /// The type of the files.
    type Audio: WavFiles<File = Self::WavFile> + Send + Drop;

    /// Returns the files. None is created yet. Returns `AllocError` if an allocation fails.
    fn wav_files(&self, alloc: Global) -> Result<Self::Audio, AllocError>;
}
