//! The output of raw PCM that is written live: a pipe, a FIFO or a file.
ghost use Rattle.std.specs.Prelude.{◌≡◌};

use std::io::Write;
use studio_io::OutputEnd;

/// The error of a live run's raw PCM whose output cannot be opened.
#[derive(Clone, Copy, PartialEq, Eq)]
pub enum PcmFault {
    /// An allocation failed.
    Memory,
    /// There is something at its path that is no FIFO.
    Exists,
    /// The FIFO cannot be opened, or the file cannot be created.
    NotCreated,
}

/// The readiness of an output of raw PCM.
#[derive(Clone, Copy, PartialEq, Eq)]
pub enum PcmSpace {
    /// A write does not block.
    Ready,
    /// Its reader has not yet taken what was written.
    Full,
    /// It is a FIFO that nobody has opened for reading yet.
    Unread,
    /// Nobody reads it any more.
    Closed,
}

/// The output of a live run's raw PCM. Its `write` is called only while it is `Ready`, and then does not block: it may
/// write only a part of the octets.
pub trait PcmOutput: Write {
    /// Returns what the output is ready for. If it is full, waits until it is not, for this many milliseconds at most.
    fn space(&mut self, milliseconds: u32) -> PcmSpace
        ensures { Self.contents self.new ≡ Self.contents self.old };

    /// Reports that the output ends before its run, behind this many whole blocks. Called once at most.
    fn report(&mut self, end: OutputEnd, blocks: u64)
        ensures { Self.contents self.new ≡ Self.contents self.old };
}

/// A creator of a live run's output of raw PCM. A run creates it once all that can fail before it did not.
pub trait CreatePcm {
    /// The type of the output.
    type Pcm: PcmOutput + Send + Drop;

    /// Opens a FIFO or standard output, or creates a file where nothing is. It does not wait for a reader. A file ends
    /// with a whole block of `block_len` octets below the limit of its size. Returns `Memory` if an allocation fails,
    /// `Exists` if something else is there, which stays as it is, and `NotCreated` if the output cannot be opened.
    fn create_pcm(&self, block_len: usize) -> Result<Self::Pcm, PcmFault>;
}
