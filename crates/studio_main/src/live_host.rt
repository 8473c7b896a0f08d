//! The host of a live run: the host of the commands, and the files that a run creates.
ghost use Rattle.std.specs.Prelude.{IfOk, []};
ghost use Rattle.live_io.specs.RecordFile.{Holds};

use crate::explanation::SystemErrors;
use crate::kept_file::KeptFiles;
use crate::token_file::TokenFiles;
use file_commands::Host;
use live_io::{RecordFault, RecordFile};
use run_outputs::RunStart;
use std::alloc::{AllocError, Global};
use wav_file::{LiveWavFile, PcmFault, PcmOutput, WavFiles};

/// The host of a live run: the types of the files that it creates, by their paths.
pub(crate) trait LiveHost: Host + TokenFiles + KeptFiles + SystemErrors {
    /// The file of the record.
    type Record: RecordFile + Send + Drop;

    /// A WAV file of the mix.
    type WavFile: LiveWavFile + Send + Drop;

    /// The WAV files of the mix.
    type Audio: WavFiles<File = Self::WavFile> + Send + Drop;

    /// The output of the raw PCM.
    type Pcm: PcmOutput + Send + Drop;

    /// Returns true if there is anything at a path, a link too.
    fn has(&self, path: &str) -> bool;

    /// Returns the start of the run. A file that is created is removed when it is dropped before the run has begun.
    fn start(&self) -> &RunStart;

    /// Creates the empty file of a record at a path at which nothing is. Returns `Memory` if an allocation fails,
    /// `Exists` if something is there, which stays as it is, and `NotCreated` if the file cannot be created for another
    /// reason.
    fn create_record(&self, alloc: Global, path: &str) -> Result<Self::Record, RecordFault>
        ensures empty { IfOk result (λ file. Holds (Self.Record.Write.contents file) []) };

    /// Returns the WAV files of the mix, still to be created: one at this path, or, if the time of the first
    /// sample is given, one after another, each with its own time in its name. Returns `AllocError` if an allocation
    /// fails.
    fn wav_files(
        &self,
        alloc: Global,
        path: &str,
        begins: Option<u64>,
    ) -> Result<Self::Audio, AllocError>;

    /// Opens the output of the raw PCM: standard output if there is no path, or else the FIFO at the path, or a file
    /// that is created there, whose blocks have `block_len` octets. Does not wait for a reader. Returns `Memory` if an
    /// allocation fails, `Exists` if something is there that is no FIFO, which stays as it is, and `NotCreated` if the
    /// output cannot be opened.
    fn create_pcm(
        &self,
        alloc: Global,
        path: Option<&str>,
        block_len: usize,
    ) -> Result<Self::Pcm, PcmFault>;

    /// Returns true if there is a FIFO at a path, also by links.
    fn is_fifo(&self, path: &str) -> bool;

    /// Returns standard error once more.
    fn stderr(&self) -> Self::Stderr;
}
