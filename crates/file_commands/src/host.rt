//! The host of the commands: its standard streams, and its files by their paths.
ghost use Rattle.std.specs.Prelude.{IfOk, []};
ghost use Rattle.wav_file.specs.File.{Holds};

use crate::fault::{CommandFault, FileClash};
use std::alloc::Global;
use std::io::{Read, Write};
use studio_run::ReadFault;
use wav_file::{CreateFile, FileFault, Overwrite};

/// The host of the commands: the types of its standard streams, and its files by their paths. The program implements it
/// over the system's files.
// One trait, so that a command has one type parameter: each bound that a call passes on costs time to prove. So it has
// only what commands over files need.
pub trait Host {
    /// Standard input.
    type Stdin: Read;

    /// Standard output.
    type Stdout: Write;

    /// Standard error.
    type Stderr: Write + Send + Drop;

    /// A file that is read: a capture.
    type Source: Read + Drop;

    /// A file that is written: a WAV file or a chart.
    type Target: Overwrite + Drop;

    /// Opens the file at a path for reading, from its start. Returns `ReadFault::Memory` if an allocation fails, and
    /// `ReadFault::Device` if the file cannot be opened.
    fn open(&self, path: &str) -> Result<Self::Source, ReadFault>;

    /// Returns the octets of the file at a path. Returns `ReadFault::Device` if the file cannot be read,
    /// `ReadFault::TooMany` if it is too long, and `ReadFault::Memory` if an allocation fails.
    fn read_all(&self, alloc: Global, path: &str) -> Result<Vec<u8>, ReadFault>;

    /// Creates an empty file at a path, or empties the one that is there. Returns `FileFault::NotCreated` if it cannot.
    fn create(&self, path: &str) -> Result<Self::Target, FileFault>
        ensures empty { IfOk result (λ file. Holds (Self.Target.Write.contents file) []) };

    /// Returns true if two paths lead to one file, also by links.
    fn is_same_file(&self, one: &str, other: &str) -> bool;
}

// `play_to_wav` and `list_to_wav` call `create` only once the trace is known to have no fault, so a run that fails
// before that leaves a file alone that is already at the path.
/// A path of the host's files, at which `create` makes the file.
#[derive(Clone, Copy)]
pub(crate) struct NamedFile<'a, H> {
    pub(crate) host: &'a H,
    pub(crate) path: &'a str,
}

impl<H: Host> CreateFile for NamedFile<'_, H> {
    type File = H::Target;

    fn create(&self) -> Result<H::Target, FileFault> {
        self.host.create(self.path)
    }
}

/// The path of the file that standard input is.
pub(crate) const STDIN_PATH: &str = "/dev/stdin";

/// Refuses to write a file that a command also reads. `word` says what the file is.
pub(crate) fn refuse_inputs<H: Host>(
    host: &H,
    word: &str,
    output: Option<&str>,
    inputs: &[&str],
    faults: &mut H::Stderr,
) -> Result<(), FileClash> {
    let Some(output) = output else {
        return Ok(());
    };
    for input in inputs {
        if host.is_same_file(output, *input) {
            begin_fault_line(word, output, faults);
            return Err(FileClash::OutputIsInput);
        }
    }
    Ok(())
}

/// Returns true if two paths, at which there may be nothing yet, name one file: in one folder and of one name, or by
/// links.
pub fn is_one_file<H: Host>(host: &H, one: &str, other: &str) -> bool {
    let (folder, name) = parts_of(one);
    let (other_folder, other_name) = parts_of(other);
    if name == other_name && (folder == other_folder || host.is_same_file(folder, other_folder)) {
        return true;
    }
    host.is_same_file(one, other)
}

/// Returns the folder of a path, and the name behind it.
fn parts_of(path: &str) -> (&str, &str) {
    match path.rsplit_once('/') {
        Some(("", name)) => ("/", name),
        Some((folder, name)) => (folder, name),
        None => (".", path),
    }
}

/// Writes what a file is and its path to `faults`, as the beginning of the line of a fault. If it cannot be written it
/// is lost, as a fault's line is.
pub(crate) fn begin_fault_line<E: Write>(word: &str, path: &str, faults: &mut E) {
    let _ = write!(faults, "{word} {path}: ");
}

/// Opens the capture at a path.
pub(crate) fn open_capture<H: Host>(host: &H, path: &str) -> Result<H::Source, CommandFault> {
    match host.open(path) {
        Ok(input) => Ok(input),
        Err(fault) => Err(CommandFault::of_capture(fault)),
    }
}

/// Returns the octets of the capture at a path.
pub(crate) fn read_capture<H: Host>(
    host: &H,
    alloc: Global,
    path: &str,
) -> Result<Vec<u8>, CommandFault> {
    match host.read_all(alloc, path) {
        Ok(octets) => Ok(octets),
        Err(fault) => Err(CommandFault::of_capture(fault)),
    }
}
