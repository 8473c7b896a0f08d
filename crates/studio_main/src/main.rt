//! The program `darbexum`: the live command, exit statuses and the host's files.
//!
//! `main` collects the words of the command line. `run` is the whole after that: it parses the words
//! by `command_line`, runs the command, and returns the exit status. `file_commands` runs a command
//! over files, and `live_command` the live command, whose files are those of `run_files` on a
//! `LiveHost`. A `ProgramFault` has the line and the exit status of every fault, and `explanation` what
//! a live run adds to it. `opening` opens the studio of a live run, with the clocks at that moment, and
//! `begun_studio` begins it with the gains of a file. `opening_changes` has these gains for the record,
//! and `keeper` keeps the gains of the run in a `kept_file`.
//! `SystemHost` opens files by path, those that are read as a `NotedFile`. `unread_file` explains a file that
//! a command cannot read. `pcm_output` opens the output of raw PCM, and `token_file` reads the token
//! for the control of gains. `wav_files` has the WAV files of a live run. A `CreatedFile` is removed if
//! its run does not begin. `file_limit` keeps files below the limit of their size, and `std_streams`
//! standard output and standard error. `output_end` writes the line of an output that ends before its run,
//! `left_out_lines` those of the datagrams that a live run left out, and `live_lines` all others of a
//! live run. `service` reports a run to its service manager, by its `notify_socket`.
//! `std_fds` opens the standard descriptors that are closed, before anything else. `terminal_help` has
//! the help for a start by hand: without words, and behind a fault.
#![tactic(auto)]

mod begun_studio;
mod created_file;
mod explanation;
mod fault;
mod file_limit;
mod keeper;
mod kept_file;
mod left_out_lines;
mod live_command;
mod live_host;
mod live_lines;
mod noted_file;
mod notify_socket;
mod opening;
mod opening_changes;
mod output_end;
mod pcm_output;
mod program;
mod run_files;
mod service;
mod std_fds;
mod std_streams;
mod terminal_help;
mod token_file;
mod unread_file;
mod wav_files;

use crate::created_file::{CreateFault, CreatedFile};
use crate::explanation::SystemErrors;
use crate::fault::ProgramFault;
use crate::file_limit::LimitedFile;
use crate::kept_file::{KeptFault, KeptFiles, SystemKept};
use crate::live_host::LiveHost;
use crate::noted_file::NotedFile;
use crate::output_end::report_output_end;
use crate::pcm_output::SystemPcm;
use crate::program::run;
use crate::std_fds::open_missing_fds;
use crate::std_streams::{LimitedStderr, LimitedStdout};
use crate::token_file::{TokenFiles, open_private};
use crate::wav_files::{SystemAudio, SystemWavFiles};
use file_commands::{CommandFault, Host};
use live_io::{RecordFault, RecordFile};
use run_outputs::RunStart;
use std::alloc::{AllocError, Global};
use std::env::Args;
use std::io::{ErrorKind, Stdin, Write};
use std::os::unix::fs::MetadataExt;
use std::process::ExitCode;
use std::rt::Env;
use std::sync::atomic::{AtomicI32, Ordering};
use std::{env, fs, io};
use studio_io::{OutputEnd, OutputKind};
use studio_run::{ReadFault, read_octets};
use wav_file::{FileFault, PcmFault, SeekFile};

/// The system as the host of the commands.
#[derive(Clone, Copy)]
pub(crate) struct SystemHost<'a> {
    rt: &'a HostRuntime,
    /// The system's number of the error of the last file that could not be created, opened or read; 0 if there was
    /// none.
    // An atomic, since the host is shared.
    error: &'a AtomicI32,
    /// The start of the live run, if the command is one.
    start: &'a RunStart,
}

impl<'a> SystemHost<'a> {
    /// Returns the runtime.
    pub(crate) fn runtime(&self) -> &'a HostRuntime {
        self.rt
    }

    /// Keeps the number of an error, and returns its kind.
    pub(crate) fn note(&self, error: &io::Error) -> ErrorKind {
        self.error
            .store(error.raw_os_error().unwrap_or(0), Ordering::SeqCst);
        error.kind()
    }
}

impl SystemErrors for SystemHost<'_> {
    fn last_error(&self) -> i32 {
        self.error.load(Ordering::SeqCst)
    }
}

impl<'a> Host for SystemHost<'a> {
    type Stdin = Stdin;

    type Stdout = LimitedStdout<'a>;

    type Stderr = LimitedStderr<'a>;

    type Source = NotedFile<'a>;

    type Target = SeekFile<LimitedFile>;

    fn open(&self, path: &str) -> Result<NotedFile<'a>, ReadFault> {
        match NotedFile::open(*self, path) {
            Ok(file) => Ok(file),
            Err(_) => Err(ReadFault::Device),
        }
    }

    fn read_all(&self, alloc: Global, path: &str) -> Result<Vec<u8>, ReadFault> {
        let mut file = self.open(path)?;
        read_octets(alloc, &mut file)
    }

    fn create(&self, path: &str) -> Result<SeekFile<LimitedFile>, FileFault> {
        match fs::create(self.rt, path) {
            Ok(file) => Ok(SeekFile::new(LimitedFile::new(file))),
            Err(_) => Err(FileFault::NotCreated),
        }
    }

    fn is_same_file(&self, one: &str, other: &str) -> bool {
        match (fs::metadata(self.rt, one), fs::metadata(self.rt, other)) {
            (Ok(one), Ok(other)) => one.dev() == other.dev() && one.ino() == other.ino(),
            _ => false,
        }
    }
}

impl<'a> LiveHost for SystemHost<'a> {
    type Record = SystemRecord<'a>;

    type WavFile = SystemAudio<'a>;

    type Audio = SystemWavFiles<'a>;

    type Pcm = SystemPcm<'a>;

    fn has(&self, path: &str) -> bool {
        // Not `exists`, which follows a link: a link that leads nowhere is refused by `create_record` too.
        fs::symlink_metadata(self.rt, path).is_ok()
    }

    fn start(&self) -> &RunStart {
        self.start
    }

    fn create_record(&self, alloc: Global, path: &str) -> Result<SystemRecord<'a>, RecordFault> {
        match CreatedFile::create(*self, alloc, path) {
            Ok(file) => Ok(SystemRecord {
                file,
                faults: self.stderr(),
            }),
            Err(CreateFault::Memory) => Err(RecordFault::Memory),
            Err(CreateFault::Exists) => Err(RecordFault::Exists),
            Err(CreateFault::NotCreated) => Err(RecordFault::NotCreated),
        }
    }

    fn wav_files(
        &self,
        alloc: Global,
        path: &str,
        begins: Option<u64>,
    ) -> Result<SystemWavFiles<'a>, AllocError> {
        SystemWavFiles::new(*self, alloc, path, begins)
    }

    fn create_pcm(
        &self,
        alloc: Global,
        path: Option<&str>,
        block_len: usize,
    ) -> Result<SystemPcm<'a>, PcmFault> {
        SystemPcm::open(*self, alloc, path, block_len)
    }

    fn is_fifo(&self, path: &str) -> bool {
        pcm_output::is_fifo(self.rt, path)
    }

    fn stderr(&self) -> LimitedStderr<'a> {
        LimitedStderr::new(self.rt)
    }
}

impl TokenFiles for SystemHost<'_> {
    fn read_private(&self, alloc: Global, path: &str) -> Result<Vec<u8>, ReadFault> {
        match open_private(self.rt, path) {
            Ok(Some(file)) => read_octets(alloc, &mut NotedFile::of(*self, file)),
            Ok(None) => Err(ReadFault::Device),
            Err(error) => {
                self.note(&error);
                Err(ReadFault::Device)
            }
        }
    }
}

impl<'a> KeptFiles for SystemHost<'a> {
    type Kept = SystemKept<'a>;

    fn open_kept(&self, alloc: Global, path: &str) -> Result<SystemKept<'a>, KeptFault> {
        SystemKept::open(self.rt, alloc, path)
    }
}

/// The file of a record, which reports its end on standard error.
#[derive(Drop)]
struct SystemRecord<'a> {
    file: CreatedFile<'a>,
    faults: LimitedStderr<'a>,
}

impl Write for SystemRecord<'_> {
    fn write(&mut self, buf: &[u8]) -> io::Result<usize> {
        self.file.limited().write(buf)
    }

    fn flush(&mut self) -> io::Result<()> {
        self.file.limited().flush()
    }
}

impl RecordFile for SystemRecord<'_> {
    fn cut(&mut self, len: u64) -> io::Result<()> {
        self.file.limited().cut(len)
    }

    fn report(&mut self, end: OutputEnd, datagrams: u64) {
        report_output_end(&mut self.faults, OutputKind::Record, end, datagrams);
    }
}

fn main(rt: HostRuntime) -> ExitCode {
    // Before the first file or socket, which would else get the descriptor of a standard stream that is closed.
    open_missing_fds();
    let alloc = rt.alloc();
    let mut faults = LimitedStderr::new(&rt);
    let status = match program_args(&rt) {
        Ok(words) => run(
            &rt,
            alloc,
            words.as_slice(),
            &mut rt.stdin(),
            &mut LimitedStdout::new(&rt),
            &mut faults,
            &SystemHost {
                rt: &rt,
                error: &AtomicI32::new(0),
                start: &RunStart::new(),
            },
        ),
        Err(fault) => fault.report(&mut faults),
    };
    ExitCode::from(status)
}

/// Returns the words of the command line, without the program's name.
fn program_args(rt: &(impl Env + AllocGlobal)) -> Result<Vec<String>, ProgramFault> {
    match env::args(rt) {
        Ok(all) => words_in(rt.alloc(), all),
        Err(fault) => Err(fault_of(fault.kind())),
    }
}

/// Returns all words but the first, which is the program's name.
fn words_in(alloc: Global, all: Args) -> Result<Vec<String>, ProgramFault> {
    let mut all = all;
    let _program = all.next();
    let mut words = Vec::new(alloc);
    for word in all {
        words.push(word)?;
    }
    Ok(words)
}

/// Returns the fault of a command line that could not be read.
fn fault_of(kind: ErrorKind) -> ProgramFault {
    match kind {
        ErrorKind::OutOfMemory => ProgramFault::Command(CommandFault::Memory),
        _ => ProgramFault::Usage,
    }
}
