//! The WAV files of a live run's mix: their names, their creation, and the file that is written.
ghost use Rattle.std.specs.Prelude.{None};

use crate::SystemHost;
use crate::created_file::{CreateFault, CreatedFile};
use crate::output_end::report_output_end;
use crate::std_streams::LimitedStderr;
use std::alloc::{AllocError, Global};
use std::io::{Seek, SeekFrom, Write};
use std::{io, str};
use studio_io::{OutputEnd, OutputKind};
use wav_file::{LiveWavFault, LiveWavFile, WavFiles, time_stamp};

/// Returns the path of the file whose first sample is of this time, in sampling instants since 1970 in UTC: for
/// `night.wav` or `night` as `night-20261128T174501Z.wav`. Returns `AllocError` if an allocation fails.
pub(crate) fn part_path(alloc: Global, path: &str, at: u64) -> Result<String, AllocError> {
    let stem = path.strip_suffix(".wav").unwrap_or(path);
    let stamp = time_stamp(at);
    // A stamp is ASCII.
    let stamp = str::from_utf8(stamp.as_slice()).unwrap_or("");
    format!(in alloc; "{stem}-{stamp}.wav")
}

/// The WAV files of a live run's mix, at a path or at paths with their times.
#[derive(Drop)]
pub(crate) struct SystemWavFiles<'a> {
    host: SystemHost<'a>,
    alloc: Global,
    path: String,
    /// The time of the first sample, if each file has its time in its name.
    begins: Option<u64>,
}

impl<'a> SystemWavFiles<'a> {
    /// Returns the files at a path, still to be created.
    pub(crate) fn new(
        host: SystemHost<'a>,
        alloc: Global,
        path: &str,
        begins: Option<u64>,
    ) -> Result<SystemWavFiles<'a>, AllocError> {
        Ok(SystemWavFiles {
            host,
            alloc,
            path: String::from_str(alloc, path)?,
            begins,
        })
    }

    /// Creates the file whose first sample is of this time.
    fn create_part(&self, at: u64) -> Result<SystemAudio<'a>, LiveWavFault> {
        match part_path(self.alloc, self.path.as_str(), at) {
            Ok(path) => create_audio(self.host, self.alloc, path.as_str()),
            Err(_) => Err(LiveWavFault::Memory),
        }
    }
}

impl<'a> WavFiles for SystemWavFiles<'a> {
    type File = SystemAudio<'a>;

    // No contract can say what the system keeps.
    ghost closed = { λ _. None };

    fn first(&mut self) -> Result<SystemAudio<'a>, LiveWavFault> {
        match self.begins {
            Some(at) => self.create_part(at),
            None => create_audio(self.host, self.alloc, self.path.as_str()),
        }
    }

    fn next(&mut self, file: &mut SystemAudio<'a>, at: u64) -> Result<(), LiveWavFault> {
        // Not for a run of one file, which has space for more blocks than a run has.
        *file = self.create_part(at)?;
        Ok(())
    }
}

/// Creates the empty file at a path at which nothing is.
fn create_audio<'a>(
    host: SystemHost<'a>,
    alloc: Global,
    path: &str,
) -> Result<SystemAudio<'a>, LiveWavFault> {
    match CreatedFile::create(host, alloc, path) {
        Ok(file) => Ok(SystemAudio {
            file,
            faults: LimitedStderr::new(host.rt),
        }),
        Err(CreateFault::Memory) => Err(LiveWavFault::Memory),
        Err(CreateFault::Exists) => Err(LiveWavFault::Exists),
        Err(CreateFault::NotCreated) => Err(LiveWavFault::NotCreated),
    }
}

/// The WAV file of a live run's mix, which reports its end on standard error.
#[derive(Drop)]
pub(crate) struct SystemAudio<'a> {
    file: CreatedFile<'a>,
    faults: LimitedStderr<'a>,
}

impl Write for SystemAudio<'_> {
    fn write(&mut self, buf: &[u8]) -> io::Result<usize> {
        self.file.limited().write(buf)
    }

    fn flush(&mut self) -> io::Result<()> {
        self.file.limited().flush()
    }
}

impl LiveWavFile for SystemAudio<'_> {
    // No contract can say what a device holds.
    ghost synced = { λ _. Unit {0} };

    fn sync(&mut self) -> io::Result<()> {
        self.file.sync()
    }

    fn overwrite(&mut self, octets: &[u8]) -> io::Result<()> {
        let file = self.file.limited();
        file.seek(SeekFrom::Start(0))?;
        file.write_all(octets)?;
        file.seek(SeekFrom::End(0))?;
        Ok(())
    }

    fn cut(&mut self, len: u64) -> io::Result<()> {
        self.file.limited().cut(len)
    }

    fn report(&mut self, end: OutputEnd, blocks: u64) {
        report_output_end(&mut self.faults, OutputKind::Wav, end, blocks);
    }
}
