//! The files of a live run: the paths at which it creates them, and the faults of these paths.
use crate::explanation::{Explanation, Reason};
use crate::fault::ProgramFault;
use crate::kept_file::{KeptFault, KeptFiles};
use crate::live_host::LiveHost;
use crate::wav_files::part_path;
use command_line::LiveArgs;
use file_commands::{CommandFault, Host, is_one_file};
use live_audio::{AudioParts, RawPcmOutput, WavOutput};
use live_io::{CreateRecord, RecordFault, RecordOutput};
use live_run::LiveFault;
use std::alloc::{AllocError, Global};
use studio_io::{OutputKind, RunProgress};
use wav_file::{CreateLiveWav, CreatePcm, PcmFault};

/// A path of the host's files, at which a run creates a file.
#[derive(Drop)]
pub(crate) struct RunPath<'h, 'p, H> {
    host: &'h H,
    alloc: Global,
    path: &'p str,
    /// The time of the first sample of the WAV files, if each has its time in its name.
    begins: Option<u64>,
}

/// The paths at which a run creates its files, each if it is wanted.
#[derive(Drop)]
pub(crate) struct RunPaths<'h, 'p, H> {
    record: Option<RunPath<'h, 'p, H>>,
    wav: Option<RunPath<'h, 'p, H>>,
    pcm: Option<RunPath<'h, 'p, H>>,
    /// The division of the mix into WAV files, if it is divided.
    parts: Option<AudioParts>,
}

/// The outputs of a run, each if it is wanted.
type RunOutputs<'a, P> = (
    Option<RecordOutput<'a, P>>,
    (Option<WavOutput<'a, P>>, Option<RawPcmOutput<'a, P>>),
);

impl<'h, 'p, H> RunPaths<'h, 'p, H> {
    /// Returns the outputs that are written to these files, and set this progress.
    pub(crate) fn outputs<'a>(
        self,
        progress: &'a RunProgress,
    ) -> RunOutputs<'a, RunPath<'h, 'p, H>> {
        let RunPaths {
            record,
            wav,
            pcm,
            parts,
        } = self;
        let record = record.map(|creator| RecordOutput {
            creator,
            progress: progress.of(OutputKind::Record),
        });
        let wav = wav.map(|creator| WavOutput {
            creator,
            parts,
            progress: progress.of(OutputKind::Wav),
        });
        let pcm = pcm.map(|creator| RawPcmOutput {
            creator,
            progress: progress.of(OutputKind::Pcm),
        });
        (record, (wav, pcm))
    }
}

/// Returns the path that the options name for the output of a kind, if they name one.
pub(crate) fn path_of<'p>(kind: OutputKind, args: LiveArgs<'p>) -> Option<&'p str> {
    match kind {
        OutputKind::Record => args.record,
        OutputKind::Wav => args.wav,
        OutputKind::Pcm => args.pcm,
    }
}

impl<H: LiveHost> CreateRecord for RunPath<'_, '_, H> {
    type File = H::Record;

    fn create(&self) -> Result<H::Record, RecordFault> {
        self.host.create_record(self.alloc, self.path)
    }
}

impl<H: LiveHost> CreateLiveWav for RunPath<'_, '_, H> {
    type WavFile = H::WavFile;

    type Audio = H::Audio;

    fn wav_files(&self, alloc: Global) -> Result<H::Audio, AllocError> {
        self.host.wav_files(alloc, self.path, self.begins)
    }
}

impl<H: LiveHost> CreatePcm for RunPath<'_, '_, H> {
    type Pcm = H::Pcm;

    fn create_pcm(&self, block_len: usize) -> Result<H::Pcm, PcmFault> {
        let path = file_of(self.path);
        self.host.create_pcm(self.alloc, path, block_len)
    }
}

/// Returns the path of raw PCM, or `None` if it is `-`, which is standard output.
fn file_of(path: &str) -> Option<&str> {
    if path == "-" { None } else { Some(path) }
}

/// Returns the file in which the run keeps its gains, if it keeps them. The fault of a file is explained.
pub(crate) fn kept_file_of<H: LiveHost>(
    alloc: Global,
    host: &H,
    args: LiveArgs<'_>,
) -> Result<Option<H::Kept>, ProgramFault> {
    let Some(path) = args.keep_gains else {
        return Ok(None);
    };
    let reason = match host.open_kept(alloc, path) {
        Ok(file) => return Ok(Some(file)),
        Err(KeptFault::Memory) => return Err(ProgramFault::Command(CommandFault::Memory)),
        Err(KeptFault::Foreign) => Reason::Foreign,
        Err(KeptFault::Locked) => Reason::Locked,
        Err(KeptFault::Unread(code)) => Reason::System(code),
    };
    let path = String::from_str(alloc, path)?;
    Err(ProgramFault::KeepGains(Explanation::File(path, reason)))
}

/// Returns the paths of the files that are wanted, for a mix that is divided into these parts. Each of their WAV files
/// has the time of its first sample in its name. Returns a fault if something is at one of them, other than a FIFO for
/// raw PCM, if two of them are one file, or if an allocation fails.
pub(crate) fn files_of<'h, 'p, H: LiveHost>(
    alloc: Global,
    host: &'h H,
    args: LiveArgs<'p>,
    parts: Option<AudioParts>,
) -> Result<RunPaths<'h, 'p, H>, ProgramFault> {
    let begins = parts.map(|parts| parts.at);
    match (args.wav, begins) {
        (Some(path), Some(at)) => {
            let first = part_path(alloc, path, at)?;
            refuse_files(host, args, Some(first.as_str()))?;
        }
        _ => refuse_files(host, args, args.wav)?,
    }
    let place = |path| RunPath {
        host,
        alloc,
        path,
        begins,
    };
    Ok(RunPaths {
        record: args.record.map(place),
        wav: args.wav.map(place),
        pcm: args.pcm.map(place),
        parts,
    })
}

/// Refuses the wanted files if something is at one of their paths, other than a FIFO for raw PCM, or two of them are
/// one file. `wav` is the path of the first WAV file.
fn refuse_files<H: LiveHost>(
    host: &H,
    args: LiveArgs<'_>,
    wav: Option<&str>,
) -> Result<(), ProgramFault> {
    let pcm = args.pcm.and_then(file_of);
    refuse_one_place(host, args.record, wav, "--record and --wav")?;
    refuse_one_place(host, args.record, pcm, "--record and --pcm")?;
    refuse_one_place(host, wav, pcm, "--wav and --pcm")?;
    refuse_at_kept(host, args, wav, pcm)?;
    refuse_pcm(host, pcm)?;
    refuse_taken(host, args.record, OutputKind::Record)?;
    refuse_taken(host, wav, OutputKind::Wav)
}

/// Refuses a file in which gains are kept that is also a file of the run. `wav` is the path of the first WAV file, and
/// `pcm` that of raw PCM.
fn refuse_at_kept<H: Host>(
    host: &H,
    args: LiveArgs<'_>,
    wav: Option<&str>,
    pcm: Option<&str>,
) -> Result<(), ProgramFault> {
    let kept = args.keep_gains;
    refuse_one_place(host, args.record, kept, "--record and --keep-gains")?;
    refuse_one_place(host, wav, kept, "--wav and --keep-gains")?;
    refuse_one_place(host, pcm, kept, "--pcm and --keep-gains")
}

/// Refuses two files that are one, which `words` names by their options.
// Before anything is created: the second file would find the first, which would stay there and be empty.
fn refuse_one_place<H: Host>(
    host: &H,
    one: Option<&str>,
    other: Option<&str>,
    words: &'static str,
) -> Result<(), ProgramFault> {
    match (one, other) {
        (Some(one), Some(other)) if is_one_file(host, one, other) => {
            Err(ProgramFault::SameFile(words))
        }
        _ => Ok(()),
    }
}

/// Refuses a path of raw PCM at which something is that is no FIFO.
fn refuse_pcm<H: LiveHost>(host: &H, path: Option<&str>) -> Result<(), ProgramFault> {
    match path {
        Some(path) if host.has(path) && !host.is_fifo(path) => {
            Err(ProgramFault::Live(LiveFault::OutputExists(OutputKind::Pcm)))
        }
        _ => Ok(()),
    }
}

/// Refuses the path of the output of a kind if something is there.
fn refuse_taken<H: LiveHost>(
    host: &H,
    path: Option<&str>,
    kind: OutputKind,
) -> Result<(), ProgramFault> {
    match path {
        Some(path) if host.has(path) => Err(ProgramFault::Live(LiveFault::OutputExists(kind))),
        _ => Ok(()),
    }
}
