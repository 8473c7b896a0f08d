//! The WAV file of one stream that `replay` writes in addition to its report.
ghost use Rattle.std.specs.Prelude.{[], IfOk};
ghost use Rattle.wav_runs.specs.StreamObserver.{HasFollowedIf};

use crate::fault::CommandFault;
use crate::host::{Host, begin_fault_line};
use crate::replay_outputs::file_fault;
use crate::trace_commands::stream_number;
use command_line::StreamWavArgs;
use rtp_stream::StreamSpec;
use std::alloc::Global;
use std::io::Write;
use studio_config::StudioSpec;
use studio_session::Cursor;
use wav_file::{FileFault, Overwrite};
use wav_runs::{StreamWav, wav_stream};

/// A stream by its number, and the path of the WAV file for its samples.
#[derive(Clone, Copy)]
pub(crate) struct NumberedFile<'a> {
    number: u8,
    path: &'a str,
}

/// Returns the stream's number and its file's path, if there is a `--wav-stream`. Returns `StreamNumber` if the word of
/// the stream is not a number from 0 to 255.
pub(crate) fn numbered_file<'a>(
    args: Option<StreamWavArgs<'a>>,
) -> Result<Option<NumberedFile<'a>>, CommandFault> {
    let Some(args) = args else {
        return Ok(None);
    };
    Ok(Some(NumberedFile {
        number: stream_number(args.stream)?,
        path: args.file,
    }))
}

/// Tests that a studio has the stream of a file, if there is one. If the studio has none of this number, or the stream
/// has too many channels, writes the file's path to `faults` and returns the fault.
pub(crate) fn check_stream<E: Write>(
    file: Option<NumberedFile<'_>>,
    studio: &StudioSpec,
    faults: &mut E,
) -> Result<(), CommandFault> {
    match file {
        Some(file) => {
            stream_of(file, studio, faults)?;
            Ok(())
        }
        None => Ok(()),
    }
}

/// Returns the stream of a file. If the studio has none of this number, or the stream has too many channels, writes the
/// file's path to `faults` and returns the fault.
fn stream_of<E: Write>(
    file: NumberedFile<'_>,
    studio: &StudioSpec,
    faults: &mut E,
) -> Result<StreamSpec, CommandFault> {
    match wav_stream(studio, file.number) {
        Ok(stream) => Ok(stream),
        Err(fault) => {
            begin_fault_line("wav", file.path, faults);
            Err(CommandFault::StreamWav(fault))
        }
    }
}

/// Creates the stream's WAV file and writes its header, if there is one. All memory is taken before that.
pub(crate) fn create_stream_wav<H: Host>(
    host: &H,
    alloc: Global,
    file: Option<NumberedFile<'_>>,
    studio: &StudioSpec,
    faults: &mut H::Stderr,
) -> Result<Option<StreamWav<H::Target>>, CommandFault>
    ensures { IfOk result (λ wav. HasFollowedIf wav wav [] []) }
{
    let Some(file) = file else {
        return Ok(None);
    };
    // `check_stream` found it before: the borrow checker covers no struct of a path and a value with ghost fields.
    let stream = stream_of(file, studio, faults)?;
    let cursor = Cursor::new(alloc, stream, file.number, studio.open_at())?;
    let created = match host.create(file.path) {
        Ok(target) => StreamWav::begin(target, cursor),
        Err(fault) => Err(fault),
    };
    match created {
        Ok(wav) => Ok(Some(wav)),
        Err(fault) => Err(file_fault("wav", file.path, fault, faults)),
    }
}

/// Completes the stream's WAV file, if there is one: with all samples, or after an error of the replay with the sizes
/// of those that were written.
pub(crate) fn end_stream_wav<F: Overwrite + Drop>(
    wav: Option<StreamWav<F>>,
    whole: bool,
) -> Result<(), FileFault> {
    let Some(wav) = wav else {
        return Ok(());
    };
    if !whole {
        // The replay's error is reported, whatever becomes of the file.
        let _ = wav.break_off();
        return Ok(());
    }
    match wav.finish() {
        Ok(_file) => Ok(()),
        Err(fault) => Err(fault),
    }
}

/// Returns the fault of the stream's WAV file, after writing its path to `faults`.
pub(crate) fn stream_wav_result<E: Write>(
    ended: Result<(), FileFault>,
    path: Option<&str>,
    faults: &mut E,
) -> Result<(), CommandFault> {
    match (ended, path) {
        (Err(fault), Some(path)) => Err(file_fault("wav", path, fault, faults)),
        _ => Ok(()),
    }
}
