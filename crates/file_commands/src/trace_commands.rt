//! The commands over a trace on standard input, with or without a WAV file of the mix or of one stream, and `check`.
use crate::config::{checked_config, played_studio, quick_start_studio, studio_of};
use crate::config_summary::write_summary;
use crate::fault::{CommandFault, FileClash, output_result};
use crate::host::{Host, NamedFile, STDIN_PATH, begin_fault_line, refuse_inputs};
use command_line::{PlayArgs, StreamWavArgs};
use reception_chart::chart;
use std::alloc::Global;
use std::io::{Read, Write};
use studio_config::StudioSpec;
use studio_run::{list_marks, list_marks_and_counts, play};
use wav_runs::{WavRunFault, list_to_wav, play_to_wav};

/// Writes the marks of the trace in `input` by the configuration of examples/first.
pub fn run_quick_start<I: Read, W: Write>(
    alloc: Global,
    input: &mut I,
    output: &mut W,
) -> Result<(), CommandFault> {
    let studio = quick_start_studio(alloc)?;
    Ok(list_marks(alloc, &studio, input, output)?)
}

/// Writes the marks of the trace in `input` by the configuration at a path.
pub fn run_marks<H: Host>(
    host: &H,
    alloc: Global,
    path: &str,
    input: &mut H::Stdin,
    output: &mut H::Stdout,
) -> Result<(), CommandFault> {
    let studio = studio_of(host, alloc, path)?;
    Ok(list_marks(alloc, &studio, input, output)?)
}

/// Writes the marks of the trace in `input` by the configuration at a path, and the counts of paths and merges to
/// `faults`.
pub fn run_marks_with_counts<H: Host>(
    host: &H,
    alloc: Global,
    path: &str,
    input: &mut H::Stdin,
    output: &mut H::Stdout,
    faults: &mut H::Stderr,
) -> Result<(), CommandFault> {
    let studio = studio_of(host, alloc, path)?;
    Ok(list_marks_and_counts(alloc, &studio, input, output, faults)?)
}

/// Writes a chart of what the streams of the trace in `input` received, by the configuration at a path, as an SVG.
pub fn run_chart<H: Host>(
    host: &H,
    alloc: Global,
    path: &str,
    input: &mut H::Stdin,
    output: &mut H::Stdout,
) -> Result<(), CommandFault> {
    let studio = studio_of(host, alloc, path)?;
    Ok(chart(alloc, &studio, input, output)?)
}

/// Writes the summary of the configuration at a path. A fault of the configuration is explained.
pub fn run_check<H: Host>(
    host: &H,
    alloc: Global,
    path: &str,
    output: &mut H::Stdout,
) -> Result<(), CommandFault> {
    let config = checked_config(host, alloc, path)?;
    output_result(write_summary(&config.studio, &config.table, output))
}

/// Writes the report of the trace in `input` by the configuration at a path, with the changes of gains and the WAV file
/// of the mix that are asked for. Before a fault that is put at a file its path is written to `faults`.
pub fn run_play<H: Host>(
    host: &H,
    alloc: Global,
    config: &str,
    args: PlayArgs<'_>,
    input: &mut H::Stdin,
    output: &mut H::Stdout,
    faults: &mut H::Stderr,
) -> Result<(), CommandFault> {
    refuse_play(host, config, &args, faults)?;
    let studio = played_studio(host, alloc, config, args.gains)?;
    play_studio(host, alloc, &studio, args.wav, input, output, faults)
}

/// Refuses to write a file that is also read, and to read standard input as gains.
fn refuse_play<H: Host>(
    host: &H,
    config: &str,
    args: &PlayArgs<'_>,
    faults: &mut H::Stderr,
) -> Result<(), FileClash> {
    refuse_inputs(host, "wav", args.wav, &[config, STDIN_PATH], faults)?;
    let Some(gains) = args.gains else {
        return Ok(());
    };
    refuse_inputs(host, "wav", args.wav, &[gains], faults)?;
    // The trace would be read as gains too, and the first of its lines would be at fault.
    refuse_inputs(host, "gains", Some(gains), &[STDIN_PATH], faults)
}

/// Writes the report of the trace in `input` by a studio, and the mix to the WAV file at a path, if there is one.
fn play_studio<H: Host>(
    host: &H,
    alloc: Global,
    studio: &StudioSpec,
    wav: Option<&str>,
    input: &mut H::Stdin,
    output: &mut H::Stdout,
    faults: &mut H::Stderr,
) -> Result<(), CommandFault> {
    let Some(path) = wav else {
        return Ok(play(alloc, studio, input, output)?);
    };
    let file = NamedFile { host, path };
    match play_to_wav(alloc, studio, input, output, &file) {
        Ok(_file) => Ok(()),
        Err(fault) => Err(wav_fault(fault, path, faults)),
    }
}

/// Writes the marks of the trace in `input` by the configuration at a path, and one stream's samples to a WAV file.
/// Returns `CommandFault::StreamNumber` if the stream's word is not a number from 0 to 255. Before a fault of the file
/// its path is written to `faults`.
pub fn run_marks_to_wav<H: Host>(
    host: &H,
    alloc: Global,
    config: &str,
    args: StreamWavArgs<'_>,
    input: &mut H::Stdin,
    output: &mut H::Stdout,
    faults: &mut H::Stderr,
) -> Result<(), CommandFault> {
    // The number is tested before the configuration is read: a fault of the command line comes first.
    let stream = stream_number(args.stream)?;
    let path = args.file;
    refuse_inputs(host, "wav", Some(path), &[config, STDIN_PATH], faults)?;
    let studio = studio_of(host, alloc, config)?;
    let file = NamedFile { host, path };
    list_stream(&file, alloc, &studio, stream, input, output, faults)
}

/// Writes the marks of the trace in `input` by a studio, and the samples of the stream of this number to a WAV file.
fn list_stream<H: Host>(
    file: &NamedFile<'_, H>,
    alloc: Global,
    studio: &StudioSpec,
    stream: u8,
    input: &mut H::Stdin,
    output: &mut H::Stdout,
    faults: &mut H::Stderr,
) -> Result<(), CommandFault> {
    match list_to_wav(alloc, studio, stream, input, output, file) {
        Ok(_file) => Ok(()),
        Err(fault) => Err(wav_fault(fault, file.path, faults)),
    }
}

/// Returns the number of a stream's word.
pub(crate) fn stream_number(word: &str) -> Result<u8, CommandFault> {
    match word.parse::<u8>() {
        Ok(number) => Ok(number),
        Err(_) => Err(CommandFault::StreamNumber),
    }
}

/// Returns the fault of a run with a WAV file. Before a fault of the file or of its stream it writes the file's path.
fn wav_fault<E: Write>(fault: WavRunFault, path: &str, faults: &mut E) -> CommandFault {
    match fault {
        WavRunFault::Play(fault) => CommandFault::Play(fault),
        WavRunFault::Stream(fault) => {
            begin_fault_line("wav", path, faults);
            CommandFault::StreamWav(fault)
        }
        WavRunFault::File(fault) => {
            begin_fault_line("wav", path, faults);
            CommandFault::Wav(fault)
        }
    }
}
