//! The command `replay`, from its arguments to the replay, with the files that it refuses to write.
use crate::fault::{CommandFault, FileClash};
use crate::host::{Host, STDIN_PATH, is_one_file, refuse_inputs};
use crate::replay::Replay;
use crate::stream_output::numbered_file;
use command_line::ReplayArgs;
use std::alloc::Global;

/// Writes the report of a capture, by the configuration at a path, and the files that are asked for. The gains change
/// as the file of gains says, if there is one; for a record, its times are times of the recorded run. Without such a
/// file they change as they did in the recorded run. Before a fault that is put at a file its path is written to
/// `faults`.
///
/// A capture in a file is opened several times, so that it need not fit in memory: for its start up to the first
/// packet, which says if it is the record of a live run, and for which configuration; for its flows, if it is not a
/// record; for the report; and for the chart, if there is one. The capture `-` is a record on `input`, which is
/// read once.
pub fn run_replay<H: Host>(
    host: &H,
    alloc: Global,
    config: &str,
    args: &ReplayArgs<'_>,
    input: &mut H::Stdin,
    output: &mut H::Stdout,
    faults: &mut H::Stderr,
) -> Result<(), CommandFault> {
    let stream = numbered_file(args.wav_stream)?;
    refuse_outputs(host, config, args, faults)?;
    let replay = Replay {
        host,
        alloc,
        args,
        stream,
    };
    replay.run(config, input, output, faults)
}

/// Refuses to write a file that is also read, to write two files at one place, and to read one file both as the capture
/// and as gains.
fn refuse_outputs<H: Host>(
    host: &H,
    config: &str,
    args: &ReplayArgs<'_>,
    faults: &mut H::Stderr,
) -> Result<(), FileClash> {
    let capture = if args.is_stdin() {
        STDIN_PATH
    } else {
        args.file
    };
    let stream = args.wav_stream.map(|wav| wav.file);
    refuse_inputs(host, "wav", args.wav, &[config, capture], faults)?;
    refuse_inputs(host, "wav", stream, &[config, capture], faults)?;
    refuse_inputs(host, "chart", args.chart, &[config, capture], faults)?;
    refuse_gains(host, args, capture, faults)?;
    refuse_one_file(host, ("--wav", args.wav), ("--wav-stream", stream))?;
    refuse_one_file(host, ("--wav", args.wav), ("--chart", args.chart))?;
    refuse_one_file(host, ("--wav-stream", stream), ("--chart", args.chart))
}

/// Refuses to write the file of gains, and to read the capture as gains.
fn refuse_gains<H: Host>(
    host: &H,
    args: &ReplayArgs<'_>,
    capture: &str,
    faults: &mut H::Stderr,
) -> Result<(), FileClash> {
    let Some(gains) = args.gains else {
        return Ok(());
    };
    let stream = args.wav_stream.map(|wav| wav.file);
    refuse_inputs(host, "wav", args.wav, &[gains], faults)?;
    refuse_inputs(host, "wav", stream, &[gains], faults)?;
    refuse_inputs(host, "chart", args.chart, &[gains], faults)?;
    // The record would be read as gains too, and the first of its lines would be at fault.
    refuse_inputs(host, "gains", Some(gains), &[capture], faults)
}

/// Refuses the files of two options if both are one file, in which the later text would replace the earlier.
fn refuse_one_file<H: Host>(
    host: &H,
    one: (&'static str, Option<&str>),
    other: (&'static str, Option<&str>),
) -> Result<(), FileClash> {
    match (one, other) {
        ((one, Some(path)), (other, Some(other_path))) if is_one_file(host, path, other_path) => {
            Err(FileClash::SameFile(one, other))
        }
        _ => Ok(()),
    }
}
