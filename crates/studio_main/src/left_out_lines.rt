//! The lines after the report of a live run with the datagrams that were left out, and those of the mix in which a
//! stream was missing, each only if there were any.

use crate::fault::ProgramFault;
use file_commands::output_result;
use live_io::{MixProgress, RunHealth, SocketHealth};
use rtp_stream::Path;
use std::io::Write;
use studio_config::StudioSpec;

/// Writes for each path the datagrams that were too long, and those that were left out after a hold-up, and then the
/// datagrams of the mix that were stale, incomplete, sent late or left out.
pub(crate) fn write_left_out<W: Write>(
    studio: &StudioSpec,
    health: &RunHealth,
    output: &mut W,
) -> Result<(), ProgramFault> {
    // The sockets are numbered through all paths, stream by stream.
    let mut sockets = health.paths().iter();
    for (number, stream) in studio.streams().iter().enumerate() {
        for place in 0..stream.paths() {
            let (Some(path), Some(socket)) = (Path::new(place), sockets.next()) else {
                return Ok(());
            };
            write_left_out_of(number, path, socket, output)?;
        }
    }
    write_mix(health.mix(), output)
}

/// Writes the datagrams of a path that were left out.
fn write_left_out_of<W: Write>(
    stream: usize,
    path: Path,
    socket: &SocketHealth,
    output: &mut W,
) -> Result<(), ProgramFault> {
    let letter = path.letter();
    let (too_long, held_up) = (socket.too_long(), socket.held_up());
    if too_long > 0 {
        output_result(writeln!(output, "too_long {stream} {letter} {too_long}"))?;
    }
    if held_up > 0 {
        output_result(writeln!(output, "held_up {stream} {letter} {held_up}"))?;
    }
    Ok(())
}

/// Writes the datagrams of the mix that were stale, and then those in which a stream was missing.
fn write_mix<W: Write>(mix: &MixProgress, output: &mut W) -> Result<(), ProgramFault> {
    let stale = mix.stale();
    if stale > 0 {
        output_result(writeln!(output, "stale {stale}"))?;
    }
    write_incomplete(mix, output)
}

/// Writes the datagrams of the mix in whose block a stream was missing, those that were sent later than a whole one,
/// and those that were left out because whole copies come from elsewhere.
fn write_incomplete<W: Write>(mix: &MixProgress, output: &mut W) -> Result<(), ProgramFault> {
    let (incomplete, sent_late, left_out) = (mix.incomplete(), mix.sent_late(), mix.left_out());
    if incomplete > 0 {
        output_result(writeln!(output, "incomplete {incomplete}"))?;
    }
    if sent_late > 0 {
        output_result(writeln!(output, "sent_late {sent_late}"))?;
    }
    if left_out > 0 {
        output_result(writeln!(output, "left_out {left_out}"))?;
    }
    Ok(())
}
