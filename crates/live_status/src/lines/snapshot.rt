//! The lines of a snapshot: of each stream's counts and time left, of each path's drift and socket, and of the run.
ghost use Rattle.std.specs.Prelude.{◌≡◌, ◌<◌, ◌≤◌, [], ◌∷◌, length, OnOk, OnErr};
ghost use Rattle.live_status.specs.DriftLines.{left_line};
ghost use Rattle.live_status.specs.Lines.{run_line};
ghost use Rattle.live_status.specs.SnapshotLines.{
  AreSomeOf,
  WritesPart,
  WritesSome,
  counts_line,
  drift_lines,
  mix_counts_in,
  path_lines,
  paths_lines,
  snapshot_lines,
  socket_lines,
  stream_lines,
  streams_lines,
};

use crate::lines::drift::{push_drift_line, push_left_line};
use crate::lines::running::{MixCounts, push_run_line, push_running_line, push_socket_line};
use live_io::{STDERR, is_ready};
use rtp_stream::Path;
use status_page::{PathState, Snapshot, StreamState};
use std::io::Write;
use studio_run::{TextBuffer, WriteFault};

/// Writes the lines of a snapshot at the time `now`, each at once. A line that standard error does not take at once is
/// left out. `text` is a buffer for a line.
pub(crate) fn write_snapshot<W: Write>(
    text: &mut TextBuffer,
    writer: &mut W,
    now: i64,
    snapshot: &Snapshot,
) -> Result<(), WriteFault>
    requires { text.old ≡ [] }
    ensures ok { OnOk result
        (WritesSome (W.contents writer.old) (snapshot_lines now snapshot.now) (W.contents writer.new)) }
    ensures fault { OnErr result
        (WritesPart (W.contents writer.old) (snapshot_lines now snapshot.now) (W.contents writer.new)) }
    ensures empty { OnOk result (text.new ≡ []) }
{
    write_streams(text, writer, now, snapshot.streams.as_slice())?;
    push_run(text, now, snapshot);
    text.finish(writer)?;
    Ok(())
}

/// Writes the lines of streams.
fn write_streams<W: Write>(
    text: &mut TextBuffer,
    writer: &mut W,
    now: i64,
    streams: &[StreamState],
) -> Result<(), WriteFault>
    requires empty { text.old ≡ [] }
    requires few { length streams.now ≤ 16 }
    ensures ok { OnOk result
        (WritesSome (W.contents writer.old) (streams_lines 0 now streams.now) (W.contents writer.new)) }
    ensures fault { OnErr result
        (WritesPart (W.contents writer.old) (streams_lines 0 now streams.now) (W.contents writer.new)) }
    ensures empty { OnOk result (text.new ≡ []) }
{
    for number in 0..streams.len() {
        write_stream(text, writer, now, number as u8, &streams[number])?;
    }
    Ok(())
}

/// Writes the lines of a stream: that of its counts, that of its time left, and those of its paths.
fn write_stream<W: Write>(
    text: &mut TextBuffer,
    writer: &mut W,
    now: i64,
    number: u8,
    stream: &StreamState,
) -> Result<(), WriteFault>
    requires { text.old ≡ [] }
    ensures ok { OnOk result
        (WritesSome (W.contents writer.old) (stream_lines number now stream.now) (W.contents writer.new)) }
    ensures fault { OnErr result
        (WritesPart (W.contents writer.old) (stream_lines number now stream.now) (W.contents writer.new)) }
    ensures empty { OnOk result (text.new ≡ []) }
{
    push_counts(text, now, number, stream);
    text.finish(writer)?;
    push_left(text, now, number, stream.seconds_left);
    text.finish(writer)?;
    write_paths(text, writer, now, number, stream.paths.as_slice())?;
    Ok(())
}

/// Writes the lines of the paths of the stream of this number.
fn write_paths<W: Write>(
    text: &mut TextBuffer,
    writer: &mut W,
    now: i64,
    number: u8,
    paths: &[PathState],
) -> Result<(), WriteFault>
    requires empty { text.old ≡ [] }
    requires few { length paths.now ≤ 4 }
    ensures ok { OnOk result
        (WritesSome (W.contents writer.old) (paths_lines number 0 now paths.now) (W.contents writer.new)) }
    ensures fault { OnErr result
        (WritesPart (W.contents writer.old) (paths_lines number 0 now paths.now) (W.contents writer.new)) }
    ensures empty { OnOk result (text.new ≡ []) }
{
    for place in 0..paths.len() {
        let Some(letter) = Path::new(place as u8) else {
            unreachable!()
        };
        write_path(text, writer, now, number, letter, &paths[place])?;
    }
    Ok(())
}

/// Writes the lines of a path: that of its drift, and that of its socket.
fn write_path<W: Write>(
    text: &mut TextBuffer,
    writer: &mut W,
    now: i64,
    number: u8,
    letter: Path,
    path: &PathState,
) -> Result<(), WriteFault>
    requires { text.old ≡ [] }
    ensures ok { OnOk result
        (WritesSome (W.contents writer.old) (path_lines number letter now path.now) (W.contents writer.new)) }
    ensures fault { OnErr result
        (WritesPart (W.contents writer.old) (path_lines number letter now path.now) (W.contents writer.new)) }
    ensures empty { OnOk result (text.new ≡ []) }
{
    push_drift(text, now, number, letter, path);
    text.finish(writer)?;
    push_socket(text, now, number, letter, path);
    text.finish(writer)?;
    Ok(())
}

/// Adds the line of a stream's counts, if standard error takes a line at once.
fn push_counts(text: &mut TextBuffer, now: i64, number: u8, stream: &StreamState)
    requires { text.old ≡ [] }
    ensures { AreSomeOf (counts_line number now stream.now ∷ []) text.new }
{
    if can_write() {
        let paths = stream.paths.len() as u8;
        push_running_line(text, number, paths, now, &stream.counts);
    }
}

/// Adds the line of a stream's time left, if standard error takes a line at once.
fn push_left(text: &mut TextBuffer, now: i64, number: u8, left: Option<u64>)
    requires { text.old ≡ [] }
    ensures { AreSomeOf (left_line number now left ∷ []) text.new }
{
    if can_write() {
        push_left_line(text, number, now, left);
    }
}

/// Adds the line of a path's drift, if its packets are counted and standard error takes a line at once.
fn push_drift(text: &mut TextBuffer, now: i64, number: u8, letter: Path, path: &PathState)
    requires { text.old ≡ [] }
    ensures { AreSomeOf (drift_lines number letter now path.now) text.new }
{
    if path.copies.is_some() && can_write() {
        push_drift_line(text, number, letter, now, path);
    }
}

/// Adds the line of a path's socket, if its state is known and standard error takes a line at once.
fn push_socket(text: &mut TextBuffer, now: i64, number: u8, letter: Path, path: &PathState)
    requires { text.old ≡ [] }
    ensures { AreSomeOf (socket_lines number letter now path.now) text.new }
{
    if let Some(socket) = &path.socket {
        if can_write() {
            push_socket_line(text, number, letter, now, socket);
        }
    }
}

/// Adds the line of the run, if standard error takes a line at once.
fn push_run(text: &mut TextBuffer, now: i64, snapshot: &Snapshot)
    requires { text.old ≡ [] }
    ensures { AreSomeOf (run_line now (mix_counts_in snapshot.now) snapshot.now.run_outputs ∷ []) text.new }
{
    if can_write() {
        let [a, b] = snapshot.failed_sends;
        let counts = MixCounts {
            failed_a: a,
            failed_b: b,
            stale: snapshot.stale,
            incomplete: snapshot.incomplete,
            sent_late: snapshot.sent_late,
            left_out: snapshot.left_out,
        };
        push_run_line(text, now, counts, &snapshot.run_outputs);
    }
}

/// Returns true if standard error takes a line at once.
// Tested before each line: neither a run in one thread nor a supervisor that polls for signals may wait for the reader
// of standard error.
fn can_write() -> bool {
    is_ready(STDERR, libc::net::POLLOUT)
}
