//! The lines of drift on standard error while a run goes on: of a stream's time left, and of a path.
ghost use Rattle.std.specs.Prelude.{◌≡◌, ◌+◌, ◌≤◌, ◌++◌, length};
ghost use Rattle.live_status.specs.DriftLines.{change_text, drift_change, drift_flags, drift_line, drift_place};
ghost use Rattle.live_status.specs.DriftLines.{left_line};

use crate::lines::running::{flag_text, push_known};
use rtp_stream::Path;
use status_page::PathState;
use studio_run::TextBuffer;

/// Adds the line of a stream's time left at a clock reading, in sampling instants: the seconds until packets will be
/// late or too early. A time that is not known is a dash.
pub(crate) fn push_left_line(text: &mut TextBuffer, stream: u8, time: i64, left: Option<u64>)
    requires { length text.old + 4096 ≤ 65536 }
    ensures { text.new ≡ text.old ++ left_line stream time left }
{
    text.push("left=");
    text.push_number(stream);
    text.push(" time=");
    text.push_number(time);
    text.push(" seconds=");
    push_known(text, left);
    text.push("\n");
}

/// Adds the line of a path's drift at a clock reading, in sampling instants. A drift that is not known is a dash.
pub(crate) fn push_drift_line(
    text: &mut TextBuffer,
    stream: u8,
    path: Path,
    time: i64,
    state: &PathState,
)
    requires { length text.old + 4096 ≤ 65536 }
    ensures { text.new ≡ text.old ++ drift_line stream path time state.now }
{
    push_drift_place(text, stream, path, time);
    push_drift_change(text, state.drift);
    push_drift_flags(text, state);
}

/// Adds the front of the line: the path, and the clock reading.
fn push_drift_place(text: &mut TextBuffer, stream: u8, path: Path, time: i64)
    requires { length text.old + 100 ≤ 65536 }
    ensures text { text.new ≡ text.old ++ drift_place stream path time }
    ensures few { length text.new ≤ length text.old + 100 }
{
    text.push("drift=");
    text.push_number(stream);
    text.push(path.letter());
    text.push(" time=");
    text.push_number(time);
}

/// Adds the drift in parts per million.
fn push_drift_change(text: &mut TextBuffer, drift: Option<i64>)
    requires { length text.old + 100 ≤ 65536 }
    ensures text { text.new ≡ text.old ++ drift_change drift }
    ensures few { length text.new ≤ length text.old + 100 }
{
    text.push(" ppm=");
    push_change(text, drift);
}

/// Adds two flags: whether the path is astray, and whether it repeats numbers that were received in time. Ends the
/// line.
fn push_drift_flags(text: &mut TextBuffer, state: &PathState)
    requires { length text.old + 100 ≤ 65536 }
    ensures { text.new ≡ text.old ++ drift_flags state.now }
{
    text.push(" astray=");
    text.push(flag_text(state.is_astray));
    text.push(" repeating=");
    text.push(flag_text(state.is_repeating));
    text.push("\n");
}

/// Adds a number with its sign, or a dash if it is not known.
fn push_change(text: &mut TextBuffer, change: Option<i64>)
    requires { length text.old + 40 ≤ 65536 }
    ensures text { text.new ≡ text.old ++ change_text change }
    ensures few { length text.new ≤ length text.old + 40 }
{
    match change {
        Some(change) => text.push_number(change),
        None => text.push("-"),
    }
}
