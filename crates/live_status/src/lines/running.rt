//! The lines on standard error while a run goes on: of a stream's counts, of a path's socket, and of the run itself.
ghost use Rattle.std.specs.Prelude.{◌≡◌, ◌+◌, ◌*◌, ◌≤◌, ◌++◌, length};
ghost use Rattle.rtp_stream.specs.Counts.{tally_of};
ghost use Rattle.live_status.specs.Lines.{flag_text, known_text, running_line};
ghost use Rattle.live_status.specs.Lines.{output_left_out, output_left_out_if, output_state, output_written};
ghost use Rattle.live_status.specs.Lines.{run_failed, run_line, run_output, run_output_counts, run_outputs};
ghost use Rattle.live_status.specs.Lines.{run_incomplete, run_left_out, run_missing, run_sent_late};
ghost use Rattle.live_status.specs.Lines.{run_stale, run_time};
ghost use Rattle.live_status.specs.Lines.{
  socket_faults,
  socket_left_out,
  socket_line,
  socket_losses,
  socket_place,
};

use rtp_stream::{Counts, Path};
use status_page::SocketState;
use studio_io::{OUTPUT_KINDS, OutputKind, OutputState, OutputStates};
use studio_run::{TextBuffer, push_tally};

/// Adds the line of a stream's counts at a clock reading, in sampling instants: each number after its word and `=`. The
/// stream has `paths` paths.
pub(crate) fn push_running_line(
    text: &mut TextBuffer,
    stream: u8,
    paths: u8,
    time: i64,
    counts: &Counts,
)
    requires { length text.old + 4096 ≤ 65536 }
    ensures { text.new ≡ text.old ++ running_line stream paths time (tally_of counts.now) }
{
    text.push("stream=");
    text.push_number(stream);
    text.push(" time=");
    text.push_number(time);
    push_tally(text, "=", paths, counts);
    text.push("\n");
}

/// Adds the line of the state of a path's socket at a clock reading, in sampling instants. A number that is not known
/// is a dash.
pub(crate) fn push_socket_line(
    text: &mut TextBuffer,
    stream: u8,
    path: Path,
    time: i64,
    socket: &SocketState,
)
    requires { length text.old + 4096 ≤ 65536 }
    ensures { text.new ≡ text.old ++ socket_line stream path time socket.now }
{
    push_socket_place(text, stream, path, time);
    push_socket_faults(text, socket);
    push_socket_losses(text, socket);
    push_socket_left_out(text, socket);
}

/// Adds the front of a socket's line: its path, and the clock reading.
fn push_socket_place(text: &mut TextBuffer, stream: u8, path: Path, time: i64)
    requires { length text.old + 100 ≤ 65536 }
    ensures text { text.new ≡ text.old ++ socket_place stream path time }
    ensures few { length text.new ≤ length text.old + 100 }
{
    text.push("socket=");
    text.push_number(stream);
    text.push(path.letter());
    text.push(" time=");
    text.push_number(time);
}

/// Adds how often a socket failed, and whether its path has ended.
fn push_socket_faults(text: &mut TextBuffer, socket: &SocketState)
    requires { length text.old + 100 ≤ 65536 }
    ensures text { text.new ≡ text.old ++ socket_faults socket.now }
    ensures few { length text.new ≤ length text.old + 100 }
{
    text.push(" faults=");
    text.push_number(socket.faults);
    text.push(" ended=");
    text.push(flag_text(socket.has_ended));
}

/// Adds the datagrams that a socket did not get or did not want.
fn push_socket_losses(text: &mut TextBuffer, socket: &SocketState)
    requires { length text.old + 200 ≤ 65536 }
    ensures text { text.new ≡ text.old ++ socket_losses socket.now }
    ensures few { length text.new ≤ length text.old + 200 }
{
    text.push(" dropped=");
    push_known(text, socket.dropped);
    text.push(" unexpected=");
    push_known(text, socket.unexpected);
}

/// Adds the datagrams that a socket brought and that were left out, and ends the line.
fn push_socket_left_out(text: &mut TextBuffer, socket: &SocketState)
    requires { length text.old + 200 ≤ 65536 }
    ensures { text.new ≡ text.old ++ socket_left_out socket.now }
{
    text.push(" too_long=");
    text.push_number(socket.too_long);
    text.push(" held_up=");
    text.push_number(socket.held_up);
    text.push("\n");
}

/// Returns `1` if something holds, and `0` otherwise.
pub(crate) fn flag_text(holds: bool) -> &'static str
    ensures text { result.now ≡ flag_text holds }
    ensures one { length result.now ≡ 1 }
{
    if holds { "1" } else { "0" }
}

/// Adds a number, or a dash if it is not known.
pub(crate) fn push_known(text: &mut TextBuffer, number: Option<u64>)
    requires { length text.old + 40 ≤ 65536 }
    ensures text { text.new ≡ text.old ++ known_text number }
    ensures few { length text.new ≤ length text.old + 40 }
{
    match number {
        Some(number) => text.push_number(number),
        None => text.push("-"),
    }
}

/// The counts of the mix's datagrams.
#[derive(Clone, Copy)]
pub(crate) struct MixCounts {
    /// The datagrams that were not sent to the first address.
    pub(crate) failed_a: u64,
    /// The datagrams that were not sent to the second address.
    pub(crate) failed_b: u64,
    /// The datagrams that were sent to neither address because they were stale.
    pub(crate) stale: u64,
    /// The datagrams in whose block a stream was missing, sent or not.
    pub(crate) incomplete: u64,
    /// The datagrams that were sent later than a whole one.
    pub(crate) sent_late: u64,
    /// The datagrams that were left out because whole copies come from elsewhere.
    pub(crate) left_out: u64,
}

/// Adds the line of a run at a clock reading, in sampling instants: the counts of the mix's datagrams, and the states
/// of the run's outputs, each with its counts.
// Each word is a function of its own, so that no proof has more than a few texts to compare.
pub(crate) fn push_run_line(
    text: &mut TextBuffer,
    time: i64,
    counts: MixCounts,
    outputs: &OutputStates,
)
    requires { length text.old + 4096 ≤ 65536 }
    ensures { text.new ≡ text.old ++ run_line time counts outputs.now }
{
    push_run_time(text, time);
    push_run_failed(text, counts.failed_a, counts.failed_b);
    push_run_stale(text, counts.stale);
    push_run_missing(text, counts.incomplete, counts.sent_late, counts.left_out);
    push_run_outputs(text, &OUTPUT_KINDS, outputs);
    text.push("\n");
}

/// Adds the front of a run's line, with the clock reading.
#[tactic(auto, unfolding(crate::specs::Lines::run_time))]
fn push_run_time(text: &mut TextBuffer, time: i64)
    requires { length text.old + 100 ≤ 65536 }
    ensures text { text.new ≡ text.old ++ run_time time }
    ensures few { length text.new ≤ length text.old + 100 }
{
    text.push("run time=");
    text.push_number(time);
}

/// Adds the datagrams of each copy of the mix that were not sent.
#[tactic(auto, unfolding(crate::specs::Lines::run_failed))]
fn push_run_failed(text: &mut TextBuffer, failed_a: u64, failed_b: u64)
    requires { length text.old + 200 ≤ 65536 }
    ensures text { text.new ≡ text.old ++ run_failed failed_a failed_b }
    ensures few { length text.new ≤ length text.old + 100 }
{
    text.push(" failed_a=");
    text.push_number(failed_a);
    text.push(" failed_b=");
    text.push_number(failed_b);
}

/// Adds the datagrams that were left out of both copies because they were stale.
#[tactic(auto, unfolding(crate::specs::Lines::run_stale))]
fn push_run_stale(text: &mut TextBuffer, stale: u64)
    requires { length text.old + 100 ≤ 65536 }
    ensures text { text.new ≡ text.old ++ run_stale stale }
    ensures few { length text.new ≤ length text.old + 100 }
{
    text.push(" stale=");
    text.push_number(stale);
}

/// Adds the datagrams of the mix in whose block a stream was missing, those that were sent later than a whole one, and
/// those that were left out because whole copies come from elsewhere.
#[tactic(auto, unfolding(crate::specs::Lines::run_missing))]
fn push_run_missing(text: &mut TextBuffer, incomplete: u64, sent_late: u64, left_out: u64)
    requires { length text.old + 300 ≤ 65536 }
    ensures text { text.new ≡ text.old ++ run_missing incomplete sent_late left_out }
    ensures few { length text.new ≤ length text.old + 300 }
{
    push_run_incomplete(text, incomplete);
    push_run_sent_late(text, sent_late);
    push_run_left_out(text, left_out);
}

/// Adds the datagrams of the mix in whose block a stream was missing.
#[tactic(auto, unfolding(crate::specs::Lines::run_incomplete))]
fn push_run_incomplete(text: &mut TextBuffer, incomplete: u64)
    requires { length text.old + 100 ≤ 65536 }
    ensures text { text.new ≡ text.old ++ run_incomplete incomplete }
    ensures few { length text.new ≤ length text.old + 100 }
{
    text.push(" incomplete=");
    text.push_number(incomplete);
}

/// Adds the datagrams of the mix that were sent later than a whole one.
#[tactic(auto, unfolding(crate::specs::Lines::run_sent_late))]
fn push_run_sent_late(text: &mut TextBuffer, sent_late: u64)
    requires { length text.old + 100 ≤ 65536 }
    ensures text { text.new ≡ text.old ++ run_sent_late sent_late }
    ensures few { length text.new ≤ length text.old + 100 }
{
    text.push(" sent_late=");
    text.push_number(sent_late);
}

/// Adds the datagrams of the mix that were left out because whole copies come from elsewhere.
#[tactic(auto, unfolding(crate::specs::Lines::run_left_out))]
fn push_run_left_out(text: &mut TextBuffer, left_out: u64)
    requires { length text.old + 100 ≤ 65536 }
    ensures text { text.new ≡ text.old ++ run_left_out left_out }
    ensures few { length text.new ≤ length text.old + 100 }
{
    text.push(" left_out=");
    text.push_number(left_out);
}

/// Adds the outputs of these kinds.
#[tactic(auto, unfolding(crate::specs::Lines::run_outputs))]
fn push_run_outputs(text: &mut TextBuffer, kinds: &[OutputKind], states: &OutputStates)
    requires { length text.old + 400 * length kinds.now ≤ 65536 }
    ensures text { text.new ≡ text.old ++ run_outputs kinds.now states.now }
    ensures few { length text.new ≤ length text.old + 400 * length kinds.now }
{
    for kind in kinds {
        push_run_output(text, *kind, states.of(*kind));
    }
}

/// Adds the state of an output, and its counts.
#[tactic(auto, unfolding(crate::specs::Lines::run_output))]
fn push_run_output(text: &mut TextBuffer, kind: OutputKind, state: OutputState)
    requires { length text.old + 400 ≤ 65536 }
    ensures text { text.new ≡ text.old ++ run_output kind state }
    ensures few { length text.new ≤ length text.old + 400 }
{
    push_output_state(text, kind, state.name());
    push_output_counts(text, kind, state.written(), state.left_out());
}

/// Adds the name of an output's state behind the output's name.
#[tactic(auto, unfolding(crate::specs::Lines::output_state))]
fn push_output_state(text: &mut TextBuffer, kind: OutputKind, state: &str)
    requires space { length text.old + 100 ≤ 65536 }
    requires short { length state.now ≤ 7 }
    ensures text { text.new ≡ text.old ++ output_state kind state.now }
    ensures few { length text.new ≤ length text.old + 100 }
{
    text.push(" ");
    text.push(kind.key());
    text.push("=");
    text.push(state);
}

/// Adds the numbers of units of an output that were written, and that were left out if the output has a reader.
#[tactic(auto, unfolding(crate::specs::Lines::run_output_counts))]
fn push_output_counts(
    text: &mut TextBuffer,
    kind: OutputKind,
    written: Option<u64>,
    left_out: Option<u64>,
)
    requires { length text.old + 200 ≤ 65536 }
    ensures text { text.new ≡ text.old ++ run_output_counts kind written left_out }
    ensures few { length text.new ≤ length text.old + 200 }
{
    push_output_written(text, kind, written);
    push_output_left_out_if(text, kind.has_reader(), kind, left_out);
}

/// Adds the number of units of an output that were written.
#[tactic(auto, unfolding(crate::specs::Lines::output_written))]
fn push_output_written(text: &mut TextBuffer, kind: OutputKind, written: Option<u64>)
    requires { length text.old + 100 ≤ 65536 }
    ensures text { text.new ≡ text.old ++ output_written kind written }
    ensures few { length text.new ≤ length text.old + 100 }
{
    text.push(" ");
    text.push(kind.written_word());
    text.push("=");
    push_known(text, written);
}

/// Adds the number of units of an output that were left out, if the output has a reader.
fn push_output_left_out_if(
    text: &mut TextBuffer,
    has_reader: bool,
    kind: OutputKind,
    left_out: Option<u64>,
)
    requires { length text.old + 100 ≤ 65536 }
    ensures text { text.new ≡ text.old ++ output_left_out_if has_reader kind left_out }
    ensures few { length text.new ≤ length text.old + 100 }
{
    if has_reader {
        push_output_left_out(text, kind, left_out);
    }
}

/// Adds the number of units of an output that were left out.
#[tactic(auto, unfolding(crate::specs::Lines::output_left_out))]
fn push_output_left_out(text: &mut TextBuffer, kind: OutputKind, left_out: Option<u64>)
    requires { length text.old + 100 ≤ 65536 }
    ensures text { text.new ≡ text.old ++ output_left_out kind left_out }
    ensures few { length text.new ≤ length text.old + 100 }
{
    text.push(" ");
    text.push(kind.key());
    text.push("_left_out=");
    push_known(text, left_out);
}
