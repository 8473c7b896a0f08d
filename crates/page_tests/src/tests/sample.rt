//! A snapshot, in which each number is another, and the facts of its run.
//!
//! All parts find space in it, which the texts show: so its functions test no result, and hold little across a test.
use rtp_stats::ArrivalMargin;
use rtp_stream::{Counts, PathCounts};
use status_page::{
    ChannelState, Condition, CopyCounts, PathCondition, PathState, RunFacts, Snapshot, SocketState,
    StreamName, StreamState,
};
use studio_io::{OutputCounts, OutputEnd, OutputKind, OutputState, OutputStates};

/// A name with all that has to be escaped.
pub(super) const NAME: &str = "L\"\\\n<b>";

/// Returns the facts of a run that opened on 2025-12-01 at 03:53:05 UTC.
pub(super) fn facts() -> RunFacts {
    RunFacts {
        version: "7.8.9",
        started: Some(1_764_561_185),
    }
}

/// Returns the counts of two datagrams that were no packets.
fn path_counts() -> PathCounts {
    let mut counts = PathCounts::new();
    counts.add_full();
    counts.add_full();
    counts
}

/// Returns a path whose packets came 12 to 36 sampling instants before their deadlines, and which was given up since.
/// Its condition is that of the second before.
fn heard_path() -> PathState {
    PathState {
        condition: Some(PathCondition::Losing),
        datagrams: 2,
        first: 3,
        counts: Some(path_counts()),
        copies: Some(CopyCounts {
            lost: 4,
            double: 5,
            unlike: 6,
            late: 7,
            ahead: 15,
            repeated: 16,
        }),
        spare: Some(ArrivalMargin {
            second: 17,
            least: 12,
            median: 30,
            greatest: 36,
        }),
        drift: Some(-18),
        is_astray: true,
        is_repeating: false,
        socket: Some(SocketState {
            faults: 8,
            has_ended: true,
            is_unjoined: false,
            dropped: Some(9),
            unexpected: None,
            too_long: 26,
            held_up: 27,
        }),
    }
}

/// Returns the counts of a lost slot.
fn counts() -> Counts {
    let mut counts = Counts::new();
    counts.add_slot(false);
    counts
}

/// Returns a stream with a name and two paths. The second path has few known numbers.
fn stream() -> StreamState {
    let mut stream = StreamState::default();
    stream.name = StreamName::from(NAME).ok();
    stream.condition = Condition::Running;
    stream.latency = 240;
    stream.seconds_left = Some(19);
    stream.counts = counts();
    let _ = stream.paths.try_push(heard_path());
    let _ = stream.paths.try_push(PathState::default());
    stream
}

/// Adds an output channel with this peak.
fn add_output(snapshot: &mut Snapshot, peak: u32) {
    let output = ChannelState { peak, saturated: 2 };
    let _ = snapshot.outputs.try_push(output);
}

/// Returns the counts of an output that was given 25 units.
fn output_counts(written: u64, left_out: u64) -> OutputCounts {
    OutputCounts {
        given: 25,
        written,
        left_out,
    }
}

/// Returns the states of a record that has ended, a WAV file that is written, and raw PCM that nobody reads yet.
fn run_outputs() -> OutputStates {
    let mut states = OutputStates::new();
    let ended = OutputState::Ended(output_counts(14, 23), OutputEnd::Slow);
    states.set(OutputKind::Record, ended);
    states.set(OutputKind::Wav, OutputState::Writing(output_counts(20, 24)));
    states.set(OutputKind::Pcm, OutputState::Waiting(output_counts(21, 22)));
    states
}

/// Returns a snapshot of that stream, of two output channels, of failed, stale, incomplete and late sends, and of the
/// outputs of a run.
pub(super) fn snapshot() -> Snapshot {
    let mut snapshot = Snapshot::new();
    let _ = snapshot.streams.try_push(stream());
    add_output(&mut snapshot, 8_388_608);
    add_output(&mut snapshot, 0);
    snapshot.failed_sends = [11, 13];
    snapshot.stale = 10;
    snapshot.incomplete = 31;
    snapshot.sent_late = 32;
    snapshot.left_out = 33;
    snapshot.run_outputs = run_outputs();
    snapshot
}
