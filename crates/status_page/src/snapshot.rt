//! A snapshot of a run: its streams, their paths and the output channels at one time.
ghost use Rattle.std.specs.Prelude.{◌≡◌, [], ◌∷◌, None};
ghost use Rattle.status_page.specs.Blank.{IsBlank, blank_path};
ghost use Rattle.studio_io.specs.Outputs.{state_of};
ghost use Rattle.studio_io.specs.declared.output_state.OutputState.TheVariants.{Absent};

use arrayvec::{ArrayString, ArrayVec};
use rtp_stats::ArrivalMargin;
use rtp_stream::{Counts, PathCounts};
use studio_io::{OutputKind, OutputStates};

/// The name of a stream for people, of at most 64 octets.
pub type StreamName = ArrayString<64>;

/// The condition of a stream.
#[derive(Clone, Copy, PartialEq, Eq)]
pub enum Condition {
    /// No packet of the stream was taken yet.
    NoPacket,
    /// A packet was taken in the last second.
    Running,
    /// Packets were taken, but none in the last second.
    SignalLost,
    /// The stream was closed.
    Ended,
}

/// The condition of a path: the first of these that holds, in the last whole second unless another time is named.
#[derive(Clone, Copy, PartialEq, Eq)]
pub enum PathCondition {
    /// The path was given up, because its socket failed again and again.
    GivenUp,
    /// No datagram came, and this machine has not joined the path's multicast group on any interface.
    NotJoined,
    /// No datagram came.
    NoDatagrams,
    /// Datagrams came, but none of the stream in time, late or too early.
    Refused,
    /// Most of the stream's packets came after their deadlines.
    Late,
    /// Most of the stream's packets came too early for the window.
    TooEarly,
    /// A packet was lost on the path, or came late, in the last ten seconds.
    Losing,
    /// None of these.
    InTime,
}

/// The numbers of a path's packets by fate, in addition to the first copies.
#[derive(Clone, Copy, PartialEq, Eq)]
pub struct CopyCounts {
    /// The packets that the stream lost, and those that another path brought and this one did not, until a number one
    /// reorder window later was taken. A packet that the stream lost and this path brought late is in `late` too.
    pub lost: u64,
    /// The duplicates, with the payload of the first copy.
    pub double: u64,
    /// The duplicates with a different payload than the first copy.
    pub unlike: u64,
    /// The packets that arrived after their deadlines.
    pub late: u64,
    /// The packets that arrived too early for the window.
    pub ahead: u64,
    /// The packets that the path brought last, one after another, that are late and repeat numbers received in time.
    pub repeated: u64,
}

/// The state of the socket of a path. A number that the run does not know is `None`.
#[derive(Clone, Copy, PartialEq, Eq)]
pub struct SocketState {
    /// The number of receives that failed.
    pub faults: u64,
    /// True once the path was given up, because its socket failed again and again.
    pub has_ended: bool,
    /// True if the path is at a multicast group that this machine is known not to have joined on any interface.
    pub is_unjoined: bool,
    /// The number of datagrams that the system dropped because the socket's buffer was full. `None` if the system does
    /// not list the socket.
    pub dropped: Option<u64>,
    /// The number of datagrams from other addresses than the path's source. `None` if the path takes any source.
    pub unexpected: Option<u64>,
    /// The number of datagrams that were left out because they were too long.
    pub too_long: u64,
    /// The number of datagrams that were left out after a hold-up.
    pub held_up: u64,
}

/// The state of a path. A number that the run does not know is `None`.
#[derive(Clone, Copy)]
pub struct PathState {
    /// The path's condition.
    pub condition: Option<PathCondition>,
    /// The number of datagrams that arrived on the path.
    pub datagrams: u64,
    /// The number of packets whose first copy came on the path.
    pub first: u64,
    /// The datagrams by their results before the merge.
    pub counts: Option<PathCounts>,
    /// The packets by fate, in addition to the first copies.
    pub copies: Option<CopyCounts>,
    /// The arrival margins of the last second; also `None` if no packet arrived in time then.
    pub spare: Option<ArrivalMargin>,
    /// The state of the path's socket.
    pub socket: Option<SocketState>,
    /// The drift of the arrival margin over the last minute, in parts per million. It is positive if packets come
    /// earlier and earlier. `None` if fewer than ten seconds of the minute had packets in time.
    pub drift: Option<i64>,
    /// True if every packet of the last two seconds was late or too early, and there was one.
    pub is_astray: bool,
    /// True if the last 64 packets repeat numbers that were received in time, while no path of the stream is in time.
    pub is_repeating: bool,
}

impl Default for PathState {
    ghost is_default = { λ path. path ≡ blank_path };

    /// Returns the state of a path on which no datagram arrived. Nothing else is known of it.
    fn default() -> PathState {
        PathState {
            condition: None,
            datagrams: 0,
            first: 0,
            counts: None,
            copies: None,
            spare: None,
            socket: None,
            drift: None,
            is_astray: false,
            is_repeating: false,
        }
    }
}

/// The state of a stream.
#[derive(Drop)]
pub struct StreamState {
    /// The stream's name, if it has one.
    pub name: Option<StreamName>,
    /// The stream's condition.
    pub condition: Condition,
    /// The time from a packet's media time to its deadline, in sampling instants at 48 kHz.
    pub latency: u64,
    /// The time in seconds until packets will be late or too early, at the drift of the path with the most time left.
    /// `None` if no path's drift is known.
    pub seconds_left: Option<u64>,
    /// The counts of the stream's merge.
    pub counts: Counts,
    /// The state of each path, in their order.
    pub paths: ArrayVec<PathState, 4>,
}

impl Default for StreamState {
    ghost is_default = { IsBlank None 0 0 };

    /// Returns the state of a stream without paths, before any packet was taken.
    fn default() -> StreamState {
        StreamState {
            name: None,
            condition: Condition::NoPacket,
            latency: 0,
            seconds_left: None,
            counts: Counts::new(),
            paths: ArrayVec::new(),
        }
    }
}

/// The state of an output channel.
#[derive(Clone, Copy, Default, PartialEq, Eq)]
pub struct ChannelState {
    /// The greatest magnitude of a sample since the snapshot before. Full scale is 8,388,608.
    pub peak: u32,
    /// The number of samples that were saturated since the start.
    pub saturated: u64,
}

/// A snapshot of a studio.
#[derive(Drop)]
pub struct Snapshot {
    /// The state of each stream, in their order.
    pub streams: ArrayVec<StreamState, 16>,
    /// The state of each output channel, in their order.
    pub outputs: ArrayVec<ChannelState, 8>,
    /// For each of the two copies of the mix, the number of datagrams that were not sent.
    pub failed_sends: [u64; 2],
    /// The number of datagrams of the mix that were left out of both copies because they were stale.
    pub stale: u64,
    /// The number of datagrams of the mix in whose block a stream was missing, sent or not.
    pub incomplete: u64,
    /// The number of datagrams of the mix that were sent later than a whole one.
    pub sent_late: u64,
    /// The number of datagrams of the mix that were left out because whole copies come from elsewhere: no stream was
    /// there, or the run had ended.
    pub left_out: u64,
    /// The state of what the run writes next to its mix: its record, its WAV file and its raw PCM.
    pub run_outputs: OutputStates,
}

impl Snapshot {
    /// Returns a snapshot without streams, output channels and outputs of the run, in which no send failed
    /// and no stream was missing.
    pub fn new() -> Snapshot
        ensures streams { result.streams.items ≡ [] }
        ensures outputs { result.outputs.items ≡ [] }
        ensures sends { result.failed_sends ≡ 0 ∷ 0 ∷ [] }
        ensures stale { result.stale ≡ 0 }
        ensures incomplete { result.incomplete ≡ 0 }
        ensures late { result.sent_late ≡ 0 }
        ensures left_out { result.left_out ≡ 0 }
        ensures run_outputs { (kind : OutputKind) → state_of kind result.run_outputs ≡ Absent }
    {
        Snapshot {
            streams: ArrayVec::new(),
            outputs: ArrayVec::new(),
            failed_sends: [0; 2],
            stale: 0,
            incomplete: 0,
            sent_late: 0,
            left_out: 0,
            run_outputs: OutputStates::new(),
        }
    }
}
