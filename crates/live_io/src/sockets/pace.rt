//! The pace at which a socket is read: the wait that follows once it is empty.
ghost use Rattle.std.specs.Prelude.{◌≡◌, ◌↔◌, ◌≤◌, ℕ, slice_get, Some, None, IsTrue, true, false};
ghost use Rattle.rtp_stream.specs.declared.stream_spec.Stream.{Stream};
ghost use Rattle.live_io.specs.ReceivePace.{FlowsAt, last_with, pause_for};

use rtp_stream::StreamSpec;

/// The shortest pause while packets flow, in sampling instants: 0.2 ms.
// A tenth of 2 ms. In a shorter pause only one packet of the shortest packet time, 0.125 ms, would come.
const SHORTEST_PAUSE: u32 = 10;

/// The longest pause while packets flow, in sampling instants: 4 ms.
// A longer pause saves nothing: at 8 ms the same load cost as much as at 4.
const LONGEST_PAUSE: u32 = 192;

/// The time without a datagram after which a socket is quiet, in sampling instants: 20 ms.
// Longer than five of the longest packets, so that a stream with a few packets missing still flows.
const QUIET_AFTER: i64 = 960;

/// Returns the pause of a receiver of this stream while packets flow, in sampling instants: a tenth of its latency, at
/// least 10 and at most 192.
pub fn pause_of(spec: &StreamSpec) -> u32
    ensures { result ≡ pause_for spec.now.latency }
{
    (spec.latency() / 10).clamp(SHORTEST_PAUSE, LONGEST_PAUSE)
}

/// Returns the pause of a run in one thread while packets flow, in sampling instants: the least pause of its streams,
/// and at most half of what a window spans beyond its latency, but at least 10.
pub fn common_pause(streams: &[StreamSpec]) -> u32
    ensures { (number : ℕ) (spec : Stream)
        → slice_get streams.now number ≡ Some spec → result ≤ pause_for spec.latency }
{
    let mut least = LONGEST_PAUSE;
    for number in 0..streams.len() {
        least = least.min(pause_before_reading(&streams[number]));
    }
    least
}

/// Returns the longest pause between a clock reading and the datagrams of this stream that are judged by it, in
/// sampling instants.
// A datagram that comes during the pause is early by up to the pause. Half of what the window spans beyond the latency
// is left to the network.
fn pause_before_reading(spec: &StreamSpec) -> u32
    ensures { result ≤ pause_for spec.now.latency }
{
    let span = u32::from(spec.window()).saturating_mul(u32::from(spec.frames()));
    let spare = span.saturating_sub(spec.latency());
    pause_of(spec).min((spare / 2).max(SHORTEST_PAUSE))
}

/// The wait that follows once a socket is empty.
#[derive(Clone, Copy, PartialEq, Eq)]
pub enum ReceiveWait {
    /// A pause of this many sampling instants, since packets flow.
    Pause(u32),
    /// A wait that ends with a datagram, since none came for 20 ms.
    Datagram,
}

/// The pace at which a socket, or several together, are read.
///
/// While packets flow the socket is read until it is empty, and then again after a pause. So the sender's calls wake
/// nobody, and a thread wakes once for all datagrams of a pause.
#[derive(Clone, Copy)]
pub struct ReceivePace {
    /// The pause while packets flow, in sampling instants.
    pause: u32,
    /// The first clock reading after the last datagram. `None` before the first one.
    last_at: Option<i64>,
    /// True if a datagram came since the last wait.
    has_come: bool,
}

impl ReceivePace {
    /// Returns the pace of a socket to which no datagram came yet.
    pub fn new(pause: u32) -> ReceivePace
        ensures pause { result.pause ≡ pause }
        ensures last { result.last_at ≡ None }
        ensures quiet { result.has_come ≡ false }
    {
        ReceivePace {
            pause,
            last_at: None,
            has_come: false,
        }
    }

    /// Notes that a datagram came, or that one may have come.
    pub fn note_datagram(&mut self)
        ensures come { self.new.has_come ≡ true }
        ensures pause { self.new.pause ≡ self.old.pause }
        ensures last { self.new.last_at ≡ self.old.last_at }
    {
        self.has_come = true;
    }

    /// Returns the wait that follows now that the socket is empty, at this clock reading in sampling instants.
    pub fn next_wait(&mut self, now: i64) -> ReceiveWait
        ensures last { self.new.last_at ≡ last_with self.old.has_come now self.old.last_at }
        ensures pauses { FlowsAt self.new.last_at now → result ≡ ReceiveWait.Pause self.old.pause }
        ensures waits { (FlowsAt self.new.last_at now → ⊥) → result ≡ ReceiveWait.Datagram }
        ensures pause { self.new.pause ≡ self.old.pause }
        ensures come { self.new.has_come ≡ false }
    {
        if self.has_come {
            self.last_at = Some(now);
            self.has_come = false;
        }
        if self.flows(now) {
            ReceiveWait::Pause(self.pause)
        } else {
            ReceiveWait::Datagram
        }
    }

    /// Returns true if packets flow at this clock reading.
    fn flows(&self, now: i64) -> bool
        ensures { IsTrue result ↔ FlowsAt self.now.last_at now }
    {
        match self.last_at {
            Some(last) => now.saturating_sub(last) < QUIET_AFTER,
            None => false,
        }
    }
}
