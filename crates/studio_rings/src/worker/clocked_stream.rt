//! A stream's end with the clock that its turns follow.
ghost use Rattle.std.specs.Prelude.{◌≡◌, ◌^◌, ◌≤ℤ◌, pos, false};

use crate::worker::Backoff;
use rtp_stream::{Counts, StreamSpec};
use studio_ends::{StreamDone, StreamEnd};
use studio_io::Clock;

/// The longest pause after a turn, in microseconds: 5 ms.
// A stream without packets then makes 200 turns a second, and its silence is at most so late.
const TURN_PAUSE: u64 = 5_000;

/// Returns the longest pause after a turn of a stream, in microseconds: at most half of what its window spans beyond
/// its latency.
// A packet is judged at the time of the last turn. After a longer pause it would be too early for the window.
// There are 6 sampling instants in 125 microseconds.
fn longest_pause(spec: &StreamSpec) -> u64 {
    let span = u64::from(spec.window()) * u64::from(spec.frames());
    let spare = span.saturating_sub(u64::from(spec.latency()));
    (spare / 2 * 125 / 6).min(TURN_PAUSE)
}

/// A stream's end that is not closed, with its clock.
#[derive(Drop)]
pub struct ClockedStream<C> {
    pub end: StreamEnd,
    pub(crate) clock: C,
    /// The greatest clock reading so far, from the opening time to 2^60, in sampling instants at 48 kHz.
    pub(crate) now: i64,
    pub(crate) pause: Backoff,
    /// The time until which packets wait while the end has not reached the last reading, in sampling instants.
    pub(crate) waits_until: i64,
    ghost open_yet: { end.merge.closed ≡ false },
    ghost not_before: { end.merge.time ≤ℤ now },
    ghost not_after: { now ≤ℤ pos (2 ^ 60) },
}

impl<C: Clock> ClockedStream<C> {
    /// Returns a stream's end that is not closed, with a clock that was not read yet.
    pub fn new(end: StreamEnd, clock: C) -> ClockedStream<C>
        requires open_yet { end.merge.closed ≡ false }
        requires in_time { end.merge.time ≤ℤ pos (2 ^ 60) }
        ensures { (result.end ≡ end) × (result.clock ≡ clock) × (result.now ≡ end.merge.time) }
    {
        let pause = Backoff::up_to(longest_pause(end.spec()));
        let now = end.time();
        ClockedStream {
            end,
            clock,
            now,
            pause,
            waits_until: now,
        }
    }

    /// Consumes the end without closing it, and returns its token and counts.
    pub fn finish(self) -> (Option<StreamDone>, Counts) {
        let ClockedStream {
            end,
            clock: _,
            now: _,
            pause: _,
            waits_until: _,
        } = self;
        end.finish()
    }
}
