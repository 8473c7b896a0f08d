//! The hold-up of a feed, after which it leaves out what its socket has.
ghost use Rattle.std.specs.Prelude.{◌≡◌, ◌↔◌, false, Some, None, IsTrue};
ghost use Rattle.live_io.specs.HoldUps.{IsGap, IsHeldUp, longest_gap, tolerance};

use crate::sockets::mix_times::{MixDue, span_of};
use rtp_stream::StreamSpec;

/// The shortest gap between two calls of a feed after which it was held up, in sampling instants: a second.
const SHORTEST_GAP: u32 = 48_000;

/// The least and the greatest time by which a mix that has caught up may be overdue, in sampling instants: 5 and 20 ms.
// A worker rests for at most 5 ms. On a machine with more to do than it has processors its turn comes some 10 ms later.
const LEAST_TOLERANCE: u32 = 240;

const GREATEST_TOLERANCE: u32 = 960;

/// The hold-up of a feed: whether it passes on what its socket has.
///
/// A feed is held up if it was not called for a second, or for its stream's latency or what the window spans if that
/// is more; and while the next datagram of the mix is stale. From then on it leaves out what arrives, until the mix
/// has caught up.
// What waits in the sockets is late for the most part, and the paths would bring it at different times: under a clock
// that follows its sender the backlogs of two paths would open epochs in turn. While the mix is behind, a packet in
// time would be judged by an old clock reading, as too early.
#[derive(Clone, Copy)]
pub struct HoldUp {
    /// The longest gap between two calls, in sampling instants.
    longest: u32,
    /// The time by which a mix that has caught up may be overdue, in sampling instants.
    tolerance: u32,
    /// The time of the last call. `None` before the first.
    last_at: Option<i64>,
    /// True if the last call was held up.
    is_held: bool,
}

impl HoldUp {
    /// Returns the hold-up of a feed of this stream that was not called yet.
    pub fn new(stream: &StreamSpec) -> HoldUp
        ensures longest { result.longest ≡ longest_gap stream.now }
        ensures tolerance { result.tolerance ≡ tolerance stream.now }
        ensures first { result.last_at ≡ None }
        ensures free { result.is_held ≡ false }
    {
        let span = span_of(stream);
        let spare = span.saturating_sub(stream.latency());
        HoldUp {
            longest: SHORTEST_GAP.max(stream.latency().max(span)),
            tolerance: LEAST_TOLERANCE.max(GREATEST_TOLERANCE.min(spare / 2)),
            last_at: None,
            is_held: false,
        }
    }

    /// Notes a call of the feed at this time, when the next datagram of the mix is due as `due` says. Returns true if
    /// the call is held up: what the socket has is then to be left out.
    pub fn note_call(&mut self, now: i64, due: MixDue) -> bool
        ensures held_up { IsTrue result ↔ IsHeldUp self.old due now }
        ensures is_held { self.new.is_held ≡ result }
        ensures last { self.new.last_at ≡ Some now }
        ensures longest { self.new.longest ≡ self.old.longest }
        ensures tolerance { self.new.tolerance ≡ self.old.tolerance }
    {
        self.is_held = self.is_held_up(now, due);
        self.last_at = Some(now);
        self.is_held
    }

    /// Returns true if a call at this time is held up.
    fn is_held_up(&self, now: i64, due: MixDue) -> bool
        ensures { IsTrue result ↔ IsHeldUp self.now due now }
    {
        if self.is_gap(now) {
            return true;
        }
        if due.is_stale(now) {
            return true;
        }
        if self.is_held {
            return !due.is_within(self.tolerance, now);
        }
        false
    }

    /// Returns true if the last call was longer ago than the longest gap.
    fn is_gap(&self, now: i64) -> bool
        ensures { IsTrue result ↔ IsGap self.now.last_at self.now.longest now }
    {
        match self.last_at {
            Some(last) => now.saturating_sub(last) > i64::from(self.longest),
            None => false,
        }
    }
}
