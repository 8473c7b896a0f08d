//! The call of a merge that passes lost slots at once.
ghost use Rattle.std.specs.Prelude.{◌≡◌, ℕ, ◌+◌, ◌-◌, ◌^◌, ◌<◌, List, ℤ, pos, ◌≤ℤ◌, Some, None, false};
ghost use Rattle.rtp_stream.specs.declared.event.Event.{Event};
ghost use Rattle.rtp_stream.specs.declared.stream_spec.Stream.{Stream};
ghost use Rattle.rtp_stream.specs.Anchor.{deadline_of, next_number};
ghost use Rattle.path_merge.specs.MergeState as state;

use super::Merge;
use crate::window::Window;
use rtp_stream::Anchor;

impl<V: Window> Merge<V> {
    ghost use Rattle.path_merge.specs.Merge.{HasHistory};
    ghost use Rattle.path_merge.specs.Clock.{clock_fault_of};
    ghost use Rattle.path_merge.specs.Window.{IsEmpty};
    ghost use Rattle.path_merge.specs.PassLost.{LosesSlots, PassesLost, lost_due, next_media_of};

    /// Returns the media time of the next slot's first sampling instant, or `None` before the first packet is taken.
    pub fn next_media_time(&self) -> Option<i64>
        ensures { result ≡ next_media_of self.now }
    {
        self.anchor?;
        Some(self.next_media)
    }

    /// Passes the slots that are due by the clock reading `now` at once if no packet is held, and returns their number:
    /// all of them are lost. The time moves to the deadline of the last one.
    ///
    /// Returns 0 if a packet is held, before the first packet, and if no slot is due. Nothing changes then. `now` is in
    /// sampling instants, as for `goal`.
    // The work doesn't grow with the number of slots. A trace may have one packet and then a reading of 2^60.
    pub fn pass_lost(&mut self, now: i64) -> u64
        requires { clock_fault_of self.old.time self.old.closed now ≡ None }
        ensures value { result ≡ lost_due self.old now }
        ensures changed { PassesLost self.old self.new result }
        ensures none { result ≡ 0 → self.new ≡ self.old }
        ensures stands { (stream : Stream) (open_at : ℤ) (events : List Event) (k : ℕ)
            → HasHistory stream open_at self.old events k
            → LosesSlots stream open_at self.old self.new events k now result }
        ensures onward { self.old.time ≤ℤ self.new.time }
        ensures can { clock_fault_of self.new.time self.new.closed now ≡ None }
        ensures spec { self.new.spec ≡ self.old.spec }
    {
        // The proof cites the invariant of the private fields, which it sees only if the body reads a field.
        let _ = &self.spec;
        match self.anchor_due(now) {
            Some(anchor) => {
                if !self.holds_nothing(anchor) {
                    return 0;
                }
                let count = self.slots_until(anchor, now);
                self.pass_slots(anchor, count);
                count
            }
            None => 0,
        }
    }

    /// Returns true if no packet is held.
    fn holds_nothing(&self, anchor: Anchor) -> bool
        requires anchored { self.now.anchor ≡ Some anchor }
        requires open_yet { self.now.closed ≡ false }
        ensures { result ≡ state.holds_nothing self.now }
    {
        self.window.end() <= self.window.base()
    }

    /// Returns the number of slots that are due by the clock reading `now`, of which there is one.
    fn slots_until(&self, anchor: Anchor, now: i64) -> u64
        requires anchored { self.now.anchor ≡ Some anchor }
        requires open_yet { self.now.closed ≡ false }
        requires come { deadline_of self.now.spec anchor self.now.base ≤ℤ now }
        requires not_far { now ≤ℤ pos (2 ^ 60) }
        ensures { result ≡ next_number self.now.spec anchor now - self.now.base }
    {
        let since = now - (self.next_media + i64::from(self.spec.latency()));
        since.unsigned_abs() / u64::from(self.spec.frames()) + 1
    }

    /// Passes this many slots, from the base on, while no packet is held.
    fn pass_slots(&mut self, anchor: Anchor, count: u64)
        requires anchored { self.old.anchor ≡ Some anchor }
        requires open_yet { self.old.closed ≡ false }
        requires empty { IsEmpty self.old.held }
        requires some { 0 < count }
        requires soon { deadline_of self.old.spec anchor (self.old.base + (count - 1)) ≤ℤ pos (2 ^ 60) }
        ensures { PassesLost self.old self.new count }
    {
        let frames = self.spec.frames();
        let before_last = (count - 1) * u64::from(frames);
        let last = self.next_media + before_last as i64;
        self.time = last + i64::from(self.spec.latency());
        self.next_media = last + i64::from(frames);
        self.counts.lost += count;
        let next = self.window.base() + count;
        self.window.begin_at(next);
    }
}
