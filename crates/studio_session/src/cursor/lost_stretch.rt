//! Lost slots next to each other, which a cursor passes at once.
ghost use Rattle.std.specs.Prelude.{◌≡◌, ℕ, ◌≤◌, List, ℤ, None};
ghost use Rattle.rtp_stream.specs.declared.stream_spec.Stream.{Stream};
ghost use Rattle.studio_session.specs.Event.{TraceEvent};
ghost use Rattle.studio_session.specs.Cursor.{HasPulled, IsRunnable, IsSameCursor, way_left};
ghost use Rattle.studio_session.specs.LostStretch.{PassesStretch, stretch_of};

use super::Cursor;

/// Lost slots next to each other: each begins a packet after the one before it.
#[derive(Clone, Copy, Debug, PartialEq, Eq)]
pub struct LostStretch {
    /// The media time at which the first slot begins, in sampling instants.
    pub media: i64,
    /// The number of slots.
    pub count: u64,
}

impl Cursor {
    /// Lets the marks of lost slots go at once on the way to a clock reading, and returns where these slots are.
    ///
    /// Returns `None`, and changes nothing, if a packet is held, if no slot is due, and if no reading is on the way.
    /// `mark` and `pass` let the other marks go.
    // The work doesn't grow with the number of slots, as it does if `pass` lets each go.
    pub fn pass_lost(&mut self) -> Option<LostStretch>
        ensures value { result ≡ stretch_of self.old }
        ensures stands { (stream : Stream) (number : ℕ) (open_at : ℤ) (events : List TraceEvent) (k : ℕ)
            → IsRunnable stream number open_at events
            → HasPulled stream number open_at events self.old k
            → PassesStretch stream number open_at events self.old self.new k result }
        ensures none { result ≡ None → self.new ≡ self.old }
        ensures kept { IsSameCursor self.old self.new }
        ensures reading { self.new.reading ≡ self.old.reading }
        ensures onward { way_left self.new ≤ way_left self.old }
    {
        let now = self.reading?;
        let media = self.merge.next_media_time()?;
        let count = self.merge.pass_lost(now);
        if count == 0 {
            return None;
        }
        Some(LostStretch { media, count })
    }
}
