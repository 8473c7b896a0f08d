//! The deadlines of a stream's packets, computed from their RTP timestamps (RFC 3550 5.1).
ghost use Rattle.std.specs.Prelude.{◌≡◌, ◌⊎◌, ℕ, ◌^◌, true, false, None, Some, pos, ◌+ℤ◌, ◌≤ℤ◌, IfSome, MatchOption};
ghost use Rattle.rtp_stream.specs.Anchor.{deadline_of};
ghost use Rattle.rtp_stream.specs.Grid.{is_on_grid};
ghost use Rattle.rtp_stream.specs.declared.anchor.Anchor.{Anchor};
ghost use Rattle.rtp_stream.specs.declared.fate.Fate.TheVariants.{Taken};
ghost use Rattle.rtp_stream.specs.declared.stream_spec.Stream.{Stream};
ghost use Rattle.rtp_stats.specs.Repeats.{is_again};
ghost use Rattle.rtp_stats.specs.Deadlines.{
  HasMargin,
  IsDeadlineOf,
  IsKnownAfter,
  IsMarginOf,
  IsNearby,
  IsShortTime,
  KnownDeadline,
  is_opening,
  is_placed,
  known_from,
};

use rtp_stream::{Fate, near32};
use std::marker::Model;

/// Returns the time from the clock reading `now` to a deadline, in sampling instants at 48 kHz; `None` at and after the
/// deadline, and for 2^32 instants or more.
pub fn margin_before(deadline: i64, now: i64) -> Option<u32>
    ensures { HasMargin deadline now result }
{
    let left = deadline.saturating_sub(now);
    if left < 1 || left > 4_294_967_295 {
        return None;
    }
    Some(left as u32)
}

/// Returns the deadline of a packet with the timestamp `ts`, from the known deadline of another packet.
// A timestamp has 32 bits and wraps, so the deadline is computed for the timestamp nearest to the known one.
#[inline(always)]
fn deadline_from(known_ts: u32, known_at: i64, ts: u32) -> i64
    ensures { (stream : Stream) (anchor : Anchor) (before number : ℕ) →
        IsDeadlineOf stream anchor before (record { ts = known_ts; at = known_at }) →
        is_on_grid stream anchor number ts ≡ true →
        IsNearby stream before number → IsShortTime (deadline_of stream anchor number) →
        result ≡ deadline_of stream anchor number }
{
    let from = i64::from(known_ts);
    known_at.saturating_add(near32(ts, from) - from)
}

/// The deadline of the last packet that was taken from a stream, from which the deadlines of other packets follow.
#[derive(Drop)]
pub struct Deadlines {
    known: bool,
    ts: u32,
    at: i64,
}

impl Model for Deadlines {
    ghost use Rattle.std.specs.Prelude.{Option, Some, None, if◌then◌else◌};
    ghost use Rattle.rtp_stats.specs.Deadlines.{KnownDeadline};

    ghost Value = { Option KnownDeadline };

    ghost view = { λ d. if d.known then Some (record { ts = d.ts; at = d.at }) else None };
}

impl Deadlines {
    /// Returns the state of a stream, before any packet was taken.
    pub fn new() -> Deadlines
        ensures { result ≡ None }
    {
        Deadlines {
            known: false,
            ts: 0,
            at: 0,
        }
    }

    /// Returns the deadline of a packet that was offered, by its fate and timestamp, in sampling instants at 48 kHz;
    /// `None` if the packet did not come in time or is not in step, or if no deadline is known.
    ///
    /// `due` is the stream's next deadline after the offer. After the first packet of an epoch it is that packet's own.
    pub fn deadline(&mut self, fate: Fate, ts: u32, due: Option<i64>) -> Option<i64>
        ensures opening { is_opening self.old fate ≡ true → (result ≡ due) × (self.new ≡ known_from ts due) }
        ensures in_step { (stream : Stream) (anchor : Anchor) (before number : ℕ) (known : KnownDeadline) →
            self.old ≡ Some known → IsDeadlineOf stream anchor before known → is_opening self.old fate ≡ false →
            is_placed fate ≡ true →
            is_on_grid stream anchor number ts ≡ true → IsNearby stream before number →
            IsShortTime (deadline_of stream anchor number) →
            result ≡ Some (deadline_of stream anchor number) }
        ensures taken { (stream : Stream) (anchor : Anchor) (before number : ℕ) (known : KnownDeadline) →
            self.old ≡ Some known → IsDeadlineOf stream anchor before known → fate ≡ Taken →
            is_on_grid stream anchor number ts ≡ true → IsNearby stream before number →
            IsShortTime (deadline_of stream anchor number) →
            IfSome self.new (IsDeadlineOf stream anchor number) }
        ensures kept { is_opening self.old fate ≡ false → (fate ≡ Taken → ⊥) → self.new ≡ self.old }
        ensures unplaced { is_placed fate ≡ false → result ≡ None }
        ensures unknown { self.old ≡ None → is_opening self.old fate ≡ false → result ≡ None }
    {
        match fate {
            // A restart begins an epoch, whose timestamps follow from its first packet alone.
            Fate::Restarted => self.of_first(ts, due),
            Fate::Taken => self.of_taken(ts, due),
            Fate::Double | Fate::Unlike => self.of_copy(ts),
            Fate::Closed
            | Fate::CountersFull
            | Fate::WrongSource
            | Fate::OffGrid
            | Fate::Late
            | Fate::Ahead => None,
        }
    }

    /// Returns the arrival margin of a packet that was offered at the clock reading `now`, by its fate and timestamp.
    /// This is the time from `now` to its deadline, in sampling instants at 48 kHz. Returns `None` if the packet did
    /// not come in time or is not in step, or if no deadline is known.
    ///
    /// `due` is the stream's next deadline after the offer, as for `deadline`.
    pub fn margin(&mut self, fate: Fate, ts: u32, due: Option<i64>, now: i64) -> Option<u32>
        ensures margin { IsMarginOf self.old fate ts due now result }
        ensures known { IsKnownAfter self.old fate ts due self.new }
    {
        match self.deadline(fate, ts, due) {
            Some(deadline) => margin_before(deadline, now),
            None => None,
        }
    }

    /// Returns true if a timestamp is that of the last packet that was taken, or before it.
    // Timestamps wrap, so half of their cycle (12 hours) lies before the known one.
    pub fn has_reached(&self, ts: u32) -> bool
        ensures { result ≡ is_again self.now ts }
    {
        self.known && self.ts.wrapping_sub(ts) < 2_147_483_648
    }

    /// Returns the deadline of a packet that was taken, and keeps it as the known one.
    fn of_taken(&mut self, ts: u32, due: Option<i64>) -> Option<i64>
        ensures opening { self.old ≡ None → (result ≡ due) × (self.new ≡ known_from ts due) }
        ensures in_step { (stream : Stream) (anchor : Anchor) (before number : ℕ) (known : KnownDeadline) →
            self.old ≡ Some known → IsDeadlineOf stream anchor before known →
            is_on_grid stream anchor number ts ≡ true → IsNearby stream before number →
            IsShortTime (deadline_of stream anchor number) →
            result ≡ Some (deadline_of stream anchor number) }
        ensures taken { (stream : Stream) (anchor : Anchor) (before number : ℕ) (known : KnownDeadline) →
            self.old ≡ Some known → IsDeadlineOf stream anchor before known →
            is_on_grid stream anchor number ts ≡ true → IsNearby stream before number →
            IsShortTime (deadline_of stream anchor number) →
            IfSome self.new (IsDeadlineOf stream anchor number) }
    {
        if !self.known {
            return self.of_first(ts, due);
        }
        self.at = deadline_from(self.ts, self.at, ts);
        self.ts = ts;
        Some(self.at)
    }

    /// Returns the deadline of a duplicate.
    fn of_copy(&self, ts: u32) -> Option<i64>
        ensures in_step { (stream : Stream) (anchor : Anchor) (before number : ℕ) (known : KnownDeadline) →
            self.now ≡ Some known → IsDeadlineOf stream anchor before known →
            is_on_grid stream anchor number ts ≡ true → IsNearby stream before number →
            IsShortTime (deadline_of stream anchor number) →
            result ≡ Some (deadline_of stream anchor number) }
        ensures unknown { self.now ≡ None → result ≡ None }
    {
        if !self.known {
            return None;
        }
        Some(deadline_from(self.ts, self.at, ts))
    }

    /// Returns the deadline of an epoch's first packet, which is the next deadline, and keeps it as the known one.
    fn of_first(&mut self, ts: u32, due: Option<i64>) -> Option<i64>
        ensures result { result ≡ due }
        ensures new { self.new ≡ known_from ts due }
    {
        self.known = due.is_some();
        if let Some(at) = due {
            self.ts = ts;
            self.at = at;
        }
        due
    }
}
