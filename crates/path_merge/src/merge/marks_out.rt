//! The calls of a merge that produce marks.
ghost use Rattle.std.specs.Prelude.{
  ◌≡◌,
  ◌==◌,
  if◌then◌else◌,
  nat_eq,
  ℕ,
  ◌+◌,
  ◌^◌,
  ◌<◌,
  List,
  ℤ,
  pos,
  ◌≤ℤ◌,
  Some,
  None,
  IfSome,
  IfOk,
  IfErr,
  OnErr,
  true,
  false,
  option_copied,
};
ghost use Rattle.std.specs.FinMap as map;
ghost use Rattle.rtp_stream.specs.declared.event.Event.{Event};
ghost use Rattle.rtp_stream.specs.Counts.{is_got_body, tally_of};
ghost use Rattle.rtp_stream.specs.CountsFacts.{with_body};
ghost use Rattle.rtp_stream.specs.MarkRef.{body_from};
ghost use Rattle.rtp_stream.specs.Anchor.{deadline_of};
ghost use Rattle.rtp_stream.specs.Marks.{body_of, slot_mark};
ghost use Rattle.path_merge.specs.Steps.{is_quiet_due};
ghost use Rattle.rtp_stream.specs.declared.stream_spec.Stream.{Stream};

use super::Merge;
use crate::clock::{ClockFault, clock_fault};
use crate::goal::Goal;
use crate::window::Window;
use rtp_stream::{Anchor, Counts, Mark, MarkRef, Packet};

/// Returns true if a Quiet at `until` is due: there was no slot yet, and the last Quiet was earlier, at `last`.
fn is_silence_new(no_slot: bool, last: i64, until: i64) -> bool
    ensures { result ≡ is_quiet_due no_slot last until }
{
    no_slot && last < until
}

/// Returns true if there was no slot yet, in any epoch.
fn is_slotless(counts: &Counts) -> bool
    ensures { result ≡ nat_eq (counts.now.got + counts.now.lost) 0 }
{
    counts.got == 0 && counts.lost == 0
}

/// Returns the samples of a packet, if there is one.
#[inline]
fn octets_of(packet: Option<&Packet>) -> Option<&[u8]>
    ensures { body_from (option_copied result) ≡ body_of (option_copied packet.entry) }
{
    match packet {
        Some(packet) => Some(packet.payload.as_slice()),
        None => None,
    }
}

/// Returns a mark with a copy of the payload, if there is one.
fn mark_copied(mark: Option<MarkRef<'_>>) -> Option<Mark>
    ensures { result ≡ mark.entry }
{
    match mark {
        Some(mark) => Some(mark.to_mark()),
        None => None,
    }
}

/// Drops the slot of a window's base, and counts it.
#[inline]
fn drop_slot<V: Window>(window: &mut V, counts: &mut Counts)
    requires number { V.base window.old < 2 ^ 62 }
    requires held { is_got_body (body_of (map.get (V.held window.old) (V.base window.old))) ≡ true
        → counts.old.got < counts.old.taken }
    requires few { counts.old.lost < 2 ^ 63 }
    ensures base { V.base window.new ≡ V.base window.old + 1 }
    ensures size { V.size window.new ≡ V.size window.old }
    ensures held { (n : ℕ) → map.get (V.held window.new) n
        ≡ (if n == V.base window.old then None else map.get (V.held window.old) n) }
    ensures counted { tally_of counts.new
        ≡ with_body (tally_of counts.old) (body_of (map.get (V.held window.old) (V.base window.old))) }
{
    counts.add_slot(window.front().is_some());
    window.drop_front();
}

impl<V: Window> Merge<V> {
    ghost use Rattle.path_merge.specs.Merge.{HasHistory};
    ghost use Rattle.path_merge.specs.NextMark.{anchor_due, anchor_after_close, next_mark, next_left, quiet_next};
    ghost use Rattle.path_merge.specs.Goal.{CanReach, Gives, MovesTo, HasGivenAll, next_to};
    ghost use Rattle.path_merge.specs.declared.goal.Goal.TheVariants.{Tick};
    ghost use Rattle.path_merge.specs.Clock.{clock_fault_of};
    ghost use Rattle.path_merge.specs.Steps.{
      IsSlotStep,
      IsTimeStep,
      IsLeftStep,
      HoldsMore,
      IsBeforeDeadline,
      is_slot_mark,
      Moves,
      Advances,
      Drains,
      marks_left,
    };

    /// Moves the time to `now`, or to the next deadline if that comes first, and returns the mark there, if there
    /// is one.
    ///
    /// `now` is a clock reading in sampling instants. After a slot more marks may be due: call `advance` with the
    /// same reading until it returns `None` or a Quiet. If the reading is refused, an error is returned and nothing
    /// changes.
    pub fn advance(&mut self, now: i64) -> Result<Option<Mark>, ClockFault>
        ensures stands { IfOk result (λ mark. (stream : Stream) (open_at : ℤ) (events : List Event) (k : ℕ)
            → HasHistory stream open_at self.old events k
            → Advances stream open_at self.old self.new events k now mark) }
        ensures fine { IfOk result (λ mark. clock_fault_of self.old.time self.old.closed now ≡ None) }
        ensures moved { IfOk result (Moves self.old self.new now) }
        ensures spec { self.new.spec ≡ self.old.spec }
        ensures fault { IfErr result (λ fault. clock_fault_of self.old.time self.old.closed now ≡ Some fault) }
        ensures err { OnErr result (self.new ≡ self.old) }
    {
        // The mark is looked at, and then passed: one call that borrows it from `&mut self` couldn't say in a plain
        // clause what `self` is afterwards.
        let goal = self.goal(now)?;
        let mark = mark_copied(self.mark_to(goal));
        self.pass_to(goal);
        Ok(mark)
    }

    /// Returns the goal of a clock reading in sampling instants, or an error if the reading is refused.
    #[inline]
    pub fn goal(&self, now: i64) -> Result<Goal, ClockFault>
        ensures goal { IfOk result (λ goal. goal ≡ Tick now) }
        ensures can { IfOk result (CanReach self.now) }
        ensures fault { IfErr result (λ fault. clock_fault_of self.now.time self.now.closed now ≡ Some fault) }
    {
        match clock_fault(self.time, self.closed, now) {
            Some(fault) => Err(fault),
            None => Ok(Goal::Tick(now)),
        }
    }

    /// Returns the next mark on the way to a goal, its payload borrowed from the window; `None` if there is none.
    #[inline]
    pub fn mark_to(&self, goal: Goal) -> Option<MarkRef<'_>>
        requires { CanReach self.now goal }
        ensures { result ≡ next_to self.now goal }
    {
        match goal {
            Goal::Tick(now) => self.mark_due(now),
            Goal::End => self.mark_after_close(),
        }
    }

    /// Passes the next mark on the way to a goal. On the way to a reading it moves the time as `advance` does.
    ///
    /// Returns true if the mark was a slot: then more may follow. After another mark, or none, the goal is reached.
    #[inline]
    pub fn pass_to(&mut self, goal: Goal) -> bool
        requires { CanReach self.old goal }
        ensures stands { (stream : Stream) (open_at : ℤ) (events : List Event) (k : ℕ)
            → HasHistory stream open_at self.old events k
            → Gives stream open_at self.old self.new events k goal (next_to self.old goal) }
        ensures slot { result ≡ is_slot_mark (next_to self.old goal) }
        ensures moved { MovesTo self.old self.new goal (next_to self.old goal) }
        ensures more { result ≡ true → CanReach self.new goal }
        ensures all { result ≡ false → HasGivenAll self.new }
        ensures closed { self.new.closed ≡ self.old.closed }
        ensures spec { self.new.spec ≡ self.old.spec }
    {
        match goal {
            Goal::Tick(now) => self.pass_due(now),
            Goal::End => self.pass_left(),
        }
    }

    /// Returns the mark that the clock reading `now` produces next.
    #[inline]
    fn mark_due(&self, now: i64) -> Option<MarkRef<'_>>
        requires { clock_fault_of self.now.time self.now.closed now ≡ None }
        ensures { result ≡ next_mark self.now now }
    {
        match self.anchor_due(now) {
            Some(anchor) => Some(self.slot_next(anchor)),
            None => self.quiet_next(now),
        }
    }

    /// Passes the mark that the clock reading `now` produces next, and returns true if it was a slot.
    #[inline]
    fn pass_due(&mut self, now: i64) -> bool
        requires { clock_fault_of self.old.time self.old.closed now ≡ None }
        ensures stands { (stream : Stream) (open_at : ℤ) (events : List Event) (k : ℕ)
            → HasHistory stream open_at self.old events k
            → Advances stream open_at self.old self.new events k now (next_mark self.old now) }
        ensures slot { result ≡ is_slot_mark (next_mark self.old now) }
        ensures moved { Moves self.old self.new now (next_mark self.old now) }
        ensures spec { self.new.spec ≡ self.old.spec }
    {
        // The proof cites the invariant of the private fields, which it sees only if the body reads a field.
        let _ = &self.spec;
        match self.anchor_due(now) {
            Some(anchor) => {
                self.pass_due_slot(anchor);
                true
            }
            None => {
                self.pass_time(now);
                false
            }
        }
    }

    /// Returns the anchor, if the deadline of the base has come.
    #[inline]
    pub(super) fn anchor_due(&self, now: i64) -> Option<Anchor>
        requires { clock_fault_of self.now.time self.now.closed now ≡ None }
        ensures { result ≡ anchor_due self.now now }
    {
        let anchor = self.anchor?;
        if self.next_media + i64::from(self.spec.latency()) <= now {
            Some(anchor)
        } else {
            None
        }
    }

    /// Returns the slot of the base.
    #[inline]
    fn slot_next(&self, anchor: Anchor) -> MarkRef<'_>
        requires anchored { self.now.anchor ≡ Some anchor }
        ensures { result ≡ slot_mark self.now.spec anchor self.now.base
            (body_of (map.get self.now.held self.now.base)) }
    {
        let payload = octets_of(self.window.front());
        MarkRef::slot(
            self.spec.format(),
            anchor.epoch,
            self.window.base(),
            self.next_media,
            payload,
        )
    }

    /// Returns the Quiet that a clock reading produces before the first slot, if it is later than the last Quiet.
    #[inline]
    fn quiet_next(&self, now: i64) -> Option<MarkRef<'_>>
        requires { clock_fault_of self.now.time self.now.closed now ≡ None }
        ensures { result ≡ quiet_next self.now now }
    {
        let until = now - i64::from(self.spec.latency());
        let counts = self.counts;
        if is_silence_new(is_slotless(&counts), self.quiet, until) {
            Some(MarkRef::quiet(self.spec.format(), until))
        } else {
            None
        }
    }

    /// Passes the slot of the base, and moves the time to its deadline.
    #[inline]
    fn pass_due_slot(&mut self, anchor: Anchor)
        requires anchored { self.old.anchor ≡ Some anchor }
        requires open_yet { self.old.closed ≡ false }
        requires soon { deadline_of self.old.spec anchor self.old.base ≤ℤ pos (2 ^ 60) }
        ensures { IsSlotStep self.old.spec self.old self.new anchor }
    {
        let media = self.next_media;
        self.time = media + i64::from(self.spec.latency());
        self.next_media = media + i64::from(self.spec.frames());
        drop_slot(&mut self.window, &mut self.counts);
    }

    /// Moves the time to `now`, up to which no slot is due.
    #[inline]
    fn pass_time(&mut self, now: i64)
        requires not_back { self.old.time ≤ℤ now }
        requires not_far { now ≤ℤ pos (2 ^ 60) }
        requires open_yet { self.old.closed ≡ false }
        requires no_deadline { IsBeforeDeadline self.old.spec self.old.anchor self.old.base now }
        ensures { IsTimeStep self.old.spec self.old self.new now (nat_eq (self.old.counts.got + self.old.counts.lost) 0)
            (quiet_next self.old now) }
    {
        let until = now - i64::from(self.spec.latency());
        let counts = self.counts;
        let no_slot = is_slotless(&counts);
        self.time = now;
        if is_silence_new(no_slot, self.quiet, until) {
            self.quiet = until;
        }
    }

    /// Returns the next mark that is left after a close: the slots up to the last packet held, then the end.
    ///
    /// Returns `None` before a close, and after the end.
    pub fn drain(&mut self) -> Option<Mark>
        ensures stands { (stream : Stream) (open_at : ℤ) (events : List Event) (k : ℕ)
            → HasHistory stream open_at self.old events k → Drains stream open_at self.new events k result }
        ensures open_yet { self.old.closed ≡ false → (result ≡ None) × (self.new ≡ self.old) }
        ensures none { result ≡ None → self.new ≡ self.old }
        ensures fewer { IfSome result (λ mark. marks_left self.new < marks_left self.old) }
        ensures time { self.new.time ≡ self.old.time }
        ensures closed { self.new.closed ≡ self.old.closed }
        ensures spec { self.new.spec ≡ self.old.spec }
    {
        let mark = mark_copied(self.mark_to(Goal::End));
        self.pass_to(Goal::End);
        mark
    }

    /// Returns the next mark that is left after a close.
    fn mark_after_close(&self) -> Option<MarkRef<'_>>
        ensures { result ≡ next_left self.now }
    {
        if !self.closed {
            return None;
        }
        if self.ended {
            return None;
        }
        match self.anchor_after_close() {
            Some(anchor) => Some(self.slot_next(anchor)),
            None => Some(MarkRef::end(self.spec.format())),
        }
    }

    /// Passes the next mark that is left after a close, and returns true if it was a slot.
    fn pass_left(&mut self) -> bool
        ensures stands { (stream : Stream) (open_at : ℤ) (events : List Event) (k : ℕ)
            → HasHistory stream open_at self.old events k
            → Drains stream open_at self.new events k (next_left self.old) }
        ensures slot { result ≡ is_slot_mark (next_left self.old) }
        ensures all { result ≡ false → next_left self.new ≡ None }
        ensures none { next_left self.old ≡ None → self.new ≡ self.old }
        ensures fewer { IfSome (next_left self.old) (λ mark. marks_left self.new < marks_left self.old) }
        ensures time { self.new.time ≡ self.old.time }
        ensures closed { self.new.closed ≡ self.old.closed }
        ensures spec { self.new.spec ≡ self.old.spec }
    {
        if !self.closed {
            return false;
        }
        if self.ended {
            return false;
        }
        match self.anchor_after_close() {
            Some(anchor) => {
                self.pass_slot_left(anchor);
                true
            }
            None => {
                self.ended = true;
                false
            }
        }
    }

    /// Returns the anchor, if a packet is held at the base or later.
    fn anchor_after_close(&self) -> Option<Anchor>
        ensures { result ≡ anchor_after_close self.now }
    {
        let anchor = self.anchor?;
        if self.window.base() < self.window.end() {
            Some(anchor)
        } else {
            None
        }
    }

    /// Passes the slot of the base, after a close, while a packet is held there or later.
    fn pass_slot_left(&mut self, anchor: Anchor)
        requires anchored { self.old.anchor ≡ Some anchor }
        requires closed { self.old.closed ≡ true }
        requires more { HoldsMore self.old }
        ensures { IsLeftStep self.old self.new }
    {
        let media = self.next_media;
        self.next_media = media + i64::from(self.spec.frames());
        drop_slot(&mut self.window, &mut self.counts);
    }
}
