//! Pushes marks from a merge to the ring of its stream.
ghost use Rattle.std.specs.Prelude.{
  ◌≡◌,
  ℕ,
  ◌<◌,
  ◌≤◌,
  ◌^◌,
  ◌+◌,
  ◌⊎◌,
  ℤ,
  ◌≤ℤ◌,
  pos,
  List,
  ◌++◌,
  length,
  true,
  false,
  None,
  if◌then◌else◌,
};
ghost use Rattle.std.specs.Option.{option_to_list};
ghost use Rattle.rtrb.specs.Ring.{known_free, sent, SameProducer};
ghost use Rattle.rtp_stream.specs.declared.event.Event.{Event};
ghost use Rattle.rtp_stream.specs.declared.stream_spec.Stream.{Stream};
ghost use Rattle.path_merge.specs.Merge.{HasHistory};
ghost use Rattle.path_merge.specs.Goal.{CanReach, Gives, HasGivenAll, MovesTo, next_to};
ghost use Rattle.rtp_stream.specs.MarkFacts.{payload_length};
ghost use Rattle.rtp_stream.specs.StreamSpecFacts.{format_of};
ghost use Rattle.studio_ends.specs.CellSizes.{HasCellsFor};
ghost use Rattle.studio_ends.specs.StreamTurns.{DrainsMarks, PushesMarks};
ghost use Rattle.studio_ends.specs.StopReasons.{StopsFor};

use crate::rings::marks::MarkProducer;
use crate::stream_end::packets_in::BATCH;
use path_merge::{Goal, Merge, SlotWindow};

/// Why a turn stopped.
#[derive(Clone, Copy, PartialEq, Eq)]
pub enum StopReason {
    /// All marks up to the requested time were pushed.
    CaughtUp,
    /// 64 marks were pushed. More may be left.
    Batch,
    /// No free place is known in the ring.
    NoRoom,
}

/// The result of `StreamEnd::turn`.
#[derive(Clone, Copy)]
pub struct TurnNote {
    /// The number of packets that it took of each path, at most 64 each.
    pub from: [u32; 4],
    /// The number of marks that it pushed, at most 64.
    pub marks: u32,
    /// The merge's time after the turn, in sampling instants at 48 kHz.
    pub reached: i64,
    pub why_stopped: StopReason,
}

/// Pushes the next mark before a goal and passes it. Returns true if there was one.
pub(crate) fn push_next(marks: &mut MarkProducer, merge: &mut Merge<SlotWindow>, goal: Goal) -> bool
    requires space { 0 < known_free marks.old }
    requires can { CanReach merge.old goal }
    requires cells { HasCellsFor (payload_length (format_of merge.old.spec)) marks.old }
    ensures ring { SameProducer marks.old marks.new }
    ensures pushed { sent marks.new ≡ sent marks.old ++ option_to_list (next_to merge.old goal) }
    ensures count { length (option_to_list (next_to merge.old goal)) ≡ (if result then 1 else 0) }
    ensures stands { (stream : Stream) (open_at : ℤ) (events : List Event) (k : ℕ)
        → HasHistory stream open_at merge.old events k
        → Gives stream open_at merge.old merge.new events k goal (next_to merge.old goal) }
    ensures moved { MovesTo merge.old merge.new goal (next_to merge.old goal) }
    ensures there { result ≡ false → MovesTo merge.old merge.new goal None }
    ensures all { result ≡ false → HasGivenAll merge.new }
    ensures closed { merge.new.closed ≡ merge.old.closed }
    ensures spec { merge.new.spec ≡ merge.old.spec }
{
    let next = merge.mark_to(goal);
    let is_some = next.is_some();
    if let Some(mark) = next {
        marks.push(&mark);
    }
    merge.pass_to(goal);
    is_some
}

/// Pushes marks up to a time, while there is space. Returns their number and why it stopped.
pub(crate) fn push_marks(
    marks: &mut MarkProducer,
    merge: &mut Merge<SlotWindow>,
    now: i64,
) -> (u32, StopReason)
    requires low { merge.old.time ≤ℤ now }
    requires high { now ≤ℤ pos (2 ^ 60) }
    requires open_yet { merge.old.closed ≡ false }
    requires cells { HasCellsFor (payload_length (format_of merge.old.spec)) marks.old }
    ensures pushed { PushesMarks marks.old merge.old now marks.new merge.new result.0 }
    ensures most { result.0 ≤ 64 }
    ensures stop { StopsFor result.1 merge.new.time now result.0 (known_free marks.new) }
{
    let mut count = 0;
    while count < BATCH {
        // Tested before the merge is called: a mark is passed only once a place is free for it, so none is lost.
        if marks.is_full() {
            return (count, StopReason::NoRoom);
        }
        if !push_next(marks, merge, Goal::Tick(now)) {
            return (count, StopReason::CaughtUp);
        }
        count += 1;
    }
    (count, StopReason::Batch)
}

/// Pushes the marks that are left, at most 64 and while there is space. Returns true if the end mark was pushed.
pub(crate) fn drain_marks(marks: &mut MarkProducer, merge: &mut Merge<SlotWindow>) -> bool
    requires closed { merge.old.closed ≡ true }
    requires cells { HasCellsFor (payload_length (format_of merge.old.spec)) marks.old }
    ensures drained { DrainsMarks marks.old merge.old marks.new merge.new }
    ensures all { result ≡ true → HasGivenAll merge.new }
    ensures some { result ≡ false → (length (sent marks.new) ≡ length (sent marks.old) + 64)
        ⊎ (known_free marks.new ≡ 0) }
{
    for _ in 0..BATCH {
        if merge.ended() {
            return true;
        }
        if marks.is_full() {
            return false;
        }
        if !push_next(marks, merge, Goal::End) {
            return true;
        }
    }
    merge.ended()
}
