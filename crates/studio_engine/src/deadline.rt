//! The clock reading before which no datagram comes if nothing arrives.
ghost use Rattle.std.specs.Prelude.{
  ◌≡◌,
  ℕ,
  ◌%◌,
  ◌<◌,
  ◌^◌,
  ◌+◌,
  ◌-ℤ◌,
  ◌+ℤ◌,
  ◌<ℤ◌,
  ◌≤ℤ◌,
  pos,
  nat_eq,
  unsigned_abs,
  List,
  length,
  None,
  IfSome,
};
ghost use Rattle.path_merge.specs.Steps.{next_deadline_of};
ghost use Rattle.studio_config.specs.Studio.{Studio};
ghost use Rattle.studio_session.specs.Event.{TraceEvent};
ghost use Rattle.studio_engine.specs.Cursors.{all_at};
ghost use Rattle.studio_engine.specs.Deadline.{IsIdle, IsNotPast, IsUnreadyBefore};

use path_merge::clock_fault;
use studio_mix::Mixer;
use studio_session::Cursor;

/// Returns the clock reading, later than `time`, that every stream which the next block needs has to reach before the
/// block is ready, if nothing arrives. `None` if that is past 2^60 sampling instants.
pub(crate) fn reading_past(time: i64, mixer: &Mixer, cursors: &[Cursor]) -> Option<i64>
    requires streams { length cursors.now ≡ length mixer.now.lanes }
    requires not_late { time ≤ℤ pos (2 ^ 60) }
    ensures later { IfSome result (λ reading. time <ℤ reading) }
    ensures before { IfSome result (λ reading. (studio : Studio) (events : List TraceEvent) (next : ℕ)
        (count : ℕ) → IsIdle studio events mixer.now (all_at count cursors.now) time next
        → IsUnreadyBefore studio events next reading) }
    ensures never { result ≡ None → (studio : Studio) (events : List TraceEvent) (next count : ℕ)
        → IsIdle studio events mixer.now (all_at count cursors.now) time next
        → IsUnreadyBefore studio events next (pos (2 ^ 60 + 1)) }
{
    let reading = latest_reading(time, mixer, cursors);
    // The reading is later than `time`, so the only possible fault is that it is too far.
    match clock_fault(time, false, reading) {
        None => Some(reading),
        Some(_) => None,
    }
}

/// Returns the latest of these streams' readings, and at least `time + 1`.
fn latest_reading(time: i64, mixer: &Mixer, cursors: &[Cursor]) -> i64
    requires streams { length cursors.now ≡ length mixer.now.lanes }
    requires not_late { time ≤ℤ pos (2 ^ 60) }
    ensures later { time <ℤ result }
    ensures before { (studio : Studio) (events : List TraceEvent) (next count : ℕ)
        → IsIdle studio events mixer.now (all_at count cursors.now) time next
        → IsUnreadyBefore studio events next result }
{
    let end = mixer.block_end();
    let mut reading = time + 1;
    for stream in 0..cursors.len() {
        // A stream that covers the block already doesn't hold it up.
        if mixer.wants(stream) {
            reading = reading_for(&cursors[stream], end).max(reading);
        }
    }
    reading
}

/// Returns the clock reading at which a stream's marks come to a block's end, if nothing arrives: the deadline of the
/// slot that holds the block's last instant, a latency past the end if silence can come before a slot, or else the
/// next slot's deadline.
fn reading_for(cursor: &Cursor, end: i64) -> i64
    ensures { IsNotPast (next_deadline_of cursor.now.merge)
        (nat_eq (cursor.now.merge.counts.got + cursor.now.merge.counts.lost) 0)
        cursor.now.spec.frames (end +ℤ pos cursor.now.spec.latency) result }
{
    let spec = cursor.spec();
    let due = end.saturating_add(i64::from(spec.latency()));
    // No slot is to come, so only silence can.
    let Some(slot) = cursor.next_deadline() else {
        return due;
    };
    if slot < due {
        return slot_before(slot, spec.frames(), due);
    }
    let counts = cursor.counts();
    // Before the first slot silence may still come, and it reaches the end at `due`.
    if counts.got == 0 && counts.lost == 0 {
        due
    } else {
        slot
    }
}

/// Returns the last deadline before `due` of the slots that come due at `slot` and every `frames` sampling instants
/// from there.
fn slot_before(slot: i64, frames: u16, due: i64) -> i64
    requires some { 0 < frames }
    requires ahead { slot <ℤ due }
    ensures { result ≡ (due -ℤ pos 1) -ℤ pos (unsigned_abs ((due -ℤ pos 1) -ℤ slot) % frames) }
{
    let last = due - 1;
    let past = last.abs_diff(slot) % u64::from(frames);
    last - past as i64
}
