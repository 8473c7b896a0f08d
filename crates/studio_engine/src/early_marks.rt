//! Marks that no block needs yet, kept stream by stream, so that every merge reaches the clock reading.
ghost use Rattle.std.specs.Prelude.{◌≡◌, ℕ, ◌<◌, ◌≤◌, List, length, true, false, None, IfSome};
ghost use Rattle.studio_config.specs.Studio.{Studio};
ghost use Rattle.studio_mix.specs.Feed.{Feed};
ghost use Rattle.studio_mix.specs.Mixer.{has_space_of};
ghost use Rattle.studio_mix.specs.LaneCapacity.{capacities_of};
ghost use Rattle.studio_session.specs.Event.{TraceEvent};
ghost use Rattle.studio_session.specs.Cursor.{IsSameCursor};
ghost use Rattle.studio_session.specs.PushedEvents.{HaveTaken};
ghost use Rattle.studio_session.specs.Play.{HasPlayed, IsRunnableBy, Plays, TakesMark};
ghost use Rattle.studio_engine.specs.Engine.{AreIdle, HaveCome};
ghost use Rattle.studio_engine.specs.Near.{HasCapacities, IsAwaited};

use rtp_stream::MarkRef;
use studio_mix::Mixer;
use studio_session::Cursor;

/// Keeps a mark of a stream, if there is one that the mixer accepts. Returns false if its lane has no space.
fn keep_one(mixer: &mut Mixer, stream: usize, mark: Option<MarkRef<'_>>) -> bool
    requires stream { stream < length mixer.old.lanes }
    ensures stands { result ≡ true → IfSome mark.entry (TakesMark mixer.old mixer.new stream) }
    ensures none { mark.entry ≡ None → mixer.new ≡ mixer.old }
    ensures full { result ≡ false → mixer.new ≡ mixer.old }
    ensures space { IfSome mark.entry (λ m. has_space_of mixer.old stream m ≡ true) → result ≡ true }
    ensures packer { mixer.new.packer ≡ mixer.old.packer }
    ensures streams { length mixer.new.lanes ≡ length mixer.old.lanes }
    ensures capacities { capacities_of mixer.new.lanes ≡ capacities_of mixer.old.lanes }
{
    let Some(mark) = mark else {
        return true;
    };
    if !mixer.accepts_ref(stream, &mark) {
        return true;
    }
    if !mixer.has_space(stream, &mark) {
        return false;
    }
    mixer.keep_ref(stream, &mark);
    true
}

/// Keeps the marks of the events that a cursor took. Returns false if its lane has no space for one.
fn keep_marks(mixer: &mut Mixer, stream: usize, cursor: &mut Cursor) -> bool
    requires stream { stream < length mixer.old.lanes }
    ensures stands { (studio : Studio) (events : List TraceEvent) (feeds : List Feed) (next : ℕ)
        → IsRunnableBy studio events → stream < length feeds
        → Plays studio events feeds next stream mixer.old cursor.old
        → Plays studio events feeds next stream mixer.new cursor.new }
    ensures all { (studio : Studio) (events : List TraceEvent) (feeds : List Feed) (next : ℕ)
        → IsAwaited studio events next → HasCapacities studio mixer.old → stream < length feeds
        → Plays studio events feeds next stream mixer.old cursor.old
        → length events ≤ cursor.old.place → result ≡ true }
    ensures settled { result ≡ true → cursor.new.reading ≡ None }
    ensures stays_idle { cursor.old.reading ≡ None → cursor.new.reading ≡ None }
    ensures kept { IsSameCursor cursor.old cursor.new }
    ensures packer { mixer.new.packer ≡ mixer.old.packer }
    ensures streams { length mixer.new.lanes ≡ length mixer.old.lanes }
    ensures capacities { capacities_of mixer.new.lanes ≡ capacities_of mixer.old.lanes }
{
    // The label names the loop in its proof.
    'marks: loop {
        if !keep_one(mixer, stream, cursor.mark()) {
            return false;
        }
        if !cursor.pass() {
            return true;
        }
    }
}

/// Keeps each stream's marks of the events so far. Returns false if a lane has no space for one.
pub(crate) fn keep_early_marks(mixer: &mut Mixer, cursors: &mut [Cursor]) -> bool
    requires streams { length cursors.old ≡ length mixer.old.lanes }
    ensures stands { (studio : Studio) (events : List TraceEvent) (next : ℕ) → IsRunnableBy studio events
        → HasPlayed studio events (record { mixer = mixer.old; cursors = cursors.old }) next
        → HasPlayed studio events (record { mixer = mixer.new; cursors = cursors.new }) next }
    ensures all { (studio : Studio) (events : List TraceEvent) (next : ℕ)
        → IsAwaited studio events next → HasCapacities studio mixer.old → HaveTaken events cursors.old
        → HasPlayed studio events (record { mixer = mixer.old; cursors = cursors.old }) next → result ≡ true }
    ensures come { (count : ℕ) → HaveCome count cursors.old → HaveCome count cursors.new }
    ensures idle { result ≡ true → AreIdle cursors.new }
    ensures packer { mixer.new.packer ≡ mixer.old.packer }
    ensures streams { length mixer.new.lanes ≡ length mixer.old.lanes }
    ensures capacities { capacities_of mixer.new.lanes ≡ capacities_of mixer.old.lanes }
{
    let mut all = true;
    // The loop goes by index, since a proof knows nothing of the elements after `iter_mut().enumerate()`.
    for stream in 0..cursors.len() {
        all &= keep_marks(mixer, stream, &mut cursors[stream]);
    }
    all
}
