//! One stream's marks, fed to the mixer while it wants them.
ghost use Rattle.std.specs.Prelude.{◌≡◌, ℕ, ◌<◌, List, length, true, false, None, IfSome};
ghost use Rattle.studio_config.specs.Studio.{Studio};
ghost use Rattle.studio_mix.specs.Feed.{Feed};
ghost use Rattle.studio_mix.specs.Mixer.{is_wanted_by};
ghost use Rattle.studio_mix.specs.LaneCapacity.{capacities_of};
ghost use Rattle.studio_session.specs.Event.{TraceEvent};
ghost use Rattle.studio_session.specs.Cursor.{IsReadyFor, IsSameCursor};
ghost use Rattle.studio_session.specs.Play.{IsRunnableBy, TakesMark, Plays, PlaysOut, PlaysFinal};

use crate::cursor::Cursor;
use crate::source::{DatagramBuffer, EventSource};
use rtp_stream::MarkRef;
use studio_mix::Mixer;

/// Feeds a stream's mark to the mixer, if there is one and the mixer accepts it.
fn hand_on(mixer: &mut Mixer, stream: usize, mark: Option<MarkRef<'_>>)
    requires stream { stream < length mixer.old.lanes }
    requires wanted { is_wanted_by mixer.old stream ≡ true }
    ensures stands { IfSome mark.entry (TakesMark mixer.old mixer.new stream) }
    ensures none { mark.entry ≡ None → mixer.new ≡ mixer.old }
    ensures packer { mixer.new.packer ≡ mixer.old.packer }
    ensures streams { length mixer.new.lanes ≡ length mixer.old.lanes }
    ensures capacities { capacities_of mixer.new.lanes ≡ capacities_of mixer.old.lanes }
{
    let Some(mark) = mark else {
        return;
    };
    if mixer.accepts_ref(stream, &mark) {
        mixer.feed_ref(stream, &mark);
    }
}

/// Feeds the marks of the events that a cursor took to the mixer. Returns true if none is left, and false if the
/// mixer wants no more.
pub fn pull_marks(mixer: &mut Mixer, stream: usize, cursor: &mut Cursor) -> bool
    requires stream { stream < length mixer.old.lanes }
    ensures out { result ≡ true → (studio : Studio) (events : List TraceEvent) (feeds : List Feed) (next : ℕ)
        → IsRunnableBy studio events → stream < length feeds
        → Plays studio events feeds next stream mixer.old cursor.old
        → PlaysOut studio events feeds next stream mixer.new cursor.new }
    ensures covered { result ≡ false → (studio : Studio) (events : List TraceEvent) (feeds : List Feed) (next : ℕ)
        → IsRunnableBy studio events → stream < length feeds
        → Plays studio events feeds next stream mixer.old cursor.old
        → PlaysFinal studio events feeds next stream mixer.new cursor.new }
    ensures settled { result ≡ true → cursor.new.reading ≡ None }
    ensures stays_idle { cursor.old.reading ≡ None → cursor.new.reading ≡ None }
    ensures kept { IsSameCursor cursor.old cursor.new }
    ensures packer { mixer.new.packer ≡ mixer.old.packer }
    ensures streams { length mixer.new.lanes ≡ length mixer.old.lanes }
    ensures capacities { capacities_of mixer.new.lanes ≡ capacities_of mixer.old.lanes }
{
    // The label names the loop in its proof.
    'marks: loop {
        // `wants` is tested before each mark, so that a lane never holds more than a block and a packet.
        if !mixer.wants(stream) {
            return false;
        }
        hand_on(mixer, stream, cursor.mark());
        if !cursor.pass() {
            return true;
        }
    }
}

/// Feeds a stream's marks to the mixer until it wants no more, or all events were taken.
pub(crate) fn pull<E: EventSource>(
    mixer: &mut Mixer,
    stream: usize,
    cursor: &mut Cursor,
    source: &E,
    buffer: &mut DatagramBuffer,
)
    requires stream { stream < length mixer.old.lanes }
    requires ready { IsReadyFor (E.events source.now) cursor.old }
    ensures ready { IsReadyFor (E.events source.now) cursor.new }
    ensures stands { (studio : Studio) (feeds : List Feed) (next : ℕ)
        → IsRunnableBy studio (E.events source.now) → stream < length feeds
        → Plays studio (E.events source.now) feeds next stream mixer.old cursor.old
        → PlaysFinal studio (E.events source.now) feeds next stream mixer.new cursor.new }
    ensures packer { mixer.new.packer ≡ mixer.old.packer }
    ensures streams { length mixer.new.lanes ≡ length mixer.old.lanes }
{
    // The label names the loop in its proof.
    'events: loop {
        if !pull_marks(mixer, stream, cursor) {
            return;
        }
        if !cursor.take_event(source, buffer) {
            return;
        }
    }
}
