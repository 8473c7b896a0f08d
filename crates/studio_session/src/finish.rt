//! The events that are left to a stream, taken for its counts.
ghost use Rattle.std.specs.Prelude.{◌≡◌, ℕ, List, ℤ, None};
ghost use Rattle.rtp_stream.specs.declared.stream_spec.Stream.{Stream};
ghost use Rattle.studio_session.specs.Event.{TraceEvent};
ghost use Rattle.studio_session.specs.Cursor.{IsReadyFor, IsRunnable, IsSameCursor};
ghost use Rattle.studio_session.specs.Report.{HasCounts, HasPulledAll, HasPulledSome};

use crate::cursor::Cursor;
use crate::source::EventSource;
use rtp_wire::MAX_ARRIVAL_OCTETS;

/// Drops the marks of the events that were taken.
fn drop_marks(cursor: &mut Cursor)
    ensures stands { (stream : Stream) (number : ℕ) (open_at : ℤ) (events : List TraceEvent)
        → IsRunnable stream number open_at events
        → HasPulledSome stream number open_at events cursor.old → HasPulledAll stream number open_at events cursor.new }
    ensures settled { cursor.new.reading ≡ None }
    ensures kept { IsSameCursor cursor.old cursor.new }
{
    // The label names the loop in its proof.
    'marks: while cursor.pass() {}
}

/// Takes all events that are left, and drops the marks, so that the cursor's counts are complete.
pub fn finish_stream<E: EventSource>(cursor: &mut Cursor, source: &E)
    requires ready { IsReadyFor (E.events source.now) cursor.old }
    ensures ready { IsReadyFor (E.events source.now) cursor.new }
    ensures stands { (stream : Stream) (number : ℕ) (open_at : ℤ)
        → IsRunnable stream number open_at (E.events source.now)
        → HasPulledSome stream number open_at (E.events source.now) cursor.old
        → HasCounts stream number open_at (E.events source.now) cursor.new }
{
    let mut buffer = [0; MAX_ARRIVAL_OCTETS];
    // The label names the loop in its proof.
    'events: loop {
        drop_marks(cursor);
        if !cursor.take_event(source, &mut buffer) {
            return;
        }
    }
}
