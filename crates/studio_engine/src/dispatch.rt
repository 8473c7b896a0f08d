//! Passes an event to the streams of an engine.
ghost use Rattle.std.specs.Prelude.{◌≡◌, ℕ, ◌<◌, ◌≤◌, ◌+◌, List, ℤ, length, slice_get, Some, None, IfSome};
ghost use Rattle.rtp_stream.specs.declared.stream_spec.Stream.{Stream};
ghost use Rattle.studio_session.specs.Event.{TraceEvent, Arrival, Tick, Closing};
ghost use Rattle.studio_session.specs.Cursor.{CursorState, HasPulled};
ghost use Rattle.studio_session.specs.PushedEvents.{AreHanded};
ghost use Rattle.studio_session.specs.ArriveOutcome.{outcome_of};
ghost use Rattle.studio_engine.specs.Cursors.{AreBehind, all_at};
ghost use Rattle.studio_engine.specs.Engine.{AreIdle, HaveCome};

use rtp_stream::Path;
use studio_session::{ArriveOutcome, Cursor};

/// Lets every cursor pass over the events that it missed, so that each has passed `count` events.
pub(crate) fn catch_up(cursors: &mut [Cursor], count: usize)
    requires behind { AreBehind count cursors.old }
    ensures { cursors.new ≡ all_at count cursors.old }
{
    // The loop goes by index, since a proof knows nothing of the elements after `iter_mut().enumerate()`.
    for number in 0..cursors.len() {
        cursors[number].pass_to(count);
    }
}

/// Passes a datagram to its stream and returns the outcome, or `None` if there is no such stream. The other streams
/// pass over it once they `catch_up`.
pub(crate) fn push_datagram(
    cursors: &mut [Cursor],
    count: usize,
    stream: usize,
    path: Path,
    octets: &[u8],
) -> Option<ArriveOutcome>
    requires idle { AreIdle cursors.old }
    requires behind { AreBehind count cursors.old }
    requires few { count < usize.MAX }
    requires path { (cursor : CursorState) → slice_get cursors.old stream ≡ Some cursor → path < cursor.spec.paths }
    ensures handed { IfSome result (λ _. AreHanded (Arrival stream path octets.now)
        (all_at count cursors.old) (all_at (count + 1) cursors.new) (length cursors.old)) }
    ensures behind { AreBehind (count + 1) cursors.new }
    ensures idle { AreIdle cursors.new }
    ensures none { result ≡ None → length cursors.old ≤ stream }
    ensures kept { result ≡ None → cursors.new ≡ cursors.old }
    ensures outcome { IfSome result
        (λ outcome. (cursor : CursorState) (spec : Stream) (number : ℕ) (open_at : ℤ) (events : List TraceEvent) (k : ℕ)
        → slice_get (all_at count cursors.old) stream ≡ Some cursor → count ≡ length events
        → HasPulled spec number open_at events cursor k
        → outcome ≡ outcome_of spec number open_at events path octets.now) }
{
    if stream >= cursors.len() {
        return None;
    }
    cursors[stream].pass_to(count);
    Some(cursors[stream].push_datagram(path, octets))
}

/// Passes a clock reading to every stream.
pub(crate) fn push_tick(cursors: &mut [Cursor], count: usize, now: i64)
    requires idle { AreIdle cursors.old }
    requires come { HaveCome count cursors.old }
    requires few { count < usize.MAX }
    ensures handed { AreHanded (Tick now) cursors.old cursors.new (length cursors.old) }
    ensures come { HaveCome (count + 1) cursors.new }
{
    for number in 0..cursors.len() {
        cursors[number].push_tick(now);
    }
}

/// Passes a close to every stream.
pub(crate) fn push_close(cursors: &mut [Cursor], count: usize)
    requires idle { AreIdle cursors.old }
    requires come { HaveCome count cursors.old }
    requires few { count < usize.MAX }
    ensures handed { AreHanded Closing cursors.old cursors.new (length cursors.old) }
    ensures come { HaveCome (count + 1) cursors.new }
    ensures idle { AreIdle cursors.new }
{
    for number in 0..cursors.len() {
        cursors[number].push_close();
    }
}
