//! A law of marks and of the capacity of lanes. Nothing is computed here: the clauses are the law.
ghost use Rattle.std.specs.Prelude.{◌≡◌, ℕ, ◌<◌, ◌≤◌, List, length, true, Some};
ghost use Rattle.rtp_stream.specs.MarkFacts.{MarkView};
ghost use Rattle.studio_config.specs.Studio.{Studio};
ghost use Rattle.studio_mix.specs.Feed.{Feed};
ghost use Rattle.studio_mix.specs.Mixer.{HasFeeds, MixerState, has_space_of};
ghost use Rattle.studio_session.specs.Event.{TraceEvent};
ghost use Rattle.studio_session.specs.Cursor.{CursorState, next_of};
ghost use Rattle.studio_session.specs.Play.{Plays};
ghost use Rattle.studio_engine.specs.Near.{HasCapacities, IsAwaited, MarksAreNear};

/// States that the streams' marks are near one another before a close, while a block isn't ready by all marks of the
/// events so far. A mixer for early marks whose next block is this one has space for each of them, whatever it was fed,
/// and for the next mark of a cursor that took all events.
pub fn marks_are_near()
    ensures all { (studio : Studio) (events : List TraceEvent) (mixer : MixerState) (feeds : List Feed) (next : ℕ)
        → IsAwaited studio events next → HasFeeds studio mixer feeds next → HasCapacities studio mixer
        → MarksAreNear studio events mixer }
    ensures next { (studio : Studio) (events : List TraceEvent) (mixer : MixerState) (feeds : List Feed)
        (next number : ℕ) (cursor : CursorState) (mark : MarkView)
        → IsAwaited studio events next → HasCapacities studio mixer → number < length feeds
        → Plays studio events feeds next number mixer cursor → length events ≤ cursor.place
        → next_of cursor ≡ Some mark → has_space_of mixer number mark ≡ true }
{}
