//! A law of clock readings. Nothing is computed here: the clauses are the law.
ghost use Rattle.std.specs.Prelude.{◌≡◌, ℤ, List, [], ◌∷◌, ◌++◌, None};
ghost use Rattle.studio_config.specs.Studio.{Studio};
ghost use Rattle.studio_session.specs.Event.{Tick, TraceEvent};
ghost use Rattle.studio_session.specs.Fault.{session_fault_of};
ghost use Rattle.studio_session.specs.Play.{IsRunnableBy};
ghost use Rattle.studio_session.specs.Pruned.{IsSameRun, pruned_events};

/// States that a clock reading which is directly followed by another one may be left out, and so may all such readings.
/// If events have no fault, they have none without these readings either, and the datagrams and the counts stay the
/// same. There may be fewer Quiets.
pub fn ticks_may_be_left_out()
    ensures one { (studio : Studio) (first rest : List TraceEvent) (a b : ℤ) → IsRunnableBy studio []
        → session_fault_of studio (first ++ Tick a ∷ Tick b ∷ rest) ≡ None
        → IsSameRun studio (first ++ Tick a ∷ Tick b ∷ rest) (first ++ Tick b ∷ rest) }
    ensures all { (studio : Studio) (events : List TraceEvent) → IsRunnableBy studio []
        → session_fault_of studio events ≡ None → IsSameRun studio events (pruned_events events) }
{}
