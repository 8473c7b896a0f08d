//! Laws of reports. Nothing is computed here: the clauses are the laws.
ghost use Rattle.std.specs.Prelude.{◌≡◌, ◌<◌, ℕ, List};
ghost use Rattle.studio_config.specs.Studio.{Studio};
ghost use Rattle.studio_session.specs.Event.{TraceEvent};
ghost use Rattle.studio_run.specs.StudioReport.{IsReport};

/// States that any events have a report, by a studio whose output has frames, as that of every `StudioSpec` has.
pub fn events_have_a_report()
    ensures { (studio : Studio) (events : List TraceEvent) → 0 < studio.output.frames
        → (report : List ℕ) × IsReport studio events report }
{}

/// States that events have no two reports. So the text that `play` writes of a trace is the only one that its
/// contract allows.
pub fn a_report_is_the_only_one()
    ensures { (studio : Studio) (events : List TraceEvent) (one other : List ℕ) → IsReport studio events one
        → IsReport studio events other → one ≡ other }
{}
