//! Laws of runs. Nothing is computed here: the clauses are the laws.
ghost use Rattle.std.specs.Prelude.{◌≡◌, ℕ, ℤ, List, Option};
ghost use Rattle.studio_config.specs.Studio.{Studio};
ghost use Rattle.studio_io.specs.Answers.{Answer};
ghost use Rattle.studio_io.specs.declared.report.WorkReport.{WorkReport};
ghost use Rattle.engine_run.specs.Runs.{IsSettledRun, IsSettledRunWith};
ghost use Rattle.engine_run.specs.Observers.{Heard};

/// States that a settled run whose source took no change is a settled run of the studio with which it began, and that
/// each settled run of that studio is one without a change.
pub fn a_run_without_changes_is_one_of_its_studio()
    ensures none { (studio : Studio) (all : List (List Answer)) (clock : List ℤ) (report : WorkReport)
        (before after : Option (List (List ℕ))) (earlier later : Option (List Heard)) (taken : List (ℤ × List ℤ))
        → IsSettledRunWith studio all clock report before after earlier later taken taken
        → IsSettledRun studio all clock report before after earlier later }
    ensures same { (studio : Studio) (all : List (List Answer)) (clock : List ℤ) (report : WorkReport)
        (before after : Option (List (List ℕ))) (earlier later : Option (List Heard)) (taken : List (ℤ × List ℤ))
        → IsSettledRun studio all clock report before after earlier later
        → IsSettledRunWith studio all clock report before after earlier later taken taken }
{}
