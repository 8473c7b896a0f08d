//! The names of the conditions of a path, their values as metrics, and how many paths bring the audio.
ghost use Rattle.std.specs.Prelude.{◌≡◌, ◌≤◌};
ghost use Rattle.status_page.specs.PathConditions.{
  counts_as,
  has_path_condition,
  path_condition_text,
  redundancy,
};

use crate::snapshot::{PathCondition, PathState};

/// All conditions of a path, in the order in which `/metrics` lists them.
pub(crate) const PATH_CONDITIONS: [PathCondition; 8] = [
    PathCondition::GivenUp,
    PathCondition::NotJoined,
    PathCondition::NoDatagrams,
    PathCondition::Refused,
    PathCondition::Late,
    PathCondition::TooEarly,
    PathCondition::Losing,
    PathCondition::InTime,
];

impl PathCondition {
    /// Returns the condition's name in `/state` and `/metrics`.
    pub(crate) fn text(self) -> &'static str
        ensures { result.now ≡ path_condition_text self }
    {
        match self {
            PathCondition::GivenUp => "given_up",
            PathCondition::NotJoined => "not_joined",
            PathCondition::NoDatagrams => "no_datagrams",
            PathCondition::Refused => "refused",
            PathCondition::Late => "late",
            PathCondition::TooEarly => "too_early",
            PathCondition::Losing => "losing",
            PathCondition::InTime => "in_time",
        }
    }

    /// Returns 1 if both conditions are the same, and 0 otherwise: the value of the metric of a path's condition.
    pub(crate) fn holds(self, other: PathCondition) -> u64
        ensures { result ≡ has_path_condition self other }
    {
        // By cases, as the contract's `has_path_condition` is.
        match (self, other) {
            (PathCondition::GivenUp, PathCondition::GivenUp)
            | (PathCondition::NotJoined, PathCondition::NotJoined)
            | (PathCondition::NoDatagrams, PathCondition::NoDatagrams)
            | (PathCondition::Refused, PathCondition::Refused)
            | (PathCondition::Late, PathCondition::Late)
            | (PathCondition::TooEarly, PathCondition::TooEarly)
            | (PathCondition::Losing, PathCondition::Losing)
            | (PathCondition::InTime, PathCondition::InTime) => 1,
            _ => 0,
        }
    }
}

/// Returns how many of these paths bring the audio of their stream.
#[tactic(auto, unfolding(crate::specs::PathConditions::redundancy))]
pub(crate) fn redundancy(paths: &[PathState]) -> u64
    ensures { result ≡ redundancy paths.now }
{
    let mut count = 0;
    for path in paths {
        count += counts_as(path.condition);
    }
    count
}

/// Returns 1 for a path by which alone the audio would go on, with gaps if it is losing, and 0 for any other.
fn counts_as(condition: Option<PathCondition>) -> u64
    ensures value { result ≡ counts_as condition }
    ensures one { result ≤ 1 }
{
    match condition {
        Some(PathCondition::Losing | PathCondition::InTime) => 1,
        _ => 0,
    }
}
