//! The names of the conditions of a stream, and their values as metrics.
ghost use Rattle.std.specs.Prelude.{◌≡◌};
ghost use Rattle.status_page.specs.Metrics.{condition_text, has_condition};

use crate::snapshot::Condition;

/// All conditions of a stream, in the order in which `/metrics` lists them.
pub(crate) const CONDITIONS: [Condition; 4] = [
    Condition::NoPacket,
    Condition::Running,
    Condition::SignalLost,
    Condition::Ended,
];

impl Condition {
    /// Returns the condition's name in `/state` and `/metrics`.
    pub(crate) fn text(self) -> &'static str
        ensures { result.now ≡ condition_text self }
    {
        match self {
            Condition::NoPacket => "no_packet",
            Condition::Running => "running",
            Condition::SignalLost => "lost",
            Condition::Ended => "ended",
        }
    }

    /// Returns 1 if both conditions are the same, and 0 otherwise: the value of the metric of a stream's condition.
    pub(crate) fn holds(self, other: Condition) -> u64
        ensures { result ≡ has_condition self other }
    {
        // By cases, as the contract's `has_condition` is.
        match (self, other) {
            (Condition::NoPacket, Condition::NoPacket)
            | (Condition::Running, Condition::Running)
            | (Condition::SignalLost, Condition::SignalLost)
            | (Condition::Ended, Condition::Ended) => 1,
            _ => 0,
        }
    }
}
