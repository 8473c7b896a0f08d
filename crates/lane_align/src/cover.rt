//! The cover: the times at which the values of a stream are known.
ghost use Rattle.std.specs.Prelude.{◌≡◌};
ghost use Rattle.lane_align.specs.Cover as spec;

/// The times that the marks of a stream cover.
#[derive(Clone, Copy, Debug, PartialEq, Eq)]
pub enum Cover {
    /// No time: there was no mark yet.
    Nothing,
    /// The times before this one, in sampling instants.
    Until(i64),
    /// All times: the stream has ended.
    All,
}

impl Cover {
    /// Returns true if every time before `t` is covered.
    pub fn covers(self, t: i64) -> bool
        ensures { result ≡ spec.covers self t }
    {
        match self {
            Cover::Nothing => false,
            Cover::Until(until) => t <= until,
            Cover::All => true,
        }
    }
}
