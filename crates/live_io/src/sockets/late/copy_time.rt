//! When a copy of the mix is sent.
ghost use Rattle.std.specs.Prelude.{◌≡◌};
ghost use Rattle.live_io.specs.LateCopies.{copy_time_of};

use studio_io::Missing;

/// When a copy of the mix is sent.
#[derive(Clone, Copy, Debug, PartialEq, Eq)]
pub enum CopyTime {
    /// At once.
    AtOnce,
    /// Once the delay after the time at which it is due.
    Late,
    /// Twice the delay after it.
    Later,
    /// Never: nothing is in it that its listeners lack.
    Never,
}

impl CopyTime {
    /// Returns when a copy is sent in whose block this is missing, with this delay. While a run yields, each copy waits
    /// as if two streams were missing in it. With a delay of 0 all are sent at once.
    pub fn of(missing: Missing, late: u16, yields: bool) -> CopyTime
        ensures { result ≡ copy_time_of missing late yields }
    {
        if late == 0 {
            return CopyTime::AtOnce;
        }
        if missing.is_empty {
            return CopyTime::Never;
        }
        if yields || missing.streams > 1 {
            return CopyTime::Later;
        }
        if missing.streams == 1 {
            return CopyTime::Late;
        }
        CopyTime::AtOnce
    }
}
