//! Counters of packets by path and fate.
ghost use Rattle.std.specs.Prelude.{◌≡◌, ◌<◌, [], ◌∷◌};
ghost use Rattle.rtp_stats.specs.Counts.{one_more};

use rtp_stream::{Fate, Path};

/// Adds one to a path's counter, which stays at its greatest value once it is reached.
#[inline(always)]
fn add_one_at(numbers: &mut [u64; 4], at: usize)
    requires { at < 4 }
    ensures { numbers.new ≡ one_more at numbers.old }
{
    numbers[at] = numbers[at].saturating_add(1);
}

/// The numbers of packets with five kinds of fates, by path. `PathTally` says which fates.
#[derive(Clone, Copy)]
pub(crate) struct FateCounts {
    pub(crate) first: [u64; 4],
    pub(crate) double: [u64; 4],
    pub(crate) unlike: [u64; 4],
    pub(crate) late: [u64; 4],
    pub(crate) ahead: [u64; 4],
}

impl FateCounts {
    ghost use Rattle.rtp_stats.specs.Counts.{with_fate};

    /// Counters that are all 0.
    pub(crate) fn new() -> FateCounts
        ensures { result ≡ record { first = 0 ∷ 0 ∷ 0 ∷ 0 ∷ []; double = 0 ∷ 0 ∷ 0 ∷ 0 ∷ []; unlike = 0 ∷ 0 ∷ 0 ∷ 0 ∷ []; late = 0 ∷ 0 ∷ 0 ∷ 0 ∷ []; ahead = 0 ∷ 0 ∷ 0 ∷ 0 ∷ [] } }
    {
        FateCounts {
            first: [0; 4],
            double: [0; 4],
            unlike: [0; 4],
            late: [0; 4],
            ahead: [0; 4],
        }
    }

    /// Counts a packet by its path and fate.
    #[inline(always)]
    pub(crate) fn add(&mut self, path: Path, fate: Fate)
        ensures value { self.new ≡ with_fate path fate self.old }
        ensures path { path < 4 }
    {
        let at = usize::from(path.number());
        match fate {
            Fate::Taken | Fate::Restarted => add_one_at(&mut self.first, at),
            Fate::Double => add_one_at(&mut self.double, at),
            Fate::Unlike => add_one_at(&mut self.unlike, at),
            Fate::Late => add_one_at(&mut self.late, at),
            Fate::Ahead => add_one_at(&mut self.ahead, at),
            Fate::Closed | Fate::CountersFull | Fate::WrongSource | Fate::OffGrid => {}
        }
    }
}
