//! Laws over the definitions of the counts. The functions compute nothing: their clauses are the laws.
ghost use Rattle.std.specs.Prelude.{◌≡◌, ◌+◌, ◌<◌, ℕ, List, reverse};
ghost use Rattle.std.specs.List.{All};
ghost use Rattle.rtp_stats.specs.Offer.{Offer};
ghost use Rattle.rtp_stats.specs.Laws.{BringsEach, left_of};
ghost use Rattle.rtp_stats.specs.Missed.{missed_of};
ghost use Rattle.rtp_stats.specs.Offers.{first_of, taken_of};

/// States that each number that was taken is first on exactly one path: the first copies of the four paths add up to
/// the numbers taken.
pub fn each_number_is_first_on_one_path()
    ensures { (offers : List Offer) → All (λ o. o.path < 4) offers →
        first_of 0 offers + first_of 1 offers + first_of 2 offers + first_of 3 offers ≡ taken_of offers }
{}

/// States that a path misses exactly the numbers that were taken from another path and then given up: the next number
/// at their place was taken before this path brought a copy. So a path that brings a copy of each number in time misses
/// none.
pub fn a_path_misses_what_it_gives_up()
    ensures missed { (window path : ℕ) (offers : List Offer) →
        missed_of window path offers ≡ left_of window path (reverse offers) }
    ensures none { (window path : ℕ) (offers : List Offer) →
        BringsEach window path (reverse offers) → missed_of window path offers ≡ 0 }
{}
