//! The sums behind a least-squares slope.
ghost use Rattle.std.specs.Prelude.{◌≡◌, ℕ, ◌+◌, ◌<◌, ◌≤◌, ◌^◌, IfSome};
ghost use Rattle.rtp_stats.specs.Drift.{IsSmall, down_of, no_sums, place_in, run_of, up_of, with_point, with_second};

use crate::arrival_margin::ArrivalMargin;

/// The number of points, and the sums over their places and margins.
#[derive(Clone, Copy)]
pub(crate) struct Sums {
    /// The number of points.
    pub(crate) count: u64,
    /// The sum of the places.
    places: u64,
    /// The sum of the margins.
    margins: u64,
    /// The sum of the products of both.
    products: u64,
    /// The sum of the squares of the places.
    squares: u64,
}

/// Returns the place of a second in the minute before the second `now`: 0 for a minute before it, 59 for the second
/// just before it. Returns `None` for a second that is not in that minute.
fn place_in(now: u64, second: u64) -> Option<u64>
    ensures place { result ≡ place_in now second }
    ensures below { IfSome result (λ place. place < 60) }
{
    if second >= now {
        return None;
    }
    let age = now - second;
    if age > 60 {
        return None;
    }
    Some(60 - age)
}

impl Sums {
    /// Returns the sums over no point.
    pub(crate) fn new() -> Sums
        ensures { result ≡ no_sums }
    {
        Sums {
            count: 0,
            places: 0,
            margins: 0,
            products: 0,
            squares: 0,
        }
    }

    /// Returns the sums with a point more.
    fn with_point(self, place: u64, margin: u32) -> Sums
        requires place { place < 60 }
        requires few { IsSmall 59 self }
        ensures value { result ≡ with_point place margin self }
        ensures small { (n : ℕ) → IsSmall n self → IsSmall (n + 1) result }
    {
        let margin = u64::from(margin);
        Sums {
            count: self.count + 1,
            places: self.places + place,
            margins: self.margins + margin,
            products: self.products + place * margin,
            squares: self.squares + place * place,
        }
    }

    /// Returns the sums with the least margin of a second, if it is of the minute before the second `now`.
    pub(crate) fn with_second(self, now: u64, margin: &ArrivalMargin) -> Sums
        requires { IsSmall 59 self }
        ensures value { result ≡ with_second now self margin.now }
        ensures small { (n : ℕ) → IsSmall n self → IsSmall (n + 1) result }
    {
        match place_in(now, margin.second) {
            Some(place) => self.with_point(place, margin.least),
            None => self,
        }
    }

    /// Returns the first part of the slope's rise.
    pub(crate) fn up(&self) -> u64
        requires { IsSmall 60 self.now }
        ensures value { result ≡ up_of self.now }
        ensures small { result < 2 ^ 50 }
    {
        self.count * self.products
    }

    /// Returns the second part of the slope's rise, which is taken from the first.
    pub(crate) fn down(&self) -> u64
        requires { IsSmall 60 self.now }
        ensures value { result ≡ down_of self.now }
        ensures small { result < 2 ^ 50 }
    {
        self.places * self.margins
    }

    /// Returns the slope's run.
    pub(crate) fn run(&self) -> u64
        requires { IsSmall 60 self.now }
        ensures value { result ≡ run_of self.now }
        ensures small { result < 2 ^ 24 }
    {
        (self.count * self.squares).saturating_sub(self.places * self.places)
    }
}
