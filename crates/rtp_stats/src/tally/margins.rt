//! The arrival margins of one path in one second.
ghost use Rattle.std.specs.Prelude.{◌≡◌, ◌<◌, MatchOption};
ghost use Rattle.rtp_stats.specs.Margins.{second_of};
ghost use Rattle.rtp_stats.specs.MarginSecond.{IsMiddle, IsSpareOf, empty_second, second_after, with_spare};

use crate::arrival_margin::ArrivalMargin;

/// The number of bins of a second. Each holds margins of 6 sampling instants, and the last all longer margins.
// 6 sampling instants are 125 microseconds, the shortest packet time of SMPTE ST 2110-30.
const BINS: usize = 1_024;

/// Returns the second of the clock that a time is in, with 48,000 sampling instants each; 0 for a time before 0.
#[inline(always)]
pub fn second_of(now: i64) -> u64
    ensures { result ≡ second_of now }
{
    if now < 0 { 0 } else { now as u64 / 48_000 }
}

/// The arrival margins of a path's packets in a second.
// Bins instead of the margins: the size is fixed, however many packets arrive.
#[derive(Drop)]
pub(crate) struct MarginSecond {
    second: u64,
    /// The number of margins.
    count: u32,
    /// The least margin, in sampling instants.
    least: u32,
    /// The greatest margin, in sampling instants.
    greatest: u32,
    bins: [u32; BINS],
}

impl MarginSecond {
    /// Returns a second in which no packet arrived yet.
    pub(crate) fn new(second: u64) -> MarginSecond
        ensures { result ≡ empty_second second }
    {
        MarginSecond {
            second,
            count: 0,
            least: 0,
            greatest: 0,
            bins: [0; BINS],
        }
    }

    /// Begins another second, with no margin.
    // Out of line: it runs once a second, and `note` stays small at each place that it is inlined to.
    #[inline(never)]
    fn begin(&mut self, second: u64)
        ensures { self.new ≡ empty_second second }
    {
        self.second = second;
        self.count = 0;
        self.least = 0;
        self.greatest = 0;
        self.bins = [0; BINS];
    }

    /// Adds one margin to this second.
    #[inline(always)]
    fn add(&mut self, spare: u32)
        ensures { self.new ≡ with_spare spare self.old }
    {
        if self.count == 0 || spare < self.least {
            self.least = spare;
        }
        self.greatest = self.greatest.max(spare);
        self.count = self.count.saturating_add(1);
        let bin = (spare / 6).min(1_023) as usize;
        self.bins[bin] = self.bins[bin].saturating_add(1);
    }

    /// Notes the margin of a packet in a second, unless a later second has begun.
    #[inline(always)]
    pub(crate) fn note(&mut self, second: u64, spare: u32)
        ensures { self.new ≡ second_after second spare self.old }
    {
        if self.second < second {
            self.begin(second);
            self.add(spare);
        } else if self.second == second {
            self.add(spare);
        }
    }

    /// Returns the least, the median and the greatest margin of a second; `None` if this is another second or has none.
    pub(crate) fn margin_in(&self, second: u64) -> Option<ArrivalMargin>
        ensures { MatchOption result (self.now.second ≡ second → self.now.count ≡ 0) (IsSpareOf self.now second) }
    {
        if self.second != second || self.count == 0 {
            return None;
        }
        Some(ArrivalMargin {
            second,
            least: self.least,
            median: 6 * middle_of(&self.bins, self.count),
            greatest: self.greatest,
        })
    }
}

/// Returns the bin with the middle one of `count` margins, or the last bin.
fn middle_of(bins: &[u32; BINS], count: u32) -> u32
    requires { 0 < count }
    ensures { IsMiddle bins.now count result }
{
    let mut seen: u64 = 0;
    for bin in 0..1_023_u32 {
        seen += u64::from(bins[bin as usize]);
        if 2 * seen >= u64::from(count) {
            return bin;
        }
    }
    1_023
}
