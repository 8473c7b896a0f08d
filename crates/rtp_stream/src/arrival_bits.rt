//! The last 256 arrivals of a path as bits: whether each passed a test.
ghost use Rattle.std.specs.Prelude.{◌≡◌};
ghost use Rattle.rtp_stream.specs.ArrivalBits as spec;
ghost use Rattle.rtp_stream.specs.ArrivalBits.{are_often, bits_with, has_top, no_bits};

/// The number of a path's last 256 arrivals that have to pass the test.
// Not 8 in a row: the first packets of a burst may be late, and the last ones not. Of 256, since a sender whose bursts
// lose one packet in ten by lateness has never 8 late ones among 64.
const MIN_PASSED: u32 = 8;

/// The highest bit of a word, 2^63.
const TOP: u64 = 9_223_372_036_854_775_808;

/// A bit for each of the last 256 arrivals, the latest the lowest of `latest`: it is 1 if the arrival passed the test.
#[derive(Clone, Copy, Debug)]
pub struct ArrivalBits {
    /// The last 64 arrivals.
    pub latest: u64,
    /// The 64 arrivals before these.
    pub second: u64,
    /// The 64 arrivals before these.
    pub third: u64,
    /// The 64 arrivals before these.
    pub oldest: u64,
}

/// Returns the word with one more bit as the lowest; its highest bit falls off.
fn shift_in(bits: u64, bit: bool) -> u64
    ensures { result ≡ spec.shifted bits bit }
{
    let lowest = if bit { 1 } else { 0 };
    bits.wrapping_add(bits).wrapping_add(lowest)
}

/// Returns true if the highest bit of a word is set.
fn is_top_set(bits: u64) -> bool
    ensures { result ≡ has_top bits }
{
    bits >= TOP
}

impl ArrivalBits {
    /// Returns the bits of no arrivals.
    pub fn new() -> ArrivalBits
        ensures { result ≡ no_bits }
    {
        ArrivalBits {
            latest: 0,
            second: 0,
            third: 0,
            oldest: 0,
        }
    }

    /// Returns the bits with one more arrival, as the latest; the oldest of 256 is left out.
    pub fn with(self, passed: bool) -> ArrivalBits
        ensures { result ≡ bits_with self passed }
    {
        ArrivalBits {
            latest: shift_in(self.latest, passed),
            second: shift_in(self.second, is_top_set(self.latest)),
            third: shift_in(self.third, is_top_set(self.second)),
            oldest: shift_in(self.oldest, is_top_set(self.third)),
        }
    }

    /// Returns true if at least 8 of the last 256 arrivals passed the test.
    pub fn are_often(self) -> bool
        ensures { result ≡ are_often self }
    {
        let newer = self.latest.count_ones() + self.second.count_ones();
        let older = self.third.count_ones() + self.oldest.count_ones();
        newer + older >= MIN_PASSED
    }
}
