//! Lost slots next to each other, and where they are on an axis.
ghost use Rattle.std.specs.Prelude.{◌≡◌, ◌+◌, ◌-◌, ◌*◌, ◌^◌, ◌<◌, ◌≤◌, ◌+ℤ◌, pos};
ghost use Rattle.std.specs.Int.{int_min};
ghost use Rattle.reception_chart.specs.Axis.{length_between};
ghost use Rattle.reception_chart.specs.Bins.{count_before, count_in, lost_events};

use crate::reception::axis::Axis;

/// Lost slots next to each other: each begins a packet after the one before it.
#[derive(Clone, Copy, PartialEq, Eq)]
pub struct LostSlots {
    /// The media time at which the first slot begins.
    pub first: i64,
    /// The sampling instants of a packet.
    pub frames: u16,
    /// The number of slots.
    pub count: u64,
    pub ghost some: { 0 < frames },
}

impl LostSlots {
    /// Returns the media time at which the last slot ends, or the greatest `i64` if that is less.
    pub(crate) fn end(&self) -> i64
        ensures { result ≡ int_min (self.now.first +ℤ pos (self.now.count * self.now.frames)) (pos (2 ^ 63 - 1)) }
    {
        let length = u128::from(self.count) * u128::from(self.frames);
        let end = i128::from(self.first) + length as i128;
        end.min(i128::from(i64::MAX)) as i64
    }

    /// Returns the number of slots in an interval of an axis.
    pub(crate) fn in_bin(&self, axis: &Axis, bin: usize) -> u64
        requires { bin < axis.now.bins }
        ensures { result ≡ count_in axis.now
            (lost_events self.now.first self.now.frames self.now.count) bin 6 }
    {
        self.before(axis, bin + 1) - self.before(axis, bin)
    }

    /// Returns the number of slots in the intervals before this one.
    fn before(&self, axis: &Axis, bin: usize) -> u64
        requires { bin ≤ axis.now.bins }
        ensures { result ≡ count_before axis.now
            (lost_events self.now.first self.now.frames self.now.count) bin }
    {
        if bin == 0 {
            return 0;
        }
        // The last interval also has the slots that begin after its end.
        if bin == axis.bins {
            return self.count;
        }
        let slots = self.lead(axis, bin).div_ceil(u128::from(self.frames));
        slots.min(u128::from(self.count)) as u64
    }

    /// Returns the time from the first slot to the beginning of an interval, or 0 if that is earlier.
    // In 128 bits, which hold each product and sum without a test.
    fn lead(&self, axis: &Axis, bin: usize) -> u128
        requires { bin ≤ axis.now.bins }
        ensures { result ≡ length_between self.now.first (axis.now.first +ℤ pos (bin * axis.now.span)) }
    {
        let offset = bin as u128 * u128::from(axis.span);
        if self.first <= axis.first {
            offset + u128::from(axis.first.abs_diff(self.first))
        } else {
            offset.saturating_sub(u128::from(self.first.abs_diff(axis.first)))
        }
    }
}
