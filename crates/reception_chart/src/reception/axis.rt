//! The axis of a chart: media time in intervals of the same length.
ghost use Rattle.std.specs.Prelude.{◌≡◌, ◌<◌, ◌≤◌};
ghost use Rattle.reception_chart.specs.Axis.{length_between, span_of};

/// The greatest number of intervals of an axis.
pub(crate) const MAX_BINS: usize = 480;

/// A stretch of media time in adjacent intervals, in sampling instants at 48 kHz.
#[derive(Clone, Copy, PartialEq, Eq)]
pub(crate) struct Axis {
    /// The media time at which the first interval begins.
    pub first: i64,
    /// The length of each interval.
    pub span: u64,
    /// The number of intervals.
    pub bins: usize,
    pub ghost long: { 0 < span },
    pub ghost some: { 0 < bins },
    pub ghost few: { bins ≤ 480 },
}

impl Axis {
    /// Returns the axis from one media time to another, with at most 480 intervals, each of which has whole packets of
    /// `frames` sampling instants.
    pub(crate) fn of(first: i64, last: i64, frames: u16) -> Axis
        ensures { result.first ≡ first }
    {
        // Whole packets: otherwise intervals would have one packet more or less by turns.
        let frames = u64::from(frames).max(1);
        let length = length_between(first, last).max(1);
        let packets = length.div_ceil(frames);
        let span = packets
            .div_ceil(MAX_BINS as u64)
            .saturating_mul(frames)
            .max(1);
        let bins = length.div_ceil(span).max(1).min(MAX_BINS as u64) as usize;
        Axis { first, span, bins }
    }

    /// Returns the length of all intervals, in sampling instants.
    pub(crate) fn length(&self) -> u64 {
        self.span.saturating_mul(self.bins as u64)
    }

    /// Returns the interval of a media time; a time before the first or behind the last one belongs to that.
    pub(crate) fn bin_of(&self, time: i64) -> usize
        ensures value { result ≡ span_of self.now.first self.now.span self.now.bins time }
        ensures within { result < self.now.bins }
    {
        let place = length_between(self.first, time) / self.span;
        place.min(self.bins as u64 - 1) as usize
    }
}

/// Returns the time from one media time to another, or 0 if that is earlier.
fn length_between(first: i64, last: i64) -> u64
    ensures { result ≡ length_between first last }
{
    if last <= first {
        0
    } else {
        last.abs_diff(first)
    }
}
