//! The skew of two paths: the delays of the packets of one behind the same ones on the other (SMPTE ST 2022-7).
ghost use Rattle.std.specs.Prelude.{◌≡◌};
ghost use Rattle.std.specs.List.Sorted.{IsSorted};
ghost use Rattle.std.specs.Ordering.{int_cmp};
ghost use Rattle.pcap_flows.specs.Skew as spec;

/// The delays of packets on the second path behind the same ones on the first, in nanoseconds; negative if the second
/// path is earlier.
#[derive(Clone, Copy)]
pub(crate) struct Skew {
    /// The least delay.
    pub least: i64,
    /// The median delay; the lower of the middle two if their number is even.
    pub median: i64,
    /// The greatest delay.
    pub greatest: i64,
    /// True if there are more delays than are kept, so that the median is that of the first ones.
    pub is_part: bool,
}

/// The bounds of delays that are not kept.
#[derive(Clone, Copy)]
pub(crate) struct DelayBounds {
    /// The least delay.
    pub least: i64,
    /// The greatest delay.
    pub greatest: i64,
}

/// The times of the first packet with a number on each of the two paths.
#[derive(Clone, Copy)]
pub(crate) struct Times {
    /// The extended sequence number.
    pub number: u64,
    /// The time on the first path, in nanoseconds since 1970.
    pub first: Option<u64>,
    /// The time on the second path.
    pub second: Option<u64>,
}

impl Times {
    /// Returns a number whose time is known on neither path.
    pub(crate) fn new(number: u64) -> Times
        ensures { result ≡ spec.no_times number }
    {
        Times {
            number,
            first: None,
            second: None,
        }
    }

    /// Returns these times if they are those of a number, and otherwise none.
    fn of(self, number: u64) -> Times
        ensures { result ≡ spec.times_for self number }
    {
        if self.number == number {
            self
        } else {
            Times::new(number)
        }
    }

    /// Returns these times with that of a packet on a path, unless the path already has one.
    fn with(self, on_first: bool, time: u64) -> Times
        ensures { result ≡ spec.times_with self on_first time }
    {
        let Times {
            number,
            first,
            second,
        } = self;
        if on_first {
            Times {
                number,
                first: Some(first.unwrap_or(time)),
                second,
            }
        } else {
            Times {
                number,
                first,
                second: Some(second.unwrap_or(time)),
            }
        }
    }

    /// Returns the delay of the second path, if both have a time.
    fn delay(&self) -> Option<i64>
        ensures { result ≡ spec.delay_in self.now }
    {
        Some(delay(self.first?, self.second?))
    }
}

/// Sets the time of a number on a path, unless the path already has one. Returns the number's delay if only now both
/// paths have its time.
pub(crate) fn set_time(times: &mut Times, number: u64, on_first: bool, time: u64) -> Option<i64>
    ensures times { times.new ≡ spec.times_with (spec.times_for times.old number) on_first time }
    ensures delay { result ≡ spec.delay_added (spec.times_for times.old number) times.new }
{
    let before = times.of(number);
    *times = before.with(on_first, time);
    match before.delay() {
        Some(_) => None,
        None => times.delay(),
    }
}

/// Returns the delay of a packet on the second path behind the same one on the first, saturated to 64 bits.
fn delay(first: u64, second: u64) -> i64
    ensures { result ≡ spec.delay_of first second }
{
    if first <= second {
        i64::try_from(second - first).unwrap_or(i64::MAX)
    } else {
        i64::try_from(first - second).map_or(i64::MIN, |early| 0i64.saturating_sub(early))
    }
}

/// Returns the least, the median and the greatest of delays in ascending order, if there are any.
pub(crate) fn skew_in(sorted: &[i64]) -> Option<Skew>
    ensures { result ≡ spec.skew_in sorted.now }
{
    let least = *sorted.first()?;
    let greatest = *sorted.last()?;
    let median = *sorted.get((sorted.len() - 1) / 2)?;
    Some(Skew {
        least,
        median,
        greatest,
        is_part: false,
    })
}

/// Returns the bounds of delays with one more.
pub(crate) fn bounds_with(bounds: Option<DelayBounds>, delay: i64) -> DelayBounds
    ensures { result ≡ spec.bounds_with bounds delay }
{
    match bounds {
        Some(bounds) => DelayBounds {
            least: lesser(bounds.least, delay),
            greatest: greater(bounds.greatest, delay),
        },
        None => DelayBounds {
            least: delay,
            greatest: delay,
        },
    }
}

/// Returns the skew of some delays and of others with these bounds.
pub(crate) fn skew_within(others: Option<DelayBounds>, skew: Option<Skew>) -> Option<Skew>
    ensures { result ≡ spec.skew_within others skew }
{
    let Some(bounds) = others else {
        return skew;
    };
    let skew = skew?;
    Some(Skew {
        least: lesser(skew.least, bounds.least),
        median: skew.median,
        greatest: greater(skew.greatest, bounds.greatest),
        is_part: true,
    })
}

/// Returns the lesser of two delays.
fn lesser(one: i64, other: i64) -> i64
    ensures { result ≡ spec.lesser one other }
{
    if other < one { other } else { one }
}

/// Returns the greater of two delays.
fn greater(one: i64, other: i64) -> i64
    ensures { result ≡ spec.greater one other }
{
    if one < other { other } else { one }
}
