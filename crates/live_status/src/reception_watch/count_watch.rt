//! A count, and since when it is what it is.
ghost use Rattle.std.specs.Prelude.{◌≡◌};
ghost use Rattle.live_status.specs.Counts.{count_after, is_still};
ghost use Rattle.live_status.specs.PathSeconds.{is_losing};

/// The time without a change after which a count is still, in sampling instants: two seconds.
const STILL_AFTER: i64 = 96_000;

/// The time for which a count has risen lately after it rose, in sampling instants: ten seconds.
const LATELY: i64 = 480_000;

/// A count of packets, and the time since which no packet was added.
#[derive(Clone, Copy)]
pub(crate) struct CountWatch {
    count: u64,
    /// The time of the first update with this count, in sampling instants.
    since: i64,
}

impl CountWatch {
    /// Returns the watch of a count that is 0 at the time `now`, in sampling instants.
    pub(crate) fn new(now: i64) -> CountWatch
        ensures { result ≡ record { count = 0; since = now } }
    {
        CountWatch {
            count: 0,
            since: now,
        }
    }

    /// Notes the count at the time `now`, in sampling instants.
    pub(crate) fn update(&mut self, now: i64, count: u64)
        ensures { self.new ≡ count_after count now self.old }
    {
        if count != self.count {
            self.count = count;
            self.since = now;
        }
    }

    /// Returns true if the count has stayed for two seconds at the time `now`, in sampling instants.
    pub(crate) fn is_still(&self, now: i64) -> bool
        ensures { result ≡ is_still self.now now }
    {
        now.saturating_sub(self.since) >= STILL_AFTER
    }

    /// Returns true if the count has risen in the ten seconds before the time `now`, in sampling instants.
    pub(crate) fn has_risen_lately(&self, now: i64) -> bool
        ensures { result ≡ is_losing self.now now }
    {
        // Of a count that never rose, `since` is the time at which its watch began.
        self.count != 0 && now.saturating_sub(self.since) < LATELY
    }
}
