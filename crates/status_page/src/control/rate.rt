//! The limits on the numbers of requests in a second.
ghost use Rattle.std.specs.Prelude.{◌≡◌};
ghost use Rattle.std.specs.Duration.{as_nanos};
ghost use Rattle.status_page.specs.RequestRate.{allows, counted, has_passed};

use std::time::Duration;

/// The greatest number of changes in a second.
// A fader that is moved sends some 60 changes in a second, and a run answers up to 64 requests in each block. The limit
// keeps a client that repeats its request without a pause from taking all of the page's time.
pub(crate) const MAX_CHANGES: u32 = 200;

/// The greatest number of reads without the token in a second.
// A read waits for the run, for up to 10 ms. Any page of a browser can cause one, by an image at the path of the gains.
// A page of the run asks once in a second if it has no token, so the limit leaves space for some of them.
pub(crate) const MAX_READS: u32 = 20;

/// A second, in nanoseconds.
const SECOND_NANOS: u128 = 1_000_000_000;

/// The number of requests of one kind that were counted in a second. The next second begins with the first request that
/// is counted after its end.
#[derive(Clone, Copy, PartialEq, Eq)]
pub(crate) struct RequestRate {
    /// The time of the first request in the second.
    began_at: Duration,
    /// The number of requests in the second.
    requests: u32,
}

impl RequestRate {
    /// Returns the number of requests before the first one.
    pub(crate) fn new() -> RequestRate
        ensures began { as_nanos result.began_at ≡ 0 }
        ensures requests { result.requests ≡ 0 }
    {
        RequestRate {
            began_at: Duration::ZERO,
            requests: 0,
        }
    }

    /// Returns true if one more request is allowed at the time `now`, of at most `most` in a second.
    pub(crate) fn allows(&self, most: u32, now: Duration) -> bool
        ensures { result ≡ allows most self.now now }
    {
        has_passed(self.began_at, now) || self.requests < most
    }

    /// Counts a request at the time `now`, if it is allowed.
    pub(crate) fn count(&mut self, most: u32, now: Duration)
        ensures { self.new ≡ counted most self.old now }
    {
        if has_passed(self.began_at, now) {
            self.began_at = now;
            self.requests = 1;
        } else if self.requests < most {
            self.requests += 1;
        }
    }
}

/// Returns true if a second or more lies between two times.
fn has_passed(since: Duration, now: Duration) -> bool
    ensures { result ≡ has_passed since now }
{
    now.saturating_sub(since).as_nanos() >= SECOND_NANOS
}
