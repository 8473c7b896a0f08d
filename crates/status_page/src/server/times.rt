//! The times of a client's requests, and the limits on them.
ghost use Rattle.std.specs.Prelude.{◌≡◌, None, Some, unwrap_or};
ghost use Rattle.status_page.specs.Times.{is_over, is_overdue};

use std::time::Duration;

/// The time in nanoseconds in which a request has to be complete, and after which a client that neither read nor wrote
/// is disconnected: ten seconds.
// A browser sends a request at once. Slow clients would otherwise keep their places for good.
const LIMIT_NANOS: u128 = 10_000_000_000;

/// The times of a client's requests, as readings of a monotonic clock.
#[derive(Clone, Copy, PartialEq, Eq)]
pub(crate) struct RequestTimes {
    /// The time of the last read or write, or of the connection before the first one.
    moved_at: Duration,
    /// The time of the first octet of the request that is not complete yet. `None` if none has begun.
    began_at: Option<Duration>,
    /// The time of the last octet of the last complete request, or of the connection before the first one.
    complete_at: Duration,
}

impl RequestTimes {
    /// Returns the times of a client that connects at the time `now`.
    pub(crate) fn new(now: Duration) -> RequestTimes
        ensures moved { result.moved_at ≡ now }
        ensures began { result.began_at ≡ None }
        ensures complete { result.complete_at ≡ now }
    {
        RequestTimes {
            moved_at: now,
            began_at: None,
            complete_at: now,
        }
    }

    /// Notes that octets of a request were read at the time `now`.
    pub(crate) fn note_read(&mut self, now: Duration)
        ensures moved { self.new.moved_at ≡ now }
        ensures began { self.new.began_at ≡ Some (unwrap_or self.old.began_at now) }
        ensures complete { self.new.complete_at ≡ self.old.complete_at }
    {
        self.moved_at = now;
        self.began_at = Some(self.began_at.unwrap_or(now));
    }

    /// Notes that octets of a response were written at the time `now`.
    pub(crate) fn note_write(&mut self, now: Duration)
        ensures moved { self.new.moved_at ≡ now }
        ensures began { self.new.began_at ≡ self.old.began_at }
        ensures complete { self.new.complete_at ≡ self.old.complete_at }
    {
        self.moved_at = now;
    }

    /// Notes that a request was complete at the time `now`.
    // If its last octets came with the first ones of the next request, those count from the next read on.
    pub(crate) fn note_complete(&mut self, now: Duration)
        ensures moved { self.new.moved_at ≡ self.old.moved_at }
        ensures began { self.new.began_at ≡ None }
        ensures complete { self.new.complete_at ≡ now }
    {
        self.began_at = None;
        self.complete_at = now;
    }

    /// Returns the time of the last octet of the last complete request, or of the connection before the first one.
    pub(crate) fn complete_at(&self) -> Duration
        ensures { result ≡ self.now.complete_at }
    {
        self.complete_at
    }

    /// Returns true if at the time `now` a request is not complete ten seconds after its first octet, or the client
    /// neither read nor wrote for ten seconds.
    pub(crate) fn is_overdue(&self, now: Duration) -> bool
        ensures { result ≡ is_overdue self.now now }
    {
        if is_over(self.moved_at, now) {
            return true;
        }
        match self.began_at {
            Some(began_at) => is_over(began_at, now),
            None => false,
        }
    }
}

/// Returns true if more than ten seconds lie between two times.
fn is_over(since: Duration, now: Duration) -> bool
    ensures { result ≡ is_over since now }
{
    now.saturating_sub(since).as_nanos() > LIMIT_NANOS
}
