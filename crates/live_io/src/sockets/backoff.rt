//! The attempts of a socket that fails: rarer with each fault, until its path is given up.
ghost use Rattle.std.specs.Prelude.{◌≡◌, ◌≤◌, ◌<◌, ◌↔◌, ◌+◌, ◌^◌, min, Some, None, IsTrue, pos, ◌+ℤ◌, ◌<ℤ◌};
ghost use Rattle.live_io.specs.Backoff.{IsDueAt, most_faults, retry_delay};

/// The delay after the first fault, in sampling instants: a millisecond.
const FIRST_DELAY: u32 = 48;

/// The longest delay, in sampling instants: a second.
const LONGEST_DELAY: u32 = 48_000;

/// The number of faults since the last datagram that end a path.
// The 1,000th fault comes a quarter of an hour after the first at the earliest: ten delays are 1.023 s together, and
// 989 more are a second each.
const MOST_FAULTS: u32 = 1_000;

/// The back-off of a socket that fails: its faults since the last datagram, and the time of the next attempt.
#[derive(Clone, Copy)]
pub struct FaultBackoff {
    /// The number of faults since the last datagram, at most 1,000.
    faults: u32,
    /// The delay after the last fault, in sampling instants.
    delay: u32,
    /// The time of the next attempt, in sampling instants. `None` if it can be made at once.
    next_at: Option<i64>,
    ghost few: { faults ≤ most_faults },
    ghost delay_is: { delay ≡ retry_delay faults },
}

impl FaultBackoff {
    /// Returns the back-off of a socket that has not failed.
    pub fn new() -> FaultBackoff
        ensures faults { result.faults ≡ 0 }
        ensures next_at { result.next_at ≡ None }
    {
        FaultBackoff {
            faults: 0,
            delay: 0,
            next_at: None,
        }
    }

    /// Returns the time of the next attempt, in sampling instants, or `None` if it can be made at once.
    pub fn next_at(&self) -> Option<i64>
        ensures { result ≡ self.now.next_at }
    {
        self.next_at
    }

    /// Returns true if an attempt can be made at this time, in sampling instants.
    pub fn is_due(&self, now: i64) -> bool
        ensures { IsTrue result ↔ IsDueAt self.now.next_at now }
    {
        match self.next_at {
            Some(at) => at <= now,
            None => true,
        }
    }

    /// Returns true if the socket failed so often since the last datagram that its path ends.
    pub fn has_ended(&self) -> bool
        ensures { IsTrue result ↔ (self.now.faults ≡ most_faults) }
    {
        self.faults == MOST_FAULTS
    }

    /// Notes that an attempt failed at this time, in sampling instants.
    #[tactic(auto, using(crate::proofs::BackoffLemmas::delay_most))]
    pub fn note_fault(&mut self, now: i64)
        ensures faults { self.new.faults ≡ min most_faults (self.old.faults + 1) }
        ensures next_at { (now +ℤ pos 48000) <ℤ pos (2 ^ 63)
            → self.new.next_at ≡ Some (now +ℤ pos (retry_delay self.new.faults)) }
    {
        if self.faults < MOST_FAULTS {
            self.count_fault();
        }
        self.next_at = Some(now.saturating_add(i64::from(self.delay)));
    }

    /// Counts a fault, and sets the delay after it.
    #[tactic(auto, using(crate::proofs::BackoffLemmas::delay_more, crate::proofs::BackoffLemmas::delay_most))]
    fn count_fault(&mut self)
        requires few { self.old.faults < most_faults }
        ensures faults { self.new.faults ≡ self.old.faults + 1 }
    {
        let delay = if self.faults == 0 {
            FIRST_DELAY
        } else {
            self.delay.saturating_mul(2).min(LONGEST_DELAY)
        };
        *self = FaultBackoff {
            faults: self.faults + 1,
            delay,
            next_at: None,
        };
    }

    /// Notes that an attempt found no datagram and no fault. The socket is read as usual, and its faults still count.
    pub fn note_nothing(&mut self)
        ensures faults { self.new.faults ≡ self.old.faults }
        ensures next_at { self.new.next_at ≡ None }
    {
        self.next_at = None;
    }

    /// Notes a datagram, after which no fault counts.
    pub fn note_datagram(&mut self)
        ensures faults { self.new.faults ≡ 0 }
        ensures next_at { self.new.next_at ≡ None }
    {
        *self = FaultBackoff::new();
    }
}
