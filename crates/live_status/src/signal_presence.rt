//! The presence of a stream's signal, by the times at which its packets were taken.
ghost use Rattle.std.specs.Prelude.{◌≡◌, if◌then◌else◌, ◌==◌};
ghost use Rattle.live_status.specs.SignalPresence.{condition_of, is_silent};

use status_page::Condition;

/// The time without a packet after which a stream's signal is lost, in sampling instants: a second.
const LOST_AFTER: i64 = 48_000;

/// The presence of a stream's signal.
#[derive(Clone, Copy)]
pub(crate) struct SignalPresence {
    /// The number of packets that were taken at the last update.
    taken: u64,
    /// The time of the first update with that number, in sampling instants.
    since: i64,
}

impl SignalPresence {
    /// Returns the presence of a stream without a taken packet by the time `now`, in sampling instants.
    pub(crate) fn new(now: i64) -> SignalPresence
        ensures { (result.taken ≡ 0) × (result.since ≡ now) }
    {
        SignalPresence {
            taken: 0,
            since: now,
        }
    }

    /// Notes the number of packets that were taken by the time `now`, in sampling instants, and returns the stream's
    /// condition. `has_ended` is true if the stream has ended.
    pub(crate) fn update(&mut self, now: i64, taken: u64, has_ended: bool) -> Condition
        ensures condition { result ≡ condition_of has_ended taken (is_silent self.new.since now) }
        ensures taken { self.new.taken ≡ taken }
        ensures since { self.new.since ≡ (if taken == self.old.taken then self.old.since else now) }
    {
        if taken != self.taken {
            self.taken = taken;
            self.since = now;
        }
        if has_ended {
            return Condition::Ended;
        }
        if taken == 0 {
            return Condition::NoPacket;
        }
        if now.saturating_sub(self.since) >= LOST_AFTER {
            return Condition::SignalLost;
        }
        Condition::Running
    }
}
