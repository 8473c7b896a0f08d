//! The copies of the mix in which streams are missing, while they wait. `copy_time` says when a copy is sent, and
//! `waiting` holds those of one delay.
// A listener takes the first copy of each datagram. So of two receivers that send the same mix, the one in which
// nothing is missing has to come first.
ghost use Rattle.std.specs.Prelude.{◌≡◌, ◌⊎◌, None, IfOk, MatchOption};
ghost use Rattle.live_io.specs.LateCopies.{HasFirstDue, Takes, TakesFirst, late_of};

use crate::sockets::late::copy_time::CopyTime;
use crate::sockets::late::waiting::{WaitingCopies, WaitingCopy};
use crate::sockets::mix_times::{MixDue, greatest_latency};
use std::alloc::{AllocError, Global};
use studio_config::StudioSpec;
use studio_io::Missing;

pub(crate) mod copy_time;
pub(crate) mod waiting;

/// A second, in sampling instants.
const SECOND: u32 = 48_000;

/// The delays of a run's copies in which streams are missing.
#[derive(Clone, Copy)]
pub struct LateSettings {
    /// For how long a copy waits in which one stream is missing, in sampling instants. With 0 none waits.
    late: u16,
    /// The reading up to which each copy waits as if two streams were missing in it.
    yields_until: i64,
    /// The most copies of each delay that wait at a time.
    most: usize,
}

impl LateSettings {
    /// Returns the delays of a studio's copies, each of which waits as if two streams were missing in it for this many
    /// seconds after the opening.
    pub fn of(studio: &StudioSpec, yield_seconds: u32) -> LateSettings
        ensures late { result.late ≡ studio.now.late }
    {
        let late = studio.late();
        let yields_for = i64::from(yield_seconds).saturating_mul(i64::from(SECOND));
        LateSettings {
            late,
            yields_until: studio.open_at().saturating_add(yields_for),
            most: most_waiting(studio),
        }
    }
}

/// Returns the most copies of one delay that wait at a time.
// A copy waits from the time at which it is due, and those of the close from before it: they come at once, up to the
// greatest latency early, and those that are due more than a second later are left out.
fn most_waiting(studio: &StudioSpec) -> usize {
    let late = u32::from(studio.late());
    if late == 0 {
        return 0;
    }
    let early = greatest_latency(studio.streams()).min(SECOND);
    let instants = late.saturating_mul(2).saturating_add(early);
    let blocks = instants / u32::from(studio.output().frames());
    // One more at each end, where a block is under way.
    blocks.saturating_add(2) as usize
}

/// The copies of the mix that wait for their time.
#[derive(Drop)]
pub(crate) struct LateCopies {
    settings: LateSettings,
    /// Those that wait once the delay.
    late: WaitingCopies,
    /// Those that wait twice the delay.
    later: WaitingCopies,
}

impl LateCopies {
    /// Returns no copies, with space for all that wait at a time. Returns `AllocError` if an allocation fails.
    pub(crate) fn new(alloc: Global, settings: LateSettings) -> Result<LateCopies, AllocError>
        ensures { IfOk result (λ copies. copies.settings ≡ settings) }
    {
        Ok(LateCopies {
            settings,
            late: WaitingCopies::new(alloc, settings.most)?,
            later: WaitingCopies::new(alloc, settings.most)?,
        })
    }

    /// Returns when a copy is sent that comes at the reading `now`, and in whose block this is missing.
    pub(crate) fn time_of(&self, missing: Missing, now: i64) -> CopyTime
        ensures { result ≡ late_of self.now.settings missing now }
    {
        let yields = now < self.settings.yields_until;
        CopyTime::of(missing, self.settings.late, yields)
    }

    /// Returns for how long a copy waits that is sent late, in sampling instants.
    pub(crate) fn delay(&self) -> u16
        ensures { result ≡ self.now.settings.late }
    {
        self.settings.late
    }

    /// Takes a copy that is sent once the delay after its time. Returns false, and does not take it, if there is no
    /// space for it.
    pub(crate) fn take_late(&mut self, due: MixDue, datagram: &[u8]) -> bool
        ensures late { Takes result due datagram.now self.old.late self.new.late }
        ensures later { self.new.later ≡ self.old.later }
        ensures settings { self.new.settings ≡ self.old.settings }
    {
        self.late.take(due, datagram)
    }

    /// Takes a copy that is sent twice the delay after its time, as `take_late` does.
    pub(crate) fn take_later(&mut self, due: MixDue, datagram: &[u8]) -> bool
        ensures later { Takes result due datagram.now self.old.later self.new.later }
        ensures late { self.new.late ≡ self.old.late }
        ensures settings { self.new.settings ≡ self.old.settings }
    {
        self.later.take(due, datagram)
    }

    /// Removes a copy whose time has come, and returns it, or returns `None` if there is none: the first of those that
    /// wait once the delay, or else of those that wait twice.
    pub(crate) fn next_due(&mut self, now: i64) -> Option<WaitingCopy>
        ensures one { MatchOption result (self.new ≡ self.old) (λ copy.
            TakesFirst now copy self.old.late self.new.late self.old.later self.new.later) }
        ensures none { result ≡ None
            → (HasFirstDue now self.old.late.copies.items ⊎ HasFirstDue now self.old.later.copies.items) → ⊥ }
        ensures settings { self.new.settings ≡ self.old.settings }
    {
        match self.late.next_due(now) {
            Some(copy) => Some(copy),
            None => self.later.next_due(now),
        }
    }

    /// Returns the number of copies that wait.
    pub(crate) fn len(&self) -> usize {
        self.late.len().saturating_add(self.later.len())
    }

    /// Removes all copies, and returns how many there were.
    pub(crate) fn clear(&mut self) -> u64 {
        self.late.clear().saturating_add(self.later.clear())
    }
}
