//! The counts of a stream's events by time interval and kind.
ghost use Rattle.std.specs.Prelude.{◌≡◌, ◌+◌, ◌-◌, ◌*◌, ◌<◌, ◌^◌, ◌++◌, ◌∷◌, [], ℕ, List, length, get_or, min, IfOk};
ghost use Rattle.reception_chart.specs.Bins.{HasCounted, BinEvent, count_in, lost_events};

use crate::reception::axis::Axis;
use crate::reception::lost_slots::LostSlots;
use crate::reception::{LOST_ROW, ReceptionKind};
use std::alloc::{AllocError, Global};
use std::marker::Model;

/// The number of rows of an interval: one for the packets taken from each path, and one for each other kind.
pub(crate) const ROWS: usize = 9;

/// The number of events of each kind in each interval of an axis.
#[derive(Drop)]
pub(crate) struct Bins {
    axis: Axis,
    counts: Vec<u64>,
}

impl Model for Bins {
    ghost use Rattle.std.specs.Prelude.{◌≡◌, ◌*◌, vec_len};
    ghost use Rattle.reception_chart.specs.Bins.{BinsState};

    ghost Value = { BinsState };

    ghost view = { λ b. record { axis = b.axis; counts = b.counts.items } };

    ghost invariant = { λ b. vec_len b.counts ≡ 9 * b.axis.bins };
}

impl Bins {
    /// Returns the counts before the first event. Returns `AllocError` if an allocation fails.
    pub(crate) fn new(alloc: Global, axis: Axis) -> Result<Bins, AllocError>
        ensures counted { IfOk result (λ bins. HasCounted bins []) }
        ensures axis { IfOk result (λ bins. bins.axis ≡ axis) }
    {
        let mut counts = Vec::new(alloc);
        counts.resize(ROWS * axis.bins, 0)?;
        Ok(Bins { axis, counts })
    }

    /// Returns the axis.
    pub(crate) fn axis(&self) -> Axis
        ensures { result ≡ self.now.axis }
    {
        self.axis
    }

    /// Counts an event of a kind at a media time.
    pub(crate) fn add(&mut self, time: i64, kind: ReceptionKind)
        ensures counted { (events : List BinEvent) → length events + 1 < 2 ^ 64 → HasCounted self.old events
            → HasCounted self.new (events ++ record { time = time; kind = kind } ∷ []) }
        ensures axis { self.new.axis ≡ self.old.axis }
    {
        let place = ROWS * self.axis.bin_of(time) + kind.row();
        self.counts[place] = self.counts[place].saturating_add(1);
    }

    /// Counts lost slots, each in the interval of its media time.
    // A loop over the intervals: a clock reading may make any number of slots lost.
    pub(crate) fn add_lost(&mut self, slots: &LostSlots)
        ensures counted { (events : List BinEvent) → length events + slots.now.count < 2 ^ 64
            → HasCounted self.old events → HasCounted self.new
            (events ++ lost_events slots.now.first slots.now.frames slots.now.count) }
        ensures axis { self.new.axis ≡ self.old.axis }
    {
        let axis = self.axis();
        for bin in 0..axis.bins {
            self.add_lost_in(bin, slots.in_bin(&axis, bin));
        }
    }

    /// Counts this many lost slots in an interval.
    fn add_lost_in(&mut self, bin: usize, count: u64)
        requires bin { bin < self.old.axis.bins }
        ensures axis { self.new.axis ≡ self.old.axis }
        ensures here { get_or self.new.counts (9 * bin + 6) 0
            ≡ min (get_or self.old.counts (9 * bin + 6) 0 + count) (2 ^ 64 - 1) }
        ensures others { (place : ℕ) → (place ≡ 9 * bin + 6 → ⊥)
            → get_or self.new.counts place 0 ≡ get_or self.old.counts place 0 }
    {
        let place = ROWS * bin + LOST_ROW;
        self.counts[place] = self.counts[place].saturating_add(count);
    }

    /// Returns the number of events of a row in an interval.
    pub(crate) fn count(&self, bin: usize, row: usize) -> u64
        requires bin { bin < self.now.axis.bins }
        requires row { row < 9 }
        ensures { (events : List BinEvent) → HasCounted self.now events
            → result ≡ count_in self.now.axis events bin row }
    {
        self.counts[ROWS * bin + row]
    }

    /// Returns the number of events of a row in all intervals.
    pub(crate) fn total(&self, row: usize) -> u64
        requires { row < 9 }
    {
        let mut total: u64 = 0;
        for bin in 0..self.axis.bins {
            total = total.saturating_add(self.count(bin, row));
        }
        total
    }
}
