//! A clock over readings in memory.
ghost use Rattle.std.specs.Prelude.{◌≡◌, drop};

use crate::clock::Clock;

/// A clock that returns these readings in order, and then the last one again and again, or 0 if there are none.
/// Contracts know its readings.
#[derive(Drop)]
pub struct MemoryClock<'a> {
    readings: &'a [i64],
    next: usize,
    last: i64,
}

impl<'a> MemoryClock<'a> {
    /// Returns a clock with these readings, in sampling instants at 48 kHz.
    pub fn new(readings: &'a [i64]) -> MemoryClock<'a>
        ensures { drop result.next result.readings.now ≡ readings.now }
    {
        MemoryClock {
            readings,
            next: 0,
            last: 0,
        }
    }
}

impl<'a> Clock for MemoryClock<'a> {
    ghost told = { λ clock. drop clock.next clock.readings.now };

    fn now(&mut self) -> i64 {
        if let Some(reading) = self.readings.get(self.next) {
            self.next += 1;
            self.last = *reading;
        }
        self.last
    }
}
