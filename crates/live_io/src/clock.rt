//! The clock of a live run, which is the system's monotonic clock in sampling instants, and the period of the run.
ghost use Rattle.std.specs.Prelude.{◌≡◌, ◌≤◌, ◌<◌, ◌^◌, ◌-◌, pos, ◌≤ℤ◌, ◌<ℤ◌, ◌+ℤ◌, ℤ, []};
ghost use Rattle.std.specs.Duration.{as_nanos};
ghost use Rattle.studio_io.specs.Clocks.{TellsTime};
ghost use Rattle.live_io.specs.Clock.{instants_in};

use std::time::Duration;
use std::{thread, time};
use studio_config::StudioSpec;
use studio_io::Clock;

/// The number of nanoseconds in three sampling instants.
// One sampling instant is no whole number of nanoseconds.
const THREE_INSTANTS: u64 = 62_500;

/// Returns the reading of a clock `elapsed` after it started at `open_at`, in sampling instants at 48 kHz, rounded
/// down. A reading past the greatest `i64` is the greatest `i64`.
pub(crate) fn reading_after(open_at: i64, elapsed: Duration) -> i64
    requires open { pos 0 ≤ℤ open_at }
    ensures exact { (open_at +ℤ pos (instants_in (as_nanos elapsed))) <ℤ pos (2 ^ 63)
        → result ≡ (open_at +ℤ pos (instants_in (as_nanos elapsed))) }
    ensures most { pos (2 ^ 63) ≤ℤ (open_at +ℤ pos (instants_in (as_nanos elapsed))) → result ≡ pos (2 ^ 63 - 1) }
{
    // Whole seconds and the rest apart: all nanoseconds times 3 would not fit 64 bits after 195 years. A second is a
    // whole number of sampling instants, so nothing is lost.
    let whole = elapsed.as_secs().saturating_mul(48_000);
    let part = u64::from(elapsed.subsec_nanos()) * 3 / 62_500;
    match i64::try_from(whole.saturating_add(part)) {
        Ok(instants) => open_at.saturating_add(instants),
        Err(_) => i64::MAX,
    }
}

/// A clock that started at a given time, in sampling instants at 48 kHz, and follows the system's monotonic clock. If
/// that cannot be read, the last clock reading is repeated.
#[derive(Drop)]
pub struct SystemClock<'a, R: time::Clock> {
    rt: &'a R,
    /// The reading of the system's clock at the start; `None` if it could not be read.
    began: Option<Duration>,
    /// The clock reading at the start, in sampling instants.
    open_at: i64,
    /// The last clock reading that was returned, in sampling instants.
    last: i64,
    ghost from_zero: { pos 0 ≤ℤ open_at },
}

impl<'a, R: time::Clock> SystemClock<'a, R> {
    /// Returns a clock that reads `open_at` when the system's clock reads `began`. If `began` is `None`, it reads
    /// `open_at` at all times.
    pub(crate) fn since(rt: &'a R, began: Option<Duration>, open_at: i64) -> SystemClock<'a, R>
        requires { pos 0 ≤ℤ open_at }
        ensures { result.last ≡ open_at }
    {
        SystemClock {
            rt,
            began,
            open_at,
            last: open_at,
        }
    }

    /// Returns the clock reading, or `None` if the system's clock cannot be read.
    fn read(&self) -> Option<i64> {
        let began = self.began?;
        let now = self.rt.monotonic().ok()?;
        let elapsed = now.checked_sub(began)?;
        Some(reading_after(self.open_at, elapsed))
    }
}

impl<R: time::Clock> Clock for SystemClock<'_, R> {
    ghost told = { λ clock. [] };

    /// Returns the clock reading. It is never less than the one before.
    fn now(&mut self) -> i64
        ensures tells { TellsTime [] result [] }
        ensures answer { result ≡ self.new.last }
        ensures grows { self.old.last ≤ℤ result }
    {
        if let Some(reading) = self.read() {
            self.last = self.last.max(reading);
        }
        self.last
    }
}

/// A clock by which a thread can pause.
pub trait PauseClock: Clock {
    /// Pauses for this many sampling instants at 48 kHz. The system may make the pause longer.
    fn pause(&mut self, instants: u32);
}

impl<R: time::Clock> PauseClock for SystemClock<'_, R> {
    fn pause(&mut self, instants: u32) {
        let nanoseconds = u64::from(instants) * THREE_INSTANTS / 3;
        thread::sleep(self.rt, Duration::from_nanos(nanoseconds));
    }
}

/// The start of a run, and its end by the clock, if it has one.
#[derive(Clone, Copy)]
pub struct RunPeriod {
    /// The opening time, in sampling instants at 48 kHz.
    open_at: i64,
    /// The reading of the system's monotonic clock at the opening time, if it could be read.
    began: Option<Duration>,
    /// The time at which the feeds end, in sampling instants, if the clock ends them.
    until: Option<i64>,
    ghost from_zero: { pos 0 ≤ℤ open_at },
}

impl RunPeriod {
    /// Returns the period of a run of this studio, in which the system's monotonic clock read `began` at the studio's
    /// opening time. The feeds end this many sampling instants at 48 kHz after it. If `instants` is `None`, the clock
    /// does not end them.
    pub fn new(studio: &StudioSpec, began: Option<Duration>, instants: Option<i64>) -> RunPeriod {
        let open_at = studio.open_at();
        RunPeriod {
            open_at,
            began,
            until: instants.map(|instants| open_at.saturating_add(instants)),
        }
    }

    /// Returns a clock of the run, in sampling instants at 48 kHz.
    pub fn clock<R: time::Clock>(self, rt: &R) -> SystemClock<'_, R> {
        SystemClock::since(rt, self.began, self.open_at)
    }

    /// Returns the time at which the feeds end, in sampling instants at 48 kHz, or `None` if the clock does not end
    /// them.
    pub(crate) fn until(&self) -> Option<i64> {
        self.until
    }
}
