//! The drift of a path's arrival margin over the last minute: whether its packets come earlier and earlier, or later.
//! `sums` has the sums behind the slope.
ghost use Rattle.std.specs.Prelude.{◌≡◌, ◌≤◌, ◌<◌, ◌*◌, ◌^◌, [], length};
ghost use Rattle.rtp_stats.specs.Drift.{
  IsSmall,
  MinuteState,
  drift_by,
  drift_of,
  left_of,
  millionths,
  minute_after,
  minute_from,
  newest_of,
  ppm_of,
  sums_of,
  time_of,
};

use crate::arrival_margin::ArrivalMargin;
use crate::drift::sums::Sums;
use arrayvec::ArrayVec;
use std::marker::Model;

mod sums;

/// The number of seconds over which a drift is measured.
const MINUTE: usize = 60;

/// The least number of seconds with packets from which a drift is known.
const LEAST_SECONDS: u64 = 10;

/// The greatest time left that is reported, in seconds: a year.
// Without a drift no packet is ever late. The greatest time left says so, and no further value is needed.
const YEAR: u64 = 31_536_000;

/// The drift of a path's arrival margin.
#[derive(Clone, Copy, PartialEq, Eq)]
pub struct Drift {
    /// The drift in parts per million, rounded to the nearest whole number. It is positive if packets come earlier and
    /// earlier: the sender's clock is faster than the receiver's.
    pub ppm: i64,
    /// The time in seconds until packets will be late or too early at this rate, at most a year.
    pub left: u64,
}

/// The arrival margins of a path's last sixty seconds with packets.
#[derive(Drop)]
pub struct MarginMinute {
    /// The least second whose margins are noted next.
    next: u64,
    margins: ArrayVec<ArrivalMargin, MINUTE>,
}

impl Model for MarginMinute {
    ghost use Rattle.rtp_stats.specs.Drift.{MinuteState};

    ghost Value = { MinuteState };

    ghost view = { λ m. record { next = m.next; margins = m.margins.items } };
}

impl MarginMinute {
    /// Returns the minute of a path, before any packet arrived.
    pub fn new() -> MarginMinute
        ensures { result ≡ record { next = 0; margins = [] } }
    {
        MarginMinute {
            next: 0,
            margins: ArrayVec::new(),
        }
    }

    /// Begins again in a second in which an epoch began. Margins of this second and of those before it are left out.
    // The second has margins of both epochs.
    pub fn begin(&mut self, second: u64)
        ensures { self.new ≡ minute_from second }
    {
        self.next = second.saturating_add(1);
        self.margins.clear();
    }

    /// Notes the margins of a second, unless it is not later than the last one.
    pub fn note(&mut self, margin: ArrivalMargin)
        ensures { self.new ≡ minute_after margin self.old }
    {
        if margin.second < self.next {
            return;
        }
        self.next = margin.second.saturating_add(1);
        if self.margins.is_full() {
            self.margins.remove(0);
        }
        self.margins.push(margin);
    }

    /// Returns the drift in the second `now`, from the margins of the sixty seconds before it. Returns `None` if fewer
    /// than ten of them had packets.
    ///
    /// `window_span` is the time that the stream's window holds, in sampling instants at 48 kHz.
    pub fn drift(&self, now: u64, window_span: u32) -> Option<Drift>
        ensures { result ≡ drift_of now window_span self.now.margins }
    {
        let margins = self.margins.as_slice();
        match newest_of(margins) {
            Some(newest) => drift_by(&sums_of(margins, now), window_span, &newest),
            None => None,
        }
    }
}

/// Returns the last of these margins.
fn newest_of(margins: &[ArrivalMargin]) -> Option<ArrivalMargin>
    ensures { result ≡ newest_of margins.now }
{
    let mut newest = None;
    for margin in margins {
        newest = Some(*margin);
    }
    newest
}

/// Returns the sums over the margins that are of the sixty seconds before the second `now`.
fn sums_of(margins: &[ArrivalMargin], now: u64) -> Sums
    requires { length margins.now ≤ 60 }
    ensures sums { result ≡ sums_of now margins.now }
    ensures small { IsSmall 60 result }
{
    let mut sums = Sums::new();
    for margin in margins {
        sums = sums.with_second(now, margin);
    }
    sums
}

/// Returns the drift by these sums, or `None` if they are of fewer than ten seconds. `newest` has the margins of the
/// last second.
fn drift_by(sums: &Sums, window_span: u32, newest: &ArrivalMargin) -> Option<Drift>
    requires { IsSmall 60 sums.now }
    ensures { result ≡ drift_by sums.now window_span newest.now }
{
    if sums.count < LEAST_SECONDS {
        return None;
    }
    let run = sums.run();
    if run == 0 {
        return None;
    }
    let up = sums.up();
    let down = sums.down();
    Some(Drift {
        ppm: ppm_of(up, down, run),
        left: left_of(up, down, run, window_span, newest),
    })
}

/// Returns a slope in parts per million, by the two parts of its rise and by its run.
fn ppm_of(up: u64, down: u64, run: u64) -> i64
    requires up { up < 2 ^ 50 }
    requires down { down < 2 ^ 50 }
    requires some { 0 < run }
    requires run { run < 2 ^ 24 }
    ensures { result ≡ ppm_of up down run }
{
    if up < down {
        return -(millionths(down - up, run) as i64);
    }
    millionths(up - down, run) as i64
}

/// Returns the size of a slope in parts per million, rounded to the nearest whole number.
// A second has 48,000 sampling instants, and 1,000,000 / 48,000 is 125 / 6.
fn millionths(rise: u64, run: u64) -> u64
    requires rise { rise < 2 ^ 50 }
    requires some { 0 < run }
    requires run { run < 2 ^ 24 }
    ensures value { result ≡ millionths rise run }
    ensures small { result < 2 ^ 58 }
{
    (125 * rise + 3 * run) / (6 * run)
}

/// Returns the time in seconds until packets will be late or too early at a rate, at most a year.
fn left_of(up: u64, down: u64, run: u64, window_span: u32, newest: &ArrivalMargin) -> u64
    requires { run < 2 ^ 24 }
    ensures { result ≡ left_of up down run window_span newest.now }
{
    if up < down {
        return time_of(newest.least, down - up, run);
    }
    if down < up {
        return time_of(window_span.saturating_sub(newest.greatest), up - down, run);
    }
    YEAR
}

/// Returns the time in seconds in which a margin is used up, rounded down, at most a year.
fn time_of(margin: u32, rise: u64, run: u64) -> u64
    requires some { 0 < rise }
    requires run { run < 2 ^ 24 }
    ensures { result ≡ time_of margin rise run }
{
    (u64::from(margin) * run / rise).min(YEAR)
}
