//! International Atomic Time (TAI), by which the media clock of SMPTE ST 2110 counts from 1970 on.

use crate::clock::reading_after;
use std::time::{Clock, Duration};

/// The number of the system's clock of TAI, which `libc` does not name.
const CLOCK_TAI: i32 = 11;

/// The greatest difference in microseconds between two readings of the monotonic clock, one before and one after that
/// of the other clock.
// So a run opens at most this much late or early, also if the thread was preempted between two readings.
const MOST_APART_MICROS: u64 = 100;

/// The greatest number of tries to read both clocks so soon one after the other.
// A limit, so that a start on a machine that is always busy ends with a fault.
const MAX_TRIES: u32 = 100;

/// The offset of TAI from the system's time of day.
#[derive(Clone, Copy, PartialEq, Eq)]
pub enum TaiOffset {
    /// TAI is this many seconds ahead.
    Seconds(u32),
    /// The system's clock of TAI has the offset.
    System,
}

/// A time, and the readings of two other clocks of the system at that time.
#[derive(Clone, Copy, PartialEq, Eq)]
pub struct TaiTime {
    /// The time, in sampling instants at 48 kHz since 1970.
    pub at: i64,
    /// The time of day in UTC, in sampling instants at 48 kHz since 1970.
    pub utc: i64,
    /// The reading of the system's monotonic clock.
    pub began: Duration,
}

/// Returns the present time by TAI and in UTC. Returns `None` if a clock cannot be read, if the offset is to come from
/// the system and the system does not have it, or if in 100 tries the clocks were not read within 100 microseconds.
pub fn tai_now<R: Clock>(rt: &R, offset: TaiOffset) -> Option<TaiTime> {
    for _ in 0..MAX_TRIES {
        let began = rt.monotonic().ok()?;
        let DayReading { tai, utc } = day_reading(rt, offset)?;
        let apart = rt.monotonic().ok()?.checked_sub(began)?;
        if apart <= Duration::from_micros(MOST_APART_MICROS) {
            return Some(TaiTime {
                at: reading_after(0, tai),
                utc: reading_after(0, utc),
                began,
            });
        }
    }
    None
}

/// The time since 1970 by TAI and in UTC.
#[derive(Clone, Copy)]
struct DayReading {
    tai: Duration,
    utc: Duration,
}

/// Returns the time since 1970, or `None` if a clock cannot be read or the system does not have the offset.
fn day_reading<R: Clock>(rt: &R, offset: TaiOffset) -> Option<DayReading> {
    match offset {
        TaiOffset::Seconds(ahead) => {
            let ahead = Duration::from_secs(u64::from(ahead));
            let utc = rt.since_1970().ok()?;
            Some(DayReading {
                tai: utc.saturating_add(ahead),
                utc,
            })
        }
        TaiOffset::System => system_reading_of_day(),
    }
}

/// Returns the readings of the system's clocks of TAI and of the time of day, or `None` if one cannot be read or the
/// system does not have the offset.
fn system_reading_of_day() -> Option<DayReading> {
    // Without an offset the clock of TAI reads the same as the time of day. Both are read at different moments, so they
    // are compared by a second. The time of day is read first, so the difference is never too small.
    let utc = system_reading(libc::CLOCK_REALTIME)?;
    let tai = system_reading(CLOCK_TAI)?;
    let ahead = tai.checked_sub(utc)?;
    (ahead >= Duration::from_secs(1)).then_some(DayReading { tai, utc })
}

/// Returns the reading of one of the system's clocks, or `None` if it cannot be read.
fn system_reading(clock: i32) -> Option<Duration> {
    let mut time = libc::types::timespec {
        tv_sec: 0,
        tv_nsec: 0,
    };
    if libc::clock_gettime(clock, &mut time) != 0 {
        return None;
    }
    let seconds = u64::try_from(time.tv_sec).ok()?;
    let nanos = u64::try_from(time.tv_nsec).ok()?;
    Some(Duration::from_secs(seconds).saturating_add(Duration::from_nanos(nanos)))
}
