//! The numbers that represent results.
ghost use Rattle.std.specs.Prelude.{◌≡◌, ◌<ℤ◌, pos};
ghost use Rattle.darbexum_c.specs.Codes as code;

use gain_mix::ChangeFault;
use path_merge::ClockFault;
use rtp_stream::{Fate, StreamClock};
use studio_engine::ArriveFault;
use studio_session::ArriveOutcome;

/// The handle has no engine.
pub(crate) const NO_ENGINE: i32 = -1;
/// The last turn hasn't returned 0 yet.
pub(crate) const UNFINISHED: i32 = -2;
/// There is no such stream.
pub(crate) const NO_STREAM: i32 = -3;
/// The stream does not have the path.
pub(crate) const NO_PATH: i32 = -4;
/// 2^62 events were taken.
pub(crate) const FULL: i32 = -5;
/// The clock went back.
pub(crate) const WENT_BACK: i32 = -6;
/// The clock is past 2^60.
pub(crate) const TOO_FAR: i32 = -7;
/// The engine is closed.
pub(crate) const CLOSED: i32 = -8;
/// The buffer is shorter than a datagram, or a struct is smaller than this version's.
pub(crate) const SHORT_ROOM: i32 = -9;
/// The configuration is not TOML, or too long.
pub(crate) const NO_TOML: i32 = -10;
/// The configuration has a fault.
pub(crate) const NO_STUDIO: i32 = -11;
/// An allocation failed.
pub(crate) const NO_MEMORY: i32 = -12;
/// There is none.
pub(crate) const NONE: i32 = -13;
/// The gains are not as many as the matrix has: one for each output channel and input channel.
pub(crate) const BAD_SHAPE: i32 = -14;
/// A gain is below -1,048,576 or above 1,048,576.
pub(crate) const BAD_GAIN: i32 = -15;
/// The time is before the next block, or past 2^60.
pub(crate) const BAD_TIME: i32 = -16;
/// 64 changes before the time are still to come.
pub(crate) const TOO_MANY: i32 = -17;

/// Returns the number of a fate.
fn fate_code(fate: Fate) -> i32
    ensures value { result ≡ pos (code.fate_code fate) }
    ensures few { result <ℤ pos 13 }
{
    match fate {
        Fate::Closed => 0,
        Fate::CountersFull => 1,
        Fate::WrongSource => 2,
        Fate::OffGrid => 3,
        Fate::Late => 4,
        Fate::Ahead => 5,
        Fate::Taken => 6,
        Fate::Double => 7,
        Fate::Unlike => 8,
        Fate::Restarted => 9,
    }
}

/// Returns the number of a datagram's outcome.
pub(crate) fn outcome_code(outcome: ArriveOutcome) -> i32
    ensures value { result ≡ pos (code.outcome_code outcome) }
    ensures few { result <ℤ pos 13 }
{
    match outcome {
        ArriveOutcome::Offered(packet) => fate_code(packet.fate),
        ArriveOutcome::Bad(_) => 10,
        ArriveOutcome::WrongType => 11,
        ArriveOutcome::WrongLength => 12,
    }
}

/// Returns the number of a stream's clock.
pub(crate) fn clock_code(clock: StreamClock) -> u32
    ensures { result ≡ code.clock_code clock }
{
    match clock {
        StreamClock::Media { offset: _ } => 0,
        StreamClock::Arrival => 1,
        StreamClock::Follow => 2,
    }
}

/// Returns the number of the reason why a datagram wasn't taken.
pub(crate) fn arrive_fault_code(fault: ArriveFault) -> i32
    ensures value { result ≡ code.arrive_fault_code fault }
    ensures below { result <ℤ pos 0 }
{
    match fault {
        ArriveFault::Unfinished => UNFINISHED,
        ArriveFault::Stream => NO_STREAM,
        ArriveFault::Path => NO_PATH,
        ArriveFault::Full => FULL,
    }
}

/// Returns the number of the reason why a clock reading wasn't taken.
pub(crate) fn clock_fault_code(fault: ClockFault) -> i32
    ensures value { result ≡ code.clock_fault_code fault }
    ensures below { result <ℤ pos 0 }
{
    match fault {
        ClockFault::WentBack => WENT_BACK,
        ClockFault::TooFar => TOO_FAR,
        ClockFault::Closed => CLOSED,
    }
}

/// Returns the number of the reason why a change of gains wasn't taken.
pub(crate) fn change_fault_code(fault: ChangeFault) -> i32
    ensures value { result ≡ code.change_fault_code fault }
    ensures below { result <ℤ pos 0 }
{
    match fault {
        ChangeFault::Shape => BAD_SHAPE,
        ChangeFault::Range => BAD_GAIN,
        ChangeFault::Time => BAD_TIME,
        ChangeFault::TooMany => TOO_MANY,
    }
}
