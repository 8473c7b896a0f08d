//! The opening of a live run: its studio, and the clocks at that moment.
use crate::fault::ProgramFault;
use command_line::LiveArgs;
use live_audio::AudioParts;
use live_io::{TaiOffset, TaiTime, tai_now};
use std::alloc::Global;
use std::time::{Clock, Duration};
use studio_config::StudioSpec;

/// The number of sampling instants in a minute.
const MINUTE_INSTANTS: u64 = 2_880_000;

/// The number of sampling instants in a second.
const SECOND_INSTANTS: u64 = 48_000;

/// A studio that opens, with the clocks at its opening time.
#[derive(Drop)]
pub(crate) struct OpenedStudio {
    pub(crate) studio: StudioSpec,
    /// The reading of the system's monotonic clock, if it could be read.
    pub(crate) began: Option<Duration>,
    /// The time of day in UTC, in seconds since 1970, if it could be read.
    pub(crate) started: Option<u64>,
    /// The division of the mix into WAV files, if it is divided.
    pub(crate) parts: Option<AudioParts>,
}

/// Returns the studio as its configuration has it, or, with an offset of International Atomic Time, opened now by that
/// time. Returns the first fault: of the offset, of a clock, or of a time that would be out of range.
pub(crate) fn open_studio<R: Clock>(
    rt: &R,
    alloc: Global,
    studio: StudioSpec,
    args: LiveArgs<'_>,
) -> Result<OpenedStudio, ProgramFault> {
    match (args.tai_offset, args.wav_minutes) {
        (Some(word), _) => {
            let present = present_time(rt, offset_of(word)?)?;
            let studio = studio.shifted(alloc, present.at)?;
            Ok(opened_at(studio, present, args.wav_minutes))
        }
        // The names of the files are those of the time of day, which is read together with the monotonic clock.
        (None, Some(_)) => {
            let present = present_time(rt, TaiOffset::Seconds(0))?;
            Ok(opened_at(studio, present, args.wav_minutes))
        }
        (None, None) => Ok(OpenedStudio {
            studio,
            began: rt.monotonic().ok(),
            started: rt.since_1970().ok().map(|time| time.as_secs()),
            parts: None,
        }),
    }
}

/// Refuses a run that is to yield, if its copies do not wait for what is missing in them.
pub(crate) fn refuse_yield(studio: &StudioSpec, yield_seconds: u32) -> Result<(), ProgramFault> {
    if yield_seconds > 0 && studio.late() == 0 {
        return Err(ProgramFault::Yield);
    }
    Ok(())
}

/// Returns a studio that opens at this time. Its mix is divided into files of this many minutes, if it is divided.
fn opened_at(studio: StudioSpec, present: TaiTime, minutes: Option<u64>) -> OpenedStudio {
    let parts = minutes.map(|minutes| {
        AudioParts::new(
            &studio,
            present.utc,
            minutes.saturating_mul(MINUTE_INSTANTS),
        )
    });
    OpenedStudio {
        studio,
        began: Some(present.began),
        started: second_of(present.utc),
        parts,
    }
}

/// Returns the second of a time in sampling instants since 1970, or `None` if the time is before 1970.
fn second_of(instants: i64) -> Option<u64> {
    let instants = u64::try_from(instants).ok()?;
    Some(instants / SECOND_INSTANTS)
}

/// Returns the present time by International Atomic Time with this offset, and in UTC.
fn present_time<R: Clock>(rt: &R, offset: TaiOffset) -> Result<TaiTime, ProgramFault> {
    match tai_now(rt, offset) {
        Some(present) => Ok(present),
        None => Err(ProgramFault::Clock),
    }
}

/// Returns the offset in a word: a number of seconds, or `system`.
fn offset_of(word: &str) -> Result<TaiOffset, ProgramFault> {
    if word == "system" {
        return Ok(TaiOffset::System);
    }
    match word.parse::<u32>() {
        Ok(seconds) => Ok(TaiOffset::Seconds(seconds)),
        Err(_) => Err(ProgramFault::TaiOffset),
    }
}
