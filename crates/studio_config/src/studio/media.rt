//! A studio whose output is by the media clock, so that the block at a media time has one number, whenever the studio
//! opens.
ghost use Rattle.std.specs.Prelude.{◌≡◌, ◌^◌, ◌≤ℤ◌, pos, None, Some, IfOk, IfErr, OnOk};
ghost use Rattle.mix_packets.specs.Aligned.{aligned};
ghost use Rattle.studio_config.specs.OutputClock.{
  are_by_media,
  by_clock,
  by_media,
  clock_fault_of,
  is_media,
  media_fault_of,
};
ghost use Rattle.studio_config.specs.Shift.{start_fault};

use crate::config::{ConfigTable, Key, SpecError, SpecErrorKind};
use crate::output_clock::OutputClock;
use crate::studio::StudioSpec;
use mix_packets::OutSpec;
use rtp_stream::{StreamClock, StreamSpec};

impl StudioSpec {
    /// Returns the studio with its output by the media clock: its start is the origin from which blocks are counted,
    /// and the first block is the first that begins at the opening or after it. The gains change at the times that
    /// they had.
    ///
    /// The error is a stream with another clock, or a first block after 2^60 sampling instants.
    pub fn by_media_clock(self) -> Result<StudioSpec, SpecError>
        ensures ok { IfOk result (λ s. s ≡ by_media self) }
        ensures fine { OnOk result (media_fault_of self ≡ None) }
        ensures fault { IfErr result (λ e. media_fault_of self ≡ Some e) }
    {
        // Media times of other clocks are those of one receiver, so the same block of another one has other samples.
        if !are_by_media(self.streams.as_slice()) {
            return Err(SpecError::at_key(ConfigTable::Output, Key::Clock, SpecErrorKind::Streams));
        }
        let output = aligned_output(self.output, self.open_at)?;
        Ok(StudioSpec {
            output,
            clock: OutputClock::Media,
            ..self
        })
    }

    /// Returns the studio with its output by a clock, or its fault.
    pub(crate) fn by_clock(self, clock: OutputClock) -> Result<StudioSpec, SpecError>
        ensures ok { IfOk result (λ s. s ≡ by_clock clock self) }
        ensures fine { OnOk result (clock_fault_of clock self ≡ None) }
        ensures fault { IfErr result (λ e. clock_fault_of clock self ≡ Some e) }
    {
        match clock {
            OutputClock::Run => Ok(self),
            OutputClock::Media => self.by_media_clock(),
        }
    }
}

/// Returns whether each of these streams has the media clock.
fn are_by_media(streams: &[StreamSpec]) -> bool
    ensures { result ≡ are_by_media streams.now }
{
    streams.iter().all(|stream| is_media(stream.clock()))
}

/// Returns whether a stream's clock is the media clock.
fn is_media(clock: StreamClock) -> bool
    ensures { result ≡ is_media clock }
{
    match clock {
        StreamClock::Media { .. } => true,
        StreamClock::Arrival | StreamClock::Follow => false,
    }
}

/// Returns the output from the first of its blocks on that begins at a time or after it.
pub(crate) fn aligned_output(output: OutSpec, time: i64) -> Result<OutSpec, SpecError>
    requires low { pos 0 ≤ℤ time }
    requires high { time ≤ℤ pos (2 ^ 60) }
    ensures ok { IfOk result (λ o. o ≡ aligned time output) }
    ensures fine { OnOk result (start_fault (aligned time output).start ≡ None) }
    ensures fault { IfErr result (λ e. start_fault (aligned time output).start ≡ Some e) }
{
    match output.aligned_to(time) {
        Ok(output) => Ok(output),
        Err(_) => Err(SpecError::at_key(
            ConfigTable::Output,
            Key::Start,
            SpecErrorKind::OutOfRange,
        )),
    }
}
