//! The shift of a studio to another opening time: its other times move by as much, but for those of an output by the
//! media clock.
ghost use Rattle.std.specs.Prelude.{
  ◌≡◌,
  ◌⊎◌,
  ◌^◌,
  ◌≤ℤ◌,
  ◌+ℤ◌,
  pos,
  negsuc,
  Some,
  None,
  IfOk,
  IfErr,
  OnOk,
};
ghost use Rattle.studio_config.specs.Config.{no_memory};
ghost use Rattle.studio_config.specs.Shift.{
  changes_fault,
  moved_fault,
  shift_fault_of,
  shifted,
  shifted_changes,
  shifted_output,
  shifted_schedule,
  start_fault,
};
ghost use Rattle.studio_config.specs.declared.config.fault.SpecErrorKind.TheVariants as kind;

use crate::config::{ConfigTable, Key, SpecError, SpecErrorKind};
use crate::output_clock::OutputClock;
use crate::studio::StudioSpec;
use crate::studio::media::aligned_output;
use gain_mix::{Matrix, Schedule};
use mix_packets::OutSpec;
use rtp_stream::MAX_TIME;
use std::alloc::Global;

impl StudioSpec {
    /// Returns the studio opened at `open_at`, in sampling instants. By the clock of the run, the output's start and
    /// the times of the changes of gains move by as much as the opening time. By the media clock, the output begins at
    /// the first of its blocks that begins at `open_at` or after it, with the number that this block has, and the
    /// changes keep their times.
    ///
    /// The error is the first of these times that would not be from 0 to 2^60, or an allocation failure.
    pub fn shifted(self, alloc: Global, open_at: i64) -> Result<StudioSpec, SpecError>
        ensures ok { IfOk result (λ s. s ≡ shifted open_at self) }
        ensures fine { OnOk result (shift_fault_of (shifted open_at self) ≡ None) }
        ensures fault { IfErr result (λ e. (e ≡ no_memory) ⊎ (shift_fault_of (shifted open_at self) ≡ Some e)) }
    {
        if open_at < 0 || open_at > MAX_TIME {
            return Err(out_of_range(ConfigTable::Top, Key::OpenAt));
        }
        let by = open_at - self.open_at;
        let output = shifted_output(self.output, self.clock, by, open_at)?;
        let schedule = shifted_schedule(alloc, self.schedule, self.clock, by)?;
        Ok(StudioSpec {
            open_at,
            output,
            schedule,
            ..self
        })
    }
}

/// Returns the fault of a key whose time is out of range.
fn out_of_range(place: ConfigTable, key: Key) -> SpecError
    ensures { result ≡ record { place = place; key = Some key; kind = kind.OutOfRange } }
{
    SpecError::at_key(place, key, SpecErrorKind::OutOfRange)
}

/// Returns the output of a studio that opens `by` sampling instants later, at `open_at`.
fn shifted_output(
    output: OutSpec,
    clock: OutputClock,
    by: i64,
    open_at: i64,
) -> Result<OutSpec, SpecError>
    requires low { negsuc (2 ^ 60) ≤ℤ by }
    requires high { by ≤ℤ pos (2 ^ 60) }
    requires open_low { pos 0 ≤ℤ open_at }
    requires open_high { open_at ≤ℤ pos (2 ^ 60) }
    ensures ok { IfOk result (λ o. o ≡ shifted_output clock by open_at output) }
    ensures fine { OnOk result (start_fault (shifted_output clock by open_at output).start ≡ None) }
    ensures fault { IfErr result (λ e. start_fault (shifted_output clock by open_at output).start ≡ Some e) }
{
    match clock {
        OutputClock::Run => moved_output(output, by),
        OutputClock::Media => aligned_output(output, open_at),
    }
}

/// Returns the gains of that output.
fn shifted_schedule(
    alloc: Global,
    schedule: Schedule,
    clock: OutputClock,
    by: i64,
) -> Result<Schedule, SpecError>
    ensures ok { IfOk result (λ s. s ≡ shifted_schedule clock by schedule) }
    ensures fine { OnOk result (moved_fault clock (shifted_schedule clock by schedule).later ≡ None) }
    ensures fault { IfErr result (λ e. (e ≡ no_memory)
        ⊎ (moved_fault clock (shifted_schedule clock by schedule).later ≡ Some e)) }
{
    match clock {
        OutputClock::Run => moved_schedule(alloc, schedule, by),
        OutputClock::Media => Ok(schedule),
    }
}

/// Returns the output, which starts `by` sampling instants later.
fn moved_output(output: OutSpec, by: i64) -> Result<OutSpec, SpecError>
    requires low { negsuc (2 ^ 60) ≤ℤ by }
    requires high { by ≤ℤ pos (2 ^ 60) }
    ensures ok { IfOk result (λ o. o ≡ record output { start = output.start +ℤ by }) }
    ensures fine { OnOk result (start_fault (output.start +ℤ by) ≡ None) }
    ensures fault { IfErr result (λ e. start_fault (output.start +ℤ by) ≡ Some e) }
{
    match output.starting_at(output.start() + by) {
        Ok(output) => Ok(output),
        // Nothing but the start changed, so no other rule can be broken.
        Err(_) => Err(out_of_range(ConfigTable::Output, Key::Start)),
    }
}

/// Returns the gains, each of whose changes comes `by` sampling instants later.
fn moved_schedule(alloc: Global, schedule: Schedule, by: i64) -> Result<Schedule, SpecError>
    ensures ok { IfOk result (λ s. s ≡ record schedule { later = shifted_changes by schedule.later }) }
    ensures fine { OnOk result (changes_fault (shifted_changes by schedule.later) ≡ None) }
    ensures fault { IfErr result (λ e. (e ≡ no_memory) ⊎ (changes_fault (shifted_changes by schedule.later) ≡ Some e)) }
{
    let (first, changes) = schedule.into_parts();
    let later = shifted_changes(alloc, changes, by)?;
    match Schedule::new(first, later) {
        Ok(schedule) => Ok(schedule),
        // The number, the shapes and the order of the changes are as before, so no other rule can be broken.
        Err(_) => Err(out_of_range(ConfigTable::Output, Key::Change)),
    }
}

/// Returns the changes, each `by` sampling instants later.
fn shifted_changes(
    alloc: Global,
    changes: Vec<(i64, Matrix)>,
    by: i64,
) -> Result<Vec<(i64, Matrix)>, SpecError>
    ensures ok { IfOk result (λ later. later.items ≡ shifted_changes by changes.items) }
    ensures fault { IfErr result (λ e. (e ≡ no_memory) ⊎ (changes_fault (shifted_changes by changes.items) ≡ Some e)) }
{
    let mut later = Vec::with_capacity(alloc, changes.len())?;
    let mut rest = changes.into_iter();
    while let Some((at, matrix)) = rest.next() {
        // Only overflow is tested here. `Schedule::new` tests the range.
        let Some(at) = at.checked_add(by) else {
            return Err(out_of_range(ConfigTable::Output, Key::Change));
        };
        later.push((at, matrix))?;
    }
    Ok(later)
}
