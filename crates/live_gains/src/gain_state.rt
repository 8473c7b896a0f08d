//! The gains of a run as they are kept: those in force, and the changes that are still to come.
ghost use Rattle.std.specs.Prelude.{◌≡◌, [], false, IfOk};
ghost use Rattle.gain_mix.specs.Changes.{rest_at};
ghost use Rattle.live_gains.specs.Noted.{noted};

use crate::kept_text::write_kept;
use crate::planned::planned_of;
use gain_mix::LiveSchedule;
use std::alloc::{AllocError, Global};
use studio_config::StudioSpec;

/// The greatest number of changes to come in a text.
// A text has a change more, that of the gains in force, and a schedule has at most 64 changes.
const MAX_KEPT: usize = 63;

/// The gains of a run from a time on: the matrix in force at that time, and the changes that are still to come.
///
/// Only `new` and `write_new` allocate.
#[derive(Drop)]
pub(crate) struct GainState {
    schedule: LiveSchedule,
    /// The time from which the schedule is in use.
    from: i64,
    /// The times of the changes that are still to come, in memory for 64.
    planned: Vec<i64>,
    /// True if there is something that no text has yet.
    is_new: bool,
}

impl GainState {
    /// Returns the gains of a run of this studio, from the first block of its mix on. Returns `AllocError` if an
    /// allocation fails.
    pub(crate) fn new(alloc: Global, studio: &StudioSpec) -> Result<GainState, AllocError>
        ensures { IfOk result
            (λ state. state.schedule ≡ rest_at studio.now.schedule studio.now.output.start) }
    {
        let from = studio.output().start();
        let mut planned = planned_of(alloc, studio)?;
        planned.retain(|time| from < *time);
        Ok(GainState {
            schedule: LiveSchedule::new(alloc, studio.schedule(), from)?,
            from,
            planned,
            is_new: true,
        })
    }

    /// Lets go of the changes up to a time. The last of them is in force from then on.
    pub(crate) fn pass(&mut self, t: i64)
        ensures { self.new.schedule ≡ rest_at self.old.schedule t }
    {
        let count = self.planned.len();
        self.from = self.from.max(t);
        self.schedule.pass(t);
        self.planned.retain(|time| t < *time);
        if self.planned.len() != count {
            self.is_new = true;
        }
    }

    /// Notes a change that the run took: from `at` on these gains are in force. No time before `from` could change any
    /// more.
    pub(crate) fn note(&mut self, at: i64, from: i64, gains: &[i32])
        ensures { self.new.schedule ≡ noted self.old.schedule from at gains.now }
    {
        // Before the change, as the run does, so that it is refused only if the run refuses it too.
        self.pass(from);
        let Ok(()) = self.schedule.change(from, at, gains) else {
            return;
        };
        self.planned.retain(|time| *time < at);
        if from < at {
            // Never refused: of 64 changes to come, this is the last one.
            let _ = self.planned.push(at);
        }
        self.is_new = true;
    }

    /// Replaces `text` by that of the gains in force and, if they are wanted, of the first 63 changes to come. Returns
    /// false, and leaves the text, if it would be the last one again. Returns `AllocError` if an allocation fails.
    pub(crate) fn write_new(
        &mut self,
        with_planned: bool,
        text: &mut Vec<u8>,
    ) -> Result<bool, AllocError> {
        if !self.is_new {
            return Ok(false);
        }
        let times = kept_times(self.planned.as_slice(), with_planned);
        write_kept(&self.schedule, self.from, times, text)?;
        self.is_new = false;
        Ok(true)
    }
}

/// Returns the first 63 of these times, or all if there are fewer. Returns none if they are not wanted.
fn kept_times(times: &[i64], are_wanted: bool) -> &[i64]
    ensures { are_wanted ≡ false → result.now ≡ [] }
{
    if !are_wanted {
        return &times[..0];
    }
    first_of(times)
}

/// Returns the first 63 of these times, or all if there are fewer.
fn first_of(times: &[i64]) -> &[i64] {
    &times[..times.len().min(MAX_KEPT)]
}
