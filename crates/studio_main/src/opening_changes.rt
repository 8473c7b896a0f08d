//! The gains with which a run begins, as the first changes of gains that its outputs take.
//!
//! A record is replayed with its configuration alone, and the file of `--gains` may be another one by then: a run
//! that keeps its gains replaces it. So a record has what the file changes, in the form that it has for each change of
//! the run, and no reader of records needs a rule of its own.
ghost use Rattle.std.specs.Prelude.{⊤};

use gain_mix::Matrix;
use run_outputs::{CreateOutput, CreatedOutput, EventOutput, OutputFault, TakenChange};
use std::alloc::Global;
use studio_config::StudioSpec;

/// An output of a run that takes, before all events, the changes of gains with which the run begins.
#[derive(Drop)]
pub(crate) struct OpeningChanges<O> {
    output: O,
    /// True if the run begins with the gains of a file. Otherwise the output takes no such change.
    is_wanted: bool,
}

impl<O: CreateOutput> OpeningChanges<O> {
    /// Returns this output, of a run that begins with the gains of a file or does not.
    pub(crate) fn new(output: O, is_wanted: bool) -> OpeningChanges<O> {
        OpeningChanges { output, is_wanted }
    }
}

impl<O: CreateOutput> CreateOutput for OpeningChanges<O> {
    type Events = O::Events;

    type Mix = O::Mix;

    type Tasks = O::Tasks;

    ghost begins = { λ is_controlled studio events mix. ⊤ };

    fn create(
        self,
        alloc: Global,
        studio: &StudioSpec,
        is_controlled: bool,
    ) -> Result<CreatedOutput<O::Events, O::Mix, O::Tasks>, OutputFault> {
        let OpeningChanges { output, is_wanted } = self;
        let mut created = output.create(alloc, studio, is_controlled || is_wanted)?;
        if is_wanted {
            take_changes(&mut created.events, studio);
        }
        Ok(created)
    }
}

/// Passes the gains that are in force at a mix's first block to `events`, if they are those of a change, and then each
/// change that is still to come.
// At most 64 changes, as many as may be to come at once: of 64 in a schedule the one in force is none to come.
fn take_changes<E: EventOutput>(events: &mut E, studio: &StudioSpec) {
    let schedule = studio.schedule();
    let (open_at, start) = (studio.open_at(), studio.output().start());
    if has_changed(schedule.later(), start) {
        take_change(events, open_at, start, schedule.at(start));
    }
    for change in schedule.later() {
        if start < change.0 {
            take_change(events, open_at, change.0, &change.1);
        }
    }
}

/// Returns true if the first of these changes is in force at a time.
fn has_changed(later: &[(i64, Matrix)], t: i64) -> bool {
    match later.split_first() {
        Some((change, _)) => change.0 <= t,
        None => false,
    }
}

/// Passes a change to `events` that a run took when it opened: from `at` on these gains are in force.
fn take_change<E: EventOutput>(events: &mut E, open_at: i64, at: i64, matrix: &Matrix) {
    events.changed(&TakenChange {
        time: open_at,
        at,
        next_block: 0,
        gains: matrix.gains(),
    });
}
