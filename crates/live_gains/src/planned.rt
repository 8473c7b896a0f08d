//! The times of the changes of gains that are still to come, which the run's end of a channel keeps.
ghost use Rattle.std.specs.Prelude.{◌≡◌, ◌++◌, ◌∷◌, [], IfOk};
ghost use Rattle.live_gains.specs.Planned.{behind, earlier, planned_after, times_of, with_taken};

use std::alloc::{AllocError, Global};
use std::sync::Wait;
use studio_config::StudioSpec;
use studio_io::GainAnswer;

/// The greatest number of planned changes of a run's gains.
// A mixer takes no change that would be the 65th still to come.
pub(crate) const MAX_PLANNED: usize = 64;

/// Returns the times of the changes that a studio plans, in memory for 64 times. Returns `AllocError` if an allocation
/// fails.
pub(crate) fn planned_of(alloc: Global, studio: &StudioSpec) -> Result<Vec<i64>, AllocError>
    ensures { IfOk result (λ planned. planned.items ≡ times_of studio.now.schedule.later) }
{
    let mut planned = Vec::with_capacity(alloc, MAX_PLANNED)?;
    let later = studio.schedule().later();
    for change in later {
        planned.push(change.0)?;
    }
    Ok(planned)
}

/// Updates the times of the changes to come after an answer whose next block begins at `next`, and copies them to the
/// memory of a message. A change that was taken replaces those from its time on; times up to `next` are removed.
pub(crate) fn update_planned<R: Wait>(
    rt: &R,
    answer: GainAnswer,
    next: i64,
    planned: &mut Vec<i64>,
    memory: &mut Vec<i64>,
)
    ensures planned { planned.new.items ≡ planned_after answer next planned.old.items }
    ensures memory { memory.new.items ≡ planned.new.items }
{
    // Times that are due are removed first, so that no more than 64 are held: a mixer counts only changes to come.
    write_taken(rt, answer, behind(planned.as_slice(), next), memory);
    copy_times(rt, behind(memory.as_slice(), next), planned);
    copy_times(rt, planned.as_slice(), memory);
}

/// Writes these times to `memory`, with the change that an answer takes.
fn write_taken<R: Wait>(rt: &R, answer: GainAnswer, times: &[i64], memory: &mut Vec<i64>)
    ensures { memory.new.items ≡ with_taken answer times.now }
{
    match answer {
        GainAnswer::Taken(at) => {
            memory.clear();
            push_earlier(rt, times, at, memory);
            push_time(rt, at, memory);
        }
        GainAnswer::Refused(_) | GainAnswer::Shown(_) => copy_times(rt, times, memory),
    }
}

/// Returns these times without the first ones that are due at `t`.
fn behind(times: &[i64], t: i64) -> &[i64]
    ensures { result.now ≡ behind t times.now }
{
    match times.split_first() {
        Some((time, later)) if *time <= t => behind(later, t),
        _ => times,
    }
}

/// Appends those of these times that come before `at`.
fn push_earlier<R: Wait>(rt: &R, times: &[i64], at: i64, memory: &mut Vec<i64>)
    ensures { memory.new.items ≡ memory.old.items ++ earlier at times.now }
{
    for time in times {
        if *time < at {
            push_time(rt, *time, memory);
        }
    }
}

/// Appends a time.
// Each list here has space for 64 times, so the first try succeeds without an allocation: a mixer has at most 64
// changes to come. `GainSource` does not limit them: more of them wait here until there is memory, as gains do.
fn push_time<R: Wait>(rt: &R, time: i64, memory: &mut Vec<i64>)
    ensures { memory.new.items ≡ memory.old.items ++ time ∷ [] }
{
    for _ in rt.forever() {
        if memory.push(time).is_ok() {
            return;
        }
    }
    unreachable!()
}

/// Copies times to `memory`, and removes the times that it had.
fn copy_times<R: Wait>(rt: &R, times: &[i64], memory: &mut Vec<i64>)
    ensures { memory.new.items ≡ times.now }
{
    for _ in rt.forever() {
        memory.clear();
        if memory.extend_from_slice(times).is_ok() {
            return;
        }
    }
    unreachable!()
}
