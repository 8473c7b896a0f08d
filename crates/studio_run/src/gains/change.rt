//! Matrices and schedules that are changed.
ghost use Rattle.std.specs.Prelude.{◌≡◌, ◌<◌, ◌⊎◌, true, false, length, None, IfOk, IfErr, OnOk};
ghost use Rattle.gain_mix.specs.Changes.{before, with_change};
ghost use Rattle.gain_mix.specs.Gain.{ins_of};
ghost use Rattle.gain_mix.specs.LiveSchedule.{has_place};
ghost use Rattle.gain_mix.specs.Schedule.{schedule_fault_of};
ghost use Rattle.studio_run.specs.Gains.{IsChange, is_gain, with_gain};
ghost use Rattle.studio_run.specs.declared.gains.fault.GainsFaultKind.TheVariants as kind;

use crate::gains::fault::GainsFaultKind;
use gain_mix::{Matrix, MatrixFault, Schedule};
use std::alloc::{AllocError, Global};

/// The greatest number of changes of a schedule.
const MAX_CHANGES: usize = 64;

/// Returns the matrix with another gain from an input to an output, or an error if an allocation fails.
pub(crate) fn matrix_with_gain(
    alloc: Global,
    matrix: &Matrix,
    output: usize,
    input: usize,
    gain: i32,
) -> Result<Matrix, AllocError>
    requires output { output < length matrix.now }
    requires input { input < ins_of matrix.now }
    requires range { is_gain gain ≡ true }
    ensures rows { IfOk result (λ m. m ≡ with_gain matrix.now output input gain) }
    ensures outs { IfOk result (λ m. length m ≡ length matrix.now) }
    ensures ins { IfOk result (λ m. ins_of m ≡ ins_of matrix.now) }
{
    let mut gains = Vec::from_slice(alloc, matrix.gains())?;
    let place = output * matrix.ins() + input;
    gains[place] = gain;
    match Matrix::new(alloc, matrix.outs(), matrix.ins(), gains.as_slice()) {
        Ok(changed) => Ok(changed),
        Err(MatrixFault::Memory) => Err(AllocError),
        Err(_) => unreachable!(),
    }
}

/// Returns the schedule with a change, which replaces all that was planned from its time on.
pub(crate) fn schedule_with_change(
    schedule: Schedule,
    at: i64,
    matrix: Matrix,
) -> Result<Schedule, GainsFaultKind>
    requires { IsChange schedule (at, matrix) }
    ensures ok { IfOk result (λ s. s ≡ with_change schedule at matrix) }
    ensures fine { OnOk result (has_place schedule at ≡ true) }
    ensures fault { IfErr result
        (λ e. (e ≡ kind.Memory) ⊎ ((e ≡ kind.TooMany) × (has_place schedule at ≡ false))) }
{
    let (first, planned) = schedule.into_parts();
    let mut later = changes_before(planned, at);
    if later.len() >= MAX_CHANGES {
        return Err(GainsFaultKind::TooMany);
    }
    match later.push((at, matrix)) {
        Ok(()) => Ok(made_schedule(first, later)),
        Err(_) => Err(GainsFaultKind::Memory),
    }
}

/// Returns those of these changes that come before a time.
fn changes_before(changes: Vec<(i64, Matrix)>, at: i64) -> Vec<(i64, Matrix)>
    ensures { result.items ≡ before at changes.items }
{
    let mut kept = changes;
    kept.retain(|change| change.0 < at);
    kept
}

/// Returns the schedule of changes without a fault.
fn made_schedule(first: Matrix, later: Vec<(i64, Matrix)>) -> Schedule
    requires { schedule_fault_of first later.items ≡ None }
    ensures { result ≡ record { first = first; later = later.items } }
{
    match Schedule::new(first, later) {
        Ok(schedule) => schedule,
        Err(_) => unreachable!(),
    }
}
