//! A matrix of gains that changes at given times.
ghost use Rattle.std.specs.Prelude.{
  ◌≡◌,
  ◌≤◌,
  ◌*◌,
  ◌^◌,
  ℤ,
  ◌⊎◌,
  pos,
  ◌+ℤ◌,
  ◌≤ℤ◌,
  length,
  All,
  IfOk,
  IfSome,
  IfNone,
  IsOkAnd,
};
ghost use Rattle.gain_mix.specs.Gain.{ins_of};
ghost use Rattle.gain_mix.specs.Changes.{last_change, matrix_at};
ghost use Rattle.gain_mix.specs.Mix.{Is24Bits, IsMixed};
ghost use Rattle.gain_mix.specs.Schedule.{IsChanges, schedule_fault_of, has_one_shape, has_times, is_rising};

use crate::live_schedule::LiveSchedule;
use crate::matrix::Matrix;
use crate::mix::{is_silent, mix_frame};
use std::alloc::{AllocError, Global};
use std::marker::Model;
use thiserror::Error;

/// The greatest number of changes.
// A schedule in use reserves a matrix for each: 6.3 MB together, with 8 outputs of 1,024 inputs.
pub(crate) const CHANGES: usize = 64;

/// The greatest time of a change, 2^60 sampling instants, which is also the greatest reading of a merge's clock.
pub(crate) const MAX_TIME: i64 = 1 << 60;

/// The reason why changes are not a schedule: the first of these that holds, in this order.
#[derive(Clone, Copy, Debug, PartialEq, Eq, Error)]
pub enum ScheduleFault {
    /// There are more than 64 changes.
    #[error("there are too many changes")]
    TooMany,
    /// A matrix has more or fewer outputs or inputs than the first.
    #[error("a matrix has another shape than the first")]
    Shape,
    /// A change's time is below 0 or above 2^60 sampling instants.
    #[error("a time is out of range")]
    Time,
    /// A change's time is not later than that of the change before it.
    #[error("the times do not rise")]
    Order,
}

/// A first matrix, and up to 64 changes: matrices that replace it, each from a time on.
#[derive(Debug, Drop)]
pub struct Schedule {
    first: Matrix,
    later: Vec<(i64, Matrix)>,
}

impl Model for Schedule {
    ghost use Rattle.gain_mix.specs.Changes.{Changes};
    ghost use Rattle.gain_mix.specs.Schedule.{IsChanges};

    ghost Value = { Changes };

    ghost view = { λ s. record { first = s.first; later = s.later.items } };

    ghost invariant = { λ s. IsChanges s.first s.later.items };
}

impl Schedule {
    /// Returns the schedule of these changes, whose times are sampling instants of the media clock, or the first
    /// fault in them. Does not allocate.
    pub fn new(first: Matrix, later: Vec<(i64, Matrix)>) -> Result<Schedule, ScheduleFault>
        ensures refused { IfSome (schedule_fault_of first later.items) (λ f. result ≡ Err f) }
        ensures made { IfNone (schedule_fault_of first later.items)
            (IsOkAnd result (λ s. s ≡ record { first = first; later = later.items })) }
    {
        match fault_of(&first, &later) {
            Some(fault) => Err(fault),
            None => Ok(Schedule { first, later }),
        }
    }

    /// Returns the matrix in force at a time: that of the last change at or before it, else the first.
    pub fn at(&self, t: i64) -> &Matrix
        ensures in_force { result.now ≡ matrix_at self.now t }
        ensures outs { length result.now ≡ length self.now.first }
        ensures ins { ins_of result.now ≡ ins_of self.now.first }
    {
        last_of(&self.first, self.later.as_slice(), t)
    }

    /// Returns the matrix before any change.
    pub fn first(&self) -> &Matrix
        ensures { result.now ≡ self.now.first }
    {
        &self.first
    }

    /// Returns the changes, each with its time, in order.
    pub fn later(&self) -> &[(i64, Matrix)]
        ensures changes { result.now ≡ self.now.later }
        ensures sound { IsChanges self.now.first self.now.later }

        // So a copy of the schedule can be made of them.
        ensures no_fault { schedule_fault_of self.now.first self.now.later ≡ None }
    {
        self.later.as_slice()
    }

    /// Returns the matrix before any change, and the changes, each with its time.
    pub fn into_parts(self) -> (Matrix, Vec<(i64, Matrix)>)
        ensures first { result.0 ≡ self.first }
        ensures later { result.1.items ≡ self.later }
        ensures no_fault { schedule_fault_of self.first self.later ≡ None }
    {
        let Schedule { first, later } = self;
        (first, later)
    }

    /// Returns a schedule of the same gains, or an error if an allocation fails.
    pub fn duplicate(&self, alloc: Global) -> Result<Schedule, AllocError>
        ensures { IfOk result (λ copy. copy ≡ self.now) }
    {
        let first = copied_matrix(alloc, &self.first)?;
        let later = copied_changes(alloc, self.later.as_slice())?;
        Ok(Schedule { first, later })
    }

    /// Returns the number of outputs of each matrix, 1 to 8.
    pub fn outs(&self) -> usize
        ensures first { result ≡ length self.now.first }
        ensures each { (t : ℤ) → length (matrix_at self.now t) ≡ result }
        ensures some { 1 ≤ result }
    {
        self.first.outs()
    }

    /// Returns the number of inputs of each matrix, 1 to 1,024.
    pub fn ins(&self) -> usize
        ensures first { result ≡ ins_of self.now.first }
        ensures each { (t : ℤ) → ins_of (matrix_at self.now t) ≡ result }
        ensures few { result ≤ 1024 }
    {
        self.first.ins()
    }
}

/// Returns the matrix of the last of these changes at or before a time, else the first matrix.
pub(crate) fn last_of<'a>(first: &'a Matrix, later: &'a [(i64, Matrix)], t: i64) -> &'a Matrix
    ensures { result.now ≡ last_change first.now later.now t }
{
    let mut matrix = first;
    for change in later {
        if change.0 <= t {
            matrix = &change.1;
        }
    }
    matrix
}

/// Returns a matrix of the same gains, or an error if an allocation fails.
pub(crate) fn copied_matrix(alloc: Global, matrix: &Matrix) -> Result<Matrix, AllocError>
    ensures { IfOk result (λ copy. copy ≡ matrix.now) }
{
    match Matrix::new(alloc, matrix.outs(), matrix.ins(), matrix.gains()) {
        Ok(copy) => Ok(copy),
        // The gains of a matrix have no other fault.
        Err(_) => Err(AllocError),
    }
}

/// Returns a copy of the changes, or an error if an allocation fails.
pub(crate) fn copied_changes(
    alloc: Global,
    changes: &[(i64, Matrix)],
) -> Result<Vec<(i64, Matrix)>, AllocError>
    ensures { IfOk result (λ copy. copy.items ≡ changes.now) }
{
    let mut copy = Vec::with_capacity(alloc, changes.len())?;
    for change in changes {
        let matrix = copied_matrix(alloc, &change.1)?;
        copy.push((change.0, matrix))?;
    }
    Ok(copy)
}

/// Returns the first fault of these changes.
fn fault_of(first: &Matrix, later: &[(i64, Matrix)]) -> Option<ScheduleFault>
    ensures { result ≡ schedule_fault_of first.now later.now }
{
    if CHANGES < later.len() {
        Some(ScheduleFault::TooMany)
    } else if !has_one_shape(first, later) {
        Some(ScheduleFault::Shape)
    } else if !has_times(later) {
        Some(ScheduleFault::Time)
    } else if !is_rising(later) {
        Some(ScheduleFault::Order)
    } else {
        None
    }
}

/// Returns true if each matrix has as many outputs and inputs as the first.
fn has_one_shape(first: &Matrix, later: &[(i64, Matrix)]) -> bool
    ensures { result ≡ has_one_shape first.now later.now }
{
    let outs = first.outs();
    let ins = first.ins();
    later
        .iter()
        .all(|change| change.1.outs() == outs && change.1.ins() == ins)
}

/// Returns true if each change's time is from 0 to 2^60.
fn has_times(later: &[(i64, Matrix)]) -> bool
    ensures { result ≡ has_times later.now }
{
    later
        .iter()
        .all(|change| 0 <= change.0 && change.0 <= MAX_TIME)
}

/// Returns true if each change's time is later than that of the change before it.
fn is_rising(later: &[(i64, Matrix)]) -> bool
    ensures { result ≡ is_rising later.now }
{
    let Some((change, rest)) = later.split_first() else {
        return true;
    };
    let mut last = change.0;
    for next in rest {
        if next.0 <= last {
            return false;
        }
        last = next.0;
    }
    true
}

/// Mixes the inputs of `frames` sampling instants from `t` on, each by the matrix in force at it.
///
/// The shift is 16 for L24 output and 24 for L16 output.
pub fn mix_span(
    schedule: &LiveSchedule,
    t: i64,
    ins: &[i32],
    outs: &mut [i32],
    frames: usize,
    shift: u32,
)
    requires not_early { pos 0 ≤ℤ t }
    requires not_late { t ≤ℤ pos (2 ^ 62) }
    requires ins_len { length ins.now ≡ frames * ins_of schedule.now.first }
    requires outs_len { length outs.old ≡ frames * length schedule.now.first }
    requires in_24_bits { All Is24Bits ins.now }
    requires shift { (shift ≡ 16) ⊎ (shift ≡ 24) }
    ensures mixed { IsMixed (λ f. matrix_at schedule.now (t +ℤ pos f)) ins.now outs.new frames shift }
    ensures outs { (u : ℤ) → length (matrix_at schedule.now u) ≡ length schedule.now.first }
    ensures ins { (u : ℤ) → ins_of (matrix_at schedule.now u) ≡ ins_of schedule.now.first }
{
    let width = schedule.ins();
    let height = schedule.outs();
    // Silence is not multiplied, so an idle studio costs little.
    if is_silent(ins) {
        outs.fill(0);
        return;
    }
    for frame in 0..frames {
        let matrix = schedule.at(t + frame as i64);
        let from = frame * width;
        let to = frame * height;
        mix_frame(
            matrix,
            &ins[from..from + width],
            &mut outs[to..to + height],
            shift,
        );
    }
}
