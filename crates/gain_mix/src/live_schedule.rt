//! A schedule in use: it takes changes, in memory that was reserved when it was made.
ghost use Rattle.std.specs.Prelude.{
  ◌≡◌,
  ◌≤◌,
  ◌<◌,
  ◌+◌,
  ◌-◌,
  ◌*◌,
  ◌^◌,
  ℤ,
  List,
  ◌∷◌,
  [],
  ◌++◌,
  ◌≤ℤ◌,
  drop,
  set,
  slice_get,
  length,
  All,
  IfOk,
  IfErr,
  OnOk,
  OnErr,
  None,
  Some,
};
ghost use Rattle.gain_mix.specs.Gain.{IsGain, ins_of, rows_of};
ghost use Rattle.gain_mix.specs.Changes.{before, matrix_at, rest_at, with_change};
ghost use Rattle.gain_mix.specs.LiveSchedule.{HasFree, change_fault_of, is_due};

use crate::matrix::{Matrix, has_range};
use crate::schedule::{CHANGES, MAX_TIME, Schedule, copied_changes, copied_matrix, last_of};
use std::alloc::{AllocError, Global};
use std::marker::Model;
use thiserror::Error;

/// The reason why a change is refused: the first of these that holds, in this order. Nothing has changed.
#[derive(Clone, Copy, Debug, PartialEq, Eq, Error)]
pub enum ChangeFault {
    /// The gains are not as many as those of a matrix of the schedule.
    #[error("the matrix has another shape than the first")]
    Shape,
    /// A gain is below -1,048,576 or above 1,048,576.
    #[error("a gain is out of range")]
    Range,
    /// The time is before the first one that may still change, or above 2^60 sampling instants.
    #[error("the time is out of range")]
    Time,
    /// 64 changes before the time are still to come.
    #[error("there are too many changes")]
    TooMany,
}

/// A schedule in use from a time on: the matrix in force at that time, and up to 64 changes that are still to come.
///
/// Only `new` allocates.
#[derive(Debug, Drop)]
pub struct LiveSchedule {
    first: Matrix,
    /// 64 places: the changes to come, in their order, and after them the free places.
    slots: Vec<(i64, Matrix)>,
    used: usize,
}

impl Model for LiveSchedule {
    ghost use Rattle.std.specs.Prelude.{◌≡◌, take, length};
    ghost use Rattle.gain_mix.specs.Changes.{Changes};
    ghost use Rattle.gain_mix.specs.LiveSchedule.{AreSlots};

    ghost Value = { Changes };

    ghost view = { λ s. record { first = s.first; later = take s.used s.slots.items } };

    ghost invariant = { λ s. AreSlots s.first s.slots.items s.used × (length s.slots.items ≡ 64) };
}

impl LiveSchedule {
    /// Returns a schedule in use from a time on, or an error if an allocation fails.
    pub fn new(alloc: Global, schedule: &Schedule, from: i64) -> Result<LiveSchedule, AllocError>
        ensures rest { IfOk result (λ live. live ≡ rest_at schedule.now from) }
        ensures outs { IfOk result (λ live. length live.first ≡ length schedule.now.first) }
        ensures ins { IfOk result (λ live. ins_of live.first ≡ ins_of schedule.now.first) }
    {
        let mut live = LiveSchedule::whole(alloc, schedule)?;
        live.pass(from);
        Ok(live)
    }

    /// Returns a schedule in use, before its first change, or an error if an allocation fails.
    fn whole(alloc: Global, schedule: &Schedule) -> Result<LiveSchedule, AllocError>
        ensures { IfOk result (λ live. live ≡ schedule.now) }
    {
        let first = copied_matrix(alloc, schedule.first())?;
        let used = schedule.later().len();
        let slots = with_free(alloc, schedule)?;
        Ok(LiveSchedule { first, slots, used })
    }

    /// Returns the matrix in force at a time: that of the last change at or before it, else the first.
    pub fn at(&self, t: i64) -> &Matrix
        ensures in_force { result.now ≡ matrix_at self.now t }
        ensures outs { length result.now ≡ length self.now.first }
        ensures ins { ins_of result.now ≡ ins_of self.now.first }
    {
        last_of(&self.first, &self.slots[..self.used], t)
    }

    /// Returns the number of outputs of each matrix, 1 to 8.
    pub fn outs(&self) -> usize
        ensures first { result ≡ length self.now.first }
        ensures each { (t : ℤ) → length (matrix_at self.now t) ≡ result }
        ensures some { 1 ≤ result }
    {
        self.first.outs()
    }

    /// Returns the number of inputs of each matrix, 1 to 1,024.
    pub fn ins(&self) -> usize
        ensures first { result ≡ ins_of self.now.first }
        ensures each { (t : ℤ) → ins_of (matrix_at self.now t) ≡ result }
        ensures few { result ≤ 1024 }
    {
        self.first.ins()
    }

    /// Takes a change: from `at` on these gains are in force, row by row. They replace every change that was planned
    /// from then on. No time before `from`, from which the schedule is in use, may change.
    pub fn change(&mut self, from: i64, at: i64, gains: &[i32]) -> Result<(), ChangeFault>
        ensures taken { OnOk result (self.new ≡ rest_at (with_change self.old at
            (rows_of (ins_of self.old.first) (length self.old.first) gains.now)) from) }
        ensures fine { OnOk result (change_fault_of self.old from at gains.now ≡ None) }
        ensures fault { IfErr result (λ fault. change_fault_of self.old from at gains.now ≡ Some fault) }
        ensures later { OnOk result (from ≤ℤ at) }
        ensures outs { length self.new.first ≡ length self.old.first }
        ensures ins { ins_of self.new.first ≡ ins_of self.old.first }
        ensures kept { OnErr result (self.new ≡ self.old) }
    {
        let kept = count_before(&self.slots[..self.used], at);
        if let Some(fault) = self.fault_of(from, at, gains, kept) {
            return Err(fault);
        }
        self.put(kept, at, gains);
        // A change for the current time is in force at once, and takes no place.
        self.pass(from);
        Ok(())
    }

    /// Returns the first fault of a change before which `kept` changes are to come.
    fn fault_of(&self, from: i64, at: i64, gains: &[i32], kept: usize) -> Option<ChangeFault>
        requires kept { kept ≡ length (before at self.now.later) }
        ensures value { result ≡ change_fault_of self.now from at gains.now }
        ensures place { result ≡ None → kept < 64 }
        ensures shape { result ≡ None → length gains.now ≡ length self.now.first * ins_of self.now.first }
        ensures range { result ≡ None → All IsGain gains.now }
        ensures later { result ≡ None → from ≤ℤ at }
    {
        if gains.len() != self.first.outs() * self.first.ins() {
            Some(ChangeFault::Shape)
        } else if !has_range(gains) {
            Some(ChangeFault::Range)
        } else if !(from <= at && at <= MAX_TIME) {
            Some(ChangeFault::Time)
        } else if CHANGES <= kept {
            Some(ChangeFault::TooMany)
        } else {
            None
        }
    }

    /// Puts a change after the `kept` changes before it.
    fn put(&mut self, kept: usize, at: i64, gains: &[i32])
        requires kept { kept ≡ length (before at self.old.later) }
        requires place { kept < 64 }
        requires len { length gains.now ≡ length self.old.first * ins_of self.old.first }
        requires in_range { All IsGain gains.now }
        ensures taken { self.new ≡ with_change self.old at
            (rows_of (ins_of self.old.first) (length self.old.first) gains.now) }
    {
        write_slot(&self.first, &mut self.slots, kept, at, gains);
        self.used = kept + 1;
    }

    /// Lets go of the changes up to a time. The last of them is the matrix in force from then on.
    pub fn pass(&mut self, t: i64)
        ensures rest { self.new ≡ rest_at self.old t }
        ensures outs { length self.new.first ≡ length self.old.first }
        ensures ins { ins_of self.new.first ≡ ins_of self.old.first }
    {
        while is_first_due(&self.slots[..self.used], t) {
            pass_first(&mut self.first, &mut self.slots);
            self.used -= 1;
        }
    }
}

/// Returns true if there is a change, and the first one's time is not after `t`.
fn is_first_due(later: &[(i64, Matrix)], t: i64) -> bool
    ensures { result ≡ is_due later.now t }
{
    match later.split_first() {
        Some((change, _)) => change.0 <= t,
        None => false,
    }
}

/// Returns the number of changes before a time.
fn count_before(later: &[(i64, Matrix)], at: i64) -> usize
    ensures { result ≡ length (before at later.now) }
{
    let mut kept = 0;
    for change in later {
        if change.0 < at {
            kept += 1;
        }
    }
    kept
}

/// Returns the changes of a schedule, and after them free places up to 64.
fn with_free(alloc: Global, schedule: &Schedule) -> Result<Vec<(i64, Matrix)>, AllocError>
    ensures free { IfOk result (λ slots. HasFree schedule.now.first schedule.now.later slots.items
        (64 - length schedule.now.later)) }
    ensures all { IfOk result (λ slots. length slots.items ≡ 64) }
{
    let mut slots = copied_changes(alloc, schedule.later())?;
    for _ in 0..CHANGES - schedule.later().len() {
        let matrix = copied_matrix(alloc, schedule.first())?;
        slots.push((0, matrix))?;
    }
    Ok(slots)
}

/// Writes a change to a place.
fn write_slot(first: &Matrix, slots: &mut Vec<(i64, Matrix)>, place: usize, at: i64, gains: &[i32])
    requires within { place < length slots.old.items }
    requires outs { All (λ slot. length slot.1 ≡ length first.now) slots.old.items }
    requires ins { All (λ slot. ins_of slot.1 ≡ ins_of first.now) slots.old.items }
    requires len { length gains.now ≡ length first.now * ins_of first.now }
    requires in_range { All IsGain gains.now }
    ensures { slots.new.items ≡ set slots.old.items place
        (at, rows_of (ins_of first.now) (length first.now) gains.now) }
{
    let slot = &mut slots[place];
    slot.0 = at;
    slot.1.set(gains);
}

/// Makes the matrix of the first change the first matrix, and moves the former first matrix to the last place.
fn pass_first(first: &mut Matrix, slots: &mut Vec<(i64, Matrix)>)
    requires some { 0 < length slots.old.items }
    ensures { (slot : ℤ × List (List ℤ)) → slice_get slots.old.items 0 ≡ Some slot
        → (first.new ≡ slot.1) × (slots.new.items ≡ drop 1 slots.old.items ++ (slot.0, first.old) ∷ []) }
{
    std::mem::swap(first, &mut slots[0].1);
    slots.rotate_left(1);
}
