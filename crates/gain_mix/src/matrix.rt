//! The matrix of gains: one row for each output, one gain in it for each input.
ghost use Rattle.std.specs.Prelude.{◌≡◌, ◌+◌, ◌*◌, ◌<◌, ◌≤◌, length, All, IfOk, IfSome, IfNone, MatchResult, slice_get};
ghost use Rattle.gain_mix.specs.Four.{AreRows, AreRowsAt};
ghost use Rattle.gain_mix.specs.Gain.{IsGain, IsRow, are_used, has_gain, ins_of, rows_of};
ghost use Rattle.gain_mix.specs.Matrix.{matrix_fault_of, has_shape, has_range};

use crate::four_rows::FourRows;
use std::alloc::{AllocError, Global};
use std::marker::Model;
use thiserror::Error;

/// The reason why gains are not a matrix: the first of these that holds, in this order.
#[derive(Clone, Copy, Debug, PartialEq, Eq, Error)]
pub enum MatrixFault {
    /// There are not 1 to 8 outputs and 1 to 1,024 inputs, or not a gain for each pair of them.
    #[error("the matrix has another shape")]
    Shape,
    /// A gain is below -1,048,576 or above 1,048,576.
    #[error("a gain is out of range")]
    Range,
    /// An allocation for the gains failed.
    #[error("out of memory")]
    Memory,
}

/// Gains in units of 1/65,536, row by row: 1 to 8 outputs of 1 to 1,024 inputs.
#[derive(Debug, Drop)]
pub struct Matrix {
    outs: usize,
    ins: usize,
    gains: Vec<i32>,
    /// The gains again, in 64 bits.
    // Kept in the width of sums, so that no product has to widen one.
    wide: Vec<i64>,
}

impl Model for Matrix {
    ghost use Rattle.std.specs.Prelude.{List, ℤ};
    ghost use Rattle.std.specs.Prelude.{◌≡◌};
    ghost use Rattle.gain_mix.specs.Gain.{IsMatrix, rows_of};

    ghost Value = { List (List ℤ) };

    ghost view = { λ m. rows_of m.ins m.outs m.gains.items };

    ghost invariant = { λ m. IsMatrix m.outs m.ins m.gains.items × (m.wide.items ≡ m.gains.items) };
}

impl Matrix {
    /// Returns the matrix of these gains, row by row, in units of 1/65,536; or the first fault of them, and
    /// `Memory` if an allocation fails.
    pub fn new(alloc: Global, outs: usize, ins: usize, gains: &[i32]) -> Result<Matrix, MatrixFault>
        ensures refused { IfSome (matrix_fault_of outs ins gains.now) (λ f. result ≡ Err f) }
        ensures made { IfNone (matrix_fault_of outs ins gains.now)
            (MatchResult result (λ m. m ≡ rows_of ins outs gains.now) (λ f. f ≡ MatrixFault.Memory)) }
    {
        if let Some(fault) = fault_of(outs, ins, gains) {
            return Err(fault);
        }
        let wide = wide_gains(alloc, gains).map_err(|_| MatrixFault::Memory)?;
        let gains = Vec::from_slice(alloc, gains).map_err(|_| MatrixFault::Memory)?;
        Ok(Matrix {
            outs,
            ins,
            gains,
            wide,
        })
    }

    /// Returns the number of outputs, 1 to 8.
    pub fn outs(&self) -> usize
        ensures rows { result ≡ length self.now }
        ensures some { 1 ≤ result }
        ensures few { result ≤ 8 }
    {
        self.outs
    }

    /// Returns the number of inputs, 1 to 1,024.
    pub fn ins(&self) -> usize
        ensures gains { result ≡ ins_of self.now }
        ensures in_each_row { All (λ row. length row ≡ result) self.now }
        ensures some { 1 ≤ result }
        ensures few { result ≤ 1024 }
    {
        self.ins
    }

    /// Returns the gains, row by row, in units of 1/65,536.
    pub fn gains(&self) -> &[i32]
        ensures by_row { rows_of (ins_of self.now) (length self.now) result.now ≡ self.now }
        ensures len { length result.now ≡ length self.now * ins_of self.now }
        ensures in_range { All IsGain result.now }

        // So a copy of the matrix can be made of them.
        ensures no_fault { matrix_fault_of (length self.now) (ins_of self.now) result.now ≡ None }
    {
        self.gains.as_slice()
    }

    /// Returns true if `count` inputs from `at` on are used: if one of them has a gain other than 0 in one of the
    /// outputs.
    pub fn uses(&self, at: usize, count: usize) -> bool
        requires { at + count ≤ ins_of self.now }
        ensures { result ≡ are_used self.now at count }
    {
        for output in 0..self.outs() {
            if has_gain(&self.row(output)[at..at + count]) {
                return true;
            }
        }
        false
    }

    /// Replaces the gains, row by row.
    pub(crate) fn set(&mut self, gains: &[i32])
        requires len { length gains.now ≡ length self.old * ins_of self.old }
        requires in_range { All IsGain gains.now }
        ensures { self.new ≡ rows_of (ins_of self.old) (length self.old) gains.now }
    {
        self.gains.copy_from_slice(gains);
        widen(gains, self.wide.as_mut_slice());
    }

    /// Returns the gains of one output, in 64 bits.
    pub(crate) fn row(&self, output: usize) -> &[i64]
        requires { output < length self.now }
        ensures row { slice_get self.now output ≡ Some result.now }
        ensures gains { IsRow (ins_of self.now) result.now }
        ensures few { ins_of self.now ≤ 1024 }
        ensures few_outs { length self.now ≤ 8 }
    {
        let start = output * self.ins;
        &self.wide[start..start + self.ins]
    }

    /// Returns the gains of four outputs, from `output` on, in 64 bits.
    pub(crate) fn four_rows(&self, output: usize) -> FourRows<'_>
        requires { output + 4 ≤ length self.now }
        ensures rows { AreRows (ins_of self.now) result }
        ensures at { AreRowsAt self.now output result }
        ensures few { ins_of self.now ≤ 1024 }
    {
        FourRows {
            first: self.row(output),
            second: self.row(output + 1),
            third: self.row(output + 2),
            fourth: self.row(output + 3),
        }
    }
}

/// Returns true if one of these gains is not 0.
fn has_gain(gains: &[i64]) -> bool
    ensures { result ≡ has_gain gains.now }
{
    gains.iter().any(|gain| *gain != 0)
}

/// Returns the same gains in 64 bits, or an error if the allocation fails.
fn wide_gains(alloc: Global, gains: &[i32]) -> Result<Vec<i64>, AllocError>
    ensures { IfOk result (λ wide. wide.items ≡ gains.now) }
{
    let mut wide = Vec::with_capacity(alloc, gains.len())?;
    for gain in gains {
        wide.push(i64::from(*gain))?;
    }
    Ok(wide)
}

/// Writes the same gains in 64 bits.
fn widen(gains: &[i32], wide: &mut [i64])
    requires { length wide.old ≡ length gains.now }
    ensures { wide.new ≡ gains.now }
{
    for place in 0..gains.len() {
        wide[place] = i64::from(gains[place]);
    }
}

/// Returns the first fault of these gains, allocation failures aside.
fn fault_of(outs: usize, ins: usize, gains: &[i32]) -> Option<MatrixFault>
    ensures { result ≡ matrix_fault_of outs ins gains.now }
{
    if !has_shape(outs, ins, gains) {
        Some(MatrixFault::Shape)
    } else if !has_range(gains) {
        Some(MatrixFault::Range)
    } else {
        None
    }
}

/// Returns true if there are 1 to 8 outputs and 1 to 1,024 inputs, and a gain for each pair of them.
fn has_shape(outs: usize, ins: usize, gains: &[i32]) -> bool
    ensures { result ≡ has_shape outs ins gains.now }
{
    1 <= outs && outs <= 8 && 1 <= ins && ins <= 1024 && gains.len() == outs * ins
}

/// Returns true if each gain is from -1,048,576 to 1,048,576, which is 16 times the input.
pub(crate) fn has_range(gains: &[i32]) -> bool
    ensures { result ≡ has_range gains.now }
{
    // So a sum over 1,024 inputs of 24 bits stays within 2^53, and is exact.
    gains.iter().all(|gain| gain.unsigned_abs() <= 1_048_576)
}
