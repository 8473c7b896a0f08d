//! The matrix that rows of gains make.
ghost use Rattle.std.specs.Prelude.{◌≡◌, ◌≤◌, ◌++◌, ◌⊎◌, ◌&&◌, ◌==◌, true, Some, None, OnOk, IfOk, IfErr, map, length};
ghost use Rattle.std.specs.List.{list_all, flat_map};
ghost use Rattle.gain_mix.specs.Gain.{ins_of};
ghost use Rattle.gain_mix.specs.Matrix.{has_range};
ghost use Rattle.toml.specs.View.{view};
ghost use Rattle.studio_config.specs.Values.{gain_in, row_in};
ghost use Rattle.studio_config.specs.OutputTable.{is_gain, gains_fault};

use gain_mix::{Matrix, MatrixFault};
use std::alloc::{AllocError, Global};
use toml::Value;

/// Returns the matrix of `outs` outputs and `ins` inputs that rows of whole numbers hold.
pub(crate) fn read_matrix(
    alloc: Global,
    outs: usize,
    ins: usize,
    rows: &[Value],
) -> Result<Matrix, MatrixFault>
    requires some_outs { 1 ≤ outs }
    requires few_outs { outs ≤ 8 }
    requires some_ins { 1 ≤ ins }
    requires few_ins { ins ≤ 1024 }
    ensures ok { OnOk result (gains_fault outs ins (map (λ row. row_in (view row)) rows.now) ≡ None) }
    ensures matrix { IfOk result (λ m. m ≡ map (λ row. row_in (view row)) rows.now) }
    ensures outs { IfOk result (λ m. length m ≡ outs) }
    ensures ins { IfOk result (λ m. ins_of m ≡ ins) }
    ensures fault { IfErr result (λ e. (e ≡ MatrixFault.Memory)
        ⊎ (gains_fault outs ins (map (λ row. row_in (view row)) rows.now) ≡ Some e)) }
{
    // The shape comes first: it is the fault also if a gain is out of range. The range is tested before the
    // conversion, since a gain of the configuration has 64 bits and one of a matrix 32.
    if !has_rows(outs, ins, rows) {
        return Err(MatrixFault::Shape);
    }
    if !have_range(rows) {
        return Err(MatrixFault::Range);
    }
    let gains = flat_gains(alloc, rows).map_err(|_| MatrixFault::Memory)?;
    Matrix::new(alloc, outs, ins, &gains)
}

/// Returns true if there are `outs` rows of `ins` gains each.
fn has_rows(outs: usize, ins: usize, rows: &[Value]) -> bool
    ensures { result ≡ (length rows.now == outs) && list_all (λ row. length (row_in (view row)) == ins) rows.now }
{
    rows.len() == outs && have_length(rows, ins)
}

/// Returns true if each row has `ins` gains.
fn have_length(rows: &[Value], ins: usize) -> bool
    ensures { result ≡ list_all (λ row. length (row_in (view row)) == ins) rows.now }
{
    rows.iter().all(|row| row_len(row) == ins)
}

/// Returns the number of gains of a row.
fn row_len(row: &Value) -> usize
    ensures { result ≡ length (row_in (view row.now)) }
{
    match row.as_array() {
        Some(gains) => gains.len(),
        None => 0,
    }
}

/// Returns true if each gain of these rows is in its range.
fn have_range(rows: &[Value]) -> bool
    ensures { result ≡ list_all (λ row. has_range (row_in (view row))) rows.now }
{
    rows.iter().all(|row| has_range(row))
}

/// Returns true if each gain of a row is in its range.
fn has_range(row: &Value) -> bool
    ensures { result ≡ has_range (row_in (view row.now)) }
{
    match row.as_array() {
        Some(gains) => are_in_range(gains),
        None => true,
    }
}

/// Returns true if these gains are in their range.
fn are_in_range(gains: &[Value]) -> bool
    ensures { result ≡ list_all (λ gain. is_gain (gain_in (view gain))) gains.now }
{
    gains.iter().all(|gain| is_gain(gain_in(gain)))
}

/// Returns true if a gain is from -1,048,576 to 1,048,576, which are factors of -16 and 16.
fn is_gain(gain: i64) -> bool
    ensures { result ≡ is_gain gain }
{
    // `abs` would overflow at the least `i64`.
    gain.unsigned_abs() <= 1_048_576
}

/// Returns the gain that a value is, or 0 if it is no whole number.
fn gain_in(value: &Value) -> i64
    ensures { result ≡ gain_in (view value.now) }
{
    match value.as_integer() {
        Some(gain) => gain,
        None => 0,
    }
}

/// Returns the gains of all rows, one row after the other.
fn flat_gains(alloc: Global, rows: &[Value]) -> Result<Vec<i32>, AllocError>
    requires in_range { list_all (λ row. has_range (row_in (view row))) rows.now ≡ true }
    ensures { IfOk result (λ gains. gains.items ≡ flat_map (λ row. row_in (view row)) rows.now) }
{
    let mut gains = Vec::new(alloc);
    for row in rows {
        push_row(&mut gains, row)?;
    }
    Ok(gains)
}

/// Appends the gains of a row.
fn push_row(gains: &mut Vec<i32>, row: &Value) -> Result<(), AllocError>
    requires in_range { has_range (row_in (view row.now)) ≡ true }
    ensures { OnOk result (gains.new.items ≡ gains.old.items ++ row_in (view row.now)) }
{
    match row.as_array() {
        Some(more) => push_gains(gains, more),
        None => Ok(()),
    }
}

/// Appends gains, which fit 32 bits since they are in their range.
fn push_gains(gains: &mut Vec<i32>, more: &[Value]) -> Result<(), AllocError>
    requires in_range { list_all (λ gain. is_gain (gain_in (view gain))) more.now ≡ true }
    ensures { OnOk result (gains.new.items ≡ gains.old.items ++ map (λ gain. gain_in (view gain)) more.now) }
{
    for value in more {
        let gain = gain_in(value);
        gains.push(gain as i32)?;
    }
    Ok(())
}
