//! The bodies of requests for changes of gains, which are JSON. `integer` has the integers in them.
ghost use Rattle.std.specs.Prelude.{◌≡◌, ◌++◌, ◌*◌, ◌==◌, ◌&&◌, Some, IfOk, OnOk, map, option_map, length};
ghost use Rattle.json.specs.Value.{value_view};
ghost use Rattle.json.specs.Find.{get};
ghost use Rattle.status_page.specs.Integers.{gain_of, index_of, integer_of};
ghost use Rattle.status_page.specs.GainBodies.{
  IsBuffer,
  are_gain_rows,
  are_gains,
  are_rows,
  change_in,
  change_of,
  change_of_all,
  change_of_one,
  gain_or_zero,
  gains_in,
  gains_in_rows,
  gains_of,
  has_rows,
  items_in,
  members_in,
  cell_in,
  cell_of,
  time_in,
  time_of,
  value_of,
};

use crate::control::fault::ControlFault;
use crate::control::integer::{gain, index, integer};
use crate::control::shape::GainShape;
use json::{Error, Scratch, Value};
use std::alloc::{AllocError, Global};
use studio_io::{GainAction, GainRequest};

/// The place of a gain in the matrix: the numbers of its output channel and its input.
#[derive(Clone, Copy, PartialEq, Eq)]
pub(crate) struct MatrixCell {
    pub(crate) output: usize,
    pub(crate) input: usize,
}

/// Returns the change in a body, and writes the buffer of its request to `gains`. Returns `AllocError` if an
/// allocation fails.
// The values of a body take at most some 3 MB for as long as it is read, since each takes two of its octets.
pub(crate) fn read_change(
    alloc: Global,
    shape: GainShape,
    body: &[u8],
    gains: &mut Vec<i32>,
) -> Result<Result<GainRequest, ControlFault>, AllocError>
    ensures change { IfOk result (λ change. change ≡ change_of shape.outs shape.ins (value_of body.now)) }
    ensures buffer { IfOk result (λ change. IfOk change
        (λ request. IsBuffer shape.outs shape.ins (value_of body.now) request.action gains.new.items)) }
{
    let mut scratch = Scratch::new(alloc);
    match Value::from_slice(alloc, body, &mut scratch) {
        Ok(value) => change_with_buffer(shape, &value, gains),
        Err(Error::Invalid) => Ok(Err(ControlFault::Body)),
        // The only other error that comes here is that of an allocation.
        Err(_) => Err(AllocError),
    }
}

/// Returns the change in a JSON value, and writes the buffer of its request to `gains`.
fn change_with_buffer(
    shape: GainShape,
    value: &Value,
    gains: &mut Vec<i32>,
) -> Result<Result<GainRequest, ControlFault>, AllocError>
    ensures change { IfOk result (λ change. change ≡ change_in shape.outs shape.ins (value_view value.now)) }
    ensures buffer { IfOk result (λ change. IfOk change (λ request.
        IsBuffer shape.outs shape.ins (Some (value_view value.now)) request.action gains.new.items)) }
{
    let change = change_in(shape, value);
    if let Ok(request) = &change {
        write_buffer(shape, value, request.action, gains)?;
    }
    Ok(change)
}

/// Writes the buffer of a request to `gains`.
fn write_buffer(
    shape: GainShape,
    value: &Value,
    action: GainAction,
    gains: &mut Vec<i32>,
) -> Result<(), AllocError>
    ensures { OnOk result (IsBuffer shape.outs shape.ins (Some (value_view value.now)) action gains.new.items) }
{
    match action {
        GainAction::SetAll => write_gains(value.get("gains"), gains),
        GainAction::SetOne { .. } | GainAction::Show => write_places(shape, gains),
    }
}

/// Writes a place for each gain of the matrix to `gains`.
pub(crate) fn write_places(shape: GainShape, gains: &mut Vec<i32>) -> Result<(), AllocError>
    ensures { OnOk result (length gains.new.items ≡ shape.outs * shape.ins) }
{
    Ok(gains.resize(shape.outs() * shape.ins(), 0)?)
}

/// Writes the gains of these rows to `gains`.
fn write_gains(rows: Option<&Value>, gains: &mut Vec<i32>) -> Result<(), AllocError>
    ensures { OnOk result (gains.new.items ≡ gains_in (option_map (λ rows. value_view rows.now) rows.entry)) }
{
    gains.clear();
    match rows {
        Some(rows) => push_rows(items(rows), gains),
        None => Ok(()),
    }
}

/// Appends the gains of these rows.
fn push_rows(rows: &[Value], gains: &mut Vec<i32>) -> Result<(), AllocError>
    ensures { OnOk result (gains.new.items ≡ gains.old.items ++ gains_in_rows (map value_view rows.now)) }
{
    for row in rows {
        push_gains(items(row), gains)?;
    }
    Ok(())
}

/// Appends these gains.
fn push_gains(values: &[Value], gains: &mut Vec<i32>) -> Result<(), AllocError>
    ensures { OnOk result (gains.new.items ≡ gains.old.items ++ map gain_or_zero (map value_view values.now)) }
{
    for value in values {
        gains.push(gain(value).unwrap_or(0))?;
    }
    Ok(())
}

/// Returns the change in a JSON value, or its fault.
fn change_in(shape: GainShape, value: &Value) -> Result<GainRequest, ControlFault>
    ensures { result ≡ change_in shape.outs shape.ins (value_view value.now) }
{
    match members(value) {
        2 => change_of_all(shape, time(value), value.get("gains")),
        3 => change_of_one(time(value), cell(value), value.get("gain")),
        _ => Err(ControlFault::Body),
    }
}

/// Returns the change of all gains to these rows, or its fault.
fn change_of_all(
    shape: GainShape,
    at: Option<Option<i64>>,
    rows: Option<&Value>,
) -> Result<GainRequest, ControlFault>
    ensures { result ≡ change_of_all shape.outs shape.ins at (option_map (λ rows. value_view rows.now) rows.entry) }
{
    let at = at.ok_or(ControlFault::Body)?;
    let rows = rows.ok_or(ControlFault::Body)?;
    if !has_rows(shape, items(rows)) {
        return Err(ControlFault::Shape);
    }
    if !are_gain_rows(items(rows)) {
        return Err(ControlFault::Range);
    }
    Ok(GainRequest {
        at,
        action: GainAction::SetAll,
    })
}

/// Returns the change of a gain, or its fault.
fn change_of_one(
    at: Option<Option<i64>>,
    cell: Option<MatrixCell>,
    value: Option<&Value>,
) -> Result<GainRequest, ControlFault>
    ensures { result ≡ change_of_one at cell (option_map (λ gain. value_view gain.now) value.entry) }
{
    let at = at.ok_or(ControlFault::Body)?;
    let cell = cell.ok_or(ControlFault::Body)?;
    let value = value.ok_or(ControlFault::Body)?;
    let gain = gain(value).ok_or(ControlFault::Range)?;
    let MatrixCell { output, input } = cell;
    let action = GainAction::SetOne {
        output,
        input,
        gain,
    };
    Ok(GainRequest { at, action })
}

/// Returns the time behind the key `at`, or `None` if there is none.
fn time(value: &Value) -> Option<Option<i64>>
    ensures { result ≡ time_of (value_view value.now) }
{
    time_in(value.get("at")?)
}

/// Returns the time that a value is, or `None` if it is none.
fn time_in(value: &Value) -> Option<Option<i64>>
    ensures { result ≡ time_in (value_view value.now) }
{
    if value.is_null() {
        return Some(None);
    }
    Some(Some(integer(value)?))
}

/// Returns the cell behind the key `cell`, or `None` if there is none.
fn cell(value: &Value) -> Option<MatrixCell>
    ensures { result ≡ cell_of (value_view value.now) }
{
    cell_in(items(value.get("cell")?))
}

/// Returns the cell that two values are, or `None` if they are none.
fn cell_in(values: &[Value]) -> Option<MatrixCell>
    ensures { result ≡ cell_in (map value_view values.now) }
{
    match values {
        [output, input] => Some(MatrixCell {
            output: index(output)?,
            input: index(input)?,
        }),
        _ => None,
    }
}

/// Returns true if these are as many rows as the matrix has, each with as many values as it has inputs.
fn has_rows(shape: GainShape, rows: &[Value]) -> bool
    ensures { result ≡ (length rows.now == shape.outs) && are_rows shape.ins (map value_view rows.now) }
{
    rows.len() == shape.outs() && are_rows(shape.ins(), rows)
}

/// Returns true if each of these rows has this many values.
fn are_rows(ins: usize, rows: &[Value]) -> bool
    ensures { result ≡ are_rows ins (map value_view rows.now) }
{
    for row in rows {
        if items(row).len() != ins {
            return false;
        }
    }
    true
}

/// Returns true if all values of these rows are gains.
fn are_gain_rows(rows: &[Value]) -> bool
    ensures { result ≡ are_gain_rows (map value_view rows.now) }
{
    for row in rows {
        if !are_gains(items(row)) {
            return false;
        }
    }
    true
}

/// Returns true if all these values are gains.
fn are_gains(values: &[Value]) -> bool
    ensures { result ≡ are_gains (map value_view values.now) }
{
    for value in values {
        if gain(value).is_none() {
            return false;
        }
    }
    true
}

/// Returns the items of a value. A value that is no array has none.
fn items<'v, 'a>(value: &'v Value<'a>) -> &'v [Value<'a>]
    ensures { map value_view result.now ≡ items_in (value_view value.now) }
{
    match value {
        Value::Array(items) => items.as_slice(),
        _ => &[],
    }
}

/// Returns the number of members of a value. A value that is no object has none.
fn members(value: &Value) -> usize
    ensures { result ≡ members_in (value_view value.now) }
{
    match value {
        Value::Object(members) => members.len(),
        _ => 0,
    }
}
