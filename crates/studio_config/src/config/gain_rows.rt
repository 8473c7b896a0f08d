//! Rows of gains in a table: an array of arrays of whole numbers.
ghost use Rattle.std.specs.Prelude.{◌≡◌, None, Some, OnOk, IfOk, IfErr, map};
ghost use Rattle.std.specs.List.{list_all};
ghost use Rattle.toml.specs.View.{view, table_view};
ghost use Rattle.studio_config.specs.Values.{gains_at, items_in, row_in, rows_in, is_integer, is_row};
ghost use Rattle.studio_config.specs.Rows.{required, gains, value_fault, row_fault};

use crate::config::fault::{ConfigTable, SpecError, SpecErrorKind};
use crate::config::keys::Key;
use crate::config::lookup::{get, require};
use toml::value::Array;
use toml::{Table, Value};

/// Tests that a required key holds an array of arrays of whole numbers.
pub(crate) fn check_gains(table: &Table, place: ConfigTable, key: Key) -> Result<(), SpecError>
    ensures ok { OnOk result (row_fault place (table_view table.now) (required key gains) ≡ None) }
    ensures fault { IfErr result (λ e. row_fault place (table_view table.now) (required key gains) ≡ Some e) }
{
    // Only the types are tested here: the gains' shape depends on channels that are tested after all keys.
    let value = require(table, place, key)?;
    match gains_in(value) {
        Ok(_) => Ok(()),
        Err(kind) => Err(SpecError::at_key(place, key, kind)),
    }
}

/// Returns the array of gains that a value is.
fn gains_in(value: &Value) -> Result<&Array, SpecErrorKind>
    ensures ok { OnOk result (value_fault gains (view value.now) ≡ None) }
    ensures items { IfOk result (λ a. map (λ t. row_in (view t)) a.now.items ≡ rows_in (view value.now)) }
    ensures fault { IfErr result (λ e. value_fault gains (view value.now) ≡ Some e) }
{
    let Some(rows) = value.as_array() else {
        return Err(SpecErrorKind::WrongKind);
    };
    if all_rows(rows) {
        Ok(rows)
    } else {
        Err(SpecErrorKind::WrongKind)
    }
}

/// Returns true if all items are arrays of whole numbers.
fn all_rows(items: &[Value]) -> bool
    ensures { result ≡ list_all (λ item. is_row (view item)) items.now }
{
    items.iter().all(|item| is_row(item))
}

/// Returns true if a value is an array of whole numbers.
fn is_row(value: &Value) -> bool
    ensures { result ≡ is_row (view value.now) }
{
    let Some(items) = value.as_array() else {
        return false;
    };
    all_integers(items)
}

/// Returns true if all items are whole numbers.
fn all_integers(items: &[Value]) -> bool
    ensures { result ≡ list_all (λ item. is_integer (view item)) items.now }
{
    items.iter().all(|item| item.is_integer())
}

/// Returns the rows of gains at a key, none if the key is absent.
pub(crate) fn rows_at(table: &Table, key: Key) -> &[Value]
    ensures { map (λ row. row_in (view row)) result.now ≡ gains_at (table_view table.now) key }
{
    match get(table, key) {
        Some(value) => items_in(value),
        None => &[],
    }
}

/// Returns the items of a value, none if it is not an array.
fn items_in(value: &Value) -> &[Value]
    ensures { map (λ item. view item) result.now ≡ items_in (view value.now) }
{
    match value.as_array() {
        Some(items) => items.as_slice(),
        None => &[],
    }
}
