//! Tables that a table holds.
ghost use Rattle.std.specs.Prelude.{◌≡◌, ◌≤◌, true, None, Some, OnOk, IfOk, IfErr, map, length};
ghost use Rattle.std.specs.List.{list_all};
ghost use Rattle.toml.specs.View.{view, table_view};
ghost use Rattle.studio_config.specs.Values.{table_at, tables_at, items_in, members_in, tables_in, is_table};
ghost use Rattle.studio_config.specs.Rows.{required, optional, a_table, tables, few_tables, value_fault, row_fault};

use crate::config::fault::{ConfigTable, SpecError, SpecErrorKind};
use crate::config::keys::Key;
use crate::config::lookup::{get, require};
use toml::value::Array;
use toml::{Table, Value};

/// Returns the table at a required key.
pub(crate) fn table_in(table: &Table, place: ConfigTable, key: Key) -> Result<&Table, SpecError>
    ensures ok { OnOk result (row_fault place (table_view table.now) (required key a_table) ≡ None) }
    ensures table { IfOk result (λ t. table_at (table_view table.now) key ≡ table_view t.now) }
    ensures fault { IfErr result (λ e. row_fault place (table_view table.now) (required key a_table) ≡ Some e) }
{
    let value = require(table, place, key)?;
    match value.as_table() {
        Some(inner) => Ok(inner),
        None => Err(SpecError::at_key(place, key, SpecErrorKind::WrongKind)),
    }
}

/// Returns the tables at an optional key, none if the key is absent.
pub(crate) fn optional_tables(
    table: &Table,
    place: ConfigTable,
    key: Key,
) -> Result<&[Value], SpecError>
    ensures ok { OnOk result (row_fault place (table_view table.now) (optional key tables) ≡ None) }
    ensures each { IfOk result (λ a. list_all (λ t. is_table (view t)) a.now ≡ true) }
    ensures tables { IfOk result (λ a. map (λ t. members_in (view t)) a.now ≡ tables_at (table_view table.now) key) }
    ensures fault { IfErr result (λ e. row_fault place (table_view table.now) (optional key tables) ≡ Some e) }
{
    let Some(value) = get(table, key) else {
        return Ok(&[]);
    };
    match tables_in(value) {
        Ok(items) => Ok(items.as_slice()),
        Err(kind) => Err(SpecError::at_key(place, key, kind)),
    }
}

/// Returns the tables at a required key, from `least` to `greatest` of them.
pub(crate) fn few_tables(
    table: &Table,
    place: ConfigTable,
    key: Key,
    least: usize,
    greatest: usize,
) -> Result<&[Value], SpecError>
    ensures ok { OnOk result (row_fault place (table_view table.now)
        (required key (few_tables least greatest)) ≡ None) }
    ensures each { IfOk result (λ a. list_all (λ t. is_table (view t)) a.now ≡ true) }
    ensures tables { IfOk result (λ a. map (λ t. members_in (view t)) a.now ≡ tables_at (table_view table.now) key) }
    ensures low { IfOk result (λ a. least ≤ length a.now) }
    ensures high { IfOk result (λ a. length a.now ≤ greatest) }
    ensures fault { IfErr result
        (λ e. row_fault place (table_view table.now) (required key (few_tables least greatest)) ≡ Some e) }
{
    let value = require(table, place, key)?;
    match few_tables_in(value, least, greatest) {
        Ok(items) => Ok(items),
        Err(kind) => Err(SpecError::at_key(place, key, kind)),
    }
}

/// Returns the tables that a value holds, from `least` to `greatest` of them.
fn few_tables_in(value: &Value, least: usize, greatest: usize) -> Result<&[Value], SpecErrorKind>
    ensures ok { OnOk result (value_fault (few_tables least greatest) (view value.now) ≡ None) }
    ensures each { IfOk result (λ a. list_all (λ t. is_table (view t)) a.now ≡ true) }
    ensures tables { IfOk result (λ a. map (λ t. members_in (view t)) a.now ≡ tables_in (view value.now)) }
    ensures low { IfOk result (λ a. least ≤ length a.now) }
    ensures high { IfOk result (λ a. length a.now ≤ greatest) }
    ensures fault { IfErr result (λ e. value_fault (few_tables least greatest) (view value.now) ≡ Some e) }
{
    let items = tables_in(value)?;
    // The type comes first. An empty array passes as one of tables, so it is out of range.
    if items.len() < least || greatest < items.len() {
        return Err(SpecErrorKind::OutOfRange);
    }
    Ok(items.as_slice())
}

/// Returns the array of tables that a value is.
fn tables_in(value: &Value) -> Result<&Array, SpecErrorKind>
    ensures ok { OnOk result (value_fault tables (view value.now) ≡ None) }
    ensures each { IfOk result (λ a. list_all (λ t. is_table (view t)) a.now.items ≡ true) }
    ensures count { IfOk result (λ a. length a.now.items ≡ length (items_in (view value.now))) }
    ensures items { IfOk result (λ a. map (λ t. members_in (view t)) a.now.items ≡ tables_in (view value.now)) }
    ensures fault { IfErr result (λ e. value_fault tables (view value.now) ≡ Some e) }
{
    let Some(items) = value.as_array() else {
        return Err(SpecErrorKind::WrongKind);
    };
    if all_tables(items) {
        Ok(items)
    } else {
        Err(SpecErrorKind::WrongKind)
    }
}

/// Returns true if all items are tables.
fn all_tables(items: &[Value]) -> bool
    ensures { result ≡ list_all (λ item. is_table (view item)) items.now }
{
    items.iter().all(|item| item.is_table())
}

/// Returns the table that a value is.
pub(crate) fn table_of(value: &Value) -> &Table
    requires { is_table (view value.now) ≡ true }
    ensures { table_view result.now ≡ members_in (view value.now) }
{
    match value.as_table() {
        Some(table) => table,
        None => unreachable!(),
    }
}
