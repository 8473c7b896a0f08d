//! Whole numbers of a table, key by key.
ghost use Rattle.std.specs.Prelude.{◌≡◌, ◌≤◌, ◌<◌, ◌^◌, None, Some, OnOk, IfOk, IfErr, IfSome, unwrap_or};
ghost use Rattle.toml.specs.View.{view, table_view};
ghost use Rattle.studio_config.specs.Values.{natural_in, number_at, number_or};
ghost use Rattle.studio_config.specs.Rows.{required, optional, whole, value_fault, row_fault};

use crate::config::fault::{ConfigTable, SpecError, SpecErrorKind};
use crate::config::keys::Key;
use crate::config::lookup::{get, require};
use toml::{Table, Value};

/// Returns the whole number at a required key, from `least` to `greatest`.
pub(crate) fn whole(
    table: &Table,
    place: ConfigTable,
    key: Key,
    least: u64,
    greatest: u64,
) -> Result<u64, SpecError>
    ensures ok { OnOk result (row_fault place (table_view table.now) (required key (whole least greatest)) ≡ None) }
    ensures number { IfOk result (λ n. number_or (table_view table.now) key 0 ≡ n) }
    ensures low { IfOk result (λ n. least ≤ n) }
    ensures high { IfOk result (λ n. n ≤ greatest) }
    ensures fault { IfErr result
        (λ e. row_fault place (table_view table.now) (required key (whole least greatest)) ≡ Some e) }
{
    let value = require(table, place, key)?;
    whole_in(value, least, greatest).map_err(|kind| SpecError::at_key(place, key, kind))
}

/// Returns the whole number at an optional key, from `least` to `greatest`, or `None` if the key is absent.
pub(crate) fn optional_whole(
    table: &Table,
    place: ConfigTable,
    key: Key,
    least: u64,
    greatest: u64,
) -> Result<Option<u64>, SpecError>
    ensures ok { OnOk result (row_fault place (table_view table.now) (optional key (whole least greatest)) ≡ None) }
    ensures number { IfOk result (λ n. number_at (table_view table.now) key ≡ n) }
    ensures high { IfOk result (λ o. IfSome o (λ n. n ≤ greatest)) }
    ensures fault { IfErr result
        (λ e. row_fault place (table_view table.now) (optional key (whole least greatest)) ≡ Some e) }
{
    let Some(value) = get(table, key) else {
        return Ok(None);
    };
    match whole_in(value, least, greatest) {
        Ok(number) => Ok(Some(number)),
        Err(kind) => Err(SpecError::at_key(place, key, kind)),
    }
}

/// Returns the whole number at an optional key, from `least` to `greatest`, or `absent` if the key is absent.
pub(crate) fn whole_or(
    table: &Table,
    place: ConfigTable,
    key: Key,
    least: u64,
    greatest: u64,
    absent: u64,
) -> Result<u64, SpecError>
    requires { absent ≤ greatest }
    ensures ok { OnOk result (row_fault place (table_view table.now) (optional key (whole least greatest)) ≡ None) }
    ensures number { IfOk result (λ n. number_or (table_view table.now) key absent ≡ n) }
    ensures high { IfOk result (λ n. n ≤ greatest) }
    ensures fault { IfErr result
        (λ e. row_fault place (table_view table.now) (optional key (whole least greatest)) ≡ Some e) }
{
    match optional_whole(table, place, key, least, greatest)? {
        Some(number) => Ok(number),
        None => Ok(absent),
    }
}

/// Returns the UDP port at an optional key, from 1 to 65535, or `None` if the key is absent.
pub(crate) fn port(table: &Table, place: ConfigTable, key: Key) -> Result<Option<u16>, SpecError>
    ensures ok { OnOk result (row_fault place (table_view table.now) (optional key (whole 1 65535)) ≡ None) }
    ensures number { IfOk result (λ n. number_at (table_view table.now) key ≡ n) }
    ensures fault { IfErr result (λ e. row_fault place (table_view table.now) (optional key (whole 1 65535)) ≡ Some e) }
{
    match optional_whole(table, place, key, 1, 65535)? {
        Some(number) => Ok(Some(number as u16)),
        None => Ok(None),
    }
}

/// Returns the whole number that a value is, from `least` to `greatest`.
fn whole_in(value: &Value, least: u64, greatest: u64) -> Result<u64, SpecErrorKind>
    ensures ok { OnOk result (value_fault (whole least greatest) (view value.now) ≡ None) }
    ensures number { IfOk result (λ n. natural_in (view value.now) ≡ Some n) }
    ensures low { IfOk result (λ n. least ≤ n) }
    ensures high { IfOk result (λ n. n ≤ greatest) }
    ensures fault { IfErr result (λ e. value_fault (whole least greatest) (view value.now) ≡ Some e) }
{
    let Some(integer) = value.as_integer() else {
        return Err(SpecErrorKind::WrongKind);
    };
    let Ok(number) = u64::try_from(integer) else {
        return Err(SpecErrorKind::OutOfRange);
    };
    if number < least || greatest < number {
        return Err(SpecErrorKind::OutOfRange);
    }
    Ok(number)
}

/// Returns the whole number at a key, or 0 if it is absent, negative or no whole number.
pub(crate) fn natural_at(table: &Table, key: Key) -> u64
    ensures value { result ≡ number_or (table_view table.now) key 0 }
    ensures small { result < 2 ^ 63 }
{
    match get(table, key) {
        Some(value) => natural_in(value),
        None => 0,
    }
}

/// Returns the whole number that a value is, or 0 if it is negative or no whole number.
fn natural_in(value: &Value) -> u64
    ensures value { result ≡ unwrap_or (natural_in (view value.now)) 0 }
    ensures small { result < 2 ^ 63 }
{
    match value.as_integer() {
        Some(integer) if integer >= 0 => integer as u64,
        _ => 0,
    }
}
