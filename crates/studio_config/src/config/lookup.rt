//! The value at a key.
ghost use Rattle.std.specs.Prelude.{◌≡◌, None, Some, IfOk, OnErr, IfErr, option_map};
ghost use Rattle.toml.specs.View.{view, table_view};
ghost use Rattle.studio_config.specs.Values.{value_at};

use crate::config::fault::{ConfigTable, SpecError, SpecErrorKind};
use crate::config::keys::Key;
use toml::{Table, Value};

/// Returns the value at a key.
pub(crate) fn get(table: &Table, key: Key) -> Option<&Value>
    ensures { option_map (λ v. view v.now) result ≡ value_at (table_view table.now) key }
{
    table.get(key.name())
}

/// Returns the value at a required key.
pub(crate) fn require(table: &Table, place: ConfigTable, key: Key) -> Result<&Value, SpecError>
    ensures ok { IfOk result (λ v. value_at (table_view table.now) key ≡ Some (view v.now)) }
    ensures missing { IfErr result (λ e. e ≡ record { place = place; key = Some key; kind = SpecErrorKind.Missing }) }
    ensures absent { OnErr result (value_at (table_view table.now) key ≡ None) }
{
    match get(table, key) {
        Some(value) => Ok(value),
        None => Err(SpecError::at_key(place, key, SpecErrorKind::Missing)),
    }
}
