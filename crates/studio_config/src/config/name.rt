//! The name of a stream, which is for people alone.
ghost use Rattle.std.specs.Prelude.{◌≡◌, None, Some, OnOk, IfErr};
ghost use Rattle.toml.specs.View.{view, table_view};
ghost use Rattle.studio_config.specs.Rows.{a_text, rows_fault, value_fault};
ghost use Rattle.studio_config.specs.StreamTable.{name_rows};

use crate::config::fault::{ConfigTable, SpecError, SpecErrorKind};
use crate::config::keys::Key;
use crate::config::lookup::get;
use toml::{Table, Value};

/// The most octets of a name.
const MOST: usize = 64;

/// Tests the name at the optional key `name`.
pub(crate) fn check_name(table: &Table, place: ConfigTable) -> Result<(), SpecError>
    ensures ok { OnOk result (rows_fault place (table_view table.now) name_rows ≡ None) }
    ensures fault { IfErr result (λ e. rows_fault place (table_view table.now) name_rows ≡ Some e) }
{
    let Some(value) = get(table, Key::Name) else {
        return Ok(());
    };
    match check_text(value) {
        Ok(()) => Ok(()),
        Err(kind) => Err(SpecError {
            place,
            key: Some(Key::Name),
            kind,
        }),
    }
}

/// Tests that a value is a text of at most 64 octets.
fn check_text(value: &Value) -> Result<(), SpecErrorKind>
    ensures ok { OnOk result (value_fault (a_text 64) (view value.now) ≡ None) }
    ensures fault { IfErr result (λ e. value_fault (a_text 64) (view value.now) ≡ Some e) }
{
    let Some(text) = value.as_str() else {
        return Err(SpecErrorKind::WrongKind);
    };
    if text.len() > MOST {
        return Err(SpecErrorKind::OutOfRange);
    }
    Ok(())
}
