//! The test for keys that a table doesn't have.
ghost use Rattle.std.specs.Prelude.{◌≡◌, None, Some, OnOk, IfErr, string_bytes};
ghost use Rattle.std.specs.List.{list_all};
ghost use Rattle.std.specs.BTreeMap.{keys as keys_of};
ghost use Rattle.toml.specs.View.{table_view};
ghost use Rattle.studio_config.specs.Rows.{unknown_fault, is_known};

use crate::config::fault::{ConfigTable, SpecError, SpecErrorKind};
use crate::config::keys::Key;
use toml::Table;

/// Tests that a table has no other keys than these.
pub(crate) fn check_known(table: &Table, place: ConfigTable, keys: &[Key]) -> Result<(), SpecError>
    ensures ok { OnOk result (unknown_fault place keys.now (table_view table.now) ≡ None) }
    ensures fault { IfErr result (λ e. unknown_fault place keys.now (table_view table.now) ≡ Some e) }
{
    if has_only(table, keys) {
        Ok(())
    } else {
        Err(SpecError {
            place,
            key: None,
            kind: SpecErrorKind::Unknown,
        })
    }
}

/// Returns true if a table has no other keys than these.
fn has_only(table: &Table, keys: &[Key]) -> bool
    ensures { result ≡ list_all (λ name. is_known keys.now (string_bytes name)) (keys_of table.now) }
{
    table.keys().all(|name| is_known(keys, name.as_str()))
}

/// Returns true if a name is that of one of these keys.
fn is_known(keys: &[Key], name: &str) -> bool
    ensures { result ≡ is_known keys.now name.now }
{
    keys.iter().any(|key| key.name() == name)
}
