//! IPv4 addresses of a table, key by key.
ghost use Rattle.std.specs.Prelude.{◌≡◌, None, Some, OnOk, IfOk, IfErr};
ghost use Rattle.toml.specs.View.{view, table_view};
ghost use Rattle.studio_config.specs.Address.{address_of};
ghost use Rattle.studio_config.specs.Values.{address_in, address_at};
ghost use Rattle.studio_config.specs.Rows.{optional, an_address, value_fault, row_fault};

use crate::config::fault::{ConfigTable, SpecError, SpecErrorKind};
use crate::config::keys::Key;
use crate::config::lookup::get;
use std::net::Ipv4Addr;
use toml::{Table, Value};

/// Returns the IPv4 address at an optional key, or `None` if the key is absent.
pub(crate) fn address(
    table: &Table,
    place: ConfigTable,
    key: Key,
) -> Result<Option<Ipv4Addr>, SpecError>
    ensures ok { OnOk result (row_fault place (table_view table.now) (optional key an_address) ≡ None) }
    ensures address { IfOk result (λ a. address_at (table_view table.now) key ≡ a) }
    ensures fault { IfErr result (λ e. row_fault place (table_view table.now) (optional key an_address) ≡ Some e) }
{
    let Some(value) = get(table, key) else {
        return Ok(None);
    };
    match address_in(value) {
        Ok(address) => Ok(Some(address)),
        Err(kind) => Err(SpecError::at_key(place, key, kind)),
    }
}

/// Returns the IPv4 address that a value spells.
fn address_in(value: &Value) -> Result<Ipv4Addr, SpecErrorKind>
    ensures ok { OnOk result (value_fault an_address (view value.now) ≡ None) }
    ensures address { IfOk result (λ a. address_in (view value.now) ≡ Some a) }
    ensures fault { IfErr result (λ e. value_fault an_address (view value.now) ≡ Some e) }
{
    let Some(text) = value.as_str() else {
        return Err(SpecErrorKind::WrongKind);
    };
    match parsed(text) {
        Some(address) => Ok(address),
        None => Err(SpecErrorKind::OutOfRange),
    }
}

/// Returns the IPv4 address that a text spells: four decimal numbers with no leading zeros.
fn parsed(text: &str) -> Option<Ipv4Addr>
    ensures { result ≡ address_of text.now }
{
    match Ipv4Addr::parse_ascii(text.as_bytes()) {
        Ok(address) => Some(address),
        Err(_) => None,
    }
}
