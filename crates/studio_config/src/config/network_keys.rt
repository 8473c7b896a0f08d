//! The keys of network addresses, in a stream's table and in the output's.
ghost use Rattle.std.specs.Prelude.{◌≡◌, None, Some, OnOk, IfOk, IfErr};
ghost use Rattle.toml.specs.View.{table_view};
ghost use Rattle.studio_config.specs.Values.{number_at};
ghost use Rattle.studio_config.specs.Rows.{optional, whole, row_fault, rows_fault};
ghost use Rattle.studio_config.specs.NetworkTable.{
  bind_rows,
  binds_of,
  path_rows,
  sender_address_rows,
  sender_addresses_of,
  sender_rows,
  senders_of,
};
ghost use Rattle.studio_config.specs.declared.config.keys.Key.TheVariants as key;

use crate::config::fault::{ConfigTable, SpecError};
use crate::config::integers::optional_whole;
use crate::config::ipv4::address;
use crate::config::keys::Key;
use crate::networks::{OutputAddresses, PathAddresses};
use std::net::Ipv4Addr;
use toml::Table;

/// Reads the addresses of a stream's paths.
pub(crate) fn read_path_addresses(
    table: &Table,
    place: ConfigTable,
) -> Result<PathAddresses, SpecError>
    ensures ok { OnOk result (rows_fault place (table_view table.now) path_rows ≡ None) }
    ensures receive_at { IfOk result (λ p. p.receive_at ≡ binds_of (table_view table.now)) }
    ensures sources { IfOk result (λ p. p.sources ≡ sender_addresses_of (table_view table.now)) }
    ensures fault { IfErr result (λ e. rows_fault place (table_view table.now) path_rows ≡ Some e) }
{
    let receive_at = read_receive_at(table, place)?;
    let sources = read_sender_addresses(table, place)?;
    Ok(PathAddresses {
        receive_at,
        sources,
    })
}

/// Reads the address that each path is received at.
fn read_receive_at(table: &Table, place: ConfigTable) -> Result<[Option<Ipv4Addr>; 4], SpecError>
    ensures ok { OnOk result (rows_fault place (table_view table.now) bind_rows ≡ None) }
    ensures receive_at { IfOk result (λ b. b ≡ binds_of (table_view table.now)) }
    ensures fault { IfErr result (λ e. rows_fault place (table_view table.now) bind_rows ≡ Some e) }
{
    let a = address(table, place, Key::AddressA)?;
    let b = address(table, place, Key::AddressB)?;
    let c = address(table, place, Key::AddressC)?;
    let d = address(table, place, Key::AddressD)?;
    Ok([a, b, c, d])
}

/// Reads the source address that each path is limited to.
fn read_sender_addresses(
    table: &Table,
    place: ConfigTable,
) -> Result<[Option<Ipv4Addr>; 4], SpecError>
    ensures ok { OnOk result (rows_fault place (table_view table.now) sender_address_rows ≡ None) }
    ensures addresses { IfOk result (λ a. a ≡ sender_addresses_of (table_view table.now)) }
    ensures fault { IfErr result (λ e. rows_fault place (table_view table.now) sender_address_rows ≡ Some e) }
{
    let a = address(table, place, Key::SourceA)?;
    let b = address(table, place, Key::SourceB)?;
    let c = address(table, place, Key::SourceC)?;
    let d = address(table, place, Key::SourceD)?;
    Ok([a, b, c, d])
}

/// Reads the addresses of the output's two copies, and their time to live.
pub(crate) fn read_senders(table: &Table, place: ConfigTable) -> Result<OutputAddresses, SpecError>
    ensures ok { OnOk result (rows_fault place (table_view table.now) sender_rows ≡ None) }
    ensures senders { IfOk result (λ s. s ≡ senders_of (table_view table.now)) }
    ensures fault { IfErr result (λ e. rows_fault place (table_view table.now) sender_rows ≡ Some e) }
{
    let from_a = address(table, place, Key::FromA)?;
    let from_b = address(table, place, Key::FromB)?;
    let to_a = address(table, place, Key::ToAddressA)?;
    let to_b = address(table, place, Key::ToAddressB)?;
    let ttl = time_to_live(table, place)?;
    Ok(OutputAddresses {
        from_a,
        from_b,
        to_a,
        to_b,
        ttl,
    })
}

/// Returns the time to live of the output's datagrams, or `None` if the key is absent.
fn time_to_live(table: &Table, place: ConfigTable) -> Result<Option<u8>, SpecError>
    ensures ok { OnOk result (row_fault place (table_view table.now) (optional key.Ttl (whole 1 255)) ≡ None) }
    ensures number { IfOk result (λ n. number_at (table_view table.now) key.Ttl ≡ n) }
    ensures fault { IfErr result
        (λ e. row_fault place (table_view table.now) (optional key.Ttl (whole 1 255)) ≡ Some e) }
{
    match optional_whole(table, place, Key::Ttl, 1, 255)? {
        Some(number) => Ok(Some(number as u8)),
        None => Ok(None),
    }
}
