//! The command `help config`: the keys of a configuration, table by table, with the default of each and what it may be.
use crate::explanation::allowed::{KEYS, allowed_at};
use crate::fault::{CommandFault, output_result};
use std::io::Write;
use studio_config::{ConfigTable, Key};

/// The tables of a configuration, each with its line in the help.
// One stream and one change are enough: their keys do not depend on their numbers.
const TABLES: [(ConfigTable, &str); 4] = [
    (ConfigTable::Top, "At the top:"),
    (ConfigTable::Stream(0), "In each table [[stream]]:"),
    (ConfigTable::Output, "In the table [output]:"),
    (ConfigTable::Change(0), "In each table [[output.change]]:"),
];

/// The text in the column of defaults for a key that each table has to have.
const REQUIRED: &str = "required";

/// Writes the keys of each table of a configuration, with their defaults and what each may be.
pub fn run_config_help<W: Write>(output: &mut W) -> Result<(), CommandFault> {
    for (table, title) in TABLES.iter() {
        output_result(writeln!(output, "{title}"))?;
        write_row("KEY", "DEFAULT", "ALLOWED", output)?;
        write_keys(*table, output)?;
        output_result(output.write_all(b"\n"))?;
    }
    let more = "darbexum.toml(5), which is docs/CONFIGURATION.md, says what each key means";
    output_result(writeln!(output, "{more}"))
}

/// Writes the keys of a table, a line each.
fn write_keys<W: Write>(table: ConfigTable, output: &mut W) -> Result<(), CommandFault> {
    for key in KEYS.iter() {
        if let Some(allowed) = allowed_at(table, *key) {
            write_row(key.name(), default_at(table, *key), allowed, output)?;
        }
    }
    Ok(())
}

/// Writes a line of three columns.
fn write_row<W: Write>(
    key: &str,
    default: &str,
    allowed: &str,
    output: &mut W,
) -> Result<(), CommandFault> {
    output_result(writeln!(output, "  {key:<13} {default:<17} {allowed}"))
}

/// Returns the default of a key of a table at this place, as text, or that the key is required.
fn default_at(place: ConfigTable, key: Key) -> &'static str {
    match key {
        Key::Ssrc => default_source(place),
        Key::Clock => default_clock(place),
        Key::Offset | Key::Late => "0",
        Key::Paths => "2",
        Key::PortA | Key::PortB | Key::PortC | Key::PortD => "required by live",
        Key::ToA | Key::ToB => "required by live",
        Key::AddressA | Key::AddressB | Key::AddressC | Key::AddressD => "127.0.0.1",
        Key::FromA | Key::FromB | Key::ToAddressA | Key::ToAddressB => "127.0.0.1",
        Key::SourceA | Key::SourceB | Key::SourceC | Key::SourceD => "any",
        Key::Name | Key::Change => "none",
        Key::Ttl => "the system's",
        _ => REQUIRED,
    }
}

/// Returns the default of a clock: that of the output is the run's, and a stream has to have one.
fn default_clock(place: ConfigTable) -> &'static str {
    match place {
        ConfigTable::Output => "run",
        _ => REQUIRED,
    }
}

/// Returns the default of the source (SSRC): a stream may take any, and the output has to have one.
fn default_source(place: ConfigTable) -> &'static str {
    match place {
        ConfigTable::Stream(_) => "any",
        _ => REQUIRED,
    }
}
