//! The configuration of a command, from its file to the studio that it describes.
ghost use Rattle.std.specs.Prelude.{IfOk};
ghost use Rattle.file_commands.specs.ReplayedStudio.{HasGains};

use crate::explanation::{explain_fault, explain_toml};
use crate::fault::{CommandFault, ConfigFault};
use crate::host::Host;
use std::alloc::Global;
use studio_config::{SpecError, SpecErrorKind, StudioSpec};
use studio_run::studio_with_gains;
use toml::Table;

// Tested here, since `Host::read_all` may return as many octets as a trace may have.
/// The greatest number of octets of a configuration.
const MAX_OCTETS: usize = 1_048_576;

/// Returns the octets of the configuration at a path. Returns `ConfigFault::Unread` if the file cannot be read,
/// `ConfigFault::TooLong` if it has too many octets, and `CommandFault::Memory` if an allocation fails.
pub fn read_config<H: Host>(host: &H, alloc: Global, path: &str) -> Result<Vec<u8>, CommandFault> {
    match host.read_all(alloc, path) {
        Ok(octets) => Ok(octets),
        Err(fault) => Err(CommandFault::of_config(fault)),
    }
}

/// Returns the studio of the configuration at a path.
pub(crate) fn studio_of<H: Host>(
    host: &H,
    alloc: Global,
    path: &str,
) -> Result<StudioSpec, CommandFault> {
    let octets = read_config(host, alloc, path)?;
    parse_studio(alloc, octets.as_slice())
}

/// Returns the studio of the configuration at a path, whose gains change as the file at another path says, if there is
/// one.
pub(crate) fn played_studio<H: Host>(
    host: &H,
    alloc: Global,
    config: &str,
    gains: Option<&str>,
) -> Result<StudioSpec, CommandFault> {
    let studio = studio_of(host, alloc, config)?;
    match gains {
        Some(path) => studio_with_file(host, alloc, &studio, path),
        None => Ok(studio),
    }
}

/// Returns a studio whose gains change as the file at a path says.
fn studio_with_file<H: Host>(
    host: &H,
    alloc: Global,
    studio: &StudioSpec,
    path: &str,
) -> Result<StudioSpec, CommandFault> {
    let text = read_gains(host, alloc, path)?;
    changed_studio(alloc, studio, text.as_slice())
}

/// Returns the octets of the file of gains at a path. Returns `GainsInputFault::Unread` if the file cannot be read,
/// `GainsInputFault::TooLong` if it has too many octets, and `CommandFault::Memory` if an allocation fails.
pub fn read_gains<H: Host>(host: &H, alloc: Global, path: &str) -> Result<Vec<u8>, CommandFault> {
    match host.read_all(alloc, path) {
        Ok(text) => Ok(text),
        Err(fault) => Err(CommandFault::of_gains(fault)),
    }
}

/// Returns the studio whose gains change as a text says. Returns the text's first fault, or `CommandFault::Memory` if
/// an allocation fails.
pub fn changed_studio(
    alloc: Global,
    studio: &StudioSpec,
    text: &[u8],
) -> Result<StudioSpec, CommandFault>
    ensures { IfOk result (HasGains studio.now text.now) }
{
    match studio_with_gains(alloc, studio, text) {
        Ok(changed) => Ok(changed),
        Err(fault) => Err(CommandFault::from(fault)),
    }
}

/// Returns the studio that a configuration's octets describe. Returns the configuration's first fault, or
/// `CommandFault::Memory` if an allocation fails.
pub fn parse_studio(alloc: Global, octets: &[u8]) -> Result<StudioSpec, CommandFault> {
    let table = table_in(alloc, octets)?;
    Ok(StudioSpec::from_table(alloc, &table)?)
}

/// A configuration without a fault: its table, and the studio that it describes.
#[derive(Drop)]
pub(crate) struct CheckedConfig {
    pub(crate) studio: StudioSpec,
    pub(crate) table: Table,
}

/// Returns the configuration at a path. A fault of the configuration is explained.
pub(crate) fn checked_config<H: Host>(
    host: &H,
    alloc: Global,
    path: &str,
) -> Result<CheckedConfig, CommandFault> {
    let octets = read_config(host, alloc, path)?;
    explained_config(alloc, path, octets.as_slice())
}

/// Returns the configuration with these octets at a path. A fault of the configuration is explained:
/// `CommandFault::Explained`. Returns `CommandFault::Memory` if an allocation fails.
fn explained_config(
    alloc: Global,
    path: &str,
    octets: &[u8],
) -> Result<CheckedConfig, CommandFault> {
    let text = explained_text(alloc, path, octets)?;
    let table = explained_table(alloc, path, text)?;
    let studio = explained_by_table(alloc, path, text, &table)?;
    Ok(CheckedConfig { studio, table })
}

/// Returns the studio of a configuration's table. A fault of the configuration is explained.
fn explained_by_table(
    alloc: Global,
    path: &str,
    text: &str,
    table: &Table,
) -> Result<StudioSpec, CommandFault> {
    match StudioSpec::from_table(alloc, table) {
        Ok(studio) => Ok(studio),
        Err(error) => Err(explained_error(alloc, path, text, table, error)),
    }
}

/// Returns the text of a configuration's octets. Explains that they are not UTF-8.
fn explained_text<'a>(
    alloc: Global,
    path: &str,
    octets: &'a [u8],
) -> Result<&'a str, CommandFault> {
    match text_in(octets) {
        Err(CommandFault::Config(ConfigFault::NotToml)) => {
            let explained = format!(in alloc; "{path}: the file is not UTF-8")?;
            Err(CommandFault::Explained(ConfigFault::NotToml, explained))
        }
        read => read,
    }
}

/// Returns the TOML table of a configuration's text. Explains why the text is no TOML.
fn explained_table(alloc: Global, path: &str, text: &str) -> Result<Table, CommandFault> {
    match toml::table_from_str(alloc, text) {
        Ok(table) => Ok(table),
        Err(error) if error.is_memory() => Err(CommandFault::Memory),
        Err(error) => {
            let explained = explain_toml(alloc, path, text, &error)?;
            Err(CommandFault::Explained(ConfigFault::NotToml, explained))
        }
    }
}

/// Returns a configuration's fault as a studio with its explanation, or `CommandFault::Memory` if an allocation failed.
fn explained_error(
    alloc: Global,
    path: &str,
    text: &str,
    table: &Table,
    error: SpecError,
) -> CommandFault {
    if error.kind == SpecErrorKind::Memory {
        return CommandFault::Memory;
    }
    match explain_fault(alloc, path, text, table, &error) {
        Ok(explained) => CommandFault::Explained(ConfigFault::Studio(error), explained),
        Err(_) => CommandFault::Memory,
    }
}

/// Returns the TOML table of a configuration's octets. Returns `ConfigFault::TooLong` for more than 1,048,576 octets,
/// `ConfigFault::NotToml` if they are not UTF-8 or not TOML, and `CommandFault::Memory` if an allocation fails.
pub fn table_in(alloc: Global, octets: &[u8]) -> Result<Table, CommandFault> {
    match toml::table_from_str(alloc, text_in(octets)?) {
        Ok(table) => Ok(table),
        Err(error) if error.is_memory() => Err(CommandFault::Memory),
        Err(_) => Err(CommandFault::Config(ConfigFault::NotToml)),
    }
}

/// Returns the text of a configuration's octets. Returns `ConfigFault::TooLong` for more than 1,048,576 octets, and
/// `ConfigFault::NotToml` if they are not UTF-8.
fn text_in(octets: &[u8]) -> Result<&str, CommandFault> {
    if octets.len() > MAX_OCTETS {
        return Err(CommandFault::Config(ConfigFault::TooLong));
    }
    match str::from_utf8(octets) {
        Ok(text) => Ok(text),
        Err(_) => Err(CommandFault::Config(ConfigFault::NotToml)),
    }
}

/// Returns the studio of a command line without words, the one of examples/first: one mono stream of L24 on two paths,
/// in packets of 6 sampling instants.
pub(crate) fn quick_start_studio(alloc: Global) -> Result<StudioSpec, CommandFault> {
    let text = "open_at = 0\n[[stream]]\nencoding = \"L24\"\nchannels = 1\nframes = 6\npt = 96\n\
        clock = \"media\"\nlatency = 12\nwindow = 8\n[output]\nencoding = \"L24\"\nchannels = 1\n\
        frames = 6\npt = 97\nssrc = 2\nseq = 0\nstart = 0\ngains = [[65536]]\n";
    parse_studio(alloc, text.as_bytes())
}
