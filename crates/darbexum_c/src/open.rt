//! The engine of a configuration.
ghost use Rattle.std.specs.Prelude.{◌≡◌, ◌⊎◌, ℕ, List, Some, IsUtf8, IfOk, IfErr};
ghost use Rattle.toml.specs.Data.{Members};
ghost use Rattle.toml.specs.Parse.{parse_document};
ghost use Rattle.toml.specs.View.{table_view};
ghost use Rattle.studio_config.specs.Config.{config_fault_of, no_memory};
ghost use Rattle.darbexum_c.specs.Opened.{IsOpenFault, IsOpened};

use std::alloc::Global;
use studio_config::{SpecError, SpecErrorKind, StudioSpec};
use studio_engine::Engine;
use toml::Table;

/// The greatest number of octets of a configuration.
const MAX_OCTETS: usize = 1_048_576;

/// The reason why a configuration makes no engine: the first of these.
#[derive(Clone, Copy, Debug)]
pub(crate) enum OpenFault {
    /// It has too many octets, or is not UTF-8 or not TOML.
    NoToml,
    /// Its first fault as a studio.
    NoStudio(SpecError),
    /// An allocation failed.
    Memory,
}

/// Returns the engine of the studio that a configuration describes.
pub(crate) fn engine_of(alloc: Global, config: &[u8]) -> Result<Box<Engine>, OpenFault>
    ensures ok { IfOk result (λ engine. IsOpened config.now engine.value) }
    ensures fault { IfErr result (λ fault. IsOpenFault config.now fault) }
{
    let table = table_of(alloc, config)?;
    let spec = match StudioSpec::from_table(alloc, &table) {
        Ok(spec) => spec,
        Err(error) => return Err(studio_fault(error)),
    };
    let Ok(engine) = Engine::new(alloc, &spec) else {
        return Err(OpenFault::Memory);
    };
    match Box::new(alloc, engine) {
        Ok(engine) => Ok(engine),
        Err(_) => Err(OpenFault::Memory),
    }
}

/// Returns the TOML table of a configuration.
fn table_of(alloc: Global, config: &[u8]) -> Result<Table, OpenFault>
    ensures ok { IfOk result (λ table. IsUtf8 config.now × (parse_document config.now ≡ Some (table_view table))) }
    ensures fault { IfErr result (λ fault. IsOpenFault config.now fault) }
{
    if config.len() > MAX_OCTETS {
        return Err(OpenFault::NoToml);
    }
    match toml::table_from_slice(alloc, config) {
        Ok(table) => Ok(table),
        Err(error) => {
            if error.is_memory() {
                return Err(OpenFault::Memory);
            }
            Err(OpenFault::NoToml)
        }
    }
}

/// Returns the reason for a configuration's fault. A `SpecError` of kind `Memory` is no fault of the configuration.
fn studio_fault(error: SpecError) -> OpenFault
    ensures { (octets : List ℕ) (members : Members) → IsUtf8 octets → parse_document octets ≡ Some members
        → (error ≡ no_memory) ⊎ (config_fault_of members ≡ Some error) → IsOpenFault octets result }
{
    match error.kind {
        SpecErrorKind::Memory => OpenFault::Memory,
        _ => OpenFault::NoStudio(error),
    }
}
