//! The calls that make an engine and free it.
ghost use Rattle.std.specs.Prelude.{◌≡◌, ◌⊎◌, ◌<ℤ◌, [], pos, Some, None, IsSomeAnd};
ghost use Rattle.studio_config.specs.declared.config.fault.SpecError.{SpecError};
ghost use Rattle.darbexum_c.specs.Codes as code;
ghost use Rattle.darbexum_c.specs.Opened.{IsNoStudio, IsNoToml, IsOpened};
ghost use Rattle.darbexum_c.specs.Texts.{buffer_after};

use crate::codes::{NO_MEMORY, NO_STUDIO, NO_TOML};
use crate::handle::Handle;
use crate::open::{OpenFault, engine_of};
use crate::texts::{fault_text, write_text};
use std::alloc::Global;

/// Makes the engine of a configuration, and frees one that the handle had. Returns 0, or a code.
///
/// The text of the fault, or an empty text, is written to `told`. After a fault the handle keeps what it had.
#[unsafe(no_mangle)]
pub extern "C" fn darbexum_open(
    alloc: Global,
    handle: &mut Handle,
    config: &[u8],
    told: &mut [u8],
) -> i32
    ensures opened { result ≡ pos 0 → IsSomeAnd handle.new.engine (λ engine. IsOpened config.now engine) }
    ensures codes { (result ≡ pos 0) ⊎ ((result ≡ code.no_toml)
        ⊎ ((result ≡ code.no_studio) ⊎ (result ≡ code.no_memory))) }
    ensures no_toml { result ≡ code.no_toml → IsNoToml config.now }
    ensures no_studio { result ≡ code.no_studio → (fault : SpecError) × IsNoStudio config.now fault }
    ensures kept { result <ℤ pos 0 → handle.new.engine ≡ handle.old.engine }
    ensures quiet { result ≡ pos 0 → told.new ≡ buffer_after [] told.old }
{
    // First, so that the text is one even if its own allocation fails.
    write_text(b"", told);
    match engine_of(alloc, config) {
        Ok(engine) => {
            handle.put(engine);
            0
        }
        Err(OpenFault::NoToml) => {
            write_text(fault_text(NO_TOML).as_bytes(), told);
            NO_TOML
        }
        Err(OpenFault::NoStudio(fault)) => {
            if let Ok(text) = format!(in alloc; "{fault}") {
                write_text(text.as_bytes(), told);
            }
            NO_STUDIO
        }
        Err(OpenFault::Memory) => {
            write_text(fault_text(NO_MEMORY).as_bytes(), told);
            NO_MEMORY
        }
    }
}

/// Frees the engine, if there is one. The handle is empty then.
#[unsafe(no_mangle)]
pub extern "C" fn darbexum_free(alloc: Global, handle: &mut Handle)
    ensures { handle.new.engine ≡ None }
{
    if let Some(engine) = handle.take(alloc) {
        drop(engine);
    }
}
