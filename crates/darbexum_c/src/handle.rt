//! The handle by which C holds an engine.
ghost use Rattle.std.specs.Prelude.{◌≡◌, Option, None, Some, option_map};
ghost use Rattle.studio_engine.specs.Engine.{EngineState};
ghost use Rattle.studio_engine.specs.contracts.engine.Engine.{the_row};
ghost use Rattle.std.specs.Coded.{coded_option};

use crate::raw_box::RawBox;
use std::alloc::Global;
use std::marker::Model;
use std::mem;
use studio_engine::Engine;

/// The memory behind a handle's pointer, which C never reads.
#[repr(C)]
#[derive(Drop)]
pub struct Opaque {
    octet: u8,
}

// C declares it as `struct darbexum { void *engine; }`: a `Global` takes no octets.
/// An engine, or none. Its pointer is null if there is none.
#[repr(C)]
pub struct Handle {
    at: *mut Opaque,
    alloc: Global,
    pub ghost engine: { Option EngineState } by { coded_option the_row.coded },
}

impl Model for Handle {
    ghost use Rattle.std.specs.Prelude.{Option};
    ghost use Rattle.studio_engine.specs.Engine.{EngineState};
    ghost use Rattle.darbexum_c.specs.Held.{held};

    ghost also_owns = { λ h. held h.alloc h.at h.engine };
}

impl Handle {
    /// Returns a handle without an engine.
    pub(crate) fn empty(alloc: Global) -> Handle
        ensures { result.engine ≡ None }
    {
        Handle {
            at: std::ptr::null_mut(),
            alloc,
        }
    }

    /// Returns the handle of a box that was taken apart.
    fn hide(value: RawBox<Engine, Global>) -> Handle
        ensures { result.engine ≡ Some value.value }
    {
        let RawBox { at, alloc } = value;
        Handle {
            at: at as *mut Opaque,
            alloc,
        }
    }

    /// Returns the box of a handle, taken apart, or `None` if there is no engine.
    fn reveal(self) -> Option<RawBox<Engine, Global>>
        ensures { self.engine ≡ option_map (λ b. b.value) result }
    {
        let Handle { at, alloc } = self;
        if at == std::ptr::null_mut() {
            return None;
        }
        Some(RawBox {
            at: at as *mut Engine,
            alloc,
        })
    }

    /// Takes the engine out, and leaves the handle empty.
    pub(crate) fn take(&mut self, alloc: Global) -> Option<Box<Engine>>
        ensures value { self.old.engine ≡ option_map (λ b. b.value) result }
        ensures after { self.new.engine ≡ None }
    {
        let held = mem::replace(self, Handle::empty(alloc));
        match held.reveal() {
            Some(raw) => Some(raw.into_box()),
            None => None,
        }
    }

    /// Puts an engine in, and frees one that was there.
    pub(crate) fn put(&mut self, engine: Box<Engine>)
        ensures { self.new.engine ≡ Some engine.value }
    {
        let old = mem::replace(self, Handle::hide(RawBox::from_box(engine)));
        drop(old);
    }
}

impl Drop for Handle {
    fn drop(self) {
        if let Some(raw) = self.reveal() {
            drop(raw.into_box());
        }
    }
}

// It may go to another thread, as an engine may.
unsafe impl Send for Handle {}
