//! A sink that keeps datagrams in memory.
ghost use Rattle.std.specs.Prelude.{◌≡◌, [], ◌∷◌, ◌++◌, Some, is_some, OnOk, IfSome};
ghost use Rattle.studio_io.specs.Memory.{octets_of, taken_by_both};

use crate::sink::{SendAnswer, Sink};
use std::alloc::{AllocError, Global};
use std::marker::Model;

/// A sink that keeps the datagrams that it is passed, in order. If the allocation for one fails, that datagram fails at
/// both addresses. Contracts see it as all the datagrams that it was passed, and as `None` once one was not kept.
#[derive(Drop)]
pub struct MemorySink {
    alloc: Global,
    kept: Vec<Vec<u8>>,
    /// True while all datagrams were kept.
    whole: bool,
}

impl Model for MemorySink {
    ghost use Rattle.std.specs.Prelude.{ℕ, List, Option, Some, None, if◌then◌else◌};
    ghost use Rattle.studio_io.specs.Memory.{octets_of};

    ghost Value = { Option (List (List ℕ)) };

    ghost view = { λ sink. if sink.whole then Some (octets_of sink.kept.items) else None };
}

impl MemorySink {
    /// Returns a sink that was passed no datagram yet.
    pub fn new(alloc: Global) -> MemorySink
        ensures { result ≡ Some [] }
    {
        MemorySink {
            alloc,
            kept: Vec::new(alloc),
            whole: true,
        }
    }

    /// Returns the datagrams that were kept, in order.
    pub fn kept(&self) -> &[Vec<u8>]
        ensures { IfSome self.now (λ handed. octets_of result.now ≡ handed) }
    {
        self.kept.as_slice()
    }

    /// Returns true if all datagrams were kept.
    pub fn is_whole(&self) -> bool
        ensures { result ≡ is_some self.now }
    {
        self.whole
    }
}

/// Appends a copy of a datagram. Returns `AllocError` if an allocation fails.
fn keep(alloc: Global, kept: &mut Vec<Vec<u8>>, datagram: &[u8]) -> Result<(), AllocError>
    ensures { OnOk result (octets_of kept.new.items ≡ octets_of kept.old.items ++ datagram.now ∷ []) }
{
    let copy = Vec::from_slice(alloc, datagram)?;
    kept.push(copy)?;
    Ok(())
}

impl Sink for MemorySink {
    ghost handed = { λ sink. sink };

    ghost answered = { λ sink. taken_by_both sink };

    fn send(&mut self, datagram: &[u8]) -> SendAnswer {
        // A sink has no other way to report an allocation failure than the addresses that it did not reach.
        let kept = keep(self.alloc, &mut self.kept, datagram).is_ok();
        self.whole &= kept;
        SendAnswer { a: kept, b: kept }
    }
}
