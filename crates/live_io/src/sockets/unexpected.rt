//! The counts of datagrams from unexpected sources: from another address than the path's source.
ghost use Rattle.std.specs.Prelude.{◌≡◌, vec_len, IfOk};
ghost use Rattle.live_io.specs.Paths.{path_total};

use crate::path_count::path_count;
use std::alloc::{AllocError, Global};
use std::net::{IpAddr, Ipv4Addr, SocketAddr};
use std::sync::atomic::{AtomicU64, Ordering};
use studio_config::StudioSpec;

/// The number of datagrams from unexpected sources of each path, ordered by stream and then by path.
// Atomics, since feeds in several threads count.
#[derive(Drop)]
pub struct UnexpectedSources {
    counts: Vec<AtomicU64>,
}

impl UnexpectedSources {
    /// Returns counts of 0 for each path of a studio. Returns `AllocError` if an allocation fails.
    pub fn new(alloc: Global, studio: &StudioSpec) -> Result<UnexpectedSources, AllocError>
        ensures { IfOk result (λ sources. vec_len sources.counts ≡ path_total studio.now.streams) }
    {
        let mut counts = Vec::new(alloc);
        for _ in 0..path_count(studio.streams()) {
            counts.push(AtomicU64::new(0))?;
        }
        Ok(UnexpectedSources { counts })
    }

    /// Returns the count so far of the path at this index, or 0 if there is no such path.
    pub fn count(&self, path_index: usize) -> u64 {
        match self.counts.get(path_index) {
            Some(count) => count.load(Ordering::SeqCst),
            None => 0,
        }
    }

    /// Returns the source of the path at this index, or `None` if it has no address or there is no such path.
    pub(crate) fn source(
        &self,
        path_index: usize,
        address: Option<Ipv4Addr>,
    ) -> Option<ExpectedSource<'_>> {
        Some(ExpectedSource {
            address: address?,
            unexpected: self.counts.get(path_index)?,
        })
    }
}

/// The only address from which a path takes datagrams, and the count of those from other addresses.
#[derive(Clone, Copy)]
pub(crate) struct ExpectedSource<'a> {
    address: Ipv4Addr,
    unexpected: &'a AtomicU64,
}

impl ExpectedSource<'_> {
    /// Returns true if a datagram is from this source. Counts it otherwise. Ports are not compared.
    pub(crate) fn accepts(&self, from: SocketAddr) -> bool {
        let is_own = from.ip() == IpAddr::V4(self.address);
        if !is_own {
            self.unexpected.fetch_add(1, Ordering::SeqCst);
        }
        is_own
    }
}
