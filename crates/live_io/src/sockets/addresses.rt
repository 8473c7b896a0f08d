//! The local address and the source address of each path of a live run.
ghost use Rattle.std.specs.Prelude.{◌≡◌, ◌++◌, ◌<◌, OnOk, IfOk};
ghost use Rattle.live_io.specs.Addresses.{addresses_of, row_addresses};

use rtp_stream::Path;
use std::alloc::{AllocError, Global};
use std::net::Ipv4Addr;
use studio_config::{Networks, StudioSpec};

/// The local address and the source address of a path.
#[derive(Clone, Copy, PartialEq, Eq)]
pub struct PathAddress {
    /// The address to bind.
    pub at: Ipv4Addr,
    /// The address of the path's source. If `None`, datagrams of any source are taken.
    pub from: Option<Ipv4Addr>,
}

/// Returns the addresses of all paths, ordered by stream and then by path. A path without an address in the studio is
/// received at 127.0.0.1. Returns `AllocError` if an allocation fails.
pub fn addresses_of(alloc: Global, studio: &StudioSpec) -> Result<Vec<PathAddress>, AllocError>
    ensures { IfOk result (λ found. found.items ≡ addresses_of studio.now) }
{
    let networks = studio.networks();
    let streams = studio.streams();
    let mut found = Vec::new(alloc);
    // Loops over numbers here and in `push_row`: their invariants speak of the paths below the number.
    for number in 0..streams.len() {
        push_row(&mut found, networks, number, streams[number].paths())?;
    }
    Ok(found)
}

/// Appends the addresses of a stream's first `count` paths. Returns `AllocError` if an allocation fails.
fn push_row(
    found: &mut Vec<PathAddress>,
    networks: &Networks,
    number: usize,
    count: u8,
) -> Result<(), AllocError>
    requires few { count < 5 }
    ensures { OnOk result (found.new.items ≡ found.old.items ++ row_addresses networks.now number count) }
{
    for place in 0..count {
        let Some(path) = Path::new(place) else {
            unreachable!()
        };
        let at = networks
            .address(number, path)
            .unwrap_or(Ipv4Addr::LOCALHOST);
        let from = networks.source(number, path);
        found.push(PathAddress { at, from })?;
    }
    Ok(())
}
