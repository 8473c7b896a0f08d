//! The IPv4 addresses of a studio's paths and of its output.
ghost use Rattle.std.specs.Prelude.{◌≡◌, ◌<◌, length, slice_set};
ghost use Rattle.studio_config.specs.Networks.{absent_networks, path_address};

use rtp_stream::Path;
use std::net::Ipv4Addr;

/// The known addresses of a studio: each stream's, path by path, and the output's.
///
/// A studio has at most 16 streams, and a stream at most 4 paths; an address that isn't known is `None`.
#[derive(Clone, Copy, Debug, PartialEq, Eq)]
pub struct Networks {
    /// The address that each path of each stream is received at: an interface's or a multicast group's.
    pub paths: [[Option<Ipv4Addr>; 4]; 16],
    /// The source address that each path of each stream is limited to.
    pub sources: [[Option<Ipv4Addr>; 4]; 16],
    /// The addresses of the output's two copies.
    pub output: OutputAddresses,
}

/// The addresses and the time to live of the output's two copies, as far as they are known.
#[derive(Clone, Copy, Debug, PartialEq, Eq)]
pub struct OutputAddresses {
    /// The sender's own address of the first copy.
    pub from_a: Option<Ipv4Addr>,
    /// The sender's own address of the second copy.
    pub from_b: Option<Ipv4Addr>,
    /// The destination of the first copy.
    pub to_a: Option<Ipv4Addr>,
    /// The destination of the second copy.
    pub to_b: Option<Ipv4Addr>,
    /// The time to live of both copies.
    pub ttl: Option<u8>,
}

/// The address that each path of a stream is received at, and the source address that it is limited to.
#[derive(Clone, Copy)]
pub(crate) struct PathAddresses {
    pub receive_at: [Option<Ipv4Addr>; 4],
    pub sources: [Option<Ipv4Addr>; 4],
}

impl Networks {
    /// Returns networks without a known address.
    pub fn absent() -> Networks
        ensures { result ≡ absent_networks }
    {
        Networks {
            paths: [[None; 4]; 16],
            sources: [[None; 4]; 16],
            output: OutputAddresses {
                from_a: None,
                from_b: None,
                to_a: None,
                to_b: None,
                ttl: None,
            },
        }
    }

    /// Enters the addresses of a stream's paths.
    pub(crate) fn set_path_addresses(&mut self, stream: usize, addresses: PathAddresses)
        requires paths { stream < length self.old.paths }
        requires sources { stream < length self.old.sources }
        ensures paths { self.new.paths ≡ slice_set self.old.paths stream addresses.receive_at }
        ensures sources { self.new.sources ≡ slice_set self.old.sources stream addresses.sources }
    {
        let PathAddresses {
            receive_at,
            sources,
        } = addresses;
        self.paths[stream] = receive_at;
        self.sources[stream] = sources;
    }

    /// Returns the address that a path of a stream is received at, or `None` if it isn't known.
    pub fn address(&self, stream: usize, path: Path) -> Option<Ipv4Addr>
        ensures { result ≡ path_address self.now.paths stream path }
    {
        address_in(&self.paths, stream, path)
    }

    /// Returns the source address that a path of a stream is limited to, or `None` if it isn't known.
    pub fn source(&self, stream: usize, path: Path) -> Option<Ipv4Addr>
        ensures { result ≡ path_address self.now.sources stream path }
    {
        address_in(&self.sources, stream, path)
    }
}

/// Returns the address of a path of a stream, or `None` if it isn't known.
fn address_in(rows: &[[Option<Ipv4Addr>; 4]; 16], stream: usize, path: Path) -> Option<Ipv4Addr>
    ensures { result ≡ path_address rows.now stream path }
{
    match rows.get(stream) {
        Some(row) => row[usize::from(path.number())],
        None => None,
    }
}
