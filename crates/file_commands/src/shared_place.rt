//! The paths of a configuration that are at one address and port, and whose datagrams nothing tells apart.
ghost use Rattle.std.specs.Prelude.{◌≡◌, ◌↔◌, ◌<◌, ◌≤◌, ℕ, IsTrue};
ghost use Rattle.file_commands.specs.SharedPlace.{
  AreApart,
  Collide,
  CollidesAt,
  IsBefore,
  IsFirstAt,
  IsShared,
  place_of,
};

use rtp_stream::Path;
use std::net::Ipv4Addr;
use studio_config::StudioSpec;

/// The place of a path: where it is received, and from which source if not from any.
#[derive(Clone, Copy)]
struct PathPlace {
    at: Ipv4Addr,
    port: u16,
    source: Option<Ipv4Addr>,
}

/// A path with which another one shares its address and port.
#[derive(Clone, Copy)]
pub(crate) struct SharedPlace {
    /// The number of the path's stream.
    pub(crate) stream: usize,
    pub(crate) path: Path,
    /// True if the address is a group, whose members a source or an interface may tell apart.
    pub(crate) is_group: bool,
}

impl PathPlace {
    /// Returns the place of a path of the stream of a number, if its port is known.
    fn of(studio: &StudioSpec, stream: usize, path: Path) -> Option<PathPlace>
        ensures { result ≡ place_of studio.now stream path }
    {
        let port = studio.ports().port(stream, path)?;
        let at = studio.networks().address(stream, path);
        Some(PathPlace {
            at: at.unwrap_or(Ipv4Addr::LOCALHOST),
            port,
            source: studio.networks().source(stream, path),
        })
    }

    /// Returns true if both paths are at one address and port, and nothing tells their datagrams apart.
    fn collides_with(&self, other: &PathPlace) -> bool
        ensures { IsTrue result ↔ Collide self.now other.now }
    {
        let is_one_place = self.at == other.at && self.port == other.port;
        is_one_place && !(self.at.is_multicast() && have_own_sources(self.source, other.source))
    }
}

/// Returns true if both paths have a source, and these differ.
fn have_own_sources(one: Option<Ipv4Addr>, other: Option<Ipv4Addr>) -> bool
    ensures { IsTrue result ↔ AreApart one other }
{
    match (one, other) {
        (Some(one), Some(other)) => one != other,
        _ => false,
    }
}

/// Returns the first path that comes before a path of the stream of this number and collides with it, if there is one.
pub(crate) fn shared_place(studio: &StudioSpec, number: usize, path: Path) -> Option<SharedPlace>
    ensures { IsShared studio.now number path (place_of studio.now number path) result }
{
    let own = PathPlace::of(studio, number, path)?;
    for (stream, spec) in studio.streams().iter().enumerate() {
        let earlier = paths_before(stream, spec.paths(), number, path);
        if let Some(other) = first_at(studio, &own, stream, earlier) {
            return Some(SharedPlace {
                stream,
                path: other,
                is_group: own.at.is_multicast(),
            });
        }
    }
    None
}

/// Returns how many of the paths of a stream come before a path of the stream of this number.
fn paths_before(stream: usize, paths: u8, number: usize, path: Path) -> u8
    ensures few { result ≤ paths }
    ensures which { (other : ℕ) → (other < result ↔ ((other < paths) × IsBefore stream other number path)) }
{
    if stream < number {
        paths
    } else if stream == number {
        paths.min(path.number())
    } else {
        0
    }
}

/// Returns the first of this many paths of a stream that collides with a place, if there is one.
fn first_at(studio: &StudioSpec, own: &PathPlace, stream: usize, paths: u8) -> Option<Path>
    requires { paths ≤ 4 }
    ensures { IsFirstAt studio.now own.now stream paths result }
{
    for place in 0..paths {
        // Never none: a stream has at most four paths.
        let other = Path::new(place)?;
        if is_at(studio, own, stream, other) {
            return Some(other);
        }
    }
    None
}

/// Returns true if a path of the stream of this number collides with a place.
fn is_at(studio: &StudioSpec, own: &PathPlace, stream: usize, path: Path) -> bool
    ensures { IsTrue result ↔ CollidesAt own.now (place_of studio.now stream path) }
{
    match PathPlace::of(studio, stream, path) {
        Some(other) => own.collides_with(&other),
        None => false,
    }
}
