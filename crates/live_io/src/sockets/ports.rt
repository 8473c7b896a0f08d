//! The ports that a live run needs.
ghost use Rattle.std.specs.Prelude.{◌≡◌, ◌++◌, ◌<◌, ℕ, List, Some, None, OnOk, IfOk, IfErr, ◌⊎◌};
ghost use Rattle.studio_config.specs.Config.{no_memory};
ghost use Rattle.studio_config.specs.declared.config.fault.ConfigTable.TheVariants as place;
ghost use Rattle.live_io.specs.Ports.{
  AreSaid,
  HasPorts,
  first_missing,
  missing_at,
  needs_of,
  path_needs,
  port_key,
  row_needs,
};

use rtp_stream::{Path, StreamSpec};
use std::alloc::Global;
use studio_config::{ConfigTable, Key, Ports, SpecError, SpecErrorKind, StudioSpec};

/// The ports of a live run.
#[derive(Drop)]
pub struct LivePorts {
    /// The port at which each path is received, ordered by stream and then by path.
    pub paths: Vec<u16>,
    /// The port to which the mix's first copy is sent.
    pub to_a: u16,
    /// The port to which the mix's second copy is sent.
    pub to_b: u16,
}

impl LivePorts {
    /// Returns the ports of a studio's paths and of its output, or an error for the first of them that is absent. Ports
    /// of paths that a stream does not have are ignored.
    pub fn of(alloc: Global, studio: &StudioSpec) -> Result<LivePorts, SpecError>
        ensures ok { IfOk result (HasPorts studio.now) }
        ensures fault { IfErr result (λ e. (e ≡ no_memory) ⊎ (first_missing (needs_of studio.now) ≡ Some e)) }
    {
        let ports = studio.ports();
        let paths = path_ports(alloc, ports, studio.streams())?;
        let to_a = output_port(ports.to_a, Key::ToA)?;
        let to_b = output_port(ports.to_b, Key::ToB)?;
        Ok(LivePorts { paths, to_a, to_b })
    }
}

/// Returns the ports of the paths of all streams, or an error for the first of them that is absent.
fn path_ports(alloc: Global, ports: &Ports, streams: &[StreamSpec]) -> Result<Vec<u16>, SpecError>
    ensures ok { IfOk result (λ found. AreSaid (path_needs ports.now.paths 0 streams.now) found.items) }
    ensures fault { IfErr result
        (λ e. (e ≡ no_memory) ⊎ (first_missing (path_needs ports.now.paths 0 streams.now) ≡ Some e)) }
{
    let mut found = Vec::new(alloc);
    // Loops over numbers here and in `push_row`: their invariants speak of the paths below the number.
    for number in 0..streams.len() {
        push_row(&mut found, ports, number, streams[number].paths())?;
    }
    Ok(found)
}

/// Appends the ports of a stream's first `count` paths. Returns an error for the first of them that is absent.
fn push_row(found: &mut Vec<u16>, ports: &Ports, number: usize, count: u8) -> Result<(), SpecError>
    requires few { count < 5 }
    ensures ok { OnOk result
        ((own : List ℕ) × (found.new.items ≡ found.old.items ++ own)
        × AreSaid (row_needs ports.now.paths number count) own) }
    ensures fault { IfErr result
        (λ e. (e ≡ no_memory) ⊎ (first_missing (row_needs ports.now.paths number count) ≡ Some e)) }
{
    for place in 0..count {
        let Some(path) = Path::new(place) else {
            unreachable!()
        };
        let Some(port) = ports.port(number, path) else {
            return Err(missing(ConfigTable::Stream(number), port_key(place)));
        };
        found.push(port)?;
    }
    Ok(())
}

/// Returns the port of one of the output's addresses, or an error if it is absent.
fn output_port(port: Option<u16>, key: Key) -> Result<u16, SpecError>
    ensures ok { IfOk result (λ said. port ≡ Some said) }
    ensures there { OnOk result (missing_at place.Output key port ≡ None) }
    ensures fault { IfErr result (λ e. missing_at place.Output key port ≡ Some e) }
{
    match port {
        Some(port) => Ok(port),
        None => Err(missing(ConfigTable::Output, key)),
    }
}

/// Returns the key of a path's port, by the path's number.
fn port_key(path: u8) -> Key
    ensures { result ≡ port_key path }
{
    match path {
        0 => Key::PortA,
        1 => Key::PortB,
        2 => Key::PortC,
        _ => Key::PortD,
    }
}

/// Returns the error for a key that a live run needs and that is absent.
fn missing(place: ConfigTable, key: Key) -> SpecError
    ensures { missing_at place key None ≡ Some result }
{
    SpecError {
        place,
        key: Some(key),
        kind: SpecErrorKind::Missing,
    }
}
