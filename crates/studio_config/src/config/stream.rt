//! The table of a stream.
ghost use Rattle.std.specs.Prelude.{◌≡◌, None, Some, OnOk, IfOk, IfErr};
ghost use Rattle.toml.specs.View.{table_view};
ghost use Rattle.studio_config.specs.Values.{number_at, number_or};
ghost use Rattle.studio_config.specs.Rows.{rows_fault};
ghost use Rattle.studio_config.specs.NetworkTable.{binds_of, sender_addresses_of};
ghost use Rattle.studio_config.specs.StreamTable.{
  source_rows,
  wait_rows,
  port_rows,
  clock_of,
  stream_of,
  ports_of,
  stream_fault,
};
ghost use Rattle.studio_config.specs.declared.config.keys.Key.TheVariants as key;

use crate::config::enums::{clock, with_offset};
use crate::config::fault::{ConfigTable, SpecError, SpecErrorKind};
use crate::config::integers::{optional_whole, port, whole, whole_or};
use crate::config::keys::Key;
use crate::config::name::check_name;
use crate::config::network_keys::read_path_addresses;
use crate::config::packet_format::read_packets;
use crate::config::unknown_keys::check_known;
use crate::networks::PathAddresses;
use rtp_stream::{Stream, StreamClock, StreamSpec};
use toml::Table;

/// The keys of a stream's table.
const KEYS: [Key; 23] = [
    Key::Encoding,
    Key::Channels,
    Key::Frames,
    Key::Pt,
    Key::Ssrc,
    Key::Clock,
    Key::Offset,
    Key::Latency,
    Key::Window,
    Key::Paths,
    Key::PortA,
    Key::PortB,
    Key::PortC,
    Key::PortD,
    Key::AddressA,
    Key::AddressB,
    Key::AddressC,
    Key::AddressD,
    Key::SourceA,
    Key::SourceB,
    Key::SourceC,
    Key::SourceD,
    Key::Name,
];

/// The SSRC that packets are limited to, if the table has one, and the clock of their media times.
#[derive(Clone, Copy)]
struct StreamSource {
    ssrc: Option<u32>,
    clock: StreamClock,
}

/// The latency in sampling instants, the window in packets, and the number of paths.
#[derive(Clone, Copy)]
struct StreamTiming {
    latency: u32,
    window: u16,
    paths: u8,
}

/// A stream, and the ports and addresses of its paths.
#[derive(Clone, Copy)]
pub(crate) struct StreamEntry {
    pub spec: StreamSpec,
    pub ports: [Option<u16>; 4],
    pub addresses: PathAddresses,
}

/// Reads a stream's table.
pub(crate) fn read_stream(table: &Table, place: ConfigTable) -> Result<StreamEntry, SpecError>
    ensures ok { OnOk result (stream_fault place (table_view table.now) ≡ None) }
    ensures stream { IfOk result (λ s. s.spec ≡ stream_of (table_view table.now)) }
    ensures ports { IfOk result (λ s. s.ports ≡ ports_of (table_view table.now)) }
    ensures receive_at { IfOk result (λ s. s.addresses.receive_at ≡ binds_of (table_view table.now)) }
    ensures sources { IfOk result (λ s. s.addresses.sources ≡ sender_addresses_of (table_view table.now)) }
    ensures fault { IfErr result (λ e. stream_fault place (table_view table.now) ≡ Some e) }
{
    let packets = read_packets(table, place)?;
    let source = read_source(table, place)?;
    let wait = read_wait(table, place)?;
    let ports = read_ports(table, place)?;
    let addresses = read_path_addresses(table, place)?;
    check_name(table, place)?;
    check_known(table, place, &KEYS)?;
    // Each key is tested, an unknown one too, before the stream as a whole.
    let stream = Stream {
        enc: packets.enc,
        channels: packets.channels,
        frames: packets.frames,
        pt: packets.pt,
        ssrc: source.ssrc,
        clock: source.clock,
        latency: wait.latency,
        window: wait.window,
        paths: wait.paths,
    };
    match StreamSpec::of(stream) {
        Ok(spec) => Ok(StreamEntry {
            spec,
            ports,
            addresses,
        }),
        Err(fault) => Err(SpecError {
            place,
            key: None,
            kind: SpecErrorKind::Stream(fault),
        }),
    }
}

/// Reads the SSRC and the clock of a stream's packets.
fn read_source(table: &Table, place: ConfigTable) -> Result<StreamSource, SpecError>
    ensures ok { OnOk result (rows_fault place (table_view table.now) source_rows ≡ None) }
    ensures ssrc { IfOk result (λ s. number_at (table_view table.now) key.Ssrc ≡ s.ssrc) }
    ensures clock { IfOk result (λ s. clock_of (table_view table.now) ≡ s.clock) }
    ensures fault { IfErr result (λ e. rows_fault place (table_view table.now) source_rows ≡ Some e) }
{
    let ssrc = match optional_whole(table, place, Key::Ssrc, 0, 4_294_967_295)? {
        Some(ssrc) => Some(ssrc as u32),
        None => None,
    };
    let named = clock(table, place, Key::Clock)?;
    let offset = whole_or(table, place, Key::Offset, 0, 4_294_967_295, 0)? as u32;
    Ok(StreamSource {
        ssrc,
        clock: with_offset(named, offset),
    })
}

/// Reads the latency, the window and the number of paths.
fn read_wait(table: &Table, place: ConfigTable) -> Result<StreamTiming, SpecError>
    ensures ok { OnOk result (rows_fault place (table_view table.now) wait_rows ≡ None) }
    ensures latency { IfOk result (λ w. number_or (table_view table.now) key.Latency 0 ≡ w.latency) }
    ensures window { IfOk result (λ w. number_or (table_view table.now) key.Window 0 ≡ w.window) }
    ensures paths { IfOk result (λ w. number_or (table_view table.now) key.Paths 2 ≡ w.paths) }
    ensures fault { IfErr result (λ e. rows_fault place (table_view table.now) wait_rows ≡ Some e) }
{
    let latency = whole(table, place, Key::Latency, 0, 4_294_967_295)? as u32;
    let window = whole(table, place, Key::Window, 0, 65535)? as u16;
    let paths = whole_or(table, place, Key::Paths, 1, 4, 2)? as u8;
    Ok(StreamTiming {
        latency,
        window,
        paths,
    })
}

/// Reads the UDP port of each path.
fn read_ports(table: &Table, place: ConfigTable) -> Result<[Option<u16>; 4], SpecError>
    ensures ok { OnOk result (rows_fault place (table_view table.now) port_rows ≡ None) }
    ensures ports { IfOk result (λ p. p ≡ ports_of (table_view table.now)) }
    ensures fault { IfErr result (λ e. rows_fault place (table_view table.now) port_rows ≡ Some e) }
{
    let a = port(table, place, Key::PortA)?;
    let b = port(table, place, Key::PortB)?;
    let c = port(table, place, Key::PortC)?;
    let d = port(table, place, Key::PortD)?;
    Ok([a, b, c, d])
}
