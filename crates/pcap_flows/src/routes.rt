//! The routes of a capture's flows.
ghost use Rattle.std.specs.Prelude.{◌≡◌, ◌≤◌, ◌++◌, ◌∷◌, [], None, filter, IfOk, IfErr, OnOk};
ghost use Rattle.std.specs.List.{list_any};
ghost use Rattle.pcap_flows.specs.FlowTable.{table_view};
ghost use Rattle.pcap_flows.specs.Routes as spec;

use crate::fault::ImportFault;
use crate::packet::FlowKey;
use crate::packet_format::format_of;
use crate::streams::{FlowPath, paths_of};
use crate::table::FlowTable;
use std::alloc::{AllocError, Global};
use std::net::SocketAddrV4;

/// A flow and the path of a stream that it is in a trace.
#[derive(Clone, Copy)]
pub struct Route {
    /// The flow.
    pub key: FlowKey,
    /// The stream's number, from 0.
    pub stream: u8,
    /// The letter of the path, `a` to `d`.
    pub letter: u8,
}

/// The greatest number of streams of a trace.
const MAX_STREAMS: usize = 16;

/// The routes of flows, in the order of the flows.
#[derive(Drop)]
pub struct Routes {
    pub(crate) list: Vec<Route>,
    /// The number of streams.
    pub(crate) streams: u8,
    /// The number of flows without a route.
    left_out: usize,
}

impl Routes {
    /// Returns the routes, which `trace_text` takes.
    pub fn list(&self) -> &[Route] {
        self.list.as_slice()
    }

    /// Returns the number of flows without a route.
    pub fn left_out(&self) -> usize {
        self.left_out
    }
}

/// Returns routes of the flows to these addresses, or of all streams with a format if no address is named. Returns an
/// error if no flow goes to a named address, there is no route, or there are more than 16 streams.
pub fn routes_of(
    alloc: Global,
    table: &FlowTable,
    names: &[SocketAddrV4],
) -> Result<Routes, ImportFault>
    ensures routes { IfOk result (λ routes. routes.list.items ≡ spec.routes_of (table_view table.now) names.now) }
    ensures streams { IfOk result (λ routes. routes.streams
        ≡ spec.stream_count (spec.chosen_paths (table_view table.now) names.now)) }
    ensures left_out { IfOk result (λ routes. routes.left_out ≡ spec.left_out_of (table_view table.now) names.now) }
    ensures fine { OnOk result (spec.routes_fault_of (table_view table.now) names.now ≡ None) }
    ensures fault { IfErr result (λ fault. spec.IsRoutesFault (table_view table.now) names.now fault) }
{
    if !are_named(table, names) {
        return Err(ImportFault::UnknownAddress);
    }
    let chosen = chosen_paths(alloc, table, names)?;
    let streams = streams_among(chosen.as_slice());
    if streams > MAX_STREAMS {
        return Err(ImportFault::Streams);
    }
    let list = routes_for(alloc, chosen.as_slice())?;
    if list.is_empty() {
        return Err(ImportFault::NoFlow);
    }
    let left_out = table.flows().len().saturating_sub(list.len());
    Ok(Routes {
        list,
        streams: streams as u8,
        left_out,
    })
}

/// Returns true if a flow goes to each of these addresses.
fn are_named(table: &FlowTable, names: &[SocketAddrV4]) -> bool
    ensures { result ≡ spec.are_named (table_view table.now) names.now }
{
    names.iter().all(|name| has_flow(table, name))
}

/// Returns true if some flow goes to an address and a port.
fn has_flow(table: &FlowTable, name: &SocketAddrV4) -> bool
    ensures { result ≡ spec.has_flow table.now.keys.items name.now }
{
    table.keys().iter().any(|key| is_named(key, name))
}

/// Returns true if this flow goes to an address and a port.
fn is_named(key: &FlowKey, name: &SocketAddrV4) -> bool
    ensures { result ≡ spec.is_named key.now name.now }
{
    name.ip().to_bits() == key.to && name.port() == key.to_port
}

/// Returns the paths to these addresses, or the paths of all streams with a format if no address is named.
fn chosen_paths(
    alloc: Global,
    table: &FlowTable,
    names: &[SocketAddrV4],
) -> Result<Vec<FlowPath>, AllocError>
    ensures { IfOk result (λ chosen. chosen.items ≡ spec.chosen_paths (table_view table.now) names.now) }
{
    let paths = paths_of(alloc, table)?;
    chosen_among(alloc, table, names, paths.as_slice())
}

/// Returns the chosen paths, out of all paths of a table.
fn chosen_among(
    alloc: Global,
    table: &FlowTable,
    names: &[SocketAddrV4],
    paths: &[FlowPath],
) -> Result<Vec<FlowPath>, AllocError>
    ensures { IfOk result (λ chosen. chosen.items
        ≡ filter (spec.is_chosen (table_view table.now) names.now paths.now) paths.now) }
{
    let mut chosen = Vec::new(alloc);
    for place in 0..paths.len() {
        if is_chosen(table, names, paths, &paths[place]) {
            chosen.push(paths[place])?;
        }
    }
    Ok(chosen)
}

/// Returns true if a path goes to one of these addresses, or, if there are none, if its stream has a format.
fn is_chosen(table: &FlowTable, names: &[SocketAddrV4], paths: &[FlowPath], path: &FlowPath) -> bool
    ensures { result ≡ spec.is_chosen (table_view table.now) names.now paths.now path.now }
{
    match names {
        [] => has_format(table, paths, path.first),
        _ => goes_to(&path.key, names),
    }
}

/// Returns true if a flow goes to one of these addresses.
fn goes_to(key: &FlowKey, names: &[SocketAddrV4]) -> bool
    ensures { result ≡ list_any (spec.is_named key.now) names.now }
{
    names.iter().any(|name| is_named(key, name))
}

/// Returns true if a flow of the stream that begins at a place has a format.
fn has_format(table: &FlowTable, paths: &[FlowPath], first: usize) -> bool
    ensures { result ≡ spec.stream_has_format (table_view table.now) paths.now first }
{
    paths.iter().any(|path| path.first == first && has_format_at(table, path.place))
}

/// Returns true if the flow at a place has a format.
fn has_format_at(table: &FlowTable, place: usize) -> bool
    ensures { result ≡ spec.has_format_at (table_view table.now) place }
{
    match table.flow(place) {
        Some((key, flow)) => format_of(key.pt, flow).is_some(),
        None => false,
    }
}

/// Returns the routes of the paths that are taken, of at most 16 streams.
fn routes_for(alloc: Global, chosen: &[FlowPath]) -> Result<Vec<Route>, AllocError>
    requires few { spec.stream_count chosen.now ≤ 16 }
    ensures { IfOk result (λ routes. routes.items ≡ spec.routes_of_paths chosen.now) }
{
    let mut routes = Vec::new(alloc);
    for place in 0..chosen.len() {
        routes.push(route_of_path(chosen, &chosen[place]))?;
    }
    Ok(routes)
}

/// Returns the route of a chosen path. Streams are numbered in the order of their first flows, and the paths of each in
/// the order of their flows.
#[tactic(auto, using(crate::proofs::RouteLemmas::before_within))]
fn route_of_path(chosen: &[FlowPath], path: &FlowPath) -> Route
    requires few { spec.stream_count chosen.now ≤ 16 }
    ensures { result ≡ spec.route_of_path chosen.now path.now }
{
    Route {
        key: path.key,
        stream: streams_before(chosen, path.first) as u8,
        letter: letter_of(paths_before(chosen, path)),
    }
}

/// Returns the letter of the path with a number.
fn letter_of(number: usize) -> u8
    ensures { result ≡ spec.letter_of number }
{
    b'a' + number.min(3) as u8
}

/// Returns the number of streams with a chosen path.
fn streams_among(chosen: &[FlowPath]) -> usize
    ensures { result ≡ spec.stream_count chosen.now }
{
    chosen.iter().filter(|path| leads(chosen, path)).count()
}

/// Returns the number of streams with a chosen path whose first flow is before a place.
fn streams_before(chosen: &[FlowPath], first: usize) -> usize
    ensures { result ≡ spec.streams_before chosen.now first }
{
    chosen
        .iter()
        .filter(|path| path.first < first && leads(chosen, path))
        .count()
}

/// Returns the number of paths of the same stream that are taken, of flows before a path's flow.
fn paths_before(chosen: &[FlowPath], path: &FlowPath) -> usize
    ensures { result ≡ spec.paths_before chosen.now path.now }
{
    chosen
        .iter()
        .filter(|other| is_earlier(path, other))
        .count()
}

/// Returns true if a path is the first of its stream that is taken.
fn leads(chosen: &[FlowPath], path: &FlowPath) -> bool
    ensures { result ≡ spec.leads chosen.now path.now }
{
    !has_earlier(chosen, path)
}

/// Returns true if an earlier path of the same stream is taken.
fn has_earlier(chosen: &[FlowPath], path: &FlowPath) -> bool
    ensures { result ≡ list_any (spec.is_earlier path.now) chosen.now }
{
    chosen.iter().any(|other| is_earlier(path, other))
}

/// Returns true if the other path is of the same stream, and its flow is before this path's flow.
fn is_earlier(path: &FlowPath, other: &FlowPath) -> bool
    ensures { result ≡ spec.is_earlier path.now other.now }
{
    other.first == path.first && other.place < path.place
}
