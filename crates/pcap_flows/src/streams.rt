//! Flows as paths of streams (SMPTE ST 2022-7), and which of them are shown to be RTP streams.
ghost use Rattle.std.specs.Prelude.{◌≡◌, ◌<◌, IfOk, length, position, slice_index_or};
ghost use Rattle.std.specs.List.{list_any};
ghost use Rattle.pcap_flows.specs.Flow.{flow_view};
ghost use Rattle.pcap_flows.specs.FlowTable.{table_view};
ghost use Rattle.pcap_flows.specs.Streams as spec;

use crate::flow::{Flow, Steps};
use crate::packet::FlowKey;
use crate::same_packets::carry_same_packets;
use crate::table::FlowTable;
use std::alloc::{AllocError, Global};

/// The greatest number of a path, from 0.
const LAST_PATH: u8 = 3;

/// The least number of equal timestamp steps of a stream: as many as eight packets in a row have.
// Two or three fit by chance: of DNS, QUIC or a game, whose octets read as those of RTP.
const MIN_STEPS: u64 = 7;

/// The path of a stream that a flow of a table is.
#[derive(Clone, Copy)]
pub(crate) struct FlowPath {
    /// The flow.
    pub key: FlowKey,
    /// The flow's place in the table.
    pub place: usize,
    /// The place of the stream's first flow.
    pub first: usize,
    /// The number of the path, from 0 to 3.
    pub path: u8,
}

/// Returns the path of each flow of a table. A flow is a path of the first stream before it whose first flow carries
/// the same packets, and which has fewer than four paths; or else it begins a stream. Returns `AllocError` if an
/// allocation fails.
#[tactic(auto, using(crate::proofs::StreamLemmas::paths_end))]
pub(crate) fn paths_of(alloc: Global, table: &FlowTable) -> Result<Vec<FlowPath>, AllocError>
    ensures { IfOk result (λ paths. paths.items ≡ spec.paths_of (table_view table.now)) }
{
    let mut paths = Vec::new(alloc);
    for place in 0..table.keys().len() {
        let key = key_at(table.keys(), place);
        let path = path_for(table, paths.as_slice(), key, paths.len());
        paths.push(path)?;
    }
    Ok(paths)
}

/// Returns the key at a place.
fn key_at(keys: &[FlowKey], place: usize) -> FlowKey
    requires { place < length keys.now }
    ensures { result ≡ slice_index_or keys.now place result }
{
    keys[place]
}

/// Returns the path of the flow at a place, after those of the flows before it.
#[tactic(auto, unfolding(crate::specs::Streams::path_for))]
fn path_for(table: &FlowTable, paths: &[FlowPath], key: FlowKey, place: usize) -> FlowPath
    ensures { result ≡ spec.path_for (table_view table.now) paths.now key place }
{
    match path_before(table, paths, place) {
        Some(path) => FlowPath {
            key,
            place,
            first: path.first,
            path: path.path.saturating_add(1),
        },
        None => FlowPath {
            key,
            place,
            first: place,
            path: 0,
        },
    }
}

/// Returns the last path so far of the first stream that takes the flow at a place, if there is one.
fn path_before(table: &FlowTable, paths: &[FlowPath], place: usize) -> Option<FlowPath>
    ensures { result ≡ spec.path_before (table_view table.now) paths.now place }
{
    let at = index_before(table, paths, place)?;
    paths.get(at).copied()
}

/// Returns the index of that path.
fn index_before(table: &FlowTable, paths: &[FlowPath], place: usize) -> Option<usize>
    ensures { result ≡ position (spec.is_before (table_view table.now) paths.now place) paths.now }
{
    paths
        .iter()
        .position(|path| is_before(table, paths, place, path))
}

/// Returns true if a path is the last so far of a stream that takes the flow at a place.
fn is_before(table: &FlowTable, paths: &[FlowPath], place: usize, path: &FlowPath) -> bool
    ensures value { result ≡ spec.is_before (table_view table.now) paths.now place path.now }
{
    path.path < LAST_PATH && is_last(paths, path) && have_same_packets(table, path.first, place)
}

/// Returns true if the flows at two places carry the same packets.
fn have_same_packets(table: &FlowTable, place: usize, other: usize) -> bool
    ensures { result ≡ spec.same_at (table_view table.now) place other }
{
    let (Some((key, flow)), Some((other_key, other))) = (table.flow(place), table.flow(other))
    else {
        return false;
    };
    carry_same_packets(&key, flow, &other_key, other)
}

/// Returns true if there is no further path of the same stream.
fn is_last(paths: &[FlowPath], path: &FlowPath) -> bool
    ensures { result ≡ spec.is_last paths.now path.now }
{
    !has_further(paths, path)
}

/// Returns true if there is a further path of the same stream.
fn has_further(paths: &[FlowPath], path: &FlowPath) -> bool
    ensures { result ≡ list_any (spec.is_further path.now) paths.now }
{
    paths.iter().any(|other| is_further(path, other))
}

/// Returns true if the other path is a further path of the same stream.
fn is_further(path: &FlowPath, other: &FlowPath) -> bool
    ensures { result ≡ spec.is_further path.now other.now }
{
    other.first == path.first && path.path < other.path
}

/// Returns true if a flow is taken for an RTP stream: timestamps advance by one step from packet to packet, as often as
/// in eight packets in a row, and its payload type is none of those that RTCP packets seem to have.
#[tactic(auto, unfolding(crate::specs::Streams::is_shown))]
pub(crate) fn is_shown(key: &FlowKey, flow: &Flow) -> bool
    ensures { result ≡ spec.is_shown key.now (flow_view flow.now) }
{
    let steps = flow.steps();
    !(72 <= key.pt && key.pt <= 76) && MIN_STEPS <= steps.same && goes_on(&steps)
}

/// Returns true if the first timestamp step goes forward.
fn goes_on(steps: &Steps) -> bool
    ensures { result ≡ spec.goes_on steps.now.first }
{
    match steps.first {
        Some(step) => 0 < step && step < 0x8000_0000,
        None => false,
    }
}

/// The flows of a stream, as their places in the table, in the order of its paths.
#[derive(Clone, Copy)]
pub(crate) struct StreamFlows {
    places: [usize; 4],
    len: usize,
}

impl StreamFlows {
    /// Returns the flows of the stream that begins at a place.
    pub(crate) fn new(paths: &[FlowPath], first: usize) -> StreamFlows {
        let mut stream = StreamFlows {
            places: [first; 4],
            len: 0,
        };
        for path in paths.iter() {
            if path.first == first {
                stream.add(path.place);
            }
        }
        stream
    }

    /// Returns the places of its flows in the table.
    pub(crate) fn places(&self) -> &[usize] {
        self.places.get(..self.len).unwrap_or(&[])
    }

    /// Returns true if one of its flows is taken for an RTP stream. The others are copies of it.
    pub(crate) fn is_shown(&self, table: &FlowTable) -> bool {
        self.places().iter().any(|place| is_shown_at(table, *place))
    }

    /// Adds a path, if there is space.
    fn add(&mut self, place: usize) {
        if let Some(free) = self.places.get_mut(self.len) {
            *free = place;
            self.len = self.len.saturating_add(1);
        }
    }
}

/// Returns true if the flow at a place is shown to be an RTP stream.
fn is_shown_at(table: &FlowTable, place: usize) -> bool {
    match table.flow(place) {
        Some((key, flow)) => is_shown(&key, flow),
        None => false,
    }
}
