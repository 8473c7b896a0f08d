//! The streams of a capture, to be listed: which there are, in which order, and the skews of their paths.
ghost use Rattle.std.specs.Prelude.{◌≡◌, ◌<◌, [], length, map, take, drop, nat_le, slice_index_or, IfOk, IfSome, OnOk};
ghost use Rattle.pcap_file.specs.Capture.{packets_of};
ghost use Rattle.pcap_flows.specs.PairTimes.{pair_begun, pair_view};

use crate::capture_skews::{MAX_PAIRS, add_reader, push_pairs, take_skews};
use crate::packet_format::first_format;
use crate::pair_times::{FlowPair, PairTimes};
use crate::skew::Skew;
use crate::streams::{FlowPath, StreamFlows, paths_of};
use crate::table::FlowTable;
use pcap_file::ReaderFault;
use std::alloc::{AllocError, Global};
use std::io::Read;

/// The streams of a capture's flows, in the order in which they are listed: those first that a configuration can
/// receive. Their skews are still to be measured.
#[derive(Drop)]
pub struct StreamList {
    /// The paths of all flows, listed streams or not.
    pub(crate) paths: Vec<FlowPath>,
    /// The streams that are listed.
    pub(crate) streams: Vec<StreamFlows>,
    /// The first path of each of them with each further one, stream by stream.
    pairs: Vec<FlowPair>,
    /// The skews of the pairs so far.
    pub(crate) skews: Vec<Option<Skew>>,
}

impl StreamList {
    ghost use Rattle.pcap_flows.specs.CaptureSkews.{Measures};

    /// Returns the streams of a table. Returns `AllocError` if an allocation fails.
    pub fn new(alloc: Global, table: &FlowTable) -> Result<StreamList, AllocError>
        ensures none { IfOk result (λ list. list.skews.items ≡ []) }
    {
        let paths = paths_of(alloc, table)?;
        let streams = listed_streams(alloc, table, paths.as_slice())?;
        let pairs = pairs_of(alloc, table, streams.as_slice())?;
        Ok(StreamList {
            paths,
            streams,
            pairs,
            skews: Vec::new(alloc),
        })
    }

    /// Returns true if the skews of all paths were measured.
    pub fn is_measured(&self) -> bool
        ensures { result ≡ nat_le (length self.now.pairs.items) (length self.now.skews.items) }
    {
        self.pairs.len() <= self.skews.len()
    }

    /// Reads the capture once, and measures the skews of the next paths, at most 16. Returns an error if an allocation
    /// or a read fails, or a record or block is too long.
    pub fn measure<R: Read>(&mut self, alloc: Global, reader: &mut R) -> Result<(), ReaderFault>
        ensures { OnOk result (IfSome (R.remaining reader.old) (λ file. Measures (packets_of file) self.old self.new)) }
    {
        let next = pairs_from(self.pairs.as_slice(), self.skews.len());
        let mut times = first_times(alloc, next)?;
        add_reader(alloc, &mut times, reader)?;
        Ok(take_skews(&mut times, &mut self.skews)?)
    }
}

/// Returns the pairs of a list from a place on.
#[tactic(auto, using(crate::proofs::CaptureSkewLemmas::none_from))]
fn pairs_from(pairs: &[FlowPair], place: usize) -> &[FlowPair]
    ensures { result.now ≡ drop place pairs.now }
{
    if place <= pairs.len() {
        &pairs[place..]
    } else {
        &[]
    }
}

/// Returns the first pairs of a list, at most 16, before their first packets.
fn first_times(alloc: Global, pairs: &[FlowPair]) -> Result<Vec<PairTimes>, AllocError>
    ensures { IfOk result (λ times. map pair_view times.items ≡ map pair_begun (take 16 pairs.now)) }
{
    let mut times = Vec::new(alloc);
    for place in 0..pairs.len().min(MAX_PAIRS) {
        let pair = pair_at(pairs, place);
        let one = PairTimes::new(alloc, pair)?;
        times.push(one)?;
    }
    Ok(times)
}

/// Returns the pair at a place.
fn pair_at(pairs: &[FlowPair], place: usize) -> FlowPair
    requires { place < length pairs.now }
    ensures { result ≡ slice_index_or pairs.now place result }
{
    pairs[place]
}

/// Returns the streams that are shown to be RTP streams: those with a format first, then the others.
fn listed_streams(
    alloc: Global,
    table: &FlowTable,
    paths: &[FlowPath],
) -> Result<Vec<StreamFlows>, AllocError> {
    let mut streams = Vec::new(alloc);
    push_streams(&mut streams, table, paths, true)?;
    push_streams(&mut streams, table, paths, false)?;
    Ok(streams)
}

/// Appends the streams that are shown to be RTP streams, and have a format or have none.
fn push_streams(
    streams: &mut Vec<StreamFlows>,
    table: &FlowTable,
    paths: &[FlowPath],
    have_format: bool,
) -> Result<(), AllocError> {
    for path in paths.iter() {
        if path.first == path.place {
            let stream = StreamFlows::new(paths, path.first);
            let has_format = first_format(table, stream.places()).is_some();
            if stream.is_shown(table) && has_format == have_format {
                streams.push(stream)?;
            }
        }
    }
    Ok(())
}

/// Returns each stream's first path with each further one, stream by stream.
fn pairs_of(
    alloc: Global,
    table: &FlowTable,
    streams: &[StreamFlows],
) -> Result<Vec<FlowPair>, AllocError> {
    let mut pairs = Vec::new(alloc);
    for stream in streams.iter() {
        push_pairs(&mut pairs, table, stream.places())?;
    }
    Ok(pairs)
}
