//! The set of all ends of a studio's rings, and the calls that open it.
ghost use Rattle.std.specs.Prelude.{
  ◌≡◌,
  ◌<◌,
  ◌≤◌,
  [],
  List,
  ◌++◌,
  IfOk,
  IfErr,
  OnOk,
  length,
  vec_len,
  ℤ,
  pos,
  ◌≤ℤ◌,
  ◌^◌,
  false,
  true,
};
ghost use Rattle.studio_config.specs.Studio.{IsStudio};
ghost use Rattle.studio_ends.specs.declared.path_end.PathEnd.{PathEnd};
ghost use Rattle.studio_ends.specs.Datagrams.{HasGiven};
ghost use Rattle.studio_ends.specs.FreshEnds.{
  AllFreshPaths,
  AreFreshRings,
  AreOpened,
  IsFreshPath,
  IsFreshStream,
  open_fault_of,
};
ghost use Rattle.studio_ends.specs.OpenedChannels.{HaveChannels, OpensMix, OpensPath, OpensStream};
ghost use Rattle.studio_ends.specs.Opening.{AddsStream, AllUnread, AreFreshEnds};
ghost use Rattle.studio_ends.specs.Receivers.{HaveNoSender, HaveReceivers};
ghost use Rattle.studio_ends.specs.declared.stream_end.StreamEnd.{StreamEnd};

use crate::mix_end::MixEnd;
use crate::monitor_end::MonitorEnd;
use crate::path_end::PathEnd;
use crate::rings::marks::{MarkConsumer, open_marks};
use crate::rings::packets::{PacketConsumer, open_packets};
use crate::stats_channels::{StatsChannels, StatsReceivers};
use crate::stream_end::StreamEnd;
use path_merge::Merge;
use rtp_stream::{PathCounts, StreamSpec};
use rtrb::RingBuffer;
use std::alloc::{AllocError, Global};
use studio_config::StudioSpec;
use studio_mix::Mixer;
use thiserror::Error;

/// All ends of a studio's rings. The paths are ordered by stream and then by path, the streams and monitors by stream.
#[derive(Drop)]
pub struct Ends {
    pub paths: Vec<PathEnd>,
    pub streams: Vec<StreamEnd>,
    pub monitors: Vec<MonitorEnd>,
    pub mix: MixEnd,
}

/// The error of `open` and `open_with_stats`: the first of these that applies.
#[derive(Clone, Copy, Debug, PartialEq, Eq, Error)]
pub enum OpenFault {
    /// The ring length is not 1 to 65,536 places.
    #[error("rings have from 1 to 65536 places")]
    RingLength,
    /// An allocation failed.
    #[error("out of memory")]
    Memory,
}

/// The ends of some streams, and the consumers of their marks.
#[derive(Drop)]
pub(crate) struct StreamEnds {
    pub(crate) paths: Vec<PathEnd>,
    pub(crate) streams: Vec<StreamEnd>,
    pub(crate) monitors: Vec<MonitorEnd>,
    pub(crate) marks: Vec<MarkConsumer>,
}

/// Opens a path's ring and returns both ends.
fn open_path(
    alloc: Global,
    spec: &StreamSpec,
    ring_len: usize,
    channels: &mut StatsChannels,
) -> Result<(PathEnd, PacketConsumer), AllocError>
    ensures fresh { IfOk result (λ r. IsFreshPath spec.now ring_len r.0 r.1) }
    ensures channel { IfOk result (λ r. OpensPath channels.old r.0.sender channels.new) }
{
    let sender = channels.path_channel(alloc)?;
    let (ring, side) = open_packets(alloc, spec.payload_len(), ring_len)?;
    let end = PathEnd {
        spec: *spec,
        ring,
        counts: PathCounts::new(),
        sender,
    };
    Ok((end, side))
}

/// Opens the rings of a stream's paths. Appends the paths' ends to `paths` and returns the consumers.
fn open_paths(
    alloc: Global,
    spec: &StreamSpec,
    ring_len: usize,
    paths: &mut Vec<PathEnd>,
    channels: &mut StatsChannels,
) -> Result<Vec<PacketConsumer>, AllocError>
    ensures fresh { IfOk result (λ sides. (own : List PathEnd) × (paths.new.items ≡ paths.old.items ++ own)
        × (length own ≡ spec.now.paths) × (vec_len sides ≡ spec.now.paths)
        × AllFreshPaths spec.now ring_len own sides.items) }
    ensures channels { IfOk result (λ _. (streams : List StreamEnd) → HaveChannels paths.old.items streams channels.old
        → HaveChannels paths.new.items streams channels.new) }
    ensures wanted { OnOk result (channels.new.are_wanted ≡ channels.old.are_wanted) }
{
    let mut sides = Vec::new(alloc);
    for _ in 0..spec.paths() {
        let (end, side) = open_path(alloc, spec, ring_len, channels)?;
        paths.push(end)?;
        sides.push(side)?;
    }
    Ok(sides)
}

/// Makes a stream's merge and opens its rings of marks and counts.
fn open_stream(
    alloc: Global,
    spec: &StreamSpec,
    open_at: i64,
    sides: Vec<PacketConsumer>,
    ring_len: usize,
    channels: &mut StatsChannels,
) -> Result<(StreamEnd, MonitorEnd, MarkConsumer), AllocError>
    requires not_low { pos 0 ≤ℤ open_at }
    requires not_high { open_at ≤ℤ pos (2 ^ 60) }
    requires paths { vec_len sides ≡ spec.now.paths }
    ensures fresh { (own : List PathEnd) → length own ≡ spec.now.paths → AllFreshPaths spec.now ring_len own sides.items
        → IfOk result (λ r. IsFreshStream open_at ring_len spec.now own r.0) }
    ensures rings { IfOk result (λ r. AreFreshRings ring_len r.0 r.1 r.2) }
    ensures channel { IfOk result (λ r. OpensStream spec.now channels.old r.0.sender channels.new) }
{
    let sender = channels.stream_channel(alloc, spec)?;
    let merge = Merge::new(alloc, *spec, open_at)?;
    // Called for its contract: a payload has at most 1,440 octets, which `open_marks` requires.
    let _len = spec.payload_len();
    let format = spec.format();
    let (marks, side) = open_marks(alloc, format, ring_len)?;
    let (monitor, look) = RingBuffer::new(alloc, ring_len)?;
    let end = StreamEnd {
        spec: *spec,
        sides,
        marks,
        monitor,
        merge,
        sender,
    };
    Ok((end, MonitorEnd { ring: look }, side))
}

/// Opens the ends of a stream and appends them to those of the streams before it.
fn add_stream(
    alloc: Global,
    spec: &StreamSpec,
    open_at: i64,
    ring_len: usize,
    ends: &mut StreamEnds,
    channels: &mut StatsChannels,
) -> Result<(), AllocError>
    requires not_low { pos 0 ≤ℤ open_at }
    requires not_high { open_at ≤ℤ pos (2 ^ 60) }
    ensures fresh { OnOk result (AddsStream open_at ring_len spec.now ends.old ends.new) }
    ensures channels { OnOk result (HaveChannels ends.old.paths.items ends.old.streams.items channels.old
        → HaveChannels ends.new.paths.items ends.new.streams.items channels.new) }
    ensures wanted { OnOk result (channels.new.are_wanted ≡ channels.old.are_wanted) }
{
    let sides = open_paths(alloc, spec, ring_len, &mut ends.paths, channels)?;
    let (end, monitor, side) = open_stream(alloc, spec, open_at, sides, ring_len, channels)?;
    ends.streams.push(end)?;
    ends.monitors.push(monitor)?;
    ends.marks.push(side)?;
    Ok(())
}

/// Opens the ends of all streams.
fn open_streams(
    alloc: Global,
    specs: &[StreamSpec],
    open_at: i64,
    ring_len: usize,
    channels: &mut StatsChannels,
) -> Result<StreamEnds, AllocError>
    requires not_low { pos 0 ≤ℤ open_at }
    requires not_high { open_at ≤ℤ pos (2 ^ 60) }
    ensures fresh { IfOk result (λ ends. AreFreshEnds open_at ring_len specs.now ends) }
    ensures channels { IfOk result (λ ends. HaveChannels [] [] channels.old
        → HaveChannels ends.paths.items ends.streams.items channels.new) }
    ensures wanted { OnOk result (channels.new.are_wanted ≡ channels.old.are_wanted) }
{
    let mut ends = StreamEnds {
        paths: Vec::new(alloc),
        streams: Vec::new(alloc),
        monitors: Vec::new(alloc),
        marks: Vec::new(alloc),
    };
    for spec in specs {
        add_stream(alloc, spec, open_at, ring_len, &mut ends, channels)?;
    }
    Ok(ends)
}

/// Makes the mixer's end over the rings of all streams' marks.
fn open_mix(
    alloc: Global,
    studio: &StudioSpec,
    sides: Vec<MarkConsumer>,
    channels: &mut StatsChannels,
) -> Result<MixEnd, AllocError>
    requires sound { IsStudio studio.now }
    requires unread { AllUnread studio.now.streams sides.items }
    ensures fresh { IfOk result (λ mix. (mix.sides ≡ sides) × HasGiven studio.now mix []) }
    ensures channel { IfOk result (λ mix. OpensMix channels.old mix.sender channels.new) }
{
    let output = studio.output();
    let sender = channels.mix_channel(alloc, output)?;
    let mixer = Mixer::new(alloc, studio)?;
    // Called for its contract: the output is within its limits, which the end's facts need.
    let _frames = output.frames();
    Ok(MixEnd {
        sides,
        mixer,
        sender,
    })
}

/// Opens the ends of all paths, streams and monitors, and of the mixer.
fn open_ends(
    alloc: Global,
    studio: &StudioSpec,
    ring_len: usize,
    channels: &mut StatsChannels,
) -> Result<Ends, AllocError>
    ensures opened { IfOk result (λ ends. AreOpened studio.now ring_len ends) }
    ensures receivers { IfOk result (λ ends. HaveChannels [] [] channels.old → channels.old.are_wanted ≡ true
        → HaveReceivers ends channels.new.receivers) }
    ensures silent { IfOk result (λ ends. HaveChannels [] [] channels.old → channels.old.are_wanted ≡ false
        → HaveNoSender ends) }
{
    let StreamEnds {
        paths,
        streams,
        monitors,
        marks,
    } = open_streams(
        alloc,
        studio.streams(),
        studio.open_at(),
        ring_len,
        channels,
    )?;
    let mix = open_mix(alloc, studio, marks, channels)?;
    Ok(Ends {
        paths,
        streams,
        monitors,
        mix,
    })
}

/// Opens the rings of a studio, each with `ring_len` places, 1 to 65,536.
///
/// Allocates all memory that the ends need: no call of an end allocates. Each end may go to a thread of its own.
/// Returns `OpenFault::RingLength` if `ring_len` is out of range, and `OpenFault::Memory` if an allocation fails.
pub fn open(alloc: Global, studio: &StudioSpec, ring_len: usize) -> Result<Ends, OpenFault>
    ensures opened { IfOk result (λ ends. AreOpened studio.now ring_len ends) }
    ensures silent { IfOk result HaveNoSender }
    ensures places { IfOk result (λ ends. (1 ≤ ring_len) × (ring_len ≤ 65536)) }
    ensures fault { IfErr result (λ fault. fault ≡ open_fault_of ring_len) }
{
    open_with(
        alloc,
        studio,
        ring_len,
        &mut StatsChannels::new(alloc, false),
    )
}

/// Opens the rings of a studio as `open` does, and the channels that report the statistics of each path, each stream
/// and the mix.
pub fn open_with_stats(
    alloc: Global,
    studio: &StudioSpec,
    ring_len: usize,
) -> Result<(Ends, StatsReceivers), OpenFault>
    ensures opened { IfOk result (λ r. AreOpened studio.now ring_len r.0) }
    ensures receivers { IfOk result (λ r. HaveReceivers r.0 r.1) }
    ensures places { IfOk result (λ r. (1 ≤ ring_len) × (ring_len ≤ 65536)) }
    ensures fault { IfErr result (λ fault. fault ≡ open_fault_of ring_len) }
{
    let mut channels = StatsChannels::new(alloc, true);
    let ends = open_with(alloc, studio, ring_len, &mut channels)?;
    Ok((ends, channels.receivers))
}

/// Opens the rings, and the channels of statistics if they are wanted.
fn open_with(
    alloc: Global,
    studio: &StudioSpec,
    ring_len: usize,
    channels: &mut StatsChannels,
) -> Result<Ends, OpenFault>
    ensures opened { IfOk result (λ ends. AreOpened studio.now ring_len ends) }
    ensures receivers { IfOk result (λ ends. HaveChannels [] [] channels.old → channels.old.are_wanted ≡ true
        → HaveReceivers ends channels.new.receivers) }
    ensures silent { IfOk result (λ ends. HaveChannels [] [] channels.old → channels.old.are_wanted ≡ false
        → HaveNoSender ends) }
    ensures places { IfOk result (λ ends. (1 ≤ ring_len) × (ring_len ≤ 65536)) }
    ensures fault { IfErr result (λ fault. fault ≡ open_fault_of ring_len) }
{
    if ring_len < 1 || 65536 < ring_len {
        return Err(OpenFault::RingLength);
    }
    open_ends(alloc, studio, ring_len, channels).map_err(|_| OpenFault::Memory)
}
