//! The mixer of a studio's streams, which works block by block.
ghost use Rattle.std.specs.Prelude.{
  ◌≡◌,
  ℕ,
  ℤ,
  pos,
  ◌+◌,
  ◌*◌,
  ◌^◌,
  ◌<◌,
  ◌≤◌,
  ◌≤ℤ◌,
  true,
  not,
  List,
  ◌∷◌,
  [],
  ◌++◌,
  length,
  map,
  drop,
  replicate,
  slice_get,
  slice_set,
  All,
  Some,
  None,
  is_some,
  IfErr,
  IfOk,
  IfSome,
  OnErr,
  OnOk,
};
ghost use Rattle.rtp_stream.specs.StreamSpecFacts.{format_of};
ghost use Rattle.rtp_stream.specs.MarkList.{is_mark_list};
ghost use Rattle.gain_mix.specs.Changes.{matrix_at};
ghost use Rattle.lane_align.specs.Cover.{covers, cover_of};
ghost use Rattle.mix_packets.specs.OutSpec.{datagram_length};
ghost use Rattle.mix_packets.specs.Block.{block_start};
ghost use Rattle.studio_mix.specs.Lanes.{IsReadyLane};
ghost use Rattle.studio_mix.specs.LaneCapacity.{capacity_for, capacity_of, capacities_of};
ghost use Rattle.studio_config.specs.Studio.{Studio};
ghost use Rattle.studio_mix.specs.Feed.{Feed, unfed};
ghost use Rattle.studio_mix.specs.Ready.{is_ready};
ghost use Rattle.studio_mix.specs.Output.{block_inputs, datagram_of};
ghost use Rattle.studio_mix.specs.Missing.{missing_in};
ghost use Rattle.studio_mix.specs.Saturated.{AreSaturated};
ghost use Rattle.studio_mix.specs.Changed.{gains_fault_of, with_gains};

use crate::lane_capacity::greatest_lag;
use crate::lanes::{are_covered, new_lanes, reach_past, read_lanes};
use crate::missing::missing_among;
use gain_mix::{ChangeFault, LiveSchedule, Matrix, mix_counted};
use lane_align::Lane;
use mix_packets::{OutSpec, Packer};
use rtp_stream::{Mark, MarkRef};
use std::alloc::{AllocError, Global};
use std::marker::Model;
use studio_config::StudioSpec;
use studio_io::{Missing, MixedBlock};

/// A mixer of a studio's streams: a lane for each stream, the gains and the output, block by block.
///
/// While the mixer `wants` a mark of a stream, `feed` takes one that it `accepts`. `feed_ref` and `accepts_ref` do so
/// with a borrowed mark. `keep_ref` takes a mark before it is wanted, if the mixer `has_space` for it. `next_block`
/// writes the next datagram; `inputs` and `missing` then return of which samples it was mixed, and which streams are
/// missing in it. `change_gains` changes the gains from a time on that is not before the next block. Only
/// `new` and `for_early_marks` allocate.
#[derive(Drop)]
pub struct Mixer {
    lanes: Vec<Lane>,
    schedule: LiveSchedule,
    output: OutSpec,
    packer: Packer,
    /// The media time of the next block, in sampling instants.
    time: i64,
    /// Space for one stream's block, for the frames of all streams, and for the output's block.
    one: Vec<i32>,
    ins: Vec<i32>,
    outs: Vec<i32>,
    /// The saturated samples so far, channel by channel.
    saturated: Vec<u64>,
    /// The streams that were missing in the last block.
    missing: Missing,
}

impl Model for Mixer {
    ghost use Rattle.studio_mix.specs.Mixer.{MixerState, IsMixer};

    ghost Value = { MixerState };

    ghost view = { λ m.
        record { lanes = m.lanes.items; schedule = m.schedule; packer = m.packer; saturated = m.saturated.items; inputs = m.ins.items; missing = m.missing } };

    ghost invariant = { λ m. IsMixer (view m) m.output m.time m.one.items m.ins.items m.outs.items };
}

impl Mixer {
    ghost use Rattle.studio_mix.specs.Mixer.{MixerState, HasFeeds, has_space_of, is_wanted_by, is_next_of};

    /// Returns a mixer of a studio's streams, without marks.
    pub fn new(alloc: Global, spec: &StudioSpec) -> Result<Mixer, AllocError>
        ensures { IfOk result (λ mixer. HasFeeds spec.now mixer (unfed spec.now.streams) 0) }
    {
        Mixer::with_lag(alloc, spec, 0)
    }

    /// Returns a mixer as `new` does, with space for all marks that the streams' merges produce up to one time, though
    /// a block wants only some of them.
    ///
    /// Each lane has space for a block, a packet, and the frames by which the stream that lags most, by its latency
    /// and a window of packets, may be behind this one.
    pub fn for_early_marks(alloc: Global, spec: &StudioSpec) -> Result<Mixer, AllocError>
        ensures stands { IfOk result (λ mixer. HasFeeds spec.now mixer (unfed spec.now.streams) 0) }
        ensures capacities { IfOk result (λ mixer. capacities_of mixer.lanes ≡ map
            (capacity_of spec.now) spec.now.streams) }
    {
        Mixer::with_lag(alloc, spec, greatest_lag(spec.streams()))
    }

    /// Returns a mixer with space in each lane next to a stream of this lag, in frames.
    fn with_lag(alloc: Global, spec: &StudioSpec, lag: u32) -> Result<Mixer, AllocError>
        requires short { lag ≤ 2 ^ 23 }
        ensures stands { IfOk result (λ mixer. HasFeeds spec.now mixer (unfed spec.now.streams) 0) }
        ensures capacities { IfOk result (λ mixer. capacities_of mixer.lanes
            ≡ map (capacity_for lag spec.now.output.frames) spec.now.streams) }
    {
        let output = *spec.output();
        let start = output.start();
        let frames = usize::from(output.frames());
        let lanes = new_lanes(alloc, spec.streams(), start, output.frames(), lag)?;
        let schedule = LiveSchedule::new(alloc, spec.schedule(), start)?;
        // A stream has at most 64 channels.
        let one = zeroed(alloc, frames * 64)?;
        let ins = zeroed(alloc, frames * schedule.ins())?;
        let outs = zeroed(alloc, frames * usize::from(output.channels()))?;
        let saturated = Vec::from_elem(alloc, 0u64, usize::from(output.channels()))?;
        Ok(Mixer {
            lanes,
            schedule,
            output,
            packer: Packer::new(output),
            time: start,
            one,
            ins,
            outs,
            saturated,
            missing: Missing::NOTHING,
        })
    }

    /// Returns the number of streams.
    pub fn streams(&self) -> usize
        ensures value { result ≡ length self.now.lanes }
        ensures stands { (studio : Studio) (feeds : List Feed) (number : ℕ)
            → HasFeeds studio self.now feeds number → result ≡ length feeds }
        ensures some { 1 ≤ result }
    {
        self.lanes.len()
    }

    /// Returns the output.
    pub fn output(&self) -> &OutSpec
        ensures value { result.now ≡ self.now.packer.spec }
        ensures stands { (studio : Studio) (feeds : List Feed) (number : ℕ)
            → HasFeeds studio self.now feeds number → result.now ≡ studio.output }
    {
        &self.output
    }

    /// Returns the number of saturated samples of each output channel in the datagrams so far: sums that, once
    /// rounded, did not fit the output's encoding.
    pub fn saturated(&self) -> &[u64]
        ensures value { result.now ≡ self.now.saturated }
        ensures few { length result.now ≤ 8 }
        ensures stands { (studio : Studio) (feeds : List Feed) (number : ℕ)
            → HasFeeds studio self.now feeds number → AreSaturated studio feeds number result.now }
    {
        self.saturated.as_slice()
    }

    /// Returns the samples of all channels of all streams in the last block, before any gain: frame by frame, in each
    /// frame stream after stream. Before the first block they are 0.
    pub fn inputs(&self) -> &[i32]
        ensures value { result.now ≡ self.now.inputs }
        ensures stands { (studio : Studio) (feeds : List Feed) (number : ℕ)
            → HasFeeds studio self.now feeds (number + 1) → result.now ≡ block_inputs studio feeds number }
    {
        self.ins.as_slice()
    }

    /// Returns what was missing in the last block. Before the first block nothing is.
    pub fn missing(&self) -> Missing
        ensures value { result ≡ self.now.missing }
        ensures stands { (studio : Studio) (feeds : List Feed) (number : ℕ)
            → HasFeeds studio self.now feeds (number + 1) → result ≡ missing_in studio feeds number }
    {
        self.missing
    }

    /// Returns the last block: its inputs, and what was missing in it.
    pub fn last_block(&self) -> MixedBlock<'_>
        ensures inputs { result.inputs.now ≡ self.now.inputs }
        ensures missing { result.missing ≡ self.now.missing }
    {
        MixedBlock {
            inputs: self.inputs(),
            missing: self.missing(),
        }
    }

    /// Returns the media time at which the next block ends, in sampling instants.
    pub fn block_end(&self) -> i64
        ensures { (studio : Studio) (feeds : List Feed) (number : ℕ)
            → HasFeeds studio self.now feeds number → result ≡ block_start studio.output (number + 1) }
    {
        self.time + i64::from(self.output.frames())
    }

    /// Returns the media time at which the next block begins, in sampling instants: the first time whose gains can
    /// still change.
    pub fn next_block_start(&self) -> i64
        ensures value { result ≡ block_start self.now.packer.spec self.now.packer.number }
        ensures stands { (studio : Studio) (feeds : List Feed) (number : ℕ)
            → HasFeeds studio self.now feeds number → result ≡ block_start studio.output number }
    {
        self.time
    }

    /// Returns the gains in force at a time, if it isn't before the next block; else those of the next block's start.
    pub fn gains(&self, at: i64) -> &Matrix
        ensures value { result.now ≡ matrix_at self.now.schedule at }
        ensures stands { (studio : Studio) (feeds : List Feed) (number : ℕ)
            → HasFeeds studio self.now feeds number → block_start studio.output number ≤ℤ at
            → result.now ≡ matrix_at studio.schedule at }
    {
        self.schedule.at(at)
    }

    /// Changes the gains: from `at` on these are in force, row by row, a row for each output channel. They replace
    /// every change that was planned from then on. No block that was returned changes.
    pub fn change_gains(&mut self, at: i64, gains: &[i32]) -> Result<(), ChangeFault>
        ensures stands { OnOk result ((studio : Studio) (feeds : List Feed) (number : ℕ)
            → HasFeeds studio self.old feeds number
            → HasFeeds (with_gains studio at gains.now) self.new feeds number) }
        ensures later { OnOk result (block_start self.old.packer.spec self.old.packer.number ≤ℤ at) }
        ensures fine { OnOk result (gains_fault_of self.old at gains.now ≡ None) }
        ensures fault { IfErr result (λ fault. gains_fault_of self.old at gains.now ≡ Some fault) }
        ensures kept { OnErr result (self.new ≡ self.old) }
        ensures packer { self.new.packer ≡ self.old.packer }
        ensures lanes { self.new.lanes ≡ self.old.lanes }
        ensures saturated { self.new.saturated ≡ self.old.saturated }
        ensures inputs { self.new.inputs ≡ self.old.inputs }
        ensures missing { self.new.missing ≡ self.old.missing }
    {
        self.schedule.change(self.time, at, gains)
    }

    /// Returns true if the next block needs more marks of a stream.
    pub fn wants(&self, stream: usize) -> bool
        requires { stream < length self.now.lanes }
        ensures value { result ≡ is_wanted_by self.now stream }
        ensures stands { (studio : Studio) (feeds : List Feed) (number : ℕ) (feed : Feed)
            → HasFeeds studio self.now feeds number → slice_get feeds stream ≡ Some feed
            → result ≡ not (covers (cover_of (format_of feed.stream) feed.marks)
            (block_start studio.output (number + 1))) }
    {
        let lane = &self.lanes[stream];
        let end = self.time + i64::from(self.output.frames());
        lane.wants(end)
    }

    /// Returns true if a mark may follow those of its stream.
    pub fn accepts(&self, stream: usize, mark: &Mark) -> bool
        requires { stream < length self.now.lanes }
        ensures value { result ≡ is_next_of self.now stream mark.now }
        ensures stands { (studio : Studio) (feeds : List Feed) (number : ℕ) (feed : Feed)
            → HasFeeds studio self.now feeds number → slice_get feeds stream ≡ Some feed
            → result ≡ is_mark_list (format_of feed.stream) (feed.marks ++ mark.now ∷ []) }
    {
        self.accepts_ref(stream, &mark.as_ref())
    }

    /// Returns true if a borrowed mark may follow those of its stream.
    pub fn accepts_ref(&self, stream: usize, mark: &MarkRef<'_>) -> bool
        requires { stream < length self.now.lanes }
        ensures value { result ≡ is_next_of self.now stream mark.now }
        ensures stands { (studio : Studio) (feeds : List Feed) (number : ℕ) (feed : Feed)
            → HasFeeds studio self.now feeds number → slice_get feeds stream ≡ Some feed
            → result ≡ is_mark_list (format_of feed.stream) (feed.marks ++ mark.now ∷ []) }
    {
        let lane = &self.lanes[stream];
        lane.accepts_ref(mark)
    }

    /// Takes the next mark of a stream.
    pub fn feed(&mut self, stream: usize, mark: Mark)
        requires accepted { is_next_of self.old stream mark ≡ true }
        requires wanted { is_wanted_by self.old stream ≡ true }
        ensures stands { (studio : Studio) (feeds : List Feed) (number : ℕ) (feed : Feed)
            → HasFeeds studio self.old feeds number → slice_get feeds stream ≡ Some feed
            → HasFeeds studio self.new (slice_set feeds stream
            (record { stream = feed.stream; marks = feed.marks ++ mark ∷ [] })) number }
        ensures packer { self.new.packer ≡ self.old.packer }
        ensures streams { length self.new.lanes ≡ length self.old.lanes }
        ensures capacities { capacities_of self.new.lanes ≡ capacities_of self.old.lanes }
        ensures inputs { self.new.inputs ≡ self.old.inputs }
        ensures missing { self.new.missing ≡ self.old.missing }
    {
        self.feed_ref(stream, &mark.as_ref());
    }

    /// Takes the next mark of a stream, which is borrowed.
    pub fn feed_ref(&mut self, stream: usize, mark: &MarkRef<'_>)
        requires accepted { is_next_of self.old stream mark.now ≡ true }
        requires wanted { is_wanted_by self.old stream ≡ true }
        ensures stands { (studio : Studio) (feeds : List Feed) (number : ℕ) (feed : Feed)
            → HasFeeds studio self.old feeds number → slice_get feeds stream ≡ Some feed
            → HasFeeds studio self.new (slice_set feeds stream
            (record { stream = feed.stream; marks = feed.marks ++ mark.now ∷ [] })) number }
        ensures packer { self.new.packer ≡ self.old.packer }
        ensures streams { length self.new.lanes ≡ length self.old.lanes }
        ensures capacities { capacities_of self.new.lanes ≡ capacities_of self.old.lanes }
        ensures inputs { self.new.inputs ≡ self.old.inputs }
        ensures missing { self.new.missing ≡ self.old.missing }
    {
        let lane = &mut self.lanes[stream];
        lane.feed_ref(mark);
    }

    /// Returns true if a stream's lane has space for a mark, though none may be wanted.
    pub fn has_space(&self, stream: usize, mark: &MarkRef<'_>) -> bool
        requires { stream < length self.now.lanes }
        ensures value { result ≡ has_space_of self.now stream mark.now }
    {
        let lane = &self.lanes[stream];
        lane.has_space(mark)
    }

    /// Takes the next mark of a stream, borrowed, whether or not one is wanted. The lane has to have space for it.
    pub fn keep_ref(&mut self, stream: usize, mark: &MarkRef<'_>)
        requires accepted { is_next_of self.old stream mark.now ≡ true }
        requires space { has_space_of self.old stream mark.now ≡ true }
        ensures stands { (studio : Studio) (feeds : List Feed) (number : ℕ) (feed : Feed)
            → HasFeeds studio self.old feeds number → slice_get feeds stream ≡ Some feed
            → HasFeeds studio self.new (slice_set feeds stream
            (record { stream = feed.stream; marks = feed.marks ++ mark.now ∷ [] })) number }
        ensures packer { self.new.packer ≡ self.old.packer }
        ensures streams { length self.new.lanes ≡ length self.old.lanes }
        ensures capacities { capacities_of self.new.lanes ≡ capacities_of self.old.lanes }
        ensures inputs { self.new.inputs ≡ self.old.inputs }
        ensures missing { self.new.missing ≡ self.old.missing }
    {
        let lane = &mut self.lanes[stream];
        lane.keep_ref(mark);
    }

    /// Returns true if the next block is final and within the streams.
    fn is_ready(&self) -> bool
        ensures stands { (studio : Studio) (feeds : List Feed) (number : ℕ)
            → HasFeeds studio self.now feeds number → result ≡ is_ready studio.output feeds number }
        ensures lanes { result ≡ true → All (IsReadyLane self.now.packer.spec.frames) self.now.lanes }
        ensures early { result ≡ true → block_start self.now.packer.spec self.now.packer.number ≤ℤ pos (2 ^ 61 + 192) }
    {
        let end = self.time + i64::from(self.output.frames());
        // Once every stream has ended, all blocks are final. The second test ends them with the longest stream.
        are_covered(self.lanes.as_slice(), end) && reach_past(self.lanes.as_slice(), self.time, end)
    }

    /// Writes the next datagram to the start of `out` and returns its length in octets, or returns `None` and changes
    /// nothing if its block isn't ready.
    pub fn next_block(&mut self, out: &mut [u8]) -> Option<usize>
        requires space { datagram_length self.old.packer.spec ≤ length out.old }
        ensures ready { (studio : Studio) (feeds : List Feed) (number : ℕ)
            → HasFeeds studio self.old feeds number → is_some result ≡ is_ready studio.output feeds number }
        ensures none { result ≡ None → (self.new ≡ self.old) × (out.new ≡ out.old) }
        ensures some { IfSome result (λ len. (studio : Studio) (feeds : List Feed) (number : ℕ)
            → HasFeeds studio self.old feeds number
            → (len ≡ datagram_length studio.output)
            × (out.new ≡ datagram_of studio feeds number ++ drop len out.old)
            × HasFeeds studio self.new feeds (number + 1)) }
        ensures len { IfSome result (λ len. len ≡ datagram_length self.old.packer.spec) }
        ensures number { IfSome result (λ _. self.new.packer.number ≡ self.old.packer.number + 1) }
        ensures early { IfSome result
            (λ _. block_start self.old.packer.spec self.old.packer.number ≤ℤ pos (2 ^ 61 + 192)) }
        ensures spec { self.new.packer.spec ≡ self.old.packer.spec }
        ensures streams { length self.new.lanes ≡ length self.old.lanes }
        ensures capacities { capacities_of self.new.lanes ≡ capacities_of self.old.lanes }
    {
        if !self.is_ready() {
            return None;
        }
        let frames = usize::from(self.output.frames());
        let width = self.schedule.ins();
        read_lanes(
            self.lanes.as_mut_slice(),
            self.one.as_mut_slice(),
            frames,
            width,
            self.ins.as_mut_slice(),
        );
        mix_counted(
            &self.schedule,
            self.time,
            self.ins.as_slice(),
            self.outs.as_mut_slice(),
            frames,
            self.output.shift(),
            self.saturated.as_mut_slice(),
        );
        let len = self.packer.next(self.outs.as_slice(), out);
        self.missing = missing_among(self.lanes.as_slice(), &self.schedule, self.time);
        self.time += i64::from(self.output.frames());
        self.schedule.pass(self.time);
        Some(len)
    }
}

/// Returns silence of `samples` samples.
fn zeroed(alloc: Global, samples: usize) -> Result<Vec<i32>, AllocError>
    ensures { IfOk result (λ values. values.items ≡ replicate samples (pos 0)) }
{
    let mut values = Vec::new(alloc);
    values.resize(samples, 0)?;
    Ok(values)
}
