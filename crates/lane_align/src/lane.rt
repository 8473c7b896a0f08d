//! One stream's marks as frames at media times.
ghost use Rattle.std.specs.Prelude.{
  ◌≡◌,
  ◌+◌,
  ◌*◌,
  ◌^◌,
  ◌<◌,
  ◌≤◌,
  [],
  ◌∷◌,
  ◌++◌,
  List,
  ℤ,
  ℕ,
  pos,
  ◌+ℤ◌,
  ◌≤ℤ◌,
  ◌<ℤ◌,
  true,
  false,
  not,
  ◌||◌,
  Some,
  length,
  option_copied,
  IfOk,
};
ghost use Rattle.rtp_stream.specs.declared.stream_spec.Stream.{Stream};
ghost use Rattle.rtp_stream.specs.StreamSpecFacts.{format_of};
ghost use Rattle.rtp_wire.specs.PacketTime.{is_packet_time};
ghost use Rattle.rtp_stream.specs.MarkFacts.{MarkView, HasLength, payload_length};
ghost use Rattle.rtp_stream.specs.MarkList as list;
ghost use Rattle.rtp_stream.specs.MarkRef.{body_from, kind_of};
ghost use Rattle.rtp_stream.specs.declared.mark.Body.{Body};
ghost use Rattle.rtp_stream.specs.declared.mark.MarkKind.TheVariants.{Slot};
ghost use Rattle.lane_align.specs.Value.{frames_from};
ghost use Rattle.lane_align.specs.Presence.{presence_from};
ghost use Rattle.lane_align.specs.Cover.{cover_of, end_of, covers, time_reached, IsSmallCover};
ghost use Rattle.std.specs.List.{All};
ghost use Rattle.rtp_wire.specs.Sample.{Is24Bits};
ghost use Rattle.lane_align.specs.Lane as state;
ghost use Rattle.lane_align.specs.Lane.{IsSlot, IsAfter, with_slot};

use crate::cover::Cover;
use crate::frame_queue::FrameQueue;
use crate::last_slot::{
    LastSlot, frames_before, frames_between, frames_left, may_follow_slot, time_reached_by,
};
use crate::presence::{BlockPresence, NO_BLOCK, add_presence, append_presence, read_presence};
use crate::slot_samples::{EMPTY_SLOT, SlotBuffer, add_slot, append_slot};
use rtp_stream::{Mark, MarkKindRef, MarkRef, PacketFormat, StreamSpec};
use rtp_wire::Enc;
use std::alloc::{AllocError, Global};
use std::marker::Model;

/// The values of one stream, whose marks are taken one by one and whose values are read block by block.
///
/// Inputs: `feed`, with a mark that the lane `accepts`, while it `wants` one for the next block; `feed_ref` and
/// `accepts_ref` with a borrowed mark; `keep_ref` if it `has_space`, though it wants no mark.
/// Outputs: `read_block`, once it wants no mark for the block. Readers: `cover`, `end`, `position`.
#[derive(Drop)]
pub struct Lane {
    format: PacketFormat,
    start: i64,
    block: u16,
    position: i64,
    slot: Option<LastSlot>,
    quiet: Option<i64>,
    ended: bool,
    /// The number of frames from the position on that may be stored.
    capacity: u32,
    values: FrameQueue,
    /// The presence of the same frames, as one channel: 1 where a packet came.
    presence: FrameQueue,
    /// The presence of the frames of the block that was read last.
    present: BlockPresence,
    /// The buffer into which a slot's samples are read, on their way to the values.
    // Kept, so that it isn't blanked for each slot.
    samples: SlotBuffer,
}

impl Model for Lane {
    ghost use Rattle.std.specs.Prelude.{take};
    ghost use Rattle.lane_align.specs.Lane.{LaneState, IsLane};

    ghost Value = { LaneState };

    ghost view = { λ l. record { format = l.format; start = l.start; block = l.block; position = l.position; slot = l.slot; quiet = l.quiet; ended = l.ended; capacity = l.capacity; values = l.values.values; presence = l.presence.values; present = take l.block l.present } };

    ghost invariant = { λ l. IsLane (view l) l.values l.presence };
}

/// Returns true if the samples of two streams have the same layout.
fn is_same_format(a: PacketFormat, b: PacketFormat) -> bool
    ensures { result ≡ list.is_same_format a b }
{
    let same_encoding = match (a.enc, b.enc) {
        (Enc::L16, Enc::L16) | (Enc::L24, Enc::L24) => true,
        _ => false,
    };
    same_encoding && a.channels == b.channels && a.frames == b.frames
}

impl Lane {
    ghost use Rattle.lane_align.specs.Lane.{
      LaneState,
      HasFeed,
      HasSameFacts,
      cover_at,
      end_at,
      is_wanting,
      is_next,
      has_space_for,
      last_kind,
    };
    ghost use Rattle.rtp_stream.specs.MarkFacts.{IsMark};

    /// Returns a lane that begins at media time `start`, in sampling instants, and returns blocks of `block` frames,
    /// or an error if its allocation fails.
    pub fn new(alloc: Global, spec: StreamSpec, start: i64, block: u16) -> Result<Lane, AllocError>
        requires not_low { pos 0 ≤ℤ start }
        requires not_high { start ≤ℤ pos (2 ^ 60) }
        requires block { is_packet_time block ≡ true }
        ensures { IfOk result (λ lane. HasFeed spec start block lane [] start) }
    {
        // A lane that takes a mark only while its next block wants one never holds more than a block and a packet.
        let capacity = u32::from(block) + u32::from(spec.frames());
        Lane::with_capacity(alloc, spec, start, block, capacity)
    }

    /// Returns a lane as `new` does, with a capacity of `capacity` frames from its position on: for marks that come
    /// before they are wanted.
    ///
    /// `capacity` is at least a block and a packet, and at most 2^24 frames.
    pub fn with_capacity(
        alloc: Global,
        spec: StreamSpec,
        start: i64,
        block: u16,
        capacity: u32,
    ) -> Result<Lane, AllocError>
        requires not_low { pos 0 ≤ℤ start }
        requires not_high { start ≤ℤ pos (2 ^ 60) }
        requires block { is_packet_time block ≡ true }
        requires enough { block + spec.frames ≤ capacity }
        requires few { capacity ≤ 2 ^ 24 }
        ensures stands { IfOk result (λ lane. HasFeed spec start block lane [] start) }
        ensures space { IfOk result (λ lane. lane.capacity ≡ capacity) }
    {
        let format = spec.format();
        let channels = usize::from(spec.channels());
        let more = capacity - u32::from(block);
        let values = FrameQueue::new(alloc, channels, usize::from(block), more as usize)?;
        let presence = FrameQueue::new(alloc, 1, usize::from(block), more as usize)?;
        Ok(Lane {
            format,
            start,
            block,
            position: start,
            slot: None,
            quiet: None,
            ended: false,
            capacity,
            values,
            presence,
            present: NO_BLOCK,
            samples: EMPTY_SLOT,
        })
    }

    /// Returns the layout of the samples in its stream's packets.
    pub fn format(&self) -> PacketFormat
        ensures value { result ≡ self.now.format }
        ensures some { 0 < result.channels }
        ensures few { result.channels ≤ 64 }
    {
        self.format
    }

    /// Returns the media time at which the next block begins, in sampling instants.
    pub fn position(&self) -> i64
        ensures value { result ≡ self.now.position }
        ensures stands { (stream : Stream) (from : ℤ) (size : ℕ) (marks : List MarkView) (t : ℤ)
            → HasFeed stream from size self.now marks t → result ≡ t }
        ensures not_early { pos 0 ≤ℤ result }
        ensures not_late { result <ℤ pos (2 ^ 62 + 192) }
    {
        self.position
    }

    /// Returns the cover of the marks so far.
    pub fn cover(&self) -> Cover
        ensures value { result ≡ cover_at self.now }
        ensures stands { (stream : Stream) (from : ℤ) (size : ℕ) (marks : List MarkView) (t : ℤ)
            → HasFeed stream from size self.now marks t → result ≡ cover_of (format_of stream) marks }
        ensures small { IsSmallCover result }
    {
        if self.ended {
            return Cover::All;
        }
        match time_reached_by(self.format.frames, self.slot, self.quiet) {
            None => Cover::Nothing,
            Some(t) => Cover::Until(t),
        }
    }

    /// Returns the end of the marks so far, or the start if there were none. The stream need not have ended.
    pub fn end(&self) -> i64
        ensures value { result ≡ end_at self.now }
        ensures stands { (stream : Stream) (from : ℤ) (size : ℕ) (marks : List MarkView) (t : ℤ)
            → HasFeed stream from size self.now marks t → result ≡ end_of (format_of stream) from marks }
        ensures small { result ≤ℤ pos (2 ^ 61 + 192) }
    {
        time_reached_by(self.format.frames, self.slot, self.quiet).unwrap_or(self.start)
    }

    /// Returns true if some time before `t_end` isn't covered yet.
    pub fn wants(&self, t_end: i64) -> bool
        ensures value { result ≡ is_wanting self.now t_end }
        ensures stands { (stream : Stream) (from : ℤ) (size : ℕ) (marks : List MarkView) (t : ℤ)
            → HasFeed stream from size self.now marks t
            → result ≡ not (covers (cover_of (format_of stream) marks) t_end) }
    {
        !self.cover().covers(t_end)
    }

    /// Returns true if a mark may follow those so far.
    pub fn accepts(&self, mark: &Mark) -> bool
        ensures value { result ≡ is_next self.now mark.now }
        ensures stands { (stream : Stream) (from : ℤ) (size : ℕ) (marks : List MarkView) (t : ℤ)
            → HasFeed stream from size self.now marks t
            → result ≡ list.is_mark_list (format_of stream) (marks ++ mark.now ∷ []) }
    {
        self.accepts_ref(&mark.as_ref())
    }

    /// Returns true if a borrowed mark may follow those so far.
    pub fn accepts_ref(&self, mark: &MarkRef<'_>) -> bool
        ensures value { result ≡ is_next self.now mark.now }
        ensures stands { (stream : Stream) (from : ℤ) (size : ℕ) (marks : List MarkView) (t : ℤ)
            → HasFeed stream from size self.now marks t
            → result ≡ list.is_mark_list (format_of stream) (marks ++ mark.now ∷ []) }
    {
        is_same_format(mark.format(), self.format) && self.may_follow(mark.kind())
    }

    /// Returns true if a mark of this content may follow the last one.
    fn may_follow(&self, kind: MarkKindRef<'_>) -> bool
        requires { IsMark self.now.format (kind_of kind) }
        ensures { result ≡ list.can_follow self.now.format.frames
            (last_kind self.now.ended self.now.slot self.now.quiet) (kind_of kind.entry) }
    {
        if self.ended {
            return false;
        }
        match kind {
            MarkKindRef::Slot {
                epoch,
                number,
                media,
                ..
            } => self.may_take_slot(epoch, number, media),
            MarkKindRef::Quiet { until } => match (self.slot, self.quiet) {
                (Some(_), _) => false,
                (None, Some(last)) => last < until,
                (None, None) => true,
            },
            MarkKindRef::End => true,
        }
    }

    /// Returns true if a slot may follow the last mark.
    fn may_take_slot(&self, epoch: u64, number: u64, media: i64) -> bool
        requires { self.now.ended ≡ false }
        ensures { (body : Body) → result
            ≡ list.can_follow self.now.format.frames (last_kind self.now.ended self.now.slot self.now.quiet)
            (Slot epoch number media body) }
    {
        match (self.slot, self.quiet) {
            (Some(slot), _) => may_follow_slot(slot, self.format.frames, epoch, number, media),
            (None, Some(until)) => until <= media,
            (None, None) => true,
        }
    }

    /// Takes the next mark.
    ///
    /// It has to be one that the lane accepts, while it wants one for the block at its position.
    pub fn feed(&mut self, mark: Mark)
        requires accepted { is_next self.old mark ≡ true }
        requires wanted { is_wanting self.old (self.old.position +ℤ pos self.old.block) ≡ true }
        ensures stands { (stream : Stream) (from : ℤ) (size : ℕ) (marks : List MarkView) (t : ℤ)
            → HasFeed stream from size self.old marks t → HasFeed stream from size self.new (marks ++ mark ∷ []) t }
        ensures facts { HasSameFacts self.old self.new }
        ensures position { self.new.position ≡ self.old.position }
    {
        self.feed_ref(&mark.as_ref());
    }

    /// Takes the next mark, which is borrowed: its samples are read without a copy of the payload.
    ///
    /// It has to be one that the lane accepts, while it wants one for the block at its position.
    pub fn feed_ref(&mut self, mark: &MarkRef<'_>)
        requires accepted { is_next self.old mark.now ≡ true }
        requires wanted { is_wanting self.old (self.old.position +ℤ pos self.old.block) ≡ true }
        ensures stands { (stream : Stream) (from : ℤ) (size : ℕ) (marks : List MarkView) (t : ℤ)
            → HasFeed stream from size self.old marks t → HasFeed stream from size self.new (marks ++ mark.now ∷ []) t }
        ensures facts { HasSameFacts self.old self.new }
        ensures position { self.new.position ≡ self.old.position }
    {
        self.take(mark);
    }

    /// Returns true if there is space for the frames of a mark, whether or not the lane wants one.
    ///
    /// A slot needs as many as lie between the lane's position and its end; no other mark needs any.
    pub fn has_space(&self, mark: &MarkRef<'_>) -> bool
        ensures value { result ≡ has_space_for self.now mark.now }
    {
        match mark.kind() {
            MarkKindRef::Slot { media, .. } => {
                let end = media + i64::from(self.format.frames);
                frames_between(self.position, end) <= u64::from(self.capacity)
            }
            MarkKindRef::Quiet { .. } => true,
            MarkKindRef::End => true,
        }
    }

    /// Takes the next mark, which is borrowed, whether or not the lane wants one.
    ///
    /// The lane has to accept the mark and to have space for it.
    pub fn keep_ref(&mut self, mark: &MarkRef<'_>)
        requires accepted { is_next self.old mark.now ≡ true }
        requires space { has_space_for self.old mark.now ≡ true }
        ensures stands { (stream : Stream) (from : ℤ) (size : ℕ) (marks : List MarkView) (t : ℤ)
            → HasFeed stream from size self.old marks t → HasFeed stream from size self.new (marks ++ mark.now ∷ []) t }
        ensures facts { HasSameFacts self.old self.new }
        ensures position { self.new.position ≡ self.old.position }
    {
        self.take(mark);
    }

    /// Takes the next mark. The lane has to want it or to have space for it.
    fn take(&mut self, mark: &MarkRef<'_>)
        requires accepted { is_next self.old mark.now ≡ true }
        requires fits { (is_wanting self.old (self.old.position +ℤ pos self.old.block)
            || has_space_for self.old mark.now) ≡ true }
        ensures stands { (stream : Stream) (from : ℤ) (size : ℕ) (marks : List MarkView) (t : ℤ)
            → HasFeed stream from size self.old marks t → HasFeed stream from size self.new (marks ++ mark.now ∷ []) t }
        ensures facts { HasSameFacts self.old self.new }
        ensures position { self.new.position ≡ self.old.position }
    {
        match mark.kind() {
            MarkKindRef::Slot {
                epoch,
                number,
                media,
                payload,
            } => {
                let slot = LastSlot {
                    epoch,
                    number,
                    media,
                };
                if self.has_space(mark) {
                    self.keep_slot(slot, payload);
                } else {
                    self.take_slot(slot, payload);
                }
            }
            MarkKindRef::Quiet { until } => self.quiet = Some(until),
            MarkKindRef::End => self.ended = true,
        }
    }

    /// Takes a slot after the last one. There is space for it and for the silence before it.
    fn keep_slot(&mut self, slot: LastSlot, payload: Option<&[u8]>)
        requires small { IsSlot (Some slot) }
        requires len { HasLength (payload_length self.old.format) (body_from (option_copied payload)) }
        requires after { IsAfter self.old.format.frames self.old.slot slot.media }
        requires space { state.frames_between self.old.position (slot.media +ℤ pos self.old.format.frames)
            ≤ self.old.capacity }
        ensures taken { self.new ≡ with_slot self.old slot (body_from (option_copied payload.entry)) }
        ensures left { length self.old.values
            ≡ state.frames_left self.old.format.frames self.old.position self.old.slot * self.old.format.channels }
        ensures came { length self.old.presence
            ≡ state.frames_left self.old.format.frames self.old.position self.old.slot * 1 }
    {
        let held = frames_left(self.format.frames, self.position, self.slot);
        let before = frames_between(self.position, slot.media) - held;
        let skipped = frames_before(self.format.frames, self.position, slot.media);
        append_slot(
            &mut self.values,
            &mut self.samples,
            before as usize,
            self.format,
            payload,
            skipped,
        );
        append_presence(
            &mut self.presence,
            before as usize,
            self.format.frames,
            payload,
            skipped,
        );
        self.slot = Some(slot);
    }

    /// Takes a slot after the last one, while the lane wants it. Silence past the next block is kept as a number.
    fn take_slot(&mut self, slot: LastSlot, payload: Option<&[u8]>)
        requires small { IsSlot (Some slot) }
        requires len { HasLength (payload_length self.old.format) (body_from (option_copied payload)) }
        requires after { IsAfter self.old.format.frames self.old.slot slot.media }
        requires wanted { is_wanting self.old (self.old.position +ℤ pos self.old.block) ≡ true }
        ensures taken { self.new ≡ with_slot self.old slot (body_from (option_copied payload.entry)) }
        ensures left { length self.old.values
            ≡ state.frames_left self.old.format.frames self.old.position self.old.slot * self.old.format.channels }
        ensures came { length self.old.presence
            ≡ state.frames_left self.old.format.frames self.old.position self.old.slot * 1 }
    {
        let held = frames_left(self.format.frames, self.position, self.slot);
        let before = frames_between(self.position, slot.media) - held;
        let stored = before.min(u64::from(self.block) - held);
        let skipped = frames_before(self.format.frames, self.position, slot.media);
        add_slot(
            &mut self.values,
            &mut self.samples,
            stored as usize,
            before - stored,
            self.format,
            payload,
            skipped,
        );
        add_presence(
            &mut self.presence,
            stored as usize,
            before - stored,
            self.format.frames,
            payload,
            skipped,
        );
        self.slot = Some(slot);
    }

    /// Returns for each frame of the block that was read last 1 if a packet that came has it, and 0 if not.
    pub fn present(&self) -> &[i32]
        ensures value { result.now ≡ self.now.present }
        ensures short { length result.now ≤ 192 }
    {
        &self.present[..usize::from(self.block)]
    }

    /// Reads the values of the block at the position to `out`, frame by frame, and moves on to the next block.
    /// `present` then returns in which of its frames the stream is present.
    pub fn read_block(&mut self, out: &mut [i32])
        requires covered { covers (cover_at self.old) (self.old.position +ℤ pos self.old.block) ≡ true }
        requires len { length out.old ≡ self.old.block * self.old.format.channels }
        requires position { self.old.position <ℤ pos (2 ^ 62) }
        ensures values { (stream : Stream) (from : ℤ) (size : ℕ) (marks : List MarkView) (t : ℤ)
            → HasFeed stream from size self.old marks t → out.new ≡ frames_from (format_of stream) marks t size }
        ensures stands { (stream : Stream) (from : ℤ) (size : ℕ) (marks : List MarkView) (t : ℤ)
            → HasFeed stream from size self.old marks t → HasFeed stream from size self.new marks (t +ℤ pos size) }
        ensures facts { HasSameFacts self.old self.new }
        ensures position { self.new.position ≡ self.old.position +ℤ pos self.old.block }
        ensures cover { cover_at self.new ≡ cover_at self.old }
        ensures end { end_at self.new ≡ end_at self.old }
        ensures in_24_bits { All Is24Bits out.new }
        ensures present { (stream : Stream) (from : ℤ) (size : ℕ) (marks : List MarkView) (t : ℤ)
            → HasFeed stream from size self.old marks t
            → self.new.present ≡ presence_from (format_of stream) marks t size }
    {
        self.values.read(out);
        let frames = usize::from(self.block);
        read_presence(&mut self.presence, frames, &mut self.present);
        self.position += i64::from(self.block);
    }
}
