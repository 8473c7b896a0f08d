//! The values that a lane holds, with long silences as numbers.
ghost use Rattle.std.specs.Prelude.{◌≡◌, ◌+◌, ◌*◌, ◌^◌, ◌<◌, ◌≤◌, [], ◌++◌, length, drop, IfOk};
ghost use Rattle.lane_align.specs.HeldValues.{Held, silence, first_values};
ghost use Rattle.circular_buffer.specs.Buffer.{buffer};

use circular_buffer::HeapCircularBuffer;
use std::alloc::{AllocError, Global};
use std::marker::Model;

/// One frame's silence, of as many channels as a stream may have.
const SILENCE: [i32; 64] = [0; 64];

/// The values of a stream's channels from a position on, frame by frame.
///
/// They are `lead` frames of silence, the first `front` stored values, `gap` frames of silence and
/// the rest of the stored values.
// Long silences are kept as numbers, so that a stream may begin, or begin again, hours later.
#[derive(Drop)]
pub struct FrameQueue {
    stored: HeapCircularBuffer<i32>,
    channels: usize,
    /// Frames in a block.
    block: usize,
    lead: u64,
    front: usize,
    gap: u64,
}

impl Model for FrameQueue {
    ghost use Rattle.lane_align.specs.HeldValues.{Held, IsHeld, values_held};

    ghost Value = { Held };

    ghost view = { λ q. record { channels = q.channels; block = q.block; capacity = q.stored.capacity; values = values_held q.channels q.lead q.front q.gap q.stored.items } };

    ghost invariant = { λ q. IsHeld q.channels q.block q.lead q.front q.gap q.stored.items };
}

/// Stores `frames` frames of silence.
fn store_silence(stored: &mut HeapCircularBuffer<i32>, channels: usize, frames: usize)
    requires few_channels { channels ≤ 64 }
    requires space { length stored.old.items + frames * channels ≤ stored.old.capacity }
    ensures { stored.new ≡ buffer (stored.old.items ++ silence channels frames) stored.old.capacity }
{
    // The index has a name, since the loop's invariant counts by it.
    for _i in 0..frames {
        stored.fill_from_slice(&SILENCE[..channels]);
    }
}

impl FrameQueue {
    /// Returns an empty queue with space for a block and `more` frames, or an error if its allocation fails.
    pub fn new(
        alloc: Global,
        channels: usize,
        block: usize,
        more: usize,
    ) -> Result<Self, AllocError>
        requires some_channels { 0 < channels }
        requires few_channels { channels ≤ 64 }
        requires short_block { block ≤ 192 }
        requires few_more { more ≤ 2 ^ 24 }
        ensures { IfOk result
            (λ q. q ≡ record { channels = channels; block = block; capacity = (block + more) * channels; values = [] }) }
    {
        let stored = HeapCircularBuffer::with_capacity(alloc, (block + more) * channels)?;
        Ok(FrameQueue {
            stored,
            channels,
            block,
            lead: 0,
            front: 0,
            gap: 0,
        })
    }

    /// Adds frames of silence and then `samples`. Of the silence `silent` frames are stored, and
    /// those of `gap`, which begins at the end of the next block, are not.
    pub fn add(&mut self, silent: usize, gap: u64, samples: &[i32])
        requires within { length self.old.values + silent * self.old.channels ≤ self.old.block * self.old.channels }
        requires block_end { 0 < gap → length self.old.values + silent * self.old.channels
            ≡ self.old.block * self.old.channels }
        requires small { gap < 2 ^ 62 }
        requires space { self.old.block * self.old.channels + length samples.now ≤ self.old.capacity }
        ensures { self.new ≡
            record self.old { values = self.old.values ++ (silence self.old.channels (silent + gap) ++ samples.now) } }
    {
        store_silence(&mut self.stored, self.channels, silent);
        self.front = self.stored.len();
        self.gap = gap;
        self.stored.fill_from_slice(samples);
    }

    /// Adds frames of silence and then `samples`, all of them stored.
    pub fn append(&mut self, silent: usize, samples: &[i32])
        requires space { length self.old.values + silent * self.old.channels + length samples.now ≤ self.old.capacity }
        ensures { self.new ≡
            record self.old { values = self.old.values ++ (silence self.old.channels silent ++ samples.now) } }
    {
        store_silence(&mut self.stored, self.channels, silent);
        self.stored.fill_from_slice(samples);
    }

    /// Reads the values of one block to `out`, and drops them. Values that aren't there are 0.
    pub fn read(&mut self, out: &mut [i32])
        requires len { length out.old ≡ self.old.block * self.old.channels }
        ensures values { out.new ≡ first_values (length out.old) self.old.values }
        ensures rest { self.new ≡ record self.old { values = drop (length out.old) self.old.values } }
    {
        let silent = self.lead.min(self.block as u64);
        out.fill(0);
        self.stored
            .read_into(&mut out[silent as usize * self.channels..]);
        // The gap begins at the end of this block, so it now comes first.
        self.lead = self.lead - silent + self.gap;
        self.front = 0;
        self.gap = 0;
    }
}
