//! A slot's samples, on their way from its payload to the values of a lane.
ghost use Rattle.std.specs.Prelude.{◌≡◌, ◌+◌, ◌-◌, ◌*◌, ◌^◌, ◌<◌, ◌≤◌, ◌++◌, length, take, drop, option_copied};
ghost use Rattle.std.specs.List.{All};
ghost use Rattle.rtp_wire.specs.Sample.{Is24Bits};
ghost use Rattle.rtp_stream.specs.MarkFacts.{HasLength, payload_length};
ghost use Rattle.rtp_stream.specs.MarkRef.{body_from};
ghost use Rattle.lane_align.specs.HeldValues.{silence};
ghost use Rattle.lane_align.specs.Lane.{body_samples};

use crate::frame_queue::FrameQueue;
use rtp_stream::PacketFormat;
use rtp_wire::read_samples;

/// The greatest number of samples in a payload: 1,440 octets of 16-bit samples.
const MAX_SAMPLES: usize = 720;

/// The buffer into which a slot's samples are read. Its content before that has no meaning.
pub(crate) type SlotBuffer = [i32; MAX_SAMPLES];

/// A buffer before its first slot.
pub(crate) const EMPTY_SLOT: SlotBuffer = [0; MAX_SAMPLES];

/// Reads the samples of a slot, frame by frame, to the start of `capacity`.
fn read_slot(buffer: &mut SlotBuffer, format: PacketFormat, payload: Option<&[u8]>)
    requires count { format.frames * format.channels ≤ 720 }
    requires len { HasLength (payload_length format) (body_from (option_copied payload)) }
    ensures samples { take (format.frames * format.channels) buffer.new
        ≡ body_samples format (body_from (option_copied payload.entry)) }
    ensures in_24_bits { All Is24Bits (body_samples format (body_from (option_copied payload.entry))) }
{
    match payload {
        Some(octets) => {
            read_samples(format.enc, octets, buffer);
        }
        None => {
            let count = usize::from(format.frames) * usize::from(format.channels);
            buffer[..count].fill(0);
        }
    }
}

/// Adds `silent` frames of silence and then the slot's frames from the `skipped`-th on, all of them stored.
pub(crate) fn append_slot(
    values: &mut FrameQueue,
    buffer: &mut SlotBuffer,
    silent: usize,
    format: PacketFormat,
    payload: Option<&[u8]>,
    skipped: usize,
)
    requires count { format.frames * format.channels ≤ 720 }
    requires len { HasLength (payload_length format) (body_from (option_copied payload)) }
    requires part { skipped ≤ format.frames }
    requires space { length values.old.values + silent * values.old.channels
        + (format.frames * format.channels - skipped * format.channels) ≤ values.old.capacity }
    ensures added { values.new ≡ record values.old { values = values.old.values ++ (silence values.old.channels silent ++ drop (skipped * format.channels) (body_samples format (body_from (option_copied payload.entry)))) } }
    ensures in_24_bits { All Is24Bits (body_samples format (body_from (option_copied payload.entry))) }
{
    let channels = usize::from(format.channels);
    let frames = usize::from(format.frames);
    read_slot(buffer, format, payload);
    values.append(silent, &buffer[skipped * channels..frames * channels]);
}

/// Adds frames of silence and then the slot's frames from the `skipped`-th on. Of the silence `silent` frames are
/// stored; those of `gap` are kept as a number.
pub(crate) fn add_slot(
    values: &mut FrameQueue,
    buffer: &mut SlotBuffer,
    silent: usize,
    gap: u64,
    format: PacketFormat,
    payload: Option<&[u8]>,
    skipped: usize,
)
    requires count { format.frames * format.channels ≤ 720 }
    requires len { HasLength (payload_length format) (body_from (option_copied payload)) }
    requires part { skipped ≤ format.frames }
    requires within { length values.old.values + silent * values.old.channels ≤ values.old.block * values.old.channels }
    requires block_end { 0 < gap → length values.old.values + silent * values.old.channels
        ≡ values.old.block * values.old.channels }
    requires small { gap < 2 ^ 62 }
    requires space { values.old.block * values.old.channels
        + (format.frames * format.channels - skipped * format.channels) ≤ values.old.capacity }
    ensures added { values.new ≡ record values.old { values = values.old.values ++ (silence values.old.channels (silent + gap) ++ drop (skipped * format.channels) (body_samples format (body_from (option_copied payload.entry)))) } }
    ensures in_24_bits { All Is24Bits (body_samples format (body_from (option_copied payload.entry))) }
{
    let channels = usize::from(format.channels);
    let frames = usize::from(format.frames);
    read_slot(buffer, format, payload);
    values.add(silent, gap, &buffer[skipped * channels..frames * channels]);
}
