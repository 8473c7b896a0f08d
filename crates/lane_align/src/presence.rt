//! The presence of a slot's frames, on its way to that of a lane, and from there to that of a block.
ghost use Rattle.std.specs.Prelude.{◌≡◌, ◌+◌, ◌-◌, ◌*◌, ◌^◌, ◌<◌, ◌≤◌, ◌++◌, length, take, drop, option_copied};
ghost use Rattle.rtp_stream.specs.MarkRef.{body_from};
ghost use Rattle.lane_align.specs.HeldValues.{silence, first_values};
ghost use Rattle.lane_align.specs.Presence.{body_presence};

use crate::frame_queue::FrameQueue;

/// The greatest number of frames of a packet and of a block.
const MAX_FRAMES: usize = 192;

/// The presence of the frames of a block, at the start. The rest has no meaning.
pub(crate) type BlockPresence = [i32; MAX_FRAMES];

/// The presence before the first block.
pub(crate) const NO_BLOCK: BlockPresence = [0; MAX_FRAMES];

/// The presence of frames of a packet that came, and of one that is lost.
const GOT: [i32; MAX_FRAMES] = [1; MAX_FRAMES];

const LOST: [i32; MAX_FRAMES] = [0; MAX_FRAMES];

/// Adds the absence of `silent` frames and then the presence of a slot's frames from the `skipped`-th on.
pub(crate) fn append_presence(
    presence: &mut FrameQueue,
    silent: usize,
    frames: u16,
    payload: Option<&[u8]>,
    skipped: usize,
)
    requires few { frames ≤ 192 }
    requires part { skipped ≤ frames }
    requires space { length presence.old.values + silent * presence.old.channels + (frames - skipped)
        ≤ presence.old.capacity }
    ensures { presence.new ≡ record presence.old { values = presence.old.values ++ (silence presence.old.channels silent ++ drop skipped (body_presence frames (body_from (option_copied payload.entry)))) } }
{
    let frames = usize::from(frames);
    match payload {
        Some(_) => presence.append(silent, &GOT[skipped..frames]),
        None => presence.append(silent, &LOST[skipped..frames]),
    }
}

/// Adds the absence of frames and then the presence of a slot's frames from the `skipped`-th on. Of the absence
/// `silent` frames are stored; those of `gap` are kept as a number.
pub(crate) fn add_presence(
    presence: &mut FrameQueue,
    silent: usize,
    gap: u64,
    frames: u16,
    payload: Option<&[u8]>,
    skipped: usize,
)
    requires few { frames ≤ 192 }
    requires part { skipped ≤ frames }
    requires within { length presence.old.values + silent * presence.old.channels
        ≤ presence.old.block * presence.old.channels }
    requires block_end { 0 < gap → length presence.old.values + silent * presence.old.channels
        ≡ presence.old.block * presence.old.channels }
    requires small { gap < 2 ^ 62 }
    requires space { presence.old.block * presence.old.channels + (frames - skipped) ≤ presence.old.capacity }
    ensures { presence.new ≡ record presence.old { values = presence.old.values ++ (silence presence.old.channels (silent + gap) ++ drop skipped (body_presence frames (body_from (option_copied payload.entry)))) } }
{
    let frames = usize::from(frames);
    match payload {
        Some(_) => presence.add(silent, gap, &GOT[skipped..frames]),
        None => presence.add(silent, gap, &LOST[skipped..frames]),
    }
}

/// Reads the presence of a block's frames to the start of `present`, and drops it.
pub(crate) fn read_presence(presence: &mut FrameQueue, frames: usize, present: &mut BlockPresence)
    requires short { frames ≤ 192 }
    requires len { frames ≡ presence.old.block * presence.old.channels }
    ensures present { take frames present.new ≡ first_values frames presence.old.values }
    ensures rest { presence.new ≡ record presence.old { values = drop frames presence.old.values } }
{
    presence.read(&mut present[..frames]);
}
