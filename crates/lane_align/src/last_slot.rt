//! The last slot of a lane, and the numbers of frames between it and other times.
ghost use Rattle.std.specs.Prelude.{◌≡◌, ◌≤◌, ℤ, Some, min};
ghost use Rattle.rtp_stream.specs.MarkList as list;
ghost use Rattle.rtp_stream.specs.declared.mark.Body.{Body};
ghost use Rattle.rtp_stream.specs.declared.mark.MarkKind.TheVariants.{Slot};
ghost use Rattle.lane_align.specs.Cover.{time_reached};
ghost use Rattle.lane_align.specs.Lane as state;
ghost use Rattle.lane_align.specs.Lane.{IsSlot};

/// The last slot of a list of marks.
#[derive(Clone, Copy, Debug)]
pub struct LastSlot {
    /// The number of restarts before it.
    pub epoch: u64,
    /// The extended sequence number.
    pub number: u64,
    /// The media time of its first sampling instant.
    pub media: i64,
}

/// Returns the greater of the end of the last slot and the last Quiet's time, or `None` if there was neither.
pub(crate) fn time_reached_by(
    frames: u16,
    slot: Option<LastSlot>,
    quiet: Option<i64>,
) -> Option<i64>
    requires few_frames { frames ≤ 192 }
    requires slot { IsSlot slot }
    ensures { result ≡ time_reached frames slot quiet }
{
    match (slot, quiet) {
        (None, _) => quiet,
        (Some(slot), None) => Some(slot.media + i64::from(frames)),
        (Some(slot), Some(until)) => Some(until.max(slot.media + i64::from(frames))),
    }
}

/// Returns true if two times are the same.
// A function, so that its contract ties `==` to the definition's `is_same_time`.
fn is_same_time(t: i64, u: i64) -> bool
    ensures { result ≡ list.is_same_time t u }
{
    t == u
}

/// Returns true if a slot may follow this one: the next number at its end, or a slot of the next epoch from there on.
pub(crate) fn may_follow_slot(
    slot: LastSlot,
    frames: u16,
    epoch: u64,
    number: u64,
    media: i64,
) -> bool
    requires few_frames { frames ≤ 192 }
    requires slot { IsSlot (Some slot) }
    ensures { (before after : Body) → result
        ≡ list.can_follow frames (Some (Slot slot.epoch slot.number slot.media before))
        (Slot epoch number media after) }
{
    let end = slot.media + i64::from(frames);
    if epoch == slot.epoch {
        return number == slot.number + 1 && is_same_time(media, end);
    }
    epoch == slot.epoch + 1 && end <= media
}

/// Returns the number of frames from one time to another, or 0 if the other is not later.
pub(crate) fn frames_between(from: i64, to: i64) -> u64
    ensures { result ≡ state.frames_between from to }
{
    // Any two times are allowed, and their difference may be too great for an `i64`.
    if from < to { to.abs_diff(from) } else { 0 }
}

/// Returns the number of frames from a time to the end of the last slot.
pub(crate) fn frames_left(frames: u16, t: i64, slot: Option<LastSlot>) -> u64
    requires few_frames { frames ≤ 192 }
    requires slot { IsSlot slot }
    ensures { result ≡ state.frames_left frames t slot }
{
    match slot {
        None => 0,
        Some(slot) => frames_between(t, slot.media + i64::from(frames)),
    }
}

/// Returns the number of a slot's frames that lie before a time.
pub(crate) fn frames_before(frames: u16, t: i64, media: i64) -> usize
    ensures { result ≡ min (state.frames_between media t) frames }
{
    frames_between(media, t).min(u64::from(frames)) as usize
}
