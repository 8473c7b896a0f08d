//! The streams that are missing in a block: those that are used in it, and of which no packet came for some time of it.
ghost use Rattle.std.specs.Prelude.{◌≡◌, ◌+◌, ◌≤◌, ◌≤ℤ◌, ◌^◌, pos, length};
ghost use Rattle.std.specs.Ordering.{int_eq};
ghost use Rattle.std.specs.List.{list_all};
ghost use Rattle.gain_mix.specs.Gain.{ins_of};
ghost use Rattle.studio_mix.specs.Lanes.{lane_channels};
ghost use Rattle.studio_mix.specs.MissingLanes.{agrees, is_used_where, is_whole, missing_among};

use gain_mix::LiveSchedule;
use lane_align::Lane;
use studio_io::Missing;

/// Returns what is missing in the block that these lanes read last, and that begins at `time`.
pub(crate) fn missing_among(lanes: &[Lane], schedule: &LiveSchedule, time: i64) -> Missing
    requires width { lane_channels lanes.now ≡ ins_of schedule.now.first }
    requires narrow { lane_channels lanes.now ≤ 1024 }
    requires not_late { time ≤ℤ pos (2 ^ 62) }
    ensures { result ≡ missing_among lanes.now schedule.now time }
{
    // As a rule every packet came, and no gain has to be looked at.
    if are_whole(lanes) {
        return Missing::NOTHING;
    }
    let mut streams = 0;
    let mut is_heard = false;
    let mut at = 0;
    for lane in lanes {
        let channels = usize::from(lane.format().channels);
        if is_used_where(false, lane.present(), schedule, time, at, channels) {
            streams += 1;
        }
        is_heard = is_heard || is_used_where(true, lane.present(), schedule, time, at, channels);
        at += channels;
    }
    Missing {
        streams,
        is_empty: streams > 0 && !is_heard,
    }
}

/// Returns true if each stream is present in each frame of the block that was read last.
fn are_whole(lanes: &[Lane]) -> bool
    ensures { result ≡ list_all is_whole lanes.now }
{
    lanes.iter().all(|lane| is_whole(lane))
}

/// Returns true if the stream is present in each frame of the block that was read last.
fn is_whole(lane: &Lane) -> bool
    ensures { result ≡ is_whole lane.now }
{
    lane.present().iter().all(|presence| *presence == 1)
}

/// Returns true if `count` channels from `at` on are used in one of the frames from `time` on in which their stream is
/// present, if `came`, or else in one in which it is not.
fn is_used_where(
    came: bool,
    present: &[i32],
    schedule: &LiveSchedule,
    time: i64,
    at: usize,
    count: usize,
) -> bool
    requires short { length present.now ≤ 192 }
    requires within { at + count ≤ ins_of schedule.now.first }
    requires not_late { time ≤ℤ pos (2 ^ 62) }
    ensures { result ≡ is_used_where came present.now schedule.now time at count }
{
    for frame in 0..present.len() {
        if agrees(came, present[frame]) && schedule.at(time + frame as i64).uses(at, count) {
            return true;
        }
    }
    false
}

/// Returns true if a stream of this presence in a frame is there, if `came`, or else if it isn't.
fn agrees(came: bool, presence: i32) -> bool
    ensures { result ≡ agrees came (int_eq presence (pos 1)) }
{
    if came { presence == 1 } else { presence != 1 }
}
