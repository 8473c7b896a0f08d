//! Takes marks from the rings of the streams and feeds them to the mixer.
ghost use Rattle.std.specs.Prelude.{
  ◌≡◌,
  ℕ,
  ◌<◌,
  ◌≤◌,
  ◌∷◌,
  [],
  ◌++◌,
  List,
  true,
  length,
  slice_get,
  slice_set,
  Some,
  vec_len,
};
ghost use Rattle.rtp_stream.specs.StreamSpecFacts.{format_of};
ghost use Rattle.rtp_stream.specs.MarkList.{is_mark_list};
ghost use Rattle.studio_config.specs.Studio.{Studio};
ghost use Rattle.studio_mix.specs.Feed.{Feed};
ghost use Rattle.studio_mix.specs.Mixer.{HasFeeds, is_wanted_by};
ghost use Rattle.studio_ends.specs.MarksIn.{TakesAllMarks, TakesWanted, fed_more};

use crate::rings::TokenConsumer;
use crate::rings::mark_cell::MarkCell;
use crate::rings::marks::MarkConsumer;
use crate::stream_end::packets_in::BATCH;
use studio_mix::Mixer;

/// Feeds a mark to the mixer if it may follow the stream's marks before it. Returns true if it did.
fn feed_if_accepted<const N: usize>(mixer: &mut Mixer, stream: usize, cell: &MarkCell<N>) -> bool
    requires stream { stream < length mixer.old.lanes }
    requires wanted { is_wanted_by mixer.old stream ≡ true }
    ensures stands { (studio : Studio) (feeds : List Feed) (number : ℕ) (feed : Feed)
        → HasFeeds studio mixer.old feeds number → slice_get feeds stream ≡ Some feed
        → HasFeeds studio mixer.new (slice_set feeds stream (fed_more feed (cell.now ∷ []))) number }
    ensures value { (studio : Studio) (feeds : List Feed) (number : ℕ) (feed : Feed)
        → HasFeeds studio mixer.old feeds number → slice_get feeds stream ≡ Some feed
        → result ≡ is_mark_list (format_of feed.stream) (feed.marks ++ cell.now ∷ []) }
    ensures lanes { length mixer.new.lanes ≡ length mixer.old.lanes }
    ensures spec { mixer.new.packer.spec ≡ mixer.old.packer.spec }
{
    let mark = cell.as_ref();
    if mixer.accepts_ref(stream, &mark) {
        mixer.feed_ref(stream, &mark);
        return true;
    }
    false
}

/// Takes marks of one stream while the mixer wants them, at most 64. Returns the number taken and the number of them
/// that may not follow the marks before.
pub(crate) fn take_stream<const N: usize>(
    side: &mut TokenConsumer<MarkCell<N>>,
    mixer: &mut Mixer,
    stream: usize,
) -> (u32, u32)
    requires stream { stream < length mixer.old.lanes }
    ensures { TakesWanted side.old side.new mixer.old mixer.new stream result.0 result.1 }
{
    let mut taken = 0;
    let mut strange = 0;
    while taken < BATCH {
        // Only marks that the next block needs are taken, so that a lane holds no more than a block and a packet.
        if !mixer.wants(stream) {
            return (taken, strange);
        }
        if side.is_empty() {
            return (taken, strange);
        }
        let kept = feed_if_accepted(mixer, stream, side.peek());
        side.drop_next();
        strange += u32::from(!kept);
        taken += 1;
    }
    (taken, strange)
}

/// Takes marks of all streams, in order. Returns the number taken and the number of them that may not follow the marks
/// before.
pub(crate) fn take_streams(sides: &mut Vec<MarkConsumer>, mixer: &mut Mixer) -> (u32, u32)
    requires count { vec_len sides.old ≡ length mixer.old.lanes }
    requires few { vec_len sides.old ≤ 16 }
    ensures took { TakesAllMarks sides.old.items sides.new.items mixer.old mixer.new result.0 result.1 }
    ensures len { vec_len sides.new ≡ vec_len sides.old }
{
    let mut taken = 0;
    let mut strange = 0;
    for stream in 0..sides.len() {
        let (some, odd) = sides[stream].take(mixer, stream);
        taken += some;
        strange += odd;
    }
    (taken, strange)
}
