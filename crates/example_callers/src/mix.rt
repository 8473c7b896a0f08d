//! Two streams, from marks to the output's datagrams.
ghost use Rattle.std.specs.Prelude.{
  ◌≡◌,
  ℕ,
  ◌+◌,
  ◌<◌,
  ◌≤◌,
  List,
  [],
  ◌∷◌,
  ◌++◌,
  length,
  take,
  drop,
  slice_get,
  slice_set,
  Some,
  None,
  is_some,
  IfSome,
};
ghost use Rattle.mix_packets.specs.OutSpec.{datagram_length};
ghost use Rattle.studio_config.specs.Studio.{Studio};
ghost use Rattle.studio_mix.specs.Feed.{Feed};
ghost use Rattle.studio_mix.specs.Mixer.{HasFeeds};
ghost use Rattle.studio_mix.specs.Output.{datagram_of};
ghost use Rattle.studio_mix.specs.Ready.{is_ready};
ghost use Rattle.example_callers.specs.Mix.{IsTaken, feed_with, feeds_with};

use path_merge::Mark;
use studio_mix::Mixer;

/// The number of marks that were taken of each stream, and the length of the datagram, if one was written.
#[derive(Clone, Copy, Debug)]
pub struct Mixed {
    pub first: usize,
    pub second: usize,
    pub len: Option<usize>,
}

/// Feeds a stream's next marks until they are final to the end of the next block, and returns how many it took.
///
/// It stops before a mark that cannot follow the stream's marks so far.
pub fn feed_wanted(mixer: &mut Mixer, stream: usize, marks: &[Mark]) -> usize
    requires { stream < length mixer.old.lanes }
    ensures count { result ≤ length marks.now }
    ensures taken { (studio : Studio) (feeds : List Feed) (number : ℕ) (feed : Feed)
        → HasFeeds studio mixer.old feeds number → slice_get feeds stream ≡ Some feed
        → IsTaken studio number feed marks.now result }
    ensures stands { (studio : Studio) (feeds : List Feed) (number : ℕ) (feed : Feed)
        → HasFeeds studio mixer.old feeds number → slice_get feeds stream ≡ Some feed
        → HasFeeds studio mixer.new (slice_set feeds stream (feed_with feed (take result marks.now))) number }
    ensures packer { mixer.new.packer ≡ mixer.old.packer }
    ensures streams { length mixer.new.lanes ≡ length mixer.old.lanes }
{
    for (taken, mark) in marks.iter().enumerate() {
        let mark = mark.as_ref();
        if !mixer.wants(stream) || !mixer.accepts_ref(stream, &mark) {
            return taken;
        }
        mixer.feed_ref(stream, &mark);
    }
    marks.len()
}

/// Feeds two streams' next marks, and writes the next datagram to the front of `out` if its block is final then.
///
/// The next call goes on with the marks that were not taken.
pub fn mix_next(mixer: &mut Mixer, first: &[Mark], second: &[Mark], out: &mut [u8]) -> Mixed
    requires streams { length mixer.old.lanes ≡ 2 }
    requires space { datagram_length mixer.old.packer.spec ≤ length out.old }
    ensures first { result.first ≤ length first.now }
    ensures second { result.second ≤ length second.now }
    ensures taken { (studio : Studio) (a b : Feed) (number : ℕ) → HasFeeds studio mixer.old (a ∷ b ∷ []) number
        → IsTaken studio number a first.now result.first × IsTaken studio number b second.now result.second }
    ensures ready { (studio : Studio) (a b : Feed) (number : ℕ) → HasFeeds studio mixer.old (a ∷ b ∷ []) number
        → is_some result.len ≡ is_ready studio.output
        (feeds_with a (take result.first first.now) b (take result.second second.now)) number }
    ensures none { result.len ≡ None → (out.new ≡ out.old)
        × ((studio : Studio) (a b : Feed) (number : ℕ) → HasFeeds studio mixer.old (a ∷ b ∷ []) number
        → HasFeeds studio mixer.new
        (feeds_with a (take result.first first.now) b (take result.second second.now)) number) }
    ensures some { IfSome result.len (λ len. (studio : Studio) (a b : Feed) (number : ℕ)
        → HasFeeds studio mixer.old (a ∷ b ∷ []) number
        → (len ≡ datagram_length studio.output)
        × (out.new ≡ datagram_of studio
        (feeds_with a (take result.first first.now) b (take result.second second.now)) number ++ drop len out.old)
        × HasFeeds studio mixer.new
        (feeds_with a (take result.first first.now) b (take result.second second.now)) (number + 1)) }
    ensures len { IfSome result.len (λ len. len ≡ datagram_length mixer.old.packer.spec) }
    ensures spec { mixer.new.packer.spec ≡ mixer.old.packer.spec }
    ensures streams { length mixer.new.lanes ≡ length mixer.old.lanes }
{
    Mixed {
        first: feed_wanted(mixer, 0, first),
        second: feed_wanted(mixer, 1, second),
        len: mixer.next_block(out),
    }
}
