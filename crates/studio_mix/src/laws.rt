//! Laws of blocks. Nothing is computed here: the clauses are the laws.
ghost use Rattle.std.specs.Prelude.{◌≡◌, ℕ, ℤ, ◌+◌, ◌<◌, ◌≤ℤ◌, List, [], ◌∷◌, ◌++◌, true};
ghost use Rattle.mix_packets.specs.Block.{block_start};
ghost use Rattle.mix_packets.specs.declared.out_spec.Output.{Output};
ghost use Rattle.studio_config.specs.Studio.{Studio};
ghost use Rattle.studio_mix.specs.Changed.{with_changes, with_gains};
ghost use Rattle.studio_mix.specs.Feed.{AreLonger, Feed};
ghost use Rattle.studio_mix.specs.Output.{datagram_of};
ghost use Rattle.studio_mix.specs.Ready.{are_covered, is_ready};
ghost use Rattle.studio_mix.specs.Saturated.{AreSaturated};

/// States that longer lists of marks change neither whether a block is ready nor its datagram, once every stream is
/// final to the block's end. The streams of a ready block always are.
pub fn ready_blocks_stay()
    ensures ready { (out : Output) (feeds longer : List Feed) (number : ℕ) → 0 < out.frames → AreLonger feeds longer
        → are_covered feeds (block_start out (number + 1)) ≡ true
        → is_ready out longer number ≡ is_ready out feeds number }
    ensures datagram { (studio : Studio) (feeds longer : List Feed) (number : ℕ) → AreLonger feeds longer
        → are_covered feeds (block_start studio.output (number + 1)) ≡ true
        → datagram_of studio longer number ≡ datagram_of studio feeds number }
    ensures covered { (out : Output) (feeds : List Feed) (number : ℕ) → is_ready out feeds number ≡ true
        → are_covered feeds (block_start out (number + 1)) ≡ true }
{}

/// States that a change of gains changes no block before its time: neither its datagram nor the number of its
/// saturated samples.
pub fn later_changes_change_no_block()
    ensures datagram { (studio : Studio) (feeds : List Feed) (number : ℕ) (at : ℤ) (gains : List ℤ)
        → block_start studio.output (number + 1) ≤ℤ at
        → datagram_of (with_gains studio at gains) feeds number ≡ datagram_of studio feeds number }
    ensures saturated { (studio : Studio) (feeds : List Feed) (number : ℕ) (counts : List ℕ) (at : ℤ) (gains : List ℤ)
        → block_start studio.output number ≤ℤ at → AreSaturated studio feeds number counts
        → AreSaturated (with_gains studio at gains) feeds number counts }
{}

/// States that changes of gains that are taken one after another lead to the studio that has them all.
pub fn changes_follow_one_another()
    ensures none { (studio : Studio) → with_changes studio [] ≡ studio }
    ensures more { (studio : Studio) (changes : List (ℤ × List ℤ)) (at : ℤ) (gains : List ℤ)
        → with_gains (with_changes studio changes) at gains ≡ with_changes studio (changes ++ (at, gains) ∷ []) }
{}
