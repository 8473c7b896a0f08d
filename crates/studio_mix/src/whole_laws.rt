//! Laws of whole blocks, in which no stream is missing. Nothing is computed here: the clauses are the laws.
ghost use Rattle.std.specs.Prelude.{◌≡◌, ℕ, ◌+◌, ◌<◌, ◌≤◌, ℤ, pos, ◌+ℤ◌, ◌≤ℤ◌, List, length, map, replicate, true};
ghost use Rattle.rtp_stream.specs.StreamSpecFacts.{format_of};
ghost use Rattle.gain_mix.specs.Changes.{matrix_at};
ghost use Rattle.mix_packets.specs.Aligned.{aligned};
ghost use Rattle.mix_packets.specs.Block.{block_start};
ghost use Rattle.mix_packets.specs.OutSpec.{IsOutput};
ghost use Rattle.mix_packets.specs.declared.out_spec.Output.{Output};
ghost use Rattle.studio_config.specs.Studio.{Studio};
ghost use Rattle.studio_mix.specs.Changed.{with_gains};
ghost use Rattle.studio_mix.specs.Feed.{AreLonger, Feed};
ghost use Rattle.studio_mix.specs.Missing.{missing_in};
ghost use Rattle.studio_mix.specs.Mixed.{mixed_samples};
ghost use Rattle.studio_mix.specs.Output.{block_inputs, datagram_of};
ghost use Rattle.studio_mix.specs.Ready.{are_covered};
ghost use Rattle.studio_mix.specs.Sound.{AreOfSound, AreTwins, HasAllOf, HasSound, HaveSameUsed, Sounds};
ghost use Rattle.studio_mix.specs.Sound.{sound_datagram, sound_samples};

/// States that a block in which no stream is missing has the senders' mix: if the values of each stream are those of a
/// sound wherever the stream is present, then its samples, and so its datagram, are those that the studio makes of the
/// sounds themselves. They are if each sample of each packet that came is the sound's at its time.
pub fn whole_blocks_are_the_senders_mix()
    ensures samples { (studio : Studio) (feeds : List Feed) (sound : Sounds) (number f : ℕ)
        → map (λ (feed : Feed). feed.stream) feeds ≡ studio.streams → HasSound sound feeds
        → (missing_in studio feeds number).streams ≡ 0 → f < studio.output.frames
        → mixed_samples studio feeds (block_start studio.output number +ℤ pos f)
        ≡ sound_samples studio sound (block_start studio.output number +ℤ pos f) }
    ensures datagram { (studio : Studio) (feeds : List Feed) (sound : Sounds) (number : ℕ)
        → map (λ (feed : Feed). feed.stream) feeds ≡ studio.streams → HasSound sound feeds
        → (missing_in studio feeds number).streams ≡ 0
        → datagram_of studio feeds number ≡ sound_datagram studio sound number }
    ensures packets { (feeds : List Feed) (sound : Sounds) → AreOfSound sound feeds → HasSound sound feeds }
{}

/// States that the blocks of two studios at one media time are copies of one another, if the studios have blocks of one
/// header there, streams of the same formats and the same matrices in force. They are if at each time of the block each
/// stream that is used has the same values in both, and so if in both no stream is missing, and one sound is that of
/// both. Two outputs that were aligned from one have one header at one media time.
pub fn twins_are_copies()
    ensures values { (studio other : Studio) (feeds others : List Feed) (number its : ℕ)
        → AreTwins studio other number its
        → map (λ (feed : Feed). feed.stream) feeds ≡ studio.streams
        → map (λ (feed : Feed). feed.stream) others ≡ other.streams
        → ((f : ℕ) → f < studio.output.frames
        → HaveSameUsed studio feeds others (block_start studio.output number +ℤ pos f))
        → datagram_of other others its ≡ datagram_of studio feeds number }
    ensures whole { (studio other : Studio) (feeds others : List Feed) (sound : Sounds) (number its : ℕ)
        → AreTwins studio other number its
        → map (λ (feed : Feed). feed.stream) feeds ≡ studio.streams
        → map (λ (feed : Feed). feed.stream) others ≡ other.streams
        → HasSound sound feeds → HasSound sound others
        → (missing_in studio feeds number).streams ≡ 0 → (missing_in other others its).streams ≡ 0
        → datagram_of other others its ≡ datagram_of studio feeds number }
    ensures own { (studio other : Studio) (number : ℕ) → other.output ≡ studio.output
        → map format_of other.streams ≡ map format_of studio.streams
        → ((f : ℕ) → f < studio.output.frames
        → matrix_at other.schedule (block_start studio.output number +ℤ pos f)
        ≡ matrix_at studio.schedule (block_start studio.output number +ℤ pos f))
        → AreTwins studio other number number }
    ensures aligned { (studio other : Studio) (out : Output) (time later : ℤ) (number its : ℕ) → IsOutput out
        → studio.output ≡ aligned time out → other.output ≡ aligned later out
        → map format_of other.streams ≡ map format_of studio.streams
        → block_start other.output its ≡ block_start studio.output number
        → ((f : ℕ) → f < studio.output.frames
        → matrix_at other.schedule (block_start studio.output number +ℤ pos f)
        ≡ matrix_at studio.schedule (block_start studio.output number +ℤ pos f))
        → AreTwins studio other number its }
{}

/// States that a block in which no stream is missing is that of each union with what others received: where each stream
/// is present at least where it was, no more streams are missing, and if one sound is that of both, the datagram is the
/// same.
pub fn unions_keep_whole_blocks()
    ensures missing { (studio : Studio) (feeds union : List Feed) (number : ℕ) → HasAllOf feeds union
        → (missing_in studio union number).streams ≤ (missing_in studio feeds number).streams }
    ensures datagram { (studio : Studio) (feeds union : List Feed) (sound : Sounds) (number : ℕ)
        → map (λ (feed : Feed). feed.stream) feeds ≡ studio.streams → HasAllOf feeds union
        → HasSound sound feeds → HasSound sound union → (missing_in studio feeds number).streams ≡ 0
        → datagram_of studio union number ≡ datagram_of studio feeds number }
{}

/// States that the samples of an empty block are all 0.
pub fn empty_blocks_are_silent()
    ensures samples { (studio : Studio) (feeds : List Feed) (number f : ℕ)
        → (missing_in studio feeds number).is_empty ≡ true → f < studio.output.frames
        → mixed_samples studio feeds (block_start studio.output number +ℤ pos f)
        ≡ replicate (length (matrix_at studio.schedule (block_start studio.output number +ℤ pos f))) (pos 0) }
{}

/// States that longer lists of marks change neither what is missing in a block nor the values that are mixed in it,
/// once every stream is final to the block's end.
pub fn longer_marks_keep_what_is_missing()
    ensures missing { (studio : Studio) (feeds longer : List Feed) (number : ℕ) → AreLonger feeds longer
        → are_covered feeds (block_start studio.output (number + 1)) ≡ true
        → missing_in studio longer number ≡ missing_in studio feeds number }
    ensures inputs { (studio : Studio) (feeds longer : List Feed) (number : ℕ) → AreLonger feeds longer
        → are_covered feeds (block_start studio.output (number + 1)) ≡ true
        → block_inputs studio longer number ≡ block_inputs studio feeds number }
{}

/// States that a change of gains does not change what is missing in a block before its time.
pub fn later_changes_keep_what_is_missing()
    ensures missing { (studio : Studio) (feeds : List Feed) (number : ℕ) (at : ℤ) (gains : List ℤ)
        → block_start studio.output (number + 1) ≤ℤ at
        → missing_in (with_gains studio at gains) feeds number ≡ missing_in studio feeds number }
{}
