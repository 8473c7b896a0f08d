//! Laws of the sounds that the packets of a studio's streams hold. Nothing is computed here: the clauses are the laws.
ghost use Rattle.std.specs.Prelude.{◌≡◌, ℕ, List};
ghost use Rattle.studio_config.specs.Studio.{Studio};
ghost use Rattle.studio_mix.specs.Missing.{missing_in};
ghost use Rattle.studio_mix.specs.Output.{datagram_of};
ghost use Rattle.studio_mix.specs.Sound.{AreOfSound, AreTwins, HasSound, Sounds, sound_datagram};
ghost use Rattle.studio_session.specs.Event.{TraceEvent};
ghost use Rattle.studio_session.specs.Play.{IsRunnableBy, feeds_of};
ghost use Rattle.studio_session.specs.StreamSounds.{HasSounds, HasSoundsByTimestamp};

/// States that the values of each stream are those of the sound that its packets hold: if each packet of each stream
/// that came in time holds the stream's sound from the media time of its slot on, then each sample of each packet that
/// came is the sound's at its time, and so is each value of a stream wherever the stream is present.
///
/// By the media clock it is enough that each packet holds the sound from the time on that is in step with its timestamp
/// and nearest to its arrival.
pub fn events_have_the_sound_of_their_packets()
    ensures packets { (sound : Sounds) (studio : Studio) (events : List TraceEvent) → IsRunnableBy studio events
        → HasSounds sound studio events → AreOfSound sound (feeds_of studio events) }
    ensures values { (sound : Sounds) (studio : Studio) (events : List TraceEvent) → IsRunnableBy studio events
        → HasSounds sound studio events → HasSound sound (feeds_of studio events) }
    ensures by_timestamp { (sound : Sounds) (studio : Studio) (events : List TraceEvent)
        → IsRunnableBy studio events → HasSoundsByTimestamp sound studio events → HasSounds sound studio events }
{}

/// States that receivers of one sound return copies: two studios, each with events of its own, whose packets hold the
/// same sounds, return the same datagram for blocks in which no stream is missing, if the blocks have one header at one
/// media time, and the studios have streams of the same formats and the same matrices in force there.
///
/// The events, openings, paths, latencies and windows may differ, and so may the numbers of the blocks. The same holds
/// by the media clock, where each packet holds the sound from the time on that its timestamp says.
pub fn receivers_of_one_sound_return_copies()
    ensures datagrams { (sound : Sounds) (studio other : Studio) (events others : List TraceEvent) (number its : ℕ)
        → AreTwins studio other number its → IsRunnableBy studio events → IsRunnableBy other others
        → HasSounds sound studio events → HasSounds sound other others
        → (missing_in studio (feeds_of studio events) number).streams ≡ 0
        → (missing_in other (feeds_of other others) its).streams ≡ 0
        → datagram_of other (feeds_of other others) its ≡ datagram_of studio (feeds_of studio events) number }
    ensures by_timestamp { (sound : Sounds) (studio other : Studio) (events others : List TraceEvent)
        (number its : ℕ)
        → AreTwins studio other number its → IsRunnableBy studio events → IsRunnableBy other others
        → HasSoundsByTimestamp sound studio events → HasSoundsByTimestamp sound other others
        → (missing_in studio (feeds_of studio events) number).streams ≡ 0
        → (missing_in other (feeds_of other others) its).streams ≡ 0
        → datagram_of other (feeds_of other others) its ≡ datagram_of studio (feeds_of studio events) number }
{}

/// States that the datagram of a block in which no stream is missing is the senders' mix: if the packets of each stream
/// hold its sound, it is the datagram that the studio makes of the sounds themselves.
pub fn a_whole_datagram_is_the_senders_mix()
    ensures datagram { (sound : Sounds) (studio : Studio) (events : List TraceEvent) (number : ℕ)
        → IsRunnableBy studio events → HasSounds sound studio events
        → (missing_in studio (feeds_of studio events) number).streams ≡ 0
        → datagram_of studio (feeds_of studio events) number ≡ sound_datagram studio sound number }
    ensures by_timestamp { (sound : Sounds) (studio : Studio) (events : List TraceEvent) (number : ℕ)
        → IsRunnableBy studio events → HasSoundsByTimestamp sound studio events
        → (missing_in studio (feeds_of studio events) number).streams ≡ 0
        → datagram_of studio (feeds_of studio events) number ≡ sound_datagram studio sound number }
{}
