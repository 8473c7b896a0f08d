//! Laws of media times and of the sound in a stream's slots. Nothing is computed here: the clauses are the laws.
ghost use Rattle.std.specs.Prelude.{◌≡◌, ℕ, ◌<◌, ℤ, List, true, All};
ghost use Rattle.rtp_stream.specs.declared.stream_spec.Stream.{Stream};
ghost use Rattle.rtp_stream.specs.declared.stream_spec.StreamClock.TheVariants.{Media};
ghost use Rattle.rtp_stream.specs.StreamSpecFacts.{IsStream};
ghost use Rattle.rtp_stream.specs.declared.anchor.Anchor.{Anchor};
ghost use Rattle.rtp_stream.specs.declared.packet.Packet.{Packet};
ghost use Rattle.rtp_stream.specs.declared.event.Event.{Event};
ghost use Rattle.rtp_stream.specs.History.{time_of, is_well_timed};
ghost use Rattle.rtp_stream.specs.Anchor.{media_time_of};
ghost use Rattle.rtp_stream.specs.Marks.{marks_of};
ghost use Rattle.path_merge.specs.MediaTime.{
  AreNearTimes,
  HasSoundByTimestamp,
  HasSoundOf,
  HoldsSound,
  IfGot,
  IsCarried,
  IsCarriedInStep,
  IsInTimeCopy,
  IsMediaTimeOf,
};

/// States that media time is absolute by the media clock: the media time of a packet that came in time depends on its
/// timestamp and on the time of its arrival alone, and on no anchor, epoch or number. It is the time nearest to the
/// arrival that is in step with the timestamp, its deadline is still to come, and it is less than two windows past the
/// arrival minus the latency.
///
/// Each slot with a payload, by any clock and in every epoch, carries the first in-time copy of its number there. By
/// the media clock it has the media time of that packet.
pub fn media_time_is_absolute()
    ensures copies { (stream : Stream) (offset : ℕ) (open_at : ℤ) (before : List Event) (path : ℕ) (packet : Packet)
        (anchor : Anchor) (number : ℕ) →
        IsStream stream → stream.clock ≡ Media offset → is_well_timed open_at before ≡ true →
        IsInTimeCopy stream open_at before path packet anchor number →
        IsMediaTimeOf stream offset packet.ts (time_of open_at before) (media_time_of stream anchor number) }
    ensures carried { (stream : Stream) (open_at : ℤ) (events : List Event) →
        0 < stream.frames → is_well_timed open_at events ≡ true →
        All (λ mark. IfGot (IsCarried stream open_at events) mark.kind) (marks_of stream open_at events) }
    ensures slots { (stream : Stream) (offset : ℕ) (open_at : ℤ) (events : List Event) →
        IsStream stream → stream.clock ≡ Media offset → is_well_timed open_at events ≡ true →
        All (λ mark. IfGot (IsCarriedInStep stream offset open_at events) mark.kind) (marks_of stream open_at events) }
{}

/// States that a packet has one media time at all receivers by the media clock with one offset. If two of them take
/// packets of one timestamp less than 2^32 - 2^24 sampling instants apart, the media times of the packets, and of the
/// slots that carry them, are equal. Openings, ticks, losses, paths, latencies, windows, packet times, anchors and
/// epochs may differ.
pub fn one_packet_has_one_time()
    ensures copies { (one other : Stream) (offset : ℕ) (open_at other_open_at : ℤ) (before other_before : List Event)
        (path other_path : ℕ) (packet other_packet : Packet) (anchor other_anchor : Anchor)
        (number other_number : ℕ) →
        IsStream one → IsStream other → one.clock ≡ Media offset → other.clock ≡ Media offset →
        is_well_timed open_at before ≡ true → is_well_timed other_open_at other_before ≡ true →
        IsInTimeCopy one open_at before path packet anchor number →
        IsInTimeCopy other other_open_at other_before other_path other_packet other_anchor other_number →
        packet.ts ≡ other_packet.ts →
        AreNearTimes (time_of open_at before) (time_of other_open_at other_before) →
        media_time_of one anchor number ≡ media_time_of other other_anchor other_number }
    ensures slots { (one other : Stream) (offset : ℕ) (open_at other_open_at : ℤ) (events other_events : List Event)
        (epoch other_epoch number other_number : ℕ) (media other_media : ℤ) (octets other_octets : List ℕ)
        (slot : IsCarriedInStep one offset open_at events epoch number media octets)
        (other_slot : IsCarriedInStep other offset other_open_at other_events other_epoch other_number other_media
        other_octets) →
        IsStream one → IsStream other → slot.carried.packet.ts ≡ other_slot.carried.packet.ts →
        AreNearTimes (time_of open_at slot.carried.before) (time_of other_open_at other_slot.carried.before) →
        media ≡ other_media }
{}

/// States that if each packet that came in time holds a sound from the media time of its slot on, each slot with a
/// payload holds it, in every epoch. By the media clock it is enough that each packet holds the sound from the time on
/// that is in step with its timestamp and nearest to its arrival.
pub fn slots_hold_the_sound_of_their_packets()
    ensures slots { (sound : ℤ → ℕ → ℤ) (stream : Stream) (open_at : ℤ) (events : List Event) →
        0 < stream.frames → is_well_timed open_at events ≡ true → HasSoundOf sound stream open_at events →
        All (λ mark. IfGot (λ epoch number media octets. HoldsSound stream sound media octets) mark.kind)
        (marks_of stream open_at events) }
    ensures by_timestamp { (sound : ℤ → ℕ → ℤ) (stream : Stream) (offset : ℕ) (open_at : ℤ) (events : List Event) →
        IsStream stream → stream.clock ≡ Media offset → is_well_timed open_at events ≡ true →
        HasSoundByTimestamp sound stream offset open_at events → HasSoundOf sound stream open_at events }
{}
