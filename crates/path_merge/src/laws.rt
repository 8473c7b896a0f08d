//! Laws of a stream's marks, numbers and epochs, and of merges. Nothing is computed here: the clauses are the laws.
ghost use Rattle.std.specs.Prelude.{
  ◌≡◌,
  ℕ,
  ◌+◌,
  ◌^◌,
  ◌<◌,
  ◌≤◌,
  ℤ,
  pos,
  ◌+ℤ◌,
  ◌-ℤ◌,
  ◌≤ℤ◌,
  ◌<ℤ◌,
  List,
  [],
  ◌∷◌,
  ◌++◌,
  length,
  take,
  true,
  false,
  None,
  Some,
  IfSome,
};
ghost use Rattle.std.specs.Int.{int_rem_euclid};
ghost use Rattle.rtp_stream.specs.declared.stream_spec.Stream.{Stream};
ghost use Rattle.rtp_stream.specs.StreamSpecFacts.{IsStream, format_of};
ghost use Rattle.rtp_stream.specs.MarkFacts.{MarkView};
ghost use Rattle.rtp_stream.specs.MarkList.{is_mark_list};
ghost use Rattle.path_merge.specs.MergeState.{MergeState};
ghost use Rattle.rtp_stream.specs.declared.anchor.Anchor.{Anchor};
ghost use Rattle.rtp_stream.specs.declared.packet.Packet.{Packet};
ghost use Rattle.rtp_stream.specs.declared.event.Event.{Event};
ghost use Rattle.rtp_stream.specs.declared.event.Event.TheVariants.{Arrive, Tick, Close};
ghost use Rattle.rtp_stream.specs.History.{time_of, is_closed, is_well_timed};
ghost use Rattle.rtp_stream.specs.Anchor.{deadline_of, next_number};
ghost use Rattle.rtp_stream.specs.declared.fate.Fate.TheVariants.{Restarted};
ghost use Rattle.rtp_stream.specs.Fate.{fate_of};
ghost use Rattle.rtp_stream.specs.Grid.{end_of_copies, extended_number, is_on_grid};
ghost use Rattle.rtp_stream.specs.Probation.{is_off};
ghost use Rattle.rtp_stream.specs.Epochs.{anchor_of, anchors_of, last_of};
ghost use Rattle.rtp_stream.specs.Copies.{copies_of, copies_of_all, first_copy, with_epoch};
ghost use Rattle.rtp_stream.specs.Marks.{end_mark, marks_of};
ghost use Rattle.rtp_stream.specs.EpochLaws.{HasSpans};
ghost use Rattle.rtp_stream.specs.Sent.{
  BeginsWith,
  HasEqualCopies,
  IsNear,
  IsOneEpoch,
  IsWithinReach,
  OpensNoEpoch,
  SentEvent,
  SentPacket,
  marks_by_number,
  sent_copies_after,
  timestamp_in_step,
  wire_history,
  wire_packet,
};
ghost use Rattle.rtp_stream.specs.Counts.{counts_of, fates_of};
ghost use Rattle.rtp_stream.specs.Follow.{is_following};
ghost use Rattle.rtp_stream.specs.declared.stream_spec.StreamClock.TheVariants.{Arrival, Follow};
ghost use Rattle.path_merge.specs.FollowLaws.{IsNeverAstray, by_clock};
ghost use Rattle.path_merge.specs.HeardOnce.{AreNear, GoOn, HasFewPaths, RisesFrom, numbers_heard, shift_of};
ghost use Rattle.path_merge.specs.Merge.{HasHistory};
ghost use Rattle.path_merge.specs.ClockLag.{IsDue, KeepUp};
ghost use Rattle.path_merge.specs.Clock.{clock_fault_of};
ghost use Rattle.path_merge.specs.NextMark.{next_mark};
ghost use Rattle.path_merge.specs.Steps.{IsAlike};
ghost use Rattle.rtp_stream.specs.Laws.{
  AreInOrder,
  IsDeadlineOnTheWay,
  IsLeastDue,
  IsOpen,
  slot_names,
  slot_times,
  slots_left,
  slots_reached,
};

/// States that the slots, by epoch and number, are exactly the spans of the epochs one after the other, rising, each
/// once: each with the media time of its number under its epoch's anchor, and with the payload of the earliest copy
/// that came in time in that epoch, on whichever path, or as lost. A slot is produced by the first reading that reaches
/// its deadline, or else by the close; and each slot is counted once, as got or as lost.
pub fn each_number_is_handed_on_once()
    ensures spans { (stream : Stream) (open_at : ℤ) (events : List Event) →
        0 < stream.frames → is_well_timed open_at events ≡ true → HasSpans stream open_at events }
    ensures by_tick { (stream : Stream) (open_at u : ℤ) (events : List Event) → is_closed events ≡ false →
        slot_names (marks_of stream open_at (events ++ Tick u ∷ []))
        ≡ slot_names (marks_of stream open_at events)
        ++ slots_reached stream (anchor_of stream open_at events) (time_of open_at events) u }
    ensures by_close { (stream : Stream) (open_at : ℤ) (events : List Event) → is_closed events ≡ false →
        slot_names (marks_of stream open_at (events ++ Close ∷ []))
        ≡ slot_names (marks_of stream open_at events)
        ++ slots_left stream (anchor_of stream open_at events) (time_of open_at events)
        (copies_of stream open_at events) }
    ensures counted { (stream : Stream) (open_at : ℤ) (events : List Event) (given : List MarkView) →
        (counts_of stream open_at events given).got + (counts_of stream open_at events given).lost
        ≡ length (slot_names given) }
{}

/// States that the number due next is the least, from the anchor's on, whose deadline is still to come; it never falls.
pub fn next_number_is_the_least_due()
    ensures least { (stream : Stream) (anchor : Anchor) (time : ℤ) →
        0 < stream.frames → IsLeastDue stream anchor time }
    ensures rising { (stream : Stream) (anchor : Anchor) (from to : ℤ) → 0 < stream.frames → from ≤ℤ to →
        next_number stream anchor from ≤ next_number stream anchor to }
{}

/// States that a clock reading at a deadline on the way to u, followed by the reading u, has the effect of the reading
/// u alone. A reading of the current time changes nothing.
pub fn ticks_may_be_split()
    ensures split { (stream : Stream) (open_at : ℤ) (events : List Event) (anchor : Anchor) (n : ℕ) (u : ℤ) →
        0 < stream.frames → IsOpen open_at events → IsDeadlineOnTheWay stream open_at events anchor n u →
        IsAlike stream open_at ((events ++ Tick (deadline_of stream anchor n) ∷ []) ++ Tick u ∷ [])
        (events ++ Tick u ∷ []) }
    ensures repeated { (stream : Stream) (open_at : ℤ) (events : List Event) →
        0 < stream.frames → IsOpen open_at events →
        IsAlike stream open_at (events ++ Tick (time_of open_at events) ∷ []) events }
{}

/// States that an arrival adds no mark and changes none, also one that opens an epoch; and no later event changes a
/// mark that was produced.
pub fn arrivals_change_no_mark()
    ensures arrival { (stream : Stream) (open_at : ℤ) (events : List Event) (path : ℕ) (packet : Packet) →
        0 < stream.frames → is_well_timed open_at events ≡ true →
        marks_of stream open_at (events ++ Arrive path packet ∷ []) ≡ marks_of stream open_at events }
    ensures later { (stream : Stream) (open_at : ℤ) (events more : List Event) →
        0 < stream.frames → is_well_timed open_at (events ++ more) ≡ true →
        take (length (marks_of stream open_at events)) (marks_of stream open_at (events ++ more))
        ≡ marks_of stream open_at events }
{}

/// States that the marks of every history, and each prefix of them, are a mark list. Media time never goes back in one,
/// also if an epoch opens.
pub fn marks_are_a_mark_list()
    ensures whole { (stream : Stream) (open_at : ℤ) (events : List Event) →
        0 < stream.frames → is_well_timed open_at events ≡ true →
        is_mark_list (format_of stream) (marks_of stream open_at events) ≡ true }
    ensures parts { (stream : Stream) (open_at : ℤ) (events : List Event) (k : ℕ) →
        0 < stream.frames → is_well_timed open_at events ≡ true →
        is_mark_list (format_of stream) (take k (marks_of stream open_at events)) ≡ true }
    ensures times { (stream : Stream) (open_at : ℤ) (events : List Event) →
        0 < stream.frames → is_well_timed open_at events ≡ true →
        AreInOrder stream.frames (slot_times (marks_of stream open_at events)) }
{}

/// States that the marks of an open history keep up with the clock: every mark's deadline came after the opening time
/// and not after the last reading; and once a reading is past the opening time, the last mark ends at most the latency
/// and a window of packets before it. A mark that a merge returns for a reading in order is due by that reading.
pub fn marks_keep_up_with_the_clock()
    ensures history { (stream : Stream) (open_at : ℤ) (events : List Event) → 0 < stream.frames
        → IsOpen open_at events →
        KeepUp stream open_at (time_of open_at events) (marks_of stream open_at events) }
    ensures borrowed { (stream : Stream) (open_at now : ℤ) (merge : MergeState) (events : List Event) (k : ℕ)
        (mark : MarkView) →
        0 < stream.frames → HasHistory stream open_at merge events k
        → clock_fault_of merge.time merge.closed now ≡ None →
        next_mark merge now ≡ Some mark → IsDue stream open_at now mark.kind }
{}

/// States that no event after a close adds a mark: the last mark is the end.
pub fn nothing_follows_a_close()
    ensures same { (stream : Stream) (open_at : ℤ) (events more : List Event) → is_closed events ≡ true →
        marks_of stream open_at (events ++ more) ≡ marks_of stream open_at events }
    ensures end { (stream : Stream) (open_at : ℤ) (events : List Event) → is_closed events ≡ true →
        last_of (marks_of stream open_at events) ≡ Some (end_mark stream) }
{}

/// States that an open merge has produced all marks of its history. A merge that has one of two histories that are
/// alike has the other.
pub fn merges_stand_at_their_histories()
    ensures all_given { (stream : Stream) (open_at : ℤ) (merge : MergeState) (events : List Event) (k : ℕ) →
        HasHistory stream open_at merge events k → is_closed events ≡ false →
        k ≡ length (marks_of stream open_at events) }
    ensures alike { (stream : Stream) (open_at : ℤ) (merge : MergeState) (events others : List Event) (k : ℕ) →
        IsAlike stream open_at events others → HasHistory stream open_at merge events k →
        HasHistory stream open_at merge others k }
{}

/// States that a number of any sign is known by its low 16 bits and its timestamp, among those that are less than 1,024
/// cycles of sequence numbers away: another one with the same low bits is off its grid.
pub fn aliases_are_off_grid()
    ensures known { (stream : Stream) (anchor : Anchor) (m n : ℤ) →
        IsStream stream → int_rem_euclid m (pos 65536) ≡ int_rem_euclid n (pos 65536) →
        m <ℤ (n +ℤ pos (2 ^ 26)) → n <ℤ (m +ℤ pos (2 ^ 26)) →
        timestamp_in_step stream anchor m ≡ timestamp_in_step stream anchor n → m ≡ n }
    ensures off_grid { (stream : Stream) (anchor : Anchor) (m : ℕ) (n : ℤ) →
        IsStream stream → int_rem_euclid (pos m) (pos 65536) ≡ int_rem_euclid n (pos 65536) →
        pos m <ℤ (n +ℤ pos (2 ^ 26)) → n <ℤ (pos m +ℤ pos (2 ^ 26)) → (pos m ≡ n → ⊥) →
        is_on_grid stream anchor m (timestamp_in_step stream anchor n) ≡ false }
{}

/// States that the marks are those of the full numbers, as sent, if the received history has one epoch and each number
/// lies from 2^25 below the one due next to just below 2^25 above it. Full numbers are whole numbers of any sign. If
/// all packets of a number have one payload, its first copy has it. The clock `Follow` takes a packet that is in time
/// for too early while the stream is emptying, so it is left out.
pub fn sent_numbers_are_recovered()
    ensures marks { (stream : Stream) (anchor : Anchor) (open_at : ℤ) (sent : List SentEvent) →
        IsStream stream → is_following stream.clock ≡ false → BeginsWith stream anchor open_at sent
        → IsWithinReach stream anchor (2 ^ 25) open_at sent →
        IsOneEpoch stream open_at (wire_history stream anchor sent) →
        marks_of stream open_at (wire_history stream anchor sent) ≡ marks_by_number stream anchor open_at sent }
    ensures payload { (stream : Stream) (anchor : Anchor) (open_at : ℤ) (sent : List SentEvent) (number : ℕ)
        (payload : List ℕ) →
        IsStream stream → is_following stream.clock ≡ false → BeginsWith stream anchor open_at sent
        → IsWithinReach stream anchor (2 ^ 25) open_at sent →
        IsOneEpoch stream open_at (wire_history stream anchor sent) → HasEqualCopies number payload sent →
        IfSome (first_copy stream open_at (wire_history stream anchor sent) number)
        (λ packet. packet.payload.items ≡ payload) }
{}

/// States that packets are copies of the numbers that they were sent as, in every epoch, whatever came before. That
/// holds until another epoch opens, if the packets are under the epoch's anchor and their numbers lie from 2^25 below
/// the one due next to just below 2^25 above it, by a clock other than `Follow`.
pub fn each_epoch_recovers_its_numbers()
    ensures { (stream : Stream) (anchor : Anchor) (open_at : ℤ) (before : List Event) (sent : List SentEvent) →
        IsStream stream → is_following stream.clock ≡ false → anchor_of stream open_at before ≡ Some anchor
        → is_closed before ≡ false →
        IsWithinReach stream anchor (2 ^ 25) (time_of open_at before) sent →
        OpensNoEpoch stream open_at before (wire_history stream anchor sent) →
        copies_of_all stream open_at (before ++ wire_history stream anchor sent)
        ≡ copies_of_all stream open_at before
        ++ with_epoch (Some anchor) (sent_copies_after stream anchor open_at before sent) }
{}

/// States that the received history has one epoch if each number lies from 2^15 below the one due next to just below
/// 2^15 above it, by a clock other than `Follow`: no packet is off the grid, so no probation begins. The marks are then
/// those of the numbers as sent.
pub fn near_numbers_open_one_epoch()
    ensures one { (stream : Stream) (anchor : Anchor) (open_at : ℤ) (sent : List SentEvent) →
        is_following stream.clock ≡ false → BeginsWith stream anchor open_at sent
        → IsWithinReach stream anchor (2 ^ 15) open_at sent →
        IsOneEpoch stream open_at (wire_history stream anchor sent) }
    ensures marks { (stream : Stream) (anchor : Anchor) (open_at : ℤ) (sent : List SentEvent) →
        is_following stream.clock ≡ false → BeginsWith stream anchor open_at sent
        → IsWithinReach stream anchor (2 ^ 15) open_at sent →
        marks_of stream open_at (wire_history stream anchor sent) ≡ marks_by_number stream anchor open_at sent }
{}

/// States that a history in which no arrival is behind or beyond has by the clock `Follow` the fates and marks that it
/// has by the clock `Arrival`. Second copies that are late, other sources and packets off the grid may be among its
/// arrivals.
pub fn a_sender_in_time_is_heard_as_by_arrival()
    ensures fates { (stream : Stream) (open_at : ℤ) (events : List Event) →
        IsNeverAstray (by_clock Follow stream) open_at events →
        fates_of (by_clock Follow stream) open_at events ≡ fates_of (by_clock Arrival stream) open_at events }
    ensures marks { (stream : Stream) (open_at : ℤ) (events : List Event) →
        IsNeverAstray (by_clock Follow stream) open_at events →
        marks_of (by_clock Follow stream) open_at events ≡ marks_of (by_clock Arrival stream) open_at events }
{}

/// States that an epoch that a packet in step opens begins past all that was heard in the epoch before: no copy that
/// came in time there has its number or a greater one. So nothing is heard twice unless a probation opened an epoch:
/// the numbers of all slots with a payload, counted on over the epochs, rise.
///
/// These are the numbers that the sender gave its packets, if the number of each lies from 2^25 below the one due next
/// to just below 2^25 above it, counted on over the epochs.
pub fn an_epoch_begins_past_all_that_was_heard()
    ensures past { (stream : Stream) (open_at : ℤ) (events : List Event) (anchor : Anchor) (path : ℕ)
        (packet : Packet) →
        0 < stream.frames → HasFewPaths events → anchor_of stream open_at events ≡ Some anchor →
        fate_of stream open_at events path packet ≡ Restarted →
        is_off stream anchor (next_number stream anchor (time_of open_at events)) packet ≡ false →
        end_of_copies (copies_of stream open_at events)
        ≤ extended_number packet (next_number stream anchor (time_of open_at events)) }
    ensures once { (stream : Stream) (open_at : ℤ) (events : List Event) →
        0 < stream.frames → is_well_timed open_at events ≡ true → HasFewPaths events →
        GoOn stream open_at events (anchors_of stream open_at events) →
        RisesFrom (pos 0) (numbers_heard stream open_at events) }
    ensures sent { (stream : Stream) (first anchor : Anchor) (open_at : ℤ) (sent : List SentEvent)
        (packet : SentPacket) →
        IsStream stream → BeginsWith stream first open_at sent → AreNear stream first open_at (2 ^ 25) [] sent →
        is_closed (wire_history stream first sent) ≡ false →
        GoOn stream open_at (wire_history stream first sent)
        (anchors_of stream open_at (wire_history stream first sent)) →
        anchor_of stream open_at (wire_history stream first sent) ≡ Some anchor →
        IsNear (2 ^ 25) (next_number stream anchor (time_of open_at (wire_history stream first sent)))
        (packet.number -ℤ shift_of stream open_at (wire_history stream first sent) anchor) →
        is_off stream anchor (next_number stream anchor (time_of open_at (wire_history stream first sent)))
        (wire_packet stream first packet) ≡ false →
        pos (extended_number (wire_packet stream first packet)
        (next_number stream anchor (time_of open_at (wire_history stream first sent))))
        +ℤ shift_of stream open_at (wire_history stream first sent) anchor ≡ packet.number }
{}
