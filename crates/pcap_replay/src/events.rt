//! The events of a capture: for each packet that has a path a clock reading and an arrival, and for each change of
//! gains a reading.
ghost use Rattle.std.specs.Prelude.{
  ◌≡◌,
  ◌≤◌,
  ◌≤ℤ◌,
  ◌<◌,
  ◌+◌,
  ◌^◌,
  ◌∷◌,
  ◌++◌,
  [],
  ℕ,
  ℤ,
  pos,
  List,
  Option,
  None,
  length,
  drop,
  slice_get,
  false,
  is_some,
  IfOk,
  IfErr,
  IfSome,
  OnOk,
};
ghost use Rattle.pcap_file.specs.Packet.{PacketView, packet_view};
ghost use Rattle.pcap_file.specs.ReadBuffer.{octets_of};
ghost use Rattle.pcap_file.specs.Reader.{IsNext, packets_in};
ghost use Rattle.pcap_flows.specs.Clock.{clock_with};
ghost use Rattle.path_merge.specs.Clock.{clock_fault_of};
ghost use Rattle.studio_config.specs.Studio.{Studio};
ghost use Rattle.studio_session.specs.Event.{TraceEvent, Arrival};
ghost use Rattle.pcap_replay.specs.Events.{events_of, events_with, read_at};
ghost use Rattle.studio_mix.specs.Changed.{with_changes};
ghost use Rattle.pcap_replay.specs.RecordChanges.{changed_by, changes_with};
ghost use Rattle.pcap_replay.specs.Routing.{clock_past, longest_of, opening_of, plan_view, role_of};
ghost use Rattle.pcap_replay.specs.Record.{closing_with, place_with};
ghost use Rattle.pcap_replay.specs.Reasons.{IsCount, IsOfEvent, IsOfTurn, IsPathFault, refused_at};
ghost use Rattle.pcap_replay.specs.Causes.{IsPacketFault, IsReadingFault, count_on, rule_at};
ghost use Rattle.pcap_replay.specs.Replay.{
  HasGoneOver,
  HasReplayed,
  HasTaken,
  IsOwn,
  IsReplaying,
  IsRun,
  Stops,
  StopsFile,
};
ghost use Rattle.studio_session.specs.Fault.{time_at};
ghost use Rattle.studio_engine.specs.Engine.{stream_spec_of};
ghost use Rattle.studio_engine.specs.Session.{turned};

use crate::fault::ReplayFault;
use crate::observer::ReplayObserver;
use crate::output::write_turn;
use crate::record_times::first_close;
use crate::routing::{PacketRole, ReadingRule, Routing, StreamPath};
use crate::state::ReplayState;
use path_merge::clock_fault;
use pcap_file::{
    BlockParser, CaptureBlock, Packet, ReadBuffer, ReaderFault, RecordMark, next_block,
};
use pcap_flows::datagram_octets;
use rtp_stream::Path;
use std::io::{Read, Write};
use studio_engine::{ArriveFault, Engine};
use studio_session::StudioFault;

/// The number of sampling instants in a second.
const INSTANTS_A_SECOND: u64 = 48_000;

impl ReplayState {
    /// Takes the events of the rest of a capture, up to its end. Returns the time of the first mark of a close,
    /// if there is one, in nanoseconds from the studio's opening on, and the number of octets before that mark's block.
    pub(crate) fn run_events<R: Read, W: Write, L: ReplayObserver>(
        &mut self,
        plan: &Routing<'_>,
        parts: &mut BlockParser,
        window: &mut ReadBuffer,
        reader: &mut R,
        writer: &mut W,
        observer: &mut L,
    ) -> Result<(Option<u64>, usize), ReplayFault>
        ensures ok { IfOk result
            (λ ended. (studio : Studio) (first : Option (List ℕ)) (written : Option (List ℕ)) (begun : L)
            → IsReplaying studio (plan_view plan.now) first written self.old parts.old
            (octets_of window.old) window.old.ended (R.remaining reader.old) (W.contents writer.old)
            (L.heard begun observer.old) None 0
            → HasGoneOver studio (plan_view plan.now) first written self.new (W.contents writer.new)
            (L.heard begun observer.new) ended.0 ended.1) }
        ensures fault { IfErr result
            (λ fault. (studio : Studio) (first : Option (List ℕ)) (written : Option (List ℕ)) (begun : L)
            → IsReplaying studio (plan_view plan.now) first written self.old parts.old
            (octets_of window.old) window.old.ended (R.remaining reader.old) (W.contents writer.old)
            (L.heard begun observer.old) None 0
            → StopsFile studio (plan_view plan.now) first written self.new (W.contents writer.new)
            (L.heard begun observer.new) fault) }
    {
        let mut closing = None;
        let mut closing_place = 0usize;
        // The label names the loop in its proof.
        'parts: for _ in 0..u64::MAX {
            if !plan.has_next(parts, window, reader)? {
                return Ok((closing, closing_place));
            }
            let place = parts.place();
            // The block borrows the window, so only its length and its mark come back before `consume`.
            let (len, mark) = self.take_next(plan, parts, window, writer, observer)?;
            closing_place = place_of_close(closing, closing_place, place);
            closing = first_close(closing, mark);
            window.consume(len);
        }
        // Each record or block has an octet, so the next one would begin behind 2^63.
        Err(ReplayFault::Capture(ReaderFault::TooLong(parts.place())))
    }

    /// Takes the events of the next record or block. Returns its length in octets and its mark.
    fn take_next<W: Write, L: ReplayObserver>(
        &mut self,
        plan: &Routing<'_>,
        parts: &mut BlockParser,
        window: &ReadBuffer,
        writer: &mut W,
        observer: &mut L,
    ) -> Result<(usize, Option<RecordMark>), ReplayFault>
        requires next { IsNext parts.old (octets_of window.now) window.now.ended }
        ensures len { IfOk result (λ passed. passed.0 ≤ length (octets_of window.now)) }
        ensures ok { IfOk result
            (λ passed. (studio : Studio) (first : Option (List ℕ)) (written : Option (List ℕ))
            (begun : L) (left : Option (List ℕ)) (closing : Option ℕ) (close_place : ℕ)
            → IsReplaying studio (plan_view plan.now) first written self.old parts.old
            (octets_of window.now) window.now.ended left (W.contents writer.old) (L.heard begun observer.old) closing
            close_place
            → IsReplaying studio (plan_view plan.now) first written self.new parts.new
            (drop passed.0 (octets_of window.now)) window.now.ended left (W.contents writer.new)
            (L.heard begun observer.new) (closing_with closing passed.1)
            (place_with closing close_place parts.old.place)) }
        ensures fault { IfErr result
            (λ fault. (studio : Studio) (first : Option (List ℕ)) (written : Option (List ℕ)) (begun : L)
            (left : Option (List ℕ)) (closing : Option ℕ) (close_place : ℕ)
            → IsReplaying studio (plan_view plan.now) first written self.old parts.old
            (octets_of window.now) window.now.ended left (W.contents writer.old) (L.heard begun observer.old) closing
            close_place
            → StopsFile studio (plan_view plan.now) first written self.new (W.contents writer.new)
            (L.heard begun observer.new) fault) }
    {
        let place = parts.place();
        match next_block(parts, window) {
            Ok(part) => {
                self.take_part(plan, place, &part, writer, observer)?;
                Ok((part.len, part.mark))
            }
            Err(fault) => Err(ReplayFault::Capture(ReaderFault::Capture(fault))),
        }
    }

    /// Takes the events and the change of a record or a block at a place of the file: those of its packet, if it has
    /// one.
    fn take_part<W: Write, L: ReplayObserver>(
        &mut self,
        plan: &Routing<'_>,
        place: usize,
        part: &CaptureBlock<'_>,
        writer: &mut W,
        observer: &mut L,
    ) -> Result<(), ReplayFault>
        ensures ok { OnOk result ((studio : Studio) (packets : List PacketView) (written : Option (List ℕ)) (begun : L)
            → HasTaken studio (plan_view plan.now) packets written self.old (W.contents writer.old)
            (L.heard begun observer.old)
            → HasTaken studio (plan_view plan.now) (packets ++ packets_in part.now) written self.new
            (W.contents writer.new) (L.heard begun observer.new)) }
        ensures fault { IfErr result
            (λ fault. (studio : Studio) (packets : List PacketView) (written : Option (List ℕ)) (begun : L)
            → HasTaken studio (plan_view plan.now) packets written self.old (W.contents writer.old)
            (L.heard begun observer.old)
            → Stops (changed_by studio (plan_view plan.now) packets)
            (events_of studio (plan_view plan.now) (packets ++ packets_in part.now)) written self.new
            (W.contents writer.new) (L.heard begun observer.new) fault) }
        ensures kind { IfErr result (λ fault. IsOwn fault) }
        ensures cause { IfErr result (λ fault. (packet : PacketView) × (packets_in part.now ≡ packet ∷ [])
            × IsPacketFault (rule_at (plan_view plan.now) place) self.old.clock self.old.changes self.new.engine.mixer
            packet (role_of (plan_view plan.now) packet) fault) }
    {
        match part.packet {
            Some(packet) => self.take(plan, place, &packet, writer, observer),
            None => Ok(()),
        }
    }

    /// Takes the events and the change of a packet at a place of the file: a clock reading and an arrival if it goes to
    /// a path, and a reading and the change if it is a change of gains.
    fn take<W: Write, L: ReplayObserver>(
        &mut self,
        plan: &Routing<'_>,
        place: usize,
        packet: &Packet<'_>,
        writer: &mut W,
        observer: &mut L,
    ) -> Result<(), ReplayFault>
        ensures ok { OnOk result ((studio : Studio) (events : List TraceEvent) (written : Option (List ℕ)) (begun : L)
            → HasReplayed studio events written self.old (W.contents writer.old) (L.heard begun observer.old)
            → HasReplayed
            (with_changes studio (changes_with (opening_of (plan_view plan.now)) (packet_view packet.now)
            (role_of (plan_view plan.now) (packet_view packet.now))))
            (events_with studio.open_at (opening_of (plan_view plan.now)) self.old.clock events (packet_view packet.now)
            (role_of (plan_view plan.now) (packet_view packet.now))) written self.new (W.contents writer.new)
            (L.heard begun observer.new)) }
        ensures kind { IfErr result (λ fault. IsOwn fault) }
        ensures clock { OnOk result (self.new.clock
            ≡ clock_past self.old.clock (packet_view packet.now)
            (role_of (plan_view plan.now) (packet_view packet.now))) }
        ensures steady { OnOk result ((clock_past self.old.clock (packet_view packet.now)
            (role_of (plan_view plan.now) (packet_view packet.now))).reading
            ≤ self.old.clock.reading + longest_of (plan_view plan.now)) }
        ensures fault { IfErr result
            (λ fault. (studio : Studio) (events : List TraceEvent) (written : Option (List ℕ)) (begun : L)
            → HasReplayed studio events written self.old (W.contents writer.old) (L.heard begun observer.old)
            → Stops studio
            (events_with studio.open_at (opening_of (plan_view plan.now)) self.old.clock events (packet_view packet.now)
            (role_of (plan_view plan.now) (packet_view packet.now))) written self.new (W.contents writer.new)
            (L.heard begun observer.new) fault) }
        ensures cause { IfErr result (λ fault. IsPacketFault (rule_at (plan_view plan.now) place) self.old.clock
            self.old.changes self.new.engine.mixer (packet_view packet.now)
            (role_of (plan_view plan.now) (packet_view packet.now)) fault) }
        ensures changes { OnOk result (self.new.changes
            ≡ count_on self.old.changes (changes_with (opening_of (plan_view plan.now)) (packet_view packet.now)
            (role_of (plan_view plan.now) (packet_view packet.now)))) }
    {
        let rule = ReadingRule {
            from: plan.opening(),
            longest: plan.longest_step(),
            place,
        };
        match plan.role(packet) {
            PacketRole::Passed => Ok(()),
            PacketRole::Arrival(target) => self.take_arrival(
                rule, packet, target, writer, observer,
            ),
            PacketRole::Change => self.take_change(rule, packet, writer, observer),
        }
    }

    /// Takes a clock reading at a packet's time, by a rule, and its datagram, which arrived on a path.
    fn take_arrival<W: Write, L: ReplayObserver>(
        &mut self,
        rule: ReadingRule,
        packet: &Packet<'_>,
        target: StreamPath,
        writer: &mut W,
        observer: &mut L,
    ) -> Result<(), ReplayFault>
        ensures ok { OnOk result ((studio : Studio) (events : List TraceEvent) (written : Option (List ℕ)) (begun : L)
            → HasReplayed studio events written self.old (W.contents writer.old) (L.heard begun observer.old)
            → HasReplayed studio
            (events_with studio.open_at rule.from self.old.clock events (packet_view packet.now)
            (PacketRole.Arrival target)) written self.new (W.contents writer.new) (L.heard begun observer.new)) }
        ensures kind { IfErr result (λ fault. IsOwn fault) }
        ensures clock { OnOk result (self.new.clock ≡ clock_with self.old.clock packet.now.time) }
        ensures steady { OnOk result ((clock_with self.old.clock packet.now.time).reading
            ≤ self.old.clock.reading + rule.longest) }
        ensures fault { IfErr result
            (λ fault. (studio : Studio) (events : List TraceEvent) (written : Option (List ℕ)) (begun : L)
            → HasReplayed studio events written self.old (W.contents writer.old) (L.heard begun observer.old)
            → Stops studio
            (events_with studio.open_at rule.from self.old.clock events (packet_view packet.now)
            (PacketRole.Arrival target)) written self.new (W.contents writer.new) (L.heard begun observer.new) fault) }
        ensures cause { IfErr result (λ fault. IsPacketFault rule self.old.clock self.old.changes self.new.engine.mixer
            (packet_view packet.now) (PacketRole.Arrival target) fault) }
        ensures changes { OnOk result (self.new.changes ≡ self.old.changes) }
    {
        self.read(rule, packet.time, writer, observer)?;
        self.arrive(target, datagram_octets(packet), observer)
    }

    /// Takes a clock reading at a packet's time, by a rule, and its change of gains.
    // The run had turned to that reading when it took the change. So the same blocks are returned before it, and the
    // schedule has the same free places.
    fn take_change<W: Write, L: ReplayObserver>(
        &mut self,
        rule: ReadingRule,
        packet: &Packet<'_>,
        writer: &mut W,
        observer: &mut L,
    ) -> Result<(), ReplayFault>
        ensures ok { OnOk result ((studio : Studio) (events : List TraceEvent) (written : Option (List ℕ)) (begun : L)
            → HasReplayed studio events written self.old (W.contents writer.old) (L.heard begun observer.old)
            → HasReplayed (with_changes studio (changes_with rule.from (packet_view packet.now) PacketRole.Change))
            (events_with studio.open_at rule.from self.old.clock events (packet_view packet.now) PacketRole.Change)
            written self.new (W.contents writer.new) (L.heard begun observer.new)) }
        ensures kind { IfErr result (λ fault. IsOwn fault) }
        ensures clock { OnOk result (self.new.clock ≡ clock_with self.old.clock packet.now.time) }
        ensures steady { OnOk result ((clock_with self.old.clock packet.now.time).reading
            ≤ self.old.clock.reading + rule.longest) }
        ensures fault { IfErr result
            (λ fault. (studio : Studio) (events : List TraceEvent) (written : Option (List ℕ)) (begun : L)
            → HasReplayed studio events written self.old (W.contents writer.old) (L.heard begun observer.old)
            → Stops studio
            (events_with studio.open_at rule.from self.old.clock events (packet_view packet.now) PacketRole.Change)
            written self.new (W.contents writer.new) (L.heard begun observer.new) fault) }
        ensures cause { IfErr result (λ fault. IsPacketFault rule self.old.clock self.old.changes self.new.engine.mixer
            (packet_view packet.now) PacketRole.Change fault) }
        ensures changes { OnOk result (self.new.changes
            ≡ count_on self.old.changes (changes_with rule.from (packet_view packet.now) PacketRole.Change)) }
    {
        self.read(rule, packet.time, writer, observer)?;
        self.change(rule.from, datagram_octets(packet))
    }

    /// Moves the clock to a time in nanoseconds, and takes its reading in sampling instants by a rule. A reading that
    /// isn't later is no event.
    pub(crate) fn read<W: Write, L: ReplayObserver>(
        &mut self,
        rule: ReadingRule,
        time: Option<u64>,
        writer: &mut W,
        observer: &mut L,
    ) -> Result<(), ReplayFault>
        ensures ok { OnOk result ((studio : Studio) (events : List TraceEvent) (written : Option (List ℕ)) (begun : L)
            → HasReplayed studio events written self.old (W.contents writer.old) (L.heard begun observer.old)
            → HasReplayed studio
            (read_at studio.open_at rule.from events self.old.clock.reading
            (clock_with self.old.clock time).reading) written self.new (W.contents writer.new)
            (L.heard begun observer.new)) }
        ensures kind { IfErr result (λ fault. IsOwn fault) }
        ensures clock { self.new.clock ≡ clock_with self.old.clock time }
        ensures steady { OnOk result ((clock_with self.old.clock time).reading
            ≤ self.old.clock.reading + rule.longest) }
        ensures fault { IfErr result
            (λ fault. (studio : Studio) (events : List TraceEvent) (written : Option (List ℕ)) (begun : L)
            → HasReplayed studio events written self.old (W.contents writer.old) (L.heard begun observer.old)
            → Stops studio
            (read_at studio.open_at rule.from events self.old.clock.reading
            (clock_with self.old.clock time).reading) written self.new (W.contents writer.new)
            (L.heard begun observer.new) fault) }
        ensures jump { IfErr result
            (λ fault. IsReadingFault rule self.old.clock (clock_with self.old.clock time) fault) }
        ensures changes { self.new.changes ≡ self.old.changes }
    {
        let earlier = self.clock.reading();
        self.clock.read(time);
        let reading = self.clock.reading();
        if reading <= earlier {
            return Ok(());
        }
        let step = reading - earlier;
        if step > rule.longest {
            return Err(ReplayFault::Jump(rule.place, step.div_ceil(INSTANTS_A_SECOND)));
        }
        self.turn(rule.from, reading, writer, observer)
    }

    /// Moves the engine on to a reading, and writes the datagrams that it returns. A reading that repeats the engine's
    /// time is no event.
    fn turn<W: Write, L: ReplayObserver>(
        &mut self,
        from: u64,
        reading: u64,
        writer: &mut W,
        observer: &mut L,
    ) -> Result<(), ReplayFault>
        ensures ok { OnOk result ((studio : Studio) (events : List TraceEvent) (written : Option (List ℕ)) (begun : L)
            → HasReplayed studio events written self.old (W.contents writer.old) (L.heard begun observer.old)
            → HasReplayed studio (turned (time_at studio.open_at events) (pos (from + reading)) events) written self.new
            (W.contents writer.new) (L.heard begun observer.new)) }
        ensures kind { IfErr result (λ fault. IsOwn fault) }
        ensures clock { self.new.clock ≡ self.old.clock }
        ensures fault { IfErr result
            (λ fault. (studio : Studio) (events : List TraceEvent) (written : Option (List ℕ)) (begun : L)
            → HasReplayed studio events written self.old (W.contents writer.old) (L.heard begun observer.old)
            → Stops studio (turned (time_at studio.open_at events) (pos (from + reading)) events) written self.new
            (W.contents writer.new) (L.heard begun observer.new) fault) }
        ensures of_turn { IfErr result (λ fault. IsOfTurn fault) }
        ensures changes { self.new.changes ≡ self.old.changes }
    {
        let time = self.engine.time();
        let Some(now) = instants_at(from, reading) else {
            return Err(ReplayFault::Run(StudioFault::Clock(self.count)));
        };
        if refuses(&self.engine, now) {
            return Err(ReplayFault::Run(StudioFault::Clock(self.count)));
        }
        write_turn(&mut self.engine, now, &mut self.text, writer, observer)?;
        report_reading(observer, time, now);
        self.count = count_reading(self.count, time, now);
        Ok(())
    }

    /// Takes a datagram that arrived on a path, and reports it to the observer.
    fn arrive<L: ReplayObserver>(
        &mut self,
        target: StreamPath,
        octets: &[u8],
        observer: &mut L,
    ) -> Result<(), ReplayFault>
        ensures ok { OnOk result
            ((studio : Studio) (events : List TraceEvent) (written written_then : Option (List ℕ)) (begun : L)
            → HasReplayed studio events written self.old written_then (L.heard begun observer.old)
            → HasReplayed studio
            (events ++ Arrival target.stream target.path octets.now ∷ []) written self.new written_then
            (L.heard begun observer.new)) }
        ensures fault { IfErr result
            (λ fault. (studio : Studio) (events : List TraceEvent) (written written_then : Option (List ℕ)) (begun : L)
            → HasReplayed studio events written self.old written_then (L.heard begun observer.old)
            → Stops studio (events ++ Arrival target.stream target.path octets.now ∷ []) written self.new written_then
            (L.heard begun observer.new) fault) }
        ensures kind { IfErr result (λ fault. IsRun fault) }
        ensures of_event { IfErr result (λ fault. IsOfEvent fault) }
        ensures clock { self.new.clock ≡ self.old.clock }
        ensures changes { self.new.changes ≡ self.old.changes }
    {
        // A route's letter may be that of no path.
        let Some(path) = Path::new(target.path) else {
            return Err(self.path_fault_of(target.stream));
        };
        match self.engine.arrive(target.stream, path, octets) {
            Ok(_outcome) => {
                observer.arrived(target.stream, path, octets);
                self.count = self.count.saturating_add(1);
                Ok(())
            }
            Err(fault) => Err(fault_at(self.count, fault)),
        }
    }

    /// Returns the fault of a datagram on a path that no stream has.
    fn path_fault_of(&self, stream: usize) -> ReplayFault
        ensures { (path : ℕ) → 4 ≤ path
            → IsPathFault self.now.count path (stream_spec_of (slice_get self.now.engine.cursors stream)) result }
    {
        match self.engine.stream(stream) {
            Some(spec) => {
                // Only for its clause: a stream has at most four paths.
                let _ = spec.paths();
                ReplayFault::Run(StudioFault::Path(self.count))
            }
            None => ReplayFault::Run(StudioFault::Stream(self.count)),
        }
    }
}

/// Returns the place of the block with the first mark of a close, by that of the blocks so far and the place of one
/// more block. If no block has a mark it is the last one's.
fn place_of_close(closing: Option<u64>, so_far: usize, place: usize) -> usize
    ensures { result ≡ place_with closing so_far place }
{
    match closing {
        Some(_) => so_far,
        None => place,
    }
}

/// Returns a clock reading from an opening on as a time of the engine, if it fits.
fn instants_at(from: u64, reading: u64) -> Option<i64>
    ensures value { IfSome result (λ now. now ≡ pos (from + reading)) }
    ensures small { IfSome result (λ now. from + reading < 2 ^ 63) }
    ensures none { result ≡ None → 2 ^ 63 ≤ from + reading }
{
    let instants = from.checked_add(reading)?;
    i64::try_from(instants).ok()
}

/// Reports a reading to the observer, if it isn't the one before.
fn report_reading<L: ReplayObserver>(observer: &mut L, before: i64, now: i64)
    ensures { (begun : L) (events : List TraceEvent) (datagrams : List (List ℕ))
        → L.heard begun observer.old events datagrams
        → L.heard begun observer.new (turned before now events) datagrams }
{
    if before != now {
        observer.read(now);
    }
}

/// Returns the number of events after a reading, if it isn't the one before.
fn count_reading(count: usize, before: i64, now: i64) -> usize
    ensures { (open_at : ℤ) (events : List TraceEvent) → before ≡ time_at open_at events → before ≤ℤ now
        → now ≤ℤ pos (2 ^ 60) → IsCount open_at events count → IsCount open_at (turned before now events) result }
{
    if before == now {
        return count;
    }
    count.saturating_add(1)
}

/// Returns true if an engine that is open refuses a clock reading.
fn refuses(engine: &Engine, now: i64) -> bool
    ensures { result ≡ is_some (clock_fault_of engine.now.time false now) }
{
    clock_fault(engine.time(), false, now).is_some()
}

/// Returns the fault of a datagram that the engine refused, at a place among the events.
fn fault_at(place: usize, fault: ArriveFault) -> ReplayFault
    ensures { result ≡ refused_at place fault }
{
    match fault {
        ArriveFault::Stream => ReplayFault::Run(StudioFault::Stream(place)),
        ArriveFault::Path => ReplayFault::Run(StudioFault::Path(place)),
        ArriveFault::Unfinished | ArriveFault::Full => ReplayFault::TooManyEvents,
    }
}
