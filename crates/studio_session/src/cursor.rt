//! One stream of a run: its merge, and how far it has come in the events. `lost_stretch` holds the call that passes
//! lost slots without their marks.
ghost use Rattle.std.specs.Prelude.{
  ◌≡◌,
  ℕ,
  ◌+◌,
  ◌<◌,
  ◌≤◌,
  ◌^◌,
  ◌++◌,
  List,
  ℤ,
  pos,
  ◌≤ℤ◌,
  length,
  slice_get,
  take,
  true,
  false,
  None,
  Some,
  IfOk,
};
ghost use Rattle.rtp_stream.specs.declared.stream_spec.Stream.{Stream};
ghost use Rattle.rtp_stream.specs.declared.event.Event.{Event};
ghost use Rattle.rtp_stream.specs.Counts.{tally_of};
ghost use Rattle.path_merge.specs.Merge.{HasHistory};
ghost use Rattle.path_merge.specs.Clock.{clock_fault_of};
ghost use Rattle.path_merge.specs.Goal.{CanReach, HasGivenAll};
ghost use Rattle.path_merge.specs.Steps.{next_deadline_of};
ghost use Rattle.studio_session.specs.Event.{TraceEvent, Arrival, Tick, Closing, outline_of};
ghost use Rattle.rtp_stream.specs.Reception.{reception_from, FitsReception};
ghost use Rattle.studio_session.specs.Session.{Datagram, Other, step_of, event_in};
ghost use Rattle.rtp_stream.specs.PathCounts.{path_tally_of, tallies_of};
ghost use Rattle.studio_session.specs.Counts.{HasCounted};
ghost use Rattle.studio_session.specs.Cursor.{
  HasPulled,
  HaveFew,
  IsReadyFor,
  IsSameCursor,
  IsRunnable,
  IsOnTheWay,
  at_place,
  next_of,
  way_left,
  events_left,
};
ghost use Rattle.studio_session.specs.Cursor as goal;
ghost use Rattle.studio_session.specs.PushedEvents.{IsHanded};
ghost use Rattle.studio_session.specs.ArriveOutcome.{outcome_in, outcome_of};

use crate::arrive_outcome::{ArriveOutcome, OfferedPacket};
use crate::event::EventHeader;
use crate::source::{DatagramBuffer, EventSource};
use path_merge::{Goal, Merge, SlotWindow};
use rtp_stream::{Counts, MarkRef, Path, PathCounts, ReceptionRef, StreamSpec, receive_ref};
use std::alloc::{AllocError, Global};
use std::marker::Model;

pub(crate) mod lost_stretch;

/// A stream of a run: its merge, its counts, and how many of the run's events it took.
///
/// `take_event` takes the stream's next event from a source. If events come one by one instead, `push_datagram`,
/// `skip`, `push_tick` and `push_close` take the next, and `pass_to` skips several. After each event `mark` returns
/// a reference to a mark and `pass` lets it go, until `pass` returns false.
#[derive(Drop)]
pub struct Cursor {
    spec: StreamSpec,
    number: u8,
    merge: Merge<SlotWindow>,
    /// The counts of each path's datagrams.
    paths: [PathCounts; 4],
    // The place counts the events of all streams, which each stream goes through at its own pace.
    place: usize,
    /// The clock reading that the merge is on its way to.
    reading: Option<i64>,
}

impl Model for Cursor {
    ghost use Rattle.studio_session.specs.Cursor.{CursorState, IsCursor};
    ghost use Rattle.rtp_stream.specs.PathCounts.{tallies_of};
    ghost use Rattle.std.specs.FinMap as map;
    ghost use Rattle.std.specs.Coded.{codes, coded_ℕ};
    ghost use Rattle.std.specs.Ordering.{nat_cmp};
    ghost use Rattle.rtp_stream.specs.contracts.packet.Packet as packet;

    ghost Value = { CursorState };

    ghost coded = { Prim.hlevel (codes, map.code {R = nat_cmp} coded_ℕ packet.the_row.coded) };

    ghost view = { λ c. record { spec = c.spec; number = c.number; merge = c.merge; tallies = tallies_of c.paths; place = c.place; reading = c.reading } };

    ghost invariant = { λ c. IsCursor (view c) };
}

impl Cursor {
    /// Returns a cursor before the first event. `number` is the stream's number in the studio, from 0, and `open_at`
    /// its opening time in sampling instants.
    pub fn new(
        alloc: Global,
        spec: StreamSpec,
        number: u8,
        open_at: i64,
    ) -> Result<Cursor, AllocError>
        requires not_low { pos 0 ≤ℤ open_at }
        requires not_high { open_at ≤ℤ pos (2 ^ 60) }
        ensures stands { IfOk result (λ cursor. (events : List TraceEvent)
            → HasPulled spec number open_at events cursor 0) }
        ensures first { IfOk result (λ cursor. cursor.place ≡ 0) }
        ensures settled { IfOk result (λ cursor. cursor.reading ≡ None) }
    {
        let merge = Merge::new(alloc, spec, open_at)?;
        Ok(Cursor {
            spec,
            number,
            merge,
            paths: [PathCounts::new(); 4],
            place: 0,
            reading: None,
        })
    }

    /// Returns the stream.
    pub fn spec(&self) -> StreamSpec
        ensures { result ≡ self.now.spec }
    {
        self.spec
    }

    /// Returns the stream's number among those of the run, from 0.
    pub fn number(&self) -> u8
        ensures { result ≡ self.now.number }
    {
        self.number
    }

    /// Returns the counts of the stream's merge so far.
    pub fn counts(&self) -> Counts
        ensures { tally_of result ≡ self.now.merge.counts }
    {
        self.merge.counts()
    }

    /// Returns the deadline of the next slot, in sampling instants, or `None` before the first packet and after a
    /// close.
    pub fn next_deadline(&self) -> Option<i64>
        ensures { result ≡ next_deadline_of self.now.merge }
    {
        self.merge.next_deadline()
    }

    /// Returns the counts of a path's datagrams so far.
    pub fn path_counts(&self, path: Path) -> PathCounts
        ensures { slice_get self.now.tallies path ≡ Some (path_tally_of result) }
    {
        self.paths[usize::from(path.number())]
    }

    /// Returns a reference to the next mark of the events that were taken, or `None` if none is left of them.
    pub fn mark(&self) -> Option<MarkRef<'_>>
        ensures { result ≡ next_of self.now }
    {
        // The mark is let go by `pass`, since a call that returns a reference from `&mut self` can't say in a plain
        // clause what `self` is afterwards.
        self.merge.mark_to(goal_of(self.reading))
    }

    /// Lets the mark go that `mark` returned, and returns true if more may follow.
    pub fn pass(&mut self) -> bool
        ensures stands { (stream : Stream) (number : ℕ) (open_at : ℤ) (events : List TraceEvent) (k : ℕ)
            → IsRunnable stream number open_at events
            → HasPulled stream number open_at events self.old k
            → IsOnTheWay stream number open_at events self.new k (next_of self.old) }
        ensures kept { IsSameCursor self.old self.new }
        ensures settled { result ≡ false → self.new.reading ≡ None }
        ensures stays_idle { self.old.reading ≡ None → self.new.reading ≡ None }
        ensures all { result ≡ false → HasGivenAll self.new.merge }
        ensures fewer { result ≡ true → way_left self.new < way_left self.old }
    {
        let more = self.merge.pass_to(goal_of(self.reading));
        if !more {
            self.reading = None;
        }
        more
    }

    /// Takes the next event of the stream after those of others before it, which it passes over. Returns false if no
    /// event was left.
    ///
    /// `buffer` is where the source may lay out a datagram; its contents don't matter.
    pub fn take_event<E: EventSource>(&mut self, source: &E, buffer: &mut DatagramBuffer) -> bool
        requires settled { self.old.reading ≡ None }
        requires ready { IsReadyFor (E.events source.now) self.old }
        ensures ready { IsReadyFor (E.events source.now) self.new }
        ensures stands { (stream : Stream) (number : ℕ) (open_at : ℤ) (k : ℕ)
            → IsRunnable stream number open_at (E.events source.now)
            → HasPulled stream number open_at (E.events source.now) self.old k
            → HasPulled stream number open_at (E.events source.now) self.new k }
        ensures taken { result ≡ true
            → events_left (E.events source.now) self.new < events_left (E.events source.now) self.old }
        ensures all { result ≡ false → (self.new ≡ self.old) × (length (E.events source.now) ≤ self.old.place) }
    {
        if self.place >= source.count() {
            return false;
        }
        self.pass_over_others(source);
        self.take_one(source, buffer);
        true
    }

    /// Passes over the events up to the next one of the stream.
    fn pass_over_others<E: EventSource>(&mut self, source: &E)
        requires ready { IsReadyFor (E.events source.now) self.old }
        ensures ready { IsReadyFor (E.events source.now) self.new }
        ensures reading { self.new.reading ≡ self.old.reading }
        ensures onward { self.old.place ≤ self.new.place }
        ensures stands { (stream : Stream) (number : ℕ) (open_at : ℤ) (k : ℕ)
            → HasPulled stream number open_at (E.events source.now) self.old k
            → HasPulled stream number open_at (E.events source.now) self.new k }
    {
        // The label names the loop in its proof.
        'others: while self.place < source.count() {
            if !is_of_another(source.outline(self.place), self.number) {
                return;
            }
            self.pass_over();
        }
    }

    /// Passes over an event of another stream.
    fn pass_over(&mut self)
        requires place { self.old.place < usize.MAX }
        ensures place { self.new.place ≡ self.old.place + 1 }
        ensures spec { self.new.spec ≡ self.old.spec }
        ensures number { self.new.number ≡ self.old.number }
        ensures reading { self.new.reading ≡ self.old.reading }
        ensures stands { (stream : Stream) (number : ℕ) (open_at : ℤ) (events : List TraceEvent)
            (event : TraceEvent) (k : ℕ)
            → slice_get events self.old.place ≡ Some event → step_of stream number event ≡ Other
            → HasPulled stream number open_at events self.old k → HasPulled stream number open_at events self.new k }
    {
        self.place += 1;
    }

    /// Takes the event that comes next, if one is left.
    fn take_one<E: EventSource>(&mut self, source: &E, buffer: &mut DatagramBuffer)
        requires settled { self.old.reading ≡ None }
        requires ready { IsReadyFor (E.events source.now) self.old }
        ensures ready { IsReadyFor (E.events source.now) self.new }
        ensures stands { (stream : Stream) (number : ℕ) (open_at : ℤ) (k : ℕ)
            → IsRunnable stream number open_at (E.events source.now)
            → HasPulled stream number open_at (E.events source.now) self.old k
            → HasPulled stream number open_at (E.events source.now) self.new k }
        ensures taken { self.old.place < length (E.events source.now) → self.new.place ≡ self.old.place + 1 }
        ensures none { length (E.events source.now) ≤ self.old.place → self.new ≡ self.old }
    {
        if self.place >= source.count() {
            return;
        }
        match source.outline(self.place) {
            EventHeader::Arrive { stream, path } => {
                if stream == self.number {
                    // The outcome is counted as well, and a run over a source needs no more.
                    let _ = self.take_datagram(path, source.octets(self.place, buffer));
                } else {
                    self.pass_over();
                }
            }
            EventHeader::Tick(now) => self.set_out(now),
            EventHeader::Close => self.close(),
        }
    }

    /// Takes a datagram of the stream, and returns its outcome.
    fn take_datagram(&mut self, path: Path, octets: &[u8]) -> ArriveOutcome
        requires settled { self.old.reading ≡ None }
        requires place { self.old.place < usize.MAX }
        requires path { path < self.old.spec.paths }
        ensures place { self.new.place ≡ self.old.place + 1 }
        ensures spec { self.new.spec ≡ self.old.spec }
        ensures number { self.new.number ≡ self.old.number }
        ensures settled { self.new.reading ≡ None }
        ensures stands { (stream : Stream) (number : ℕ) (open_at : ℤ) (events : List TraceEvent) (k : ℕ)
            → slice_get events self.old.place ≡ Some (Arrival number path octets.now)
            → HasPulled stream number open_at events self.old k → HasPulled stream number open_at events self.new k }
        ensures outcome { (stream : Stream) (number : ℕ) (open_at : ℤ) (events : List TraceEvent) (k : ℕ)
            → HasPulled stream number open_at events self.old k
            → result ≡ outcome_of stream number open_at (take self.old.place events) path octets.now }
    {
        let reception = receive_ref(&self.spec, octets);
        count_on(&mut self.paths, path, reception);
        let outcome = offer_received(&mut self.merge, path, reception);
        self.place += 1;
        outcome
    }

    /// Takes a datagram of the stream that comes after all events so far, and returns its outcome.
    pub fn push_datagram(&mut self, path: Path, octets: &[u8]) -> ArriveOutcome
        requires settled { self.old.reading ≡ None }
        requires place { self.old.place < usize.MAX }
        requires path { path < self.old.spec.paths }
        ensures place { self.new.place ≡ self.old.place + 1 }
        ensures handed { (number : ℕ) → IsHanded (Arrival number path octets.now) number self.old self.new }
        ensures outcome { (stream : Stream) (number : ℕ) (open_at : ℤ) (events : List TraceEvent) (k : ℕ)
            → self.old.place ≡ length events → HasPulled stream number open_at events self.old k
            → result ≡ outcome_of stream number open_at events path octets.now }
        ensures settled { self.new.reading ≡ None }
    {
        self.take_datagram(path, octets)
    }

    /// Passes over another stream's datagram that comes after all events so far.
    pub fn skip(&mut self)
        requires place { self.old.place < usize.MAX }
        ensures place { self.new.place ≡ self.old.place + 1 }
        ensures handed { (number : ℕ) (event : TraceEvent) → ((stream : Stream) → step_of stream number event ≡ Other)
            → IsHanded event number self.old self.new }
        ensures reading { self.new.reading ≡ self.old.reading }
    {
        self.pass_over();
    }

    /// Passes over the datagrams of other streams that came after the cursor's last event, up to the event `place`.
    ///
    /// If events come one by one, a cursor need not `skip` each of them: it passes over all of them before its next
    /// one.
    pub fn pass_to(&mut self, place: usize)
        requires onward { self.old.place ≤ place }
        ensures { self.new ≡ at_place place self.old }
    {
        self.place = place;
    }

    /// Takes a clock reading, in sampling instants, that comes after all events so far.
    pub fn push_tick(&mut self, now: i64)
        requires settled { self.old.reading ≡ None }
        requires place { self.old.place < usize.MAX }
        ensures place { self.new.place ≡ self.old.place + 1 }
        ensures handed { (number : ℕ) → IsHanded (Tick now) number self.old self.new }
    {
        self.set_out(now);
    }

    /// Takes a close that comes after all events so far.
    pub fn push_close(&mut self)
        requires settled { self.old.reading ≡ None }
        requires place { self.old.place < usize.MAX }
        ensures place { self.new.place ≡ self.old.place + 1 }
        ensures handed { (number : ℕ) → IsHanded Closing number self.old self.new }
        ensures settled { self.new.reading ≡ None }
    {
        self.close();
    }

    /// Takes a clock reading, which the merge moves on to as its marks are passed.
    fn set_out(&mut self, now: i64)
        requires settled { self.old.reading ≡ None }
        requires place { self.old.place < usize.MAX }
        ensures place { self.new.place ≡ self.old.place + 1 }
        ensures spec { self.new.spec ≡ self.old.spec }
        ensures number { self.new.number ≡ self.old.number }
        ensures stands { (stream : Stream) (number : ℕ) (open_at : ℤ) (events : List TraceEvent) (k : ℕ)
            → IsRunnable stream number open_at events → slice_get events self.old.place ≡ Some (Tick now)
            → HasPulled stream number open_at events self.old k → HasPulled stream number open_at events self.new k }
    {
        self.reading = reading_of(&self.merge, now);
        self.place += 1;
    }

    /// Takes the close.
    fn close(&mut self)
        requires settled { self.old.reading ≡ None }
        requires place { self.old.place < usize.MAX }
        ensures place { self.new.place ≡ self.old.place + 1 }
        ensures spec { self.new.spec ≡ self.old.spec }
        ensures number { self.new.number ≡ self.old.number }
        ensures settled { self.new.reading ≡ None }
        ensures stands { (stream : Stream) (number : ℕ) (open_at : ℤ) (events : List TraceEvent) (k : ℕ)
            → slice_get events self.old.place ≡ Some Closing
            → HasPulled stream number open_at events self.old k → HasPulled stream number open_at events self.new k }
    {
        self.merge.close();
        self.place += 1;
    }
}

/// Counts a datagram on its path.
fn count_on(paths: &mut [PathCounts; 4], path: Path, reception: ReceptionRef<'_>)
    requires { (place : ℕ) × (place < usize.MAX) × HaveFew place (tallies_of paths.old) }
    ensures counted { HasCounted (Datagram path (reception_from reception.entry)) (tallies_of paths.old)
        (tallies_of paths.new) }
    ensures four { length (tallies_of paths.new) ≡ 4 }
{
    let place = usize::from(path.number());
    let mut counts = paths[place];
    counts.add(reception);
    paths[place] = counts;
}

/// Offers the packet of a datagram to the merge, if it is one of the stream, and returns the datagram's outcome.
fn offer_received(
    merge: &mut Merge<SlotWindow>,
    path: Path,
    reception: ReceptionRef<'_>,
) -> ArriveOutcome
    requires path { path < merge.old.spec.paths }
    requires fits { FitsReception merge.old.spec (reception_from reception) }
    ensures spec { merge.new.spec ≡ merge.old.spec }
    ensures stands { (stream : Stream) (open_at : ℤ) (events : List Event) (k : ℕ)
        → HasHistory stream open_at merge.old events k
        → HasHistory stream open_at merge.new (events ++ event_in (Datagram path (reception_from reception.entry))) k }
    ensures outcome { (stream : Stream) (open_at : ℤ) (events : List Event) (k : ℕ)
        → HasHistory stream open_at merge.old events k
        → result ≡ outcome_in stream open_at events path (reception_from reception.entry) }
{
    match reception {
        ReceptionRef::Sent(packet) => ArriveOutcome::Offered(OfferedPacket {
            seq: packet.seq,
            ts: packet.ts,
            fate: merge.offer_ref(path, packet),
        }),
        ReceptionRef::Bad(fault) => ArriveOutcome::Bad(fault),
        ReceptionRef::WrongType => ArriveOutcome::WrongType,
        ReceptionRef::WrongLength => ArriveOutcome::WrongLength,
    }
}

/// Returns the clock reading to move on to, or `None` if the merge refuses it.
fn reading_of(merge: &Merge<SlotWindow>, now: i64) -> Option<i64>
    ensures can { CanReach merge.now (goal.goal_of result) }
    ensures some { clock_fault_of merge.now.time merge.now.closed now ≡ None → result ≡ Some now }
{
    // A merge returns marks only up to a clock reading that it can reach, so a reading that it refuses is dropped.
    match merge.goal(now) {
        Ok(_) => Some(now),
        Err(_) => None,
    }
}

/// Returns the goal of the marks: the clock reading that the merge is on its way to, or the end.
fn goal_of(reading: Option<i64>) -> Goal
    ensures { result ≡ goal.goal_of reading }
{
    match reading {
        Some(now) => Goal::Tick(now),
        None => Goal::End,
    }
}

/// Returns true if an event is another stream's datagram.
fn is_of_another(event: EventHeader, number: u8) -> bool
    ensures { result ≡ true → (stream : Stream) (said : TraceEvent) → event ≡ outline_of said
        → step_of stream number said ≡ Other }
{
    match event {
        EventHeader::Arrive { stream, .. } => stream != number,
        EventHeader::Tick(_) => false,
        EventHeader::Close => false,
    }
}
