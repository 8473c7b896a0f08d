//! The cursors of an engine's streams. A datagram moves only the cursor of its own stream.
ghost use Rattle.std.specs.Prelude.{
  ◌≡◌,
  ℕ,
  ◌+◌,
  ◌<◌,
  ◌≤◌,
  ◌^◌,
  pos,
  ◌≤ℤ◌,
  ◌<ℤ◌,
  List,
  ℤ,
  length,
  slice_get,
  true,
  Some,
  None,
  IfOk,
  IfSome,
};
ghost use Rattle.rtp_stream.specs.declared.stream_spec.Stream.{Stream};
ghost use Rattle.mix_packets.specs.OutSpec.{datagram_length};
ghost use Rattle.studio_config.specs.Studio.{Studio};
ghost use Rattle.studio_mix.specs.LaneCapacity.{capacities_of};
ghost use Rattle.studio_session.specs.Event.{TraceEvent, Arrival, Tick, Closing};
ghost use Rattle.studio_session.specs.Cursor.{CursorState, HasPulled, at_place};
ghost use Rattle.studio_session.specs.PushedEvents.{AreHanded, HaveTaken};
ghost use Rattle.studio_session.specs.ArriveOutcome.{outcome_of};
ghost use Rattle.studio_session.specs.Play.{AreNew, HasPlayed, IsRunnableBy};
ghost use Rattle.studio_session.specs.Run.{HasGivenBlocks, blocks_left};
ghost use Rattle.studio_engine.specs.Deadline.{IsIdle, IsUnreadyBefore};
ghost use Rattle.studio_engine.specs.Engine.{AreIdle, HaveCome};
ghost use Rattle.studio_engine.specs.Give.{GivesBlock, HasNoBlock};
ghost use Rattle.studio_engine.specs.Near.{HasCapacities, IsAwaited};

use crate::deadline::reading_past;
use crate::dispatch::{catch_up, push_close, push_datagram, push_tick};
use crate::early_marks::keep_early_marks;
use crate::next_block::next_datagram;
use rtp_stream::Path;
use std::alloc::{AllocError, Global};
use std::marker::Model;
use studio_config::StudioSpec;
use studio_mix::Mixer;
use studio_session::{ArriveOutcome, Cursor, studio_cursors};

/// The cursors of an engine's streams, and the number of events that they took.
///
/// A datagram moves only the cursor of its own stream, so that it costs the same however many streams there are. The
/// other cursors pass over it before their next step.
#[derive(Drop)]
pub(crate) struct Cursors {
    /// Each has passed at most `count` events. Those that it has not passed are other streams' datagrams.
    cursors: Vec<Cursor>,
    count: usize,
}

impl Model for Cursors {
    ghost use Rattle.std.specs.FinMap as map;
    ghost use Rattle.std.specs.Coded.{codes, coded_ℕ};
    ghost use Rattle.std.specs.Ordering.{nat_cmp};
    ghost use Rattle.rtp_stream.specs.contracts.packet.Packet as packet;
    ghost use Rattle.studio_engine.specs.Cursors.{AreBehind, CursorsState, all_at};

    ghost Value = { CursorsState };

    ghost coded = { Prim.hlevel (codes, map.code {R = nat_cmp} coded_ℕ packet.the_row.coded) };

    ghost view = { λ c. record { cursors = all_at c.count c.cursors.items; count = c.count } };

    ghost invariant = { λ c. AreBehind c.count c.cursors.items };
}

impl Cursors {
    /// Returns the cursors of a studio's streams before the first event.
    pub(crate) fn new(alloc: Global, spec: &StudioSpec) -> Result<Cursors, AllocError>
        ensures new { IfOk result (λ made.
            AreNew spec.now.streams spec.now.open_at made.cursors (length spec.now.streams)) }
        ensures none { IfOk result (λ made. made.count ≡ 0) }
    {
        let cursors = studio_cursors(alloc, spec)?;
        Ok(Cursors { cursors, count: 0 })
    }

    /// Returns the number of events that were taken.
    pub(crate) fn count(&self) -> usize
        ensures { result ≡ self.now.count }
    {
        self.count
    }

    /// Returns the number of streams.
    pub(crate) fn len(&self) -> usize
        ensures { result ≡ length self.now.cursors }
    {
        self.cursors.len()
    }

    /// Returns a reference to the cursor of a stream, which may not have passed over other streams' events yet, or
    /// `None` if there is no such stream.
    pub(crate) fn get(&self, stream: usize) -> Option<&Cursor>
        ensures some { IfSome result (λ cursor.
            slice_get self.now.cursors stream ≡ Some (at_place self.now.count cursor.now)) }
        ensures none { result ≡ None → slice_get self.now.cursors stream ≡ None }
    {
        self.cursors.get(stream)
    }

    /// Passes a datagram to its stream and returns the outcome, or `None` if there is no such stream.
    pub(crate) fn push_datagram(
        &mut self,
        stream: usize,
        path: Path,
        octets: &[u8],
    ) -> Option<ArriveOutcome>
        requires idle { AreIdle self.old.cursors }
        requires few { self.old.count < usize.MAX }
        requires path { (cursor : CursorState) → slice_get self.old.cursors stream ≡ Some cursor
            → path < cursor.spec.paths }
        ensures handed { IfSome result (λ _. AreHanded (Arrival stream path octets.now)
            self.old.cursors self.new.cursors (length self.old.cursors)) }
        ensures count { IfSome result (λ _. self.new.count ≡ self.old.count + 1) }
        ensures come { HaveCome self.new.count self.new.cursors }
        ensures idle { AreIdle self.new.cursors }
        ensures none { result ≡ None → slice_get self.old.cursors stream ≡ None }
        ensures outcome { IfSome result (λ outcome.
            (cursor : CursorState) (spec : Stream) (number : ℕ) (open_at : ℤ) (events : List TraceEvent) (k : ℕ)
            → slice_get self.old.cursors stream ≡ Some cursor → self.old.count ≡ length events
            → HasPulled spec number open_at events cursor k
            → outcome ≡ outcome_of spec number open_at events path octets.now) }
    {
        let outcome = push_datagram(
            self.cursors.as_mut_slice(),
            self.count,
            stream,
            path,
            octets,
        )?;
        self.count += 1;
        Some(outcome)
    }

    /// Passes a clock reading to every stream.
    pub(crate) fn push_tick(&mut self, now: i64)
        requires idle { AreIdle self.old.cursors }
        requires few { self.old.count < usize.MAX }
        ensures handed { AreHanded (Tick now) self.old.cursors self.new.cursors (length self.old.cursors) }
        ensures count { self.new.count ≡ self.old.count + 1 }
        ensures come { HaveCome self.new.count self.new.cursors }
    {
        catch_up(self.cursors.as_mut_slice(), self.count);
        push_tick(self.cursors.as_mut_slice(), self.count, now);
        self.count += 1;
    }

    /// Passes a close to every stream.
    pub(crate) fn push_close(&mut self)
        requires idle { AreIdle self.old.cursors }
        requires few { self.old.count < usize.MAX }
        ensures handed { AreHanded Closing self.old.cursors self.new.cursors (length self.old.cursors) }
        ensures count { self.new.count ≡ self.old.count + 1 }
        ensures come { HaveCome self.new.count self.new.cursors }
        ensures idle { AreIdle self.new.cursors }
    {
        catch_up(self.cursors.as_mut_slice(), self.count);
        push_close(self.cursors.as_mut_slice(), self.count);
        self.count += 1;
    }

    /// Writes the next datagram of the events so far to the start of `out` and returns its length in octets, or `None`
    /// if no block is ready.
    pub(crate) fn next_datagram(&mut self, mixer: &mut Mixer, out: &mut [u8]) -> Option<usize>
        requires space { datagram_length mixer.old.packer.spec ≤ length out.old }
        requires streams { length self.old.cursors ≡ length mixer.old.lanes }
        ensures some { IfSome result (λ len. (studio : Studio) (events : List TraceEvent) (datagrams : List (List ℕ))
            → IsRunnableBy studio events → HaveTaken events self.old.cursors
            → HasGivenBlocks studio events (record { mixer = mixer.old; cursors = self.old.cursors }) datagrams
            → GivesBlock studio events (record { mixer = mixer.new; cursors = self.new.cursors }) datagrams
            out.old out.new len) }
        ensures none { result ≡ None → (studio : Studio) (events : List TraceEvent) (datagrams : List (List ℕ))
            → IsRunnableBy studio events → HaveTaken events self.old.cursors
            → HasGivenBlocks studio events (record { mixer = mixer.old; cursors = self.old.cursors }) datagrams
            → HasNoBlock studio events (record { mixer = mixer.new; cursors = self.new.cursors }) datagrams }
        ensures len { IfSome result (λ len. len ≡ datagram_length mixer.old.packer.spec) }
        ensures fewer { IfSome result (λ _. blocks_left mixer.new.packer < blocks_left mixer.old.packer) }
        ensures left { result ≡ None → mixer.new.packer ≡ mixer.old.packer }
        ensures kept { result ≡ None → out.new ≡ out.old }
        ensures idle { AreIdle self.old.cursors → AreIdle self.new.cursors }
        ensures count { self.new.count ≡ self.old.count }
        ensures come { HaveCome self.new.count self.new.cursors }
        ensures cursors { length self.new.cursors ≡ length self.old.cursors }
        ensures output { mixer.new.packer.spec ≡ mixer.old.packer.spec }
        ensures streams { length mixer.new.lanes ≡ length mixer.old.lanes }
        ensures capacities { capacities_of mixer.new.lanes ≡ capacities_of mixer.old.lanes }
    {
        catch_up(self.cursors.as_mut_slice(), self.count);
        next_datagram(mixer, self.cursors.as_mut_slice(), out)
    }

    /// Keeps each stream's marks of the events so far. Returns false if a lane has no space for one.
    pub(crate) fn keep_early_marks(&mut self, mixer: &mut Mixer) -> bool
        requires streams { length self.old.cursors ≡ length mixer.old.lanes }
        ensures stands { (studio : Studio) (events : List TraceEvent) (next : ℕ) → IsRunnableBy studio events
            → HasPlayed studio events (record { mixer = mixer.old; cursors = self.old.cursors }) next
            → HasPlayed studio events (record { mixer = mixer.new; cursors = self.new.cursors }) next }
        ensures all { (studio : Studio) (events : List TraceEvent) (next : ℕ)
            → IsAwaited studio events next → HasCapacities studio mixer.old → HaveTaken events self.old.cursors
            → HasPlayed studio events (record { mixer = mixer.old; cursors = self.old.cursors }) next
            → result ≡ true }
        ensures idle { result ≡ true → AreIdle self.new.cursors }
        ensures count { self.new.count ≡ self.old.count }
        ensures come { HaveCome self.new.count self.new.cursors }
        ensures cursors { length self.new.cursors ≡ length self.old.cursors }
        ensures packer { mixer.new.packer ≡ mixer.old.packer }
        ensures streams { length mixer.new.lanes ≡ length mixer.old.lanes }
        ensures capacities { capacities_of mixer.new.lanes ≡ capacities_of mixer.old.lanes }
    {
        catch_up(self.cursors.as_mut_slice(), self.count);
        keep_early_marks(mixer, self.cursors.as_mut_slice())
    }

    /// Returns the clock reading, later than `time`, that every stream which the next block needs has to reach before
    /// the block is ready, if nothing arrives. `None` if that is past 2^60 sampling instants.
    pub(crate) fn reading_past(&self, time: i64, mixer: &Mixer) -> Option<i64>
        requires streams { length self.now.cursors ≡ length mixer.now.lanes }
        requires not_late { time ≤ℤ pos (2 ^ 60) }
        ensures later { IfSome result (λ reading. time <ℤ reading) }
        ensures before { IfSome result (λ reading. (studio : Studio) (events : List TraceEvent) (next : ℕ)
            → IsIdle studio events mixer.now self.now.cursors time next
            → IsUnreadyBefore studio events next reading) }
        ensures never { result ≡ None → (studio : Studio) (events : List TraceEvent) (next : ℕ)
            → IsIdle studio events mixer.now self.now.cursors time next
            → IsUnreadyBefore studio events next (pos (2 ^ 60 + 1)) }
    {
        // The cursors may be behind: the events that they missed do not change their deadlines, counts or
        // specifications.
        reading_past(time, mixer, self.cursors.as_slice())
    }
}
