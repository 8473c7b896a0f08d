//! The merges and the mixer of a studio as one object.
ghost use Rattle.std.specs.Prelude.{
  ◌≡◌,
  ◌⊎◌,
  ℕ,
  ◌+◌,
  ◌^◌,
  ◌<◌,
  ◌≤◌,
  ◌∷◌,
  ◌++◌,
  [],
  List,
  pos,
  ◌≤ℤ◌,
  ◌<ℤ◌,
  length,
  slice_get,
  true,
  false,
  None,
  Some,
  IfOk,
  IfErr,
  IfSome,
  OnOk,
  OnErr,
};
ghost use Rattle.rtp_stream.specs.declared.stream_spec.Stream.{Stream};
ghost use Rattle.gain_mix.specs.Changes.{matrix_at};
ghost use Rattle.mix_packets.specs.Block.{block_start};
ghost use Rattle.mix_packets.specs.OutSpec.{datagram_length};
ghost use Rattle.path_merge.specs.Clock.{clock_fault_of};
ghost use Rattle.studio_config.specs.Studio.{Studio};
ghost use Rattle.studio_session.specs.Event.{TraceEvent, Arrival, Tick, Closing};
ghost use Rattle.studio_mix.specs.Changed.{gains_fault_of, with_gains};
ghost use Rattle.studio_mix.specs.Missing.{missing_in};
ghost use Rattle.studio_mix.specs.Output.{block_inputs};
ghost use Rattle.studio_mix.specs.Saturated.{AreSaturated};
ghost use Rattle.studio_session.specs.Play.{feeds_of};
ghost use Rattle.studio_session.specs.ArriveOutcome.{outcome_of};
ghost use Rattle.studio_session.specs.Counts as received;
ghost use Rattle.studio_session.specs.Report.{merge_tally_of};
ghost use Rattle.studio_session.specs.Run.{blocks_left};
ghost use Rattle.rtp_stream.specs.Counts.{tally_of};
ghost use Rattle.rtp_stream.specs.PathCounts.{path_tally_of};
ghost use Rattle.studio_engine.specs.Deadline.{IsUnreadyBefore};
ghost use Rattle.studio_engine.specs.Engine.{
  HasAllMarks,
  arrive_fault_of,
  path_fault_of,
  stream_deadline_of,
  stream_spec_of,
};
ghost use Rattle.studio_engine.specs.Session.{Gives, HasGivenReady, HasSession, shut, turned};

use crate::cursors::Cursors;
use crate::fault::{ArriveFault, Unfinished};
use gain_mix::{ChangeFault, Matrix};
use mix_packets::OutSpec;
use path_merge::{ClockFault, clock_fault};
use rtp_stream::{Counts, Path, PathCounts, StreamSpec};
use std::alloc::{AllocError, Global};
use std::marker::Model;
use studio_config::StudioSpec;
use studio_io::{Missing, MixedBlock};
use studio_mix::Mixer;
use studio_session::{ArriveOutcome, is_runnable};

mod gain_requests;

/// The number of events after which no more arrivals are taken: 2^62.
// At most 2^60 clock readings and a close follow these, so the number of events never wraps.
const MAX_EVENTS: usize = 4_611_686_018_427_387_904;

/// A studio as one object.
///
/// `arrive`, `turn` and `close` take input, and `change_gains` moves the gains at any time between; `answer_request`
/// does so for a request of a `GainSource`. `turn`, and `drain` after a close, return datagrams. `time`, `stream`,
/// `next_deadline`, `stream_deadline`, `next_block_start`, `gains`, `counts`, `path_counts`, `saturated`, `inputs`,
/// `missing` and `settled` read. Only `new` allocates.
#[derive(Drop)]
pub struct Engine {
    mixer: Mixer,
    cursors: Cursors,
    /// The last clock reading that was taken, or the opening time.
    time: i64,
    /// True if some stream may still be on its way to `time`.
    turning: bool,
    closed: bool,
    settled: bool,
}

impl Model for Engine {
    ghost use Rattle.studio_engine.specs.Engine.{EngineState, IsEngine};
    ghost use Rattle.std.specs.FinMap as map;
    ghost use Rattle.std.specs.Coded.{codes, coded_ℕ};
    ghost use Rattle.std.specs.Ordering.{nat_cmp};
    ghost use Rattle.rtp_stream.specs.contracts.packet.Packet as packet;

    ghost Value = { EngineState };

    ghost coded = { Prim.hlevel (codes, map.code {R = nat_cmp} coded_ℕ packet.the_row.coded) };

    ghost view = { λ e. record { mixer = e.mixer; cursors = e.cursors.cursors; time = e.time; turning = e.turning; closed = e.closed; settled = e.settled; count = e.cursors.count } };

    ghost invariant = { λ e. IsEngine (view e) };
}

impl Engine {
    /// Returns an engine before its first event. It allocates all that the engine ever needs.
    pub fn new(alloc: Global, spec: &StudioSpec) -> Result<Engine, AllocError>
        ensures stands { IfOk result (λ engine. HasSession spec.now engine [] []) }
        ensures output { IfOk result (λ engine. engine.mixer.packer.spec ≡ spec.now.output) }
        ensures idle { IfOk result (λ engine. engine.turning ≡ false) }
    {
        // Only the clause of this call is wanted.
        is_runnable(spec);
        // With space for early marks, every merge can reach a clock reading though the next block waits for one of
        // them.
        let mixer = Mixer::for_early_marks(alloc, spec)?;
        let cursors = Cursors::new(alloc, spec)?;
        Ok(Engine {
            mixer,
            cursors,
            time: spec.open_at(),
            turning: false,
            closed: false,
            settled: false,
        })
    }

    /// Takes a datagram of a stream that came in on a path, and returns its outcome.
    ///
    /// An error changes nothing: a turn isn't finished, there is no such stream or path, or 2^62 events were taken.
    pub fn arrive(
        &mut self,
        stream: usize,
        path: Path,
        octets: &[u8],
    ) -> Result<ArriveOutcome, ArriveFault>
        ensures stands { OnOk result ((studio : Studio) (events : List TraceEvent) (datagrams : List (List ℕ))
            → HasSession studio self.old events datagrams
            → HasSession studio self.new (events ++ Arrival stream path octets.now ∷ []) datagrams) }
        ensures outcome { IfOk result
            (λ outcome. (studio : Studio) (events : List TraceEvent) (datagrams : List (List ℕ)) (spec : Stream)
            → HasSession studio self.old events datagrams → slice_get studio.streams stream ≡ Some spec
            → outcome ≡ outcome_of spec stream studio.open_at events path octets.now) }
        ensures fine { OnOk result (arrive_fault_of self.old stream path ≡ None) }
        ensures fault { IfErr result (λ fault. arrive_fault_of self.old stream path ≡ Some fault) }
        ensures kept { OnErr result (self.new ≡ self.old) }
        ensures output { self.new.mixer.packer.spec ≡ self.old.mixer.packer.spec }
        ensures turning { self.new.turning ≡ self.old.turning }
    {
        if let Some(fault) = self.arrive_fault(stream, path) {
            return Err(fault);
        }
        // `arrive_fault` has found that there is the stream.
        let Some(outcome) = self.cursors.push_datagram(stream, path, octets) else {
            unreachable!()
        };
        Ok(outcome)
    }

    /// Returns the reason why a datagram for a stream and a path isn't taken, or `None` if it is.
    fn arrive_fault(&self, stream: usize, path: Path) -> Option<ArriveFault>
        ensures { result ≡ arrive_fault_of self.now stream path }
    {
        if self.turning {
            return Some(ArriveFault::Unfinished);
        }
        match self.cursors.get(stream) {
            Some(cursor) => path_fault(cursor.spec().paths(), path, self.cursors.count()),
            None => Some(ArriveFault::Stream),
        }
    }

    /// Moves all merges on to a clock reading, in sampling instants, and writes the next datagram to the start of
    /// `out`. Returns its length in octets, or `None` once all have reached the reading and no block is ready.
    ///
    /// Call it with the same reading until it returns `None`. A turn that isn't finished is finished first. An error
    /// changes nothing: the reading goes back, is past 2^60 or comes after a close.
    pub fn turn(&mut self, now: i64, out: &mut [u8]) -> Result<Option<usize>, ClockFault>
        requires space { datagram_length self.old.mixer.packer.spec ≤ length out.old }
        ensures some { IfOk result (λ given.
            IfSome given (λ len. (studio : Studio) (events : List TraceEvent) (datagrams : List (List ℕ))
            → HasSession studio self.old events datagrams
            → Gives studio self.new (turned self.old.time self.new.time events) datagrams out.old out.new len)) }
        ensures none { IfOk result (λ given. given ≡ None
            → (studio : Studio) (events : List TraceEvent) (datagrams : List (List ℕ))
            → HasSession studio self.old events datagrams
            → HasGivenReady studio self.new (turned self.old.time self.new.time events) datagrams) }
        ensures there { IfOk result (λ given. given ≡ None
            → (studio : Studio) (events : List TraceEvent) (datagrams : List (List ℕ))
            → HasSession studio self.old events datagrams → (self.new.turning ≡ false) × (self.new.time ≡ now)) }
        ensures time { OnOk result ((self.new.time ≡ self.old.time) ⊎ (self.new.time ≡ now)) }
        ensures len { IfOk result (λ given. IfSome given (λ len. len ≡ datagram_length self.old.mixer.packer.spec)) }
        ensures fewer { IfOk result (λ given.
            IfSome given (λ _. blocks_left self.new.mixer.packer < blocks_left self.old.mixer.packer)) }
        ensures left { IfOk result (λ given. given ≡ None → self.new.mixer.packer ≡ self.old.mixer.packer) }
        ensures fine { OnOk result (clock_fault_of self.old.time self.old.closed now ≡ None) }
        ensures fault { IfErr result (λ fault. clock_fault_of self.old.time self.old.closed now ≡ Some fault) }
        ensures kept { OnErr result (self.new ≡ self.old) }
        ensures closed { self.new.closed ≡ self.old.closed }
        ensures output { self.new.mixer.packer.spec ≡ self.old.mixer.packer.spec }
    {
        if let Some(fault) = clock_fault(self.time, self.closed, now) {
            return Err(fault);
        }
        if let Some(len) = self.continue_turn(out) {
            return Ok(Some(len));
        }
        // No engine that has a session comes here: its turn is finished once no block is ready.
        if self.turning {
            return Ok(None);
        }
        if now == self.time {
            return Ok(None);
        }
        self.set_out(now);
        Ok(self.continue_turn(out))
    }

    /// Takes a later clock reading, and passes it to every stream.
    fn set_out(&mut self, now: i64)
        requires idle { self.old.turning ≡ false }
        requires open_yet { self.old.closed ≡ false }
        requires later { self.old.time <ℤ now }
        requires not_far { now ≤ℤ pos (2 ^ 60) }
        ensures stands { (studio : Studio) (events : List TraceEvent) (datagrams : List (List ℕ))
            → HasSession studio self.old events datagrams
            → HasSession studio self.new (events ++ Tick now ∷ []) datagrams }
        ensures time { self.new.time ≡ now }
        ensures closed { self.new.closed ≡ false }
        ensures packer { self.new.mixer.packer ≡ self.old.mixer.packer }
    {
        self.cursors.push_tick(now);
        self.time = now;
        self.turning = true;
    }

    /// Moves the merges on to the last clock reading, and writes the next datagram.
    fn continue_turn(&mut self, out: &mut [u8]) -> Option<usize>
        requires space { datagram_length self.old.mixer.packer.spec ≤ length out.old }
        requires open_yet { self.old.closed ≡ false }
        ensures some { IfSome result (λ len. (studio : Studio) (events : List TraceEvent) (datagrams : List (List ℕ))
            → HasSession studio self.old events datagrams
            → Gives studio self.new events datagrams out.old out.new len) }
        ensures none { result ≡ None → (studio : Studio) (events : List TraceEvent) (datagrams : List (List ℕ))
            → HasSession studio self.old events datagrams → HasGivenReady studio self.new events datagrams }
        ensures finished { result ≡ None → (studio : Studio) (events : List TraceEvent) (datagrams : List (List ℕ))
            → HasSession studio self.old events datagrams → self.new.turning ≡ false }
        ensures len { IfSome result (λ len. len ≡ datagram_length self.old.mixer.packer.spec) }
        ensures fewer { IfSome result (λ _. blocks_left self.new.mixer.packer < blocks_left self.old.mixer.packer) }
        ensures left { result ≡ None → self.new.mixer.packer ≡ self.old.mixer.packer }
        ensures kept { result ≡ None → out.new ≡ out.old }
        ensures time { self.new.time ≡ self.old.time }
        ensures closed { self.new.closed ≡ self.old.closed }
        ensures output { self.new.mixer.packer.spec ≡ self.old.mixer.packer.spec }
    {
        let given = self.cursors.next_datagram(&mut self.mixer, out);
        // Early marks come second: only while no block is ready are the marks near enough for all to find space
        // (`marks_are_near`).
        if given.is_none() {
            let there = self.cursors.keep_early_marks(&mut self.mixer);
            self.turning = !there;
        }
        given
    }

    /// Changes the gains: from `at` on, in sampling instants of the media clock, these are in force. They replace every
    /// change that was planned from then on. They are in units of 1/65,536, row by row, a row for each output channel.
    ///
    /// `at` is not before `next_block_start`, so no datagram that was returned changes. Up to 64 changes may be to
    /// come. An error changes nothing.
    pub fn change_gains(&mut self, at: i64, gains: &[i32]) -> Result<(), ChangeFault>
        ensures stands { OnOk result ((studio : Studio) (events : List TraceEvent) (datagrams : List (List ℕ))
            → HasSession studio self.old events datagrams
            → HasSession (with_gains studio at gains.now) self.new events datagrams) }
        ensures ready { OnOk result ((studio : Studio) (events : List TraceEvent) (datagrams : List (List ℕ))
            → HasGivenReady studio self.old events datagrams
            → HasGivenReady (with_gains studio at gains.now) self.new events datagrams) }
        ensures fine { OnOk result (gains_fault_of self.old.mixer at gains.now ≡ None) }
        ensures fault { IfErr result (λ fault. gains_fault_of self.old.mixer at gains.now ≡ Some fault) }
        ensures kept { OnErr result (self.new ≡ self.old) }
        ensures output { self.new.mixer.packer ≡ self.old.mixer.packer }
        ensures lanes { self.new.mixer.lanes ≡ self.old.mixer.lanes }
        ensures saturated { self.new.mixer.saturated ≡ self.old.mixer.saturated }
        ensures cursors { self.new.cursors ≡ self.old.cursors }
        ensures time { self.new.time ≡ self.old.time }
        ensures turning { self.new.turning ≡ self.old.turning }
        ensures closed { self.new.closed ≡ self.old.closed }
        ensures settled { self.new.settled ≡ self.old.settled }
        ensures count { self.new.count ≡ self.old.count }
    {
        self.mixer.change_gains(at, gains)
    }

    /// Closes the streams: no later packet and no later clock reading is taken. The error changes nothing: a turn
    /// isn't finished.
    pub fn close(&mut self) -> Result<(), Unfinished>
        ensures stands { OnOk result ((studio : Studio) (events : List TraceEvent) (datagrams : List (List ℕ))
            → HasSession studio self.old events datagrams
            → HasSession studio self.new (shut self.old.closed events) datagrams) }
        ensures closed { OnOk result (self.new.closed ≡ true) }
        ensures fine { OnOk result (self.old.turning ≡ false) }
        ensures unfinished { OnErr result (self.old.turning ≡ true) }
        ensures kept { OnErr result (self.new ≡ self.old) }
        ensures output { self.new.mixer.packer.spec ≡ self.old.mixer.packer.spec }
    {
        if self.turning {
            return Err(Unfinished);
        }
        if !self.closed {
            self.cursors.push_close();
            self.closed = true;
        }
        Ok(())
    }

    /// Writes the next datagram that is left after a close to the start of `out`, and returns its length in octets,
    /// or `None` if none is left or the engine isn't closed.
    pub fn drain(&mut self, out: &mut [u8]) -> Option<usize>
        requires space { datagram_length self.old.mixer.packer.spec ≤ length out.old }
        ensures some { IfSome result (λ len. (studio : Studio) (events : List TraceEvent) (datagrams : List (List ℕ))
            → HasSession studio self.old events datagrams
            → Gives studio self.new events datagrams out.old out.new len) }
        ensures none { result ≡ None → (studio : Studio) (events : List TraceEvent) (datagrams : List (List ℕ))
            → HasSession studio self.old events datagrams → HasSession studio self.new events datagrams }
        ensures settled { result ≡ None → self.new.settled ≡ self.old.closed }
        ensures len { IfSome result (λ len. len ≡ datagram_length self.old.mixer.packer.spec) }
        ensures fewer { IfSome result (λ _. blocks_left self.new.mixer.packer < blocks_left self.old.mixer.packer) }
        ensures left { result ≡ None → self.new.mixer.packer ≡ self.old.mixer.packer }
        ensures closed { self.new.closed ≡ self.old.closed }
        ensures kept { result ≡ None → out.new ≡ out.old }
        ensures output { self.new.mixer.packer.spec ≡ self.old.mixer.packer.spec }
    {
        if !self.closed {
            return None;
        }
        let given = self.cursors.next_datagram(&mut self.mixer, out);
        self.settled = given.is_none();
        given
    }

    /// Returns the clock reading before which no datagram comes if nothing arrives. `None` while a turn isn't
    /// finished, after a close, and if no reading up to 2^60 sampling instants leads to one.
    pub fn next_deadline(&self) -> Option<i64>
        ensures later { IfSome result (λ reading. self.now.time <ℤ reading) }
        ensures idle { IfSome result (λ _. self.now.turning ≡ false) }
        ensures open_yet { IfSome result (λ _. self.now.closed ≡ false) }
        ensures before { IfSome result
            (λ reading. (studio : Studio) (events : List TraceEvent) (datagrams : List (List ℕ))
            → HasSession studio self.now events datagrams → IsUnreadyBefore studio events (length datagrams) reading) }
        ensures never { result ≡ None → self.now.turning ≡ false → self.now.closed ≡ false
            → (studio : Studio) (events : List TraceEvent) (datagrams : List (List ℕ))
            → HasSession studio self.now events datagrams
            → IsUnreadyBefore studio events (length datagrams) (pos (2 ^ 60 + 1)) }
    {
        if self.turning {
            return None;
        }
        if self.closed {
            return None;
        }
        self.cursors.reading_past(self.time, &self.mixer)
    }

    /// Returns the media time at which the next block begins, in sampling instants: the first time whose gains can
    /// still change.
    pub fn next_block_start(&self) -> i64
        ensures value { result ≡ block_start self.now.mixer.packer.spec self.now.mixer.packer.number }
        ensures stands { (studio : Studio) (events : List TraceEvent) (datagrams : List (List ℕ))
            → HasSession studio self.now events datagrams → result ≡ block_start studio.output (length datagrams) }
    {
        self.mixer.next_block_start()
    }

    /// Returns the gains in force at a media time that is not before the next block.
    pub fn gains(&self, at: i64) -> &Matrix
        ensures value { result.now ≡ matrix_at self.now.mixer.schedule at }
        ensures stands { (studio : Studio) (events : List TraceEvent) (datagrams : List (List ℕ))
            → HasSession studio self.now events datagrams → block_start studio.output (length datagrams) ≤ℤ at
            → result.now ≡ matrix_at studio.schedule at }
    {
        self.mixer.gains(at)
    }

    /// Returns the output.
    pub fn output(&self) -> &OutSpec
        ensures { result.now ≡ self.now.mixer.packer.spec }
    {
        self.mixer.output()
    }

    /// Returns the last clock reading that was taken, or the opening time, in sampling instants.
    pub fn time(&self) -> i64
        ensures value { result ≡ self.now.time }
        ensures not_late { result ≤ℤ pos (2 ^ 60) }
    {
        self.time
    }

    /// Returns true if the engine was closed and all datagrams were returned.
    pub fn settled(&self) -> bool
        ensures value { result ≡ self.now.settled }
        ensures whole { result ≡ true → HasAllMarks self.now }
    {
        self.settled
    }

    /// Returns the number of streams.
    pub fn streams(&self) -> usize
        ensures { result ≡ length self.now.cursors }
    {
        self.cursors.len()
    }

    /// Returns the specification of a stream, or `None` if there is no such stream.
    pub fn stream(&self, stream: usize) -> Option<StreamSpec>
        ensures value { result ≡ stream_spec_of (slice_get self.now.cursors stream) }
        ensures stands { IfSome result
            (λ found. (studio : Studio) (events : List TraceEvent) (datagrams : List (List ℕ)) (spec : Stream)
            → HasSession studio self.now events datagrams → slice_get studio.streams stream ≡ Some spec
            → found ≡ spec) }
    {
        let cursor = self.cursors.get(stream)?;
        Some(cursor.spec())
    }

    /// Returns the number of saturated samples of each output channel in the datagrams so far.
    pub fn saturated(&self) -> &[u64]
        ensures value { result.now ≡ self.now.mixer.saturated }
        ensures few { length result.now ≤ 8 }
        ensures stands { (studio : Studio) (events : List TraceEvent) (datagrams : List (List ℕ))
            → HasSession studio self.now events datagrams
            → AreSaturated studio (feeds_of studio events) (length datagrams) result.now }
    {
        self.mixer.saturated()
    }

    /// Returns the samples of all channels of all streams in the last datagram's block, before any gain: frame by
    /// frame, in each frame stream after stream. Before the first datagram they are 0.
    pub fn inputs(&self) -> &[i32]
        ensures value { result.now ≡ self.now.mixer.inputs }
        ensures stands { (studio : Studio) (events : List TraceEvent) (datagrams : List (List ℕ)) (number : ℕ)
            → HasSession studio self.now events datagrams → length datagrams ≡ number + 1
            → result.now ≡ block_inputs studio (feeds_of studio events) number }
    {
        self.mixer.inputs()
    }

    /// Returns what is missing in the last datagram's block: how many of the streams that are used in it have no packet
    /// for some time of it. Before the first datagram nothing is.
    pub fn missing(&self) -> Missing
        ensures value { result ≡ self.now.mixer.missing }
        ensures stands { (studio : Studio) (events : List TraceEvent) (datagrams : List (List ℕ)) (number : ℕ)
            → HasSession studio self.now events datagrams → length datagrams ≡ number + 1
            → result ≡ missing_in studio (feeds_of studio events) number }
    {
        self.mixer.missing()
    }

    /// Returns the last datagram's block: its inputs, and what was missing in it.
    pub fn last_block(&self) -> MixedBlock<'_>
        ensures inputs { result.inputs.now ≡ self.now.mixer.inputs }
        ensures missing { result.missing ≡ self.now.mixer.missing }
    {
        self.mixer.last_block()
    }

    /// Returns the deadline of a stream's next slot, in sampling instants, or `None` before its first packet, after a
    /// close, and if there is no such stream.
    pub fn stream_deadline(&self, stream: usize) -> Option<i64>
        ensures { result ≡ stream_deadline_of (slice_get self.now.cursors stream) }
    {
        match self.cursors.get(stream) {
            Some(cursor) => cursor.next_deadline(),
            None => None,
        }
    }

    /// Returns the counts of a stream's merge, of the marks so far, or `None` if there is no such stream.
    pub fn counts(&self, stream: usize) -> Option<Counts>
        ensures whole { IfSome result
            (λ counts. (studio : Studio) (events : List TraceEvent) (datagrams : List (List ℕ)) (spec : Stream)
            → HasSession studio self.now events datagrams → slice_get studio.streams stream ≡ Some spec
            → HasAllMarks self.now
            → tally_of counts ≡ merge_tally_of spec stream studio.open_at events) }
        ensures none { result ≡ None → length self.now.cursors ≤ stream }
    {
        let cursor = self.cursors.get(stream)?;
        Some(cursor.counts())
    }

    /// Returns the counts of the datagrams of a stream's path, or `None` if there is no such stream.
    pub fn path_counts(&self, stream: usize, path: Path) -> Option<PathCounts>
        ensures value { IfSome result
            (λ counts. (studio : Studio) (events : List TraceEvent) (datagrams : List (List ℕ)) (spec : Stream)
            → HasSession studio self.now events datagrams → slice_get studio.streams stream ≡ Some spec
            → path_tally_of counts ≡ received.path_counts_of spec stream path events) }
        ensures none { result ≡ None → length self.now.cursors ≤ stream }
    {
        let cursor = self.cursors.get(stream)?;
        Some(cursor.path_counts(path))
    }
}

/// Returns the reason why a datagram for a path isn't taken, or `None` if it is. The stream has `paths` paths, and
/// `count` events were taken.
fn path_fault(paths: u8, path: Path, count: usize) -> Option<ArriveFault>
    ensures { result ≡ path_fault_of count path paths }
{
    if path.number() >= paths {
        return Some(ArriveFault::Path);
    }
    if count >= MAX_EVENTS {
        return Some(ArriveFault::Full);
    }
    None
}
