//! The calls of a stream's end: turns, clock readings, tokens, the close and the marks after it.
ghost use Rattle.std.specs.Prelude.{
  ◌≡◌,
  ◌+◌,
  ◌<◌,
  ◌⊎◌,
  slice_get,
  vec_len,
  List,
  [],
  ◌∷◌,
  ◌++◌,
  ℤ,
  length,
  true,
  false,
  IsOk,
  IfOk,
  IfErr,
  IfSome,
  OnOk,
  OnErr,
  Some,
  None,
};
ghost use Rattle.rtrb.specs.Ring.{all_sent, sent, known_free, Finishes, IsFinishedOf, SameProducer};
ghost use Rattle.rtp_stream.specs.declared.stream_spec.Stream.{Stream};
ghost use Rattle.rtp_stream.specs.Marks.{marks_of};
ghost use Rattle.rtp_stream.specs.declared.packet.Packet.{Packet};
ghost use Rattle.studio_ends.specs.declared.rings.TokenConsumer.{TokenConsumer};
ghost use Rattle.rtp_stream.specs.declared.event.Event.{Event};
ghost use Rattle.rtp_stream.specs.declared.event.Event.TheVariants.{Close};
ghost use Rattle.studio_ends.specs.DrainedRings.{AllDrained, AllLookAt, AreOpen};
ghost use Rattle.rtp_stream.specs.Counts.{tally_of};
ghost use Rattle.path_merge.specs.Clock.{clock_fault_of};
ghost use Rattle.path_merge.specs.Steps.{next_deadline_of};
ghost use Rattle.studio_ends.specs.Stats.{TellsStream};
ghost use Rattle.studio_ends.specs.Streams.{ReadsClock, ShowsCounts, StreamHasHistory, TakesTurn, TellsTurn};
ghost use Rattle.studio_ends.specs.Tokens.{HandsIn};

use crate::path_end::PathDone;
use crate::rings::drained::any_path_open;
use crate::rings::marks::MarkToken;
use crate::stream_end::StreamEnd;
use crate::stream_end::marks_out::{StopReason, TurnNote, drain_marks, push_marks};
use crate::stream_end::packets_in::take_all;
use path_merge::{ClockFault, Merge, SlotWindow, clock_fault};
use rtp_stats::StreamStatsSender;
use rtp_stream::{Counts, StreamSpec};
use rtrb::Producer;

/// The error of `StreamEnd::close`. A path is still open if it has not finished or sent packets that were not taken.
#[derive(Clone, Copy, PartialEq, Eq)]
pub struct PathsOpen {
    pub still_open: [bool; 4],
}

/// The token of a finished stream's end. `MixEnd::stream_done` takes it, before the mixer's end can be settled.
#[derive(Drop)]
pub struct StreamDone {
    pub(crate) token: MarkToken,
}

/// Pushes counts to the monitor. If its ring is full they are dropped.
// A monitor that nobody reads must not hold up the stream, and later counts include these.
fn show_counts(monitor: &mut Producer<Counts>, counts: Counts)
    ensures ring { SameProducer monitor.old monitor.new }
    ensures shows { ShowsCounts monitor.old (tally_of counts) monitor.new }
{
    match monitor.push(counts) {
        Ok(()) => {}
        Err(_) => {}
    }
}

/// Sends the packets' statistics, if the stream has a sender.
fn send_stats(sender: &mut Option<StreamStatsSender>, merge: &Merge<SlotWindow>)
    ensures { TellsStream merge.now sender.old sender.new }
{
    if let Some(sender) = sender {
        sender.send(merge.counts(), merge.time());
    }
}

impl StreamEnd {
    /// Takes packets of all paths, path by path, and then pushes marks up to `now`, in sampling instants at 48 kHz.
    ///
    /// Takes at most 64 packets of each path and pushes at most 64 marks; no mark is dropped. A packet is judged at
    /// the merge's time before the turn. With statistics, its fate is noted, and the statistics are sent after the
    /// marks.
    ///
    /// Returns a `ClockFault` if `now` is before that time, past 2^60 or after the close; nothing changes then.
    pub fn turn(&mut self, now: i64) -> Result<TurnNote, ClockFault>
        ensures turned { IfOk result (λ note. TakesTurn self.old now note self.new) }
        ensures told { IfOk result (λ _. TellsTurn self.old self.new) }
        ensures fine { IfOk result (λ note. clock_fault_of self.old.merge.time self.old.merge.closed now ≡ None) }
        ensures fault { IfErr result (λ fault. clock_fault_of self.old.merge.time self.old.merge.closed now
            ≡ Some fault) }
        ensures err { OnErr result (self.new ≡ self.old) }
    {
        // The reading is tested first, so that an error leaves all packets in their rings.
        if let Some(fault) = clock_fault(self.merge.time(), self.merge.closed(), now) {
            return Err(fault);
        }
        let from = take_all(
            &mut self.sides,
            &self.spec,
            &mut self.merge,
            &mut self.sender,
        );
        let (marks, why_stopped) = push_marks(&mut self.marks, &mut self.merge, now);
        show_counts(&mut self.monitor, self.merge.counts());
        send_stats(&mut self.sender, &self.merge);
        Ok(TurnNote {
            from,
            marks,
            reached: self.merge.time(),
            why_stopped,
        })
    }

    /// Pushes marks up to `now`, in sampling instants at 48 kHz, and takes no packet.
    ///
    /// With the arrival clock this sets the time of the first packet, which a later turn takes. Returns a
    /// `ClockFault` as `turn` does.
    pub fn read_clock(&mut self, now: i64) -> Result<StopReason, ClockFault>
        ensures read { IfOk result (λ why. ReadsClock self.old now why self.new) }
        ensures fine { IfOk result (λ why. clock_fault_of self.old.merge.time self.old.merge.closed now ≡ None) }
        ensures fault { IfErr result (λ fault. clock_fault_of self.old.merge.time self.old.merge.closed now
            ≡ Some fault) }
        ensures err { OnErr result (self.new ≡ self.old) }
        ensures sender { self.new.sender ≡ self.old.sender }
    {
        if let Some(fault) = clock_fault(self.merge.time(), self.merge.closed(), now) {
            return Err(fault);
        }
        let (_, why_stopped) = push_marks(&mut self.marks, &mut self.merge, now);
        Ok(why_stopped)
    }

    /// Returns the deadline of the next slot, in sampling instants at 48 kHz; `None` before the first packet and
    /// after a close.
    pub fn next_deadline(&self) -> Option<i64>
        ensures { result ≡ next_deadline_of self.now.merge }
    {
        self.merge.next_deadline()
    }

    /// Returns the merge's time, in sampling instants at 48 kHz.
    pub fn time(&self) -> i64
        ensures { result ≡ self.now.merge.time }
    {
        self.merge.time()
    }

    /// Returns the stream's parameters.
    pub fn spec(&self) -> &StreamSpec
        ensures { result.now ≡ self.now.spec }
    {
        &self.spec
    }

    /// Takes the token of a finished path. The caller passes it to the path whose end returned it.
    pub fn path_done(&mut self, path: usize, done: PathDone)
        requires path { path < vec_len self.old.sides }
        requires token { (side : TokenConsumer Packet) → slice_get self.old.sides.items path ≡ Some side
            → IsFinishedOf done.token side.ring }
        ensures sides { HandsIn self.old.sides.items path (all_sent done.token) self.new.sides.items }
        ensures others { (self.new.merge ≡ self.old.merge) × (self.new.marks ≡ self.old.marks)
            × (self.new.monitor ≡ self.old.monitor) × (self.new.spec ≡ self.old.spec) }
        ensures sender { self.new.sender ≡ self.old.sender }
        ensures stands { (stream : Stream) (open_at : ℤ) (events : List Event)
            → StreamHasHistory stream open_at self.old events → StreamHasHistory stream open_at self.new events }
    {
        self.sides[path].hand_in(done.token);
    }

    /// Closes the stream. A stream that is closed stays so.
    ///
    /// Returns `PathsOpen` if a path has not finished or a packet of it was not taken. The caller then makes turns
    /// and tries again.
    pub fn close(&mut self) -> Result<(), PathsOpen>
        ensures rings { AllLookAt self.old.sides.items self.new.sides.items ⊎ (self.new ≡ self.old) }
        ensures ok { OnOk result (self.old.merge.closed ≡ false → AllDrained self.new.sides.items) }
        ensures closed { OnOk result (self.new.merge ≡ record self.old.merge { closed = true }) }
        ensures still_open { IfErr result (λ paths. AreOpen paths.still_open self.new.sides.items
            × (AllDrained self.new.sides.items → ⊥)) }
        ensures err { OnErr result (self.new.merge ≡ self.old.merge) }
        ensures again { self.old.merge.closed ≡ true → (self.new ≡ self.old) × IsOk result }
        ensures others { (self.new.marks ≡ self.old.marks) × (self.new.monitor ≡ self.old.monitor)
            × (self.new.spec ≡ self.old.spec) }
        ensures sender { self.new.sender ≡ self.old.sender }
        ensures stands { OnOk result (self.old.merge.closed ≡ false
            → (stream : Stream) (open_at : ℤ) (events : List Event) → StreamHasHistory stream open_at self.old events
            → StreamHasHistory stream open_at self.new (events ++ Close ∷ [])) }
    {
        if self.merge.closed() {
            return Ok(());
        }
        // Called for its contract: a stream has at most 4 paths, so `still_open` has space for all of them.
        let _paths = self.spec.paths();
        let mut still_open = [false; 4];
        if any_path_open(&mut self.sides, &mut still_open) {
            return Err(PathsOpen { still_open });
        }
        self.merge.close();
        Ok(())
    }

    /// Pushes the marks that are left after a close, at most 64. Returns true if none is left.
    ///
    /// Before the close it does nothing and returns false.
    pub fn drain_turn(&mut self) -> bool
        ensures rings { SameProducer self.old.marks self.new.marks }
        ensures open_yet { self.old.merge.closed ≡ false → (self.new ≡ self.old) × (result ≡ false) }
        ensures some { self.old.merge.closed ≡ true → result ≡ false
            → (length (sent self.new.marks) ≡ length (sent self.old.marks) + 64) ⊎ (known_free self.new.marks ≡ 0) }
        ensures stands { (stream : Stream) (open_at : ℤ) (events : List Event)
            → StreamHasHistory stream open_at self.old events → StreamHasHistory stream open_at self.new events }
        ensures all { result ≡ true → (stream : Stream) (open_at : ℤ) (events : List Event)
            → StreamHasHistory stream open_at self.new events → sent self.new.marks ≡ marks_of stream open_at events }
        ensures others { (self.new.sides ≡ self.old.sides) × (self.new.monitor ≡ self.old.monitor)
            × (self.new.spec ≡ self.old.spec) }
        ensures sender { self.new.sender ≡ self.old.sender }
    {
        if !self.merge.closed() {
            return false;
        }
        drain_marks(&mut self.marks, &mut self.merge)
    }

    /// Consumes the end and returns its token and the stream's counts. The token is `None` if the mixer's end was
    /// dropped.
    pub fn finish(self) -> (Option<StreamDone>, Counts)
        ensures token { IfSome result.0 (λ done. Finishes self.marks done.token) }
        ensures counts { tally_of result.1 ≡ self.merge.counts }
    {
        let counts = self.merge.counts();
        let StreamEnd {
            spec: _,
            sides: _,
            marks,
            monitor: _,
            merge: _,
            sender: _,
        } = self;
        match marks.finish() {
            Some(token) => (Some(StreamDone { token }), counts),
            None => (None, counts),
        }
    }
}
