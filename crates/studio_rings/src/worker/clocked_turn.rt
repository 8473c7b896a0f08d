//! The turns of a stream at its clock's readings, and its close.
ghost use Rattle.std.specs.Prelude.{◌≡◌, ◌↔◌, ◌^◌, ◌≤ℤ◌, pos, false, IfOk, IfErr, IsTrue};
ghost use Rattle.studio_ends.specs.Streams.{ReadsClock, TakesTurn, TellsTurn};
ghost use Rattle.studio_rings.specs.Turns.{
  CatchesUp,
  Closes,
  GoesOn,
  IsWaiting,
  KeepsTokens,
  ReadsClockOnce,
  ReadsFirst,
  TakesOfEach,
  TellsAfterReading,
  WaitsAfter,
};

use crate::worker::Backoff;
use crate::worker::clocked_stream::ClockedStream;
use rtp_stream::{MAX_TIME, StreamClock};
use std::sync::Wait;
use studio_ends::{StopReason, StreamEnd, TurnNote};
use studio_io::Clock;

/// The longest time between two readings after which no packet waits, in sampling instants: 10 ms.
// Twice the longest pause after a turn. After more the thread was held up.
const MOST_BETWEEN: i64 = 480;

/// The longest time that packets wait after a hold-up, in sampling instants: 50 ms.
// Enough for what a stop of 200 ms leaves of a stream with packets of 125 microseconds. A stream can be behind its
// clock for another reason, as a mixer that takes no marks: its packets must not wait for longer.
const LONGEST_WAIT: i64 = 2_400;

/// Makes a turn at a reading that no clock fault refuses.
fn turn_at(end: &mut StreamEnd, now: i64) -> TurnNote
    requires open_yet { end.old.merge.closed ≡ false }
    requires low { end.old.merge.time ≤ℤ now }
    requires high { now ≤ℤ pos (2 ^ 60) }
    ensures takes { TakesTurn end.old now result end.new }
    ensures told { TellsTurn end.old end.new }
{
    match end.turn(now) {
        Ok(note) => note,
        Err(_) => unreachable!(),
    }
}

/// Passes a reading to a stream that no clock fault refuses. Takes no packet.
fn read_at(end: &mut StreamEnd, now: i64) -> StopReason
    requires open_yet { end.old.merge.closed ≡ false }
    requires low { end.old.merge.time ≤ℤ now }
    requires high { now ≤ℤ pos (2 ^ 60) }
    ensures reads { ReadsClock end.old now result end.new }
    ensures sender { end.new.sender ≡ end.old.sender }
{
    match end.read_clock(now) {
        Ok(why) => why,
        Err(_) => unreachable!(),
    }
}

/// Passes a reading to a stream with a clock of arrivals before its first packet is taken.
// The first packet has the time of the reading before it. A turn takes packets before it moves on to its own reading,
// so without this the first packet would have the time of the turn before.
fn read_first(end: &mut StreamEnd, now: i64)
    requires open_yet { end.old.merge.closed ≡ false }
    requires low { end.old.merge.time ≤ℤ now }
    requires high { now ≤ℤ pos (2 ^ 60) }
    ensures reads { ReadsFirst end.old now end.new }
    ensures sender { end.new.sender ≡ end.old.sender }
{
    if matches!(end.spec().clock(), StreamClock::Media { .. }) || end.next_deadline().is_some() {
        return;
    }
    let _ = read_at(end, now);
}

/// Pauses if a turn at this time left nothing to do until packets arrive or time passes. The pauses grow while no
/// packet arrives.
fn snooze_after<R: Wait>(rt: &R, pause: &mut Backoff, now: i64, note: &TurnNote) {
    if note.from.iter().any(|count| *count > 0) {
        pause.reset();
    }
    // A turn takes at most 64 packets of a path. If it took 64, the path may have more.
    let more = note.from.iter().any(|count| *count == 64);
    if !more && note.why_stopped != StopReason::Batch {
        pause.snooze_aligned(rt, now);
    }
}

/// Returns the time until which packets wait after a reading. `until` is the one before it, `time` that to which the
/// end has come, and `last` the reading before.
// A wait begins only if the end had come to the last reading. Else an end that stays behind would begin one at each
// reading of a busy machine, and take no packet any more.
fn wait_after(until: i64, time: i64, last: i64, now: i64) -> i64
    requires last_high { last ≤ℤ pos (2 ^ 60) }
    requires high { now ≤ℤ pos (2 ^ 60) }
    ensures { WaitsAfter until time last now result }
{
    if last <= time && last + MOST_BETWEEN < now {
        return now + LONGEST_WAIT;
    }
    until
}

/// Returns true if packets wait at a reading, since the end has not come to the last one.
fn must_wait(end: &StreamEnd, last: i64, now: i64, until: i64) -> bool
    ensures { IsTrue result ↔ IsWaiting end.now.merge.time last now until }
{
    end.time() < last && now < until
}

/// Pauses if a reading at this time stopped because no free place is known.
fn snooze_without_room<R: Wait>(rt: &R, pause: &mut Backoff, now: i64, why: StopReason) {
    if why == StopReason::NoRoom {
        pause.snooze_aligned(rt, now);
    }
}

impl<C: Clock> ClockedStream<C> {
    /// Makes a turn at the greatest clock reading so far, and pauses if nothing is left to do until packets arrive or
    /// time passes.
    ///
    /// After a hold-up the marks of many turns are left, and come first: for at most 50 ms the turns take no packet
    /// until one has reached its reading.
    // A packet that was taken on the way would be judged at a time that is past: as in time or too early, or, if that
    // time runs ahead of what the paths bring, as later and later. By a clock that follows it, its sender was astray.
    pub fn turn<R: Wait>(&mut self, rt: &R)
        ensures later { GoesOn C.told self.old self.new }
        ensures time { ReadsClockOnce C.told self.old.clock self.old.now self.new.clock self.new.now }
        ensures caught_up { CatchesUp self.old.end self.new.now self.new.end }
        ensures waits { WaitsAfter self.old.waits_until self.old.end.merge.time self.old.now self.new.now
            self.new.waits_until }
        ensures punctual { IsWaiting self.old.end.merge.time self.old.now self.new.now self.new.waits_until
            → self.new.end.sides ≡ self.old.end.sides }
        ensures takes { (IsWaiting self.old.end.merge.time self.old.now self.new.now self.new.waits_until → ⊥)
            → TakesOfEach self.old.end self.new.end }
        ensures told { (IsWaiting self.old.end.merge.time self.old.now self.new.now self.new.waits_until → ⊥)
            → TellsAfterReading self.old.end self.new.end }
        ensures silent { IsWaiting self.old.end.merge.time self.old.now self.new.now self.new.waits_until
            → self.new.end.sender ≡ self.old.end.sender }
        ensures tokens { KeepsTokens self.old.end.sides.items self.new.end.sides.items }
    {
        let last = self.now;
        // A reading before the last one or after 2^60 would be a clock fault, whatever the clock returns.
        self.now = self.clock.now().clamp(self.now, MAX_TIME);
        self.waits_until = wait_after(self.waits_until, self.end.time(), last, self.now);
        if must_wait(&self.end, last, self.now, self.waits_until) {
            let why = read_at(&mut self.end, self.now);
            snooze_without_room(rt, &mut self.pause, self.now, why);
            return;
        }
        read_first(&mut self.end, self.now);
        let note = turn_at(&mut self.end, self.now);
        snooze_after(rt, &mut self.pause, self.now, &note);
    }

    /// Closes the stream if all that its paths sent was taken. Returns the open stream otherwise.
    // Consumes the stream, since a `ClockedStream` is never closed: a turn of it can then have no clock fault.
    pub fn try_close(self) -> Result<StreamEnd, ClockedStream<C>>
        ensures closed { IfOk result (λ end. Closes self.end end) }
        ensures later { IfErr result (λ rest. GoesOn C.told self rest) }
        ensures tokens { IfErr result (λ rest. KeepsTokens self.end.sides.items rest.end.sides.items) }
    {
        let ClockedStream {
            end,
            clock,
            now,
            pause,
            waits_until,
        } = self;
        let mut end = end;
        match end.close() {
            Ok(()) => Ok(end),
            Err(_) => Err(ClockedStream {
                end,
                clock,
                now,
                pause,
                waits_until,
            }),
        }
    }
}
