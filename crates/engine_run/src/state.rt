//! The state of a run in one thread, and its rounds.
ghost use Rattle.std.specs.Prelude.{◌≡◌, ◌≤ℤ◌, pos, ◌^◌, ℕ, ℤ, List, Option, None, length, IfOk, OnOk};
ghost use Rattle.studio_config.specs.Studio.{Studio};
ghost use Rattle.studio_io.specs.Answers.{Answer};
ghost use Rattle.studio_io.specs.Clocks.{time_with};
ghost use Rattle.studio_io.specs.SendSums.{KeepsSums};
ghost use Rattle.engine_run.specs.Runs.{IsTurned, IsUnderWay, IsUnderWayWith};
ghost use Rattle.engine_run.specs.FeedFaults.{AllKeepFaults};
ghost use Rattle.engine_run.specs.Intake.{AllEnded};
ghost use Rattle.engine_run.specs.Observers.{HasNotedTaken, Heard};

use crate::feed_reader::{FeedReader, have_all_ended};
use crate::gain_requests::ask_source;
use crate::intake::take_all;
use crate::observer::RunObserver;
use crate::output::send_due;
use crate::run::IdleWait;
use path_merge::ClockFault;
use rtp_stream::MAX_TIME;
use studio_engine::{ArriveFault, Engine};
use studio_io::{Clock, Feed, GainSource, SendCounts, Sink};

/// The error of an engine that takes no more events: it has taken 2^62, or was passed a datagram of a path that it does
/// not have.
#[derive(Clone, Copy)]
pub(crate) struct EngineStopped;

impl From<ArriveFault> for EngineStopped {
    fn from(_fault: ArriveFault) -> EngineStopped {
        EngineStopped
    }
}

impl From<ClockFault> for EngineStopped {
    fn from(_fault: ClockFault) -> EngineStopped {
        EngineStopped
    }
}

/// The engine, feeds, clock, sink and observer of a run, and the counts of datagrams sent.
#[derive(Drop)]
pub(crate) struct RunState<F, C, K, T> {
    pub(crate) engine: Engine,
    /// The feeds, ordered by stream and then by path.
    pub(crate) readers: Vec<Vec<FeedReader<F>>>,
    pub(crate) clock: C,
    pub(crate) sink: K,
    pub(crate) observer: T,
    pub(crate) counts: SendCounts,
}

impl<F: Feed, C: Clock, K: Sink, T: RunObserver<F>> RunState<F, C, K, T> {
    /// Asks the source of gains for requests, at most 64, answers each, and notifies the observer of each change.
    fn ask<G: GainSource>(&mut self, source: &mut G, buffer: &mut [i32])
        requires space { length buffer.old ≡ 8192 }
        ensures on { (studio : Studio) (all : List (List (List Answer))) (clock : List ℤ)
            (before : Option (List (List ℕ))) (earlier : Option (List Heard))
            → IsUnderWay F.told C.told K.handed T.heard studio all clock before earlier self.old
            → IsUnderWayWith F.told C.told K.handed T.heard studio all clock before earlier self.new
            (G.taken source.old) (G.taken source.new) }
        ensures noted { HasNotedTaken (G.taken source.old) (G.taken source.new)
            (T.noted self.old.observer) (T.noted self.new.observer) }
        ensures sums { KeepsSums self.old.counts (K.answered self.old.sink) self.new.counts (K.answered self.new.sink) }
        ensures readers { self.new.readers ≡ self.old.readers }
    {
        ask_source(&mut self.engine, source, &mut self.observer, buffer);
    }

    /// Reads the clock and sends the datagrams that are due by then.
    fn turn(&mut self) -> Result<(), EngineStopped>
        ensures on { OnOk result ((studio : Studio) (all : List (List (List Answer))) (clock : List ℤ)
            (before : Option (List (List ℕ))) (earlier : Option (List Heard))
            → IsUnderWay F.told C.told K.handed T.heard studio all clock before earlier self.old
            → IsTurned F.told C.told K.handed T.heard studio all clock before earlier self.new) }
        ensures observer { self.new.observer ≡ self.old.observer }
        ensures sums { KeepsSums self.old.counts (K.answered self.old.sink) self.new.counts (K.answered self.new.sink) }
        ensures readers { self.new.readers ≡ self.old.readers }
    {
        let answer = self.clock.now();
        let now = greatest(self.engine.time(), answer);
        send_due(&mut self.engine, now, &mut self.sink, &mut self.counts)?;
        Ok(())
    }

    /// Makes a turn, unless the last clock reading is new enough to judge by it the datagrams that arrived since.
    fn turn_if_stale(&mut self, is_new: bool) -> Result<(), EngineStopped>
        ensures on { OnOk result ((studio : Studio) (all : List (List (List Answer))) (clock : List ℤ)
            (before : Option (List (List ℕ))) (earlier : Option (List Heard))
            → IsTurned F.told C.told K.handed T.heard studio all clock before earlier self.old
            → IsTurned F.told C.told K.handed T.heard studio all clock before earlier self.new) }
        ensures observer { self.new.observer ≡ self.old.observer }
        ensures sums { KeepsSums self.old.counts (K.answered self.old.sink) self.new.counts (K.answered self.new.sink) }
        ensures readers { self.new.readers ≡ self.old.readers }
    {
        if is_new {
            return Ok(());
        }
        self.turn()
    }

    /// Notifies the observer that the run is about to pause.
    fn notify_before_wait(&mut self)
        ensures on { (studio : Studio) (all : List (List (List Answer))) (clock : List ℤ)
            (before : Option (List (List ℕ))) (earlier : Option (List Heard))
            → IsTurned F.told C.told K.handed T.heard studio all clock before earlier self.old
            → IsTurned F.told C.told K.handed T.heard studio all clock before earlier self.new }
        ensures readers { self.new.readers ≡ self.old.readers }
        ensures noted { T.noted self.new.observer ≡ T.noted self.old.observer }
        ensures sums { KeepsSums self.old.counts (K.answered self.old.sink) self.new.counts (K.answered self.new.sink) }
    {
        self.observer.before_wait(&self.engine);
    }

    /// Takes the datagrams of the feeds. Returns the time that the run may pause for them, in sampling instants at
    /// 48 kHz.
    fn take(&mut self, buf: &mut [u8]) -> Result<i64, EngineStopped>
        requires space { length buf.old ≡ 2048 }
        ensures on { OnOk result ((studio : Studio) (all : List (List (List Answer))) (clock : List ℤ)
            (before : Option (List (List ℕ))) (earlier : Option (List Heard))
            → IsTurned F.told C.told K.handed T.heard studio all clock before earlier self.old
            → IsUnderWay F.told C.told K.handed T.heard studio all clock before earlier self.new) }
        ensures noted { T.noted self.new.observer ≡ T.noted self.old.observer }
        ensures sums { KeepsSums self.old.counts (K.answered self.old.sink) self.new.counts (K.answered self.new.sink) }
        ensures faults { AllKeepFaults F.told self.old.readers.items self.new.readers.items }
    {
        let most = take_all(
            &mut self.engine,
            self.readers.as_mut_slice(),
            &mut self.observer,
            buf,
        )?;
        Ok(most)
    }

    /// Makes one round: answers the requests of the source of gains, reads the clock, sends the datagrams that are due,
    /// notifies the observer, pauses for at most `most` sampling instants, and takes the datagrams of the feeds. Reads
    /// the clock again after the pause if it was long.
    ///
    /// Returns the time that the next round may pause, in sampling instants at 48 kHz; `None` if all feeds had ended.
    pub(crate) fn round<G: GainSource, P: IdleWait>(
        &mut self,
        source: &mut G,
        buffer: &mut [i32],
        pause: &mut P,
        most: i64,
        buf: &mut [u8],
    ) -> Result<Option<i64>, EngineStopped>
        requires space { length buf.old ≡ 2048 }
        requires gains { length buffer.old ≡ 8192 }
        ensures on { OnOk result ((studio : Studio) (all : List (List (List Answer))) (clock : List ℤ)
            (before : Option (List (List ℕ))) (earlier : Option (List Heard))
            → IsUnderWay F.told C.told K.handed T.heard studio all clock before earlier self.old
            → IsUnderWayWith F.told C.told K.handed T.heard studio all clock before earlier self.new
            (G.taken source.old) (G.taken source.new)) }
        ensures ended { IfOk result (λ most. most ≡ None → AllEnded self.new.readers.items) }
        ensures noted { HasNotedTaken (G.taken source.old) (G.taken source.new)
            (T.noted self.old.observer) (T.noted self.new.observer) }
        ensures sums { KeepsSums self.old.counts (K.answered self.old.sink) self.new.counts (K.answered self.new.sink) }
        ensures faults { AllKeepFaults F.told self.old.readers.items self.new.readers.items }
    {
        // Before the clock is read: a change that is asked for now is in force from the first block that this round
        // sends.
        self.ask(source, buffer);
        self.turn()?;
        if have_all_ended(self.readers.as_slice()) {
            return Ok(None);
        }
        self.notify_before_wait();
        let most = until_deadline(&self.engine, most);
        // The pause comes between the clock reading and the datagrams: a datagram that arrives in a short pause is
        // judged by the reading before the pause, so it is not late if it came in time. After a long pause that reading
        // is too old, and the clock is read again.
        let is_new = pause.wait_for_input(&self.engine, most);
        self.turn_if_stale(is_new)?;
        let most = self.take(buf)?;
        Ok(Some(most))
    }
}

/// Returns the greatest clock reading so far, with `answer` included. An answer beyond 2^60 counts as 2^60.
// A clock that goes back, or beyond 2^60, would be a clock fault: such readings are ignored or limited.
fn greatest(time: i64, answer: i64) -> i64
    ensures { result ≡ time_with time answer }
{
    time.max(answer.min(MAX_TIME))
}

/// Returns the time that a run may pause, in sampling instants: `most`, or the time to the engine's next deadline if
/// that is shorter.
fn until_deadline(engine: &Engine, most: i64) -> i64 {
    match engine.next_deadline() {
        Some(reading) => reading.saturating_sub(engine.time()).min(most),
        None => most,
    }
}
