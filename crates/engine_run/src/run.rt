//! Runs a studio in one thread, from its feeds, clock and sink to the report. Between two rounds it waits for input.
ghost use Rattle.std.specs.Prelude.{◌≡◌, ℕ, ℤ, List, Option, true, length, map, IfOk};
ghost use Rattle.studio_config.specs.Studio.{Studio};
ghost use Rattle.studio_io.specs.Answers.{Answer};
ghost use Rattle.studio_io.specs.Balances.{Balances};
ghost use Rattle.studio_io.specs.SendSums.{KeepsSums, ReportsAnswers};
ghost use Rattle.engine_run.specs.Runs.{IsDone, IsSettledRunWith, IsUnderWay, IsUnderWayWith};
ghost use Rattle.engine_run.specs.FeedFaults.{AllKeepFaults};
ghost use Rattle.engine_run.specs.Intake.{AllEnded};
ghost use Rattle.engine_run.specs.Grouping.{path_total};
ghost use Rattle.engine_run.specs.Observers.{HasNotedTaken, Heard};

use crate::feed_reader::all_readers;
use crate::observer::RunObserver;
use crate::output::settle;
use crate::report::{ReportBuffers, work_report};
use crate::state::RunState;
use rtp_wire::MAX_ARRIVAL_OCTETS;
use std::alloc::{AllocError, Global};
use std::sync::Wait;
use studio_config::StudioSpec;
use studio_engine::Engine;
use studio_io::{Clock, Feed, GainSource, MAX_GAINS, SendCounts, Sink, WorkReport};

/// A way to wait until a feed may have a datagram.
pub trait IdleWait: Drop {
    /// Waits until a feed may have a datagram. Nothing is due for `most` sampling instants at 48 kHz, which may be 0.
    /// It may end earlier, or later: blocks that become due meanwhile are then sent after it.
    ///
    /// Returns true if the datagrams that arrived are to be judged by the clock reading before the wait, the engine's
    /// time, so that none is late because of the wait. After false the clock is read again first.
    fn wait_for_input(&mut self, engine: &Engine, most: i64) -> bool;
}

/// The devices of a run in one thread.
#[derive(Drop)]
pub struct RunDevices<F, C, K, T, P, G> {
    /// A feed for each path, ordered by stream and then by path.
    pub feeds: Vec<F>,
    /// The clock of the run.
    pub clock: C,
    /// The sink that takes the datagrams of the mix.
    pub sink: K,
    /// The observer that is notified of what the engine takes. `NoObserver` ignores it.
    pub observer: T,
    /// The wait between two rounds.
    pub wait: P,
    /// The source of changes of gains. `NoGains` has none.
    pub gains: G,
}

/// Runs a studio in this thread until all feeds have ended and all datagrams were sent. Returns the report, the sink,
/// the observer and the source of gains.
///
/// All memory is allocated before the clock is first read, and `AllocError` is returned if that fails. A run is settled
/// unless there was not one feed for each path, or it took 2^62 events. If there are too few feeds the last paths have
/// none, and feeds beyond the last path are not called.
///
/// In each round the source of gains is asked for changes, until it has no request or 64 were answered. A settled run
/// is one of the studio with exactly the changes that were taken. The observer is notified of exactly these, in a run
/// that is not settled too.
pub fn run_engine<
    R: Wait,
    F: Feed,
    C: Clock,
    K: Sink,
    T: RunObserver<F>,
    P: IdleWait,
    G: GainSource,
>(
    rt: &R,
    alloc: Global,
    studio: &StudioSpec,
    devices: RunDevices<F, C, K, T, P, G>,
) -> Result<(WorkReport, K, T, G), AllocError>
    ensures balance { IfOk result (λ r. Balances r.0.blocks r.0.sent_a r.0.fault_a r.0.sent_b r.0.fault_b) }
    ensures sums { IfOk result (λ r. ReportsAnswers (K.answered devices.sink) r.0 (K.answered r.1)) }
    ensures settled { IfOk result (λ r. r.0.settled ≡ true
        → IsSettledRunWith studio.now (map F.told devices.feeds.items) (C.told devices.clock) r.0
        (K.handed devices.sink) (K.handed r.1) (T.heard devices.observer) (T.heard r.2)
        (G.taken devices.gains) (G.taken r.3)) }
    ensures feeds { IfOk result
        (λ r. r.0.settled ≡ true → length devices.feeds.items ≡ path_total studio.now.streams) }
    ensures noted { IfOk result
        (λ r. HasNotedTaken (G.taken devices.gains) (G.taken r.3) (T.noted devices.observer) (T.noted r.2)) }
{
    let RunDevices {
        feeds,
        clock,
        sink,
        observer,
        wait,
        gains,
    } = devices;
    let specs = studio.streams();
    let buffer = ReportBuffers::new(alloc, specs)?;
    let engine = Engine::new(alloc, studio)?;
    let (readers, fits) = all_readers(alloc, feeds, specs)?;
    let mut state = RunState {
        engine,
        readers,
        clock,
        sink,
        observer: observer,
        counts: SendCounts::new(),
    };
    let (mut wait, mut gains) = (wait, gains);
    let ended = run_rounds(rt, &mut state, &mut wait, &mut gains);
    // The engine is closed also after rounds that stopped early, so that the sink gets the datagrams that are left.
    let settled = settle(&mut state) && ended;
    let whole = settled && fits;
    let (report, sink, observer) = work_report(alloc, state, specs, buffer, whole)?;
    Ok((report, sink, observer, gains))
}

/// Makes rounds until all feeds have ended. Returns false if the engine stopped taking events before that.
fn run_rounds<R: Wait, F: Feed, C: Clock, K: Sink, T: RunObserver<F>, P: IdleWait, G: GainSource>(
    rt: &R,
    state: &mut RunState<F, C, K, T>,
    pause: &mut P,
    gains: &mut G,
) -> bool
    ensures on { result ≡ true → (studio : Studio) (all : List (List (List Answer))) (clock : List ℤ)
        (before : Option (List (List ℕ))) (earlier : Option (List Heard))
        → IsUnderWay F.told C.told K.handed T.heard studio all clock before earlier state.old
        → IsUnderWayWith F.told C.told K.handed T.heard studio all clock before earlier state.new
        (G.taken gains.old) (G.taken gains.new) }
    ensures ended { result ≡ true → AllEnded state.new.readers.items }
    ensures noted { HasNotedTaken (G.taken gains.old) (G.taken gains.new)
        (T.noted state.old.observer) (T.noted state.new.observer) }
    ensures sums { KeepsSums state.old.counts (K.answered state.old.sink) state.new.counts (K.answered state.new.sink) }
    ensures faults { AllKeepFaults F.told state.old.readers.items state.new.readers.items }
{
    // The first round does not pause: no feed was called yet.
    let mut most = 0;
    // The contract of `Feed::next` says what it returns for a buffer of this length only.
    let mut buf = [0u8; MAX_ARRIVAL_OCTETS];
    let mut buffer = [0i32; MAX_GAINS];
    for _ in rt.forever() {
        match state.round(gains, &mut buffer, pause, most, &mut buf) {
            Ok(Some(instants)) => most = instants,
            Ok(None) => return true,
            Err(_) => return false,
        }
    }
    unreachable!()
}
