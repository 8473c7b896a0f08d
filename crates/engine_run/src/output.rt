//! Sends the engine's datagrams to the sink, in the rounds and after the close.
ghost use Rattle.std.specs.Prelude.{◌≡◌, ℕ, ℤ, List, Option, None, IsTrue, OnOk};
ghost use Rattle.path_merge.specs.Clock.{clock_fault_of};
ghost use Rattle.studio_config.specs.Studio.{Studio};
ghost use Rattle.studio_session.specs.Event.{TraceEvent};
ghost use Rattle.studio_engine.specs.Session.{HasSession, turned};
ghost use Rattle.studio_io.specs.Answers.{Answer};
ghost use Rattle.studio_io.specs.SendSums.{KeepsSums};
ghost use Rattle.engine_run.specs.Output.{HasSent};
ghost use Rattle.engine_run.specs.Runs.{IsDone, IsUnderWay};
ghost use Rattle.engine_run.specs.Intake.{AllEnded};
ghost use Rattle.engine_run.specs.Observers.{Heard};

use crate::observer::RunObserver;
use crate::state::RunState;
use mix_packets::MAX_OUTPUT_OCTETS;
use path_merge::ClockFault;
use studio_engine::Engine;
use studio_io::{Clock, Feed, SendCounts, Sink};

/// Moves the engine on to a clock reading and sends each datagram that is due by then. Returns a `ClockFault` if the
/// engine refuses the reading.
pub(crate) fn send_due<K: Sink>(
    engine: &mut Engine,
    now: i64,
    sink: &mut K,
    counts: &mut SendCounts,
) -> Result<(), ClockFault>
    ensures sent { OnOk result ((studio : Studio) (events : List TraceEvent) (datagrams : List (List ℕ))
        → HasSession studio engine.old events datagrams
        → HasSent studio engine.new (turned engine.old.time now events) datagrams (K.handed sink.old)
        (K.handed sink.new) counts.old.blocks counts.new.blocks) }
    ensures there { OnOk result ((studio : Studio) (events : List TraceEvent) (datagrams : List (List ℕ))
        → HasSession studio engine.old events datagrams
        → engine.new.time ≡ now) }
    ensures sums { KeepsSums counts.old (K.answered sink.old) counts.new (K.answered sink.new) }
{
    let mut out = [0u8; MAX_OUTPUT_OCTETS];
    // Called for its contract: a datagram has at most `MAX_OUTPUT_OCTETS` octets, so it fits `out`.
    let _short = engine.output().datagram_len();
    while let Some(len) = engine.turn(now, &mut out)? {
        let answer = sink.send_block(&out[..len], &engine.last_block());
        counts.add(answer);
    }
    Ok(())
}

/// Sends each datagram that is left after the close.
pub(crate) fn send_rest<K: Sink>(engine: &mut Engine, sink: &mut K, counts: &mut SendCounts)
    ensures sent { (studio : Studio) (events : List TraceEvent) (datagrams : List (List ℕ))
        → HasSession studio engine.old events datagrams
        → HasSent studio engine.new events datagrams (K.handed sink.old)
        (K.handed sink.new) counts.old.blocks counts.new.blocks }
    ensures settled { engine.new.settled ≡ engine.old.closed }
    ensures sums { KeepsSums counts.old (K.answered sink.old) counts.new (K.answered sink.new) }
{
    let mut out = [0u8; MAX_OUTPUT_OCTETS];
    // Called for its contract: a datagram has at most `MAX_OUTPUT_OCTETS` octets, so it fits `out`.
    let _short = engine.output().datagram_len();
    while let Some(len) = engine.drain(&mut out) {
        let answer = sink.send_block(&out[..len], &engine.last_block());
        counts.add(answer);
    }
}

/// Closes the engine, notifies the observer, and sends the datagrams that are left. Returns true if the engine closed
/// and all its datagrams were sent.
pub(crate) fn settle<F: Feed, C: Clock, K: Sink, T: RunObserver<F>>(
    state: &mut RunState<F, C, K, T>,
) -> bool
    ensures done { IsTrue result → (studio : Studio) (all : List (List (List Answer))) (clock : List ℤ)
        (before : Option (List (List ℕ))) (earlier : Option (List Heard))
        → AllEnded state.old.readers.items
        → IsUnderWay F.told C.told K.handed T.heard studio all clock before earlier state.old
        → IsDone K.handed T.heard studio all clock before earlier state.new }
    ensures noted { T.noted state.new.observer ≡ T.noted state.old.observer }
    ensures sums { KeepsSums state.old.counts (K.answered state.old.sink) state.new.counts (K.answered state.new.sink) }
    ensures readers { state.new.readers ≡ state.old.readers }
{
    if state.engine.close().is_err() {
        return false;
    }
    state.observer.closed(&state.engine);
    send_rest(&mut state.engine, &mut state.sink, &mut state.counts);
    state.engine.settled()
}
