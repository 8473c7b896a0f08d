//! Asks the source of gains for requests, has the engine answer them, and notifies the observer of each change.
ghost use Rattle.std.specs.Prelude.{◌≡◌, ◌≤◌, ◌*◌, [], ℕ, List, length};
ghost use Rattle.gain_mix.specs.Changes.{matrix_at};
ghost use Rattle.gain_mix.specs.Gain.{ins_of};
ghost use Rattle.studio_config.specs.Studio.{Studio};
ghost use Rattle.studio_mix.specs.Mixer.{next_start_of};
ghost use Rattle.studio_session.specs.Event.{TraceEvent};
ghost use Rattle.studio_engine.specs.Session.{HasSession};
ghost use Rattle.studio_io.specs.Gains.{changes_in};
ghost use Rattle.engine_run.specs.GainRequests.{HasTakenChanges};
ghost use Rattle.engine_run.specs.Observers.{HasNotedTaken, Hears, NotesChanges};

use crate::observer::RunObserver;
use studio_engine::Engine;
use studio_io::{GainAnswer, GainSource, MAX_REQUESTS};

/// Returns the number of gains of an engine's matrix.
fn gain_count(engine: &Engine) -> usize
    ensures value { let rows = matrix_at engine.now.mixer.schedule (next_start_of engine.now.mixer) in
        result ≡ length rows * ins_of rows }
    ensures few { result ≤ 8192 }
{
    let in_force = engine.gains(engine.next_block_start());
    in_force.outs() * in_force.ins()
}

/// Notifies the observer of the change that an answer takes, if it takes one.
fn notify_change<F, T: RunObserver<F>>(
    engine: &Engine,
    answer: GainAnswer,
    gains: &[i32],
    observer: &mut T,
)
    ensures heard { Hears (T.heard observer.old) [] (T.heard observer.new) }
    ensures noted { NotesChanges (T.noted observer.old) (changes_in answer gains.now) (T.noted observer.new) }
{
    if let GainAnswer::Taken(at) = answer {
        observer.changed(engine, at, gains);
    }
}

/// Asks the source for one request, answers it, and notifies the observer of a change. Returns false if there was none.
fn ask_once<F, G: GainSource, T: RunObserver<F>>(
    engine: &mut Engine,
    source: &mut G,
    observer: &mut T,
    buffer: &mut [i32],
) -> bool
    requires space { length buffer.old ≡ 8192 }
    ensures stands { (studio : Studio) (events : List TraceEvent) (datagrams : List (List ℕ))
        → HasSession studio engine.old events datagrams
        → HasTakenChanges studio engine.new events datagrams (G.taken source.old) (G.taken source.new) }
    ensures time { engine.new.time ≡ engine.old.time }
    ensures heard { Hears (T.heard observer.old) [] (T.heard observer.new) }
    ensures noted { HasNotedTaken (G.taken source.old) (G.taken source.new) (T.noted observer.old)
        (T.noted observer.new) }
{
    let count = gain_count(engine);
    let gains = &mut buffer[..count];
    let Some(request) = source.next(gains) else {
        return false;
    };
    let next = engine.next_block_start();
    let answer = engine.answer_request(request, gains);
    // Before the source has its answer: whoever reads the answer finds the change noted.
    notify_change(engine, answer, gains, observer);
    source.answer(answer, next, gains);
    true
}

/// Asks the source for requests until it has none, but for at most 64, answers each, and notifies the observer of each
/// change.
pub(crate) fn ask_source<F, G: GainSource, T: RunObserver<F>>(
    engine: &mut Engine,
    source: &mut G,
    observer: &mut T,
    buffer: &mut [i32],
)
    requires space { length buffer.old ≡ 8192 }
    ensures stands { (studio : Studio) (events : List TraceEvent) (datagrams : List (List ℕ))
        → HasSession studio engine.old events datagrams
        → HasTakenChanges studio engine.new events datagrams (G.taken source.old) (G.taken source.new) }
    ensures time { engine.new.time ≡ engine.old.time }
    ensures heard { Hears (T.heard observer.old) [] (T.heard observer.new) }
    ensures noted { HasNotedTaken (G.taken source.old) (G.taken source.new) (T.noted observer.old)
        (T.noted observer.new) }
{
    for _ in 0..MAX_REQUESTS {
        if !ask_once(engine, source, observer, buffer) {
            return;
        }
    }
}
