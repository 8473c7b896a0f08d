//! The calls that read a number of an engine, and change nothing.
ghost use Rattle.std.specs.Prelude.{
  ◌≡◌,
  ◌⊎◌,
  ◌≤◌,
  ◌<ℤ◌,
  ◌+◌,
  ◌^◌,
  ℕ,
  List,
  true,
  false,
  pos,
  length,
  slice_get,
  Some,
  None,
  IsSomeAnd,
};
ghost use Rattle.mix_packets.specs.Block.{block_start};
ghost use Rattle.studio_config.specs.Studio.{Studio};
ghost use Rattle.studio_mix.specs.Saturated.{AreSaturated};
ghost use Rattle.studio_session.specs.Event.{TraceEvent};
ghost use Rattle.studio_session.specs.Play.{feeds_of};
ghost use Rattle.studio_engine.specs.Deadline.{IsUnreadyBefore};
ghost use Rattle.studio_engine.specs.Engine.{EngineState, HasAllMarks};
ghost use Rattle.studio_engine.specs.Session.{HasSession};
ghost use Rattle.darbexum_c.specs.Codes as code;

use crate::codes::{NO_ENGINE, NONE};
use crate::handle::Handle;
use std::alloc::Global;

/// Writes the clock reading before which no datagram comes if nothing arrives. Returns 0, or a code: `NONE` while a
/// turn isn't finished, after a close, and if no reading up to 2^60 returns a datagram.
#[unsafe(no_mangle)]
pub extern "C" fn darbexum_next_deadline(
    alloc: Global,
    handle: &mut Handle,
    reading: &mut i64,
) -> i32
    ensures before { result ≡ pos 0 → IsSomeAnd handle.old.engine
        (λ engine. (studio : Studio) (events : List TraceEvent) (datagrams : List (List ℕ))
        → HasSession studio engine events datagrams
        → IsUnreadyBefore studio events (length datagrams) reading.new) }
    ensures later { result ≡ pos 0 → IsSomeAnd handle.old.engine (λ engine. engine.time <ℤ reading.new) }
    ensures idle { result ≡ pos 0 → IsSomeAnd handle.old.engine (λ engine. engine.turning ≡ false) }
    ensures open_yet { result ≡ pos 0 → IsSomeAnd handle.old.engine (λ engine. engine.closed ≡ false) }
    ensures never { result ≡ code.none → (engine : EngineState) → handle.old.engine ≡ Some engine
        → engine.turning ≡ false → engine.closed ≡ false
        → (studio : Studio) (events : List TraceEvent) (datagrams : List (List ℕ))
        → HasSession studio engine events datagrams
        → IsUnreadyBefore studio events (length datagrams) (pos (2 ^ 60 + 1)) }
    ensures empty { handle.old.engine ≡ None → result ≡ code.no_engine }
    ensures codes { (engine : EngineState) → handle.old.engine ≡ Some engine
        → (result ≡ pos 0) ⊎ (result ≡ code.none) }
    ensures unwritten { result <ℤ pos 0 → reading.new ≡ reading.old }
    ensures kept { handle.new.engine ≡ handle.old.engine }
{
    let Some(engine) = handle.take(alloc) else {
        return NO_ENGINE;
    };
    let answer = match engine.next_deadline() {
        Some(found) => {
            *reading = found;
            0
        }
        None => NONE,
    };
    handle.put(engine);
    answer
}

/// Writes the last clock reading that was taken, or the opening time, in sampling instants. Returns 0, or a code.
#[unsafe(no_mangle)]
pub extern "C" fn darbexum_time(alloc: Global, handle: &mut Handle, time: &mut i64) -> i32
    ensures value { result ≡ pos 0 → IsSomeAnd handle.old.engine (λ engine. time.new ≡ engine.time) }
    ensures empty { handle.old.engine ≡ None → result ≡ code.no_engine }
    ensures fine { (engine : EngineState) → handle.old.engine ≡ Some engine → result ≡ pos 0 }
    ensures unwritten { result <ℤ pos 0 → time.new ≡ time.old }
    ensures kept { handle.new.engine ≡ handle.old.engine }
{
    let Some(engine) = handle.take(alloc) else {
        return NO_ENGINE;
    };
    *time = engine.time();
    handle.put(engine);
    0
}

/// Writes the media time at which the next block begins, in sampling instants: the first time whose gains can still
/// change. Returns 0, or a code.
#[unsafe(no_mangle)]
pub extern "C" fn darbexum_next_block_start(
    alloc: Global,
    handle: &mut Handle,
    start: &mut i64,
) -> i32
    ensures value { result ≡ pos 0 → IsSomeAnd handle.old.engine
        (λ engine. start.new ≡ block_start engine.mixer.packer.spec engine.mixer.packer.number) }
    ensures stands { result ≡ pos 0 → IsSomeAnd handle.old.engine
        (λ engine. (studio : Studio) (events : List TraceEvent) (datagrams : List (List ℕ))
        → HasSession studio engine events datagrams
        → start.new ≡ block_start studio.output (length datagrams)) }
    ensures empty { handle.old.engine ≡ None → result ≡ code.no_engine }
    ensures fine { (engine : EngineState) → handle.old.engine ≡ Some engine → result ≡ pos 0 }
    ensures unwritten { result <ℤ pos 0 → start.new ≡ start.old }
    ensures kept { handle.new.engine ≡ handle.old.engine }
{
    let Some(engine) = handle.take(alloc) else {
        return NO_ENGINE;
    };
    *start = engine.next_block_start();
    handle.put(engine);
    0
}

/// Returns 1 if the engine was closed and all datagrams were returned, 0 if not, or a code. After 1 all counts are
/// complete.
#[unsafe(no_mangle)]
pub extern "C" fn darbexum_settled(alloc: Global, handle: &mut Handle) -> i32
    ensures settled { result ≡ pos 1 → IsSomeAnd handle.old.engine (λ engine. engine.settled ≡ true) }
    ensures whole { result ≡ pos 1 → IsSomeAnd handle.old.engine (λ engine. HasAllMarks engine) }
    ensures going { result ≡ pos 0 → IsSomeAnd handle.old.engine (λ engine. engine.settled ≡ false) }
    ensures empty { handle.old.engine ≡ None → result ≡ code.no_engine }
    ensures codes { (engine : EngineState) → handle.old.engine ≡ Some engine
        → (result ≡ pos 0) ⊎ (result ≡ pos 1) }
    ensures kept { handle.new.engine ≡ handle.old.engine }
{
    let Some(engine) = handle.take(alloc) else {
        return NO_ENGINE;
    };
    let settled = engine.settled();
    handle.put(engine);
    if settled {
        return 1;
    }
    0
}

/// Returns the number of streams, or 0 if the handle has no engine.
#[unsafe(no_mangle)]
pub extern "C" fn darbexum_streams(alloc: Global, handle: &mut Handle) -> usize
    ensures value { (engine : EngineState) → handle.old.engine ≡ Some engine → result ≡ length engine.cursors }
    ensures empty { handle.old.engine ≡ None → result ≡ 0 }
    ensures kept { handle.new.engine ≡ handle.old.engine }
{
    let Some(engine) = handle.take(alloc) else {
        return 0;
    };
    let streams = engine.streams();
    handle.put(engine);
    streams
}

/// Writes the number of saturated samples of an output channel in the datagrams so far. Returns 0, or a code: `NONE` if
/// there is no such channel.
#[unsafe(no_mangle)]
pub extern "C" fn darbexum_saturated(
    alloc: Global,
    handle: &mut Handle,
    channel: usize,
    count: &mut u64,
) -> i32
    ensures value { result ≡ pos 0 → IsSomeAnd handle.old.engine
        (λ engine. slice_get engine.mixer.saturated channel ≡ Some count.new) }
    ensures stands { (engine : EngineState) → handle.old.engine ≡ Some engine
        → (studio : Studio) (events : List TraceEvent) (datagrams : List (List ℕ))
        → HasSession studio engine events datagrams
        → AreSaturated studio (feeds_of studio events) (length datagrams) engine.mixer.saturated }
    ensures none { result ≡ code.none → IsSomeAnd handle.old.engine
        (λ engine. length engine.mixer.saturated ≤ channel) }
    ensures empty { handle.old.engine ≡ None → result ≡ code.no_engine }
    ensures codes { (engine : EngineState) → handle.old.engine ≡ Some engine
        → (result ≡ pos 0) ⊎ (result ≡ code.none) }
    ensures unwritten { result <ℤ pos 0 → count.new ≡ count.old }
    ensures kept { handle.new.engine ≡ handle.old.engine }
{
    let Some(engine) = handle.take(alloc) else {
        return NO_ENGINE;
    };
    let found = engine.saturated().get(channel).copied();
    handle.put(engine);
    match found {
        Some(found) => {
            *count = found;
            0
        }
        None => NONE,
    }
}
