//! The calls by which an engine takes datagrams and clock readings, and returns datagrams.
ghost use Rattle.std.specs.Prelude.{
  ◌≡◌,
  ◌⊎◌,
  ◌<◌,
  ◌≤◌,
  ◌≤ℤ◌,
  ◌<ℤ◌,
  ◌∷◌,
  ◌++◌,
  ℕ,
  [],
  List,
  true,
  false,
  pos,
  nat_abs,
  length,
  slice_get,
  Some,
  None,
  IsSomeAnd,
};
ghost use Rattle.rtp_stream.specs.declared.stream_spec.Stream.{Stream};
ghost use Rattle.mix_packets.specs.OutSpec.{datagram_length};
ghost use Rattle.studio_config.specs.Studio.{Studio};
ghost use Rattle.studio_mix.specs.Changed.{with_gains};
ghost use Rattle.studio_session.specs.Event.{TraceEvent, Arrival};
ghost use Rattle.studio_session.specs.ArriveOutcome.{outcome_of};
ghost use Rattle.studio_engine.specs.Engine.{EngineState};
ghost use Rattle.studio_engine.specs.Session.{Gives, HasGivenReady, HasSession, shut, turned};
ghost use Rattle.darbexum_c.specs.Codes as code;
ghost use Rattle.darbexum_c.specs.Moves.{Moves};

use crate::calls;
use crate::codes::NO_ENGINE;
use crate::handle::Handle;
use std::alloc::Global;

/// Takes a datagram of a stream that came in on a path. Returns its outcome, or a code.
#[unsafe(no_mangle)]
pub extern "C" fn darbexum_arrive(
    alloc: Global,
    handle: &mut Handle,
    stream: usize,
    path: u8,
    octets: &[u8],
) -> i32
    ensures stands { pos 0 ≤ℤ result → Moves handle.old.engine handle.new.engine
        (λ before after. (studio : Studio) (events : List TraceEvent) (datagrams : List (List ℕ))
        → HasSession studio before events datagrams
        → HasSession studio after (events ++ Arrival stream path octets.now ∷ []) datagrams) }
    ensures outcome { pos 0 ≤ℤ result → IsSomeAnd handle.old.engine
        (λ before. (studio : Studio) (events : List TraceEvent) (datagrams : List (List ℕ)) (spec : Stream)
        → HasSession studio before events datagrams → slice_get studio.streams stream ≡ Some spec
        → result ≡ pos (code.outcome_code (outcome_of spec stream studio.open_at events path octets.now))) }
    ensures empty { handle.old.engine ≡ None → result ≡ code.no_engine }
    ensures fine { pos 0 ≤ℤ result → (engine : EngineState) → handle.old.engine ≡ Some engine
        → code.arrive_code_of engine stream path ≡ None }
    ensures fault { result <ℤ pos 0 → (engine : EngineState) → handle.old.engine ≡ Some engine
        → code.arrive_code_of engine stream path ≡ Some result }
    ensures kept { result <ℤ pos 0 → handle.new.engine ≡ handle.old.engine }
{
    let Some(mut engine) = handle.take(alloc) else {
        return NO_ENGINE;
    };
    let answer = calls::arrive(&mut engine, stream, path, octets);
    handle.put(engine);
    answer
}

/// Moves all streams on to a clock reading, in sampling instants, and writes the next datagram to the front of `out`.
/// Returns its length, 0 if there is none, or a code. Call it with the same reading until it returns 0.
#[unsafe(no_mangle)]
pub extern "C" fn darbexum_turn(
    alloc: Global,
    handle: &mut Handle,
    now: i64,
    out: &mut [u8],
) -> isize
    ensures some { pos 0 <ℤ result → Moves handle.old.engine handle.new.engine
        (λ before after. (studio : Studio) (events : List TraceEvent) (datagrams : List (List ℕ))
        → HasSession studio before events datagrams
        → Gives studio after (turned before.time after.time events) datagrams out.old out.new (nat_abs result)) }
    ensures none { result ≡ pos 0 → Moves handle.old.engine handle.new.engine
        (λ before after. (studio : Studio) (events : List TraceEvent) (datagrams : List (List ℕ))
        → HasSession studio before events datagrams
        → HasGivenReady studio after (turned before.time after.time events) datagrams) }
    ensures there { result ≡ pos 0 → Moves handle.old.engine handle.new.engine
        (λ before after. (studio : Studio) (events : List TraceEvent) (datagrams : List (List ℕ))
        → HasSession studio before events datagrams → (after.turning ≡ false) × (after.time ≡ now)) }
    ensures time { pos 0 ≤ℤ result → Moves handle.old.engine handle.new.engine
        (λ before after. (after.time ≡ before.time) ⊎ (after.time ≡ now)) }
    ensures empty { handle.old.engine ≡ None → result ≡ code.no_engine }
    ensures fine { pos 0 ≤ℤ result → (engine : EngineState) → handle.old.engine ≡ Some engine
        → code.turn_code_of engine now (length out.old) ≡ None }
    ensures fault { result <ℤ pos 0 → (engine : EngineState) → handle.old.engine ≡ Some engine
        → code.turn_code_of engine now (length out.old) ≡ Some result }
    ensures kept { result <ℤ pos 0 → handle.new.engine ≡ handle.old.engine }
{
    let Some(mut engine) = handle.take(alloc) else {
        return NO_ENGINE as isize;
    };
    let answer = calls::turn(&mut engine, now, out);
    handle.put(engine);
    answer
}

/// Changes the gains: from `at` on, in sampling instants of the media clock, these are in force. They replace every
/// change that was planned from then on. They are in units of 1/65,536, row by row, a row for each output channel. No
/// datagram that was returned changes. Returns 0, or a code.
#[unsafe(no_mangle)]
pub extern "C" fn darbexum_change_gains(
    alloc: Global,
    handle: &mut Handle,
    at: i64,
    gains: &[i32],
) -> i32
    ensures stands { result ≡ pos 0 → Moves handle.old.engine handle.new.engine
        (λ before after. (studio : Studio) (events : List TraceEvent) (datagrams : List (List ℕ))
        → HasSession studio before events datagrams
        → HasSession (with_gains studio at gains.now) after events datagrams) }
    ensures ready { result ≡ pos 0 → Moves handle.old.engine handle.new.engine
        (λ before after. (studio : Studio) (events : List TraceEvent) (datagrams : List (List ℕ))
        → HasGivenReady studio before events datagrams
        → HasGivenReady (with_gains studio at gains.now) after events datagrams) }
    ensures empty { handle.old.engine ≡ None → result ≡ code.no_engine }
    ensures exact { (engine : EngineState) → handle.old.engine ≡ Some engine
        → result ≡ code.gains_code_of engine at gains.now }
    ensures kept { result <ℤ pos 0 → handle.new.engine ≡ handle.old.engine }
{
    let Some(mut engine) = handle.take(alloc) else {
        return NO_ENGINE;
    };
    let answer = calls::change_gains(&mut engine, at, gains);
    handle.put(engine);
    answer
}

/// Closes all streams: no later packet and no later clock reading is taken. Returns 0, or a code.
#[unsafe(no_mangle)]
pub extern "C" fn darbexum_close(alloc: Global, handle: &mut Handle) -> i32
    ensures stands { result ≡ pos 0 → Moves handle.old.engine handle.new.engine
        (λ before after. (studio : Studio) (events : List TraceEvent) (datagrams : List (List ℕ))
        → HasSession studio before events datagrams → HasSession studio after (shut before.closed events) datagrams) }
    ensures closed { result ≡ pos 0 → IsSomeAnd handle.new.engine (λ after. after.closed ≡ true) }
    ensures empty { handle.old.engine ≡ None → result ≡ code.no_engine }
    ensures exact { (engine : EngineState) → handle.old.engine ≡ Some engine
        → ((result ≡ pos 0) × (engine.turning ≡ false)) ⊎ ((result ≡ code.unfinished) × (engine.turning ≡ true)) }
    ensures kept { result <ℤ pos 0 → handle.new.engine ≡ handle.old.engine }
{
    let Some(mut engine) = handle.take(alloc) else {
        return NO_ENGINE;
    };
    let answer = calls::close(&mut engine);
    handle.put(engine);
    answer
}

/// Writes the next datagram that is left after a close to the front of `out`. Returns its length, 0 if none is left or
/// the engine isn't closed, or a code.
#[unsafe(no_mangle)]
pub extern "C" fn darbexum_drain(alloc: Global, handle: &mut Handle, out: &mut [u8]) -> isize
    ensures some { pos 0 <ℤ result → Moves handle.old.engine handle.new.engine
        (λ before after. (studio : Studio) (events : List TraceEvent) (datagrams : List (List ℕ))
        → HasSession studio before events datagrams
        → Gives studio after events datagrams out.old out.new (nat_abs result)) }
    ensures none { result ≡ pos 0 → Moves handle.old.engine handle.new.engine
        (λ before after. (studio : Studio) (events : List TraceEvent) (datagrams : List (List ℕ))
        → HasSession studio before events datagrams → HasSession studio after events datagrams) }
    ensures settled { result ≡ pos 0 → Moves handle.old.engine handle.new.engine
        (λ before after. after.settled ≡ before.closed) }
    ensures closed { pos 0 ≤ℤ result → Moves handle.old.engine handle.new.engine
        (λ before after. after.closed ≡ before.closed) }
    ensures empty { handle.old.engine ≡ None → result ≡ code.no_engine }
    ensures fine { pos 0 ≤ℤ result → (engine : EngineState) → handle.old.engine ≡ Some engine
        → datagram_length engine.mixer.packer.spec ≤ length out.old }
    ensures fault { result <ℤ pos 0 → (engine : EngineState) → handle.old.engine ≡ Some engine
        → (result ≡ code.short_room) × (length out.old < datagram_length engine.mixer.packer.spec) }
    ensures unwritten { result ≤ℤ pos 0 → out.new ≡ out.old }
    ensures kept { result <ℤ pos 0 → handle.new.engine ≡ handle.old.engine }
{
    let Some(mut engine) = handle.take(alloc) else {
        return NO_ENGINE as isize;
    };
    let answer = calls::drain(&mut engine, out);
    handle.put(engine);
    answer
}
