//! The calls that read of what the last datagram was mixed, and change nothing else.
ghost use Rattle.std.specs.Prelude.{
  ◌≡◌,
  ◌⊎◌,
  ◌<◌,
  ◌≤ℤ◌,
  ◌<ℤ◌,
  ◌+◌,
  ◌++◌,
  ℕ,
  List,
  true,
  false,
  pos,
  nat_abs,
  length,
  drop,
  Some,
  None,
  IsSomeAnd,
};
ghost use Rattle.studio_config.specs.Studio.{Studio};
ghost use Rattle.studio_mix.specs.Missing.{missing_in};
ghost use Rattle.studio_mix.specs.Output.{block_inputs};
ghost use Rattle.studio_session.specs.Event.{TraceEvent};
ghost use Rattle.studio_session.specs.Play.{feeds_of};
ghost use Rattle.studio_engine.specs.Engine.{EngineState};
ghost use Rattle.studio_engine.specs.Session.{HasSession};
ghost use Rattle.darbexum_c.specs.Codes as code;

use crate::codes::{NO_ENGINE, SHORT_ROOM};
use crate::handle::Handle;
use std::alloc::Global;

/// Writes the samples of all channels of all streams in the last datagram's block to the front of `out`, before any
/// gain: frame by frame, in each frame stream after stream. Before the first datagram they are 0. Returns how many they
/// are, or a code: `SHORT_ROOM` if they don't fit.
#[unsafe(no_mangle)]
pub extern "C" fn darbexum_inputs(alloc: Global, handle: &mut Handle, out: &mut [i32]) -> isize
    ensures value { pos 0 ≤ℤ result → IsSomeAnd handle.old.engine
        (λ engine. (nat_abs result ≡ length engine.mixer.inputs)
        × (out.new ≡ engine.mixer.inputs ++ drop (nat_abs result) out.old)) }
    ensures stands { (engine : EngineState) → handle.old.engine ≡ Some engine
        → (studio : Studio) (events : List TraceEvent) (datagrams : List (List ℕ)) (number : ℕ)
        → HasSession studio engine events datagrams → length datagrams ≡ number + 1
        → engine.mixer.inputs ≡ block_inputs studio (feeds_of studio events) number }
    ensures short { result <ℤ pos 0 → (engine : EngineState) → handle.old.engine ≡ Some engine
        → (result ≡ code.short_room) × (length out.old < length engine.mixer.inputs) }
    ensures empty { handle.old.engine ≡ None → result ≡ code.no_engine }
    ensures unwritten { result <ℤ pos 0 → out.new ≡ out.old }
    ensures kept { handle.new.engine ≡ handle.old.engine }
{
    let Some(engine) = handle.take(alloc) else {
        return NO_ENGINE as isize;
    };
    let answer = copy(engine.inputs(), out);
    handle.put(engine);
    answer
}

/// Copies the samples to the front of `out`, if they fit, and returns how many they are.
fn copy(samples: &[i32], out: &mut [i32]) -> isize
    ensures value { pos 0 ≤ℤ result → (nat_abs result ≡ length samples.now)
        × (out.new ≡ samples.now ++ drop (nat_abs result) out.old) }
    ensures short { result <ℤ pos 0 → (result ≡ code.short_room) × (length out.old < length samples.now) }
    ensures unwritten { result <ℤ pos 0 → out.new ≡ out.old }
{
    let len = samples.len();
    if out.len() < len {
        return SHORT_ROOM as isize;
    }
    out[..len].copy_from_slice(samples);
    len as isize
}

/// Writes how many streams are missing in the last datagram's block: streams with a gain other than 0 of which no
/// packet came for some time of it. Before the first datagram none is. Returns 1 if the block is empty: streams are
/// missing in it, and for no time of it a packet came of a stream with such a gain. Otherwise returns 0, or a code.
#[unsafe(no_mangle)]
pub extern "C" fn darbexum_missing(alloc: Global, handle: &mut Handle, streams: &mut usize) -> i32
    ensures value { pos 0 ≤ℤ result → IsSomeAnd handle.old.engine
        (λ engine. streams.new ≡ engine.mixer.missing.streams) }
    ensures is_empty { result ≡ pos 1 → IsSomeAnd handle.old.engine (λ engine. engine.mixer.missing.is_empty ≡ true) }
    ensures not_empty { result ≡ pos 0 → IsSomeAnd handle.old.engine
        (λ engine. engine.mixer.missing.is_empty ≡ false) }
    ensures stands { (engine : EngineState) → handle.old.engine ≡ Some engine
        → (studio : Studio) (events : List TraceEvent) (datagrams : List (List ℕ)) (number : ℕ)
        → HasSession studio engine events datagrams → length datagrams ≡ number + 1
        → engine.mixer.missing ≡ missing_in studio (feeds_of studio events) number }
    ensures codes { (engine : EngineState) → handle.old.engine ≡ Some engine
        → (result ≡ pos 0) ⊎ (result ≡ pos 1) }
    ensures empty { handle.old.engine ≡ None → result ≡ code.no_engine }
    ensures unwritten { result <ℤ pos 0 → streams.new ≡ streams.old }
    ensures kept { handle.new.engine ≡ handle.old.engine }
{
    let Some(engine) = handle.take(alloc) else {
        return NO_ENGINE;
    };
    let missing = engine.missing();
    handle.put(engine);
    *streams = missing.streams;
    if missing.is_empty {
        return 1;
    }
    0
}
