//! The calls of an engine, with numbers for results.
ghost use Rattle.std.specs.Prelude.{
  ◌≡◌,
  ◌⊎◌,
  ◌<◌,
  ◌≤◌,
  ◌≤ℤ◌,
  ◌<ℤ◌,
  ◌∷◌,
  ◌++◌,
  ℕ,
  [],
  List,
  true,
  false,
  pos,
  nat_abs,
  length,
  slice_get,
  Some,
  None,
};
ghost use Rattle.rtp_stream.specs.declared.stream_spec.Stream.{Stream};
ghost use Rattle.mix_packets.specs.OutSpec.{datagram_length};
ghost use Rattle.studio_config.specs.Studio.{Studio};
ghost use Rattle.studio_mix.specs.Changed.{with_gains};
ghost use Rattle.studio_session.specs.Event.{TraceEvent, Arrival};
ghost use Rattle.studio_session.specs.ArriveOutcome.{outcome_of};
ghost use Rattle.studio_engine.specs.Session.{Gives, HasGivenReady, HasSession, shut, turned};
ghost use Rattle.darbexum_c.specs.Codes as code;

use crate::codes::{
    NO_PATH, SHORT_ROOM, UNFINISHED, arrive_fault_code, change_fault_code, clock_fault_code,
    outcome_code,
};
use rtp_stream::Path;
use studio_engine::Engine;

/// Takes a datagram.
pub(crate) fn arrive(engine: &mut Engine, stream: usize, path: u8, octets: &[u8]) -> i32
    ensures stands { pos 0 ≤ℤ result → (studio : Studio) (events : List TraceEvent) (datagrams : List (List ℕ))
        → HasSession studio engine.old events datagrams
        → HasSession studio engine.new (events ++ Arrival stream path octets.now ∷ []) datagrams }
    ensures outcome { pos 0 ≤ℤ result
        → (studio : Studio) (events : List TraceEvent) (datagrams : List (List ℕ)) (spec : Stream)
        → HasSession studio engine.old events datagrams → slice_get studio.streams stream ≡ Some spec
        → result ≡ pos (code.outcome_code (outcome_of spec stream studio.open_at events path octets.now)) }
    ensures fine { pos 0 ≤ℤ result → code.arrive_code_of engine.old stream path ≡ None }
    ensures fault { result <ℤ pos 0 → code.arrive_code_of engine.old stream path ≡ Some result }
    ensures kept { result <ℤ pos 0 → engine.new ≡ engine.old }
{
    let Some(path) = Path::new(path) else {
        return NO_PATH;
    };
    match engine.arrive(stream, path, octets) {
        Ok(outcome) => outcome_code(outcome),
        Err(fault) => arrive_fault_code(fault),
    }
}

/// Takes a clock reading, and returns the length of the next datagram, or 0.
pub(crate) fn turn(engine: &mut Engine, now: i64, out: &mut [u8]) -> isize
    ensures some { pos 0 <ℤ result → (studio : Studio) (events : List TraceEvent) (datagrams : List (List ℕ))
        → HasSession studio engine.old events datagrams
        → Gives studio engine.new (turned engine.old.time engine.new.time events) datagrams out.old out.new
        (nat_abs result) }
    ensures none { result ≡ pos 0 → (studio : Studio) (events : List TraceEvent) (datagrams : List (List ℕ))
        → HasSession studio engine.old events datagrams
        → HasGivenReady studio engine.new (turned engine.old.time engine.new.time events) datagrams }
    ensures there { result ≡ pos 0 → (studio : Studio) (events : List TraceEvent) (datagrams : List (List ℕ))
        → HasSession studio engine.old events datagrams → (engine.new.turning ≡ false) × (engine.new.time ≡ now) }
    ensures time { pos 0 ≤ℤ result → (engine.new.time ≡ engine.old.time) ⊎ (engine.new.time ≡ now) }
    ensures fine { pos 0 ≤ℤ result → code.turn_code_of engine.old now (length out.old) ≡ None }
    ensures fault { result <ℤ pos 0 → code.turn_code_of engine.old now (length out.old) ≡ Some result }
    ensures kept { result <ℤ pos 0 → engine.new ≡ engine.old }
{
    if out.len() < engine.output().datagram_len() {
        return SHORT_ROOM as isize;
    }
    match engine.turn(now, out) {
        Ok(Some(len)) => len as isize,
        Ok(None) => 0,
        Err(fault) => clock_fault_code(fault) as isize,
    }
}

/// Changes the gains from a time on.
pub(crate) fn change_gains(engine: &mut Engine, at: i64, gains: &[i32]) -> i32
    ensures stands { result ≡ pos 0 → (studio : Studio) (events : List TraceEvent) (datagrams : List (List ℕ))
        → HasSession studio engine.old events datagrams
        → HasSession (with_gains studio at gains.now) engine.new events datagrams }
    ensures ready { result ≡ pos 0 → (studio : Studio) (events : List TraceEvent) (datagrams : List (List ℕ))
        → HasGivenReady studio engine.old events datagrams
        → HasGivenReady (with_gains studio at gains.now) engine.new events datagrams }
    ensures exact { result ≡ code.gains_code_of engine.old at gains.now }
    ensures kept { result <ℤ pos 0 → engine.new ≡ engine.old }
{
    match engine.change_gains(at, gains) {
        Ok(()) => 0,
        Err(fault) => change_fault_code(fault),
    }
}

/// Ends all streams.
pub(crate) fn close(engine: &mut Engine) -> i32
    ensures stands { result ≡ pos 0 → (studio : Studio) (events : List TraceEvent) (datagrams : List (List ℕ))
        → HasSession studio engine.old events datagrams
        → HasSession studio engine.new (shut engine.old.closed events) datagrams }
    ensures closed { result ≡ pos 0 → engine.new.closed ≡ true }
    ensures exact { ((result ≡ pos 0) × (engine.old.turning ≡ false))
        ⊎ ((result ≡ code.unfinished) × (engine.old.turning ≡ true)) }
    ensures kept { result <ℤ pos 0 → engine.new ≡ engine.old }
{
    match engine.close() {
        Ok(()) => 0,
        Err(_) => UNFINISHED,
    }
}

/// Returns the length of the next datagram after a close, or 0.
pub(crate) fn drain(engine: &mut Engine, out: &mut [u8]) -> isize
    ensures some { pos 0 <ℤ result → (studio : Studio) (events : List TraceEvent) (datagrams : List (List ℕ))
        → HasSession studio engine.old events datagrams
        → Gives studio engine.new events datagrams out.old out.new (nat_abs result) }
    ensures none { result ≡ pos 0 → (studio : Studio) (events : List TraceEvent) (datagrams : List (List ℕ))
        → HasSession studio engine.old events datagrams → HasSession studio engine.new events datagrams }
    ensures settled { result ≡ pos 0 → engine.new.settled ≡ engine.old.closed }
    ensures closed { engine.new.closed ≡ engine.old.closed }
    ensures fine { pos 0 ≤ℤ result → datagram_length engine.old.mixer.packer.spec ≤ length out.old }
    ensures fault { result <ℤ pos 0
        → (result ≡ code.short_room) × (length out.old < datagram_length engine.old.mixer.packer.spec) }
    ensures unwritten { result ≤ℤ pos 0 → out.new ≡ out.old }
    ensures kept { result <ℤ pos 0 → engine.new ≡ engine.old }
{
    if out.len() < engine.output().datagram_len() {
        return SHORT_ROOM as isize;
    }
    match engine.drain(out) {
        Some(len) => len as isize,
        None => 0,
    }
}
