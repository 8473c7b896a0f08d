//! The calls of an engine, for a program with a loop of its own.
ghost use Rattle.std.specs.Prelude.{◌≡◌, ℕ, ◌≤◌, List, length, false, None, Some, IfErr, OnOk, OnErr};
ghost use Rattle.mix_packets.specs.OutSpec.{datagram_length};
ghost use Rattle.path_merge.specs.Clock.{clock_fault_of};
ghost use Rattle.studio_config.specs.Studio.{Studio};
ghost use Rattle.studio_session.specs.Event.{TraceEvent};
ghost use Rattle.studio_engine.specs.Session.{HasSession, turned};
ghost use Rattle.example_callers.specs.Engine.{HasSent, HasSentReady};

use path_merge::ClockFault;
use studio_engine::Engine;
use studio_io::Sink;

/// Moves an engine to a clock reading and sends each datagram that is then due.
///
/// Call it when `Engine::next_deadline` is reached, and at the time of each arrival before `Engine::arrive`.
/// `out` has space for one datagram. After an error the engine is as it was, and nothing was sent.
pub fn send_due<K: Sink>(
    engine: &mut Engine,
    now: i64,
    out: &mut [u8],
    sink: &mut K,
) -> Result<(), ClockFault>
    requires space { datagram_length engine.old.mixer.packer.spec ≤ length out.old }
    ensures sent { OnOk result ((studio : Studio) (events : List TraceEvent) (datagrams : List (List ℕ))
        → HasSession studio engine.old events datagrams
        → HasSentReady studio engine.new (turned engine.old.time now events) datagrams
        (K.handed sink.old) (K.handed sink.new)) }
    ensures there { OnOk result ((studio : Studio) (events : List TraceEvent) (datagrams : List (List ℕ))
        → HasSession studio engine.old events datagrams → (engine.new.turning ≡ false) × (engine.new.time ≡ now)) }
    ensures fine { OnOk result (clock_fault_of engine.old.time engine.old.closed now ≡ None) }
    ensures fault { IfErr result (λ fault. clock_fault_of engine.old.time engine.old.closed now ≡ Some fault) }
    ensures kept { OnErr result ((engine.new ≡ engine.old) × (sink.new ≡ sink.old)) }
    ensures output { engine.new.mixer.packer.spec ≡ engine.old.mixer.packer.spec }
{
    while let Some(len) = engine.turn(now, out)? {
        sink.send(&out[..len]);
    }
    Ok(())
}

/// Sends each datagram that is left after `Engine::close`.
pub fn send_rest<K: Sink>(engine: &mut Engine, out: &mut [u8], sink: &mut K)
    requires space { datagram_length engine.old.mixer.packer.spec ≤ length out.old }
    ensures sent { (studio : Studio) (events : List TraceEvent) (datagrams : List (List ℕ))
        → HasSession studio engine.old events datagrams
        → HasSent studio engine.new events datagrams (K.handed sink.old) (K.handed sink.new) }
    ensures settled { engine.new.settled ≡ engine.old.closed }
    ensures output { engine.new.mixer.packer.spec ≡ engine.old.mixer.packer.spec }
{
    while let Some(len) = engine.drain(out) {
        sink.send(&out[..len]);
    }
}
