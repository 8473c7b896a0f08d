//! The datagrams of an engine, written as lines and reported to an observer.
ghost use Rattle.std.specs.Prelude.{◌≡◌, ◌⊎◌, ◌≤◌, ℕ, List, OnOk, OnErr, None, true, false};
ghost use Rattle.mix_packets.specs.OutSpec.{datagram_length};
ghost use Rattle.path_merge.specs.Clock.{clock_fault_of};
ghost use Rattle.studio_config.specs.Studio.{Studio};
ghost use Rattle.studio_session.specs.Event.{TraceEvent};
ghost use Rattle.studio_engine.specs.Session.{HasSession, turned};
ghost use Rattle.pcap_replay.specs.Lines.{BreaksLines, GivesLines};

use crate::observer::ReplayObserver;
use mix_packets::MAX_OUTPUT_OCTETS;
use std::io::Write;
use studio_engine::Engine;
use studio_run::{TextBuffer, WriteFault, write_datagram};

/// Moves an engine on to a reading, reports the datagrams that it returns to the observer, and writes their lines.
pub(crate) fn write_turn<W: Write, L: ReplayObserver>(
    engine: &mut Engine,
    now: i64,
    text: &mut TextBuffer,
    writer: &mut W,
    observer: &mut L,
) -> Result<(), WriteFault>
    requires short { datagram_length engine.old.mixer.packer.spec ≤ 1452 }
    ensures ok { OnOk result ((studio : Studio) (events : List TraceEvent) (datagrams : List (List ℕ)) (begun : L)
        → HasSession studio engine.old events datagrams → clock_fault_of engine.old.time engine.old.closed now ≡ None
        → GivesLines studio engine.new (turned engine.old.time now events) datagrams (W.contents writer.old) text.old
        (W.contents writer.new) text.new (L.heard begun observer.old) (L.heard begun observer.new)) }
    ensures idle { OnOk result ((studio : Studio) (events : List TraceEvent) (datagrams : List (List ℕ))
        → HasSession studio engine.old events datagrams → clock_fault_of engine.old.time engine.old.closed now ≡ None
        → engine.new.turning ≡ false) }
    ensures fault { OnErr result ((studio : Studio) (events : List TraceEvent) (datagrams : List (List ℕ)) (begun : L)
        → HasSession studio engine.old events datagrams → clock_fault_of engine.old.time engine.old.closed now ≡ None
        → BreaksLines studio engine.new (turned engine.old.time engine.new.time events) datagrams
        (W.contents writer.old) text.old (W.contents writer.new) (L.heard begun observer.old)
        (L.heard begun observer.new)) }
    ensures time { (engine.new.time ≡ engine.old.time) ⊎ (engine.new.time ≡ now) }
    ensures output { engine.new.mixer.packer.spec ≡ engine.old.mixer.packer.spec }
    ensures closed { engine.new.closed ≡ engine.old.closed }
{
    let mut out = [0; MAX_OUTPUT_OCTETS];
    // The label names the loop in its proof.
    'rounds: loop {
        let Ok(given) = engine.turn(now, &mut out) else {
            // Not reached: the caller has tested the reading, and an engine with a session refuses no other.
            return Err(WriteFault);
        };
        match given {
            Some(len) => {
                observer.output(&out[..len]);
                write_datagram(text, writer, &out[..len])?;
            }
            None => return Ok(()),
        }
    }
}

/// Reports the datagrams that are left after a close to the observer, and writes their lines.
pub(crate) fn write_drained<W: Write, L: ReplayObserver>(
    engine: &mut Engine,
    text: &mut TextBuffer,
    writer: &mut W,
    observer: &mut L,
) -> Result<(), WriteFault>
    requires short { datagram_length engine.old.mixer.packer.spec ≤ 1452 }
    ensures ok { OnOk result ((studio : Studio) (events : List TraceEvent) (datagrams : List (List ℕ)) (begun : L)
        → HasSession studio engine.old events datagrams
        → GivesLines studio engine.new events datagrams (W.contents writer.old) text.old
        (W.contents writer.new) text.new (L.heard begun observer.old) (L.heard begun observer.new)) }
    ensures settled { OnOk result (engine.new.settled ≡ engine.old.closed) }
    ensures fault { OnErr result ((studio : Studio) (events : List TraceEvent) (datagrams : List (List ℕ)) (begun : L)
        → HasSession studio engine.old events datagrams
        → BreaksLines studio engine.new events datagrams (W.contents writer.old) text.old (W.contents writer.new)
        (L.heard begun observer.old) (L.heard begun observer.new)) }
{
    let mut out = [0; MAX_OUTPUT_OCTETS];
    // The label names the loop in its proof.
    'rounds: loop {
        match engine.drain(&mut out) {
            Some(len) => {
                observer.output(&out[..len]);
                write_datagram(text, writer, &out[..len])?;
            }
            None => return Ok(()),
        }
    }
}
