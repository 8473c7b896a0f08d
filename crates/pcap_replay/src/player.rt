//! A whole replay, from the octets of a capture to those of its report.
ghost use Rattle.std.specs.Prelude.{
  ◌≡◌,
  ◌≤◌,
  ◌^◌,
  ◌++◌,
  ◌∷◌,
  ℕ,
  List,
  Option,
  [],
  None,
  length,
  IfOk,
  IfErr,
  IfSome,
  OnOk,
  OnErr,
};
ghost use Rattle.studio_session.specs.Event.{TraceEvent, Closing};
ghost use Rattle.studio_run.specs.Play.{WritesEvents};
ghost use Rattle.studio_run.specs.StudioReport.{IsReport};
ghost use Rattle.lane_align.specs.Lane.{natural};
ghost use Rattle.pcap_file.specs.ReadBuffer.{octets_of};
ghost use Rattle.pcap_replay.specs.Routing.{Flows, clock_before, places_of, plan_view};
ghost use Rattle.pcap_replay.specs.Replay.{
  BreaksOffReplay,
  BreaksReport,
  CanClose,
  EndsBehind,
  HasBegun,
  HasComeToClose,
  HasHeardAll,
  HasReplayed,
  IsReplaying,
  StopsFile,
  WritesReplay,
};
ghost use Rattle.studio_config.specs.Studio.{Studio};

use crate::changes::RecordedChanges;
use crate::count_lines::write_all_counts;
use crate::fault::ReplayFault;
use crate::observer::ReplayObserver;
use crate::output::write_drained;
use crate::routing::{ReadingRule, Routing};
use crate::state::ReplayState;
use pcap_file::{BlockParser, CaptureFault, ReadBuffer, cut_fault, open_reader};
use pcap_flows::Route;
use rtp_stream::StreamSpec;
use std::alloc::{AllocError, Global};
use std::io::{Read, Write};
use studio_config::StudioSpec;
use studio_engine::Engine;
use studio_run::{TextBuffer, WriteFault};

/// Reads a capture once, and writes the report of its events by these routes: the datagrams of all blocks that are
/// ready, and the counts of each stream. The observer receives these datagrams and all events. After an error a prefix
/// of the report was written, and the observer received a prefix of the events and datagrams.
pub fn replay<R: Read, W: Write, L: ReplayObserver>(
    alloc: Global,
    spec: &StudioSpec,
    routes: &[Route],
    reader: &mut R,
    writer: &mut W,
    observer: &mut L,
) -> Result<(), ReplayFault>
    requires fresh { L.heard observer.old observer.old [] [] }
    ensures ok { OnOk result
        (WritesReplay spec.now (Flows routes.now) (R.remaining reader.old) (W.contents writer.old)
        (W.contents writer.new) (L.heard observer.old observer.new)) }
    ensures fault { IfErr result
        (λ fault. BreaksOffReplay spec.now (Flows routes.now) (R.remaining reader.old) (W.contents writer.old)
        (W.contents writer.new) (L.heard observer.old observer.new) fault) }
    ensures few { IfErr result (λ fault. fault ≡ ReplayFault.TooManyEvents
        → IfSome (R.remaining reader.old) (λ file. 2 ^ 60 ≤ length file)) }
{
    let plan = Routing::Flows(routes);
    match replay_routed(alloc, spec, &plan, reader, writer, observer) {
        // Only a record has no fault if its last block is cut.
        Ok(_) => Ok(()),
        Err(fault) => Err(fault),
    }
}

/// Reads the record of a run of this studio once, and writes its report as `replay` does. Interfaces are numbered
/// through the paths of all streams, and times are nanoseconds from the studio's opening on. The studio is closed
/// behind all packets, at the time of the first mark of a close; if there is none, at the last packet's reading. The
/// changes of gains of the run are passed to the engine where the run took them, or skipped.
///
/// The work of a replay grows with its time, which a few wrong octets can make endless. So a packet or a close whose
/// reading is more than `longest` sampling instants after the one before it is a fault. The first reading is the
/// opening.
///
/// A last block that the file's end cuts ends the record before it: its fault is returned behind the whole report.
pub fn replay_record<R: Read, W: Write, L: ReplayObserver>(
    alloc: Global,
    spec: &StudioSpec,
    changes: RecordedChanges,
    longest: u64,
    reader: &mut R,
    writer: &mut W,
    observer: &mut L,
) -> Result<Option<CaptureFault>, ReplayFault>
    requires fresh { L.heard observer.old observer.old [] [] }
    ensures ok { OnOk result
        (WritesReplay spec.now (places_of spec.now changes longest) (R.remaining reader.old) (W.contents writer.old)
        (W.contents writer.new) (L.heard observer.old observer.new)) }
    ensures fault { IfErr result
        (λ fault. BreaksOffReplay spec.now (places_of spec.now changes longest) (R.remaining reader.old)
        (W.contents writer.old) (W.contents writer.new) (L.heard observer.old observer.new) fault) }
    ensures few { IfErr result (λ fault. fault ≡ ReplayFault.TooManyEvents
        → IfSome (R.remaining reader.old) (λ file. 2 ^ 60 ≤ length file)) }
{
    let plan = Routing::Interfaces {
        streams: spec.streams(),
        open_at: instants_of(spec.open_at()),
        changes,
        longest,
    };
    replay_routed(alloc, spec, &plan, reader, writer, observer)
}

/// Returns a time, or 0 if it is negative.
fn instants_of(time: i64) -> u64
    ensures { result ≡ natural time }
{
    time.max(0) as u64
}

/// Writes the report of a capture by a routing. Returns the fault of a record's last block, if the file's end cuts it.
fn replay_routed<R: Read, W: Write, L: ReplayObserver>(
    alloc: Global,
    spec: &StudioSpec,
    plan: &Routing<'_>,
    reader: &mut R,
    writer: &mut W,
    observer: &mut L,
) -> Result<Option<CaptureFault>, ReplayFault>
    requires fresh { L.heard observer.old observer.old [] [] }
    ensures ok { OnOk result
        (WritesReplay spec.now (plan_view plan.now) (R.remaining reader.old) (W.contents writer.old)
        (W.contents writer.new) (L.heard observer.old observer.new)) }
    ensures fault { IfErr result
        (λ fault. BreaksOffReplay spec.now (plan_view plan.now) (R.remaining reader.old) (W.contents writer.old)
        (W.contents writer.new) (L.heard observer.old observer.new) fault) }
    ensures few { IfErr result (λ fault. fault ≡ ReplayFault.TooManyEvents
        → IfSome (R.remaining reader.old) (λ file. 2 ^ 60 ≤ length file)) }
{
    // All memory is taken before the first write, so an allocation failure leaves nothing written.
    let mut run = ReplayState::new(alloc, spec, plan)?;
    let (mut window, mut parts) = open_reader(alloc, reader)?;
    match run.go_to_close(plan, &mut parts, &mut window, reader, writer, observer) {
        Ok(()) => {
            run.close(spec.streams(), writer, observer)?;
            Ok(cut_fault(&parts, &window))
        }
        Err(fault) => Err(run.break_off(fault, writer)),
    }
}

impl ReplayState {
    /// Returns a replay that took no event yet. Returns `AllocError` if an allocation fails.
    fn new(alloc: Global, spec: &StudioSpec, plan: &Routing<'_>) -> Result<ReplayState, AllocError>
        ensures begun { IfOk result (λ run. HasBegun spec.now run) }
        ensures clock { IfOk result (λ run. run.clock ≡ clock_before (plan_view plan.now)) }
        ensures changes { IfOk result (λ run. run.changes ≡ 0) }
    {
        // Only for its clause: a studio opens at time 0 or later.
        let _ = spec.open_at();
        let engine = Engine::new(alloc, spec)?;
        let text = TextBuffer::new(alloc)?;
        Ok(ReplayState {
            engine,
            clock: plan.clock(),
            count: 0,
            changes: 0,
            text,
        })
    }

    /// Takes the events of all that is left of a capture, and a reading at the time of the close.
    fn go_to_close<R: Read, W: Write, L: ReplayObserver>(
        &mut self,
        plan: &Routing<'_>,
        parts: &mut BlockParser,
        window: &mut ReadBuffer,
        reader: &mut R,
        writer: &mut W,
        observer: &mut L,
    ) -> Result<(), ReplayFault>
        ensures ok { OnOk result ((studio : Studio) (first : Option (List ℕ)) (written : Option (List ℕ)) (begun : L)
            → IsReplaying studio (plan_view plan.now) first written self.old parts.old
            (octets_of window.old) window.old.ended (R.remaining reader.old) (W.contents writer.old)
            (L.heard begun observer.old) None 0
            → HasComeToClose studio (plan_view plan.now) first written self.new (W.contents writer.new)
            (L.heard begun observer.new)) }
        ensures fault { IfErr result
            (λ fault. (studio : Studio) (first : Option (List ℕ)) (written : Option (List ℕ)) (begun : L)
            → IsReplaying studio (plan_view plan.now) first written self.old parts.old
            (octets_of window.old) window.old.ended (R.remaining reader.old) (W.contents writer.old)
            (L.heard begun observer.old) None 0
            → StopsFile studio (plan_view plan.now) first written self.new (W.contents writer.new)
            (L.heard begun observer.new) fault) }
    {
        let ended = self.run_events(plan, parts, window, reader, writer, observer)?;
        let rule = ReadingRule {
            from: plan.opening(),
            longest: plan.longest_step(),
            place: ended.1,
        };
        self.read(rule, plan.closing(ended.0), writer, observer)
    }

    /// Closes the studio of these streams, and writes the rest of the report: the datagrams that are left, and the
    /// counts.
    fn close<W: Write, L: ReplayObserver>(
        self,
        streams: &[StreamSpec],
        writer: &mut W,
        observer: &mut L,
    ) -> Result<(), WriteFault>
        requires few { length streams.now ≤ 16 }
        requires can { CanClose streams.now self (W.contents writer.old) }
        ensures ok { OnOk result ((studio : Studio) (events : List TraceEvent) (written : Option (List ℕ)) (begun : L)
            → studio.streams ≡ streams.now
            → HasReplayed studio events written self (W.contents writer.old) (L.heard begun observer.old)
            → WritesEvents studio IsReport (events ++ Closing ∷ []) written (W.contents writer.new)) }
        ensures hears { OnOk result ((studio : Studio) (events : List TraceEvent) (written : Option (List ℕ))
            (begun : L) → studio.streams ≡ streams.now
            → HasReplayed studio events written self (W.contents writer.old) (L.heard begun observer.old)
            → HasHeardAll studio (events ++ Closing ∷ []) (L.heard begun observer.new)) }
        ensures fault { OnErr result ((studio : Studio) (events : List TraceEvent) (written : Option (List ℕ))
            (begun : L) → studio.streams ≡ streams.now
            → HasReplayed studio events written self (W.contents writer.old) (L.heard begun observer.old)
            → BreaksReport studio (events ++ Closing ∷ []) written (W.contents writer.new)
            (L.heard begun observer.new)) }
    {
        let mut engine = self.engine;
        let mut text = self.text;
        // Only an unfinished turn refuses a close, and each of a replay's turns is finished.
        let Ok(()) = engine.close() else {
            unreachable!()
        };
        observer.closed();
        write_drained(&mut engine, &mut text, writer, observer)?;
        // Only for its clause: a settled engine has all marks, which `write_all_counts` requires.
        let _all = engine.settled();
        write_all_counts(&mut text, writer, &engine, streams)?;
        text.finish(writer)?;
        Ok(())
    }

    /// Writes the text that is left in the buffer after a fault. Returns the fault, or `Write` if a write fails.
    fn break_off<W: Write>(self, fault: ReplayFault, writer: &mut W) -> ReplayFault
        ensures { EndsBehind self.text (W.contents writer.old) (W.contents writer.new) fault result }
    {
        let mut text = self.text;
        match fault {
            // Octets behind a write that failed would leave a gap.
            ReplayFault::Write => ReplayFault::Write,
            other => match text.finish(writer) {
                Ok(()) => other,
                Err(_unwritten) => ReplayFault::Write,
            },
        }
    }
}
