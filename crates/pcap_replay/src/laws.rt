//! Laws of replays. These functions compute nothing: their clauses are the laws.
ghost use Rattle.std.specs.Prelude.{◌≡◌, ◌≤◌, ℕ, pos, ◌≤ℤ◌, List, [], map, length, Option, None, Ok};
ghost use Rattle.pcap_file.specs.Packet.{PacketView};
ghost use Rattle.pcap_flows.specs.declared.routes.Route.{Route};
ghost use Rattle.pcap_flows.specs.Trace.{event_count, trace_of};
ghost use Rattle.studio_config.specs.Studio.{Studio};
ghost use Rattle.studio_session.specs.Event.{TraceEvent};
ghost use Rattle.studio_session.specs.Fault.{session_fault_of};
ghost use Rattle.studio_session.specs.Pruned.{pruned_events};
ghost use Rattle.studio_run.specs.Trace.{trace_events};
ghost use Rattle.pcap_replay.specs.Events.{replay_events};
ghost use Rattle.pcap_replay.specs.ImportLines.{AreLines};
ghost use Rattle.pcap_replay.specs.declared.changes.RecordedChanges.TheVariants.{Skipped, Taken};
ghost use Rattle.pcap_replay.specs.Routing.{Flows, places_of};
ghost use Rattle.pcap_replay.specs.RecordChanges.{changes_of};
ghost use Rattle.pcap_replay.specs.RecordPackets.{
  AreRecorded,
  AreRising,
  Happens,
  Step,
  changes_in,
  events_in,
  kept_events,
};

/// States that the packets of a run's arrivals and changes of gains and the time of its close have the events of the
/// run and its changes, except for each reading that another reading follows directly. By
/// `studio_session::ticks_may_be_left_out` such readings change no datagram and no count.
pub fn a_record_says_its_run()
    ensures events { (studio : Studio) (longest : ℕ) (steps : List Step) (packets : List PacketView)
        (closing : Option ℕ) → pos 0 ≤ℤ studio.open_at
        → session_fault_of studio (events_in steps) ≡ None → AreRising studio.open_at (events_in steps)
        → AreRecorded studio studio.open_at steps packets closing
        → replay_events studio (places_of studio Taken longest) packets closing ≡ kept_events steps }
    ensures changes { (studio : Studio) (longest : ℕ) (steps : List Step) (packets : List PacketView)
        (closing : Option ℕ) → pos 0 ≤ℤ studio.open_at
        → session_fault_of studio (events_in steps) ≡ None
        → AreRecorded studio studio.open_at steps packets closing
        → changes_of (places_of studio Taken longest) packets ≡ changes_in steps }
    ensures same { (steps : List Step) → pruned_events (kept_events steps) ≡ pruned_events (events_in steps) }
    ensures unchanged { (studio : Studio) (longest : ℕ) (events : List TraceEvent) (packets : List PacketView)
        (closing : Option ℕ) → pos 0 ≤ℤ studio.open_at
        → session_fault_of studio events ≡ None → AreRising studio.open_at events
        → AreRecorded studio studio.open_at (map Happens events) packets closing
        → replay_events studio (places_of studio Taken longest) packets closing ≡ pruned_events events }
{}

/// States that only a record whose changes are taken has changes of gains.
pub fn other_captures_change_no_gains()
    ensures flows { (routes : List Route) (packets : List PacketView) → changes_of (Flows routes) packets ≡ [] }
    ensures skipped { (studio : Studio) (longest : ℕ) (packets : List PacketView)
        → changes_of (places_of studio Skipped longest) packets ≡ [] }
{}

/// States that the events of a capture's packets by routes are those of the trace that an import writes by the same
/// routes, if a studio opens at time 0, a trace can have the line of each packet that has a route, and the trace is
/// within its limits.
pub fn a_replay_takes_its_import()
    ensures { (studio : Studio) (routes : List Route) (packets : List PacketView) → studio.open_at ≡ pos 0
        → AreLines routes packets
        → event_count routes (map Ok packets) ≤ 1000000 → length (trace_of routes (map Ok packets)) ≤ 67108864
        → trace_events (trace_of routes (map Ok packets)) ≡ Ok (replay_events studio (Flows routes) packets None) }
{}
