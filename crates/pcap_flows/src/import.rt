//! The trace of a capture. The submodules hold its clock and its lines, and the configuration that fits it: the times
//! of each stream, a plan of each, and the text.
ghost use Rattle.std.specs.Prelude.{◌≡◌, ◌+◌, ◌++◌, ◌<◌, ◌≤◌, OnOk, IfOk, Some, [], length, position};
ghost use Rattle.pcap_file.specs.Capture.{item_view, packets_left, packets_of};
ghost use Rattle.pcap_file.specs.Packet.{packet_view};
ghost use Rattle.pcap_flows.specs.Clock.{clock_begun};
ghost use Rattle.pcap_flows.specs.TraceLines.{close_line};
ghost use Rattle.pcap_flows.specs.Trace.{
  event_count,
  events_from,
  item_events,
  packet_events,
  is_route_of,
  route_of,
  item_clock,
  item_text,
  octets_of,
  packet_clock,
  packet_text,
  text_from,
  trace_of,
};

use crate::fault::ImportFault;
use crate::import::clock::CaptureClock;
use crate::import::trace_lines::{push_arrival, push_close, push_tick};
use crate::packet::{FlowKey, flow_packet};
use crate::routes::Route;
use pcap_file::{Capture, CaptureFault, Packet, UdpBody, open};
use std::alloc::Global;

pub(crate) mod clock;
pub(crate) mod config;
mod stream_plan;
mod stream_times;
mod trace_lines;

/// The greatest length of a trace, in octets.
pub const MAX_TRACE_OCTETS: usize = 67_108_864;

/// The greatest number of events of a trace.
pub const MAX_TRACE_EVENTS: u32 = 1_000_000;

/// The text of a trace up to some place in a capture.
#[derive(Drop)]
struct Trace {
    text: Vec<u8>,
    clock: CaptureClock,
    events: u32,
}

/// Returns the trace of the capture `octets`, up to its end or its fault: the datagrams of the flows that have a route,
/// and a `close`. Returns an error if an allocation fails or the trace exceeds its limits.
#[tactic(auto, using(crate::proofs::TraceLemmas::text_of_fault, crate::proofs::TraceLemmas::events_of_fault))]
pub fn trace_text(alloc: Global, octets: &[u8], routes: &[Route]) -> Result<Vec<u8>, ImportFault>
    ensures trace { IfOk result (λ text. text.items ≡ trace_of routes.now (packets_of octets.now)) }
    ensures fits { IfOk result (λ text. length text.items ≤ MAX_TRACE_OCTETS) }
    ensures few { OnOk result (event_count routes.now (packets_of octets.now) ≤ MAX_TRACE_EVENTS) }
{
    let mut trace = Trace::new(alloc);
    if let Ok(capture) = open(octets) {
        trace.read(capture, routes)?;
    }
    trace.close()
}

impl Trace {
    /// Returns a trace without lines.
    fn new(alloc: Global) -> Trace
        ensures text { result.text.items ≡ [] }
        ensures clock { result.clock ≡ clock_begun }
        ensures events { result.events ≡ 0 }
    {
        Trace {
            text: Vec::new(alloc),
            clock: CaptureClock::new(),
            events: 0,
        }
    }

    /// Appends the lines of the packets that are left of a capture.
    #[tactic(auto, using(crate::proofs::TraceLemmas::text_from_none, crate::proofs::TraceLemmas::text_from_next, crate::proofs::TraceLemmas::events_from_none, crate::proofs::TraceLemmas::events_from_next))]
    fn read(&mut self, mut capture: Capture<'_>, routes: &[Route]) -> Result<(), ImportFault>
        requires few { self.old.events < MAX_TRACE_EVENTS }
        ensures text { OnOk result (self.new.text.items ++ close_line
            ≡ self.old.text.items ++ text_from routes.now self.old.clock (packets_left capture.entry)) }
        ensures events { OnOk result (self.new.events + 1
            ≡ self.old.events + events_from routes.now self.old.clock (packets_left capture.entry)) }
        ensures few { OnOk result (self.new.events < MAX_TRACE_EVENTS) }
    {
        while let Some(item) = capture.next() {
            self.take(item, routes)?;
        }
        Ok(())
    }

    /// Appends the lines of a capture's packet, if it has a route. A capture's fault has no lines.
    #[tactic(auto, unfolding(crate::specs::Trace::item_text, crate::specs::Trace::item_clock, crate::specs::Trace::item_events))]
    fn take(
        &mut self,
        item: Result<Packet<'_>, CaptureFault>,
        routes: &[Route],
    ) -> Result<(), ImportFault>
        requires few { self.old.events < MAX_TRACE_EVENTS }
        ensures text { OnOk result (self.new.text.items
            ≡ self.old.text.items ++ item_text routes.now self.old.clock (item_view item.entry)) }
        ensures clock { OnOk result (self.new.clock ≡ item_clock routes.now self.old.clock (item_view item.entry)) }
        ensures events { OnOk result (self.new.events
            ≡ self.old.events + item_events routes.now self.old.clock (item_view item.entry)) }
        ensures few { OnOk result (self.new.events < MAX_TRACE_EVENTS) }
    {
        if let Ok(packet) = item
            && let Some(route) = route_in(routes, &packet)
        {
            self.add(&packet, &route)?;
        }
        Ok(())
    }

    /// Appends a datagram of a flow that has a route, and the clock reading before it if that is a later one.
    fn add(&mut self, packet: &Packet<'_>, route: &Route) -> Result<(), ImportFault>
        ensures text { OnOk result (self.new.text.items
            ≡ self.old.text.items ++ packet_text self.old.clock (packet_view packet.now) (Some route.now)) }
        ensures clock { OnOk result (self.new.clock
            ≡ packet_clock self.old.clock (packet_view packet.now) (Some route.now)) }
        ensures events { OnOk result (self.new.events
            ≡ self.old.events + packet_events self.old.clock (packet_view packet.now) (Some route.now)) }
        ensures few { OnOk result (self.new.events < MAX_TRACE_EVENTS) }
    {
        let earlier = self.clock.reading();
        self.clock.read(packet.time);
        let reading = self.clock.reading();
        push_tick(&mut self.text, earlier, reading)?;
        push_arrival(&mut self.text, route, datagram_octets(packet))?;
        self.count(if earlier < reading { 2 } else { 1 })
    }

    /// Counts the events of a datagram, and tests that the event and the line of the close have space.
    fn count(&mut self, events: u32) -> Result<(), ImportFault>
        ensures text { self.new.text ≡ self.old.text }
        ensures clock { self.new.clock ≡ self.old.clock }
        ensures events { OnOk result (self.new.events ≡ self.old.events + events) }
        ensures few { OnOk result (self.new.events < MAX_TRACE_EVENTS) }
    {
        self.events = self.events.saturating_add(events);
        if self.events >= MAX_TRACE_EVENTS {
            return Err(ImportFault::TooManyEvents);
        }
        // The line of the close has 6 octets.
        if self.text.len() > MAX_TRACE_OCTETS - 6 {
            return Err(ImportFault::TooLong);
        }
        Ok(())
    }

    /// Returns the text, ended by the line of the close.
    fn close(self) -> Result<Vec<u8>, ImportFault>
        ensures text { IfOk result (λ text. text.items ≡ self.text.items ++ close_line) }
        ensures fits { IfOk result (λ text. length text.items ≤ MAX_TRACE_OCTETS) }
    {
        let mut text = self.text;
        push_close(&mut text)?;
        if text.len() > MAX_TRACE_OCTETS {
            return Err(ImportFault::TooLong);
        }
        Ok(text)
    }
}

/// Returns the route of a packet, if it is an RTP packet of a flow that has one.
#[tactic(auto, unfolding(crate::specs::Trace::route_of))]
pub fn route_in(routes: &[Route], packet: &Packet<'_>) -> Option<Route>
    ensures { result ≡ route_of routes.now (packet_view packet.now) }
{
    let next = flow_packet(packet)?;
    let place = place_of(routes, &next.key)?;
    routes.get(place).copied()
}

/// Returns the place of a flow's route, if it has one.
fn place_of(routes: &[Route], key: &FlowKey) -> Option<usize>
    ensures { result ≡ position (is_route_of key.now) routes.now }
{
    routes.iter().position(|route| key.is_same(&route.key))
}

/// Returns the octets of a packet's datagram, or none if it isn't whole.
pub fn datagram_octets<'a>(packet: &Packet<'a>) -> &'a [u8]
    ensures { result.now ≡ octets_of (packet_view packet.now).ip.body }
{
    match packet.ip.body {
        UdpBody::Datagram(datagram) => datagram.payload,
        UdpBody::Fragment | UdpBody::Truncated => &[],
    }
}
