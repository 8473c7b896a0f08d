//! The source of a run's events.
ghost use Rattle.std.specs.Prelude.{◌≡◌, ◌<◌, ℕ, List, length, slice_get, Some, map};
ghost use Rattle.studio_session.specs.Event.{TraceEvent, Arrival, outline_of, said_by};

use crate::event::{EventHeader, StudioEvent};
use rtp_wire::MAX_ARRIVAL_OCTETS;

/// A buffer for the octets of a datagram.
pub type DatagramBuffer = [u8; MAX_ARRIVAL_OCTETS];

/// The events of a run, by their places from 0. No call allocates.
pub trait EventSource {
    /// The events, the earliest first.
    ghost events: { Self → List TraceEvent };

    /// Returns the number of events.
    fn count(&self) -> usize
        ensures { result ≡ length (events self.now) };

    /// Returns an event without the octets of its datagram.
    fn outline(&self, place: usize) -> EventHeader
        requires { place < length (events self.now) }
        ensures { (event : TraceEvent) → slice_get (events self.now) place ≡ Some event → result ≡ outline_of event };

    /// Returns the octets of a datagram that arrived, borrowed from memory or laid out in `buffer`.
    fn octets<'a>(&'a self, place: usize, buffer: &'a mut DatagramBuffer) -> &'a [u8]
        requires { place < length (events self.now) }
        ensures { (stream path : ℕ) (octets : List ℕ)
            → slice_get (events self.now) place ≡ Some (Arrival stream path octets) → result.now ≡ octets };
}

/// A list of events in memory.
#[derive(Clone, Copy)]
pub struct EventList<'a> {
    pub events: &'a [StudioEvent],
}

impl<'a> EventSource for EventList<'a> {
    ghost events = { λ list. map said_by list.events.now };

    fn count(&self) -> usize {
        self.events.len()
    }

    fn outline(&self, place: usize) -> EventHeader {
        outline_at(&self.events[place])
    }

    fn octets<'b>(&'b self, place: usize, _room: &'b mut DatagramBuffer) -> &'b [u8] {
        octets_at(&self.events[place])
    }
}

/// Returns an event without the octets of its datagram.
fn outline_at(event: &StudioEvent) -> EventHeader
    ensures { result ≡ outline_of (said_by event.now) }
{
    match event {
        StudioEvent::Arrive { stream, path, .. } => EventHeader::Arrive {
            stream: *stream,
            path: *path,
        },
        StudioEvent::Tick(now) => EventHeader::Tick(*now),
        StudioEvent::Close => EventHeader::Close,
    }
}

/// Returns the octets of a datagram that arrived, none for another event.
fn octets_at(event: &StudioEvent) -> &[u8]
    ensures { (stream path : ℕ) (octets : List ℕ) → said_by event.now ≡ Arrival stream path octets
        → result.now ≡ octets }
{
    match event {
        StudioEvent::Arrive { octets, .. } => octets.as_slice(),
        StudioEvent::Tick(_) => &[],
        StudioEvent::Close => &[],
    }
}
