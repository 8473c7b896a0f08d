//! The events of a trace as places of its text.
ghost use Rattle.std.specs.Prelude.{◌≡◌, ◌≤◌, ℕ, List, length, IsSome};
ghost use Rattle.studio_run.specs.Places.{text_event, digits_in, event_at, IsPlace};
ghost use Rattle.studio_session.specs.Event.{Arrival, outline_of};
ghost use Rattle.studio_run.specs.Trace.{trace_events, octets_of};
ghost use Rattle.studio_run.specs.LineEvent.{octets_by};

use crate::trace::digits::decode_octets;
use crate::trace::fault::{OUT_OF_MEMORY, TraceFault};
use crate::trace::line::LineEvent;
use crate::trace::reader::TraceReader;
use rtp_stream::Path;
use std::alloc::Global;
use std::marker::Model;
use studio_session::{DatagramBuffer, EventHeader, EventSource};

/// An event of a trace: a datagram by the place of its digits, a clock reading in sampling instants, or the close.
#[derive(Clone, Copy, Debug, PartialEq, Eq)]
pub enum TextEvent {
    Arrive {
        stream: u8,
        path: Path,
        // 32 bits are enough for a text of at most 67,108,864 octets, and keep an event at 16 octets.
        start: u32,
        end: u32,
    },
    Tick(i64),
    Close,
}

/// Returns the event of a line that ends at `end`, as a place of the text.
pub(crate) fn text_event(end: u32, event: &LineEvent<'_>) -> TextEvent
    requires { digits_in event.now ≤ end }
    ensures { result ≡ text_event end event.now }
{
    match event {
        LineEvent::Arrive {
            stream,
            path,
            digits,
        } => TextEvent::Arrive {
            stream: *stream,
            path: *path,
            start: end - digits.len() as u32,
            end,
        },
        LineEvent::Tick(time) => TextEvent::Tick(*time),
        LineEvent::Close => TextEvent::Close,
    }
}

/// The events of a trace, with 16 octets each next to the text. Only `new` allocates.
#[derive(Drop)]
pub struct TracedEvents<'a> {
    text: &'a [u8],
    places: Vec<TextEvent>,
}

impl<'a> Model for TracedEvents<'a> {
    ghost use Rattle.std.specs.Prelude.{List, map, All};
    ghost use Rattle.studio_session.specs.Event.{TraceEvent};
    ghost use Rattle.studio_run.specs.Places.{event_at, IsPlace};

    ghost Value = { List TraceEvent };

    ghost view = { λ e. map (event_at e.text.now) e.places.items };

    ghost invariant = { λ e. All (IsPlace e.text.now) e.places.items };
}

impl<'a> TracedEvents<'a> {
    ghost use Rattle.std.specs.Prelude.{◌⊎◌, IfOk, IfErr, Err};
    ghost use Rattle.studio_run.specs.Trace.{BeginsWithEvents, fault_in};
    ghost use Rattle.studio_run.specs.declared.trace.fault.TraceFaultKind.TheVariants.{Memory};

    /// Returns the events of a trace, or its first fault. An allocation failure is the error only if all lines up to
    /// it are good, whatever later lines say.
    pub fn new(alloc: Global, text: &'a [u8]) -> Result<Self, TraceFault>
        ensures ok { IfOk result (λ events. trace_events text.now ≡ Ok events) }
        ensures fault { IfErr result (λ e. ((e ≡ fault_in 0 Memory) × BeginsWithEvents text.now)
            ⊎ (trace_events text.now ≡ Err e)) }
    {
        let mut places = Vec::new(alloc);
        let mut reader = TraceReader::new(text)?;
        while let Some(place) = reader.next()? {
            places.push(place).map_err(|_| OUT_OF_MEMORY)?;
        }
        Ok(TracedEvents { text, places })
    }
}

impl<'a> EventSource for TracedEvents<'a> {
    ghost events = { λ e. e };

    fn count(&self) -> usize {
        self.places.len()
    }

    fn outline(&self, place: usize) -> EventHeader {
        outline_of(&self.places[place])
    }

    fn octets<'b>(&'b self, place: usize, buffer: &'b mut DatagramBuffer) -> &'b [u8] {
        octets_in(self.text, self.places[place], buffer)
    }
}

/// Returns an event without the octets of its datagram.
fn outline_of(place: &TextEvent) -> EventHeader
    ensures { (text : List ℕ) → result ≡ outline_of (event_at text place.now) }
{
    match place {
        TextEvent::Arrive { stream, path, .. } => EventHeader::Arrive {
            stream: *stream,
            path: *path,
        },
        TextEvent::Tick(time) => EventHeader::Tick(*time),
        TextEvent::Close => EventHeader::Close,
    }
}

/// Returns the octets of a place's datagram, laid out in `buffer`, none of a place without one.
fn octets_in<'a>(text: &[u8], place: TextEvent, buffer: &'a mut DatagramBuffer) -> &'a [u8]
    requires { IsPlace text.now place }
    ensures { (stream path : ℕ) (octets : List ℕ) → event_at text.now place ≡ Arrival stream path octets
        → result.now ≡ octets }
{
    match place {
        TextEvent::Arrive { start, end, .. } => {
            let digits = &text[start as usize..end as usize];
            decoded(digits, buffer)
        }
        TextEvent::Tick(_) => &[],
        TextEvent::Close => &[],
    }
}

/// Returns the octets that digits spell, laid out in `buffer`.
fn decoded<'a>(digits: &[u8], buffer: &'a mut DatagramBuffer) -> &'a [u8]
    requires short { length digits.now ≤ 4096 }
    requires good { IsSome (octets_of digits.now) }
    ensures { result.now ≡ octets_by digits.now }
{
    let length = decode_octets(digits, buffer);
    &buffer[..length]
}
