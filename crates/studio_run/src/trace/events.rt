//! The events of a trace, in memory.
ghost use Rattle.std.specs.Prelude.{◌≡◌, ◌⊎◌, map, IfOk, IfErr, Ok, Err};
ghost use Rattle.studio_run.specs.Trace.{BeginsWithEvents, fault_in, trace_events};
ghost use Rattle.studio_run.specs.declared.trace.fault.TraceFaultKind.TheVariants.{Memory};
ghost use Rattle.studio_run.specs.Places.{event_at, IsPlace};
ghost use Rattle.studio_session.specs.Event.{said_by};

use crate::trace::fault::{OUT_OF_MEMORY, TraceFault};
use crate::trace::reader::TraceReader;
use crate::trace::text_events::TextEvent;
use std::alloc::{AllocError, Global};
use studio_session::StudioEvent;

/// Returns the events of a trace, or its first fault. An allocation failure is the error only if all lines up to it
/// are good.
pub fn read_trace(alloc: Global, text: &[u8]) -> Result<Vec<StudioEvent>, TraceFault>
    ensures ok { IfOk result (λ events. trace_events text.now ≡ Ok (map said_by events.items)) }
    ensures fault { IfErr result (λ e. ((e ≡ fault_in 0 Memory) × BeginsWithEvents text.now)
        ⊎ (trace_events text.now ≡ Err e)) }
{
    let mut events = Vec::new(alloc);
    let mut reader = TraceReader::new(text)?;
    while let Some(place) = reader.next()? {
        // The line is known to be good here. An allocation failure is returned at once, whatever later lines say.
        let event = event_of(alloc, text, place).map_err(|_| OUT_OF_MEMORY)?;
        events.push(event).map_err(|_| OUT_OF_MEMORY)?;
    }
    Ok(events)
}

/// Returns the event at a place of the text.
fn event_of(alloc: Global, text: &[u8], place: TextEvent) -> Result<StudioEvent, AllocError>
    requires { IsPlace text.now place }
    ensures { IfOk result (λ event. said_by event ≡ event_at text.now place) }
{
    match place {
        TextEvent::Arrive {
            stream,
            path,
            start,
            end,
        } => {
            let digits = &text[start as usize..end as usize];
            let octets = hex::decode(alloc, digits).map_err(|_| AllocError)?;
            Ok(StudioEvent::Arrive {
                stream,
                path,
                octets,
            })
        }
        TextEvent::Tick(time) => Ok(StudioEvent::Tick(time)),
        TextEvent::Close => Ok(StudioEvent::Close),
    }
}
