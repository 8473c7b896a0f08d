//! The faults of a list of events.
ghost use Rattle.std.specs.Prelude.{◌≡◌, ℕ, [], false, Some, None, slice_get};
ghost use Rattle.rtp_stream.specs.declared.stream_spec.Stream.{Stream};
ghost use Rattle.rtp_stream.specs.StreamSpecFacts.{IsStream};
ghost use Rattle.rtp_stream.specs.History.{is_tick_in_order};
ghost use Rattle.mix_packets.specs.OutSpec.{IsOutput};
ghost use Rattle.studio_session.specs.Fault as spec;
ghost use Rattle.studio_session.specs.Fault.{
  closed_past,
  outline_fault,
  session_fault_from,
  session_fault_of,
  time_past,
};
ghost use Rattle.studio_session.specs.Play.{HasPathsBy, IsRunnableBy};

use crate::event::EventHeader;
use crate::source::EventSource;
use mix_packets::OutSpec;
use rtp_stream::{Path, StreamSpec};
use std::alloc::AllocError;
use studio_config::StudioSpec;
use thiserror::Error;

/// The fault of a list of events: its first event at fault, by its place from 0, or an allocation failure. Its text
/// is the line that the program writes.
#[derive(Debug, Drop, Error)]
pub enum StudioFault {
    /// A clock reading goes back, is past 2^60 sampling instants, or comes after a close.
    #[error("event {0}: clock")]
    Clock(usize),
    /// A datagram is for a stream that the studio does not have.
    #[error("event {0}: stream")]
    Stream(usize),
    /// A datagram came in on a path that its stream does not have.
    #[error("event {0}: path")]
    Path(usize),
    /// An allocation failed.
    #[error("out of memory")]
    Memory(AllocError),
}

/// Returns the first event at fault, or `None`. It allocates nothing, and never returns `Memory`.
pub fn first_fault<E: EventSource>(spec: &StudioSpec, source: &E) -> Option<StudioFault>
    ensures fault { result ≡ session_fault_of spec.now (E.events source.now) }
    ensures runnable { result ≡ None → IsRunnableBy spec.now (E.events source.now) }
    ensures paths { result ≡ None → HasPathsBy spec.now (E.events source.now) }
{
    are_streams(spec.streams());
    is_output(spec.output());
    fault_from(spec.streams(), spec.open_at(), source)
}

/// States what holds of every studio before its first event. Nothing is computed here.
pub fn is_runnable(spec: &StudioSpec)
    ensures { IsRunnableBy spec.now [] }
{
    are_streams(spec.streams());
    is_output(spec.output());
}

/// States what holds of every output, for the contracts above.
pub(crate) fn is_output(output: &OutSpec)
    ensures { IsOutput output.now }
{
    // Only the clauses of this call are wanted: they hold the output's rules.
    let _ = output.frames();
}

/// States what holds of every stream, for the contracts above.
fn are_streams(streams: &[StreamSpec])
    ensures { (i : ℕ) (stream : Stream) → slice_get streams.now i ≡ Some stream → IsStream stream }
{
    for stream in streams {
        // Only the clauses of this call are wanted: they hold the stream's rules.
        let _ = stream.paths();
    }
}

/// Returns the first event at fault after an opening at `open_at`.
fn fault_from<E: EventSource>(
    streams: &[StreamSpec],
    open_at: i64,
    source: &E,
) -> Option<StudioFault>
    ensures { result ≡ session_fault_from streams.now 0 open_at false (E.events source.now) }
{
    let mut time = open_at;
    let mut closed = false;
    for place in 0..source.count() {
        let event = source.outline(place);
        if let Some(fault) = event_fault(streams, place, time, closed, &event) {
            return Some(fault);
        }
        time = time_after(time, &event);
        closed = closed_after(closed, &event);
    }
    None
}

/// Returns the fault of an event, if it has one.
fn event_fault(
    streams: &[StreamSpec],
    place: usize,
    time: i64,
    closed: bool,
    event: &EventHeader,
) -> Option<StudioFault>
    ensures { result ≡ outline_fault streams.now place time closed event.now }
{
    match event {
        EventHeader::Arrive { stream, path } => match streams.get(*stream as usize) {
            Some(stream) => path_fault(place, stream, *path),
            None => Some(StudioFault::Stream(place)),
        },
        EventHeader::Tick(now) => {
            if in_order(time, closed, *now) {
                None
            } else {
                Some(StudioFault::Clock(place))
            }
        }
        EventHeader::Close => None,
    }
}

/// Returns the fault of a path, if its stream does not have it.
fn path_fault(place: usize, stream: &StreamSpec, path: Path) -> Option<StudioFault>
    ensures { result ≡ spec.path_fault place (Some stream.now) path }
{
    if path.number() < stream.paths() {
        None
    } else {
        Some(StudioFault::Path(place))
    }
}

/// Returns true if a clock reading is in order.
fn in_order(time: i64, closed: bool, now: i64) -> bool
    ensures { result ≡ is_tick_in_order time closed now }
{
    path_merge::clock_fault(time, closed, now).is_none()
}

/// Returns the time after an event: a tick's clock reading, else the time before.
fn time_after(time: i64, event: &EventHeader) -> i64
    ensures { result ≡ time_past time event.now }
{
    match event {
        EventHeader::Tick(now) => *now,
        _ => time,
    }
}

/// Returns true if the streams are closed after an event.
fn closed_after(closed: bool, event: &EventHeader) -> bool
    ensures { result ≡ closed_past closed event.now }
{
    match event {
        EventHeader::Close => true,
        _ => closed,
    }
}
