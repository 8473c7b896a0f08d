//! The listing of a studio's marks, and its report, from a trace.
ghost use Rattle.std.specs.Prelude.{◌≡◌, None, Ok, OnOk, IfOk, IfErr};
ghost use Rattle.std.specs.Io.KnownBytes.{Consumes, IsAtEnd};
ghost use Rattle.studio_session.specs.Fault.{session_fault_of};
ghost use Rattle.studio_session.specs.Play.{HasPathsBy, IsRunnableBy};
ghost use Rattle.studio_run.specs.Trace.{trace_events};
ghost use Rattle.studio_run.specs.Play.{
  FailsOf,
  FailsWriting,
  IsListing,
  StopsAt,
  StopsReading,
  WritesEvents,
  WritesTextOf,
  play_fault,
};
ghost use Rattle.studio_run.specs.StudioReport.{IsReport};
ghost use Rattle.studio_run.specs.declared.player.PlayFault.TheVariants as fault;

use crate::outputs::listing::write_whole_listing;
use crate::outputs::report::write_whole_report;
use crate::text_buffer::TextBuffer;
use crate::text_io::{ReadFault, WriteFault, read_octets};
use crate::trace::fault::{TraceFault, TraceFaultKind};
use crate::trace::text_events::TracedEvents;
use std::alloc::{AllocError, Global};
use std::io::{Read, Write};
use studio_config::StudioSpec;
use studio_session::{Cursor, Session, StudioFault, first_fault, studio_cursors};
use thiserror::Error;

/// The reason why the text of a trace was not written, or only a part of it. Faults are found in the order Read,
/// Trace, Run, Write, and Memory at the allocation that failed. Only a write that fails leaves something written.
#[derive(Debug, Drop, Error)]
pub enum PlayFault {
    /// A read failed, or 100,000,000 reads did not reach the end.
    #[error("device: read")]
    Read,
    /// An allocation failed.
    #[error("out of memory")]
    Memory,
    /// The trace has a fault.
    #[error("{0}")]
    Trace(TraceFault),
    /// An event of the trace has a fault.
    #[error("{0}")]
    Run(StudioFault),
    /// A write failed, or took no octet. A prefix of the text was written.
    #[error("device: write")]
    Write,
}

impl From<AllocError> for PlayFault {
    ghost from_gives = { λ _ to. to ≡ fault.Memory };

    fn from(_error: AllocError) -> PlayFault {
        PlayFault::Memory
    }
}

impl From<WriteFault> for PlayFault {
    ghost from_gives = { λ _ to. to ≡ fault.Write };

    fn from(_fault: WriteFault) -> PlayFault {
        PlayFault::Write
    }
}

/// Reads a trace to its end, and writes the listing of all marks, stream after stream.
pub fn list_marks<R: Read, W: Write>(
    alloc: Global,
    spec: &StudioSpec,
    reader: &mut R,
    writer: &mut W,
) -> Result<(), PlayFault>
    ensures ok { OnOk result (WritesTextOf spec.now IsListing (R.remaining reader.old) (R.remaining reader.new)
        (W.contents writer.old) (W.contents writer.new)) }
    ensures fault { IfErr result (FailsOf spec.now IsListing (R.remaining reader.old) (R.remaining reader.new)
        (W.contents writer.old) (W.contents writer.new)) }
{
    let trace = read_all(alloc, reader)?;
    let events = runnable_events(alloc, spec, trace.as_slice())?;
    write_listing_of(alloc, spec, &events, writer)?;
    Ok(())
}

/// Reads a trace to its end, and writes its report: the datagrams of all blocks that are ready, and the counts of
/// each stream.
pub fn play<R: Read, W: Write>(
    alloc: Global,
    spec: &StudioSpec,
    reader: &mut R,
    writer: &mut W,
) -> Result<(), PlayFault>
    ensures ok { OnOk result (WritesTextOf spec.now IsReport (R.remaining reader.old) (R.remaining reader.new)
        (W.contents writer.old) (W.contents writer.new)) }
    ensures fault { IfErr result (FailsOf spec.now IsReport (R.remaining reader.old) (R.remaining reader.new)
        (W.contents writer.old) (W.contents writer.new)) }
{
    let trace = read_all(alloc, reader)?;
    let events = runnable_events(alloc, spec, trace.as_slice())?;
    write_report_of(alloc, spec, &events, writer)?;
    Ok(())
}

/// Reads a trace to its end.
pub fn read_all<R: Read>(alloc: Global, reader: &mut R) -> Result<Vec<u8>, PlayFault>
    ensures ok { IfOk result (λ trace. Consumes (R.remaining reader.old) (R.remaining reader.new) trace.items) }
    ensures end { OnOk result (IsAtEnd (R.remaining reader.new)) }
    ensures fault { IfErr result (StopsReading (R.remaining reader.old) (R.remaining reader.new)) }
{
    match read_octets(alloc, reader) {
        Ok(trace) => Ok(trace),
        Err(ReadFault::Device) => Err(PlayFault::Read),
        Err(ReadFault::Memory) => Err(PlayFault::Memory),
        Err(ReadFault::TooMany) => Err(PlayFault::Trace(TraceFault {
            line: 0,
            kind: TraceFaultKind::TooMany,
        })),
    }
}

/// Returns the events of a trace, if none of them has a fault.
pub fn runnable_events<'a>(
    alloc: Global,
    spec: &StudioSpec,
    trace: &'a [u8],
) -> Result<TracedEvents<'a>, PlayFault>
    ensures ok { IfOk result (λ events. trace_events trace.now ≡ Ok events) }
    ensures runs { IfOk result (λ events. session_fault_of spec.now events ≡ None) }
    ensures runnable { IfOk result (λ events. IsRunnableBy spec.now events) }
    ensures paths { IfOk result (λ events. HasPathsBy spec.now events) }
    ensures fault { IfErr result (StopsAt spec.now trace.now) }
{
    let events = match TracedEvents::new(alloc, trace) {
        Ok(events) => events,
        Err(fault) => return Err(play_fault(fault)),
    };
    match first_fault(spec, &events) {
        None => Ok(events),
        Some(fault) => Err(PlayFault::Run(fault)),
    }
}

/// Returns the fault of a trace, or an allocation failure.
fn play_fault(fault: TraceFault) -> PlayFault
    ensures { result ≡ play_fault fault.kind fault }
{
    match fault.kind {
        TraceFaultKind::Memory => PlayFault::Memory,
        _ => PlayFault::Trace(fault),
    }
}

/// Writes the listing of events.
fn write_listing_of<W: Write>(
    alloc: Global,
    spec: &StudioSpec,
    events: &TracedEvents<'_>,
    writer: &mut W,
) -> Result<(), PlayFault>
    requires runnable { IsRunnableBy spec.now events.now }
    requires paths { HasPathsBy spec.now events.now }
    ensures ok { OnOk result (WritesEvents spec.now IsListing events.now (W.contents writer.old)
        (W.contents writer.new)) }
    ensures fault { IfErr result
        (FailsWriting spec.now IsListing events.now (W.contents writer.old) (W.contents writer.new)) }
{
    // All memory comes before the first write, so that an allocation failure leaves nothing written.
    let mut cursors = studio_cursors(alloc, spec)?;
    let mut text = TextBuffer::new(alloc)?;
    write_whole_listing(&mut text, writer, events, cursors.as_mut_slice())?;
    Ok(())
}

/// Writes the report of events.
fn write_report_of<W: Write>(
    alloc: Global,
    spec: &StudioSpec,
    events: &TracedEvents<'_>,
    writer: &mut W,
) -> Result<(), PlayFault>
    requires runnable { IsRunnableBy spec.now events.now }
    requires paths { HasPathsBy spec.now events.now }
    ensures ok { OnOk result (WritesEvents spec.now IsReport events.now (W.contents writer.old)
        (W.contents writer.new)) }
    ensures fault { IfErr result
        (FailsWriting spec.now IsReport events.now (W.contents writer.old) (W.contents writer.new)) }
{
    // All memory comes before the first write, so that an allocation failure leaves nothing written.
    let session = Session::new(alloc, spec)?;
    let mut text = TextBuffer::new(alloc)?;
    write_whole_report(&mut text, writer, events, session)?;
    Ok(())
}
