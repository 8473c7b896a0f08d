//! The listing of a studio: the lines of its marks, stream after stream.
ghost use Rattle.std.specs.Io.KnownBytes.{Appends};
ghost use Rattle.std.specs.Prelude.{◌≡◌, ℕ, ℤ, List, [], Option, length, None, OnOk, OnErr, IfErr};
ghost use Rattle.rtp_stream.specs.declared.stream_spec.Stream.{Stream};
ghost use Rattle.studio_config.specs.Studio.{Studio};
ghost use Rattle.studio_session.specs.Event.{TraceEvent};
ghost use Rattle.studio_session.specs.Cursor.{HasPulled, IsReadyFor, IsRunnable, IsSameCursor};
ghost use Rattle.studio_session.specs.Play.{AreNew, IsRunnableBy, HasPathsBy};
ghost use Rattle.studio_session.specs.Report.{ArePulled, HasPulledSome};
ghost use Rattle.studio_run.specs.Buffer.{PassesOn, BreaksOff};
ghost use Rattle.studio_run.specs.Listing.{listing_text, stream_listing};
ghost use Rattle.studio_run.specs.StudioListing.{HasListed, HasListedAll};
ghost use Rattle.studio_run.specs.StudioReport.{AreReady};
ghost use Rattle.studio_run.specs.CountedListing.{FailsWithCounts, FailsWithCountsOf, ListsAndCounts, ListsAndCountsOf};

use crate::lines::mark::write_next;
use crate::outputs::report::write_counts;
use crate::player::{PlayFault, read_all, runnable_events};
use crate::text_buffer::TextBuffer;
use crate::text_io::WriteFault;
use crate::trace::text_events::TracedEvents;
use rtp_wire::MAX_ARRIVAL_OCTETS;
use std::alloc::Global;
use std::io::{Read, Write};
use studio_config::StudioSpec;
use studio_session::{Cursor, EventSource, studio_cursors};

/// Writes the lines of the marks of the events that were taken.
fn write_taken<W: Write>(
    text: &mut TextBuffer,
    writer: &mut W,
    cursor: &mut Cursor,
) -> Result<(), WriteFault>
    ensures ok { OnOk result ((stream : Stream) (number : ℕ) (open_at : ℤ) (events : List TraceEvent)
        (written : Option (List ℕ)) (held : List ℕ)
        → IsRunnable stream number open_at events
        → HasListed stream number open_at events written held cursor.old (W.contents writer.old) text.old
        → HasListedAll stream number open_at events written held cursor.new (W.contents writer.new) text.new) }
    ensures fault { OnErr result ((stream : Stream) (number : ℕ) (open_at : ℤ) (events : List TraceEvent)
        (written : Option (List ℕ)) (held : List ℕ)
        → IsRunnable stream number open_at events
        → HasListed stream number open_at events written held cursor.old (W.contents writer.old) text.old
        → BreaksOff written held (W.contents writer.new) (stream_listing open_at events stream number)) }
    ensures settled { OnOk result (cursor.new.reading ≡ None) }
    ensures kept { IsSameCursor cursor.old cursor.new }
{
    // The label names the loop in its proof.
    'marks: loop {
        write_next(text, writer, cursor.number(), cursor.mark())?;
        if !cursor.pass() {
            return Ok(());
        }
    }
}

/// Writes the lines of all marks of a stream.
fn write_marks<E: EventSource, W: Write>(
    text: &mut TextBuffer,
    writer: &mut W,
    source: &E,
    cursor: &mut Cursor,
) -> Result<(), WriteFault>
    requires ready { IsReadyFor (E.events source.now) cursor.old }
    ensures ready { IsReadyFor (E.events source.now) cursor.new }
    ensures ok { OnOk result ((stream : Stream) (number : ℕ) (open_at : ℤ)
        → IsRunnable stream number open_at (E.events source.now)
        → HasPulled stream number open_at (E.events source.now) cursor.old 0
        → PassesOn (W.contents writer.old) text.old (W.contents writer.new) text.new
        (stream_listing open_at (E.events source.now) stream number)) }
    ensures fault { OnErr result ((stream : Stream) (number : ℕ) (open_at : ℤ)
        → IsRunnable stream number open_at (E.events source.now)
        → HasPulled stream number open_at (E.events source.now) cursor.old 0
        → BreaksOff (W.contents writer.old) text.old (W.contents writer.new)
        (stream_listing open_at (E.events source.now) stream number)) }
    ensures pulled { OnOk result ((stream : Stream) (number : ℕ) (open_at : ℤ)
        → IsRunnable stream number open_at (E.events source.now)
        → HasPulled stream number open_at (E.events source.now) cursor.old 0
        → HasPulledSome stream number open_at (E.events source.now) cursor.new) }
{
    let mut buffer = [0; MAX_ARRIVAL_OCTETS];
    // The label names the loop in its proof.
    'events: loop {
        write_taken(text, writer, cursor)?;
        if !cursor.take_event(source, &mut buffer) {
            return Ok(());
        }
    }
}

/// Writes the lines of all marks of all streams. The cursors are before their first events.
fn write_listing<E: EventSource, W: Write>(
    text: &mut TextBuffer,
    writer: &mut W,
    source: &E,
    cursors: &mut [Cursor],
) -> Result<(), WriteFault>
    requires ready { AreReady (E.events source.now) cursors.old }
    ensures ok { OnOk result ((studio : Studio) → IsRunnableBy studio (E.events source.now)
        → AreNew studio.streams studio.open_at cursors.old (length studio.streams)
        → PassesOn (W.contents writer.old) text.old (W.contents writer.new) text.new
        (listing_text studio (E.events source.now))) }
    ensures fault { OnErr result ((studio : Studio) → IsRunnableBy studio (E.events source.now)
        → AreNew studio.streams studio.open_at cursors.old (length studio.streams)
        → BreaksOff (W.contents writer.old) text.old (W.contents writer.new)
        (listing_text studio (E.events source.now))) }
    ensures ready { OnOk result (AreReady (E.events source.now) cursors.new) }
    ensures pulled { OnOk result ((studio : Studio) → IsRunnableBy studio (E.events source.now)
        → AreNew studio.streams studio.open_at cursors.old (length studio.streams)
        → ArePulled studio (E.events source.now) cursors.new) }
{
    for number in 0..cursors.len() {
        write_marks(text, writer, source, &mut cursors[number])?;
    }
    Ok(())
}

/// Writes the listing of all streams through an empty buffer, and leaves the buffer empty. The cursors are before
/// their first events.
pub fn write_whole_listing<E: EventSource, W: Write>(
    text: &mut TextBuffer,
    writer: &mut W,
    source: &E,
    cursors: &mut [Cursor],
) -> Result<(), WriteFault>
    requires empty { text.old ≡ [] }
    requires ready { AreReady (E.events source.now) cursors.old }
    ensures ok { OnOk result ((studio : Studio) → IsRunnableBy studio (E.events source.now)
        → AreNew studio.streams studio.open_at cursors.old (length studio.streams)
        → Appends (W.contents writer.old) (W.contents writer.new) (listing_text studio (E.events source.now))) }
    ensures fault { OnErr result ((studio : Studio) → IsRunnableBy studio (E.events source.now)
        → AreNew studio.streams studio.open_at cursors.old (length studio.streams)
        → BreaksOff (W.contents writer.old) [] (W.contents writer.new) (listing_text studio (E.events source.now))) }
    ensures empty { OnOk result (text.new ≡ []) }
    ensures ready { OnOk result (AreReady (E.events source.now) cursors.new) }
    ensures pulled { OnOk result ((studio : Studio) → IsRunnableBy studio (E.events source.now)
        → AreNew studio.streams studio.open_at cursors.old (length studio.streams)
        → ArePulled studio (E.events source.now) cursors.new) }
{
    write_listing(text, writer, source, cursors)?;
    text.finish(writer)?;
    Ok(())
}

/// Reads a trace to its end, writes the listing of all marks as `list_marks` does, and then writes the lines of each
/// path's and each merge's counts to another writer.
pub fn list_marks_and_counts<R: Read, W: Write, C: Write>(
    alloc: Global,
    spec: &StudioSpec,
    reader: &mut R,
    writer: &mut W,
    counts: &mut C,
) -> Result<(), PlayFault>
    ensures ok { OnOk result (ListsAndCountsOf spec.now (R.remaining reader.old) (R.remaining reader.new)
        (W.contents writer.old) (W.contents writer.new) (C.contents counts.old) (C.contents counts.new)) }
    ensures fault { IfErr result (FailsWithCountsOf spec.now (R.remaining reader.old) (R.remaining reader.new)
        (W.contents writer.old) (W.contents writer.new) (C.contents counts.old) (C.contents counts.new)) }
{
    let trace = read_all(alloc, reader)?;
    let events = runnable_events(alloc, spec, trace.as_slice())?;
    write_both(alloc, spec, &events, writer, counts)?;
    Ok(())
}

/// Writes the listing of events without a fault, and then their counts. It allocates before it writes.
fn write_both<W: Write, C: Write>(
    alloc: Global,
    spec: &StudioSpec,
    events: &TracedEvents<'_>,
    writer: &mut W,
    counts: &mut C,
) -> Result<(), PlayFault>
    requires runnable { IsRunnableBy spec.now events.now }
    requires paths { HasPathsBy spec.now events.now }
    ensures ok { OnOk result (ListsAndCounts spec.now events.now (W.contents writer.old) (W.contents writer.new)
        (C.contents counts.old) (C.contents counts.new)) }
    ensures fault { IfErr result (FailsWithCounts spec.now events.now (W.contents writer.old) (W.contents writer.new)
        (C.contents counts.old) (C.contents counts.new)) }
{
    let mut cursors = studio_cursors(alloc, spec)?;
    let mut text = TextBuffer::new(alloc)?;
    let cursors = cursors.as_mut_slice();
    write_whole_listing(&mut text, writer, events, cursors)?;
    // The buffer is empty again, so it serves the second writer too.
    write_counts(&mut text, counts, events, cursors)?;
    text.finish(counts)?;
    Ok(())
}
