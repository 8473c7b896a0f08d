//! The listing of a trace, with a WAV file of one stream.
ghost use Rattle.std.specs.Prelude.{◌≡◌, ◌<◌, ◌≤◌, Some, None, slice_get, IfErr, IfOk, OnErr, OnOk};
ghost use Rattle.std.specs.Prelude.{ℕ, ℤ, List, [], Option};
ghost use Rattle.rtp_stream.specs.declared.stream_spec.Stream.{Stream};
ghost use Rattle.path_merge.specs.Goal.{HasGivenAll};
ghost use Rattle.studio_session.specs.Play.{HasPathsBy, IsRunnableBy, stream_marks};
ghost use Rattle.wav_runs.specs.StreamRun.{FailsBoth, FailsListing, IsUnfit, ListsAndRecords, ListsAndRecordsTextOf};
ghost use Rattle.studio_session.specs.Event.{TraceEvent};
ghost use Rattle.studio_session.specs.Cursor.{HasPulled, IsReadyFor, IsRunnable, IsSameCursor};
ghost use Rattle.wav_file.specs.File.{Becomes, Holds, wav_octets};
ghost use Rattle.wav_runs.specs.StreamSamples.{samples_behind, stream_format, stream_samples};
ghost use Rattle.wav_file.specs.PartFile.{HasPrefix};
ghost use Rattle.wav_runs.specs.BrokenFile.{BreaksOffStream};
ghost use Rattle.wav_runs.specs.StreamTrack.{HasTaken, HasTakenAll, HasTracked};
ghost use Rattle.wav_runs.specs.declared.stream_track.StreamTrack.{StreamTrack};

use crate::fault::{StreamWavFault, WavRunFault};
use crate::stream_track::StreamTrack;
use rtp_stream::StreamSpec;
use rtp_wire::MAX_ARRIVAL_OCTETS;
use std::alloc::Global;
use std::io::{Read, Write};
use studio_config::StudioSpec;
use studio_run::{TextBuffer, TracedEvents, read_all, runnable_events, write_whole_listing};
use studio_session::{Cursor, EventSource, studio_cursors};
use wav_file::{CreateFile, Overwrite, WavFault};

/// The greatest number of channels of a stream in a WAV file.
const MAX_CHANNELS: u8 = 8;

/// Reads a trace to its end, writes the samples of the stream `number` to a file, which it returns, and then the
/// listing of all marks as `list_marks` does. The file is created last, when only a write can still fail. Returns the
/// error of the stream, the trace, the listing or the file.
pub fn list_to_wav<R: Read, W: Write, M: CreateFile>(
    alloc: Global,
    spec: &StudioSpec,
    number: u8,
    reader: &mut R,
    writer: &mut W,
    files: &M,
) -> Result<M::File, WavRunFault>
    ensures ok { IfOk result
        (λ file. ListsAndRecordsTextOf spec.now number (R.remaining reader.old) (R.remaining reader.new)
        (W.contents writer.old) (W.contents writer.new) (M.File.Write.contents file)) }
    ensures fault { IfErr result
        (FailsListing spec.now number (R.remaining reader.old) (R.remaining reader.new) (W.contents writer.old)
        (W.contents writer.new)) }
{
    // The stream comes first: an unfit one is a fault before the trace is read.
    let stream = wav_stream(spec, number)?;
    let trace = read_all(alloc, reader)?;
    let events = runnable_events(alloc, spec, trace.as_slice())?;
    let file = write_both(alloc, spec, stream, number, &events, writer, files)?;
    Ok(file)
}

/// Returns the stream with a number, or an error if there is none or it has more than 8 channels.
pub fn wav_stream(spec: &StudioSpec, number: u8) -> Result<StreamSpec, StreamWavFault>
    ensures ok { IfOk result (λ stream. slice_get spec.now.streams number ≡ Some stream) }
    ensures few { IfOk result (λ stream. stream.channels ≤ 8) }
    ensures fault { IfErr result (IsUnfit spec.now number) }
{
    match spec.streams().get(usize::from(number)) {
        None => Err(StreamWavFault::Unknown),
        Some(stream) if stream.channels() > MAX_CHANNELS => Err(StreamWavFault::Channels),
        Some(stream) => Ok(*stream),
    }
}

/// Writes the samples of a stream, and the listing of events without a fault.
fn write_both<W: Write, M: CreateFile>(
    alloc: Global,
    spec: &StudioSpec,
    stream: StreamSpec,
    number: u8,
    events: &TracedEvents<'_>,
    writer: &mut W,
    files: &M,
) -> Result<M::File, WavRunFault>
    requires is { slice_get spec.now.streams number ≡ Some stream }
    requires runnable { IsRunnableBy spec.now events.now }
    requires paths { HasPathsBy spec.now events.now }
    ensures ok { IfOk result
        (λ file. ListsAndRecords spec.now events.now stream number (W.contents writer.old) (W.contents writer.new)
        (M.File.Write.contents file)) }
    ensures fault { IfErr result (FailsBoth spec.now events.now (W.contents writer.old) (W.contents writer.new)) }
{
    // All memory is taken before the file is created.
    let mut cursors = studio_cursors(alloc, spec)?;
    let mut cursor = Cursor::new(alloc, stream, number, spec.open_at())?;
    let mut text = TextBuffer::new(alloc)?;
    let mut file = files.create()?;
    write_stream_wav(&mut file, events, &mut cursor)?;
    write_whole_listing(&mut text, writer, events, cursors.as_mut_slice())?;
    Ok(file)
}

/// Writes the samples of all marks of a stream to an empty file. Lost packets, and the gaps between epochs, are
/// silence. The cursor has to be before the first event. Returns an error if a write fails.
pub fn write_stream_wav<E: EventSource, F: Overwrite>(
    file: &mut F,
    source: &E,
    cursor: &mut Cursor,
) -> Result<(), WavFault>
    requires settled { cursor.old.reading ≡ None }
    requires ready { IsReadyFor (E.events source.now) cursor.old }
    ensures ok { OnOk result ((stream : Stream) (number : ℕ) (open_at : ℤ)
        → IsRunnable stream number open_at (E.events source.now)
        → HasPulled stream number open_at (E.events source.now) cursor.old 0
        → Holds (F.Write.contents file.old) [] → Becomes (F.Write.contents file.old) (F.Write.contents file.new)
        (wav_octets (stream_format stream)
        (stream_samples stream (stream_marks stream number open_at (E.events source.now))))) }
    ensures part { OnErr result ((stream : Stream) (number : ℕ) (open_at : ℤ)
        → IsRunnable stream number open_at (E.events source.now)
        → HasPulled stream number open_at (E.events source.now) cursor.old 0
        → Holds (F.Write.contents file.old) [] → BreaksOffStream (stream_format stream)
        (stream_samples stream (stream_marks stream number open_at (E.events source.now)))
        (F.Write.contents file.old) (F.Write.contents file.new)) }
{
    let mut track = StreamTrack::begin(cursor.spec(), file)?;
    match add_marks(&mut track, file, source, cursor) {
        Ok(()) => track.wav.finish(file),
        Err(fault) => {
            // The first error is returned, whether the sizes can be written or not.
            let _ = track.wav.finish_partial(file);
            Err(fault)
        }
    }
}

/// Writes the samples of all marks of a stream.
fn add_marks<E: EventSource, F: Write>(
    track: &mut StreamTrack,
    file: &mut F,
    source: &E,
    cursor: &mut Cursor,
) -> Result<(), WavFault>
    requires ready { IsReadyFor (E.events source.now) cursor.old }
    ensures ok { OnOk result ((stream : Stream) (number : ℕ) (open_at : ℤ)
        → IsRunnable stream number open_at (E.events source.now)
        → HasPulled stream number open_at (E.events source.now) cursor.old 0
        → HasTracked (F.contents file.old) (F.contents file.new) track.old track.new
        (stream_marks stream number open_at (E.events source.now))) }
    ensures part { OnErr result ((stream : Stream) (number : ℕ) (open_at : ℤ)
        → IsRunnable stream number open_at (E.events source.now)
        → HasPulled stream number open_at (E.events source.now) cursor.old 0
        → HasPrefix (F.contents file.old) (F.contents file.new) track.old.wav track.new.wav
        (samples_behind track.old.wav.format track.old.frames track.old.end
        (stream_marks stream number open_at (E.events source.now)))) }
{
    let mut buffer = [0; MAX_ARRIVAL_OCTETS];
    // The label names the loop in its proof.
    'events: loop {
        add_taken(track, file, cursor)?;
        if !cursor.take_event(source, &mut buffer) {
            return Ok(());
        }
    }
}

/// Writes the samples of all marks that are due after the events so far.
pub(crate) fn add_taken<F: Write>(
    track: &mut StreamTrack,
    file: &mut F,
    cursor: &mut Cursor,
) -> Result<(), WavFault>
    ensures ok { OnOk result
        ((stream : Stream) (number : ℕ) (open_at : ℤ) (events : List TraceEvent) (made : Option (List ℕ))
        (first : StreamTrack)
        → IsRunnable stream number open_at events
        → HasTaken stream number open_at events made first cursor.old (F.contents file.old) track.old
        → HasTakenAll stream number open_at events made first cursor.new (F.contents file.new) track.new) }
    ensures part { OnErr result
        ((stream : Stream) (number : ℕ) (open_at : ℤ) (events : List TraceEvent) (made : Option (List ℕ))
        (first : StreamTrack)
        → IsRunnable stream number open_at events
        → HasTaken stream number open_at events made first cursor.old (F.contents file.old) track.old
        → HasPrefix made (F.contents file.new) first.wav track.new.wav
        (samples_behind first.wav.format first.frames first.end (stream_marks stream number open_at events))) }
    ensures settled { OnOk result (cursor.new.reading ≡ None) }
    ensures all { OnOk result (HasGivenAll cursor.new.merge) }
    ensures kept { IsSameCursor cursor.old cursor.new }
{
    // The label names the loop in its proof.
    'marks: loop {
        let wrote = track.add_next(file, cursor.mark());
        // The mark is let go before an error is returned: `pass` says which one it was.
        let more = cursor.pass();
        wrote?;
        if !more {
            return Ok(());
        }
    }
}
