//! The report of a studio: the lines of its datagrams, and those of its counts.
ghost use Rattle.std.specs.Io.KnownBytes.{Appends};
ghost use Rattle.std.specs.Prelude.{◌≡◌, ℕ, List, [], OnOk, OnErr, ℤ};
ghost use Rattle.studio_config.specs.Studio.{Studio};
ghost use Rattle.studio_session.specs.Cursor.{IsReadyFor, IsRunnable};
ghost use Rattle.studio_session.specs.Play.{HasPlayed, IsRunnableBy};
ghost use Rattle.studio_session.specs.Run.{AreDatagrams};
ghost use Rattle.studio_run.specs.Buffer.{BreaksOff, PassesOn};
ghost use Rattle.studio_run.specs.Listing.{datagrams_text, counts_text_of, paths_text, stream_counts_text};
ghost use Rattle.studio_run.specs.StudioReport.{AreReady, HasReported, HasSamples, IsReport, IsShort, WritesReport};
ghost use Rattle.rtp_stream.specs.declared.stream_spec.Stream.{Stream};
ghost use Rattle.studio_session.specs.Event.{TraceEvent};
ghost use Rattle.studio_session.specs.Counts.{AreTallies};
ghost use Rattle.studio_session.specs.Report.{ArePulled, HasPulledSome};

use crate::lines::counts::{write_datagram, write_merge_counts, write_path_counts};
use crate::text_buffer::TextBuffer;
use crate::text_io::WriteFault;
use mix_packets::MAX_OUTPUT_OCTETS;
use rtp_stream::Path;
use std::io::Write;
use studio_session::{Cursor, EventSource, Session, finish_stream};

/// Writes the lines of the datagrams of all blocks that are ready.
fn write_datagrams<E: EventSource, W: Write>(
    text: &mut TextBuffer,
    writer: &mut W,
    source: &E,
    session: &mut Session,
) -> Result<(), WriteFault>
    requires short { IsShort session.old.mixer.packer.spec }
    requires some { HasSamples session.old.mixer.packer.spec }
    requires ready { AreReady (E.events source.now) session.old.cursors }
    ensures ready { AreReady (E.events source.now) session.new.cursors }
    ensures ok { OnOk result ((studio : Studio) → IsRunnableBy studio (E.events source.now)
        → HasPlayed studio (E.events source.now) session.old 0
        → HasReported studio (E.events source.now) (W.contents writer.old) text.old session.new
        (W.contents writer.new) text.new) }
    ensures fault { OnErr result ((studio : Studio) (datagrams : List (List ℕ))
        → IsRunnableBy studio (E.events source.now) → HasPlayed studio (E.events source.now) session.old 0
        → AreDatagrams studio (E.events source.now) datagrams
        → BreaksOff (W.contents writer.old) text.old (W.contents writer.new) (datagrams_text datagrams)) }
{
    let mut out = [0; MAX_OUTPUT_OCTETS];
    // The label names the loop in its proof.
    'rounds: loop {
        match session.next_datagram(source, &mut out) {
            Some(len) => write_datagram(text, writer, &out[..len])?,
            None => return Ok(()),
        }
    }
}

/// Writes the report of a session, which is before its first event.
fn write_report<E: EventSource, W: Write>(
    text: &mut TextBuffer,
    writer: &mut W,
    source: &E,
    session: Session,
) -> Result<(), WriteFault>
    requires short { IsShort session.mixer.packer.spec }
    requires some { HasSamples session.mixer.packer.spec }
    requires ready { AreReady (E.events source.now) session.cursors }
    ensures ok { OnOk result ((studio : Studio) → IsRunnableBy studio (E.events source.now)
        → HasPlayed studio (E.events source.now) session 0
        → WritesReport studio (E.events source.now) (W.contents writer.old) text.old (W.contents writer.new) text.new) }
    ensures fault { OnErr result ((studio : Studio) (report : List ℕ) → IsRunnableBy studio (E.events source.now)
        → HasPlayed studio (E.events source.now) session 0
        → IsReport studio (E.events source.now) report
        → BreaksOff (W.contents writer.old) text.old (W.contents writer.new) report) }
{
    let mut session = session;
    write_datagrams(text, writer, source, &mut session)?;
    let mut cursors = session.into_cursors();
    write_counts(text, writer, source, cursors.as_mut_slice())?;
    Ok(())
}

/// Writes the report of a session through an empty buffer, and leaves the buffer empty. The session is before its
/// first event.
pub(crate) fn write_whole_report<E: EventSource, W: Write>(
    text: &mut TextBuffer,
    writer: &mut W,
    source: &E,
    session: Session,
) -> Result<(), WriteFault>
    requires empty { text.old ≡ [] }
    requires short { IsShort session.mixer.packer.spec }
    requires some { HasSamples session.mixer.packer.spec }
    requires ready { AreReady (E.events source.now) session.cursors }
    ensures ok { OnOk result ((studio : Studio) → IsRunnableBy studio (E.events source.now)
        → HasPlayed studio (E.events source.now) session 0
        → (report : List ℕ) × IsReport studio (E.events source.now) report
        × Appends (W.contents writer.old) (W.contents writer.new) report) }
    ensures fault { OnErr result ((studio : Studio) (report : List ℕ) → IsRunnableBy studio (E.events source.now)
        → HasPlayed studio (E.events source.now) session 0
        → IsReport studio (E.events source.now) report
        → BreaksOff (W.contents writer.old) [] (W.contents writer.new) report) }
    ensures empty { OnOk result (text.new ≡ []) }
{
    write_report(text, writer, source, session)?;
    text.finish(writer)?;
    Ok(())
}

/// Writes the line of each path of a stream.
fn write_paths<W: Write>(
    text: &mut TextBuffer,
    writer: &mut W,
    cursor: &Cursor,
) -> Result<(), WriteFault>
    ensures ok { OnOk result ((events : List TraceEvent)
        → AreTallies cursor.now.spec cursor.now.number events cursor.now.tallies
        → PassesOn (W.contents writer.old) text.old (W.contents writer.new) text.new
        (paths_text cursor.now.spec cursor.now.number events cursor.now.spec.paths)) }
    ensures fault { OnErr result ((events : List TraceEvent)
        → AreTallies cursor.now.spec cursor.now.number events cursor.now.tallies
        → BreaksOff (W.contents writer.old) text.old (W.contents writer.new)
        (paths_text cursor.now.spec cursor.now.number events cursor.now.spec.paths)) }
{
    for place in 0..cursor.spec().paths() {
        let Some(path) = Path::new(place) else {
            unreachable!()
        };
        write_path_counts(
            text,
            writer,
            cursor.number(),
            path,
            &cursor.path_counts(path),
        )?;
    }
    Ok(())
}

/// Writes the lines of a stream's counts after all its marks, which are dropped.
fn write_stream_counts<E: EventSource, W: Write>(
    text: &mut TextBuffer,
    writer: &mut W,
    source: &E,
    cursor: &mut Cursor,
) -> Result<(), WriteFault>
    requires ready { IsReadyFor (E.events source.now) cursor.old }
    ensures ready { IsReadyFor (E.events source.now) cursor.new }
    ensures ok { OnOk result ((stream : Stream) (number : ℕ) (open_at : ℤ)
        → IsRunnable stream number open_at (E.events source.now)
        → HasPulledSome stream number open_at (E.events source.now) cursor.old
        → PassesOn (W.contents writer.old) text.old (W.contents writer.new) text.new
        (stream_counts_text open_at (E.events source.now) stream number)) }
    ensures fault { OnErr result ((stream : Stream) (number : ℕ) (open_at : ℤ)
        → IsRunnable stream number open_at (E.events source.now)
        → HasPulledSome stream number open_at (E.events source.now) cursor.old
        → BreaksOff (W.contents writer.old) text.old (W.contents writer.new)
        (stream_counts_text open_at (E.events source.now) stream number)) }
{
    // The counts are complete only once all events were taken.
    finish_stream(cursor, source);
    write_paths(text, writer, cursor)?;
    let paths = cursor.spec().paths();
    write_merge_counts(text, writer, cursor.number(), paths, &cursor.counts())?;
    Ok(())
}

/// Writes the lines of all streams' counts.
pub fn write_counts<E: EventSource, W: Write>(
    text: &mut TextBuffer,
    writer: &mut W,
    source: &E,
    cursors: &mut [Cursor],
) -> Result<(), WriteFault>
    requires ready { AreReady (E.events source.now) cursors.old }
    ensures ok { OnOk result ((studio : Studio) → IsRunnableBy studio (E.events source.now)
        → ArePulled studio (E.events source.now) cursors.old
        → PassesOn (W.contents writer.old) text.old (W.contents writer.new) text.new
        (counts_text_of studio (E.events source.now))) }
    ensures fault { OnErr result ((studio : Studio) → IsRunnableBy studio (E.events source.now)
        → ArePulled studio (E.events source.now) cursors.old
        → BreaksOff (W.contents writer.old) text.old (W.contents writer.new)
        (counts_text_of studio (E.events source.now))) }
{
    for number in 0..cursors.len() {
        write_stream_counts(text, writer, source, &mut cursors[number])?;
    }
    Ok(())
}
