//! The lines of an engine's counts, which end a report.
ghost use Rattle.std.specs.Prelude.{◌≡◌, ◌≤◌, ◌<◌, ℕ, List, length, slice_get, Some, OnOk, OnErr};
ghost use Rattle.studio_config.specs.Studio.{Studio};
ghost use Rattle.studio_session.specs.Event.{TraceEvent};
ghost use Rattle.studio_engine.specs.Engine.{HasAllMarks};
ghost use Rattle.studio_engine.specs.Session.{HasSession};
ghost use Rattle.studio_run.specs.Buffer.{BreaksOff, PassesOn};
ghost use Rattle.studio_run.specs.Listing.{counts_text_of, paths_text, stream_counts_text};

use rtp_stream::{Path, StreamSpec};
use std::io::Write;
use studio_engine::Engine;
use studio_run::{TextBuffer, WriteFault, write_merge_counts, write_path_counts};

/// Writes the line of each path of a stream.
fn write_paths<W: Write>(
    text: &mut TextBuffer,
    writer: &mut W,
    engine: &Engine,
    number: u8,
    stream: &StreamSpec,
) -> Result<(), WriteFault>
    requires there { number < length engine.now.cursors }
    ensures ok { OnOk result ((studio : Studio) (events : List TraceEvent) (datagrams : List (List ℕ))
        → HasSession studio engine.now events datagrams
        → slice_get studio.streams number ≡ Some stream.now
        → PassesOn (W.contents writer.old) text.old (W.contents writer.new) text.new
        (paths_text stream.now number events stream.now.paths)) }
    ensures fault { OnErr result ((studio : Studio) (events : List TraceEvent) (datagrams : List (List ℕ))
        → HasSession studio engine.now events datagrams
        → slice_get studio.streams number ≡ Some stream.now
        → BreaksOff (W.contents writer.old) text.old (W.contents writer.new)
        (paths_text stream.now number events stream.now.paths)) }
{
    for place in 0..stream.paths() {
        // A stream has at most 4 paths, and the clauses above require that the stream is there.
        let Some(path) = Path::new(place) else {
            unreachable!()
        };
        let Some(counts) = engine.path_counts(usize::from(number), path) else {
            unreachable!()
        };
        write_path_counts(text, writer, number, path, &counts)?;
    }
    Ok(())
}

/// Writes the lines of a stream's counts.
fn write_stream_counts<W: Write>(
    text: &mut TextBuffer,
    writer: &mut W,
    engine: &Engine,
    number: u8,
    stream: &StreamSpec,
) -> Result<(), WriteFault>
    requires there { number < length engine.now.cursors }
    requires whole { HasAllMarks engine.now }
    ensures ok { OnOk result ((studio : Studio) (events : List TraceEvent) (datagrams : List (List ℕ))
        → HasSession studio engine.now events datagrams
        → slice_get studio.streams number ≡ Some stream.now
        → PassesOn (W.contents writer.old) text.old (W.contents writer.new) text.new
        (stream_counts_text studio.open_at events stream.now number)) }
    ensures fault { OnErr result ((studio : Studio) (events : List TraceEvent) (datagrams : List (List ℕ))
        → HasSession studio engine.now events datagrams
        → slice_get studio.streams number ≡ Some stream.now
        → BreaksOff (W.contents writer.old) text.old (W.contents writer.new)
        (stream_counts_text studio.open_at events stream.now number)) }
{
    write_paths(text, writer, engine, number, stream)?;
    let Some(counts) = engine.counts(usize::from(number)) else {
        unreachable!()
    };
    write_merge_counts(text, writer, number, stream.paths(), &counts)?;
    Ok(())
}

/// Writes the lines of all streams' counts.
pub(crate) fn write_all_counts<W: Write>(
    text: &mut TextBuffer,
    writer: &mut W,
    engine: &Engine,
    streams: &[StreamSpec],
) -> Result<(), WriteFault>
    requires few { length streams.now ≤ 16 }
    requires all { length streams.now ≡ length engine.now.cursors }
    requires whole { HasAllMarks engine.now }
    ensures ok { OnOk result ((studio : Studio) (events : List TraceEvent) (datagrams : List (List ℕ))
        → HasSession studio engine.now events datagrams
        → studio.streams ≡ streams.now
        → PassesOn (W.contents writer.old) text.old (W.contents writer.new) text.new (counts_text_of studio events)) }
    ensures fault { OnErr result ((studio : Studio) (events : List TraceEvent) (datagrams : List (List ℕ))
        → HasSession studio engine.now events datagrams
        → studio.streams ≡ streams.now
        → BreaksOff (W.contents writer.old) text.old (W.contents writer.new) (counts_text_of studio events)) }
{
    for number in 0..streams.len() {
        write_stream_counts(text, writer, engine, number as u8, &streams[number])?;
    }
    Ok(())
}
