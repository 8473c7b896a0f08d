//! A trace that an engine takes event by event, and the report of it, in the form of `play`.
use anyhow::{anyhow, bail};
use mix_packets::MAX_OUTPUT_OCTETS;
use rtp_stream::{Path, StreamSpec};
use std::alloc::Global;
use std::env::Args;
use std::fs;
use std::io::Write;
use studio_config::StudioSpec;
use studio_engine::Engine;
use studio_run::{
    TextBuffer, read_octets, read_trace, write_datagram, write_merge_counts, write_path_counts,
};
use studio_session::StudioEvent;

/// The lines of a report that are not written yet, and their writer.
#[derive(Drop)]
struct Lines<'a, W: Write> {
    text: TextBuffer,
    output: &'a mut W,
}

/// Plays the trace on standard input by the configuration at the path that the next word is. Stops at the first event
/// that has a fault, after the datagrams before it.
pub fn play_trace(rt: &HostRuntime, words: &mut Args) -> anyhow::Result<()> {
    let Some(path) = words.next() else {
        bail!("engine: which configuration");
    };
    let spec = studio_at(rt, path.as_str())?;
    let events = trace_of(rt)?;
    play(rt, &spec, events.as_slice())
}

/// Returns the studio of the configuration at a path.
pub(crate) fn studio_at(rt: &HostRuntime, path: &str) -> anyhow::Result<StudioSpec> {
    let config = read_octets(rt.alloc(), &mut fs::open(rt, path)?)?;
    studio_of(rt.alloc(), config.as_slice())
}

/// Returns the studio of a configuration's octets.
fn studio_of(alloc: Global, octets: &[u8]) -> anyhow::Result<StudioSpec> {
    let text = str::from_utf8(octets)?;
    let Ok(table) = toml::table_from_str(alloc, text) else {
        bail!("config: not TOML");
    };
    StudioSpec::from_table(alloc, &table).map_err(|error| anyhow!("config {error}"))
}

/// Returns the events of the trace on standard input.
fn trace_of(rt: &HostRuntime) -> anyhow::Result<Vec<StudioEvent>> {
    let trace = read_octets(rt.alloc(), &mut rt.stdin())?;
    Ok(read_trace(rt.alloc(), trace.as_slice())?)
}

/// Passes the events to an engine, and writes its datagrams and its counts.
fn play(rt: &HostRuntime, spec: &StudioSpec, events: &[StudioEvent]) -> anyhow::Result<()> {
    let mut engine = Engine::new(rt.alloc(), spec)?;
    play_by(rt, &mut engine, spec, events)
}

/// Passes the events to an engine as `play` does.
// The engine is borrowed: an engine that is held is followed through each `?`.
fn play_by(
    rt: &HostRuntime,
    engine: &mut Engine,
    spec: &StudioSpec,
    events: &[StudioEvent],
) -> anyhow::Result<()> {
    let mut lines = Lines {
        text: TextBuffer::new(rt.alloc())?,
        output: &mut rt.stdout(),
    };
    take_events(engine, events, &mut lines)?;
    write_counts(engine, spec, &mut lines)?;
    finish(&mut lines)
}

/// Passes all events to an engine, and writes the datagrams that it returns.
fn take_events<W: Write>(
    engine: &mut Engine,
    events: &[StudioEvent],
    lines: &mut Lines<'_, W>,
) -> anyhow::Result<()> {
    for event in events {
        take_event(engine, event, lines)?;
    }
    Ok(())
}

/// Passes an event to an engine, and writes the datagrams that it returns.
fn take_event<W: Write>(
    engine: &mut Engine,
    event: &StudioEvent,
    lines: &mut Lines<'_, W>,
) -> anyhow::Result<()> {
    match event {
        StudioEvent::Arrive {
            stream,
            path,
            octets,
        } => {
            engine.arrive(usize::from(*stream), *path, octets.as_slice())?;
        }
        StudioEvent::Tick(now) => write_all(engine, Some(*now), lines)?,
        StudioEvent::Close => {
            engine.close()?;
            write_all(engine, None, lines)?;
        }
    }
    Ok(())
}

/// Writes the datagrams of a turn to a clock reading, or, without one, those of a drain.
fn write_all<W: Write>(
    engine: &mut Engine,
    now: Option<i64>,
    lines: &mut Lines<'_, W>,
) -> anyhow::Result<()> {
    // The range bounds the loop. The engine has no further datagram long before.
    for _ in 0..u64::MAX {
        if !write_next(engine, now, lines)? {
            break;
        }
    }
    Ok(())
}

/// Writes the next datagram. Returns false if there is none.
fn write_next<W: Write>(
    engine: &mut Engine,
    now: Option<i64>,
    lines: &mut Lines<'_, W>,
) -> anyhow::Result<bool> {
    let mut out = [0; MAX_OUTPUT_OCTETS];
    // Called for its clause: a datagram has at most `MAX_OUTPUT_OCTETS` octets, so `out` has space.
    let _short = engine.output().datagram_len();
    let given = match now {
        Some(now) => engine.turn(now, &mut out)?,
        None => engine.drain(&mut out),
    };
    let Some(len) = given else {
        return Ok(false);
    };
    write_datagram(&mut lines.text, lines.output, &out[..len])?;
    Ok(true)
}

/// Writes the lines of each stream's counts.
fn write_counts<W: Write>(
    engine: &Engine,
    spec: &StudioSpec,
    lines: &mut Lines<'_, W>,
) -> anyhow::Result<()> {
    for (number, stream) in (0..u8::MAX).zip(spec.streams()) {
        write_stream(engine, number, stream, lines)?;
    }
    Ok(())
}

/// Writes the lines of a stream's counts.
fn write_stream<W: Write>(
    engine: &Engine,
    number: u8,
    stream: &StreamSpec,
    lines: &mut Lines<'_, W>,
) -> anyhow::Result<()> {
    let place = usize::from(number);
    for path in (0..stream.paths()).flat_map(Path::new) {
        if let Some(counts) = engine.path_counts(place, path) {
            write_path_counts(&mut lines.text, lines.output, number, path, &counts)?;
        }
    }
    if let Some(counts) = engine.counts(place) {
        let paths = stream.paths();
        write_merge_counts(&mut lines.text, lines.output, number, paths, &counts)?;
    }
    Ok(())
}

/// Writes the lines that are left.
fn finish<W: Write>(lines: &mut Lines<'_, W>) -> anyhow::Result<()> {
    lines.text.finish(lines.output)?;
    Ok(())
}
