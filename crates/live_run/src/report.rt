//! The report of a live run.
ghost use Rattle.std.specs.Prelude.{◌≡◌, ◌≤◌, ◌<◌, length, OnOk, OnErr};
ghost use Rattle.studio_run.specs.Buffer.{BreaksOff, PassesOn};
ghost use Rattle.live_run.specs.Report.{
  feeds_text,
  own_feeds_text,
  paths_in,
  paths_text,
  report_text,
  stream_text,
  streams_in,
  streams_text,
};

use live_status::{SinkCounts, write_feed_faults, write_sink_counts};
use rtp_stream::{Path, PathCounts, StreamCounts};
use std::io::Write;
use studio_io::WorkReport;
use studio_run::{TextBuffer, WriteFault, write_merge_counts, write_path_counts};

/// Writes the report of a run: the counts of each stream in the lines of a played trace's report, the faults of each
/// feed, and the datagrams by the result at each address. Returns `WriteFault` if a write fails.
pub(crate) fn write_report<W: Write>(
    text: &mut TextBuffer,
    writer: &mut W,
    report: &WorkReport,
) -> Result<(), WriteFault>
    ensures ok { OnOk result (PassesOn (W.contents writer.old) text.old
        (W.contents writer.new) text.new (report_text report.now)) }
    ensures fault { OnErr result (BreaksOff (W.contents writer.old) text.old
        (W.contents writer.new) (report_text report.now)) }
{
    let streams = streams_in(report);
    write_streams(text, writer, streams)?;
    write_feeds(text, writer, streams, report.feed_faults.as_slice())?;
    let counts = SinkCounts {
        blocks: report.blocks,
        sent_a: report.sent_a,
        sent_b: report.sent_b,
        fault_a: report.fault_a,
        fault_b: report.fault_b,
    };
    write_sink_counts(text, writer, &counts)?;
    Ok(())
}

/// Returns the streams of a report, sixteen at most.
// A studio has no more. The bound says so to the proofs of what follows, where numbers have to fit eight bits.
fn streams_in(report: &WorkReport) -> &[StreamCounts]
    ensures value { result.now ≡ streams_in report.now }
    ensures few { length result.now ≤ 16 }
{
    &report.streams[..report.streams.len().min(16)]
}

/// Returns the counts of a stream's paths, four at most.
// A stream has no more. The bound says so to the proofs of what follows, where `Path::new` has to be `Some`.
fn paths_in(counts: &StreamCounts) -> &[PathCounts]
    ensures value { result.now ≡ paths_in counts.now }
    ensures few { length result.now ≤ 4 }
{
    &counts.paths[..counts.paths.len().min(4)]
}

/// Writes the lines of the counts of all streams.
fn write_streams<W: Write>(
    text: &mut TextBuffer,
    writer: &mut W,
    streams: &[StreamCounts],
) -> Result<(), WriteFault>
    requires few { length streams.now ≤ 16 }
    ensures ok { OnOk result (PassesOn (W.contents writer.old) text.old
        (W.contents writer.new) text.new (streams_text 0 streams.now)) }
    ensures fault { OnErr result (BreaksOff (W.contents writer.old) text.old
        (W.contents writer.new) (streams_text 0 streams.now)) }
{
    for number in 0..streams.len() {
        write_stream(text, writer, number as u8, &streams[number])?;
    }
    Ok(())
}

/// Writes the lines of a stream's paths, and of its merge.
fn write_stream<W: Write>(
    text: &mut TextBuffer,
    writer: &mut W,
    number: u8,
    counts: &StreamCounts,
) -> Result<(), WriteFault>
    ensures ok { OnOk result (PassesOn (W.contents writer.old) text.old
        (W.contents writer.new) text.new (stream_text number counts.now)) }
    ensures fault { OnErr result (BreaksOff (W.contents writer.old) text.old
        (W.contents writer.new) (stream_text number counts.now)) }
{
    let paths = paths_in(counts);
    write_paths(text, writer, number, paths)?;
    write_merge_counts(text, writer, number, paths.len() as u8, &counts.merge)?;
    Ok(())
}

/// Writes the lines of a stream's paths.
fn write_paths<W: Write>(
    text: &mut TextBuffer,
    writer: &mut W,
    number: u8,
    paths: &[PathCounts],
) -> Result<(), WriteFault>
    requires few { length paths.now ≤ 4 }
    ensures ok { OnOk result (PassesOn (W.contents writer.old) text.old
        (W.contents writer.new) text.new (paths_text number 0 paths.now)) }
    ensures fault { OnErr result (BreaksOff (W.contents writer.old) text.old
        (W.contents writer.new) (paths_text number 0 paths.now)) }
{
    for place in 0..paths.len() {
        let Some(path) = Path::new(place as u8) else {
            unreachable!()
        };
        write_path_counts(text, writer, number, path, &paths[place])?;
    }
    Ok(())
}

/// Writes the lines of the feeds of all streams.
fn write_feeds<W: Write>(
    text: &mut TextBuffer,
    writer: &mut W,
    streams: &[StreamCounts],
    faults: &[u64],
) -> Result<(), WriteFault>
    requires few { length streams.now ≤ 16 }
    ensures ok { OnOk result (PassesOn (W.contents writer.old) text.old
        (W.contents writer.new) text.new (feeds_text 0 streams.now faults.now)) }
    ensures fault { OnErr result (BreaksOff (W.contents writer.old) text.old
        (W.contents writer.new) (feeds_text 0 streams.now faults.now)) }
{
    // The faults of all paths are in one list, from which each stream takes as many as it has paths.
    let mut rest = faults;
    for number in 0..streams.len() {
        let count = paths_in(&streams[number]).len().min(rest.len());
        let (own, others) = rest.split_at(count);
        write_own_feeds(text, writer, number as u8, own)?;
        rest = others;
    }
    Ok(())
}

/// Writes the lines of a stream's feeds.
fn write_own_feeds<W: Write>(
    text: &mut TextBuffer,
    writer: &mut W,
    number: u8,
    faults: &[u64],
) -> Result<(), WriteFault>
    requires few { length faults.now ≤ 4 }
    ensures ok { OnOk result (PassesOn (W.contents writer.old) text.old
        (W.contents writer.new) text.new (own_feeds_text number 0 faults.now)) }
    ensures fault { OnErr result (BreaksOff (W.contents writer.old) text.old
        (W.contents writer.new) (own_feeds_text number 0 faults.now)) }
{
    for place in 0..faults.len() {
        let Some(path) = Path::new(place as u8) else {
            unreachable!()
        };
        write_feed_faults(text, writer, number, path, faults[place])?;
    }
    Ok(())
}
