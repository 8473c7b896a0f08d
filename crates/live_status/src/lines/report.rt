//! The lines that only the report of a live run has.
ghost use Rattle.std.specs.Prelude.{◌≡◌, ◌+◌, ◌≤◌, ◌++◌, length, OnOk, OnErr};
ghost use Rattle.studio_run.specs.Buffer.{PassesOn, BreaksOff};
ghost use Rattle.live_status.specs.Lines.{feed_line, sink_line};

use rtp_stream::Path;
use std::io::Write;
use studio_run::{TextBuffer, WriteFault, push_count};

/// The counts of a sink: the datagrams of the output, and how many were sent to each of its two addresses.
#[derive(Clone, Copy, PartialEq, Eq)]
pub struct SinkCounts {
    /// The number of datagrams of the output.
    pub blocks: u64,
    /// The number of datagrams that were sent to the first address.
    pub sent_a: u64,
    /// The number of datagrams that were sent to the second address.
    pub sent_b: u64,
    /// The number of datagrams that were not sent to the first address.
    pub fault_a: u64,
    /// The number of datagrams that were not sent to the second address.
    pub fault_b: u64,
}

/// Writes the line of a path's feed: the number of its failures.
pub fn write_feed_faults<W: Write>(
    text: &mut TextBuffer,
    writer: &mut W,
    stream: u8,
    path: Path,
    faults: u64,
) -> Result<(), WriteFault>
    ensures ok { OnOk result (PassesOn (W.contents writer.old) text.old (W.contents writer.new) text.new
        (feed_line stream path faults)) }
    ensures fault { OnErr result
        (BreaksOff (W.contents writer.old) text.old (W.contents writer.new) (feed_line stream path faults)) }
{
    text.make_space(writer)?;
    push_feed_line(text, stream, path, faults);
    Ok(())
}

/// Writes the line of a sink.
pub fn write_sink_counts<W: Write>(
    text: &mut TextBuffer,
    writer: &mut W,
    counts: &SinkCounts,
) -> Result<(), WriteFault>
    ensures ok { OnOk result (PassesOn (W.contents writer.old) text.old (W.contents writer.new) text.new
        (sink_line counts.now)) }
    ensures fault { OnErr result
        (BreaksOff (W.contents writer.old) text.old (W.contents writer.new) (sink_line counts.now)) }
{
    text.make_space(writer)?;
    push_sink_line(text, counts);
    Ok(())
}

/// Adds the line of a feed.
fn push_feed_line(text: &mut TextBuffer, stream: u8, path: Path, faults: u64)
    requires { length text.old + 4096 ≤ 65536 }
    ensures { text.new ≡ text.old ++ feed_line stream path faults }
{
    text.push("feed ");
    text.push_number(stream);
    text.push(" ");
    text.push(path.letter());
    push_count(text, "faults", faults);
    text.push("\n");
}

/// Adds the line of a sink.
fn push_sink_line(text: &mut TextBuffer, counts: &SinkCounts)
    requires { length text.old + 4096 ≤ 65536 }
    ensures { text.new ≡ text.old ++ sink_line counts.now }
{
    text.push("sink");
    push_count(text, "blocks", counts.blocks);
    push_count(text, "sent_a", counts.sent_a);
    push_count(text, "sent_b", counts.sent_b);
    push_count(text, "fault_a", counts.fault_a);
    push_count(text, "fault_b", counts.fault_b);
    text.push("\n");
}
