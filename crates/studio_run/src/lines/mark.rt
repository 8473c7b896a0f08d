//! The lines of a listing.
ghost use Rattle.std.specs.Prelude.{◌≡◌, ◌+◌, ◌≤◌, [], ◌++◌, length, option_copied, OnOk, OnErr};
ghost use Rattle.rtp_stream.specs.MarkRef.{body_from, kind_of, HasShortBody, IsShort};
ghost use Rattle.studio_run.specs.Buffer.{PassesOn, BreaksOff};
ghost use Rattle.studio_run.specs.Text.{number_text, body_text, mark_text, mark_line, next_line};

use crate::text_buffer::TextBuffer;
use crate::text_io::WriteFault;
use rtp_stream::{MarkKindRef, MarkRef};
use std::io::Write;

/// Writes the line of a stream's mark.
pub fn write_mark<W: Write>(
    text: &mut TextBuffer,
    writer: &mut W,
    stream: u8,
    mark: &MarkRef<'_>,
) -> Result<(), WriteFault>
    ensures ok { OnOk result (PassesOn (W.contents writer.old) text.old (W.contents writer.new) text.new
        (mark_line stream mark.now.kind)) }
    ensures fault { OnErr result (BreaksOff (W.contents writer.old) text.old (W.contents writer.new) []) }
{
    text.make_space(writer)?;
    push_line(text, stream, mark.kind());
    Ok(())
}

/// Writes the line of a stream's next mark, if there is one.
pub(crate) fn write_next<W: Write>(
    text: &mut TextBuffer,
    writer: &mut W,
    stream: u8,
    mark: Option<MarkRef<'_>>,
) -> Result<(), WriteFault>
    ensures ok { OnOk result (PassesOn (W.contents writer.old) text.old (W.contents writer.new) text.new
        (next_line stream mark.entry)) }
    ensures fault { OnErr result (BreaksOff (W.contents writer.old) text.old (W.contents writer.new) []) }
{
    match mark {
        Some(mark) => write_mark(text, writer, stream, &mark),
        None => Ok(()),
    }
}

/// Adds the line of a mark.
fn push_line(text: &mut TextBuffer, stream: u8, kind: MarkKindRef<'_>)
    requires space { length text.old + 4096 ≤ 65536 }
    requires short { HasShortBody (kind_of kind) }
    ensures { text.new ≡ text.old ++ mark_line stream (kind_of kind.entry) }
{
    text.push_number(stream);
    text.push(" ");
    push_mark(text, kind);
    text.push("\n");
}

/// Adds the fields of a mark.
fn push_mark(text: &mut TextBuffer, kind: MarkKindRef<'_>)
    requires space { length text.old + 4000 ≤ 65536 }
    requires short { HasShortBody (kind_of kind) }
    ensures text { text.new ≡ text.old ++ mark_text (kind_of kind.entry) }
    ensures few { length text.new ≤ length text.old + 4000 }
{
    match kind {
        MarkKindRef::Slot {
            epoch,
            number,
            media,
            payload,
        } => {
            text.push("slot ");
            push_extended(text, epoch, number);
            text.push(" ");
            text.push_number(media);
            text.push(" ");
            push_body(text, payload);
        }
        MarkKindRef::Quiet { until } => {
            text.push("quiet ");
            text.push_number(until);
        }
        MarkKindRef::End => text.push("end"),
    }
}

/// Adds an extended sequence number, after its epoch unless that is the first.
fn push_extended(text: &mut TextBuffer, epoch: u64, number: u64)
    requires { length text.old + 100 ≤ 65536 }
    ensures text { text.new ≡ text.old ++ number_text epoch number }
    ensures few { length text.new ≤ length text.old + 100 }
{
    if epoch != 0 {
        text.push_number(epoch);
        text.push(":");
    }
    text.push_number(number);
}

/// Adds the body of a slot.
fn push_body(text: &mut TextBuffer, payload: Option<&[u8]>)
    requires space { length text.old + 3000 ≤ 65536 }
    requires short { IsShort (body_from (option_copied payload)) }
    ensures text { text.new ≡ text.old ++ body_text (body_from (option_copied payload.entry)) }
    ensures few { length text.new ≤ length text.old + 3000 }
{
    match payload {
        Some(octets) => {
            text.push("got ");
            text.push_octets(octets);
        }
        None => text.push("lost"),
    }
}
