//! The lines of a run's report.
ghost use Rattle.std.specs.Prelude.{◌≡◌, ◌+◌, ◌*◌, ◌≤◌, ◌<◌, ◌++◌, length, take, OnOk, OnErr};
ghost use Rattle.rtp_stream.specs.Counts.{tally_of};
ghost use Rattle.studio_run.specs.Buffer.{PassesOn, BreaksOff};
ghost use Rattle.rtp_stream.specs.PathCounts.{path_tally_of};
ghost use Rattle.studio_run.specs.Report.{
  datagram_line,
  pair_text,
  count_text,
  path_line,
  taken_text,
  fields_text,
  tally_text,
  merge_line,
};

use crate::text_buffer::TextBuffer;
use crate::text_io::WriteFault;
use rtp_stream::{COUNTS_AFTER_PATHS, COUNTS_BEFORE_PATHS, CountField, Counts, Path, PathCounts};
use std::io::Write;

/// Writes the line of a datagram of the output: an RTP header of 12 octets and a payload of at most 1,440.
pub fn write_datagram<W: Write>(
    text: &mut TextBuffer,
    writer: &mut W,
    datagram: &[u8],
) -> Result<(), WriteFault>
    requires short { length datagram.now ≤ 1452 }
    ensures ok { OnOk result (PassesOn (W.contents writer.old) text.old (W.contents writer.new) text.new
        (datagram_line datagram.now)) }
    ensures fault { OnErr result
        (BreaksOff (W.contents writer.old) text.old (W.contents writer.new) (datagram_line datagram.now)) }
{
    text.make_space(writer)?;
    text.push("out ");
    text.push_octets(datagram);
    text.push("\n");
    Ok(())
}

/// Writes the line of a path's counts.
pub fn write_path_counts<W: Write>(
    text: &mut TextBuffer,
    writer: &mut W,
    stream: u8,
    path: Path,
    counts: &PathCounts,
) -> Result<(), WriteFault>
    ensures ok { OnOk result (PassesOn (W.contents writer.old) text.old (W.contents writer.new) text.new
        (path_line stream path (path_tally_of counts.now))) }
    ensures fault { OnErr result (BreaksOff (W.contents writer.old) text.old (W.contents writer.new)
        (path_line stream path (path_tally_of counts.now))) }
{
    text.make_space(writer)?;
    push_path_line(text, stream, path, counts);
    Ok(())
}

/// Writes the line of a merge's counts. Its stream has `paths` paths.
pub fn write_merge_counts<W: Write>(
    text: &mut TextBuffer,
    writer: &mut W,
    stream: u8,
    paths: u8,
    counts: &Counts,
) -> Result<(), WriteFault>
    ensures ok { OnOk result (PassesOn (W.contents writer.old) text.old (W.contents writer.new) text.new
        (merge_line stream paths (tally_of counts.now))) }
    ensures fault { OnErr result (BreaksOff (W.contents writer.old) text.old (W.contents writer.new)
        (merge_line stream paths (tally_of counts.now))) }
{
    text.make_space(writer)?;
    push_merge_line(text, stream, paths, counts);
    Ok(())
}

/// Adds the line of a path's counts.
fn push_path_line(text: &mut TextBuffer, stream: u8, path: Path, counts: &PathCounts)
    requires { length text.old + 4096 ≤ 65536 }
    ensures { text.new ≡ text.old ++ path_line stream path (path_tally_of counts.now) }
{
    text.push("path ");
    text.push_number(stream);
    text.push(" ");
    text.push(path.letter());
    push_count(text, "offered", counts.offered);
    push_count(text, "sent", counts.sent);
    push_count(text, "bad", counts.bad);
    push_count(text, "type", counts.wrong_type);
    push_count(text, "length", counts.wrong_length);
    push_count(text, "full", counts.full);
    text.push("\n");
}

/// Adds the line of a merge's counts.
fn push_merge_line(text: &mut TextBuffer, stream: u8, paths: u8, counts: &Counts)
    requires { length text.old + 4096 ≤ 65536 }
    ensures { text.new ≡ text.old ++ merge_line stream paths (tally_of counts.now) }
{
    text.push("merge ");
    text.push_number(stream);
    push_tally(text, " ", paths, counts);
    text.push("\n");
}

/// Adds the counts of a merge whose stream has `paths` paths. Each number comes after its word and the one character
/// of `between`. The caller has made space for them.
pub fn push_tally(text: &mut TextBuffer, between: &str, paths: u8, counts: &Counts)
    requires one { length between.now ≡ 1 }
    requires space { length text.old + 900 ≤ 65536 }
    ensures text { text.new ≡ text.old ++ tally_text between.now paths (tally_of counts.now) }
    ensures few { length text.new ≤ length text.old + 900 }
{
    push_fields(text, between, &COUNTS_BEFORE_PATHS, counts);
    push_taken(text, between, taken_from(paths, counts));
    push_fields(text, between, &COUNTS_AFTER_PATHS, counts);
}

/// Adds these counts, each after its word.
#[tactic(auto, unfolding(crate::specs::Report::fields_text))]
fn push_fields(text: &mut TextBuffer, between: &str, fields: &[CountField], counts: &Counts)
    requires one { length between.now ≡ 1 }
    requires space { length text.old + 54 * length fields.now ≤ 65536 }
    ensures text { text.new ≡ text.old ++ fields_text between.now fields.now (tally_of counts.now) }
    ensures few { length text.new ≤ length text.old + 54 * length fields.now }
{
    for field in fields {
        push_field(text, between, field.word(), field.of(counts));
    }
}

/// Returns the number of packets that were taken from each of the first `paths` paths.
fn taken_from(paths: u8, counts: &Counts) -> &[u64]
    ensures value { result.now ≡ take paths counts.now.taken_by }
    ensures few { length result.now ≤ 4 }
{
    // `taken_by` has 4 places, and `paths` may be any number.
    &counts.taken_by[..usize::from(paths).min(4)]
}

/// Adds the number of packets that were taken from each path.
fn push_taken(text: &mut TextBuffer, between: &str, taken_by: &[u64])
    requires one { length between.now ≡ 1 }
    requires few_paths { length taken_by.now ≤ 4 }
    requires space { length text.old + 200 ≤ 65536 }
    ensures text { text.new ≡ text.old ++ taken_text between.now 0 taken_by.now }
    ensures few { length text.new ≤ length text.old + 200 }
{
    for (path, number) in taken_by.iter().enumerate() {
        // Never none: there are at most four paths.
        let Some(path) = Path::new(path as u8) else {
            return;
        };
        text.push(" from_");
        text.push(path.letter());
        text.push(between);
        text.push_number(*number);
    }
}

/// Adds a number after a word and a space. The caller has made space for them.
pub fn push_count(text: &mut TextBuffer, word: &str, number: u64)
    requires { length text.old + length word.now + 42 ≤ 65536 }
    ensures text { text.new ≡ text.old ++ count_text word.now number }
    ensures few { length text.new ≤ length text.old + length word.now + 42 }
{
    push_field(text, " ", word, number);
}

/// Adds a number after a word and the one character of `between`.
fn push_field(text: &mut TextBuffer, between: &str, word: &str, number: u64)
    requires one { length between.now ≡ 1 }
    requires space { length text.old + length word.now + 42 ≤ 65536 }
    ensures text { text.new ≡ text.old ++ pair_text between.now word.now number }
    ensures few { length text.new ≤ length text.old + length word.now + 42 }
{
    text.push(" ");
    text.push(word);
    text.push(between);
    text.push_number(number);
}
