//! One line of a trace.
ghost use Rattle.std.specs.Prelude.{◌≡◌, ◌+◌, ◌<◌, ◌≤◌, [], ◌∷◌, length, Ok, IfOk, OnOk, IfErr, IfSome, Some, None};
ghost use Rattle.studio_run.specs.Fields.{fields_after};
ghost use Rattle.studio_run.specs.Trace.{line_said, fields_said, path_of, tick_of, arrival_of, close_of};
ghost use Rattle.studio_run.specs.LineEvent.{event_of, line_event_of, said_in, IsLast, IsLastIn};
ghost use Rattle.studio_run.specs.Lines.{line_length, first_line, after_line, line_fault};

use crate::text_field::{decimal_number, first_place, split_field};
use crate::trace::digits::spells_octets;
use crate::trace::fault::TraceFaultKind;
use rtp_stream::Path;

/// The greatest length of a line in octets, without its line feed.
const MAX_LINE_OCTETS: usize = 4096;

/// The greatest time: the greatest `i64`.
const MAX_CLOCK_READING: u64 = 9_223_372_036_854_775_807;

/// The greatest number of a stream: a studio has at most 16.
const MAX_STREAM_NUMBER: u64 = 15;

/// The event of a line. The digits of a datagram are at the line's end, two for each octet.
#[derive(Clone, Copy)]
pub(crate) enum LineEvent<'a> {
    Arrive {
        stream: u8,
        path: Path,
        digits: &'a [u8],
    },
    Tick(i64),
    Close,
}

/// Returns the first line of a text, without its line feed, and the text after it.
pub(crate) fn split_line(text: &[u8]) -> Result<(&[u8], &[u8]), TraceFaultKind>
    ensures line { IfOk result (λ parts. parts.0.now ≡ first_line text.now) }
    ensures rest { IfOk result (λ parts. parts.1.now ≡ after_line text.now) }
    ensures whole { OnOk result (line_length text.now < length text.now) }
    ensures fault { IfErr result (λ e. line_fault text.now ≡ Some e) }
    ensures fine { OnOk result (line_fault text.now ≡ None) }
    ensures short { IfOk result (λ parts. length parts.0.now ≤ 4096) }
{
    // Only so much is searched, so that a long text without a line feed is refused at once.
    let searched = text.len().min(MAX_LINE_OCTETS + 1);
    match first_place(&text[..searched], b'\n') {
        Some(end) => Ok((&text[..end], &text[end + 1..])),
        None if text.len() > MAX_LINE_OCTETS => Err(TraceFaultKind::TooLong),
        None => Err(TraceFaultKind::Cut),
    }
}

/// Returns the event of a line, or `None` if it is empty or a comment.
pub(crate) fn read_event(line: &[u8]) -> Result<Option<LineEvent<'_>>, TraceFaultKind>
    ensures said { line_said line.now ≡ line_event_of result }
    ensures last { IfOk result (λ event. IfSome event (IsLast line.now)) }
{
    // Almost all lines have the common form, which is tested without looking for spaces.
    match read_common_arrival(line) {
        Some(event) => Ok(Some(event)),
        None => read_any(line),
    }
}

/// Returns the arrival of a line in the common form: a letter, one digit for the stream, and a datagram without
/// fault. `None` for any other line.
fn read_common_arrival(line: &[u8]) -> Option<LineEvent<'_>>
    ensures said { IfSome result (λ event. line_said line.now ≡ Ok (Some (said_in event))) }
    ensures last { IfSome result (IsLast line.now) }
{
    let (letter, digit, digits) = common_fields(line)?;
    let path = path_by(letter)?;
    let stream = digit_value(digit)?;
    if !spells_octets(digits) {
        return None;
    }
    Some(LineEvent::Arrive {
        stream,
        path,
        digits,
    })
}

/// Returns the parts of a line that begins with an octet, a space, an octet and a space: the two octets, and the
/// rest.
fn common_fields(line: &[u8]) -> Option<(u8, u8, &[u8])>
    ensures { IfSome result (λ parts. line.now ≡ parts.0 ∷ 32 ∷ parts.1 ∷ 32 ∷ parts.2.now) }
{
    match line {
        [letter, b' ', digit, b' ', digits @ ..] => Some((*letter, *digit, digits)),
        _ => None,
    }
}

/// Returns the value of a decimal digit.
fn digit_value(octet: u8) -> Option<u8>
    ensures digit { IfSome result (λ value. octet ≡ 48 + value) }
    ensures small { IfSome result (λ value. value < 10) }
{
    if octet < b'0' || octet > b'9' {
        return None;
    }
    Some(octet - b'0')
}

/// Returns the event of any line, or `None` if it is empty or a comment.
fn read_any(line: &[u8]) -> Result<Option<LineEvent<'_>>, TraceFaultKind>
    ensures said { line_said line.now ≡ line_event_of result }
    ensures last { IfOk result (λ event. IfSome event (IsLast line.now)) }
{
    if line.is_empty() || line[0] == b'#' {
        return Ok(None);
    }
    let (word, rest) = split_field(line);
    match read_fields(word, rest) {
        Ok(event) => Ok(Some(event)),
        Err(kind) => Err(kind),
    }
}

/// Returns the event that a word and the fields after it specify.
fn read_fields<'a>(word: &[u8], rest: Option<&'a [u8]>) -> Result<LineEvent<'a>, TraceFaultKind>
    ensures said { fields_said (word.now ∷ fields_after rest.entry) ≡ event_of result }
    ensures last { IfOk result (IsLastIn rest.entry) }
{
    if word == b"tick".as_slice() {
        return read_tick(rest);
    }
    if word == b"close".as_slice() {
        return read_close(rest);
    }
    match path_of(word) {
        Some(path) => read_arrival(path, rest),
        None => Err(TraceFaultKind::Word),
    }
}

/// Returns the path that a word of the trace names.
fn path_of(word: &[u8]) -> Option<Path>
    ensures { result ≡ path_of word.now }
{
    if word.len() != 1 {
        return None;
    }
    path_by(word[0])
}

/// Returns the path that a letter names.
fn path_by(letter: u8) -> Option<Path>
    ensures { result ≡ path_of (letter ∷ []) }
{
    if letter < b'a' || letter > b'd' {
        return None;
    }
    Path::new(letter - b'a')
}

/// Reads the field after the word `tick`: a time in sampling instants.
fn read_tick<'a>(rest: Option<&'a [u8]>) -> Result<LineEvent<'a>, TraceFaultKind>
    ensures said { tick_of (fields_after rest.entry) ≡ event_of result }
    ensures last { IfOk result (IsLastIn rest.entry) }
{
    let Some(text) = rest else {
        return Err(TraceFaultKind::Fields);
    };
    let (time, more) = split_field(text);
    if more.is_some() {
        return Err(TraceFaultKind::Fields);
    }
    match decimal_number(time, MAX_CLOCK_READING) {
        Some(time) => Ok(LineEvent::Tick(time as i64)),
        None => Err(TraceFaultKind::Number),
    }
}

/// Reads the fields after the word of a path: a stream and a datagram.
fn read_arrival<'a>(path: Path, rest: Option<&'a [u8]>) -> Result<LineEvent<'a>, TraceFaultKind>
    ensures said { arrival_of path (fields_after rest.entry) ≡ event_of result }
    ensures last { IfOk result (IsLastIn rest.entry) }
{
    let Some(text) = rest else {
        return Err(TraceFaultKind::Fields);
    };
    let (stream, more) = split_field(text);
    let Some(after) = more else {
        return Err(TraceFaultKind::Fields);
    };
    let (digits, last) = split_field(after);
    if last.is_some() {
        return Err(TraceFaultKind::Fields);
    }
    // The number of fields is tested first, then each field: the order of `TraceFaultKind`.
    let Some(stream) = decimal_number(stream, MAX_STREAM_NUMBER) else {
        return Err(TraceFaultKind::Number);
    };
    if !spells_octets(digits) {
        return Err(TraceFaultKind::Hex);
    }
    Ok(LineEvent::Arrive {
        stream: stream as u8,
        path,
        digits,
    })
}

/// Reads the fields after the word `close`: there are none.
fn read_close<'a>(rest: Option<&'a [u8]>) -> Result<LineEvent<'a>, TraceFaultKind>
    ensures said { close_of (fields_after rest.entry) ≡ event_of result }
    ensures last { IfOk result (IsLastIn rest.entry) }
{
    match rest {
        None => Ok(LineEvent::Close),
        Some(_) => Err(TraceFaultKind::Fields),
    }
}
