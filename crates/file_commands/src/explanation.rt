//! The explanation of a configuration's fault, which `check` prints below the fault's line: where it is, what the
//! configuration has there, and what is allowed.
//!
//! `explanation/allowed.rt` says what each key may be, `explanation/config_lines.rt` finds the line of a key, and
//! `explanation/similar_key.rt` the key that a mistyped one resembles.
use crate::explanation::allowed::{allowed_at, is_known, whole_words};
use crate::explanation::config_lines::{key_line, table_line};
use crate::explanation::similar_key::{similar_key, similar_unknown};
use gain_mix::ScheduleFault;
use mix_packets::OutFault;
use rtp_stream::SpecFault;
use std::alloc::{AllocError, Global};
use studio_config::{ConfigTable, Key, SpecError, SpecErrorKind};
use toml::{Table, Value};

pub(crate) mod allowed;
mod config_lines;
mod similar_key;

/// The payloads that a packet may have, as text.
const PAYLOADS: &str =
    "packets of at most 1440 octets: channels times frames times 2 (L16) or 3 (L24)";

/// The greatest number of characters that are shown of a text in a configuration.
// A text may have as many octets as the whole configuration, a mebibyte.
const MAX_SHOWN: usize = 64;

/// Returns the explanation of a fault of the configuration in the file at `path`, whose text is `text` and whose table
/// is `table`: `PATH:LINE: KEY is VALUE; allowed are VALUES`. Returns `AllocError` if an allocation fails.
pub(crate) fn explain_fault(
    alloc: Global,
    path: &str,
    text: &str,
    table: &Table,
    error: &SpecError,
) -> Result<String, AllocError> {
    let place = error.place;
    let here = table_at(table, place);
    let Some(key) = error.key.or(key_of_rule(error.kind)) else {
        return explain_unknown(alloc, path, text, here, place);
    };
    if error.kind == SpecErrorKind::Missing {
        if let Some(name) = here.and_then(|table| similar_unknown(table, place, key)) {
            return explain_mistyped(alloc, path, text, place, key, name);
        }
    }
    let value = here.and_then(|table| table.get(key.name()));
    let mut said = place_in_file(alloc, path, key_line(text, place, key.name()))?;
    push_name(&mut said, alloc, place, key.name())?;
    push_value(&mut said, alloc, value)?;
    match here.and_then(|table| most_latency(error.kind, table)) {
        Some(most) => push_latencies(&mut said, alloc, most)?,
        None => push_allowed(&mut said, error.kind, place, key, value)?,
    }
    Ok(said)
}

/// Returns the explanation of a missing key that an unknown key of its table resembles.
fn explain_mistyped(
    alloc: Global,
    path: &str,
    text: &str,
    place: ConfigTable,
    key: Key,
    name: &str,
) -> Result<String, AllocError> {
    let mut said = place_in_file(alloc, path, key_line(text, place, name))?;
    push_name(&mut said, alloc, place, key.name())?;
    said.push_str(" is missing; ")?;
    push_text(&mut said, name)?;
    said.push_str(" resembles it")?;
    Ok(said)
}

/// Returns the explanation of a text that is not TOML: the place of the error, and TOML's own message.
pub(crate) fn explain_toml(
    alloc: Global,
    path: &str,
    text: &str,
    error: &toml::de::Error,
) -> Result<String, AllocError> {
    let start = match error.span() {
        Some(span) => span.start,
        None => 0,
    };
    let (line, column) = line_and_column(text.as_bytes(), start);
    let mut said = format!(in alloc; "{path}:{line}:{column}: ")?;
    push_text(&mut said, error.message())?;
    Ok(said)
}

/// Returns the line and the column, from 1, of the octet behind this many others. A column counts characters.
fn line_and_column(text: &[u8], start: usize) -> (usize, usize) {
    let (mut line, mut column) = (1usize, 1usize);
    for octet in text.iter().take(start) {
        if *octet == b'\n' {
            line = line.saturating_add(1);
            column = 1;
        } else if *octet & 0xC0 != 0x80 {
            // An octet that goes on a character of UTF-8 is no character more.
            column = column.saturating_add(1);
        }
    }
    (line, column)
}

/// Returns the explanation of a key that its table does not have.
fn explain_unknown(
    alloc: Global,
    path: &str,
    text: &str,
    table: Option<&Table>,
    place: ConfigTable,
) -> Result<String, AllocError> {
    let Some(name) = table.and_then(|table| unknown_in(table, place)) else {
        return place_in_file(alloc, path, table_line(text, place));
    };
    let mut said = place_in_file(alloc, path, key_line(text, place, name))?;
    push_name(&mut said, alloc, place, "")?;
    push_text(&mut said, name)?;
    said.push_str(" is no key of this table")?;
    if let Some(known) = table.and_then(|table| similar_key(table, place, name)) {
        said.push_str("; did you mean ")?;
        said.push_str(known)?;
        said.push_str("?")?;
    }
    Ok(said)
}

/// Returns the first key of a table, by name, that is none of those at its place.
fn unknown_in(table: &Table, place: ConfigTable) -> Option<&str> {
    for name in table.keys() {
        if !is_known(place, name.as_str()) {
            return Some(name.as_str());
        }
    }
    None
}

/// Returns the beginning of an explanation: the file and, if it is known, the line.
fn place_in_file(alloc: Global, path: &str, line: Option<usize>) -> Result<String, AllocError> {
    match line {
        Some(line) => format!(in alloc; "{path}:{line}: "),
        None => format!(in alloc; "{path}: "),
    }
}

/// Appends the name of a key with its table's before it, as `stream[0].frames`.
fn push_name(
    said: &mut String,
    alloc: Global,
    place: ConfigTable,
    key: &str,
) -> Result<(), AllocError> {
    if place != ConfigTable::Top {
        said.push_str(&format!(in alloc; "{place}.")?)?;
    }
    said.push_str(key)
}

/// Appends the value at a key, as a person reads it.
fn push_value(said: &mut String, alloc: Global, value: Option<&Value>) -> Result<(), AllocError> {
    match value {
        None => said.push_str(" is missing"),
        Some(Value::Integer(number)) => said.push_str(&format!(in alloc; " is {number}")?),
        Some(Value::String(text)) => {
            said.push_str(" is \"")?;
            push_text(said, text.as_str())?;
            said.push_str("\"")
        }
        Some(Value::Array(values)) => {
            let count = values.len();
            said.push_str(&format!(in alloc; " is an array of {count}")?)
        }
        Some(other) => {
            said.push_str(" is ")?;
            said.push_str(kind_of(other))
        }
    }
}

/// Returns the words for the kind of a value.
fn kind_of(value: &Value) -> &'static str {
    match value {
        Value::Boolean(_) => "true or false",
        Value::Float(_) => "a number with a fraction",
        Value::Datetime(_) => "a date or a time",
        Value::Table(_) => "a table",
        Value::Array(_) => "an array",
        Value::String(_) => "a text",
        Value::Integer(_) => "a number",
    }
}

/// Appends a text of the configuration, cut to `MAX_SHOWN` characters and with `?` in place of control characters.
fn push_text(said: &mut String, text: &str) -> Result<(), AllocError> {
    for (count, character) in text.chars().enumerate() {
        if count == MAX_SHOWN {
            return said.push_str("..");
        }
        said.push(if character.is_control() {
            '?'
        } else {
            character
        })?;
    }
    Ok(())
}

/// Appends the values that are allowed: by the rule that a fault breaks, or at its key. If the value has a fraction,
/// the text says that they are whole numbers.
fn push_allowed(
    said: &mut String,
    kind: SpecErrorKind,
    place: ConfigTable,
    key: Key,
    value: Option<&Value>,
) -> Result<(), AllocError> {
    let allowed = match kind {
        SpecErrorKind::Stream(SpecFault::TooLong) => Some(PAYLOADS),
        SpecErrorKind::Output(OutFault::TooLong) => Some(PAYLOADS),
        _ => allowed_at(place, key),
    };
    match allowed {
        Some(allowed) => {
            said.push_str("; allowed are ")?;
            if let Some(Value::Float(_)) = value {
                said.push_str(whole_words(key))?;
            }
            said.push_str(allowed)
        }
        None => Ok(()),
    }
}

/// Returns the greatest latency of the stream in a table by its window and packets, in sample periods, if a fault is
/// that its latency is greater.
fn most_latency(kind: SpecErrorKind, table: &Table) -> Option<i64> {
    if kind != SpecErrorKind::Stream(SpecFault::Latency) {
        return None;
    }
    let frames = table.get("frames")?.as_integer()?;
    let window = table.get("window")?.as_integer()?;
    Some(window.saturating_sub(2).saturating_mul(frames))
}

/// Appends the latencies that are allowed, up to the greatest one.
fn push_latencies(said: &mut String, alloc: Global, most: i64) -> Result<(), AllocError> {
    said.push_str(&format!(in alloc;
        "; allowed are 1 to {most} sample periods, that is (window - 2) * frames, "
    )?)?;
    said.push_str("so that the window holds the latency and two packets")
}

/// Returns the table at a place of a configuration, if there is one.
pub(crate) fn table_at(table: &Table, place: ConfigTable) -> Option<&Table> {
    match place {
        ConfigTable::Top => Some(table),
        ConfigTable::Stream(number) => table.get("stream")?.as_array()?.get(number)?.as_table(),
        ConfigTable::Output => table.get("output")?.as_table(),
        ConfigTable::Change(number) => {
            let output = table.get("output")?.as_table()?;
            output.get("change")?.as_array()?.get(number)?.as_table()
        }
    }
}

/// Returns the key whose value breaks a rule of a whole table, if the rule is about one key.
fn key_of_rule(kind: SpecErrorKind) -> Option<Key> {
    match kind {
        SpecErrorKind::Stream(fault) => Some(key_of_stream_rule(fault)),
        SpecErrorKind::Output(fault) => Some(key_of_output_rule(fault)),
        SpecErrorKind::Gains(_) => Some(Key::Gains),
        SpecErrorKind::Schedule(ScheduleFault::Time | ScheduleFault::Order) => Some(Key::Change),
        SpecErrorKind::Schedule(_) => Some(Key::Change),
        _ => None,
    }
}

/// Returns the key whose value breaks a rule of streams.
fn key_of_stream_rule(fault: SpecFault) -> Key {
    match fault {
        SpecFault::Channels => Key::Channels,
        // A payload is too long by its channels and its frames: the packet time is what one would change.
        SpecFault::Frames | SpecFault::TooLong => Key::Frames,
        SpecFault::PayloadType => Key::Pt,
        SpecFault::Window => Key::Window,
        SpecFault::Latency => Key::Latency,
        SpecFault::Paths => Key::Paths,
    }
}

/// Returns the key whose value breaks a rule of outputs.
fn key_of_output_rule(fault: OutFault) -> Key {
    match fault {
        OutFault::Channels => Key::Channels,
        OutFault::Frames | OutFault::TooLong => Key::Frames,
        OutFault::PayloadType => Key::Pt,
        OutFault::Start => Key::Start,
    }
}
