//! Texts of a table that name an encoding, the clock of a stream, or that of the output.
ghost use Rattle.std.specs.Prelude.{◌≡◌, None, Some, OnOk, IfOk, IfErr};
ghost use Rattle.toml.specs.View.{view, table_view};
ghost use Rattle.studio_config.specs.Values.{
  text_in,
  text_at,
  encoding_in,
  encoding_at,
  clock_named,
  output_clock_at,
  output_clock_in,
  with_offset,
};
ghost use Rattle.studio_config.specs.Rows.{
  required,
  optional,
  one_of,
  encodings,
  clocks,
  output_clocks,
  value_fault,
  row_fault,
};

use crate::config::fault::{ConfigTable, SpecError, SpecErrorKind};
use crate::config::keys::Key;
use crate::config::lookup::{get, require};
use crate::output_clock::OutputClock;
use rtp_stream::StreamClock;
use rtp_wire::Enc;
use toml::{Table, Value};

/// Returns the encoding at a required key: `L16` (RFC 3551, 4.5) or `L24` (RFC 3190, 4).
pub(crate) fn encoding(table: &Table, place: ConfigTable, key: Key) -> Result<Enc, SpecError>
    ensures ok { OnOk result (row_fault place (table_view table.now) (required key (one_of encodings)) ≡ None) }
    ensures encoding { IfOk result (λ enc. encoding_at (table_view table.now) key ≡ enc) }
    ensures fault { IfErr result
        (λ e. row_fault place (table_view table.now) (required key (one_of encodings)) ≡ Some e) }
{
    let value = require(table, place, key)?;
    match encoding_in(value) {
        Ok(enc) => Ok(enc),
        Err(kind) => Err(SpecError::at_key(place, key, kind)),
    }
}

/// Returns the encoding that a value names.
fn encoding_in(value: &Value) -> Result<Enc, SpecErrorKind>
    ensures ok { OnOk result (value_fault (one_of encodings) (view value.now) ≡ None) }
    ensures encoding { IfOk result (λ enc. encoding_in (view value.now) ≡ enc) }
    ensures fault { IfErr result (λ e. value_fault (one_of encodings) (view value.now) ≡ Some e) }
{
    let Some(text) = value.as_str() else {
        return Err(SpecErrorKind::WrongKind);
    };
    if text == "L16" {
        return Ok(Enc::L16);
    }
    if text == "L24" {
        return Ok(Enc::L24);
    }
    Err(SpecErrorKind::OutOfRange)
}

/// Returns the clock that the text at a required key names: `media`, `arrival` or `follow`. The media clock has the
/// offset 0.
pub(crate) fn clock(table: &Table, place: ConfigTable, key: Key) -> Result<StreamClock, SpecError>
    ensures ok { OnOk result (row_fault place (table_view table.now) (required key (one_of clocks)) ≡ None) }
    ensures clock { IfOk result (λ clock. clock_named (text_at (table_view table.now) key) ≡ clock) }
    ensures fault { IfErr result (λ e. row_fault place (table_view table.now) (required key (one_of clocks)) ≡ Some e) }
{
    let value = require(table, place, key)?;
    match clock_in(value) {
        Ok(clock) => Ok(clock),
        Err(kind) => Err(SpecError::at_key(place, key, kind)),
    }
}

/// Returns the clock that a value names.
fn clock_in(value: &Value) -> Result<StreamClock, SpecErrorKind>
    ensures ok { OnOk result (value_fault (one_of clocks) (view value.now) ≡ None) }
    ensures clock { IfOk result (λ clock. clock_named (text_in (view value.now)) ≡ clock) }
    ensures fault { IfErr result (λ e. value_fault (one_of clocks) (view value.now) ≡ Some e) }
{
    let Some(text) = value.as_str() else {
        return Err(SpecErrorKind::WrongKind);
    };
    if text == "media" {
        return Ok(StreamClock::Media { offset: 0 });
    }
    if text == "follow" {
        return Ok(StreamClock::Follow);
    }
    if text == "arrival" {
        return Ok(StreamClock::Arrival);
    }
    Err(SpecErrorKind::OutOfRange)
}

/// Returns the media clock with this offset, or another clock as it is.
pub(crate) fn with_offset(clock: StreamClock, offset: u32) -> StreamClock
    ensures { result ≡ with_offset clock offset }
{
    match clock {
        StreamClock::Media { .. } => StreamClock::Media { offset },
        StreamClock::Arrival => StreamClock::Arrival,
        StreamClock::Follow => StreamClock::Follow,
    }
}

/// Returns the clock of an output that the text at an optional key names: `run` or `media`. It is the clock of the run
/// without the key.
pub(crate) fn output_clock(
    table: &Table,
    place: ConfigTable,
    key: Key,
) -> Result<OutputClock, SpecError>
    ensures ok { OnOk result (row_fault place (table_view table.now) (optional key (one_of output_clocks)) ≡ None) }
    ensures clock { IfOk result (λ clock. output_clock_at (table_view table.now) key ≡ clock) }
    ensures fault { IfErr result
        (λ e. row_fault place (table_view table.now) (optional key (one_of output_clocks)) ≡ Some e) }
{
    let Some(value) = get(table, key) else {
        return Ok(OutputClock::Run);
    };
    match output_clock_in(value) {
        Ok(clock) => Ok(clock),
        Err(kind) => Err(SpecError::at_key(place, key, kind)),
    }
}

/// Returns the clock of an output that a value names.
fn output_clock_in(value: &Value) -> Result<OutputClock, SpecErrorKind>
    ensures ok { OnOk result (value_fault (one_of output_clocks) (view value.now) ≡ None) }
    ensures clock { IfOk result (λ clock. output_clock_in (view value.now) ≡ clock) }
    ensures fault { IfErr result (λ e. value_fault (one_of output_clocks) (view value.now) ≡ Some e) }
{
    let Some(text) = value.as_str() else {
        return Err(SpecErrorKind::WrongKind);
    };
    if text == "run" {
        return Ok(OutputClock::Run);
    }
    if text == "media" {
        return Ok(OutputClock::Media);
    }
    Err(SpecErrorKind::OutOfRange)
}
