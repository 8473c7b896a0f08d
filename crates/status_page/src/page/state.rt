//! The response's body at `/state`: the snapshot as JSON.
ghost use Rattle.std.specs.Prelude.{◌≡◌, [], ◌∷◌, ◌++◌, OnOk, IfOk, codes};
ghost use Rattle.json.specs.Lex.{tokens};
ghost use Rattle.json.specs.Print.{print};
ghost use Rattle.status_page.specs.State.{
  array_tokens,
  condition_token,
  known_token,
  last_members,
  name_token,
  path_members,
  shown_token,
  stream_member,
  stream_members,
  output_members,
  path_tokens,
  paths_tokens,
  front_tokens,
  stream_tokens,
  streams_tokens,
  output_tokens,
  outputs_tokens,
  failed_tokens,
  stale_tokens,
  incomplete_tokens,
  count_member,
  left_out_members,
  output_count_members,
  run_output_members,
  run_output_tokens,
  run_outputs_tokens,
  state_member,
  state_tokens,
};

use crate::fields::Number;
use crate::fields::output::{OUTPUT_FIELDS, OutputField};
use crate::fields::path::{PATH_FIELDS, PathField};
use crate::fields::stream::StreamField;
use crate::snapshot::{ChannelState, PathCondition, PathState, Snapshot, StreamName, StreamState};
use json::Writer;
use rtp_stream::{COUNT_FIELDS, CountField};
use std::alloc::{AllocError, Global};
use studio_io::{OUTPUT_KINDS, OutputKind, OutputState, OutputStates};

/// Returns a snapshot as JSON (RFC 8259), or `AllocError` if an allocation fails.
#[tactic(auto, unfolding(crate::specs::State::state_tokens))]
pub fn state_json(alloc: Global, snapshot: &Snapshot) -> Result<Vec<u8>, AllocError>
    ensures text { IfOk result (λ text. text.items ≡ print (state_tokens snapshot.now)) }
    ensures reads_back { IfOk result (λ text. tokens text.items ≡ state_tokens snapshot.now) }
{
    let mut writer = Writer::new(Vec::new(alloc));
    writer.begin_object()?;
    write_streams(&mut writer, snapshot.streams.as_slice())?;
    write_outputs(&mut writer, snapshot.outputs.as_slice())?;
    write_failed_sends(&mut writer, snapshot.failed_sends)?;
    write_stale(&mut writer, snapshot.stale)?;
    write_incomplete(
        &mut writer,
        snapshot.incomplete,
        snapshot.sent_late,
        snapshot.left_out,
    )?;
    write_run_outputs(&mut writer, &OUTPUT_KINDS, &snapshot.run_outputs)?;
    writer.end_object()?;
    Ok(writer.into_inner())
}

/// Writes the member with the streams.
fn write_streams(writer: &mut Writer, streams: &[StreamState]) -> Result<(), AllocError>
    ensures tokens { OnOk result (writer.new.tokens
        ≡ writer.old.tokens ++ array_tokens (codes "streams") (streams_tokens streams.now)) }
    ensures before { OnOk result (writer.new.before ≡ writer.old.before) }
{
    writer.key("streams")?;
    writer.begin_array()?;
    write_each_stream(writer, streams)?;
    writer.end_array()
}

/// Writes the streams one after another.
#[tactic(auto, unfolding(crate::specs::State::streams_tokens))]
fn write_each_stream(writer: &mut Writer, streams: &[StreamState]) -> Result<(), AllocError>
    ensures tokens { OnOk result (writer.new.tokens ≡ writer.old.tokens ++ streams_tokens streams.now) }
    ensures before { OnOk result (writer.new.before ≡ writer.old.before) }
{
    for stream in streams {
        write_stream(writer, stream)?;
    }
    Ok(())
}

/// Writes a stream.
fn write_stream(writer: &mut Writer, stream: &StreamState) -> Result<(), AllocError>
    ensures tokens { OnOk result (writer.new.tokens ≡ writer.old.tokens ++ stream_tokens stream.now) }
    ensures before { OnOk result (writer.new.before ≡ writer.old.before) }
{
    write_front(writer, stream)?;
    write_stream_members(writer, &COUNT_FIELDS, stream)?;
    write_paths(writer, stream.paths.as_slice())?;
    writer.end_object()
}

/// Writes the start of a stream: its name and condition.
fn write_front(writer: &mut Writer, stream: &StreamState) -> Result<(), AllocError>
    ensures tokens { OnOk result (writer.new.tokens ≡ writer.old.tokens ++ front_tokens stream.now) }
    ensures before { OnOk result (writer.new.before ≡ writer.old.before) }
{
    writer.begin_object()?;
    writer.key("name")?;
    write_name(writer, &stream.name)?;
    writer.key("state")?;
    writer.string(stream.condition.text())
}

/// Writes a name, or null if there is none.
fn write_name(writer: &mut Writer, name: &Option<StreamName>) -> Result<(), AllocError>
    ensures tokens { OnOk result (writer.new.tokens ≡ writer.old.tokens ++ name_token name.now ∷ []) }
    ensures before { OnOk result (writer.new.before ≡ writer.old.before) }
{
    match name {
        Some(name) => writer.string(name.as_str()),
        None => writer.null(),
    }
}

/// Writes the numbers of a stream: these counts, the latency, the time that is left, and the redundancy.
#[tactic(auto, unfolding(crate::specs::State::stream_members))]
fn write_stream_members(
    writer: &mut Writer,
    counts: &[CountField],
    stream: &StreamState,
) -> Result<(), AllocError>
    ensures tokens { OnOk result (writer.new.tokens ≡ writer.old.tokens ++ stream_members counts.now stream.now) }
    ensures before { OnOk result (writer.new.before ≡ writer.old.before) }
{
    for count in counts {
        write_stream_member(writer, StreamField::Count(*count), stream)?;
    }
    write_last_members(writer, stream)
}

/// Writes the latency of a stream, the time that is left, and the redundancy.
fn write_last_members(writer: &mut Writer, stream: &StreamState) -> Result<(), AllocError>
    ensures tokens { OnOk result (writer.new.tokens ≡ writer.old.tokens ++ last_members stream.now) }
    ensures before { OnOk result (writer.new.before ≡ writer.old.before) }
{
    write_stream_member(writer, StreamField::Latency, stream)?;
    write_stream_member(writer, StreamField::SecondsLeft, stream)?;
    write_stream_member(writer, StreamField::Redundancy, stream)
}

/// Writes a number of a stream.
fn write_stream_member(
    writer: &mut Writer,
    field: StreamField,
    stream: &StreamState,
) -> Result<(), AllocError>
    ensures tokens { OnOk result (writer.new.tokens ≡ writer.old.tokens ++ stream_member field stream.now) }
    ensures before { OnOk result (writer.new.before ≡ writer.old.before) }
{
    writer.key(field.key())?;
    write_known(writer, field.value(stream))
}

/// Writes the member with the paths of a stream.
fn write_paths(writer: &mut Writer, paths: &[PathState]) -> Result<(), AllocError>
    ensures tokens { OnOk result (writer.new.tokens
        ≡ writer.old.tokens ++ array_tokens (codes "paths") (paths_tokens paths.now)) }
    ensures before { OnOk result (writer.new.before ≡ writer.old.before) }
{
    writer.key("paths")?;
    writer.begin_array()?;
    write_each_path(writer, paths)?;
    writer.end_array()
}

/// Writes the paths one after another.
#[tactic(auto, unfolding(crate::specs::State::paths_tokens))]
fn write_each_path(writer: &mut Writer, paths: &[PathState]) -> Result<(), AllocError>
    ensures tokens { OnOk result (writer.new.tokens ≡ writer.old.tokens ++ paths_tokens paths.now) }
    ensures before { OnOk result (writer.new.before ≡ writer.old.before) }
{
    for path in paths {
        write_path(writer, path)?;
    }
    Ok(())
}

/// Writes a path: its condition and its numbers.
fn write_path(writer: &mut Writer, path: &PathState) -> Result<(), AllocError>
    ensures tokens { OnOk result (writer.new.tokens ≡ writer.old.tokens ++ path_tokens path.now) }
    ensures before { OnOk result (writer.new.before ≡ writer.old.before) }
{
    writer.begin_object()?;
    writer.key("state")?;
    write_condition(writer, path.condition)?;
    write_path_members(writer, &PATH_FIELDS, path)?;
    writer.end_object()
}

/// Writes the name of a path's condition, or null if it is not known.
fn write_condition(writer: &mut Writer, condition: Option<PathCondition>) -> Result<(), AllocError>
    ensures tokens { OnOk result (writer.new.tokens ≡ writer.old.tokens ++ condition_token condition ∷ []) }
    ensures before { OnOk result (writer.new.before ≡ writer.old.before) }
{
    match condition {
        Some(condition) => writer.string(condition.text()),
        None => writer.null(),
    }
}

/// Writes the numbers of a path.
#[tactic(auto, unfolding(crate::specs::State::path_members))]
fn write_path_members(
    writer: &mut Writer,
    fields: &[PathField],
    path: &PathState,
) -> Result<(), AllocError>
    ensures tokens { OnOk result (writer.new.tokens ≡ writer.old.tokens ++ path_members fields.now path.now) }
    ensures before { OnOk result (writer.new.before ≡ writer.old.before) }
{
    for field in fields {
        writer.key(field.key())?;
        write_shown(writer, field.value(path))?;
    }
    Ok(())
}

/// Writes a number with its sign, or null if it is not known.
fn write_shown(writer: &mut Writer, value: Option<Number>) -> Result<(), AllocError>
    ensures tokens { OnOk result (writer.new.tokens ≡ writer.old.tokens ++ shown_token value ∷ []) }
    ensures before { OnOk result (writer.new.before ≡ writer.old.before) }
{
    match value {
        Some(Number::Count(value)) => writer.u64(value),
        Some(Number::Change(value)) => writer.i64(value),
        None => writer.null(),
    }
}

/// Writes a number, or null if it is not known.
// Not 0, which would claim that something was counted.
fn write_known(writer: &mut Writer, value: Option<u64>) -> Result<(), AllocError>
    ensures tokens { OnOk result (writer.new.tokens ≡ writer.old.tokens ++ known_token value ∷ []) }
    ensures before { OnOk result (writer.new.before ≡ writer.old.before) }
{
    match value {
        Some(value) => writer.u64(value),
        None => writer.null(),
    }
}

/// Writes the member with the output channels.
fn write_outputs(writer: &mut Writer, outputs: &[ChannelState]) -> Result<(), AllocError>
    ensures tokens { OnOk result (writer.new.tokens
        ≡ writer.old.tokens ++ array_tokens (codes "outputs") (outputs_tokens outputs.now)) }
    ensures before { OnOk result (writer.new.before ≡ writer.old.before) }
{
    writer.key("outputs")?;
    writer.begin_array()?;
    write_each_output(writer, outputs)?;
    writer.end_array()
}

/// Writes the output channels one after another.
#[tactic(auto, unfolding(crate::specs::State::outputs_tokens))]
fn write_each_output(writer: &mut Writer, outputs: &[ChannelState]) -> Result<(), AllocError>
    ensures tokens { OnOk result (writer.new.tokens ≡ writer.old.tokens ++ outputs_tokens outputs.now) }
    ensures before { OnOk result (writer.new.before ≡ writer.old.before) }
{
    for output in outputs {
        write_output(writer, output)?;
    }
    Ok(())
}

/// Writes an output channel.
fn write_output(writer: &mut Writer, output: &ChannelState) -> Result<(), AllocError>
    ensures tokens { OnOk result (writer.new.tokens ≡ writer.old.tokens ++ output_tokens output.now) }
    ensures before { OnOk result (writer.new.before ≡ writer.old.before) }
{
    writer.begin_object()?;
    write_output_members(writer, &OUTPUT_FIELDS, output)?;
    writer.end_object()
}

/// Writes the numbers of an output channel.
#[tactic(auto, unfolding(crate::specs::State::output_members))]
fn write_output_members(
    writer: &mut Writer,
    fields: &[OutputField],
    output: &ChannelState,
) -> Result<(), AllocError>
    ensures tokens { OnOk result (writer.new.tokens ≡ writer.old.tokens ++ output_members fields.now output.now) }
    ensures before { OnOk result (writer.new.before ≡ writer.old.before) }
{
    for field in fields {
        writer.key(field.key())?;
        writer.u64(field.value(output))?;
    }
    Ok(())
}

/// Writes the member with the number of datagrams of each copy of the mix that were not sent.
fn write_failed_sends(writer: &mut Writer, failed: [u64; 2]) -> Result<(), AllocError>
    ensures tokens { OnOk result (writer.new.tokens ≡ writer.old.tokens ++ failed_tokens failed) }
    ensures before { OnOk result (writer.new.before ≡ writer.old.before) }
{
    writer.key("failed_sends")?;
    writer.begin_array()?;
    writer.u64(failed[0])?;
    writer.u64(failed[1])?;
    writer.end_array()
}

/// Writes the member with the number of datagrams of the mix that were left out because they were stale.
fn write_stale(writer: &mut Writer, stale: u64) -> Result<(), AllocError>
    ensures tokens { OnOk result (writer.new.tokens ≡ writer.old.tokens ++ stale_tokens stale) }
    ensures before { OnOk result (writer.new.before ≡ writer.old.before) }
{
    writer.key("stale")?;
    writer.u64(stale)
}

/// Writes the members with the numbers of datagrams of the mix in whose block a stream was missing, of those that were
/// sent later than a whole one, and of those that were left out because whole copies come from elsewhere.
fn write_incomplete(
    writer: &mut Writer,
    incomplete: u64,
    sent_late: u64,
    left_out: u64,
) -> Result<(), AllocError>
    ensures tokens { OnOk result
        (writer.new.tokens ≡ writer.old.tokens ++ incomplete_tokens incomplete sent_late left_out) }
    ensures before { OnOk result (writer.new.before ≡ writer.old.before) }
{
    writer.key("incomplete")?;
    writer.u64(incomplete)?;
    writer.key("sent_late")?;
    writer.u64(sent_late)?;
    writer.key("left_out")?;
    writer.u64(left_out)
}

/// Writes the members with the outputs of these kinds.
#[tactic(auto, unfolding(crate::specs::State::run_outputs_tokens))]
fn write_run_outputs(
    writer: &mut Writer,
    kinds: &[OutputKind],
    states: &OutputStates,
) -> Result<(), AllocError>
    ensures tokens { OnOk result (writer.new.tokens ≡ writer.old.tokens ++ run_outputs_tokens kinds.now states.now) }
    ensures before { OnOk result (writer.new.before ≡ writer.old.before) }
{
    for kind in kinds {
        write_run_output(writer, *kind, states.of(*kind))?;
    }
    Ok(())
}

/// Writes the member with an output of the run.
fn write_run_output(
    writer: &mut Writer,
    kind: OutputKind,
    state: OutputState,
) -> Result<(), AllocError>
    ensures tokens { OnOk result (writer.new.tokens ≡ writer.old.tokens ++ run_output_tokens kind state) }
    ensures before { OnOk result (writer.new.before ≡ writer.old.before) }
{
    writer.key(kind.key())?;
    writer.begin_object()?;
    write_output_state(writer, kind, state)?;
    writer.end_object()
}

/// Writes the state of an output, and its counts.
#[tactic(auto, unfolding(crate::specs::State::run_output_members))]
fn write_output_state(
    writer: &mut Writer,
    kind: OutputKind,
    state: OutputState,
) -> Result<(), AllocError>
    ensures tokens { OnOk result (writer.new.tokens ≡ writer.old.tokens ++ run_output_members kind state) }
    ensures before { OnOk result (writer.new.before ≡ writer.old.before) }
{
    write_state_member(writer, state.name())?;
    write_output_counts(writer, kind, state.written(), state.left_out())
}

/// Writes the number of units of an output that were written, and if it has a reader the number that were left out.
#[tactic(auto, unfolding(crate::specs::State::output_count_members))]
fn write_output_counts(
    writer: &mut Writer,
    kind: OutputKind,
    written: Option<u64>,
    left_out: Option<u64>,
) -> Result<(), AllocError>
    ensures tokens { OnOk result
        (writer.new.tokens ≡ writer.old.tokens ++ output_count_members kind written left_out) }
    ensures before { OnOk result (writer.new.before ≡ writer.old.before) }
{
    write_count_member(writer, kind.unit(), written)?;
    write_left_out(writer, kind.has_reader(), left_out)
}

/// Writes the number of units that were left out, if the output has a reader.
fn write_left_out(
    writer: &mut Writer,
    has_reader: bool,
    left_out: Option<u64>,
) -> Result<(), AllocError>
    ensures tokens { OnOk result (writer.new.tokens ≡ writer.old.tokens ++ left_out_members has_reader left_out) }
    ensures before { OnOk result (writer.new.before ≡ writer.old.before) }
{
    if has_reader {
        write_count_member(writer, "left_out", left_out)
    } else {
        Ok(())
    }
}

/// Writes a state by its name.
fn write_state_member(writer: &mut Writer, name: &str) -> Result<(), AllocError>
    ensures tokens { OnOk result (writer.new.tokens ≡ writer.old.tokens ++ state_member name.now) }
    ensures before { OnOk result (writer.new.before ≡ writer.old.before) }
{
    writer.key("state")?;
    writer.string(name)
}

/// Writes a count behind its key, or null if nothing is counted.
fn write_count_member(writer: &mut Writer, name: &str, count: Option<u64>) -> Result<(), AllocError>
    ensures tokens { OnOk result (writer.new.tokens ≡ writer.old.tokens ++ count_member name.now count) }
    ensures before { OnOk result (writer.new.before ≡ writer.old.before) }
{
    writer.key(name)?;
    write_known(writer, count)
}
