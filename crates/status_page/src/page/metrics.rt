//! The response's body at `/metrics`: the snapshot in the text form of Prometheus.
ghost use Rattle.std.specs.Prelude.{◌≡◌, ◌≤◌, ◌++◌, length, OnOk, IfOk};
ghost use Rattle.status_page.specs.Metrics.{
  stream_samples,
  path_samples,
  all_path_samples,
  condition_samples,
  all_condition_samples,
  output_samples,
  stream_family,
  last_families,
  stream_families,
  path_families,
  output_families,
  failed_samples,
  failed_text,
  file_states,
  left_out_family,
  left_out_family_if,
  output_counts,
  output_state_family,
  output_state_samples,
  reader_states,
  run_output_families,
  run_output_family,
  single_family,
  stale_text,
  incomplete_families,
  incomplete_text,
  sent_late_text,
  left_out_text,
  written_family,
  metrics_text,
  state_header,
};

use crate::condition::CONDITIONS;
use crate::fields::MetricKind;
use crate::fields::output::{OUTPUT_FIELDS, OutputField};
use crate::fields::path::{PATH_FIELDS, PathField};
use crate::fields::stream::StreamField;
use crate::page::path_states::push_path_conditions;
use crate::page::samples::{
    push_condition_sample, push_failed_sample, push_output_sample, push_path_sample,
    push_single_sample, push_state_sample, push_stream_sample,
};
use crate::page::text::push_header;
use crate::snapshot::{ChannelState, Condition, PathState, Snapshot, StreamState};
use rtp_stream::{COUNT_FIELDS, CountField, Path};
use std::alloc::{AllocError, Global};
use studio_io::{OUTPUT_KINDS, OutputKind, OutputState, OutputStates};

/// Returns a snapshot in the text form of Prometheus, version 0.0.4, or `AllocError` if an allocation fails.
#[tactic(auto, unfolding(crate::specs::Metrics::metrics_text))]
pub fn metrics_text(alloc: Global, snapshot: &Snapshot) -> Result<Vec<u8>, AllocError>
    ensures { IfOk result (λ text. text.items ≡ metrics_text snapshot.now) }
{
    let mut text = Vec::new(alloc);
    let streams = snapshot.streams.as_slice();
    push_conditions(&mut text, &CONDITIONS, streams)?;
    push_path_conditions(&mut text, streams)?;
    push_stream_families(&mut text, &COUNT_FIELDS, streams)?;
    push_path_families(&mut text, &PATH_FIELDS, streams)?;
    push_output_families(&mut text, &OUTPUT_FIELDS, snapshot.outputs.as_slice())?;
    push_failed_sends(
        &mut text,
        snapshot.failed_sends[0],
        snapshot.failed_sends[1],
    )?;
    push_stale(&mut text, snapshot.stale)?;
    push_incomplete_families(
        &mut text,
        snapshot.incomplete,
        snapshot.sent_late,
        snapshot.left_out,
    )?;
    push_run_output_families(&mut text, &OUTPUT_KINDS, &snapshot.run_outputs)?;
    Ok(text)
}

/// The description of the metric of the streams' conditions.
const STATE_HELP: &str =
    "Where the stream stands: 1 for the state that it is in, and 0 for the others.";

/// Appends the metric of the streams' conditions.
fn push_conditions(
    text: &mut Vec<u8>,
    conditions: &[Condition],
    streams: &[StreamState],
) -> Result<(), AllocError>
    ensures { OnOk result (text.new.items
        ≡ text.old.items ++ (state_header ++ all_condition_samples conditions.now 0 streams.now)) }
{
    push_header(text, "stream_", "state", MetricKind::Gauge, STATE_HELP)?;
    push_all_condition_samples(text, conditions, streams)
}

/// Appends the lines with each stream's condition.
#[tactic(auto, unfolding(crate::specs::Metrics::all_condition_samples))]
fn push_all_condition_samples(
    text: &mut Vec<u8>,
    conditions: &[Condition],
    streams: &[StreamState],
) -> Result<(), AllocError>
    ensures { OnOk result (text.new.items ≡ text.old.items ++ all_condition_samples conditions.now 0 streams.now) }
{
    for (number, stream) in streams.iter().enumerate() {
        push_condition_samples(text, number, stream, conditions)?;
    }
    Ok(())
}

/// Appends the lines with a stream's condition, one for each of these conditions.
#[tactic(auto, unfolding(crate::specs::Metrics::condition_samples))]
fn push_condition_samples(
    text: &mut Vec<u8>,
    number: usize,
    stream: &StreamState,
    conditions: &[Condition],
) -> Result<(), AllocError>
    ensures { OnOk result (text.new.items ≡ text.old.items ++ condition_samples number stream.now conditions.now) }
{
    for condition in conditions {
        push_condition_sample(text, number, stream, *condition)?;
    }
    Ok(())
}

/// Appends the metrics of the streams: these counts, the latency, the time that is left, and the redundancy.
#[tactic(auto, unfolding(crate::specs::Metrics::stream_families))]
fn push_stream_families(
    text: &mut Vec<u8>,
    counts: &[CountField],
    streams: &[StreamState],
) -> Result<(), AllocError>
    ensures { OnOk result (text.new.items ≡ text.old.items ++ stream_families counts.now streams.now) }
{
    for count in counts {
        push_stream_family(text, StreamField::Count(*count), streams)?;
    }
    push_last_families(text, streams)
}

/// Appends the metrics of the latency, of the time that is left, and of the redundancy.
fn push_last_families(text: &mut Vec<u8>, streams: &[StreamState]) -> Result<(), AllocError>
    ensures { OnOk result (text.new.items ≡ text.old.items ++ last_families streams.now) }
{
    push_stream_family(text, StreamField::Latency, streams)?;
    push_stream_family(text, StreamField::SecondsLeft, streams)?;
    push_stream_family(text, StreamField::Redundancy, streams)
}

/// Appends the metric of one number of the streams.
fn push_stream_family(
    text: &mut Vec<u8>,
    field: StreamField,
    streams: &[StreamState],
) -> Result<(), AllocError>
    ensures { OnOk result (text.new.items ≡ text.old.items ++ stream_family field streams.now) }
{
    push_header(text, "stream_", field.key(), field.kind(), field.help())?;
    push_stream_samples(text, field, streams)
}

/// Appends the lines with one number of each stream.
#[tactic(auto, unfolding(crate::specs::Metrics::stream_samples))]
fn push_stream_samples(
    text: &mut Vec<u8>,
    field: StreamField,
    streams: &[StreamState],
) -> Result<(), AllocError>
    ensures { OnOk result (text.new.items ≡ text.old.items ++ stream_samples field 0 streams.now) }
{
    for (number, stream) in streams.iter().enumerate() {
        push_stream_sample(text, field, number, stream, field.value(stream))?;
    }
    Ok(())
}

/// Appends the metrics of the paths.
#[tactic(auto, unfolding(crate::specs::Metrics::path_families))]
fn push_path_families(
    text: &mut Vec<u8>,
    fields: &[PathField],
    streams: &[StreamState],
) -> Result<(), AllocError>
    ensures { OnOk result (text.new.items ≡ text.old.items ++ path_families fields.now streams.now) }
{
    for field in fields {
        push_header(text, "path_", field.key(), field.kind(), field.help())?;
        push_all_path_samples(text, *field, streams)?;
    }
    Ok(())
}

/// Appends the lines with one number of each path.
#[tactic(auto, unfolding(crate::specs::Metrics::all_path_samples))]
fn push_all_path_samples(
    text: &mut Vec<u8>,
    field: PathField,
    streams: &[StreamState],
) -> Result<(), AllocError>
    ensures { OnOk result (text.new.items ≡ text.old.items ++ all_path_samples field 0 streams.now) }
{
    for (number, stream) in streams.iter().enumerate() {
        push_path_samples(text, field, number, stream, stream.paths.as_slice())?;
    }
    Ok(())
}

/// Appends the lines with one number of each path of a stream.
#[tactic(auto, unfolding(crate::specs::Metrics::path_samples))]
fn push_path_samples(
    text: &mut Vec<u8>,
    field: PathField,
    number: usize,
    stream: &StreamState,
    states: &[PathState],
) -> Result<(), AllocError>
    requires few { length states.now ≤ 4 }
    ensures text { OnOk result (text.new.items ≡ text.old.items ++ path_samples field number stream.now 0 states.now) }
{
    for (place, state) in states.iter().enumerate() {
        let Some(path) = Path::new(place as u8) else {
            unreachable!()
        };
        push_path_sample(text, field, number, stream, path, field.value(state))?;
    }
    Ok(())
}

/// Appends the metrics of the output channels.
#[tactic(auto, unfolding(crate::specs::Metrics::output_families))]
fn push_output_families(
    text: &mut Vec<u8>,
    fields: &[OutputField],
    outputs: &[ChannelState],
) -> Result<(), AllocError>
    ensures { OnOk result (text.new.items ≡ text.old.items ++ output_families fields.now outputs.now) }
{
    for field in fields {
        push_header(text, "output_", field.key(), field.kind(), field.help())?;
        push_output_samples(text, *field, outputs)?;
    }
    Ok(())
}

/// Appends the lines with one number of each output channel.
#[tactic(auto, unfolding(crate::specs::Metrics::output_samples))]
fn push_output_samples(
    text: &mut Vec<u8>,
    field: OutputField,
    outputs: &[ChannelState],
) -> Result<(), AllocError>
    ensures { OnOk result (text.new.items ≡ text.old.items ++ output_samples field 0 outputs.now) }
{
    for (number, output) in outputs.iter().enumerate() {
        push_output_sample(text, field, number, output)?;
    }
    Ok(())
}

/// The description of the metric of the datagrams that were not sent.
const FAILED_HELP: &str = "Datagrams of the mix that were not sent to the address of this copy.";

/// Appends the metric of the datagrams that were not sent, of the first and of the second copy of the mix.
#[tactic(auto, unfolding(crate::specs::Metrics::failed_text))]
fn push_failed_sends(text: &mut Vec<u8>, failed_a: u64, failed_b: u64) -> Result<(), AllocError>
    ensures { OnOk result (text.new.items ≡ text.old.items ++ failed_text failed_a failed_b) }
{
    push_header(text, "sends_", "failed", MetricKind::Counter, FAILED_HELP)?;
    push_failed_samples(text, failed_a, failed_b)
}

/// Appends the lines with the number of datagrams that were not sent, of the first and of the second copy of the mix.
fn push_failed_samples(text: &mut Vec<u8>, failed_a: u64, failed_b: u64) -> Result<(), AllocError>
    ensures { OnOk result (text.new.items ≡ text.old.items ++ failed_samples failed_a failed_b) }
{
    push_failed_sample(text, "a", failed_a)?;
    push_failed_sample(text, "b", failed_b)
}

/// The description of the metric of the datagrams that were stale.
const STALE_HELP: &str =
    "Datagrams of the mix that were sent to neither address, because they were useless to every receiver.";

/// Appends the metric of the datagrams of the mix that were left out because they were stale.
#[tactic(auto, unfolding(crate::specs::Metrics::stale_text))]
fn push_stale(text: &mut Vec<u8>, stale: u64) -> Result<(), AllocError>
    ensures { OnOk result (text.new.items ≡ text.old.items ++ stale_text stale) }
{
    push_single_family(
        text,
        "sends_",
        "stale",
        MetricKind::Counter,
        STALE_HELP,
        Some(stale),
    )
}

/// Appends the metrics of the datagrams of the mix in whose block a stream was missing, of those that were sent late,
/// and of those that were left out because whole copies come from elsewhere.
fn push_incomplete_families(
    text: &mut Vec<u8>,
    incomplete: u64,
    sent_late: u64,
    left_out: u64,
) -> Result<(), AllocError>
    ensures { OnOk result
        (text.new.items ≡ text.old.items ++ incomplete_families incomplete sent_late left_out) }
{
    push_incomplete(text, incomplete)?;
    push_sent_late(text, sent_late)?;
    push_left_out_datagrams(text, left_out)
}

/// The description of the metric of the datagrams in whose block a stream was missing.
const INCOMPLETE_HELP: &str =
    "Datagrams of the mix in whose block a stream was missing, sent or not.";

/// Appends the metric of the datagrams of the mix in whose block a stream was missing.
#[tactic(auto, unfolding(crate::specs::Metrics::incomplete_text))]
fn push_incomplete(text: &mut Vec<u8>, incomplete: u64) -> Result<(), AllocError>
    ensures { OnOk result (text.new.items ≡ text.old.items ++ incomplete_text incomplete) }
{
    push_single_family(
        text,
        "incomplete_",
        "datagrams",
        MetricKind::Counter,
        INCOMPLETE_HELP,
        Some(incomplete),
    )
}

/// The description of the metric of the datagrams that were sent late.
const LATE_HELP: &str =
    "Datagrams of the mix that were sent later than a whole one, because a stream was missing.";

/// Appends the metric of the datagrams of the mix that were sent later than a whole one.
#[tactic(auto, unfolding(crate::specs::Metrics::sent_late_text))]
fn push_sent_late(text: &mut Vec<u8>, sent_late: u64) -> Result<(), AllocError>
    ensures { OnOk result (text.new.items ≡ text.old.items ++ sent_late_text sent_late) }
{
    push_single_family(
        text,
        "late_",
        "datagrams",
        MetricKind::Counter,
        LATE_HELP,
        Some(sent_late),
    )
}

/// The description of the metric of the datagrams that were left out.
const LEFT_OUT_HELP: &str =
    "Datagrams of the mix that were left out because whole copies come from elsewhere: no stream was there, or the run had ended.";

/// Appends the metric of the datagrams of the mix that were left out because whole copies come from elsewhere.
#[tactic(auto, unfolding(crate::specs::Metrics::left_out_text))]
fn push_left_out_datagrams(text: &mut Vec<u8>, left_out: u64) -> Result<(), AllocError>
    ensures { OnOk result (text.new.items ≡ text.old.items ++ left_out_text left_out) }
{
    push_single_family(
        text,
        "left_out_",
        "datagrams",
        MetricKind::Counter,
        LEFT_OUT_HELP,
        Some(left_out),
    )
}

/// Appends the metrics of the outputs of these kinds.
#[tactic(auto, unfolding(crate::specs::Metrics::run_output_families))]
fn push_run_output_families(
    text: &mut Vec<u8>,
    kinds: &[OutputKind],
    states: &OutputStates,
) -> Result<(), AllocError>
    ensures { OnOk result (text.new.items ≡ text.old.items ++ run_output_families kinds.now states.now) }
{
    for kind in kinds {
        push_run_output_family(text, *kind, states.of(*kind))?;
    }
    Ok(())
}

/// Appends the metrics of an output.
#[tactic(auto, unfolding(crate::specs::Metrics::run_output_family))]
fn push_run_output_family(
    text: &mut Vec<u8>,
    kind: OutputKind,
    state: OutputState,
) -> Result<(), AllocError>
    ensures { OnOk result (text.new.items ≡ text.old.items ++ run_output_family kind state) }
{
    push_output_state(text, kind, state.name())?;
    push_output_counts(text, kind, state.written(), state.left_out())
}

/// Appends the metric of an output's state.
#[tactic(auto, unfolding(crate::specs::Metrics::output_state_family))]
fn push_output_state(text: &mut Vec<u8>, kind: OutputKind, state: &str) -> Result<(), AllocError>
    ensures { OnOk result (text.new.items ≡ text.old.items ++ output_state_family kind state.now) }
{
    let group = kind.metric_group();
    push_header(text, group, "state", MetricKind::Gauge, kind.state_help())?;
    push_state_samples(text, kind.has_reader(), group, state)
}

/// Appends the metrics of both counts of an output.
#[tactic(auto, unfolding(crate::specs::Metrics::output_counts))]
fn push_output_counts(
    text: &mut Vec<u8>,
    kind: OutputKind,
    written: Option<u64>,
    left_out: Option<u64>,
) -> Result<(), AllocError>
    ensures { OnOk result (text.new.items ≡ text.old.items ++ output_counts kind written left_out) }
{
    push_written(text, kind, written)?;
    push_left_out_if(text, kind.has_reader(), kind, left_out)
}

/// Appends the metric of the units that were written.
#[tactic(auto, unfolding(crate::specs::Metrics::written_family))]
fn push_written(
    text: &mut Vec<u8>,
    kind: OutputKind,
    written: Option<u64>,
) -> Result<(), AllocError>
    ensures { OnOk result (text.new.items ≡ text.old.items ++ written_family kind written) }
{
    push_single_family(
        text,
        kind.metric_group(),
        kind.unit(),
        MetricKind::Counter,
        kind.written_help(),
        written,
    )
}

/// Appends the metric of the units that were left out, if the output has a reader.
fn push_left_out_if(
    text: &mut Vec<u8>,
    has_reader: bool,
    kind: OutputKind,
    left_out: Option<u64>,
) -> Result<(), AllocError>
    ensures { OnOk result (text.new.items ≡ text.old.items ++ left_out_family_if has_reader kind left_out) }
{
    if has_reader {
        push_left_out(text, kind, left_out)
    } else {
        Ok(())
    }
}

/// Appends the metric of the units that were left out.
#[tactic(auto, unfolding(crate::specs::Metrics::left_out_family))]
fn push_left_out(
    text: &mut Vec<u8>,
    kind: OutputKind,
    left_out: Option<u64>,
) -> Result<(), AllocError>
    ensures { OnOk result (text.new.items ≡ text.old.items ++ left_out_family kind left_out) }
{
    push_single_family(
        text,
        kind.metric_group(),
        "left_out",
        MetricKind::Counter,
        kind.left_out_help(),
        left_out,
    )
}

/// Appends the metric of a number without labels.
pub(crate) fn push_single_family(
    text: &mut Vec<u8>,
    group: &str,
    key: &str,
    kind: MetricKind,
    help: &str,
    value: Option<u64>,
) -> Result<(), AllocError>
    ensures { OnOk result
        (text.new.items ≡ text.old.items ++ single_family group.now key.now kind help.now value) }
{
    push_header(text, group, key, kind, help)?;
    push_single_sample(text, group, key, kind, value)
}

/// Appends the lines of the states of an output, which has a reader or not: 1 for the state of this name, and 0 for the
/// others.
fn push_state_samples(
    text: &mut Vec<u8>,
    has_reader: bool,
    group: &str,
    state: &str,
) -> Result<(), AllocError>
    ensures { OnOk result
        (text.new.items ≡ text.old.items ++ output_state_samples has_reader group.now state.now) }
{
    if has_reader {
        push_reader_states(text, group, state)
    } else {
        push_file_states(text, group, state)
    }
}

/// Appends the lines of the states of an output without a reader.
#[tactic(auto, unfolding(crate::specs::Metrics::file_states))]
fn push_file_states(text: &mut Vec<u8>, group: &str, state: &str) -> Result<(), AllocError>
    ensures { OnOk result (text.new.items ≡ text.old.items ++ file_states group.now state.now) }
{
    push_state_sample(text, group, state, "none")?;
    push_state_sample(text, group, state, "writing")?;
    push_state_sample(text, group, state, "ended")
}

/// Appends the lines of the states of an output with a reader.
#[tactic(auto, unfolding(crate::specs::Metrics::reader_states))]
fn push_reader_states(text: &mut Vec<u8>, group: &str, state: &str) -> Result<(), AllocError>
    ensures { OnOk result (text.new.items ≡ text.old.items ++ reader_states group.now state.now) }
{
    push_state_sample(text, group, state, "none")?;
    push_state_sample(text, group, state, "waiting")?;
    push_state_sample(text, group, state, "writing")?;
    push_state_sample(text, group, state, "ended")
}
