//! The lines of `/metrics`.
ghost use Rattle.std.specs.Prelude.{◌≡◌, ◌++◌, OnOk};
ghost use Rattle.status_page.specs.Metrics.{
  change_text,
  name_label,
  failed_sample,
  single_sample,
  state_sample,
  stream_labels,
  value_text,
  shown_text,
  stream_sample,
  path_sample,
  condition_sample,
  path_condition_sample,
  output_sample,
};
ghost use Rattle.status_page.specs.RunFacts.{version_sample};

use crate::fields::output::OutputField;
use crate::fields::path::{PathField, flag};
use crate::fields::stream::StreamField;
use crate::fields::{MetricKind, Number};
use crate::page::text::{push, push_label, push_metric, push_number, push_signed};
use crate::snapshot::{ChannelState, Condition, PathCondition, StreamName, StreamState};
use rtp_stream::Path;
use std::alloc::AllocError;

/// Appends a stream's name as a label, if it has one.
#[tactic(auto, unfolding(crate::specs::Metrics::name_label))]
fn push_name(text: &mut Vec<u8>, name: &Option<StreamName>) -> Result<(), AllocError>
    ensures { OnOk result (text.new.items ≡ text.old.items ++ name_label name.now) }
{
    if let Some(name) = name {
        push(text, ",name=\"")?;
        push_label(text, name.as_str())?;
        push(text, "\"")?;
    }
    Ok(())
}

/// Appends the labels of a stream. The caller may append more, and `push_value` closes them.
#[tactic(auto, unfolding(crate::specs::Metrics::stream_labels))]
fn push_labels(text: &mut Vec<u8>, number: usize, stream: &StreamState) -> Result<(), AllocError>
    ensures { OnOk result (text.new.items ≡ text.old.items ++ stream_labels number stream.now) }
{
    push(text, "{stream=\"")?;
    push_number(text, number as u64)?;
    push(text, "\"")?;
    push_name(text, &stream.name)
}

/// Appends the end of a line: the end of the labels, and the value.
#[tactic(auto, unfolding(crate::specs::Metrics::value_text))]
fn push_value(text: &mut Vec<u8>, value: u64) -> Result<(), AllocError>
    ensures { OnOk result (text.new.items ≡ text.old.items ++ value_text value) }
{
    push(text, "} ")?;
    push_number(text, value)?;
    push(text, "\n")
}

/// Appends the end of a line: the end of the labels, and a value with its sign.
#[tactic(auto, unfolding(crate::specs::Metrics::change_text))]
fn push_change(text: &mut Vec<u8>, value: i64) -> Result<(), AllocError>
    ensures { OnOk result (text.new.items ≡ text.old.items ++ change_text value) }
{
    push(text, "} ")?;
    push_signed(text, value)?;
    push(text, "\n")
}

/// Appends the end of a line: the end of the labels, and a count or a change.
fn push_shown(text: &mut Vec<u8>, value: Number) -> Result<(), AllocError>
    ensures { OnOk result (text.new.items ≡ text.old.items ++ shown_text value) }
{
    match value {
        Number::Count(value) => push_value(text, value),
        Number::Change(value) => push_change(text, value),
    }
}

/// Appends the line with a number of a stream. Appends nothing if the number is not known.
#[tactic(auto, unfolding(crate::specs::Metrics::stream_sample))]
pub(crate) fn push_stream_sample(
    text: &mut Vec<u8>,
    field: StreamField,
    number: usize,
    stream: &StreamState,
    value: Option<u64>,
) -> Result<(), AllocError>
    ensures { OnOk result (text.new.items ≡ text.old.items ++ stream_sample field number stream.now value) }
{
    let Some(value) = value else {
        return Ok(());
    };
    push_metric(text, "stream_", field.key(), field.kind())?;
    push_labels(text, number, stream)?;
    push_value(text, value)
}

/// Appends the line with a number of a path. Appends nothing if the number is not known.
#[tactic(auto, unfolding(crate::specs::Metrics::path_sample))]
pub(crate) fn push_path_sample(
    text: &mut Vec<u8>,
    field: PathField,
    number: usize,
    stream: &StreamState,
    path: Path,
    value: Option<Number>,
) -> Result<(), AllocError>
    ensures { OnOk result (text.new.items ≡ text.old.items ++ path_sample field number stream.now path value) }
{
    let Some(value) = value else {
        return Ok(());
    };
    push_metric(text, "path_", field.key(), field.kind())?;
    push_labels(text, number, stream)?;
    push(text, ",path=\"")?;
    push(text, path.letter())?;
    push(text, "\"")?;
    push_shown(text, value)
}

/// Appends the line for a condition of a stream, with 1 if it is the stream's condition and 0 otherwise.
#[tactic(auto, unfolding(crate::specs::Metrics::condition_sample))]
pub(crate) fn push_condition_sample(
    text: &mut Vec<u8>,
    number: usize,
    stream: &StreamState,
    condition: Condition,
) -> Result<(), AllocError>
    ensures { OnOk result (text.new.items ≡ text.old.items ++ condition_sample number stream.now condition) }
{
    push_metric(text, "stream_", "state", MetricKind::Gauge)?;
    push_labels(text, number, stream)?;
    push(text, ",state=\"")?;
    push(text, condition.text())?;
    push(text, "\"")?;
    push_value(text, condition.holds(stream.condition))
}

/// Appends the line for a condition of a path, with 1 if it is the path's present one and 0 otherwise.
#[tactic(auto, unfolding(crate::specs::Metrics::path_condition_sample))]
pub(crate) fn push_path_condition_sample(
    text: &mut Vec<u8>,
    number: usize,
    stream: &StreamState,
    path: Path,
    present: PathCondition,
    condition: PathCondition,
) -> Result<(), AllocError>
    ensures { OnOk result
        (text.new.items ≡ text.old.items ++ path_condition_sample number stream.now path present condition) }
{
    push_metric(text, "path_", "state", MetricKind::Gauge)?;
    push_labels(text, number, stream)?;
    push(text, ",path=\"")?;
    push(text, path.letter())?;
    push(text, "\",state=\"")?;
    push(text, condition.text())?;
    push(text, "\"")?;
    push_value(text, condition.holds(present))
}

/// Appends the line with a number of an output channel.
#[tactic(auto, unfolding(crate::specs::Metrics::output_sample))]
pub(crate) fn push_output_sample(
    text: &mut Vec<u8>,
    field: OutputField,
    number: usize,
    output: &ChannelState,
) -> Result<(), AllocError>
    ensures { OnOk result (text.new.items ≡ text.old.items ++ output_sample field number output.now) }
{
    push_metric(text, "output_", field.key(), field.kind())?;
    push(text, "{output=\"")?;
    push_number(text, number as u64)?;
    push(text, "\"")?;
    push_value(text, field.value(output))
}

/// Appends the line with the number of datagrams of a copy of the mix that were not sent.
#[tactic(auto, unfolding(crate::specs::Metrics::failed_sample))]
pub(crate) fn push_failed_sample(
    text: &mut Vec<u8>,
    letter: &str,
    failed: u64,
) -> Result<(), AllocError>
    ensures { OnOk result (text.new.items ≡ text.old.items ++ failed_sample letter.now failed) }
{
    push_metric(text, "sends_", "failed", MetricKind::Counter)?;
    push(text, "{copy=\"")?;
    push(text, letter)?;
    push(text, "\"")?;
    push_value(text, failed)
}

/// Appends the line for the state with this name: 1 if it is this state, and 0 otherwise.
#[tactic(auto, unfolding(crate::specs::Metrics::state_sample))]
pub(crate) fn push_state_sample(
    text: &mut Vec<u8>,
    group: &str,
    state: &str,
    name: &str,
) -> Result<(), AllocError>
    ensures { OnOk result (text.new.items ≡ text.old.items ++ state_sample group.now state.now name.now) }
{
    push_metric(text, group, "state", MetricKind::Gauge)?;
    push(text, "{state=\"")?;
    push(text, name)?;
    push(text, "\"")?;
    push_value(text, flag(state == name))
}

/// Appends the line with a number without labels. Appends nothing if the number is not known.
#[tactic(auto, unfolding(crate::specs::Metrics::single_sample))]
pub(crate) fn push_single_sample(
    text: &mut Vec<u8>,
    group: &str,
    key: &str,
    kind: MetricKind,
    value: Option<u64>,
) -> Result<(), AllocError>
    ensures { OnOk result
        (text.new.items ≡ text.old.items ++ single_sample group.now key.now kind value) }
{
    let Some(value) = value else {
        return Ok(());
    };
    push_metric(text, group, key, kind)?;
    push(text, " ")?;
    push_number(text, value)?;
    push(text, "\n")
}

/// Appends the line with the program's version.
#[tactic(auto, unfolding(crate::specs::RunFacts::version_sample))]
pub(crate) fn push_version_sample(text: &mut Vec<u8>, version: &str) -> Result<(), AllocError>
    ensures { OnOk result (text.new.items ≡ text.old.items ++ version_sample version.now) }
{
    push_metric(text, "build_", "info", MetricKind::Gauge)?;
    push(text, "{version=\"")?;
    push_label(text, version)?;
    push(text, "\"")?;
    push_value(text, 1)
}
