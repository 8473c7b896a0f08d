//! The metric of the paths' conditions in `/metrics`.
ghost use Rattle.std.specs.Prelude.{◌≡◌, ◌≤◌, ◌++◌, length, OnOk};
ghost use Rattle.status_page.specs.Metrics.{
  path_condition_samples,
  paths_condition_samples,
  all_path_condition_samples,
  known_condition_samples,
  path_state_header,
};

use crate::fields::MetricKind;
use crate::page::samples::push_path_condition_sample;
use crate::page::text::push_header;
use crate::path_condition::PATH_CONDITIONS;
use crate::snapshot::{PathCondition, PathState, StreamState};
use rtp_stream::Path;
use std::alloc::AllocError;

/// The description of the metric of the paths' conditions.
const PATH_STATE_HELP: &str =
    "Where the path stands: 1 for the state that it is in, and 0 for the others.";

/// Appends the metric of the paths' conditions.
pub(crate) fn push_path_conditions(
    text: &mut Vec<u8>,
    streams: &[StreamState],
) -> Result<(), AllocError>
    ensures { OnOk result (text.new.items
        ≡ text.old.items ++ (path_state_header ++ all_path_condition_samples 0 streams.now)) }
{
    push_header(text, "path_", "state", MetricKind::Gauge, PATH_STATE_HELP)?;
    push_all_path_conditions(text, streams)
}

/// Appends the lines with each path's condition.
#[tactic(auto, unfolding(crate::specs::Metrics::all_path_condition_samples))]
fn push_all_path_conditions(text: &mut Vec<u8>, streams: &[StreamState]) -> Result<(), AllocError>
    ensures { OnOk result (text.new.items ≡ text.old.items ++ all_path_condition_samples 0 streams.now) }
{
    for (number, stream) in streams.iter().enumerate() {
        push_paths_conditions(text, number, stream, stream.paths.as_slice())?;
    }
    Ok(())
}

/// Appends the lines with the condition of each path of a stream.
#[tactic(auto, unfolding(crate::specs::Metrics::paths_condition_samples))]
fn push_paths_conditions(
    text: &mut Vec<u8>,
    number: usize,
    stream: &StreamState,
    states: &[PathState],
) -> Result<(), AllocError>
    requires few { length states.now ≤ 4 }
    ensures text { OnOk result
        (text.new.items ≡ text.old.items ++ paths_condition_samples number stream.now 0 states.now) }
{
    for (place, state) in states.iter().enumerate() {
        let Some(path) = Path::new(place as u8) else {
            unreachable!()
        };
        push_conditions_of_path(text, number, stream, path, state.condition)?;
    }
    Ok(())
}

/// Appends the lines with a path's condition, one for each that there is. Appends nothing if it is not known.
fn push_conditions_of_path(
    text: &mut Vec<u8>,
    number: usize,
    stream: &StreamState,
    path: Path,
    condition: Option<PathCondition>,
) -> Result<(), AllocError>
    ensures { OnOk result (text.new.items ≡ text.old.items ++ path_condition_samples number stream.now path condition) }
{
    match condition {
        Some(present) => {
            push_known_conditions(text, number, stream, path, present, &PATH_CONDITIONS)
        }
        None => Ok(()),
    }
}

/// Appends the lines with a path's present condition, one for each of these conditions.
#[tactic(auto, unfolding(crate::specs::Metrics::known_condition_samples))]
fn push_known_conditions(
    text: &mut Vec<u8>,
    number: usize,
    stream: &StreamState,
    path: Path,
    present: PathCondition,
    conditions: &[PathCondition],
) -> Result<(), AllocError>
    ensures { OnOk result
        (text.new.items ≡ text.old.items ++ known_condition_samples number stream.now path present conditions.now) }
{
    for condition in conditions {
        push_path_condition_sample(text, number, stream, path, present, *condition)?;
    }
    Ok(())
}
