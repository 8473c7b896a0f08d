//! The response's body at `/metrics`: the metrics of the snapshot, and behind them those of the run's facts.
ghost use Rattle.std.specs.Prelude.{◌≡◌, ◌++◌, OnOk, IfOk};
ghost use Rattle.status_page.specs.RunFacts.{facts_text, run_metrics, start_text, version_text};

use crate::fields::MetricKind;
use crate::page::metrics::{metrics_text, push_single_family};
use crate::page::samples::push_version_sample;
use crate::page::text::push_header;
use crate::run_facts::{RunFacts, ShownRun};
use std::alloc::{AllocError, Global};

/// Returns the metrics of a run, or `AllocError` if an allocation fails.
pub(crate) fn run_metrics(alloc: Global, run: &ShownRun) -> Result<Vec<u8>, AllocError>
    ensures { IfOk result (λ text. text.items ≡ run_metrics run.now) }
{
    let mut text = metrics_text(alloc, &run.snapshot)?;
    push_facts(&mut text, run.facts)?;
    Ok(text)
}

/// Appends the metrics of a run's facts.
fn push_facts(text: &mut Vec<u8>, facts: RunFacts) -> Result<(), AllocError>
    ensures { OnOk result (text.new.items ≡ text.old.items ++ facts_text facts) }
{
    push_version(text, facts.version)?;
    push_start(text, facts.started)
}

/// The description of the metric of the program's version.
const VERSION_HELP: &str = "The version of the program, in a label. The value is 1.";

/// Appends the metric of the program's version.
#[tactic(auto, unfolding(crate::specs::RunFacts::version_text))]
fn push_version(text: &mut Vec<u8>, version: &str) -> Result<(), AllocError>
    ensures { OnOk result (text.new.items ≡ text.old.items ++ version_text version.now) }
{
    push_header(text, "build_", "info", MetricKind::Gauge, VERSION_HELP)?;
    push_version_sample(text, version)
}

/// The description of the metric of the time at which the run opened.
const START_HELP: &str = "The time at which the run opened, in seconds since 1970 (Unix time).";

/// Appends the metric of the time at which the run opened.
#[tactic(auto, unfolding(crate::specs::RunFacts::start_text))]
fn push_start(text: &mut Vec<u8>, started: Option<u64>) -> Result<(), AllocError>
    ensures { OnOk result (text.new.items ≡ text.old.items ++ start_text started) }
{
    push_single_family(
        text,
        "start_",
        "time_seconds",
        MetricKind::Gauge,
        START_HELP,
        started,
    )
}
