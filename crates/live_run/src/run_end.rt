//! The end of a run: its report, and why its outputs ended.

use run_outputs::OutputEnds;
use studio_io::WorkReport;

/// The end of a run.
#[derive(Drop)]
pub(crate) struct RunEnd {
    pub(crate) report: WorkReport,
    /// Why each output ended before the run, as the parts of it that the run returned say.
    // Not these parts: the task that writes an output ends once they are dropped, and the run waits for it.
    pub(crate) outputs: OutputEnds,
}
