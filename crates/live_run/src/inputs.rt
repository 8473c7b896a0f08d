//! The inputs of a live run.

use crate::supervisor::signal_file::SignalFile;
use live_gains::GainNotes;
use live_io::SocketConfig;
use run_outputs::RunStart;
use status_page::{RunFacts, StreamName, Token};
use std::time::Duration;
use studio_config::StudioSpec;
use studio_io::{LiveOptions, RunProgress};

/// A live run: its studio, its options and its inputs.
#[derive(Clone, Copy)]
pub struct LiveRun<'a> {
    /// The studio that runs.
    pub studio: &'a StudioSpec,
    /// The form of the run, its end, and what is shown of it.
    pub options: &'a LiveOptions,
    /// The sockets, the names and the progress.
    pub inputs: LiveInputs<'a>,
}

/// The inputs of a live run, in addition to its studio and its options.
#[derive(Clone, Copy)]
pub struct LiveInputs<'a> {
    /// The configuration of the sockets.
    pub sockets: SocketConfig<'a>,
    /// The name of each stream, if it has one.
    pub names: &'a [Option<StreamName>],
    /// The progress of the run's outputs, which its status shows. Each output sets its own.
    pub outputs: &'a RunProgress,
    /// The signals of the process, of which a pending one ends the run.
    pub signals: &'a SignalFile,
    /// The start of the run, which sets it. A file that an output creates is removed if the run does not begin.
    pub start: &'a RunStart,
    /// The notes of the run's gains, if they are kept. The page's thread notes in them each change that the run takes.
    pub notes: Option<&'a GainNotes>,
    /// The reading of the system's monotonic clock at the studio's opening time, if it could be read.
    pub began: Option<Duration>,
    /// Whether the studio opens by International Atomic Time.
    pub is_by_tai: bool,
}

/// The inputs of a live run's page, in addition to what the run tells it.
// Not among `LiveInputs`: the borrow checker doesn't cover calls whose parameters hold what is `'static` next to
// outputs of several lifetimes.
#[derive(Drop)]
pub struct PageInputs {
    /// The facts of the run that its page shows.
    pub facts: RunFacts,
    /// The token of the requests that may change the run's gains, if any may.
    pub control: Option<Token>,
}
