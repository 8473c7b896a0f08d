//! The context of a run, by workers or in one thread.

use crate::shown_health::ShownHealth;
use crate::supervisor::stop_conditions::StopConditions;
use crate::supervisor::stop_flags::StopFlags;
use live_gains::RunGains;
use live_io::{LateSettings, RunHealth, RunPeriod};
use live_status::StatusOutputs;
use run_outputs::RunStart;

/// When a run begins and ends, and when it sends the copies of the mix in which streams are missing.
#[derive(Clone, Copy)]
pub(crate) struct RunTiming {
    /// The time at which the run begins, and its end by the clock.
    pub(crate) period: RunPeriod,
    /// The delays of the copies in which streams are missing.
    pub(crate) late: LateSettings,
}

/// The context of a run, in addition to its studio, its sockets and its outputs.
#[derive(Drop)]
pub(crate) struct RunContext<'a, R, E> {
    /// When the run begins and ends, and when its copies are sent.
    pub(crate) timing: RunTiming,
    /// The conditions that stop the run.
    pub(crate) conditions: StopConditions<'a>,
    /// The outputs of the run's status.
    pub(crate) status: StatusOutputs<'a, E>,
    /// The flags between the run and its supervisor.
    pub(crate) flags: &'a StopFlags,
    /// The health of the run's sockets.
    pub(crate) health: &'a RunHealth,
    /// The health of the run as its status shows it.
    pub(crate) shown: ShownHealth<'a>,
    /// The start of the run, which its outputs wait for.
    pub(crate) start: &'a RunStart,
    /// The source of changes of gains. `None` if the gains change only as the studio says.
    pub(crate) gains: Option<RunGains<'a, R>>,
}
