//! The supervisor of a run, which ends it on a signal or at the end of standard input, and publishes the status of a
//! run by workers. `stop_conditions` says if the run is to end, `signal_file` finds signals, and `stop_flags` has the
//! flags between the run and its supervisor.

use crate::supervisor::stop_conditions::StopConditions;
use crate::supervisor::stop_flags::StopFlags;
use run_outputs::{RunStart, SideTask};
use std::sync::Wait;
use std::sync::atomic::Ordering;
use std::time::{Clock, Duration};

pub(crate) mod signal_file;
pub(crate) mod stop_conditions;
pub(crate) mod stop_flags;

/// The time between two polls, in milliseconds.
// A signal or the end of input is found, and a line is written, at most 50 ms late. Polling is needed since the
// toolchain cannot handle or await a signal.
pub(crate) const POLL_INTERVAL_MS: u64 = 50;

/// The task that publishes the status of a run from the supervisor's thread.
pub(crate) trait StatusTask: Drop {
    /// Publishes the run's status, if it is due. It must not wait.
    fn poll(&mut self);

    /// Publishes the status of a run that has ended. It must not wait.
    fn publish_last(&mut self);
}

impl<T: StatusTask> StatusTask for Option<T> {
    fn poll(&mut self) {
        if let Some(task) = self {
            task.poll();
        }
    }

    fn publish_last(&mut self) {
        if let Some(task) = self {
            task.publish_last();
        }
    }
}

/// The supervisor of a run, which works until the run sets the flag `finished`.
#[derive(Drop)]
pub(crate) struct Supervisor<'a, T> {
    /// The conditions that stop the run.
    pub(crate) conditions: StopConditions<'a>,
    /// The flags between it and the run.
    pub(crate) flags: &'a StopFlags,
    /// The task that publishes the run's status.
    pub(crate) task: T,
}

impl<T: StatusTask> Supervisor<'_, T> {
    /// Sets the flag `stop` if the feeds are to end, and publishes the status if it is due.
    fn poll(&mut self) {
        if self.conditions.is_met() {
            self.flags.stop.store(true, Ordering::SeqCst);
        }
        self.task.poll();
    }
}

impl<T: StatusTask> SideTask for Supervisor<'_, T> {
    fn complete<R: Wait + Clock>(self, rt: &R, _start: &RunStart) {
        let mut supervisor = self;
        for _ in rt.forever() {
            supervisor
                .flags
                .parker
                .park_timeout(rt, Duration::from_millis(POLL_INTERVAL_MS));
            if supervisor.flags.finished.load(Ordering::SeqCst) {
                supervisor.task.publish_last();
                return;
            }
            supervisor.poll();
        }
    }
}
