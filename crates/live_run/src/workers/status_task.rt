//! The task that publishes the status of a run by workers.

use crate::shown_health::ShownHealth;
use crate::supervisor::StatusTask;
use crate::workers::latest_stats::LatestStats;
use live_io::SystemClock;
use live_status::{StatusPublisher, fill_health};
use std::io::Write;
use std::time;
use studio_ends::StatsReceivers;
use studio_io::Clock;

/// The task that publishes the status of a run by workers: the receivers of their statistics, the latest statistics,
/// the clock, the publisher and the health of the run.
#[derive(Drop)]
pub(crate) struct WorkerStatusTask<'a, R: time::Clock, E> {
    pub(crate) receivers: StatsReceivers,
    pub(crate) latest: LatestStats,
    pub(crate) clock: SystemClock<'a, R>,
    pub(crate) publisher: StatusPublisher<E>,
    pub(crate) health: ShownHealth<'a>,
}

impl<R: time::Clock, E: Write + Drop> WorkerStatusTask<'_, R, E> {
    /// Publishes the statistics that the workers sent, at the time `now`. `have_ended` is true once the streams have
    /// ended.
    fn publish(&mut self, now: i64, have_ended: bool) {
        self.latest.refresh(&mut self.receivers);
        let mut snapshot = self.publisher.blank_snapshot();
        self.latest.fill(&mut snapshot);
        fill_health(&self.health, &mut snapshot);
        self.publisher.publish(now, snapshot, have_ended);
    }
}

impl<R: time::Clock, E: Write + Drop> StatusTask for WorkerStatusTask<'_, R, E> {
    /// Publishes the statistics that the workers sent, if a snapshot or lines are due.
    fn poll(&mut self) {
        let now = self.clock.now();
        if self.publisher.is_due(now) {
            self.publish(now, false);
        }
    }

    /// Publishes the last statistics that the workers sent, with the run shown as ended.
    fn publish_last(&mut self) {
        let now = self.clock.now();
        self.publish(now, true);
    }
}
