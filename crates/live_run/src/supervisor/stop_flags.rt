//! The flags between a run and its supervisor.

use std::sync::atomic::{AtomicBool, Ordering};
use std::thread::Parker;

/// The flags between a run and its supervisor.
#[derive(Drop)]
pub(crate) struct StopFlags {
    /// True once each feed is to end.
    pub(crate) stop: AtomicBool,
    /// True once the run has ended, and the supervisor is to end.
    pub(crate) finished: AtomicBool,
    /// The parker in which the supervisor waits between two polls.
    pub(crate) parker: Parker,
}

impl StopFlags {
    /// Returns the flags of a run that has not started, all false.
    pub(crate) fn new() -> StopFlags {
        StopFlags {
            stop: AtomicBool::new(false),
            finished: AtomicBool::new(false),
            parker: Parker::new(),
        }
    }

    /// Sets the flag `finished`, and wakes the supervisor.
    pub(crate) fn set_finished(&self) {
        self.finished.store(true, Ordering::SeqCst);
        self.parker.unpark();
    }
}
