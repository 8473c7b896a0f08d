//! The link of a channel's two ends: the state of the request, and the parker in which the page waits.

use std::sync::Wait;
use std::sync::atomic::{AtomicU32, Ordering};
use std::thread::Parker;
use std::time::Duration;

/// The state of a request that the run may take, and the page may withdraw.
const WAITING: u32 = 0;

/// The state of a request that the run takes. The page waits for its outcome.
const TAKEN: u32 = 1;

/// The state of a request that the page withdrew. The run passes it back.
const WITHDRAWN: u32 = 2;

/// The link between the two ends of a channel for gains.
///
/// Of the run, which takes a request, and the page, which withdraws it, exactly one succeeds: both exchange the state
/// only if it is still `WAITING`.
#[derive(Drop)]
pub struct GainLink {
    state: AtomicU32,
    /// The parker in which the page waits for an outcome.
    parker: Parker,
}

impl GainLink {
    /// Returns the link of a channel without a request.
    pub fn new() -> GainLink {
        GainLink {
            state: AtomicU32::new(WITHDRAWN),
            parker: Parker::new(),
        }
    }

    /// Makes the next request one that the run may take. The page calls it before it sends the request, when the
    /// outcome of the last one has come back: no request is on its way then whose state it could be.
    pub(crate) fn begin(&self) {
        self.state.store(WAITING, Ordering::SeqCst);
    }

    /// Takes the request for the run. Returns false if the page withdrew it.
    pub(crate) fn take(&self) -> bool {
        self.exchange(TAKEN)
    }

    /// Withdraws the request for the page. Returns false if the run takes it.
    pub(crate) fn withdraw(&self) -> bool {
        self.exchange(WITHDRAWN)
    }

    /// Wakes the page, which waits for an outcome.
    pub(crate) fn wake(&self) {
        self.parker.unpark();
    }

    /// Waits until there is an outcome, but for at most this time. It may return earlier.
    pub(crate) fn pause<R: Wait>(&self, rt: &R, most: Duration) {
        self.parker.park_timeout(rt, most);
    }

    /// Changes the state of a request that waits. Returns false if it does not wait.
    fn exchange(&self, state: u32) -> bool {
        self.state
            .compare_exchange(WAITING, state, Ordering::SeqCst, Ordering::SeqCst)
            .is_ok()
    }
}
