//! The source of a page's snapshots, and the loop of the page's thread.
ghost use Rattle.rtrb.specs.Ring.{received};
ghost use Rattle.status_page.specs.Shown.{ShowsLast};

use crate::server::PageServer;
use crate::server::served::ServedPage;
use crate::snapshot::Snapshot;
use rtrb::Consumer;
use std::sync::Wait;
use std::time::{Clock, Duration};

/// The longest wait for sockets before the next test for a newer snapshot, in milliseconds.
// Half the time between two snapshots, so that a client sees each of them before the next one comes.
const POLL_INTERVAL_MS: u64 = 50;

/// The longest time that the last snapshot is shown after the end of a run, in milliseconds.
// Three times as long as a page waits between two requests, so that each open page shows how the run ended.
const LAST_SHOWN_MS: u64 = 300;

/// The longest wait for sockets while the last snapshot is shown, in milliseconds.
const LAST_POLL_MS: u64 = 10;

/// A source of the newest snapshot in a ring. The run has ended once the ring's producer was dropped.
#[derive(Drop)]
pub struct RingSource {
    ring: Consumer<Snapshot>,
}

impl RingSource {
    /// Returns a source of the snapshots of a ring.
    pub fn new(ring: Consumer<Snapshot>) -> RingSource {
        RingSource { ring }
    }

    /// Updates a page if there is a newer snapshot. Returns false once the run has ended. It does not wait.
    #[tactic(auto, using(crate::proofs::ShownLemmas::shows_same))]
    fn update<P: ServedPage>(&mut self, page: &mut P) -> bool
        ensures { ShowsLast (received self.old.ring) (received self.new.ring) (P.shown page.old) (P.shown page.new) }
    {
        let is_over = self.ring.is_abandoned();
        // As many as are in the ring now, so that it ends even if snapshots are pushed all the time.
        // The label names the loop in its proof.
        'turns: for _ in 0..self.ring.slots() {
            self.show_next(page);
        }
        !is_over
    }

    /// Updates a page with the next snapshot of the ring, if there is one.
    #[tactic(auto, using(crate::proofs::ShownLemmas::shows_same, crate::proofs::ShownLemmas::shows_one))]
    fn show_next<P: ServedPage>(&mut self, page: &mut P)
        ensures { ShowsLast (received self.old.ring) (received self.new.ring) (P.shown page.old) (P.shown page.new) }
    {
        if let Ok(newer) = self.ring.pop() {
            page.show(newer);
        }
    }
}

/// Serves a page's clients until the run has ended and each client has had the last snapshot, but for at most 300 ms
/// after the end. It blocks the calling thread, which should be one of its own.
pub fn serve_page<R: Wait + Clock, P: ServedPage>(
    rt: &R,
    mut server: PageServer,
    mut page: P,
    mut source: RingSource,
) {
    serve_until_end(rt, &mut server, &mut page, &mut source);
}

/// Serves like `serve_page`, on borrowed parts.
// A function of its own, so that few functions hold sockets.
fn serve_until_end<R: Wait + Clock, P: ServedPage>(
    rt: &R,
    server: &mut PageServer,
    page: &mut P,
    source: &mut RingSource,
) {
    let mut now = Duration::ZERO;
    for _ in rt.forever() {
        server.wait(Duration::from_millis(POLL_INTERVAL_MS));
        let goes_on = source.update(page);
        // If the clock cannot be read, the reading before counts: then no client becomes idle.
        now = rt.monotonic().unwrap_or(now);
        server.turn(page, now);
        if !goes_on {
            serve_last(rt, server, page, now);
            return;
        }
    }
}

/// Serves the last snapshot, which the page has had since the time `since`, until each client has had it, but for at
/// most 300 ms.
fn serve_last<R: Wait + Clock, P: ServedPage>(
    rt: &R,
    server: &mut PageServer,
    page: &mut P,
    since: Duration,
) {
    for _ in rt.forever() {
        // Without a clock nothing would bound the time.
        let Ok(now) = rt.monotonic() else {
            return;
        };
        let shown = now.saturating_sub(since);
        if server.has_answered_since(since) || shown >= Duration::from_millis(LAST_SHOWN_MS) {
            return;
        }
        server.wait(Duration::from_millis(LAST_POLL_MS));
        server.turn(page, now);
    }
}
