//! A clock, a feed, a sink and a pause that share a time, which moves on only by the pauses.
ghost use Rattle.std.specs.Prelude.{[], None};

use engine_run::IdleWait;
use std::sync::atomic::{AtomicI64, Ordering};
use studio_engine::Engine;
use studio_io::MemoryFeed;
use studio_rings::{Clock, Feed, FeedAnswer, SendAnswer, Sink};

/// Reads the time.
#[derive(Drop)]
pub(super) struct TimedClock<'a> {
    pub(super) time: &'a AtomicI64,
}

impl Clock for TimedClock<'_> {
    ghost told = { λ clock. [] };

    fn now(&mut self) -> i64 {
        self.time.load(Ordering::SeqCst)
    }
}

/// Pauses as long as it may, after which the last clock reading is too old.
#[derive(Drop)]
pub(super) struct WholeRest<'a> {
    pub(super) time: &'a AtomicI64,
}

impl IdleWait for WholeRest<'_> {
    fn wait_for_input(&mut self, _engine: &Engine, most: i64) -> bool {
        let now = self.time.load(Ordering::SeqCst);
        self.time.store(now.saturating_add(most), Ordering::SeqCst);
        false
    }
}

/// A feed that returns its datagrams at once, and ends at a time.
#[derive(Drop)]
pub(super) struct TimedFeed<'t, 'd> {
    pub(super) time: &'t AtomicI64,
    pub(super) feed: MemoryFeed<'d>,
    pub(super) until: i64,
}

impl Feed for TimedFeed<'_, '_> {
    ghost told = { λ feed. [] };

    fn next(&mut self, buf: &mut [u8]) -> FeedAnswer {
        match self.feed.next(buf) {
            FeedAnswer::Ended if self.time.load(Ordering::SeqCst) < self.until => {
                FeedAnswer::Nothing
            }
            answer => answer,
        }
    }
}

/// A sink that keeps the times at which it was passed its datagrams.
#[derive(Drop)]
pub(super) struct TimedSink<'a> {
    pub(super) time: &'a AtomicI64,
    pub(super) times: Vec<i64>,
}

impl Sink for TimedSink<'_> {
    ghost handed = { λ sink. None };

    ghost answered = { λ sink. None };

    fn send(&mut self, _datagram: &[u8]) -> SendAnswer {
        let kept = self.times.push(self.time.load(Ordering::SeqCst)).is_ok();
        SendAnswer { a: kept, b: kept }
    }
}
