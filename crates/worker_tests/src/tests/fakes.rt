//! A feed and a sink that fail, and a wait that does not wait.
ghost use Rattle.std.specs.Prelude.{[], map, None, Some};

use engine_run::IdleWait;
use std::alloc::Global;
use std::process::Abort;
use studio_engine::Engine;
use studio_io::MemoryFeed;
use studio_rings::{Feed, FeedAnswer, SendAnswer, Sink};

/// A feed that fails a number of times before its first result, and a number of times before each later result.
#[derive(Drop)]
pub(super) struct FaultyFeed<'a> {
    feed: MemoryFeed<'a>,
    left: u32,
    later: u32,
}

impl<'a> FaultyFeed<'a> {
    pub(super) fn new(first: u32, later: u32, datagrams: &'a [Vec<u8>]) -> FaultyFeed<'a> {
        FaultyFeed {
            feed: MemoryFeed::new(datagrams),
            left: first,
            later,
        }
    }
}

impl<'a> Feed for FaultyFeed<'a> {
    ghost told = { λ feed. [] };

    fn next(&mut self, buf: &mut [u8]) -> FeedAnswer {
        if self.left > 0 {
            self.left -= 1;
            return FeedAnswer::Fault;
        }
        self.left = self.later;
        self.feed.next(buf)
    }
}

/// A sink that keeps its datagrams, and whose contents contracts can name. Address B takes a number of datagrams, and
/// then fails.
#[derive(Drop)]
pub(super) struct FailingSink<'a, R: Abort> {
    rt: &'a R,
    alloc: Global,
    handed: Vec<Vec<u8>>,
    by_b: usize,
}

impl<'a, R: Abort> FailingSink<'a, R> {
    pub(super) fn new(rt: &'a R, alloc: Global, by_b: usize) -> FailingSink<'a, R> {
        FailingSink {
            rt,
            alloc,
            handed: Vec::new(alloc),
            by_b,
        }
    }

    /// Returns all datagrams, in order.
    pub(super) fn handed(&self) -> &[Vec<u8>] {
        self.handed.as_slice()
    }
}

impl<'a, R: Abort> Sink for FailingSink<'a, R> {
    ghost handed = { λ sink. Some (map (λ datagram. datagram.items) sink.handed.items) };

    ghost answered = { λ sink. None };

    fn send(&mut self, datagram: &[u8]) -> SendAnswer {
        let b = self.handed.len() < self.by_b;
        let Ok(copy) = Vec::from_slice(self.alloc, datagram) else {
            panic!(self.rt; "no memory for a datagram")
        };
        if self.handed.push(copy).is_err() {
            panic!(self.rt; "no memory for a datagram")
        }
        SendAnswer { a: true, b }
    }
}

/// Takes no rest.
#[derive(Clone, Copy)]
pub(super) struct NoPause;

impl IdleWait for NoPause {
    fn wait_for_input(&mut self, _engine: &Engine, _most: i64) -> bool {
        true
    }
}
