//! A feed over datagrams in memory.
ghost use Rattle.std.specs.Prelude.{◌≡◌};
ghost use Rattle.studio_io.specs.Memory.{told_of};

use crate::feed::{Feed, FeedAnswer};
use std::marker::Model;

/// A feed that returns these datagrams in order, and then ends. It cuts a datagram that is longer than the buffer.
/// Contracts see it as the results that are left.
#[derive(Drop)]
pub struct MemoryFeed<'a> {
    datagrams: &'a [Vec<u8>],
    next: usize,
    // Set by the call that returns `Ended`: contracts count that result among those that are left until then.
    ended: bool,
}

impl<'a> Model for MemoryFeed<'a> {
    ghost use Rattle.std.specs.Prelude.{List, [], drop, if◌then◌else◌};
    ghost use Rattle.studio_io.specs.Answers.{Answer};
    ghost use Rattle.studio_io.specs.Memory.{told_of};

    ghost Value = { List Answer };

    ghost view = { λ f. if f.ended then [] else told_of (drop f.next f.datagrams.now) };
}

impl<'a> MemoryFeed<'a> {
    /// Returns a feed that has returned none of these datagrams yet.
    pub fn new(datagrams: &'a [Vec<u8>]) -> MemoryFeed<'a>
        ensures { result ≡ told_of datagrams.now }
    {
        MemoryFeed {
            datagrams,
            next: 0,
            ended: false,
        }
    }
}

impl<'a> Feed for MemoryFeed<'a> {
    ghost told = { λ feed. feed };

    fn next(&mut self, buf: &mut [u8]) -> FeedAnswer {
        let Some(datagram) = self.datagrams.get(self.next) else {
            self.ended = true;
            return FeedAnswer::Ended;
        };
        self.next += 1;
        let count = buf.len().min(datagram.len());
        buf[..count].copy_from_slice(&datagram[..count]);
        FeedAnswer::Datagram(count)
    }
}
