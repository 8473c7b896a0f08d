//! The channel that reports the outcomes of a path's datagrams before the merge.
ghost use Rattle.std.specs.Prelude.{IfOk};
ghost use Rattle.rtrb.specs.Ring.{SameConsumer, SameProducer};
ghost use Rattle.rtp_stats.specs.Channel.{Gives, IsFreshPair, IsNewest};

use crate::channel::{take_newest, try_send};
use rtp_stream::PathCounts;
use rtrb::{Consumer, Producer, RingBuffer};
use std::alloc::{AllocError, Global};

/// The sender of the counts of a path's datagrams.
#[derive(Drop)]
pub struct PathCountsSender {
    ring: Producer<PathCounts>,
}

/// The receiver of the counts of a path's datagrams.
#[derive(Drop)]
pub struct PathCountsReceiver {
    ring: Consumer<PathCounts>,
}

/// Opens the channel. Allocates all memory of both ends, and returns `AllocError` if that fails.
// One place is enough, since later counts include the earlier ones.
pub fn path_counts_channel(
    alloc: Global,
) -> Result<(PathCountsSender, PathCountsReceiver), AllocError>
    ensures pair { IfOk result (λ ends. IsFreshPair 1 ends.0.ring ends.1.ring) }
{
    let (producer, consumer) = RingBuffer::new(alloc, 1)?;
    Ok((
        PathCountsSender { ring: producer },
        PathCountsReceiver { ring: consumer },
    ))
}

impl PathCountsSender {
    /// Sends these counts, if the receiver has taken the last ones. Drops them otherwise.
    pub fn send(&mut self, counts: PathCounts)
        ensures told { Gives counts self.old.ring self.new.ring }
        ensures ring { SameProducer self.old.ring self.new.ring }
    {
        try_send(&mut self.ring, counts);
    }
}

impl PathCountsReceiver {
    /// Returns the counts that were sent since the last call; `None` if none were. They are the first that were sent
    /// after that call.
    pub fn latest(&mut self) -> Option<PathCounts>
        ensures newest { IsNewest 1 result self.old.ring self.new.ring }
        ensures ring { SameConsumer self.old.ring self.new.ring }
    {
        take_newest(&mut self.ring, 1)
    }
}
