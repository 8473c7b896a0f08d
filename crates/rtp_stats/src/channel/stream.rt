//! The channel that reports the fates of a stream's packets.
ghost use Rattle.std.specs.Prelude.{◌≡◌, ◌^◌, [], List, None, IfOk, ℤ, pos, neg_ℤ, ◌+ℤ◌, ◌<ℤ◌, ◌≤ℤ◌};
ghost use Rattle.rtrb.specs.Ring.{SameConsumer, SameProducer};
ghost use Rattle.rtp_stream.specs.declared.stream_spec.Stream.{Stream};
ghost use Rattle.rtp_stats.specs.Offer.{Offer};
ghost use Rattle.rtp_stats.specs.Tally.{HasTally};
ghost use Rattle.rtp_stats.specs.Channel.{IsFreshPair, IsNewest};
ghost use Rattle.rtp_stats.specs.Channels.{Tells};
ghost use Rattle.rtp_stats.specs.CopyTracker.{NotesOffer};

use crate::channel::{take_newest, try_send};
use crate::copy_tracker::CopyTracker;
use crate::stats::StreamStats;
use rtp_stream::{Counts, Fate, PacketRef, Path, StreamSpec};
use rtrb::{Consumer, Producer, RingBuffer};
use std::alloc::{AllocError, Global};

/// The least time between two sends, in sampling instants at 48 kHz: a tenth of a second.
// The page gets a snapshot as often. More sends would cost the stream's worker time, and nobody would see them.
const TENTH: i64 = 4_800;

/// The number of places in the ring: statistics of 0.4 s may wait for the receiver.
const PLACES: usize = 4;

/// The sender of the statistics of a stream's packets.
#[derive(Drop)]
pub struct StreamStatsSender {
    tracker: CopyTracker,
    ring: Producer<StreamStats>,
    /// The time from which it sends again, in sampling instants at 48 kHz.
    next: i64,
}

/// The receiver of the statistics of a stream's packets.
#[derive(Drop)]
pub struct StreamStatsReceiver {
    ring: Consumer<StreamStats>,
}

/// Opens the channel for a stream, before any packet was offered.
///
/// Allocates all memory of both ends. Returns `AllocError` if that fails.
pub fn stream_stats_channel(
    alloc: Global,
    spec: &StreamSpec,
) -> Result<(StreamStatsSender, StreamStatsReceiver), AllocError>
    ensures pair { IfOk result (λ ends. IsFreshPair PLACES ends.0.ring ends.1.ring) }
    ensures empty { IfOk result (λ ends. HasTally spec.now [] ends.0.tracker.tally) }
    ensures known { IfOk result (λ ends. ends.0.tracker.deadlines ≡ None) }
    ensures next { IfOk result (λ ends. (now : ℤ) → neg_ℤ (pos (2 ^ 63)) ≤ℤ now → ends.0.next ≤ℤ now) }
{
    let tracker = CopyTracker::new(alloc, spec)?;
    let (producer, consumer) = RingBuffer::new(alloc, PLACES)?;
    let sender = StreamStatsSender {
        tracker,
        ring: producer,
        // Before every reading, so that the first call of `send` sends.
        next: i64::MIN,
    };
    Ok((sender, StreamStatsReceiver { ring: consumer }))
}

impl StreamStatsSender {
    /// Notes the fate of a packet that was offered on a path.
    ///
    /// `due` is the stream's next deadline after the offer and `now` the clock reading of the offer, both in sampling
    /// instants at 48 kHz.
    pub fn note(
        &mut self,
        path: Path,
        packet: PacketRef<'_>,
        fate: Fate,
        due: Option<i64>,
        now: i64,
    )
        ensures noted { NotesOffer path fate packet.entry.seq packet.entry.ts due now
            self.old.tracker self.new.tracker }
        ensures ring { self.new.ring ≡ self.old.ring }
    {
        self.tracker
            .note(path, packet.seq, packet.ts, fate, due, now);
    }

    /// Sends these counts and the paths' statistics at the clock reading `now`, in sampling instants at 48 kHz, if a
    /// tenth of a second went by since the last send and there is space.
    pub fn send(&mut self, counts: Counts, now: i64)
        ensures told { (stream : Stream) (offers : List Offer) → HasTally stream offers self.old.tracker.tally
            → Tells stream offers counts self.old.next now self.old.ring self.new.ring }
        ensures early { now <ℤ self.old.next → self.new.next ≡ self.old.next }
        ensures next { self.old.next ≤ℤ now → self.new.next ≤ℤ (now +ℤ TENTH) }
        ensures waits { self.old.next ≤ℤ now → now ≤ℤ pos (2 ^ 62) → self.new.next ≡ now +ℤ TENTH }
        ensures ring { SameProducer self.old.ring self.new.ring }
        ensures tracker { self.new.tracker ≡ self.old.tracker }
    {
        if now < self.next {
            return;
        }
        // Set also if the ring turns out to be full: a receiver that is gone then costs ten tries a second.
        self.next = now.saturating_add(TENTH);
        let stats = self.tracker.stream_stats(counts, now);
        try_send(&mut self.ring, stats);
    }
}

impl StreamStatsReceiver {
    /// Returns the newest of the statistics that were sent since the last call; `None` if none were.
    pub fn latest(&mut self) -> Option<StreamStats>
        ensures newest { IsNewest PLACES result self.old.ring self.new.ring }
        ensures ring { SameConsumer self.old.ring self.new.ring }
    {
        take_newest(&mut self.ring, PLACES)
    }
}
