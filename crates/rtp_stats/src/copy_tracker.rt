//! Tracks the copies that each path brings of a stream's packets (SMPTE ST 2022-7), with their arrival margins.
ghost use Rattle.std.specs.Prelude.{◌≡◌, ◌<◌, None, [], List, length, IfOk};
ghost use Rattle.rtp_stream.specs.declared.stream_spec.Stream.{Stream};
ghost use Rattle.rtp_stats.specs.Offer.{Offer};
ghost use Rattle.rtp_stats.specs.CopyTracker.{NotesOffer};
ghost use Rattle.rtp_stats.specs.Tally.{HasTally};
ghost use Rattle.rtp_stats.specs.Stats.{AreNumbers, AreTold};

use crate::deadlines::Deadlines;
use crate::stats::{PathStats, StreamStats};
use crate::tally::StreamTally;
use rtp_stream::{Counts, Fate, Path, StreamSpec};
use std::alloc::{AllocError, Global};

/// A tracker of the fates and arrival margins of a stream's packets, path by path.
#[derive(Drop)]
pub struct CopyTracker {
    deadlines: Deadlines,
    tally: StreamTally,
}

impl CopyTracker {
    /// Returns a tracker of a stream, before any packet was offered. Allocates all its memory, and returns
    /// `AllocError` if that fails.
    pub fn new(alloc: Global, spec: &StreamSpec) -> Result<CopyTracker, AllocError>
        ensures tally { IfOk result (λ tracker. HasTally spec.now [] tracker.tally) }
        ensures known { IfOk result (λ tracker. tracker.deadlines ≡ None) }
    {
        Ok(CopyTracker {
            deadlines: Deadlines::new(),
            tally: StreamTally::new(alloc, spec)?,
        })
    }

    /// Notes the fate of a packet that was offered on a path.
    ///
    /// `due` is the stream's next deadline after the offer and `now` the clock reading of the offer, both in sampling
    /// instants at 48 kHz.
    pub fn note(&mut self, path: Path, seq: u16, ts: u32, fate: Fate, due: Option<i64>, now: i64)
        ensures { NotesOffer path fate seq ts due now self.old self.new }
    {
        // Compared before `margin`, which keeps this packet's deadline if it was taken.
        let again = self.deadlines.has_reached(ts);
        let spare = self.deadlines.margin(fate, ts, due, now);
        self.tally.add(path, fate, seq, spare, now, again);
    }

    /// Returns the statistics of a path's packets at the clock reading `now`, in sampling instants at 48 kHz.
    pub fn stats(&self, path: Path, now: i64) -> PathStats
        ensures { (stream : Stream) (offers : List Offer) → HasTally stream offers self.now.tally
            → AreNumbers stream offers path now result }
    {
        PathStats {
            tally: self.tally.path(path),
            spare: self.tally.spare(path, now),
        }
    }

    /// Returns the statistics of all paths' packets at the clock reading `now`, in sampling instants at 48 kHz, with
    /// the counts of the stream's merge.
    pub fn stream_stats(&self, counts: Counts, now: i64) -> StreamStats
        ensures counts { result.counts ≡ counts }
        ensures four { length result.paths ≡ 4 }
        ensures told { (stream : Stream) (offers : List Offer) → HasTally stream offers self.now.tally
            → AreTold stream offers counts now result }
    {
        StreamStats {
            counts,
            paths: [
                self.stats_at(0, now),
                self.stats_at(1, now),
                self.stats_at(2, now),
                self.stats_at(3, now),
            ],
        }
    }

    /// Returns the statistics of the path with this number, 0 to 3.
    fn stats_at(&self, number: u8, now: i64) -> PathStats
        requires { number < 4 }
        ensures { (stream : Stream) (offers : List Offer) → HasTally stream offers self.now.tally
            → AreNumbers stream offers number now result }
    {
        match Path::new(number) {
            Some(path) => self.stats(path, now),
            None => unreachable!(),
        }
    }
}
