//! The packets that were offered to an engine's merges, noted for the statistics of their paths.
ghost use Rattle.std.specs.Prelude.{IfOk};
ghost use Rattle.live_status.specs.Each.{AreEach};
ghost use Rattle.live_status.specs.EngineOffers.{AddsOfferAt, IsNewTracker};

use rtp_stats::CopyTracker;
use rtp_stream::{Path, StreamSpec};
use std::alloc::{AllocError, Global};
use studio_session::OfferedPacket;

/// Returns a copy tracker for each of these streams, before any packet was offered. Returns `AllocError` if an
/// allocation fails.
pub(crate) fn copy_trackers(
    alloc: Global,
    streams: &[StreamSpec],
) -> Result<Vec<CopyTracker>, AllocError>
    ensures { IfOk result (λ trackers. AreEach IsNewTracker streams.now trackers.items) }
{
    let mut trackers = Vec::with_capacity(alloc, streams.len())?;
    for stream in streams {
        trackers.push(CopyTracker::new(alloc, stream)?)?;
    }
    Ok(trackers)
}

/// Notes a packet of the stream of this number, if there is a copy tracker for it. `due` is the stream's next deadline
/// and `now` the time of the offer, both in sampling instants.
pub(crate) fn note_offer(
    trackers: &mut [CopyTracker],
    number: usize,
    path: Path,
    packet: OfferedPacket,
    due: Option<i64>,
    now: i64,
)
    ensures { AddsOfferAt number path packet due now trackers.old trackers.new }
{
    if number < trackers.len() {
        trackers[number].note(path, packet.seq, packet.ts, packet.fate, due, now);
    }
}
