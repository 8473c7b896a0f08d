//! The rings between a run's workers.
ghost use Rattle.std.specs.List.{fold};
ghost use Rattle.std.specs.Prelude.{◌≡◌, ◌<◌, length, IfOk, IfErr};
ghost use Rattle.studio_rings.specs.StreamResults.{AreOpenedTogether};
ghost use Rattle.live_run.specs.RingPlaces.{places_with, ring_places};
ghost use Rattle.live_run.specs.RunResult.{IsEarly};
ghost use Rattle.live_run.specs.declared.fault.LiveFault.TheVariants.{Latencies};

use crate::fault::LiveFault;
use live_io::greatest_latency;
use rtp_stream::StreamSpec;
use std::alloc::Global;
use studio_config::StudioSpec;
use studio_ends::{Ends, OpenFault, StatsReceivers, open, open_with_stats};

/// The fewest places of a ring.
// 256 packets of 6 sampling instants are 32 ms. A packet that finds no place waits in its socket.
const FEWEST_PLACES: u32 = 256;

/// The most places of a ring.
const MOST_PLACES: u32 = 65_536;

/// The ends of all rings, and the receivers of statistics, if there is a status.
#[derive(Drop)]
pub(crate) struct Rings {
    pub(crate) ends: Ends,
    pub(crate) receivers: Option<StatsReceivers>,
}

/// Returns the rings of a studio that has this many paths. Returns `LiveFault::Latencies` if they would need too many
/// places, `LiveFault::Socket` if it has another number of paths, and `LiveFault::Memory` if an allocation fails.
pub(crate) fn open_rings(
    alloc: Global,
    studio: &StudioSpec,
    paths: usize,
    is_shown: bool,
) -> Result<Rings, LiveFault>
    ensures opened { IfOk result (λ rings. AreOpenedTogether studio.now (ring_places studio.now) rings.ends) }
    ensures paths { IfOk result (λ rings. length rings.ends.paths.items ≡ paths) }
    ensures early { IfErr result IsEarly }
{
    let places = places_of(studio)?;
    let rings = opened_rings(alloc, studio, places, is_shown)?;
    if rings.ends.paths.len() != paths {
        return Err(LiveFault::Socket);
    }
    Ok(rings)
}

/// Returns the number of places of each ring of a studio. Returns `LiveFault::Latencies` if there would be more than
/// 65,536.
// The mixer takes marks for its next block alone, and that waits for the stream of the greatest latency. Meanwhile the
// marks of the other streams are in their rings. A stream whose ring was full would fall behind its clock.
fn places_of(studio: &StudioSpec) -> Result<usize, LiveFault>
    ensures places { IfOk result (λ places. places ≡ ring_places studio.now) }
    ensures fault { IfErr result (λ fault. (fault ≡ Latencies) × (65536 < ring_places studio.now)) }
{
    let places = most_places(studio.streams(), greatest_latency(studio.streams()));
    if places > MOST_PLACES {
        return Err(LiveFault::Latencies);
    }
    Ok(places as usize)
}

/// Returns the number of places that the rings of these streams need, if this is the greatest latency.
fn most_places(streams: &[StreamSpec], greatest: u32) -> u32
    ensures { result ≡ fold (places_with greatest) 256 streams.now }
{
    let mut most = FEWEST_PLACES;
    for stream in streams {
        most = places_with(most, greatest, stream);
    }
    most
}

/// Returns the greater of a number of places and that of a stream's rings.
fn places_with(most: u32, greatest: u32, stream: &StreamSpec) -> u32
    ensures { result ≡ places_with greatest most stream.now }
{
    let ahead = greatest.saturating_sub(stream.latency());
    most.max(ahead / u32::from(stream.frames()) + FEWEST_PLACES)
}

/// Returns the rings of a studio, each with this many places, with receivers of statistics if there is a status.
fn opened_rings(
    alloc: Global,
    studio: &StudioSpec,
    places: usize,
    is_shown: bool,
) -> Result<Rings, OpenFault>
    ensures opened { IfOk result (λ rings. AreOpenedTogether studio.now places rings.ends) }
{
    if is_shown {
        let (ends, receivers) = open_with_stats(alloc, studio, places)?;
        return Ok(Rings {
            ends,
            receivers: Some(receivers),
        });
    }
    let ends = open(alloc, studio, places)?;
    Ok(Rings {
        ends,
        receivers: None,
    })
}
