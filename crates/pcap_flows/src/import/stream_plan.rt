//! The streams of a configuration that fits a capture.
use crate::capture_skews::{push_pairs, skews_of};
use crate::fault::ImportFault;
use crate::import::stream_times::{StreamTimes, stream_times_in};
use crate::packet_format::{PacketFormat, first_format};
use crate::routes::{Route, Routes};
use crate::table::FlowTable;
use rtp_stream::Stream;
use std::alloc::{AllocError, Global};

/// The least latency that is chosen: 10 ms, in sampling instants at 48 kHz.
// Paths without a skew in the capture may have one later, and the system may wake a receiver late.
const MIN_LATENCY: u32 = 480;

/// The stream of a configuration that fits some flows.
#[derive(Clone, Copy)]
pub(crate) struct StreamPlan {
    /// The stream.
    pub(crate) stream: Stream,
    /// The times of the flows' packets.
    pub(crate) times: StreamTimes,
}

/// Returns a plan for each stream of the routes. `latency` is in milliseconds; if it is none, it is twice the greatest
/// skew of a stream's paths, and at least 10 ms.
pub(crate) fn stream_plans(
    alloc: Global,
    table: &FlowTable,
    octets: &[u8],
    routes: &Routes,
    latency: Option<u32>,
) -> Result<Vec<StreamPlan>, ImportFault> {
    let times = stream_times_in(alloc, octets, routes)?;
    let mut plans = Vec::new(alloc);
    for (number, own) in times.iter().enumerate() {
        let Some(own) = own else {
            return Err(ImportFault::NoFormat);
        };
        let places = places_of(alloc, table, routes.list(), number)?;
        let plan = plan_of(alloc, table, octets, places.as_slice(), own, latency)?;
        if plans.push(plan).is_err() {
            return Err(ImportFault::Memory);
        }
    }
    Ok(plans)
}

/// Returns the places of a stream's flows in their table.
fn places_of(
    alloc: Global,
    table: &FlowTable,
    routes: &[Route],
    number: usize,
) -> Result<Vec<usize>, AllocError> {
    let mut places = Vec::new(alloc);
    for route in routes.iter() {
        if usize::from(route.stream) == number
            && let Some(place) = table.index_of(&route.key)
        {
            places.push(place)?;
        }
    }
    Ok(places)
}

/// Returns the plan of a stream. Returns `NoFormat` if none of its flows has a format, and `Latency` if no window spans
/// the latency.
fn plan_of(
    alloc: Global,
    table: &FlowTable,
    octets: &[u8],
    places: &[usize],
    times: &StreamTimes,
    asked: Option<u32>,
) -> Result<StreamPlan, ImportFault> {
    let format = first_format(table, places).ok_or(ImportFault::NoFormat)?;
    let latency = match asked {
        Some(ms) => ms.saturating_mul(48),
        None => latency_for(greatest_skew(alloc, table, octets, places)?),
    };
    let paths = places.len().min(4) as u8;
    let window = window_for(&format, latency, paths).ok_or(ImportFault::Latency)?;
    let stream = Stream {
        enc: format.enc,
        channels: format.channels,
        frames: format.frames,
        pt: format.pt,
        ssrc: None,
        clock: times.clock_for(latency),
        latency,
        window,
        paths,
    };
    Ok(StreamPlan {
        stream,
        times: *times,
    })
}

/// Returns the greatest time by which a further path was behind the first or before it, in nanoseconds.
fn greatest_skew(
    alloc: Global,
    table: &FlowTable,
    octets: &[u8],
    places: &[usize],
) -> Result<u64, AllocError> {
    let mut pairs = Vec::new(alloc);
    push_pairs(&mut pairs, table, places)?;
    let skews = skews_of(alloc, octets, pairs.as_slice())?;
    let mut greatest = 0;
    for skew in skews.iter() {
        if let Some(skew) = skew {
            greatest = greatest
                .max(skew.least.unsigned_abs())
                .max(skew.greatest.unsigned_abs());
        }
    }
    Ok(greatest)
}

/// Returns twice a skew in sampling instants, rounded up, and at least 10 ms.
fn latency_for(skew: u64) -> u32 {
    // A nanosecond is 3/62,500 of a sampling instant.
    let instants = (u128::from(skew) * 6).div_ceil(62_500);
    u32::try_from(instants).unwrap_or(u32::MAX).max(MIN_LATENCY)
}

/// Returns the least window that spans twice the latency and two packets. If there is none it returns the greatest that
/// spans the latency, if there is one.
// With so wide a window, packets of the earlier path are not too early for it.
fn window_for(format: &PacketFormat, latency: u32, paths: u8) -> Option<u16> {
    let wanted = u64::from(latency)
        .saturating_add(u64::from(format.frames))
        .saturating_mul(2);
    let mut greatest = None;
    // The windows of streams are the powers of two from 8 to 16,384.
    for power in 3..15u32 {
        let window = 1u16.wrapping_shl(power);
        if format.is_stream(latency, window, paths) {
            greatest = Some(window);
            if u64::from(window).saturating_mul(u64::from(format.frames)) >= wanted {
                break;
            }
        }
    }
    greatest
}
