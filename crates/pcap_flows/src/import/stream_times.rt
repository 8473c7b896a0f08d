//! The times of streams: their first packets, how far capture time less timestamp moved, and the clock that fits them.
ghost use Rattle.std.specs.Prelude.{◌≡◌};
ghost use Rattle.pcap_flows.specs.StreamTimes as spec;

use crate::fault::ImportFault;
use crate::import::clock::CaptureClock;
use crate::import::route_in;
use crate::packet::flow_packet;
use crate::routes::Routes;
use pcap_file::open;
use rtp_stream::StreamClock;
use std::alloc::Global;

/// The times of a stream's packets in a capture. Times are in sampling instants at 48 kHz.
#[derive(Clone, Copy)]
pub(crate) struct StreamTimes {
    /// The RTP timestamp of the first packet, minus the reading of the trace's clock at its arrival, modulo 2^32.
    pub(crate) offset: u32,
    /// The reading of the trace's clock at the arrival of the first packet.
    first: u64,
    /// The reading at the arrival of the last packet.
    last: u64,
    /// The least time by which a packet came later than its timestamp says, by that of the first packet. It is negative
    /// if a packet came earlier.
    least: i64,
    /// The greatest time by which a packet came later.
    greatest: i64,
    /// The time by which the last packet came later.
    end: i64,
}

impl StreamTimes {
    /// Returns the times of a stream whose first packet came.
    fn new(ts: u32, reading: u64) -> StreamTimes {
        StreamTimes {
            offset: offset_at(ts, reading),
            first: reading,
            last: reading,
            least: 0,
            greatest: 0,
            end: 0,
        }
    }

    /// Adds a packet.
    // Both timestamp and clock reading may wrap, so their difference is taken modulo 2^32: half of that is 12 hours.
    fn add(&mut self, ts: u32, reading: u64) {
        let late = signed(self.offset.wrapping_sub(offset_at(ts, reading)));
        self.note(late, reading);
    }

    /// Adds a packet that came this much later than its timestamp says.
    fn note(&mut self, late: i64, reading: u64)
        ensures { self.new ≡ spec.times_with self.old late reading }
    {
        self.last = reading;
        if late < self.least {
            self.least = late;
        }
        if late > self.greatest {
            self.greatest = late;
        }
        self.end = late;
    }

    /// Returns the time within which capture time less timestamp stays.
    pub(crate) fn moved(&self) -> u64
        ensures { result ≡ spec.moved_by self.now }
    {
        self.greatest.abs_diff(self.least)
    }

    /// Returns the clock of the stream with a latency in sampling instants: that of its media, by the first packet's
    /// offset, if capture time less timestamp stays within the latency, or else the one that follows its sender.
    pub(crate) fn clock_for(&self, latency: u32) -> StreamClock
        ensures { result ≡ spec.clock_for self.now latency }
    {
        if self.moved() <= u64::from(latency) {
            StreamClock::Media {
                offset: self.offset,
            }
        } else {
            StreamClock::Follow
        }
    }

    /// Returns the seconds from the first packet to the last, and by how many parts per million packets came earlier
    /// and earlier from the one to the other; 0 within less than a second.
    pub(crate) fn rate(&self) -> (u64, i64) {
        let span = self.last.saturating_sub(self.first);
        if span < 48_000 {
            return (0, 0);
        }
        let ppm = self.end.unsigned_abs().saturating_mul(1_000_000) / span;
        let ppm = i64::try_from(ppm).unwrap_or(i64::MAX);
        let signed = if self.end > 0 {
            0i64.saturating_sub(ppm)
        } else {
            ppm
        };
        (span / 48_000, signed)
    }
}

/// Returns the number nearest to 0 that is this one modulo 2^32.
fn signed(number: u32) -> i64
    ensures { result ≡ spec.nearest_to_zero number }
{
    let number = i64::from(number);
    if number < 2_147_483_648 {
        number
    } else {
        number - 4_294_967_296
    }
}

/// Returns a timestamp minus a clock reading, modulo 2^32.
fn offset_at(ts: u32, reading: u64) -> u32 {
    ts.wrapping_sub((reading % 4_294_967_296) as u32)
}

/// Returns the times of each stream in the capture `octets`, or none for a stream that has no packet.
pub(crate) fn stream_times_in(
    alloc: Global,
    octets: &[u8],
    routes: &Routes,
) -> Result<Vec<Option<StreamTimes>>, ImportFault> {
    let mut times = Vec::from_elem(alloc, None, usize::from(routes.streams))?;
    let mut clock = CaptureClock::new();
    let Ok(capture) = open(octets) else {
        return Ok(times);
    };
    for item in capture {
        if let Ok(packet) = item
            && let Some(route) = route_in(routes.list(), &packet)
            && let Some(next) = flow_packet(&packet)
        {
            // Every packet with a route moves the clock, as in the trace.
            clock.read(packet.time);
            if let Some(own) = times.get_mut(usize::from(route.stream)) {
                add_packet(own, next.ts, clock.reading());
            }
        }
    }
    Ok(times)
}

/// Adds a packet to the times of its stream.
fn add_packet(times: &mut Option<StreamTimes>, ts: u32, reading: u64) {
    match times {
        Some(times) => times.add(ts, reading),
        None => *times = Some(StreamTimes::new(ts, reading)),
    }
}
