//! The tracker of all streams of a studio.
use crate::reception::ReceptionObserver;
use crate::reception::axis::Axis;
use crate::reception::extent::Extent;
use crate::reception::panel_data::PanelData;
use crate::reception::stream_tracker::{StreamTracker, track_stream};
use rtp_stream::Path;
use std::alloc::{AllocError, Global};
use studio_config::StudioSpec;
use studio_session::EventSource;

/// The greatest number of streams of a studio.
const MAX_STREAMS: u8 = 16;

/// The tracker of a stream, with the observer of its reception.
#[derive(Drop)]
pub(crate) struct TrackedStream<O> {
    pub(crate) tracker: StreamTracker,
    pub(crate) observer: O,
}

/// The trackers of all streams of a studio, each with an observer.
///
/// A chart takes all events twice. The first tracker, from `measure`, finds the extent of the streams. The second, from
/// the first one's `for_drawing`, counts the events on one axis of this extent, and its `svg` returns the chart.
#[derive(Drop)]
pub struct StudioTracker<O> {
    pub(crate) streams: Vec<TrackedStream<O>>,
}

impl<O: ReceptionObserver + Drop> StudioTracker<O> {
    /// Takes a datagram that arrived on a path of a stream.
    pub fn arrived(&mut self, stream: usize, path: Path, octets: &[u8]) {
        for one in self.streams.iter_mut() {
            one.tracker.arrived(stream, path, octets, &mut one.observer);
        }
    }

    /// Takes a clock reading, in sampling instants at 48 kHz.
    pub fn read(&mut self, time: i64) {
        for one in self.streams.iter_mut() {
            one.tracker.read(time, &mut one.observer);
        }
    }

    /// Takes the close of the studio.
    pub fn closed(&mut self) {
        for one in self.streams.iter_mut() {
            one.tracker.closed(&mut one.observer);
        }
    }

    /// Takes all events, stream by stream.
    pub(crate) fn take_all<E: EventSource>(&mut self, source: &E) {
        for one in self.streams.iter_mut() {
            track_stream(&mut one.tracker, source, &mut one.observer);
        }
    }
}

impl StudioTracker<Extent> {
    /// Returns the streams of a studio before the first event, with observers of their extent. Returns `AllocError` if
    /// an allocation fails.
    pub fn measure(alloc: Global, spec: &StudioSpec) -> Result<StudioTracker<Extent>, AllocError> {
        let mut streams = Vec::new(alloc);
        // Not `enumerate`: the number of a stream is a `u8`.
        for (number, stream) in (0..MAX_STREAMS).zip(spec.streams().iter()) {
            streams.push(TrackedStream {
                tracker: StreamTracker::new(alloc, spec, *stream, number)?,
                observer: Extent::new(stream.frames()),
            })?;
        }
        Ok(StudioTracker { streams })
    }

    /// Returns the streams of this tracker before the first event, with observers that count their events on an axis of
    /// the measured extent. Returns `AllocError` if an allocation fails.
    pub fn for_drawing(
        &self,
        alloc: Global,
        spec: &StudioSpec,
    ) -> Result<StudioTracker<PanelData>, AllocError> {
        let axis = self.axis();
        let mut streams = Vec::new(alloc);
        for (number, one) in (0..MAX_STREAMS).zip(self.streams.iter()) {
            let stream = one.tracker.spec();
            streams.push(TrackedStream {
                tracker: StreamTracker::new(alloc, spec, stream, number)?,
                observer: PanelData::new(alloc, axis, one.observer.greatest_margin())?,
            })?;
        }
        Ok(StudioTracker { streams })
    }

    /// Returns one axis for all streams. Its intervals have whole packets of each stream whose packets divide the
    /// longest.
    fn axis(&self) -> Axis {
        let mut frames = 1;
        let mut stretch: Option<(i64, i64)> = None;
        for one in self.streams.iter() {
            frames = one.tracker.spec().frames().max(frames);
            stretch = with_extent(stretch, &one.observer);
        }
        // Without a packet the axis has a second.
        let (first, last) = stretch.unwrap_or((0, 48_000));
        Axis::of(first, last, frames)
    }
}

/// Returns the least stretch of media time with a stretch and the extent of a stream.
fn with_extent(stretch: Option<(i64, i64)>, extent: &Extent) -> Option<(i64, i64)> {
    let Some(first) = extent.first() else {
        return stretch;
    };
    match stretch {
        Some((from, to)) => Some((from.min(first), to.max(extent.last()))),
        None => Some((first, extent.last())),
    }
}
